ghost use Rattle.std.specs.Prelude.{
  ◌≡◌,
  ◌↔◌,
  ◌≤◌,
  ◌+◌,
  ◌-◌,
  ◌/◌,
  ◌++◌,
  IsTrue,
  IfOk,
  length,
  take,
  replicate,
};
ghost use Rattle.md5.specs.Md5.{md5};
ghost use Rattle.rsl_auth.specs.Password.{
  hidden,
  hidden_blocks,
  is_padded,
  is_password_length,
  IsPadded,
  IsPasswordLength,
  masked,
  matches_password,
  nuls_after,
  revealed,
};

use crate::comparison::same_octets;
use md5::{Digest, Md5};
use rsl_wire::NoMemory;
use std::alloc::Global;

/// Octets of a block (RFC 2865 section 5.2).
const BLOCK_LEN: usize = 16;

/// Octets that are digested at once: an MD5 block, which holds a secret of up to 48 octets and the
/// 16 octets after it.
const PIECE_LEN: usize = 64;

/// The most octets of a password, and of the value that hides it (RFC 2865 section 5.2).
pub const MAX_PASSWORD_LEN: usize = 128;

/// The User-Password value that hides a password of at most 128 octets: padded with NULs to blocks
/// of 16, at least one, each xor MD5(Secret, the hidden block before), the first xor MD5(Secret,
/// Request Authenticator) (RFC 2865 section 5.2). It has 16, 32, .. or 128 octets. It fails only if
/// memory is refused.
pub fn hide(
    alloc: Global,
    password: &[u8],
    secret: &[u8],
    request_auth: &[u8; 16],
) -> Result<Vec<u8>, NoMemory>
    requires { length password.now ≤ 128 }
    ensures value { IfOk result (λ value.
        value.items ≡ hidden password.now secret.now request_auth.now) }
    ensures length { IfOk result (λ value. IsPasswordLength (length value.items)) }
    ensures reveals { IfOk result (λ value.
        IsTrue (matches_password value.items secret.now request_auth.now password.now)) }
{
    let buffer = pad(password);
    let octets = &buffer[..padded_len(password.len())];
    hide_blocks(alloc, octets, secret, request_auth)
}

/// Whether a User-Password value hides this password: it has 16, 32, .. or 128 octets, and what it
/// hides is the password followed by NULs alone (RFC 2865 section 5.2).
#[tactic(auto, unfolding(crate::specs::Password::matches_password))]
pub fn pap_ok(value: &[u8], secret: &[u8], request_auth: &[u8; 16], password: &[u8]) -> bool
    ensures test { result ≡ matches_password value.now secret.now request_auth.now password.now }
    ensures matches { IsTrue result ↔ (IsPasswordLength (length value.now) ×
        IsPadded (revealed value.now secret.now request_auth.now) password.now) }
{
    if !has_password_len(value) {
        return false;
    }
    let buffer = reveal(value, secret, request_auth);
    is_followed_by_nuls(&buffer[..value.len()], password)
}

/// The padded length of a password.
fn padded_len(len: usize) -> usize
    requires { len ≤ 128 }
    ensures { result ≡ len + nuls_after len }
{
    if len == 0 {
        BLOCK_LEN
    } else {
        len.next_multiple_of(BLOCK_LEN)
    }
}

/// The password, padded with NULs.
fn pad(password: &[u8]) -> [u8; MAX_PASSWORD_LEN]
    requires { length password.now ≤ 128 }
    ensures { result ≡ password.now ++ replicate (128 - length password.now) 0 }
{
    let mut buffer = [0u8; MAX_PASSWORD_LEN];
    buffer[..password.len()].copy_from_slice(password);
    buffer
}

/// The hidden blocks of octets, joined.
fn hide_blocks(
    alloc: Global,
    octets: &[u8],
    secret: &[u8],
    request_auth: &[u8; 16],
) -> Result<Vec<u8>, NoMemory>
    ensures { IfOk result (λ value. value.items ≡
        hidden_blocks (length octets.now / 16) octets.now secret.now request_auth.now) }
{
    let mut value = Vec::with_capacity(alloc, octets.len())?;
    let mut before = *request_auth;
    for k in 0..octets.len() / BLOCK_LEN {
        let at = BLOCK_LEN * k;
        before = mask(&octets[at..at + BLOCK_LEN], secret, &before);
        value.extend_from_slice(&before)?;
    }
    Ok(value)
}

/// Whether a value has 16, 32, .. or 128 octets.
fn has_password_len(value: &[u8]) -> bool
    ensures { result ≡ is_password_length (length value.now) }
{
    let len = value.len();
    len % BLOCK_LEN == 0 && BLOCK_LEN <= len && len <= MAX_PASSWORD_LEN
}

/// The octets that a value hides, at the start of a buffer.
fn reveal(value: &[u8], secret: &[u8], request_auth: &[u8; 16]) -> [u8; MAX_PASSWORD_LEN]
    requires { IsPasswordLength (length value.now) }
    ensures { take (length value.now) result ≡ revealed value.now secret.now request_auth.now }
{
    let mut buffer = [0u8; MAX_PASSWORD_LEN];
    let mut before: &[u8] = request_auth;
    for k in 0..value.len() / BLOCK_LEN {
        let at = BLOCK_LEN * k;
        let block = &value[at..at + BLOCK_LEN];
        buffer[at..at + BLOCK_LEN].copy_from_slice(&mask(block, secret, before));
        before = block;
    }
    buffer
}

/// A block xor MD5(secret, before).
#[tactic(auto, using(crate::proofs::PasswordLemmas::masked_from_reads))]
fn mask(block: &[u8], secret: &[u8], before: &[u8]) -> [u8; BLOCK_LEN]
    requires { length block.now ≡ 16 }
    ensures { result ≡ masked block.now secret.now before.now }
{
    let digest = digest_of(secret, before);
    let mut octets = [0u8; BLOCK_LEN];
    for i in 0..BLOCK_LEN {
        octets[i] = block[i] ^ digest[i];
    }
    octets
}

/// MD5(secret, before), which is faster for octets that fit one block.
fn digest_of(secret: &[u8], before: &[u8]) -> [u8; 16]
    ensures { result ≡ md5 (secret.now ++ before.now) }
{
    let len = secret.len() + before.len();
    if len > PIECE_LEN {
        return digest_of_parts(secret, before);
    }
    let mut piece = [0u8; PIECE_LEN];
    piece[..secret.len()].copy_from_slice(secret);
    piece[secret.len()..len].copy_from_slice(before);
    Md5::digest(&piece[..len])
}

/// MD5(secret, before), of octets of any length.
fn digest_of_parts(secret: &[u8], before: &[u8]) -> [u8; 16]
    ensures { result ≡ md5 (secret.now ++ before.now) }
{
    let mut hasher = Md5::new();
    hasher.update(secret);
    hasher.update(before);
    hasher.finalize()
}

/// Whether octets are the password followed by NULs alone. If the password is no longer than they
/// are, every octet is compared, wherever the first difference is.
fn is_followed_by_nuls(octets: &[u8], password: &[u8]) -> bool
    requires { length octets.now ≤ 128 }
    ensures { result ≡ is_padded octets.now password.now }
{
    if octets.len() < password.len() {
        return false;
    }
    let padded = pad(password);
    same_octets(octets, &padded[..octets.len()])
}
