ghost use Rattle.std.specs.Prelude.{◌≡◌, ◌++◌, List, ℕ};
ghost use Rattle.md5.specs.Md5.{Holds, md5};
ghost use Rattle.rsl_auth.specs.Hmac.{hmac_md5, key_block, key_xor, padded};

use md5::{Digest, Md5};

/// Octets of an MD5 block (RFC 2104 section 2).
const BLOCK_LEN: usize = 64;

/// Octets of a digest.
const DIGEST_LEN: usize = 16;

/// Each octet of ipad, the pad of the inner digest.
const INNER_PAD: u8 = 0x36;

/// Each octet of opad, the pad of the outer digest.
const OUTER_PAD: u8 = 0x5c;

/// HMAC-MD5 of a message under a key of any length: MD5(K xor opad, MD5(K xor ipad, message)),
/// where K is the key, or the digest of a key of more than 64 octets, padded with zeros to 64
/// octets (RFC 2104 section 2). It allocates nothing.
pub fn hmac_md5(key: &[u8], message: &[u8]) -> [u8; 16]
    ensures { result ≡ hmac_md5 key.now message.now }
{
    let key = HmacKey::new(key);
    let mut inner = key.begun();
    inner.update(message);
    key.finished(inner)
}

/// A key of HMAC-MD5, prepared: the two digests after the key's blocks (RFC 2104 section 4).
/// Signing many messages with one key saves four blocks of MD5 each time.
#[derive(Drop)]
pub struct HmacKey {
    /// The digest after K xor ipad.
    inner: Md5,
    /// The digest after K xor opad.
    outer: Md5,
}

impl HmacKey {
    ghost use Rattle.rsl_auth.specs.Hmac.{IsKeyOf};

    /// The prepared key of a key of any length. It allocates nothing.
    pub fn new(key: &[u8]) -> HmacKey
        ensures { IsKeyOf key.now result }
    {
        let block = key_block(key);
        HmacKey {
            inner: padded_digest(&block, INNER_PAD),
            outer: padded_digest(&block, OUTER_PAD),
        }
    }

    /// The inner digest, before any of the message.
    pub(crate) fn begun(&self) -> Md5
        ensures { (key : List ℕ) → IsKeyOf key self.now → Holds result (key_xor key 0x36) }
    {
        self.inner.clone().unwrap()
    }

    /// The HMAC of the message that the inner digest was given.
    #[tactic(auto, unfolding(crate::specs::Hmac::hmac_md5))]
    pub(crate) fn finished(&self, inner: Md5) -> [u8; 16]
        ensures { (key message : List ℕ) → IsKeyOf key self.now →
            Holds inner (key_xor key 0x36 ++ message) → result ≡ hmac_md5 key message }
    {
        let mut outer = self.outer.clone().unwrap();
        outer.update(&inner.finalize());
        outer.finalize()
    }
}

/// A digest after a key's block xor a pad.
fn padded_digest(block: &[u8; BLOCK_LEN], pad: u8) -> Md5
    ensures { Holds result (padded block.now pad) }
{
    let mut digest = Md5::new();
    digest.update(&padded(block, pad));
    digest
}

/// A key's block xor a pad.
fn padded(block: &[u8; BLOCK_LEN], pad: u8) -> [u8; BLOCK_LEN]
    ensures { result ≡ padded block.now pad }
{
    let mut octets = *block;
    for octet in octets.iter_mut() {
        *octet ^= pad;
    }
    octets
}

/// The key, or its digest if it is longer than a block, padded with zeros.
fn key_block(key: &[u8]) -> [u8; BLOCK_LEN]
    ensures { result ≡ key_block key.now }
{
    let mut block = [0u8; BLOCK_LEN];
    if key.len() <= BLOCK_LEN {
        block[..key.len()].copy_from_slice(key);
    } else {
        block[..DIGEST_LEN].copy_from_slice(&Md5::digest(key));
    }
    block
}
