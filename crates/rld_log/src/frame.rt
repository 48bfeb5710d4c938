ghost use Rattle.std.specs.Prelude.{◌≡◌, ◌↔◌, IsTrue, ℕ, ◌+◌, ◌<◌, ◌≤◌, List, ◌++◌, length, take, drop, IfNone, IfOk, IfSome, OnOk};
ghost use Rattle.std.specs.Int.{from_be_bytes, w32};
ghost use Rattle.rld_log.specs.Frames.{Fits, HasFrame, IsBlock, NoBlock, NoFrame, block, digest, frame};

use md5::{Digest, Md5};
use std::alloc::{AllocError, Global};

/// Octets of a digest.
const DIGEST_LEN: usize = 16;

/// Octets of a frame before its payload: its length and its digest.
pub const HEAD_LEN: usize = 20;

/// Octets in the shape of a frame, and the octets after them.
#[derive(Clone, Copy)]
pub(crate) struct Block<'a> {
    /// The octets in the place of the digest.
    pub(crate) sum: &'a [u8],
    pub(crate) payload: &'a [u8],
    pub(crate) rest: &'a [u8],
}

/// The digest of a payload.
#[tactic(auto, unfolding(crate::specs::Frames::digest))]
fn digest_of(payload: &[u8]) -> [u8; 16]
    ensures { result ≡ digest payload.now }
{
    Md5::digest(payload)
}

/// Whether octets are the digest of a payload.
fn is_digest(sum: &[u8], payload: &[u8]) -> bool
    ensures { IsTrue result ↔ (sum.now ≡ digest payload.now) }
{
    let want = digest_of(payload);
    sum == want.as_slice()
}

/// Clears a buffer, and leaves room in it for the head of a frame: the payload is to stand behind
/// that. If memory is refused the buffer may hold anything.
pub fn leave_head(octets: &mut Vec<u8>) -> Result<(), AllocError>
    ensures { OnOk result (length octets.new.items ≡ 20) }
{
    octets.clear();
    octets.extend_from_slice(&[0; HEAD_LEN])
}

/// Fills the head of a frame, in the room before its payload.
#[tactic(auto, unfolding(crate::specs::Frames::block))]
pub(crate) fn fill_head(octets: &mut [u8])
    requires room { 20 ≤ length octets.old }
    requires fits { Fits (drop 20 octets.old) }
    ensures { octets.new ≡ frame (drop 20 octets.old) }
{
    let (head, payload) = octets.split_at_mut(HEAD_LEN);
    let (len, sum) = head.split_at_mut(4);
    len.copy_from_slice(&(payload.len() as u32).to_be_bytes());
    sum.copy_from_slice(&digest_of(payload));
}

/// A payload behind room for the head of its frame.
pub(crate) fn behind_head(alloc: Global, payload: &[u8]) -> Result<Vec<u8>, AllocError>
    requires { Fits payload.now }
    ensures room { IfOk result (λ octets. 20 ≤ length octets.items) }
    ensures payload { IfOk result (λ octets. drop 20 octets.items ≡ payload.now) }
{
    let mut octets = Vec::with_capacity(alloc, HEAD_LEN + payload.len())?;
    leave_head(&mut octets)?;
    octets.extend_from_slice(payload)?;
    Ok(octets)
}

/// The frame of a payload.
pub fn frame_of(alloc: Global, payload: &[u8]) -> Result<Vec<u8>, AllocError>
    requires { Fits payload.now }
    ensures { IfOk result (λ octets. octets.items ≡ frame payload.now) }
{
    let mut octets = behind_head(alloc, payload)?;
    fill_head(&mut octets);
    Ok(octets)
}

/// The number in the first four octets, and the octets after them.
fn number_at(octets: &[u8]) -> Option<(u32, &[u8])>
    ensures some { IfSome result (λ x. (4 ≤ length octets.now)
        × (x.0 ≡ from_be_bytes w32 (take 4 octets.now)) × (x.1.now ≡ drop 4 octets.now)) }
    ensures none { IfNone result (length octets.now < 4) }
{
    if octets.len() < 4 {
        return None;
    }
    let (front, rest) = octets.split_at(4);
    let number = u32::from_be_bytes([front[0], front[1], front[2], front[3]]);
    Some((number, rest))
}

/// The block at the front: octets in the shape of a frame.
pub(crate) fn first_block(octets: &[u8]) -> Option<Block<'_>>
    ensures some { IfSome result (λ found. octets.now ≡ block found.sum.now found.payload.now ++ found.rest.now) }
    ensures shape { IfSome result (λ found. IsBlock found.sum.now found.payload.now) }
    ensures shorter { IfSome result (λ found. length found.rest.now < length octets.now) }
    ensures none { IfNone result (NoBlock octets.now) }
{
    let Some((len, body)) = number_at(octets) else {
        return None;
    };
    if body.len() < DIGEST_LEN {
        return None;
    }
    let (sum, body) = body.split_at(DIGEST_LEN);
    if body.len() < len as usize {
        return None;
    }
    let (payload, rest) = body.split_at(len as usize);
    Some(Block { sum, payload, rest })
}

/// The payload of the frame at the front, and the octets after it. `None` if the octets are too
/// short for a frame of the length at their front, or if the digest is not that of the payload.
pub(crate) fn first_frame(octets: &[u8]) -> Option<(&[u8], &[u8])>
    ensures some { IfSome result (λ found. octets.now ≡ frame found.0.now ++ found.1.now) }
    ensures fits { IfSome result (λ found. Fits found.0.now) }
    ensures shorter { IfSome result (λ found. length found.1.now < length octets.now) }
    ensures none { IfNone result (NoFrame octets.now) }
{
    let Some(found) = first_block(octets) else {
        return None;
    };
    if !is_digest(found.sum, found.payload) {
        return None;
    }
    Some((found.payload, found.rest))
}

/// Whether there is a frame at the front, or after a block at the front.
pub(crate) fn has_frame(octets: &[u8]) -> bool
    ensures { IsTrue result ↔ HasFrame octets.now }
{
    let mut rest = octets;
    while let Some(found) = first_block(rest) {
        if is_digest(found.sum, found.payload) {
            return true;
        }
        rest = found.rest;
    }
    false
}
