//! A frame whose length is spoilt.

ghost use Rattle.std.specs.Prelude.{◌≡◌, ◌↔◌, ℕ, List, IsTrue};
ghost use Rattle.md5.specs.Md5.{Holds, md5};
ghost use Rattle.rld_start.specs.Lengths.{HasFront, HasSpoiltLength};

use md5::{Digest, Md5};
use rld_log::HEAD_LEN;

/// Octets of the length at a frame's head.
const LENGTH_LEN: usize = 4;

/// Whether a digest is that of a hasher's input.
fn is_digest_of(hasher: &Md5, sum: &[u8]) -> bool
    ensures { (given : List ℕ) → Holds hasher.now given → IsTrue result ↔ (sum.now ≡ md5 given) }
{
    let digest = hasher.clone().unwrap().finalize();
    sum == digest.as_slice()
}

/// Whether a digest is that of a prefix of octets. It computes one digest for each octet, of two
/// blocks at most.
fn is_digest_of_front(sum: &[u8], octets: &[u8]) -> bool
    ensures { IsTrue result ↔ HasFront sum.now octets.now }
{
    let mut hasher = Md5::new();
    for octet in octets {
        if is_digest_of(&hasher, sum) {
            return true;
        }
        hasher.update(&[*octet]);
    }
    is_digest_of(&hasher, sum)
}

/// Whether there is a frame with a spoilt length at the front: its digest is that of a prefix of
/// what follows its head. What a crash leaves of a frame is none, whatever names it has.
pub(crate) fn has_spoilt_length(octets: &[u8]) -> bool
    ensures { IsTrue result ↔ HasSpoiltLength octets.now }
{
    if octets.len() < HEAD_LEN {
        return false;
    }
    let (head, body) = octets.split_at(HEAD_LEN);
    let (_, sum) = head.split_at(LENGTH_LEN);
    is_digest_of_front(sum, body)
}
