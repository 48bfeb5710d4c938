ghost use Rattle.std.specs.Prelude.{◌≡◌, ◌+◌, ℕ, List, drop, length, map, IfErr, IfOk};
ghost use Rattle.std.specs.List.{AllByRecursion};
ghost use Rattle.rld_log.specs.Frames.{EndsAt, Fits, HasPayloads, IsDamagedAt, frames};

use crate::fault::Damage;
use crate::frame::{first_block, first_frame, has_frame};
use std::alloc::{AllocError, Global};

/// The octets of a file, and the length of its whole frames, whose digests are not computed again.
#[derive(Drop)]
pub struct Frames {
    octets: Vec<u8>,
    whole: usize,
    ghost ends: { ∥ EndsAt octets.items whole ∥₁ },
}

impl Frames {
    /// The frames of a file with these octets, which end with a torn end. A file is damaged if a
    /// frame comes after a spoilt one.
    pub fn of(octets: Vec<u8>) -> Result<Frames, Damage>
        ensures octets { IfOk result (λ found. found.octets.items ≡ octets.items) }
        ensures damage { IfErr result (λ damage. IsDamagedAt octets.items damage.offset) }
    {
        let whole = whole_len(&octets)?;
        Ok(Frames { octets, whole })
    }

    /// The payloads of the frames, in order.
    pub fn payloads(&self, alloc: Global) -> Result<Vec<&[u8]>, AllocError>
        ensures { IfOk result (λ found.
            HasPayloads self.now.octets.items (map (λ payload. payload.now) found.items)) }
    {
        let (whole, _torn) = self.octets.split_at(self.whole);
        payloads_in(alloc, whole)
    }

    /// The octets of the whole frames.
    pub fn whole(&self) -> usize
        ensures is { result ≡ self.now.whole }
        ensures ends { ∥ EndsAt self.now.octets.items result ∥₁ }
    {
        self.whole
    }

    /// The torn end after the frames.
    pub fn torn(&self) -> &[u8]
        ensures is { result.now ≡ drop self.now.whole self.now.octets.items }
        ensures len { length self.now.octets.items ≡ self.now.whole + length result.now }
    {
        let (_whole, torn) = self.octets.split_at(self.whole);
        torn
    }
}

/// The length of the whole frames of a file.
fn whole_len(octets: &[u8]) -> Result<usize, Damage>
    ensures whole { IfOk result (λ len. EndsAt octets.now len) }
    ensures damage { IfErr result (λ damage. IsDamagedAt octets.now damage.offset) }
{
    let mut rest = octets;
    while let Some((_, after)) = first_frame(rest) {
        rest = after;
    }
    let len = octets.len() - rest.len();
    if has_frame(rest) {
        return Err(Damage { offset: len });
    }
    Ok(len)
}

/// The payloads of whole frames, by their lengths alone.
fn payloads_in(alloc: Global, octets: &[u8]) -> Result<Vec<&[u8]>, AllocError>
    ensures { IfOk result (λ found. AllByRecursion Fits (map (λ payload. payload.now) found.items)
        × ((payloads : List (List ℕ)) → AllByRecursion Fits payloads →
        octets.now ≡ frames payloads → map (λ payload. payload.now) found.items ≡ payloads)) }
{
    let mut found = Vec::new(alloc);
    let mut left = octets;
    while let Some(block) = first_block(left) {
        found.push(block.payload)?;
        left = block.rest;
    }
    Ok(found)
}
