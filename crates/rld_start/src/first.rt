//! The front of a log: whether its generation was begun.

ghost use Rattle.std.specs.Prelude.{◌≡◌, ◌↔◌, ℕ, List, drop, map, IfErr, IfOk, IsErr, OnOk};
ghost use Rattle.rld_log.specs.Frames.{HasPayloads};
ghost use Rattle.rld_start.specs.Firsts.{IsBegunOrNot, IsSpoilt, IsUnspoilt};
ghost use Rattle.rld_start.specs.Lengths.{HasSpoiltLength};
ghost use Rattle.rld_store.specs.declared.fault.StoreFault.TheVariants.{TooLong as too_long};

use crate::length::has_spoilt_length;
use rld_log::{Damage, Frames};
use rld_store::{Parts, StoreFault};

/// Checks that what follows the whole frames of a log is a torn end. `Damage` comes exactly if there
/// is a frame with a spoilt length and its whole payload.
pub fn check_torn(frames: &Frames) -> Result<(), Damage>
    ensures found { IsErr result ↔ HasSpoiltLength (drop frames.now.whole frames.now.octets.items) }
    ensures spoilt { IfErr result (λ damage. IsSpoilt frames.now.octets.items damage.offset) }
    ensures unspoilt { OnOk result (IsUnspoilt frames.now.octets.items) }
{
    if has_spoilt_length(frames.torn()) {
        return Err(Damage {
            offset: frames.whole(),
        });
    }
    Ok(())
}

/// Whether the generation of a log with these payloads was begun: whether there are two of them, for
/// its header and its snapshot. Of all faults only `TooLong` can come.
pub(crate) fn is_begun(payloads: &[&[u8]]) -> Result<bool, StoreFault>
    ensures begun { IfOk result (λ begun. (octets : List ℕ) →
        HasPayloads octets (map (λ payload. payload.now) payloads.now) → IsBegunOrNot begun octets) }
    ensures why { IfErr result (λ fault. fault ≡ too_long) }
{
    match Parts::of(payloads) {
        Ok(_parts) => Ok(true),
        Err(StoreFault::Unbegun) => Ok(false),
        Err(fault) => Err(fault),
    }
}
