//! The parts of a generation.

ghost use Rattle.std.specs.Prelude.{◌≡◌, ◌<◌, ◌∷◌, length, map, IfErr, IfNone, IfOk, IfSome, Some, slice_get};
ghost use Rattle.rld_store.specs.Opening.{AreParts, IsWhyNoParts};

use crate::fault::StoreFault;
use crate::part::Part;

/// The parts of a generation.
#[derive(Clone, Copy)]
pub struct Parts<'a> {
    /// The header with the table.
    pub front: Part<'a>,
    /// The snapshot, whose frame follows that of the header.
    pub snapshot: Part<'a>,
    /// The payloads of the batches, whose frames follow that of the snapshot.
    pub batches: &'a [&'a [u8]],
}

/// The payload at an index.
pub(crate) fn payload_at<'a>(payloads: &[&'a [u8]], index: usize) -> &'a [u8]
    requires { index < length payloads.now }
    ensures { slice_get (map (λ payload. payload.now) payloads.now) index ≡ Some result.now }
{
    payloads[index]
}

/// The first two of these payloads, and the rest.
fn front_and_rest<'a>(payloads: &'a [&'a [u8]]) -> Option<(&'a [u8], &'a [u8], &'a [&'a [u8]])>
    ensures some { IfSome result (λ parts. map (λ payload. payload.now) payloads.now ≡
        parts.0.now ∷ parts.1.now ∷ map (λ payload. payload.now) parts.2.now) }
    ensures none { IfNone result (length payloads.now < 2) }
{
    let Some((first, rest)) = payloads.split_first() else {
        return None;
    };
    let Some((second, rest)) = rest.split_first() else {
        return None;
    };
    Some((first, second, rest))
}

impl<'a> Parts<'a> {
    /// The parts of the generation of these payloads. `Unbegun` comes if it has no whole snapshot.
    pub fn of(payloads: &'a [&'a [u8]]) -> Result<Parts<'a>, StoreFault>
        ensures are { IfOk result (AreParts (map (λ payload. payload.now) payloads.now)) }
        ensures why { IfErr result (IsWhyNoParts (map (λ payload. payload.now) payloads.now)) }
    {
        let Some((front, snapshot, batches)) = front_and_rest(payloads) else {
            return Err(StoreFault::Unbegun);
        };
        let front = Part::after(0, front)?;
        let snapshot = Part::after(front.end, snapshot)?;
        Ok(Parts {
            front,
            snapshot,
            batches,
        })
    }
}
