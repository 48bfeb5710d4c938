ghost use Rattle.std.specs.Prelude.{◌≡◌, ◌≤◌, ◌↔◌, IfSome, IsSome, length, take};

/// The most octets that lie in the value: with their number, and the tag that tells them from
/// octets on the heap, they take three words.
const SHORT_LEN: usize = 22;

/// At most 22 octets, in the value itself: the first ones of the array.
#[derive(Clone, Copy, Drop)]
pub(crate) struct Short {
    len: u8,
    octets: [u8; SHORT_LEN],
    ghost few: { len ≤ 22 },
}

impl Short {
    /// A copy of the octets, if they are few enough.
    pub(crate) fn of(octets: &[u8]) -> Option<Short>
        ensures copy { IfSome result (λ copy. take copy.len copy.octets ≡ octets.now) }
        ensures few { IsSome result ↔ (length octets.now ≤ 22) }
    {
        let len = octets.len();
        if SHORT_LEN < len {
            return None;
        }
        let mut room = [0; SHORT_LEN];
        room[..len].copy_from_slice(octets);
        Some(Short {
            len: len as u8,
            octets: room,
        })
    }

    /// The octets as a slice.
    pub(crate) fn as_slice(&self) -> &[u8]
        ensures { result.now ≡ take self.now.len self.now.octets }
    {
        &self.octets[..usize::from(self.len)]
    }
}
