ghost use Rattle.std.specs.Prelude.{◌≡◌, ◌≤◌, ◌↔◌, IfSome, IsSome, length, take, true};
ghost use Rattle.std.specs.Str.{IsUtf8, is_utf8};

/// The most octets of a text that lie in the value.
const SHORT_LEN: usize = 22;

/// A text of at most 22 octets, in the value itself: the first ones of the array.
#[derive(Clone, Copy, Drop)]
pub(crate) struct ShortText {
    len: u8,
    octets: [u8; SHORT_LEN],
    ghost few: { len ≤ 22 },
    ghost utf8: { is_utf8 (take len octets) ≡ true },
}

impl ShortText {
    /// A copy of the text, if it is short enough.
    #[tactic(auto, using(crate::proofs::Texts::text_steps))]
    pub(crate) fn of(text: &str) -> Option<ShortText>
        ensures copy { IfSome result (λ copy. take copy.len copy.octets ≡ text.now) }
        ensures few { IsSome result ↔ (length text.now ≤ 22) }
    {
        let len = text.len();
        if SHORT_LEN < len {
            return None;
        }
        let mut octets = [0; SHORT_LEN];
        octets[..len].copy_from_slice(text.as_bytes());
        Some(ShortText {
            len: len as u8,
            octets,
        })
    }

    /// The octets of the text as a slice.
    #[tactic(auto, using(crate::proofs::Texts::text_steps))]
    pub(crate) fn as_bytes(&self) -> &[u8]
        ensures octets { result.now ≡ take self.now.len self.now.octets }
        ensures utf8 { IsUtf8 result.now }
    {
        &self.octets[..usize::from(self.len)]
    }

    /// The text as a `str`.
    pub(crate) fn as_str(&self) -> &str
        ensures { result.now ≡ take self.now.len self.now.octets }
    {
        match str::from_utf8(self.as_bytes()) {
            Ok(text) => text,
            Err(_) => unreachable!(),
        }
    }
}
