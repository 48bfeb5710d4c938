ghost use Rattle.std.specs.Prelude.{◌≡◌, ◌+◌, ◌<◌, ◌^◌, [], None, Some, unwrap_or};
ghost use Rattle.std.specs.Option.{option_or};
ghost use Rattle.rsl_event.specs.Occurrences.{value_of};

/// The attributes of one Type in a request: how many there are, and the value of the first.
#[derive(Clone, Copy)]
pub(crate) struct Occurrences<'a> {
    /// How many there are.
    pub count: usize,
    /// The value of the first.
    pub first: Option<&'a [u8]>,
}

impl<'a> Occurrences<'a> {
    /// No occurrence yet.
    pub(crate) fn new() -> Occurrences<'a>
        ensures count { result.count ≡ 0 }
        ensures first { value_of result.first ≡ None }
    {
        Occurrences {
            count: 0,
            first: None,
        }
    }

    /// Counts one more attribute, after those counted before.
    pub(crate) fn push(&mut self, value: &'a [u8])
        requires { self.old.count + 1 < 2 ^ 64 }
        ensures count { self.new.count ≡ self.old.count + 1 }
        ensures first { value_of self.new.first ≡
            option_or (value_of self.old.first) (Some value.now) }
    {
        self.count += 1;
        if self.first.is_none() {
            self.first = Some(value);
        }
    }

    /// The value of the first, or no octets.
    pub(crate) fn text(&self) -> &'a [u8]
        ensures { result.now ≡ unwrap_or (value_of self.now.first) [] }
    {
        self.first.unwrap_or(&[])
    }
}
