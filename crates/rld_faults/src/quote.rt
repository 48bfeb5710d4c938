/// A string of TOML that is being read.
#[derive(Clone, Copy)]
pub(crate) struct Quoted {
    quote: u8,
    kind: Kind,
    /// Whether the next octet stands for itself.
    is_escaped: bool,
}

/// How far a string is read, and where it may end.
#[derive(Clone, Copy)]
enum Kind {
    /// One quotation mark was read.
    One,
    /// Two quotation marks were read.
    Two,
    /// It ends at the next quotation mark.
    Short,
    /// It ends at three quotation marks; this many of them were just read.
    Long(u8),
}

/// What an octet does to a string.
#[derive(Clone, Copy)]
pub(crate) enum After {
    /// The string goes on.
    Open(Quoted),
    /// The octet was its last.
    Closed,
    /// The octet before was its last.
    ClosedBefore,
}

impl Quoted {
    /// The string of a key, which this quotation mark opens.
    pub(crate) fn short(quote: u8) -> Quoted {
        Quoted::of(quote, Kind::Short)
    }

    /// The string of a value, which this quotation mark opens: it may be the first of three.
    pub(crate) fn opened(quote: u8) -> Quoted {
        Quoted::of(quote, Kind::One)
    }

    fn of(quote: u8, kind: Kind) -> Quoted {
        Quoted {
            quote,
            kind,
            is_escaped: false,
        }
    }

    /// What the next octet does to it.
    pub(crate) fn after(self, octet: u8) -> After {
        let is_quote = octet == self.quote;
        match self.kind {
            Kind::One if is_quote => After::Open(Quoted::of(self.quote, Kind::Two)),
            Kind::Two if is_quote => After::Open(Quoted::of(self.quote, Kind::Long(0))),
            Kind::Two => After::ClosedBefore,
            Kind::One | Kind::Short => self.short_after(octet),
            Kind::Long(marks) => self.long_after(octet, marks),
        }
    }

    /// The same of a string on one line.
    fn short_after(self, octet: u8) -> After {
        if !self.is_escaped && octet == self.quote {
            After::Closed
        } else {
            self.inside(octet, Kind::Short)
        }
    }

    /// What comes after an octet of a string on several lines, where `marks` quotation marks were just read. Two
    /// more at most stand before its end.
    fn long_after(self, octet: u8, marks: u8) -> After {
        if !self.is_escaped && octet == self.quote {
            After::Open(Quoted::of(self.quote, Kind::Long(marks.saturating_add(1))))
        } else if 3 <= marks {
            After::ClosedBefore
        } else {
            self.inside(octet, Kind::Long(0))
        }
    }

    /// The string after an octet that does not end it.
    fn inside(self, octet: u8, kind: Kind) -> After {
        After::Open(Quoted {
            quote: self.quote,
            kind,
            is_escaped: !self.is_escaped && octet == b'\\' && self.quote == b'"',
        })
    }
}
