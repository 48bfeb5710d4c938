//! HTML that is being written.

ghost use Rattle.std.specs.Prelude.{◌≡◌, ◌+◌, ◌++◌, ◌∷◌, [], IsTrue, List, OnOk, ℕ};
ghost use Rattle.std.specs.Fmt.{decimal};
ghost use Rattle.std.specs.List.{list_all};
ghost use Rattle.std.specs.Net.Text.{ip_text};
ghost use Rattle.rld_look.specs.AccessServers.{nas_word};
ghost use Rattle.rld_page.specs.Figures.{comma_before, date_text, grouped, moment_text, day_and_time, whole_date, with_commas};
ghost use Rattle.rld_page.specs.Html.{html_octet, html_text, is_no_markup};
ghost use Rattle.rld_values.specs.Dates.{AreDates, clock};
ghost use Rattle.rld_values.specs.Values.{dotted, word};

use itoa::Buffer;
use rld_look::write_nas_word;
use rld_values::{http_date, push_clock, push_decimal, push_dotted, push_text, push_word};
use rsl_event::NasName;
use std::alloc::{AllocError, Global};
use std::marker::Model;
use std::net::IpAddr;

/// A text of HTML that is being written. Only four things get into it: markup, which is a literal of
/// the program; numbers; dates and addresses; and octets that are escaped. A contract sees its octets.
///
/// A call that writes fails only if memory is refused. A part may then be written, so the text is to be
/// let go.
#[derive(Drop)]
pub(crate) struct Html {
    out: Vec<u8>,
    alloc: Global,
}

impl Model for Html {
    ghost use Rattle.std.specs.Prelude.{List, ℕ};

    ghost Value = { List ℕ };

    ghost view = { λ html. html.out.items };
}

impl Html {
    /// An empty text.
    pub(crate) fn new(alloc: Global) -> Html
        ensures { result ≡ [] }
    {
        Html {
            out: Vec::new(alloc),
            alloc,
        }
    }

    /// The text so far.
    pub(crate) fn into_octets(self) -> Vec<u8>
        ensures { result.items ≡ self }
    {
        self.out
    }

    /// Writes markup. It is `'static`, so it cannot be an account's name or a datagram's octets.
    pub(crate) fn markup(&mut self, markup: &'static str) -> Result<(), AllocError>
        ensures { OnOk result (self.new ≡ self.old ++ markup.now) }
    {
        push_text(&mut self.out, markup)
    }

    /// Writes a number in decimal digits.
    pub(crate) fn number(&mut self, number: u64) -> Result<(), AllocError>
        ensures { OnOk result (self.new ≡ self.old ++ decimal number) }
    {
        push_decimal(&mut self.out, number)
    }

    /// Writes a number with a comma before each third digit, from the right.
    pub(crate) fn grouped(&mut self, number: u64) -> Result<(), AllocError>
        ensures { OnOk result (self.new ≡ self.old ++ grouped number) }
    {
        let mut buffer = Buffer::new();
        self.with_commas(buffer.format(number).as_bytes())
    }

    /// Writes text between tags, or in a quoted attribute: it opens no tag and ends no attribute.
    #[tactic(auto, using(crate::proofs::Plain::text_is_plain))]
    pub(crate) fn text(&mut self, text: &[u8]) -> Result<(), AllocError>
        ensures written { OnOk result (self.new ≡ self.old ++ html_text text.now) }
        ensures plain { IsTrue (list_all is_no_markup (html_text text.now)) }
    {
        for octet in text {
            self.octet(*octet)?;
        }
        Ok(())
    }

    /// Writes octets from a stranger as the log lines and the control have them: any that is not a
    /// letter, a digit or one of `%+,-./:=@_` is escaped, so there is no markup in them either.
    pub(crate) fn word(&mut self, octets: &[u8]) -> Result<(), AllocError>
        ensures { OnOk result (self.new ≡ self.old ++ word octets.now) }
    {
        push_word(&mut self.out, octets)
    }

    /// Writes the name of an access server as the list of the sessions has it, with the same escapes.
    pub(crate) fn nas(&mut self, nas: &NasName) -> Result<(), AllocError>
        ensures { OnOk result (self.new ≡ self.old ++ nas_word nas.now) }
    {
        write_nas_word(&mut self.out, nas)
    }

    /// Writes an IPv4 address.
    pub(crate) fn address(&mut self, address: [u8; 4]) -> Result<(), AllocError>
        ensures { OnOk result (self.new ≡ self.old ++ dotted address) }
    {
        push_dotted(&mut self.out, address)
    }

    /// Writes an address of IPv4 or IPv6.
    pub(crate) fn ip(&mut self, address: IpAddr) -> Result<(), AllocError>
        ensures { OnOk result (self.new ≡ self.old ++ ip_text address) }
    {
        let text = format!(in self.alloc; "{address}")?;
        push_text(&mut self.out, text.as_str())
    }

    /// Writes a second since 1970 as a date and a time of the day, as HTTP spells them.
    pub(crate) fn date(&mut self, second: u64) -> Result<(), AllocError>
        ensures { OnOk result ((dates : ℕ → List ℕ) → AreDates dates →
            self.new ≡ self.old ++ date_text dates second) }
    {
        self.date_or_number(&http_date(second), second)
    }

    /// Writes a second since 1970 as a day and a time of that day: `26 Nov 13:15:07`.
    pub(crate) fn moment(&mut self, second: u64) -> Result<(), AllocError>
        ensures { OnOk result ((dates : ℕ → List ℕ) → AreDates dates →
            self.new ≡ self.old ++ moment_text dates second) }
    {
        self.moment_or_number(&http_date(second), second)
    }

    /// Writes the hour and the minute of the day of a second since 1970, in UTC.
    pub(crate) fn clock(&mut self, second: u64) -> Result<(), AllocError>
        ensures { OnOk result (self.new ≡ self.old ++ clock second) }
    {
        push_clock(&mut self.out, second)
    }

    /// Writes a second by its date, or where it has none as a number.
    fn date_or_number(&mut self, date: &Option<[u8; 29]>, second: u64) -> Result<(), AllocError>
        ensures { OnOk result (self.new ≡ self.old ++ whole_date date.now second) }
    {
        match date {
            Some(date) => self.out.extend_from_slice(date),
            None => self.number(second),
        }
    }

    /// Writes a second by the day and the time of its date, or where it has none as a number.
    fn moment_or_number(&mut self, date: &Option<[u8; 29]>, second: u64) -> Result<(), AllocError>
        ensures { OnOk result (self.new ≡ self.old ++ day_and_time date.now second) }
    {
        match date {
            Some(date) => {
                self.out.extend_from_slice(&date[5..11])?;
                self.markup(" ")?;
                self.out.extend_from_slice(&date[17..25])
            }
            None => self.number(second),
        }
    }

    /// Writes an octet of text.
    fn octet(&mut self, octet: u8) -> Result<(), AllocError>
        ensures { OnOk result (self.new ≡ self.old ++ html_octet octet) }
    {
        match octet {
            b'<' => self.markup("&lt;"),
            b'>' => self.markup("&gt;"),
            b'&' => self.markup("&amp;"),
            b'"' => self.markup("&quot;"),
            b'\'' => self.markup("&#39;"),
            _ => {
                self.out.push(octet)?;
                Ok(())
            }
        }
    }

    /// Writes the digits of a number with a comma before each third one, from the right.
    fn with_commas(&mut self, digits: &[u8]) -> Result<(), AllocError>
        ensures { OnOk result (self.new ≡ self.old ++ with_commas digits.now) }
    {
        let mut left = digits.len();
        for digit in digits {
            left -= 1;
            self.digit(*digit, left)?;
        }
        Ok(())
    }

    /// Writes a digit that has `left` digits after it, and the comma before them.
    fn digit(&mut self, digit: u8, left: usize) -> Result<(), AllocError>
        ensures { OnOk result (self.new ≡ self.old ++ digit ∷ comma_before left) }
    {
        self.out.push(digit)?;
        if left > 0 && left % 3 == 0 {
            self.markup(",")
        } else {
            Ok(())
        }
    }
}
