ghost use Rattle.std.specs.Prelude.{◌≡◌, ◌<◌, ◌^◌, IfNone, IfOk, IfSome, IsSome, None, length};
ghost use Rattle.rld_config.specs.Place.{IsPlaceIn, first_place, goes_on, place_after, place_past};
ghost use Rattle.rsl_account_file.specs.File.{file_of};

use rsl_wire::NoMemory;
use std::alloc::Global;

/// A position in a text.
#[derive(Clone, Copy, Debug)]
pub struct Place {
    /// The number of its line, from 1.
    pub line: u64,
    /// The number of its character in the line, from 1.
    pub column: u64,
}

impl Place {
    /// The position after these octets.
    fn after(octets: &[u8]) -> Place
        ensures { result ≡ place_after octets.now }
    {
        let mut place = Place { line: 1, column: 1 };
        for octet in octets {
            place = place.past(*octet);
        }
        place
    }

    /// The position after another octet.
    fn past(self, octet: u8) -> Place
        requires line { self.line < 2 ^ 63 }
        requires column { self.column < 2 ^ 63 }
        ensures { result ≡ place_past self octet }
    {
        if octet == b'\n' {
            Place {
                line: self.line + 1,
                column: 1,
            }
        } else if goes_on(octet) {
            self
        } else {
            Place {
                line: self.line,
                column: self.column + 1,
            }
        }
    }
}

/// Whether an octet continues the character of the octet before it.
fn goes_on(octet: u8) -> bool
    ensures { result ≡ goes_on octet }
{
    0x80 <= octet && octet <= 0xbf
}

/// The position where a text stops being TOML, as the parser reports it, or `None` if the text is
/// UTF-8 and TOML. It fails only if memory is refused.
pub fn break_of(alloc: Global, text: &[u8]) -> Result<Option<Place>, NoMemory>
    ensures broken { IfOk result (λ found. IfSome found (λ place.
        (file_of text.now ≡ None) × IsPlaceIn text.now place)) }
    ensures whole { IfOk result (λ found. IfNone found (IsSome (file_of text.now))) }
{
    let error = match toml::table_from_slice(alloc, text) {
        Ok(_) => return Ok(None),
        Err(error) => error,
    };
    match error.span() {
        Some(span) => Ok(Some(Place::after(&text[..span.start]))),
        None => Err(NoMemory),
    }
}
