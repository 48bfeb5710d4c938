//! The header that a log must have, and the next one.

ghost use Rattle.std.specs.Prelude.{◌≡◌, ◌⊎◌, ◌+◌, ◌≤◌, ◌^◌, MatchOption, MatchResult, None, OnOk, Some};
ghost use Rattle.rld_start.specs.NextHeaders.{first_header, header_after, header_cause, header_changed};

use crate::wrong::{Cause, Wrong};
use rld_log::HEAD_LEN;
use rld_spelling::Header;

/// Checks that a header has the number of its file's name. If not, the cause is `OtherGeneration`,
/// and the offset that of the header.
pub fn check_header(header: &Header, number: u64) -> Result<(), Wrong>
    ensures cause { MatchResult result (λ _. header_cause header.now number ≡ None)
        (λ wrong. (header_cause header.now number ≡ Some wrong.cause) × (wrong.offset ≡ 20)) }
    ensures named { OnOk result (header.now.generation ≡ number) }
{
    if header.generation == number {
        return Ok(());
    }
    Err(Wrong {
        offset: HEAD_LEN,
        cause: Cause::OtherGeneration,
    })
}

/// The header of a new history, under this number and boot number.
pub(crate) fn first_header(generation: u64, boot: u64) -> Header
    ensures { result ≡ first_header generation boot }
{
    Header {
        generation,
        table: 1,
        boot,
        lines: 0,
    }
}

/// The header of the generation after one with `moves` moves, under the number `generation`. `None` if
/// all moves would be 2^64 or more.
pub fn next_header(header: &Header, generation: u64, moves: u64) -> Option<Header>
    ensures { MatchOption result (2 ^ 64 ≤ header.now.lines + moves)
        (λ next. next ≡ header_after header.now generation moves) }
{
    Some(Header {
        generation,
        table: header.table,
        boot: header.boot,
        lines: header.lines.checked_add(moves)?,
    })
}

/// The same, where the next generation has another table. `None` also comes if its number would be
/// 2^64.
pub fn changed_header(header: &Header, generation: u64, moves: u64) -> Option<Header>
    ensures { MatchOption result ((2 ^ 64 ≤ header.now.table + 1) ⊎ (2 ^ 64 ≤ header.now.lines + moves))
        (λ next. next ≡ header_changed header.now generation moves) }
{
    Some(Header {
        generation,
        table: header.table.checked_add(1)?,
        boot: header.boot,
        lines: header.lines.checked_add(moves)?,
    })
}
