ghost use Rattle.std.specs.Prelude.{◌≡◌, ◌++◌, IfOk, OnOk, codes, string_bytes};
ghost use Rattle.rsl_serve.specs.Output.{counted, counts_line};

use rsl_service::Counts;
use std::alloc::{AllocError, Global};

/// What both receivers did, a line for each, the authentication port first. It fails only if memory
/// is refused.
pub fn counts_of(alloc: Global, auth: &Counts, acct: &Counts) -> Result<String, AllocError>
    ensures { IfOk result (λ text. string_bytes text
        ≡ counts_line (codes "auth") auth.now ++ counts_line (codes "acct") acct.now) }
{
    let mut text = String::new(alloc);
    write_counts(&mut text, "auth", auth)?;
    write_counts(&mut text, "acct", acct)?;
    Ok(text)
}

/// Writes the line of a receiver.
#[tactic(auto, using(crate::proofs::Lines::line_written))]
fn write_counts(text: &mut String, port: &str, counts: &Counts) -> Result<(), AllocError>
    ensures { OnOk result (string_bytes text.new
        ≡ string_bytes text.old ++ counts_line port.now counts.now) }
{
    write_text(text, port)?;
    write_count(text, "received", counts.received)?;
    write_count(text, "answered", counts.answered)?;
    write_count(text, "dropped", counts.dropped)?;
    write_count(text, "refused", counts.refused)?;
    write_count(text, "unsent", counts.unsent)?;
    write_text(text, "\n")?;
    Ok(())
}

/// Writes a text.
fn write_text(text: &mut String, more: &str) -> Result<(), AllocError>
    ensures { OnOk result (string_bytes text.new ≡ string_bytes text.old ++ more.now) }
{
    write!(text, "{more}")
}

/// Writes a word and a number, after a space each.
fn write_count(text: &mut String, word: &str, number: u64) -> Result<(), AllocError>
    ensures { OnOk result (string_bytes text.new
        ≡ string_bytes text.old ++ counted word.now number) }
{
    write!(text, " {word} {number}")
}
