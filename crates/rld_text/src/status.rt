ghost use Rattle.std.specs.Prelude.{◌≡◌, ◌++◌, IfOk, List, OnOk, codes, ℕ};
ghost use Rattle.rld_text.specs.Status.{IsStatus, behind_line, clock_line, number_lines, recording_line, status_of, totals_lines};
ghost use Rattle.rld_values.specs.Dates.{AreDates};

use crate::build::push_build_line;
use crate::recent::{push_recent, push_start};
use crate::words::push_number_line;
use rld_control::Reply;
use rld_look::{Look, Recording, Totals};
use rld_values::{push_decimal, push_text};
use std::alloc::{AllocError, Global};

/// The status of a server: who it is and whether it records, and numbers, a line each, then what
/// has happened recently, and at the end the line `ok`. It fails only if memory is refused.
pub fn status_text(alloc: Global, look: &Look) -> Result<Vec<u8>, AllocError>
    ensures { IfOk result (λ text. IsStatus look.entry.now text.items) }
{
    let mut text = Vec::new(alloc);
    push_status(alloc, &mut text, look)?;
    Ok(text)
}

/// Writes the status of a server.
#[tactic(auto, unfolding(crate::specs::Status::status_of))]
fn push_status(alloc: Global, out: &mut Vec<u8>, look: &Look) -> Result<(), AllocError>
    ensures { OnOk result ((dates : ℕ → List ℕ) → AreDates dates →
        out.new.items ≡ out.old.items ++ status_of dates look.entry.now) }
{
    push_build_line(out, &look.build)?;
    push_start(out, look.start, look.now)?;
    push_recording(out, look.recording)?;
    push_clock(out, look.clock_behind)?;
    push_numbers(alloc, out, look)?;
    push_recent(alloc, out, look)?;
    push_end(out)?;
    Ok(())
}

/// Writes the line `ok`.
fn push_end(out: &mut Vec<u8>) -> Result<(), AllocError>
    ensures { OnOk result (out.new.items ≡ out.old.items ++ codes "ok\n") }
{
    Reply::Done(b"").write(out)
}

/// Writes whether batches are being recorded.
fn push_recording(out: &mut Vec<u8>, recording: Recording) -> Result<(), AllocError>
    ensures { OnOk result (out.new.items ≡ out.old.items ++ recording_line recording) }
{
    match recording {
        Recording::Recorded => push_text(out, "recording\n"),
        Recording::Failing => push_text(
            out,
            "NOT RECORDING: the disk is full or fails, or memory is refused\n",
        ),
    }
}

/// Writes whether the clock is behind the books, if it is.
fn push_clock(out: &mut Vec<u8>, behind: u64) -> Result<(), AllocError>
    ensures { OnOk result (out.new.items ≡ out.old.items ++ clock_line behind) }
{
    if behind == 0 {
        Ok(())
    } else {
        push_behind(out, behind)
    }
}

/// Writes by how many seconds the clock is behind.
#[tactic(auto, unfolding(crate::specs::Status::behind_line))]
fn push_behind(out: &mut Vec<u8>, behind: u64) -> Result<(), AllocError>
    ensures { OnOk result (out.new.items ≡ out.old.items ++ behind_line behind) }
{
    push_text(out, "CLOCK BEHIND by ")?;
    push_decimal(out, behind)?;
    push_text(out, " s: no deadline passes until it is there\n")?;
    Ok(())
}

/// Writes the numbers.
fn push_numbers(alloc: Global, out: &mut Vec<u8>, look: &Look) -> Result<(), AllocError>
    ensures { OnOk result (out.new.items ≡ out.old.items ++ number_lines look.entry.now) }
{
    push_number_line(alloc, out, "since", look.start)?;
    push_number_line(alloc, out, "generation", look.generation)?;
    push_totals(alloc, out, &look.totals)?;
    push_number_line(alloc, out, "moves", look.moves)?;
    push_number_line(alloc, out, "memory", look.memory)
}

/// Writes what all accounts hold.
fn push_totals(alloc: Global, out: &mut Vec<u8>, totals: &Totals) -> Result<(), AllocError>
    ensures { OnOk result (out.new.items ≡ out.old.items ++ totals_lines totals.now) }
{
    push_number_line(alloc, out, "accounts", totals.accounts)?;
    push_number_line(alloc, out, "places", totals.places)?;
    push_number_line(alloc, out, "held", totals.held)?;
    push_number_line(alloc, out, "reserved", totals.reserved)?;
    push_number_line(alloc, out, "live", totals.live)?;
    push_number_line(alloc, out, "stale", totals.stale)?;
    push_number_line(alloc, out, "over", totals.over)
}
