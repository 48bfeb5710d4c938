//! The status of a server as a JSON object.

ghost use Rattle.std.specs.Prelude.{◌≡◌, ◌++◌, IfOk, OnOk};
ghost use Rattle.rld_text.specs.Status.{end_member, ends_members, gate_members, numbers_members, recording_word, socket_members, state_members, status_object, totals_members, who_members};

use crate::build::push_proof_word;
use crate::json::{push_member_front, push_number_member, push_text_string};
use crate::sums::{dropped, waiting};
use rld_control::Reply;
use rld_counts::{Counts, Fate, Gate};
use rld_look::{ArchiveLook, Build, Look, Recording, Totals};
use rld_values::{push_decimal, push_text};
use std::alloc::{AllocError, Global};

/// The object, and the line `ok`. It fails only if memory is refused.
#[tactic(auto, unfolding(crate::specs::Status::status_object))]
pub fn status_json(alloc: Global, look: &Look) -> Result<Vec<u8>, AllocError>
    ensures { IfOk result (λ text. text.items ≡ status_object look.entry.now) }
{
    let sockets = look.sockets.as_slice();
    let mut text = Vec::new(alloc);
    push_who(&mut text, &look.build, look.start, look.now, look.recording)?;
    push_numbers(&mut text, look)?;
    push_state(&mut text, look.clock_behind, &look.archive)?;
    push_ends(&mut text, &look.counts)?;
    push_sockets(&mut text, waiting(sockets), dropped(sockets))?;
    push_text(&mut text, "}\n")?;
    Reply::Done(b"").write(&mut text)?;
    Ok(text)
}

/// Writes the build, the start, the second of the look, and whether batches are recorded.
#[tactic(auto, unfolding(crate::specs::Status::who_members))]
fn push_who(
    out: &mut Vec<u8>,
    build: &Build,
    start: u64,
    now: u64,
    recording: Recording,
) -> Result<(), AllocError>
    ensures { OnOk result (out.new.items
        ≡ out.old.items ++ who_members build.now start now recording) }
{
    push_text(out, "{\"version\":")?;
    push_text_string(out, build.version)?;
    push_text(out, ",\"proved\":\"")?;
    push_proof_word(out, &build.proof)?;
    push_text(out, "\"")?;
    push_number_member(out, "start", start)?;
    push_number_member(out, "now", now)?;
    push_member_front(out, "recording")?;
    push_recording(out, recording)?;
    Ok(())
}

/// Writes whether batches are recorded.
fn push_recording(out: &mut Vec<u8>, recording: Recording) -> Result<(), AllocError>
    ensures { OnOk result (out.new.items ≡ out.old.items ++ recording_word recording) }
{
    match recording {
        Recording::Recorded => push_text(out, "true"),
        Recording::Failing => push_text(out, "false"),
    }
}

/// Writes the numbers.
#[tactic(auto, unfolding(crate::specs::Status::numbers_members))]
fn push_numbers(out: &mut Vec<u8>, look: &Look) -> Result<(), AllocError>
    ensures { OnOk result (out.new.items ≡ out.old.items ++ numbers_members look.entry.now) }
{
    push_number_member(out, "generation", look.generation)?;
    push_totals(out, &look.totals)?;
    push_number_member(out, "full", look.totals.full)?;
    push_number_member(out, "moves", look.moves)?;
    push_number_member(out, "memory", look.memory)
}

/// Writes what all accounts hold.
#[tactic(auto, unfolding(crate::specs::Status::totals_members))]
fn push_totals(out: &mut Vec<u8>, totals: &Totals) -> Result<(), AllocError>
    ensures { OnOk result (out.new.items ≡ out.old.items ++ totals_members totals.now) }
{
    push_number_member(out, "accounts", totals.accounts)?;
    push_number_member(out, "places", totals.places)?;
    push_number_member(out, "held", totals.held)?;
    push_number_member(out, "reserved", totals.reserved)?;
    push_number_member(out, "live", totals.live)?;
    push_number_member(out, "stale", totals.stale)?;
    push_number_member(out, "over", totals.over)?;
    Ok(())
}

/// Writes by how many seconds the clock is behind, and what the archive has.
#[tactic(auto, unfolding(crate::specs::Status::state_members))]
fn push_state(out: &mut Vec<u8>, clock_behind: u64, archive: &ArchiveLook) -> Result<(), AllocError>
    ensures { OnOk result (out.new.items ≡ out.old.items ++ state_members clock_behind archive.now) }
{
    push_number_member(out, "clock_behind", clock_behind)?;
    push_number_member(out, "archive_logs", archive.logs)?;
    push_number_member(out, "archive_octets", archive.octets)?;
    Ok(())
}

/// Writes how the datagrams of each gate ended.
#[tactic(auto, unfolding(crate::specs::Status::ends_members))]
fn push_ends(out: &mut Vec<u8>, counts: &Counts) -> Result<(), AllocError>
    ensures { OnOk result (out.new.items ≡ out.old.items ++ ends_members counts.now) }
{
    push_gate(out, counts, Gate::Auth)?;
    push_gate(out, counts, Gate::Acct)?;
    push_gate(out, counts, Gate::Ask)?;
    Ok(())
}

/// Writes how many datagrams came to a gate and ended for each of its causes.
fn push_gate(out: &mut Vec<u8>, counts: &Counts, gate: Gate) -> Result<(), AllocError>
    ensures { OnOk result (out.new.items ≡ out.old.items ++ gate_members counts.now gate) }
{
    for cause in gate.causes() {
        let fate = Fate {
            gate,
            cause: *cause,
        };
        push_end(out, gate.word(), cause.name(), counts.count(fate))?;
    }
    Ok(())
}

/// Writes the number of datagrams of a port that ended in this way.
#[tactic(auto, unfolding(crate::specs::Status::end_member))]
fn push_end(out: &mut Vec<u8>, port: &str, end: &str, number: u64) -> Result<(), AllocError>
    ensures { OnOk result (out.new.items ≡ out.old.items ++ end_member port.now end.now number) }
{
    push_text(out, ",\"")?;
    push_text(out, port)?;
    push_text(out, "_")?;
    push_text(out, end)?;
    push_text(out, "\":")?;
    push_decimal(out, number)
}

/// Writes the octets that wait at the sockets, and the datagrams that the system dropped there.
#[tactic(auto, unfolding(crate::specs::Status::socket_members))]
fn push_sockets(out: &mut Vec<u8>, waiting: u64, dropped: u64) -> Result<(), AllocError>
    ensures { OnOk result (out.new.items ≡ out.old.items ++ socket_members waiting dropped) }
{
    push_number_member(out, "sockets_waiting_octets", waiting)?;
    push_number_member(out, "sockets_dropped", dropped)?;
    Ok(())
}
