ghost use Rattle.std.specs.Prelude.{◌≡◌, ◌++◌, OnOk, codes};
ghost use Rattle.rld_text.specs.Metrics.{at_sockets, gauge, held_text, holdings, numbers_text, recording_of, sample, state_gauges, state_line, states_text, writing};

use crate::sums::{dropped, waiting};
use crate::text::{Head, push_head, push_label};
use rld_look::{ArchiveLook, Look, Recording, Totals};
use rld_values::{push_decimal, push_text};
use std::alloc::AllocError;

/// Writes a metric of one number, with its head.
#[tactic(auto, unfolding(crate::specs::Metrics::sample))]
fn push_sample(out: &mut Vec<u8>, head: &Head<'_>, number: u64) -> Result<(), AllocError>
    ensures { OnOk result (out.new.items
        ≡ out.old.items ++ sample head.now.kind.now head.now.name.now head.now.help.now number) }
{
    push_head(out, head)?;
    push_text(out, head.name)?;
    push_text(out, " ")?;
    push_decimal(out, number)?;
    push_text(out, "\n")
}

/// Writes a gauge: a number that may go up and down.
pub(crate) fn push_gauge(
    out: &mut Vec<u8>,
    name: &str,
    help: &str,
    number: u64,
) -> Result<(), AllocError>
    ensures { OnOk result (out.new.items ≡ out.old.items ++ gauge name.now help.now number) }
{
    let kind = "gauge";
    push_sample(out, &Head { name, kind, help }, number)
}

/// Writes what all accounts hold, and the number of those with no free place.
#[tactic(auto, unfolding(crate::specs::Metrics::holdings))]
fn push_holdings(out: &mut Vec<u8>, totals: &Totals) -> Result<(), AllocError>
    ensures { OnOk result (out.new.items ≡ out.old.items ++ holdings totals.now) }
{
    push_gauge(
        out,
        "radlimitd_places",
        "Places of all accounts.",
        totals.places,
    )?;
    push_gauge(
        out,
        "radlimitd_places_held",
        "Places that are held.",
        totals.held,
    )?;
    push_gauge(
        out,
        "radlimitd_accounts",
        "Accounts that there are.",
        totals.accounts,
    )?;
    push_gauge(
        out,
        "radlimitd_accounts_full",
        "Accounts that have no free place.",
        totals.full,
    )?;
    Ok(())
}

/// Writes how many reservations or sessions are in a state.
fn push_state_line(out: &mut Vec<u8>, state: &str, number: u64) -> Result<(), AllocError>
    ensures { OnOk result (out.new.items ≡ out.old.items ++ state_line state.now number) }
{
    push_text(out, "radlimitd_sessions{")?;
    push_label(out, "state", state)?;
    push_text(out, "} ")?;
    push_decimal(out, number)?;
    push_text(out, "\n")?;
    Ok(())
}

/// Writes what holds a place, by its state, and what found none.
#[tactic(auto, unfolding(crate::specs::Metrics::states_text))]
fn push_states(out: &mut Vec<u8>, totals: &Totals) -> Result<(), AllocError>
    ensures { OnOk result (out.new.items ≡ out.old.items ++ states_text totals.now) }
{
    push_head(
        out,
        &Head {
            name: "radlimitd_sessions",
            kind: "gauge",
            help: "What holds a place: reservations, and sessions that are live or stale.",
        },
    )?;
    push_state_line(out, "reserved", totals.reserved)?;
    push_state_line(out, "live", totals.live)?;
    push_state_line(out, "stale", totals.stale)?;
    push_over(out, totals.over)?;
    Ok(())
}

/// Writes what is held, and what holds it.
#[tactic(auto, unfolding(crate::specs::Metrics::held_text))]
fn push_held(out: &mut Vec<u8>, totals: &Totals) -> Result<(), AllocError>
    ensures { OnOk result (out.new.items ≡ out.old.items ++ held_text totals.now) }
{
    push_holdings(out, totals)?;
    push_states(out, totals)?;
    Ok(())
}

/// Writes how many Starts and Interim-Updates were of sessions that found no place.
fn push_over(out: &mut Vec<u8>, over: u64) -> Result<(), AllocError>
    ensures { OnOk result (out.new.items ≡ out.old.items ++ sample (codes "counter")
        (codes "radlimitd_over_total")
        (codes "Starts and Interim-Updates so far of sessions that found no place, and run all the same.") over) }
{
    push_sample(
        out,
        &Head {
            name: "radlimitd_over_total",
            kind: "counter",
            help: "Starts and Interim-Updates so far of sessions that found no place, and run all the same.",
        },
        over,
    )
}

/// 1 if batches are being recorded, else 0.
fn recording_of(recording: Recording) -> u64
    ensures { result ≡ recording_of recording }
{
    match recording {
        Recording::Recorded => 1,
        Recording::Failing => 0,
    }
}

/// Writes the generation, the second of the start, and whether batches are recorded.
#[tactic(auto, unfolding(crate::specs::Metrics::writing))]
fn push_writing(
    out: &mut Vec<u8>,
    generation: u64,
    start: u64,
    recording: u64,
) -> Result<(), AllocError>
    ensures { OnOk result (out.new.items ≡ out.old.items ++ writing generation start recording) }
{
    push_gauge(
        out,
        "radlimitd_generation",
        "Number of the generation.",
        generation,
    )?;
    push_gauge(
        out,
        "radlimitd_start_time_seconds",
        "When the server started, in seconds since 1970.",
        start,
    )?;
    push_gauge(
        out,
        "radlimitd_recording",
        "1 where batches are being recorded, else 0.",
        recording,
    )?;
    Ok(())
}

/// Writes by how many seconds the clock is behind, and what the archive has.
#[tactic(auto, unfolding(crate::specs::Metrics::state_gauges))]
fn push_state(out: &mut Vec<u8>, clock_behind: u64, archive: &ArchiveLook) -> Result<(), AllocError>
    ensures { OnOk result (out.new.items ≡ out.old.items ++ state_gauges clock_behind archive.now) }
{
    push_gauge(
        out,
        "radlimitd_clock_behind_seconds",
        "Seconds by which the clock is behind the books: no deadline passes until it is there.",
        clock_behind,
    )?;
    push_gauge(
        out,
        "radlimitd_archive_logs",
        "Logs that the archive has.",
        archive.logs,
    )?;
    push_gauge(
        out,
        "radlimitd_archive_octets",
        "Octets of the logs that the archive has.",
        archive.octets,
    )?;
    Ok(())
}

/// Writes what waits at the sockets, and what the system dropped there.
#[tactic(auto, unfolding(crate::specs::Metrics::at_sockets))]
fn push_at_sockets(out: &mut Vec<u8>, waiting: u64, dropped: u64) -> Result<(), AllocError>
    ensures { OnOk result (out.new.items ≡ out.old.items ++ at_sockets waiting dropped) }
{
    push_gauge(
        out,
        "radlimitd_sockets_waiting_octets",
        "Octets that wait in the room of the UDP sockets.",
        waiting,
    )?;
    push_dropped(out, dropped)?;
    Ok(())
}

/// Writes the number of datagrams that the system dropped.
fn push_dropped(out: &mut Vec<u8>, dropped: u64) -> Result<(), AllocError>
    ensures { OnOk result (out.new.items ≡ out.old.items ++ sample (codes "counter")
        (codes "radlimitd_sockets_dropped_total")
        (codes "Datagrams that the system dropped at the UDP sockets for want of room.") dropped) }
{
    push_sample(
        out,
        &Head {
            name: "radlimitd_sockets_dropped_total",
            kind: "counter",
            help: "Datagrams that the system dropped at the UDP sockets for want of room.",
        },
        dropped,
    )
}

/// Writes the numbers of the whole server.
#[tactic(auto, unfolding(crate::specs::Metrics::numbers_text))]
pub(crate) fn push_numbers(out: &mut Vec<u8>, look: &Look) -> Result<(), AllocError>
    ensures { OnOk result (out.new.items ≡ out.old.items ++ numbers_text look.entry.now) }
{
    let sockets = look.sockets.as_slice();
    push_held(out, &look.totals)?;
    push_writing(
        out,
        look.generation,
        look.start,
        recording_of(look.recording),
    )?;
    push_state(out, look.clock_behind, &look.archive)?;
    push_at_sockets(out, waiting(sockets), dropped(sockets))
}
