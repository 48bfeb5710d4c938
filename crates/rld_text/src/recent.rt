//! The part of a status that is for people alone: the start of the server, and what has happened
//! recently, in lines of at most 80 columns, except for long names and for rates of 10 a second and more.

ghost use Rattle.std.specs.Prelude.{◌≡◌, ◌++◌, List, IfOk, OnOk, ℕ};
ghost use Rattle.rld_counts.specs.Fates.{causes_at};
ghost use Rattle.rld_look.specs.History.{latest_of, span_of};
ghost use Rattle.rld_text.specs.Recent.{archive_line, asks_if_any, break_before, column_after, column_at, count_at, count_words, counts_from, full_line, full_lines, gate_line, is_shown, len_of, minute_line, rate, recent_lines, sockets_if_any, sockets_line, span_front, start_line};
ghost use Rattle.rld_values.specs.Dates.{AreDates};

use crate::sums::{dropped, waiting};
use rld_counts::{Cause, Counts, Fate, Gate};
use rld_look::{AccountLook, ArchiveLook, Look, Minute, SocketLook};
use rld_values::{push_age, push_date, push_decimal, push_text, push_word};
use std::alloc::{AllocError, Global};

/// The number of the fullest accounts that are shown.
const FULLEST: usize = 5;

/// The columns of a line.
const WIDTH: usize = 80;

const _: () = prove!(FULLEST == 5 && WIDTH == 80);

/// Writes the line of the server's start.
#[tactic(auto, unfolding(crate::specs::Recent::start_line))]
pub(crate) fn push_start(out: &mut Vec<u8>, start: u64, now: u64) -> Result<(), AllocError>
    ensures { OnOk result ((dates : ℕ → List ℕ) → AreDates dates →
        out.new.items ≡ out.old.items ++ start_line dates start now) }
{
    push_text(out, "started ")?;
    push_date(out, start)?;
    push_text(out, " UTC, ")?;
    push_age(out, now.saturating_sub(start))?;
    push_text(out, " ago\n")
}

/// Writes the lines of what has happened recently.
#[tactic(auto, unfolding(crate::specs::Recent::recent_lines))]
pub(crate) fn push_recent(alloc: Global, out: &mut Vec<u8>, look: &Look) -> Result<(), AllocError>
    ensures { OnOk result (out.new.items ≡ out.old.items ++ recent_lines look.entry.now) }
{
    push_latest(out, look)?;
    push_gate(alloc, out, "auth:", &look.counts, Gate::Auth)?;
    push_gate(alloc, out, "acct:", &look.counts, Gate::Acct)?;
    push_asks_if_any(alloc, out, &look.counts)?;
    push_full(out, look)?;
    push_waiting(out, look)?;
    push_archive(out, look.archive)?;
    Ok(())
}

/// Writes what the archive has.
#[tactic(auto, unfolding(crate::specs::Recent::archive_line))]
fn push_archive(out: &mut Vec<u8>, archive: ArchiveLook) -> Result<(), AllocError>
    ensures { OnOk result (out.new.items
        ≡ out.old.items ++ archive_line archive.logs archive.octets) }
{
    push_text(out, "archive: ")?;
    push_decimal(out, archive.logs)?;
    push_text(out, " logs, ")?;
    push_decimal(out, archive.octets)?;
    push_text(out, " octets\n")
}

/// Writes the latest rates of a look.
fn push_latest(out: &mut Vec<u8>, look: &Look) -> Result<(), AllocError>
    ensures { OnOk result (out.new.items ≡ out.old.items
        ++ minute_line (latest_of look.entry.now) (span_of look.entry.now)) }
{
    push_minute(out, &look.latest(), look.span())
}

/// Writes the fullest accounts of a look.
fn push_full(out: &mut Vec<u8>, look: &Look) -> Result<(), AllocError>
    ensures { OnOk result (out.new.items
        ≡ out.old.items ++ full_lines 5 look.entry.now.fullest.items) }
{
    push_fullest(out, look.fullest.as_slice())
}

/// Writes the queues of the sockets of a look.
fn push_waiting(out: &mut Vec<u8>, look: &Look) -> Result<(), AllocError>
    ensures { OnOk result (out.new.items
        ≡ out.old.items ++ sockets_if_any look.entry.now.sockets.items) }
{
    push_sockets(out, look.sockets.as_slice())
}

/// Writes the rates of a minute, by the second, with words for the time of it.
#[tactic(auto, unfolding(crate::specs::Recent::minute_line))]
fn push_minute(out: &mut Vec<u8>, minute: &Minute, span: &str) -> Result<(), AllocError>
    ensures { OnOk result (out.new.items ≡ out.old.items ++ minute_line minute.now span.now) }
{
    push_span(out, span)?;
    push_rate(out, minute.accepts)?;
    push_text(out, " accepts/s, ")?;
    push_rate(out, minute.limit_rejects)?;
    push_text(out, " limit rejects/s, ")?;
    push_rate(out, minute.rejects)?;
    push_text(out, " rejects/s, ")?;
    push_rate(out, minute.accounting)?;
    push_text(out, " accounting/s\n")?;
    Ok(())
}

/// Writes the words for a time, before the rates of it.
fn push_span(out: &mut Vec<u8>, span: &str) -> Result<(), AllocError>
    ensures { OnOk result (out.new.items ≡ out.old.items ++ span_front span.now) }
{
    push_text(out, span)?;
    push_text(out, ": ")
}

/// Writes the count of a minute as a rate by the second, with one decimal.
#[tactic(auto, unfolding(crate::specs::Recent::rate))]
fn push_rate(out: &mut Vec<u8>, count: u64) -> Result<(), AllocError>
    ensures { OnOk result (out.new.items ≡ out.old.items ++ rate count) }
{
    push_decimal(out, count / 60)?;
    push_text(out, ".")?;
    push_decimal(out, count % 60 / 6)
}

/// Writes the line of asks, if any came.
fn push_asks_if_any(alloc: Global, out: &mut Vec<u8>, counts: &Counts) -> Result<(), AllocError>
    ensures { OnOk result (out.new.items ≡ out.old.items ++ asks_if_any counts.now) }
{
    if counts.total_at(Gate::Ask) == 0 {
        return Ok(());
    }
    push_gate(alloc, out, "ask_http:", counts, Gate::Ask)
}

/// Writes a gate's word, and the number that ended there for each cause, if any did.
#[tactic(auto, unfolding(crate::specs::Recent::gate_line))]
fn push_gate(
    alloc: Global,
    out: &mut Vec<u8>,
    front: &str,
    counts: &Counts,
    gate: Gate,
) -> Result<(), AllocError>
    ensures { OnOk result (out.new.items ≡ out.old.items ++ gate_line front.now counts.now gate) }
{
    push_text(out, front)?;
    push_counts(alloc, out, front.len(), counts, gate)?;
    push_text(out, "\n")
}

/// Writes the number that ended at a gate for each cause, if any did, from a column on.
fn push_counts(
    alloc: Global,
    out: &mut Vec<u8>,
    first: usize,
    counts: &Counts,
    gate: Gate,
) -> Result<(), AllocError>
    ensures { OnOk result (out.new.items
        ≡ out.old.items ++ counts_from first counts.now gate (causes_at gate)) }
{
    let mut column = first;
    for cause in gate.causes() {
        let fate = Fate {
            gate,
            cause: *cause,
        };
        column = push_count(alloc, out, column, *cause, counts.count(fate))?;
    }
    Ok(())
}

/// Writes the number that ended for this cause, if any did, and gives the next column.
fn push_count(
    alloc: Global,
    out: &mut Vec<u8>,
    column: usize,
    cause: Cause,
    count: u64,
) -> Result<usize, AllocError>
    ensures written { OnOk result (out.new.items ≡ out.old.items ++ count_at column cause count) }
    ensures column { IfOk result (λ after. after ≡ column_at column cause count) }
{
    if count == 0 {
        return Ok(column);
    }
    let len = len_of(alloc, cause, count)?;
    push_break(out, column.saturating_add(len))?;
    push_count_words(out, cause, count)?;
    Ok(column_after(column, len))
}

/// The columns of a word and its count.
fn len_of(alloc: Global, cause: Cause, count: u64) -> Result<usize, AllocError>
    ensures { IfOk result (λ len. len ≡ len_of cause count) }
{
    let mut number = Vec::new(alloc);
    push_decimal(&mut number, count)?;
    Ok(
        cause
            .name()
            .len()
            .saturating_add(number.len())
            .saturating_add(3),
    )
}

/// Begins a new line, if what follows would end after the last column.
fn push_break(out: &mut Vec<u8>, last: usize) -> Result<(), AllocError>
    ensures { OnOk result (out.new.items ≡ out.old.items ++ break_before last) }
{
    if last > WIDTH {
        push_text(out, "\n    ")?;
    }
    Ok(())
}

/// The column after a piece of `len` columns, on this line or on a new one.
fn column_after(column: usize, len: usize) -> usize
    ensures { result ≡ column_after column len }
{
    let last = column.saturating_add(len);
    if last > WIDTH {
        len.saturating_add(4)
    } else {
        last
    }
}

/// Writes a word and its count.
#[tactic(auto, unfolding(crate::specs::Recent::count_words))]
fn push_count_words(out: &mut Vec<u8>, cause: Cause, count: u64) -> Result<(), AllocError>
    ensures { OnOk result (out.new.items ≡ out.old.items ++ count_words cause count) }
{
    push_text(out, "  ")?;
    push_text(out, cause.name())?;
    push_text(out, " ")?;
    push_decimal(out, count)
}

/// Writes the fullest accounts, a line each, without those that have or hold no place.
fn push_fullest(out: &mut Vec<u8>, fullest: &[AccountLook]) -> Result<(), AllocError>
    ensures { OnOk result (out.new.items ≡ out.old.items ++ full_lines 5 fullest.now) }
{
    let mut most = FULLEST;
    for account in fullest {
        if most > 0 && is_shown(account) {
            push_account(out, account)?;
            most -= 1;
        }
    }
    Ok(())
}

/// Whether an account has a place and holds one.
fn is_shown(account: &AccountLook) -> bool
    ensures { result ≡ is_shown account.now }
{
    account.row.held > 0 && account.row.places > 0
}

/// Writes what a full account holds of its places.
#[tactic(auto, unfolding(crate::specs::Recent::full_line))]
fn push_account(out: &mut Vec<u8>, account: &AccountLook) -> Result<(), AllocError>
    ensures { OnOk result (out.new.items ≡ out.old.items ++ full_line account.now) }
{
    push_text(out, "full: ")?;
    push_decimal(out, u64::from(account.row.held))?;
    push_text(out, "/")?;
    push_decimal(out, u64::from(account.row.places))?;
    push_text(out, " ")?;
    push_word(out, account.name.as_bytes())?;
    push_text(out, "\n")
}

/// Writes the octets that wait at all sockets, and the number of dropped datagrams, if the system
/// reports any socket.
fn push_sockets(out: &mut Vec<u8>, sockets: &[SocketLook]) -> Result<(), AllocError>
    ensures { OnOk result (out.new.items ≡ out.old.items ++ sockets_if_any sockets.now) }
{
    if sockets.is_empty() {
        return Ok(());
    }
    push_sockets_line(out, waiting(sockets), dropped(sockets))
}

/// Writes the line of the sockets.
#[tactic(auto, unfolding(crate::specs::Recent::sockets_line))]
fn push_sockets_line(out: &mut Vec<u8>, waiting: u64, dropped: u64) -> Result<(), AllocError>
    ensures { OnOk result (out.new.items ≡ out.old.items ++ sockets_line waiting dropped) }
{
    push_text(out, "sockets: ")?;
    push_decimal(out, waiting)?;
    push_text(out, " octets wait, ")?;
    push_decimal(out, dropped)?;
    push_text(out, " datagrams found no room\n")?;
    Ok(())
}
