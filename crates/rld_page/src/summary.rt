//! The head of the page: the state of the server, and its main numbers.

ghost use Rattle.std.specs.Prelude.{◌≡◌, ◌++◌, List, OnOk, ℕ};
ghost use Rattle.rld_look.specs.History.{latest_of, span_of};
ghost use Rattle.rld_page.specs.Summary.{archive_row, behind_mark, clock_mark, numbers_of, places_text, rate_text, rates_text, recording_mark, rejects_in, since_text, state_of, written_text};
ghost use Rattle.rld_values.specs.Dates.{AreDates};

use crate::figures::{share, tenths, write_tenths, write_width};
use crate::html::Html;
use rld_look::{Look, Minute, Recording};
use std::alloc::AllocError;

/// Writes the state of the server: whether it records, whether its clock is behind, since
/// when it runs, and what it writes.
#[tactic(auto, unfolding(crate::specs::Summary::state_of))]
pub(crate) fn write_state(html: &mut Html, look: &Look) -> Result<(), AllocError>
    ensures { OnOk result ((dates : ℕ → List ℕ) → AreDates dates →
        html.new ≡ html.old ++ state_of dates look.entry.now) }
{
    html.markup("<header><h1>radlimitd</h1>")?;
    write_recording(html, look.recording)?;
    write_clock(html, look.clock_behind)?;
    write_since(html, look.start)?;
    write_written(html, look.generation, look.moves)?;
    Ok(())
}

/// Writes whether the server records.
fn write_recording(html: &mut Html, recording: Recording) -> Result<(), AllocError>
    ensures { OnOk result (html.new ≡ html.old ++ recording_mark recording) }
{
    match recording {
        Recording::Recorded => html.markup("<p class=\"state good\">recording</p>"),
        Recording::Failing => html.markup(
            "<p class=\"state bad\" role=\"alert\">not recording, and so not answering: the disk is full or fails, or memory is refused</p>",
        ),
    }
}

/// Writes by how many seconds the clock is behind the books, if it is.
fn write_clock(html: &mut Html, behind: u64) -> Result<(), AllocError>
    ensures { OnOk result (html.new ≡ html.old ++ clock_mark behind) }
{
    if behind == 0 {
        Ok(())
    } else {
        write_behind(html, behind)
    }
}

/// Writes by how many seconds the clock is behind.
#[tactic(auto, unfolding(crate::specs::Summary::behind_mark))]
fn write_behind(html: &mut Html, behind: u64) -> Result<(), AllocError>
    ensures { OnOk result (html.new ≡ html.old ++ behind_mark behind) }
{
    html.markup("<p class=\"state bad\" role=\"alert\">clock behind by ")?;
    html.grouped(behind)?;
    html.markup(" s: no deadline passes until it is there</p>")?;
    Ok(())
}

/// Writes since when the server runs.
#[tactic(auto, unfolding(crate::specs::Summary::since_text))]
fn write_since(html: &mut Html, start: u64) -> Result<(), AllocError>
    ensures { OnOk result ((dates : ℕ → List ℕ) → AreDates dates →
        html.new ≡ html.old ++ since_text dates start) }
{
    html.markup("<p class=\"since\">since <time>")?;
    html.date(start)?;
    html.markup("</time> ")?;
    Ok(())
}

/// Writes what the server writes.
#[tactic(auto, unfolding(crate::specs::Summary::written_text))]
fn write_written(html: &mut Html, generation: u64, moves: u64) -> Result<(), AllocError>
    ensures { OnOk result (html.new ≡ html.old ++ written_text generation moves) }
{
    html.markup("·")?;
    html.markup(" generation ")?;
    html.number(generation)?;
    html.markup(", ")?;
    html.grouped(moves)?;
    html.markup(" moves</p></header>\n")?;
    Ok(())
}

/// Writes the numbers that are looked at first.
#[tactic(auto, unfolding(crate::specs::Summary::numbers_of))]
pub(crate) fn write_numbers(html: &mut Html, look: &Look) -> Result<(), AllocError>
    ensures { OnOk result (html.new ≡ html.old ++ numbers_of look.entry.now) }
{
    html.markup("<section class=\"numbers\" aria-label=\"Summary\"><dl>\n")?;
    write_places(html, look.totals.held, look.totals.places)?;
    write_latest(html, look)?;
    html.markup("</dl>\n")?;
    write_archive(html, look.archive.logs, look.archive.octets)?;
    html.markup("</section>\n")?;
    Ok(())
}

/// Writes what the archive has.
#[tactic(auto, unfolding(crate::specs::Summary::archive_row))]
fn write_archive(html: &mut Html, logs: u64, octets: u64) -> Result<(), AllocError>
    ensures { OnOk result (html.new ≡ html.old ++ archive_row logs octets) }
{
    html.markup("<p class=\"soft\">Archive: ")?;
    html.grouped(logs)?;
    html.markup(" logs, ")?;
    html.grouped(octets)?;
    html.markup(" octets</p>")?;
    Ok(())
}

/// Writes the latest rates of a look.
fn write_latest(html: &mut Html, look: &Look) -> Result<(), AllocError>
    ensures { OnOk result (html.new
        ≡ html.old ++ rates_text (latest_of look.entry.now) (span_of look.entry.now)) }
{
    write_rates(html, look.latest(), look.span())
}

/// Writes the rates of a minute, with words for the time of it.
#[tactic(auto, unfolding(crate::specs::Summary::rates_text))]
fn write_rates(html: &mut Html, minute: Minute, span: &'static str) -> Result<(), AllocError>
    ensures { OnOk result (html.new ≡ html.old ++ rates_text minute span.now) }
{
    write_rate(html, "Logins", minute.accepts, span)?;
    write_rate(html, "Rejects", rejects(minute), span)?;
    write_rate(html, "Accounting", minute.accounting, span)?;
    Ok(())
}

/// How many Access-Rejects were sent in a minute.
fn rejects(minute: Minute) -> u64
    ensures { result ≡ rejects_in minute }
{
    minute.limit_rejects.saturating_add(minute.rejects)
}

/// Writes the places that are held of all.
#[tactic(auto, unfolding(crate::specs::Summary::places_text))]
fn write_places(html: &mut Html, held: u64, places: u64) -> Result<(), AllocError>
    ensures { OnOk result (html.new ≡ html.old ++ places_text held places) }
{
    html.markup("<div><dt>Places held</dt><dd>")?;
    html.grouped(held)?;
    html.markup(" <small>of ")?;
    html.grouped(places)?;
    html.markup("</small></dd><span class=\"bar\"><i style=\"width:")?;
    write_width(html, share(held, places))?;
    html.markup("\"></i></span></div>\n")?;
    Ok(())
}

/// Writes how many came a second, of those of a minute, with words for the time of it.
#[tactic(auto, unfolding(crate::specs::Summary::rate_text))]
fn write_rate(
    html: &mut Html,
    name: &'static str,
    a_minute: u64,
    span: &'static str,
) -> Result<(), AllocError>
    ensures { OnOk result (html.new ≡ html.old ++ rate_text name.now a_minute span.now) }
{
    html.markup("<div><dt>")?;
    html.markup(name)?;
    html.markup("</dt><dd>")?;
    write_tenths(html, tenths(a_minute))?;
    html.markup(" <small>a second, ")?;
    html.markup(span)?;
    html.markup("</small></dd></div>\n")?;
    Ok(())
}
