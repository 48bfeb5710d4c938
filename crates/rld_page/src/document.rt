ghost use Rattle.std.specs.Prelude.{◌≡◌, ◌++◌, IfOk, List, OnOk, ℕ};
ghost use Rattle.rld_page.specs.Page.{IsPage, foot_of, head_of, main_of, page_of, title_of, warning_of};
ghost use Rattle.rld_values.specs.Dates.{AreDates};

use crate::accounts::write_accounts;
use crate::causes::write_causes;
use crate::chart::write_charts;
use crate::html::Html;
use crate::refused::write_refused;
use crate::servers::write_servers;
use crate::sockets::write_sockets;
use crate::style::STYLE;
use crate::summary::{write_numbers, write_state};
use rld_look::{Look, Recording};
use std::alloc::{AllocError, Global};

/// The page for a browser: one file of HTML, without a script and without anything from elsewhere,
/// that reloads every ten seconds. It fails only if memory is refused.
///
/// It shows whether the server records and whether its clock is behind, the places held of all, the
/// rates of the last minute, what the archive has, the last hour, the fullest accounts, how datagrams
/// ended since the start, the access servers that hold sessions, the last refusals, and the queues of
/// the sockets. It shows at most 50 accounts and 256 access servers.
pub fn page(alloc: Global, look: &Look) -> Result<Vec<u8>, AllocError>
    ensures { IfOk result (λ text. IsPage look.entry.now text.items) }
{
    let mut html = Html::new(alloc);
    write_page(&mut html, look)?;
    Ok(html.into_octets())
}

/// Writes the whole page.
#[tactic(auto, unfolding(crate::specs::Page::page_of))]
fn write_page(html: &mut Html, look: &Look) -> Result<(), AllocError>
    ensures { OnOk result ((dates : ℕ → List ℕ) → AreDates dates →
        html.new ≡ html.old ++ page_of dates look.entry.now) }
{
    write_head(html, look.recording, look.totals.held, look.totals.places)?;
    write_state(html, look)?;
    write_main(html, look)?;
    write_foot(html, look.now)?;
    Ok(())
}

/// Writes the head of the document. Its title says what is looked at first.
#[tactic(auto, unfolding(crate::specs::Page::head_of))]
fn write_head(
    html: &mut Html,
    recording: Recording,
    held: u64,
    places: u64,
) -> Result<(), AllocError>
    ensures { OnOk result (html.new ≡ html.old ++ head_of recording held places) }
{
    html.markup("<!DOCTYPE html>\n<html lang=\"en\">\n<head>\n<meta charset=\"utf-8\">\n")?;
    html.markup("<meta name=\"viewport\" content=\"width=device-width, initial-scale=1\">\n")?;
    html.markup("<meta http-equiv=\"refresh\" content=\"10\">\n<title>")?;
    write_title(html, recording, held, places)?;
    html.markup("</title>\n<style>")?;
    html.markup(STYLE)?;
    html.markup("</style>\n</head>\n<body>\n")?;
    Ok(())
}

/// Writes the title.
#[tactic(auto, unfolding(crate::specs::Page::title_of))]
fn write_title(
    html: &mut Html,
    recording: Recording,
    held: u64,
    places: u64,
) -> Result<(), AllocError>
    ensures { OnOk result (html.new ≡ html.old ++ title_of recording held places) }
{
    write_warning(html, recording)?;
    html.grouped(held)?;
    html.markup(" of ")?;
    html.grouped(places)?;
    html.markup(" held ")?;
    html.markup("·")?;
    html.markup(" radlimitd")?;
    Ok(())
}

/// Writes that nothing is recorded, where that is so.
fn write_warning(html: &mut Html, recording: Recording) -> Result<(), AllocError>
    ensures { OnOk result (html.new ≡ html.old ++ warning_of recording) }
{
    match recording {
        Recording::Recorded => Ok(()),
        Recording::Failing => html.markup("Not recording! "),
    }
}

/// Writes what stands between the state and the foot.
#[tactic(auto, unfolding(crate::specs::Page::main_of))]
fn write_main(html: &mut Html, look: &Look) -> Result<(), AllocError>
    ensures { OnOk result ((dates : ℕ → List ℕ) → AreDates dates →
        html.new ≡ html.old ++ main_of dates look.entry.now) }
{
    html.markup("<main>\n")?;
    write_numbers(html, look)?;
    write_charts(html, look)?;
    write_accounts(html, look)?;
    write_causes(html, &look.counts)?;
    write_servers(html, look)?;
    write_refused(html, look)?;
    write_sockets(html, look)?;
    html.markup("</main>\n")?;
    Ok(())
}

/// Writes the foot of the page.
#[tactic(auto, unfolding(crate::specs::Page::foot_of))]
fn write_foot(html: &mut Html, now: u64) -> Result<(), AllocError>
    ensures { OnOk result ((dates : ℕ → List ℕ) → AreDates dates →
        html.new ≡ html.old ++ foot_of dates now) }
{
    html.markup("<footer>As of <time>")?;
    html.date(now)?;
    html.markup(
        "</time>, loaded again each ten seconds. For programs: <a href=\"metrics\">/metrics</a>, ",
    )?;
    html.markup(
        "<a href=\"accounts.json\">/accounts.json</a>, <a href=\"health\">/health</a></footer>\n",
    )?;
    html.markup("</body>\n</html>\n")?;
    Ok(())
}
