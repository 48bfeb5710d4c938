//! The access servers that hold sessions or reservations.

ghost use Rattle.std.specs.Prelude.{◌≡◌, ◌-◌, ◌++◌, List, OnOk, length, ℕ};
ghost use Rattle.std.specs.List.{flat_map};
ghost use Rattle.rld_page.specs.Tables.{left_out_words, more_servers, server_front, server_row, servers_end, servers_front, servers_of, servers_table, touch_cells};
ghost use Rattle.rld_values.specs.Dates.{AreDates};

use crate::accounts::{write_more, write_number};
use crate::html::Html;
use rld_look::{AccessServerLook, Look};
use std::alloc::AllocError;

/// Writes the access servers of a look, and how many are not shown.
pub(crate) fn write_servers(html: &mut Html, look: &Look) -> Result<(), AllocError>
    ensures { OnOk result ((dates : ℕ → List ℕ) → AreDates dates →
        html.new ≡ html.old ++ servers_of dates look.entry.now) }
{
    let servers = look.access_servers.first.as_slice();
    write_table(html, look.now, look.access_servers.number, servers)
}

/// Writes the table of access servers, of which there are `number`.
#[tactic(auto, unfolding(crate::specs::Tables::servers_table))]
fn write_table(
    html: &mut Html,
    now: u64,
    number: u64,
    servers: &[AccessServerLook],
) -> Result<(), AllocError>
    ensures { OnOk result ((dates : ℕ → List ℕ) → AreDates dates →
        html.new ≡ html.old ++ servers_table dates now number servers.now) }
{
    write_front(html, number)?;
    write_rows(html, now, servers)?;
    write_end(html, number, servers.len() as u64)?;
    Ok(())
}

/// Writes what stands before the rows.
#[tactic(auto, unfolding(crate::specs::Tables::servers_front))]
fn write_front(html: &mut Html, number: u64) -> Result<(), AllocError>
    ensures { OnOk result (html.new ≡ html.old ++ servers_front number) }
{
    html.markup(
        "<section><div class=\"top\"><h2>Access servers</h2><p class=\"soft\">times are UTC, ",
    )?;
    html.grouped(number)?;
    html.markup(" in all</p></div>\n<div class=\"wide\">")?;
    html.markup(
        "<table><thead><tr><th scope=\"col\">Client</th><th scope=\"col\">Access server</th>",
    )?;
    html.markup(
        "<th scope=\"col\" class=\"n\">Sessions</th><th scope=\"col\" class=\"n more\">Reserved</th>",
    )?;
    html.markup(
        "<th scope=\"col\" class=\"n more\">Last packet</th><th scope=\"col\" class=\"n\">Silent for</th>",
    )?;
    html.markup("</tr></thead><tbody>\n")?;
    Ok(())
}

/// Writes the rows of access servers.
fn write_rows(html: &mut Html, now: u64, servers: &[AccessServerLook]) -> Result<(), AllocError>
    ensures { OnOk result ((dates : ℕ → List ℕ) → AreDates dates →
        html.new ≡ html.old ++ flat_map (server_row dates now) servers.now) }
{
    for server in servers {
        write_server(html, now, server)?;
    }
    Ok(())
}

/// Writes the row of an access server.
#[tactic(auto, unfolding(crate::specs::Tables::server_row))]
fn write_server(html: &mut Html, now: u64, server: &AccessServerLook) -> Result<(), AllocError>
    ensures { OnOk result ((dates : ℕ → List ℕ) → AreDates dates →
        html.new ≡ html.old ++ server_row dates now server.now) }
{
    write_name(html, server)?;
    write_number(html, server.bound)?;
    write_more(html, server.reserved)?;
    write_touch(html, now, server.last)?;
    Ok(())
}

/// Writes the client and the name of an access server.
#[tactic(auto, unfolding(crate::specs::Tables::server_front))]
fn write_name(html: &mut Html, server: &AccessServerLook) -> Result<(), AllocError>
    ensures { OnOk result (html.new ≡ html.old ++ server_front server.now) }
{
    html.markup("<tr><td>")?;
    html.address(server.client)?;
    html.markup("</td><td class=\"name\">")?;
    html.nas(&server.nas)?;
    html.markup("</td>")?;
    Ok(())
}

/// Writes when an access server was last heard of, and for how long it has been silent.
#[tactic(auto, unfolding(crate::specs::Tables::touch_cells))]
fn write_touch(html: &mut Html, now: u64, last: u64) -> Result<(), AllocError>
    ensures { OnOk result ((dates : ℕ → List ℕ) → AreDates dates →
        html.new ≡ html.old ++ touch_cells dates now last) }
{
    html.markup("<td class=\"n more\"><time>")?;
    html.moment(last)?;
    html.markup("</time></td><td class=\"n\">")?;
    html.grouped(now.saturating_sub(last))?;
    html.markup(" s</td></tr>\n")?;
    Ok(())
}

/// Writes what stands after the rows.
#[tactic(auto, unfolding(crate::specs::Tables::servers_end))]
fn write_end(html: &mut Html, number: u64, shown: u64) -> Result<(), AllocError>
    ensures { OnOk result (html.new ≡ html.old ++ servers_end number shown) }
{
    html.markup("</tbody></table></div>\n<p class=\"soft\">An access server stands here only ")?;
    html.markup("while it holds a session or a reservation. Its last packet is the last ")?;
    html.markup("one of these.")?;
    write_rest(html, number, shown)?;
    html.markup("</p></section>\n")?;
    Ok(())
}

/// Writes how many access servers are not shown, if any are not.
fn write_rest(html: &mut Html, number: u64, shown: u64) -> Result<(), AllocError>
    ensures { OnOk result (html.new ≡ html.old ++ more_servers number shown) }
{
    if number <= shown {
        Ok(())
    } else {
        write_left_out(html, number - shown)
    }
}

/// Writes how many access servers are not shown.
#[tactic(auto, unfolding(crate::specs::Tables::left_out_words))]
fn write_left_out(html: &mut Html, number: u64) -> Result<(), AllocError>
    ensures { OnOk result (html.new ≡ html.old ++ left_out_words number) }
{
    html.markup(" <b>")?;
    html.grouped(number)?;
    html.markup(" more are not shown.</b>")?;
    Ok(())
}
