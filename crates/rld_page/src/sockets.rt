//! The queues of the sockets, and what the system dropped there.

ghost use Rattle.std.specs.Prelude.{◌≡◌, ◌++◌, OnOk};
ghost use Rattle.std.specs.List.{flat_map};
ghost use Rattle.rld_page.specs.Tables.{socket_row, sockets_of, sockets_table, table_end};

use crate::html::Html;
use rld_look::{Look, SocketLook};
use std::alloc::AllocError;

/// Writes what waits at each socket of a look, and what was dropped there before the server saw it.
pub(crate) fn write_sockets(html: &mut Html, look: &Look) -> Result<(), AllocError>
    ensures { OnOk result (html.new ≡ html.old ++ sockets_of look.entry.now.sockets.items) }
{
    write_sockets_if_any(html, look.sockets.as_slice())
}

/// Writes the table of the sockets, if the system says something of any.
fn write_sockets_if_any(html: &mut Html, sockets: &[SocketLook]) -> Result<(), AllocError>
    ensures { OnOk result (html.new ≡ html.old ++ sockets_of sockets.now) }
{
    if sockets.is_empty() {
        return Ok(());
    }
    write_table(html, sockets)
}

/// Writes the table of the sockets.
#[tactic(auto, unfolding(crate::specs::Tables::sockets_table))]
fn write_table(html: &mut Html, sockets: &[SocketLook]) -> Result<(), AllocError>
    ensures { OnOk result (html.new ≡ html.old ++ sockets_table sockets.now) }
{
    html.markup(
        "<section><div class=\"top\"><h2>Sockets</h2></div>\n<div class=\"wide\"><table><thead><tr>",
    )?;
    html.markup(
        "<th scope=\"col\">UDP port</th><th scope=\"col\" class=\"n\">Octets waiting</th>",
    )?;
    html.markup("<th scope=\"col\" class=\"n\">Dropped, no room</th></tr></thead><tbody>\n")?;
    write_rows(html, sockets)?;
    html.markup("</tbody></table></div></section>\n")?;
    Ok(())
}

/// Writes the rows of sockets.
fn write_rows(html: &mut Html, sockets: &[SocketLook]) -> Result<(), AllocError>
    ensures { OnOk result (html.new ≡ html.old ++ flat_map socket_row sockets.now) }
{
    for socket in sockets {
        write_socket(html, socket)?;
    }
    Ok(())
}

/// Writes the row of a socket.
#[tactic(auto, unfolding(crate::specs::Tables::socket_row))]
fn write_socket(html: &mut Html, socket: &SocketLook) -> Result<(), AllocError>
    ensures { OnOk result (html.new ≡ html.old ++ socket_row socket.now) }
{
    html.markup("<tr><td>")?;
    html.number(u64::from(socket.port))?;
    html.markup("</td><td class=\"n\">")?;
    html.grouped(socket.waiting)?;
    html.markup("</td><td class=\"n\">")?;
    html.grouped(socket.dropped)?;
    html.markup("</td></tr>\n")?;
    Ok(())
}
