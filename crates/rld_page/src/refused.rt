//! The last refusals.

ghost use Rattle.std.specs.Prelude.{◌≡◌, ◌++◌, List, OnOk, ℕ};
ghost use Rattle.rld_page.specs.Html.{soft_dash};
ghost use Rattle.rld_page.specs.Tables.{address_text, client_text, ipv6_or_word, name_or_dash, nas_text, refusal_end, refusal_front, refusal_row, refusal_rows, refused_if_any, refused_of, refused_table, table_end};
ghost use Rattle.rld_values.specs.Dates.{AreDates};

use crate::html::Html;
use rld_look::{Look, Refusal};
use rsl_event::NasName;
use rsl_wire::Octets;
use std::alloc::AllocError;
use std::net::{IpAddr, Ipv6Addr};

/// Writes what was refused lately, the last first.
pub(crate) fn write_refused(html: &mut Html, look: &Look) -> Result<(), AllocError>
    ensures { OnOk result ((dates : ℕ → List ℕ) → AreDates dates →
        html.new ≡ html.old ++ refused_of dates look.entry.now.refusals.items) }
{
    write_section(html, look.refusals.as_slice())
}

/// Writes the section of these refusals.
#[tactic(auto, unfolding(crate::specs::Tables::refused_of))]
fn write_section(html: &mut Html, refusals: &[Refusal]) -> Result<(), AllocError>
    ensures { OnOk result ((dates : ℕ → List ℕ) → AreDates dates →
        html.new ≡ html.old ++ refused_of dates refusals.now) }
{
    html.markup(
        "<section><div class=\"top\"><h2>Refused lately</h2><p class=\"soft\">times are UTC</p></div>\n",
    )?;
    write_table_if_any(html, refusals)?;
    Ok(())
}

/// Writes the table of refusals, if there are any.
fn write_table_if_any(html: &mut Html, refusals: &[Refusal]) -> Result<(), AllocError>
    ensures { OnOk result ((dates : ℕ → List ℕ) → AreDates dates →
        html.new ≡ html.old ++ refused_if_any dates refusals.now) }
{
    if refusals.is_empty() {
        return html.markup("<p class=\"soft\">Nothing was refused.</p></section>\n");
    }
    write_table(html, refusals)
}

/// Writes the table of refusals.
#[tactic(auto, unfolding(crate::specs::Tables::refused_table))]
fn write_table(html: &mut Html, refusals: &[Refusal]) -> Result<(), AllocError>
    ensures { OnOk result ((dates : ℕ → List ℕ) → AreDates dates →
        html.new ≡ html.old ++ refused_table dates refusals.now) }
{
    html.markup(
        "<div class=\"wide\"><table class=\"lately\"><thead><tr><th scope=\"col\">Time</th><th scope=\"col\">Account</th>",
    )?;
    html.markup("<th scope=\"col\" class=\"more\">Station</th><th scope=\"col\">Cause</th>")?;
    html.markup(
        "<th scope=\"col\">Client</th><th scope=\"col\">Access server</th></tr></thead><tbody>\n",
    )?;
    write_rows(html, refusals)?;
    html.markup("</tbody></table></div></section>\n")?;
    Ok(())
}

/// Writes the rows of refusals, the last first.
fn write_rows(html: &mut Html, refusals: &[Refusal]) -> Result<(), AllocError>
    ensures { OnOk result ((dates : ℕ → List ℕ) → AreDates dates →
        html.new ≡ html.old ++ refusal_rows dates refusals.now) }
{
    let mut at = refusals.len();
    while at > 0 {
        at -= 1;
        write_refusal(html, &refusals[at])?;
    }
    Ok(())
}

/// Writes the row of a refusal.
fn write_refusal(html: &mut Html, refusal: &Refusal) -> Result<(), AllocError>
    ensures { OnOk result ((dates : ℕ → List ℕ) → AreDates dates →
        html.new ≡ html.old ++ refusal_row dates refusal.now) }
{
    write_front(html, refusal)?;
    write_end(html, refusal)?;
    Ok(())
}

/// Writes when it was refused, which account it asked for, and which device it named.
#[tactic(auto, unfolding(crate::specs::Tables::refusal_front))]
fn write_front(html: &mut Html, refusal: &Refusal) -> Result<(), AllocError>
    ensures { OnOk result ((dates : ℕ → List ℕ) → AreDates dates →
        html.new ≡ html.old ++ refusal_front dates refusal.now) }
{
    html.markup("<tr><td><time>")?;
    html.moment(refusal.moment)?;
    html.markup("</time></td><td class=\"name\">")?;
    write_name(html, &refusal.name)?;
    html.markup("</td><td class=\"name more\">")?;
    write_name(html, &refusal.station)?;
    Ok(())
}

/// Writes why it was refused, and where it came from.
#[tactic(auto, unfolding(crate::specs::Tables::refusal_end))]
fn write_end(html: &mut Html, refusal: &Refusal) -> Result<(), AllocError>
    ensures { OnOk result (html.new ≡ html.old ++ refusal_end refusal.now) }
{
    html.markup("</td><td>")?;
    html.markup(refusal.fate.cause.words())?;
    html.markup("</td><td>")?;
    write_client(html, refusal)?;
    html.markup("</td><td class=\"name\">")?;
    write_nas(html, &refusal.nas)?;
    html.markup("</td></tr>\n")?;
    Ok(())
}

/// Writes the address of the client that a peer stands for; of a peer that stands for none, its own.
fn write_client(html: &mut Html, refusal: &Refusal) -> Result<(), AllocError>
    ensures { OnOk result (html.new ≡ html.old
        ++ client_text refusal.now.client refusal.now.source refusal.now.peer) }
{
    match refusal.client {
        Some(_) => html.address(refusal.source.address),
        None => html.ip(refusal.peer),
    }
}

/// Writes the name of an account or of a device, if there is one.
fn write_name(html: &mut Html, name: &Option<Octets>) -> Result<(), AllocError>
    ensures { OnOk result (html.new ≡ html.old ++ name_or_dash name.now) }
{
    match name {
        Some(name) => html.word(name.as_slice()),
        None => write_dash(html),
    }
}

/// Writes what an access server calls itself.
fn write_nas(html: &mut Html, nas: &NasName) -> Result<(), AllocError>
    ensures { OnOk result (html.new ≡ html.old ++ nas_text nas.now) }
{
    match nas {
        NasName::Identifier(name) => html.word(name.as_slice()),
        NasName::Address(octets) => write_address(html, octets.as_slice()),
        NasName::Unnamed => write_dash(html),
    }
}

/// Writes an address of an access server, of IPv4 or IPv6.
#[tactic(auto, unfolding(rld_values::specs::Values::dotted))]
fn write_address(html: &mut Html, octets: &[u8]) -> Result<(), AllocError>
    ensures { OnOk result (html.new ≡ html.old ++ address_text octets.now) }
{
    if octets.len() == 4 {
        html.address([octets[0], octets[1], octets[2], octets[3]])
    } else {
        write_ipv6(html, octets)
    }
}

/// Writes 16 octets as an address of IPv6 (RFC 5952), and others as a name.
fn write_ipv6(html: &mut Html, octets: &[u8]) -> Result<(), AllocError>
    ensures { OnOk result (html.new ≡ html.old ++ ipv6_or_word octets.now) }
{
    match <[u8; 16]>::try_from(octets) {
        Ok(address) => html.ip(IpAddr::V6(Ipv6Addr::from_octets(address))),
        Err(_) => html.word(octets),
    }
}

/// Writes that there is nothing to say.
#[tactic(auto, unfolding(crate::specs::Html::soft_dash))]
fn write_dash(html: &mut Html) -> Result<(), AllocError>
    ensures { OnOk result (html.new ≡ html.old ++ soft_dash) }
{
    html.markup("<span class=\"soft\">")?;
    html.markup("–")?;
    html.markup("</span>")?;
    Ok(())
}
