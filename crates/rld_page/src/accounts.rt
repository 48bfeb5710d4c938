//! The accounts that hold most of their places.

ghost use Rattle.std.specs.Prelude.{◌≡◌, ◌++◌, OnOk};
ghost use Rattle.std.specs.List.{flat_map};
ghost use Rattle.rld_page.specs.Html.{html_text};
ghost use Rattle.rld_page.specs.Tables.{account_front, account_row, accounts_front, accounts_of, more_cell, number_cell, row_cells, share_cell, table_end};

use crate::figures::{share, write_width};
use crate::html::Html;
use rld_look::{AccountLook, Look};
use rsl_accounts::Text;
use rsl_shard::Row;
use std::alloc::AllocError;

/// Writes the accounts that hold most of their places, the fullest first.
pub(crate) fn write_accounts(html: &mut Html, look: &Look) -> Result<(), AllocError>
    ensures { OnOk result (html.new ≡ html.old
        ++ accounts_of look.entry.now.totals.accounts look.entry.now.fullest.items) }
{
    write_fullest(html, look.totals.accounts, look.fullest.as_slice())
}

/// Writes the fullest accounts, and how many accounts there are.
#[tactic(auto, unfolding(crate::specs::Tables::accounts_of))]
fn write_fullest(html: &mut Html, number: u64, fullest: &[AccountLook]) -> Result<(), AllocError>
    ensures { OnOk result (html.new ≡ html.old ++ accounts_of number fullest.now) }
{
    write_front(html, number)?;
    write_rows(html, fullest)?;
    html.markup("</tbody></table></div></section>\n")?;
    Ok(())
}

/// Writes what stands before the rows.
#[tactic(auto, unfolding(crate::specs::Tables::accounts_front))]
fn write_front(html: &mut Html, number: u64) -> Result<(), AllocError>
    ensures { OnOk result (html.new ≡ html.old ++ accounts_front number) }
{
    html.markup(
        "<section class=\"most\"><div class=\"top\"><h2>Fullest accounts</h2><p class=\"soft\">",
    )?;
    html.grouped(number)?;
    html.markup(" in all</p></div>\n<div class=\"wide\">")?;
    html.markup(
        "<table><thead><tr><th scope=\"col\">Account</th><th scope=\"col\"><span class=\"more\">Share</span></th>",
    )?;
    html.markup(
        "<th scope=\"col\" class=\"n\">Held</th><th scope=\"col\" class=\"n\">Places</th>",
    )?;
    html.markup(
        "<th scope=\"col\" class=\"n more\">Live</th><th scope=\"col\" class=\"n more\">Stale</th>",
    )?;
    html.markup(
        "<th scope=\"col\" class=\"n more\">Reserved</th><th scope=\"col\" class=\"n more\">Over</th>",
    )?;
    html.markup("</tr></thead><tbody>\n")?;
    Ok(())
}

/// Writes the rows of accounts.
fn write_rows(html: &mut Html, accounts: &[AccountLook]) -> Result<(), AllocError>
    ensures { OnOk result (html.new ≡ html.old ++ flat_map account_row accounts.now) }
{
    for account in accounts {
        write_account(html, account)?;
    }
    Ok(())
}

/// Writes the row of an account. It is an anchor, `account-NAME`, in the text of the page.
#[tactic(auto, unfolding(crate::specs::Tables::account_row))]
fn write_account(html: &mut Html, account: &AccountLook) -> Result<(), AllocError>
    ensures { OnOk result (html.new ≡ html.old ++ account_row account.now) }
{
    write_account_front(html, &account.row)?;
    write_name(html, &account.name)?;
    html.markup("\"><td class=\"name\">")?;
    write_name(html, &account.name)?;
    write_cells(html, &account.row)?;
    html.markup("</tr>\n")?;
    Ok(())
}

/// Writes the front of a row: it says whether the account has a free place.
fn write_account_front(html: &mut Html, row: &Row) -> Result<(), AllocError>
    ensures { OnOk result (html.new ≡ html.old ++ account_front row.now) }
{
    if row.held < row.places {
        html.markup("<tr id=\"account-")
    } else {
        html.markup("<tr class=\"full\" id=\"account-")
    }
}

/// Writes an account's name.
fn write_name(html: &mut Html, name: &Text) -> Result<(), AllocError>
    ensures { OnOk result (html.new ≡ html.old ++ html_text name.now) }
{
    html.text(name.as_bytes())
}

/// Writes what an account holds.
#[tactic(auto, unfolding(crate::specs::Tables::row_cells))]
fn write_cells(html: &mut Html, row: &Row) -> Result<(), AllocError>
    ensures { OnOk result (html.new ≡ html.old ++ row_cells row.now) }
{
    write_share(html, u64::from(row.held), u64::from(row.places))?;
    write_number(html, u64::from(row.held))?;
    write_number(html, u64::from(row.places))?;
    write_more(html, u64::from(row.live))?;
    write_more(html, u64::from(row.stale))?;
    write_more(html, u64::from(row.reserved))?;
    write_more(html, row.over)?;
    Ok(())
}

/// Writes how much of its places an account holds, as a bar.
#[tactic(auto, unfolding(crate::specs::Tables::share_cell))]
fn write_share(html: &mut Html, held: u64, places: u64) -> Result<(), AllocError>
    ensures { OnOk result (html.new ≡ html.old ++ share_cell held places) }
{
    html.markup("</td><td class=\"share\"><span class=\"bar\"><i style=\"width:")?;
    write_width(html, share(held, places))?;
    html.markup("\"></i></span></td>")?;
    Ok(())
}

/// Writes a number.
#[tactic(auto, unfolding(crate::specs::Tables::number_cell))]
pub(crate) fn write_number(html: &mut Html, number: u64) -> Result<(), AllocError>
    ensures { OnOk result (html.new ≡ html.old ++ number_cell number) }
{
    html.markup("<td class=\"n\">")?;
    html.grouped(number)?;
    html.markup("</td>")?;
    Ok(())
}

/// Writes a number that a narrow window has no room for.
#[tactic(auto, unfolding(crate::specs::Tables::more_cell))]
pub(crate) fn write_more(html: &mut Html, number: u64) -> Result<(), AllocError>
    ensures { OnOk result (html.new ≡ html.old ++ more_cell number) }
{
    html.markup("<td class=\"n more\">")?;
    html.grouped(number)?;
    html.markup("</td>")?;
    Ok(())
}
