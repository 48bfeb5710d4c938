//! How the datagrams of each port and the asks ended, by cause.

ghost use Rattle.std.specs.Prelude.{◌≡◌, ◌++◌, OnOk};
ghost use Rattle.std.specs.List.{flat_map};
ghost use Rattle.rld_counts.specs.Fates.{causes_at};
ghost use Rattle.rld_page.specs.Tables.{answer_row, asks_if_any, causes_of, count_row, gate_table, other_row, row_if_any};

use crate::html::Html;
use rld_counts::{Cause, Counts, Fate, Gate};
use std::alloc::AllocError;

/// Writes how the datagrams ended since the start.
#[tactic(auto, unfolding(crate::specs::Tables::causes_of))]
pub(crate) fn write_causes(html: &mut Html, counts: &Counts) -> Result<(), AllocError>
    ensures { OnOk result (html.new ≡ html.old ++ causes_of counts.now) }
{
    html.markup(
        "<section class=\"rest\"><div class=\"top\"><h2>Datagrams since the start</h2></div>\n<div class=\"wide\">",
    )?;
    write_gate(html, "Authentication", counts, Gate::Auth)?;
    write_gate(html, "Accounting", counts, Gate::Acct)?;
    write_asks_if_any(html, counts)?;
    html.markup("</div></section>\n")?;
    Ok(())
}

/// Writes the table of asks, if any came.
fn write_asks_if_any(html: &mut Html, counts: &Counts) -> Result<(), AllocError>
    ensures { OnOk result (html.new ≡ html.old ++ asks_if_any counts.now) }
{
    if counts.total_at(Gate::Ask) == 0 {
        return Ok(());
    }
    write_gate(html, "Asks", counts, Gate::Ask)
}

/// Writes the table of a gate by its causes: the answers that came, then all else that did.
#[tactic(auto, unfolding(crate::specs::Tables::gate_table))]
fn write_gate(
    html: &mut Html,
    name: &'static str,
    counts: &Counts,
    gate: Gate,
) -> Result<(), AllocError>
    ensures { OnOk result (html.new ≡ html.old ++ gate_table name.now counts.now gate) }
{
    html.markup("<table><thead><tr><th scope=\"col\">")?;
    html.markup(name)?;
    html.markup("</th><th scope=\"col\" class=\"n\">Datagrams</th></tr></thead><tbody>\n")?;
    write_answers(html, counts, gate)?;
    write_others(html, counts, gate)?;
    html.markup("</tbody><tfoot><tr><td>All</td><td class=\"n\">")?;
    html.grouped(counts.total_at(gate))?;
    html.markup("</td></tr></tfoot></table>\n")?;
    Ok(())
}

/// Writes those of the causes that came and are answers.
fn write_answers(html: &mut Html, counts: &Counts, gate: Gate) -> Result<(), AllocError>
    ensures { OnOk result (html.new
        ≡ html.old ++ flat_map (answer_row counts.now gate) (causes_at gate)) }
{
    for cause in gate.causes() {
        write_if_answer(html, counts, gate, *cause)?;
    }
    Ok(())
}

/// Writes those of the causes that came and are none.
fn write_others(html: &mut Html, counts: &Counts, gate: Gate) -> Result<(), AllocError>
    ensures { OnOk result (html.new
        ≡ html.old ++ flat_map (other_row counts.now gate) (causes_at gate)) }
{
    for cause in gate.causes() {
        write_unless_answer(html, counts, gate, *cause)?;
    }
    Ok(())
}

/// Writes a cause that came, if it is an answer.
fn write_if_answer(
    html: &mut Html,
    counts: &Counts,
    gate: Gate,
    cause: Cause,
) -> Result<(), AllocError>
    ensures { OnOk result (html.new ≡ html.old ++ answer_row counts.now gate cause) }
{
    if cause.kind().is_answer() {
        write_if_any(html, cause, counts.count(Fate { gate, cause }))
    } else {
        Ok(())
    }
}

/// Writes a cause that came, if it is no answer.
fn write_unless_answer(
    html: &mut Html,
    counts: &Counts,
    gate: Gate,
    cause: Cause,
) -> Result<(), AllocError>
    ensures { OnOk result (html.new ≡ html.old ++ other_row counts.now gate cause) }
{
    if cause.kind().is_answer() {
        Ok(())
    } else {
        write_if_any(html, cause, counts.count(Fate { gate, cause }))
    }
}

/// Writes how many datagrams ended for this cause, if any did.
fn write_if_any(html: &mut Html, cause: Cause, number: u64) -> Result<(), AllocError>
    ensures { OnOk result (html.new ≡ html.old ++ row_if_any cause number) }
{
    if number == 0 {
        return Ok(());
    }
    write_cause(html, cause, number)
}

/// Writes how many datagrams ended for this cause.
#[tactic(auto, unfolding(crate::specs::Tables::count_row))]
fn write_cause(html: &mut Html, cause: Cause, number: u64) -> Result<(), AllocError>
    ensures { OnOk result (html.new ≡ html.old ++ count_row cause number) }
{
    html.markup("<tr><td>")?;
    html.markup(cause.words())?;
    html.markup("</td><td class=\"n\">")?;
    html.grouped(number)?;
    html.markup("</td></tr>\n")?;
    Ok(())
}
