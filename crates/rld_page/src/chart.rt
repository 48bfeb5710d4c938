//! The last hour, as two charts in SVG: logins and rejects of each minute, and the places held at
//! its end. Both are 60 minutes wide and 1,000 units high, and are stretched to their place on the
//! page.

ghost use Rattle.std.specs.Prelude.{◌≡◌, ◌-◌, ◌*◌, ◌≤◌, ◌++◌, OnOk, length, map};
ghost use Rattle.rld_look.specs.History.{last_minutes};
ghost use Rattle.rld_page.specs.Chart.{all_held_at, answered_in, area_of, axis_if_any, axis_of, axis_words, bar_of, bars_of, chart_rules, charts_of, curve_if_any, curve_of, greatest, held_at, held_at_end, held_chart, held_drawing, held_with, left_of, logins_chart, logins_drawing, logins_with, minute_words, piece_if_any, piece_text, pieces_text, point_of, points_of, stack_of, touch_at};

use crate::figures::{THOUSANDTHS, share};
use crate::html::Html;
use rld_look::{Look, Minute};
use std::alloc::AllocError;

/// The minutes of a chart.
const MINUTES: usize = 60;

/// How wide a minute is.
const MINUTE_WIDTH: usize = 10;

/// How wide a chart is.
const WIDTH: usize = 600;

/// How high the pieces of a bar reach, in thousandths.
#[derive(Clone, Copy)]
struct Tops {
    login: u64,
    limit: u64,
    reject: u64,
}

const _: () = prove!(MINUTES == 60 && MINUTE_WIDTH == 10 && WIDTH == 600 && THOUSANDTHS == 1_000);

/// Writes both charts of a look: the logins and the rejects of each of its last 60 minutes, and the places held
/// at their ends. Each is a section of the page. It fails only if memory is refused.
pub(crate) fn write_charts(html: &mut Html, look: &Look) -> Result<(), AllocError>
    ensures { OnOk result (html.new ≡ html.old ++ charts_of look.entry.now.minutes.items) }
{
    write_both(html, latest(look.minutes.as_slice()))
}

/// Writes both charts of these minutes.
fn write_both(html: &mut Html, minutes: &[Minute]) -> Result<(), AllocError>
    ensures { OnOk result (html.new
        ≡ html.old ++ logins_chart minutes.now ++ held_chart minutes.now) }
{
    write_logins(html, minutes, most_answered(minutes))?;
    write_held(html, minutes, most_held(minutes))
}

/// The minutes that a chart has room for: the last ones.
fn latest(minutes: &[Minute]) -> &[Minute]
    ensures { result.now ≡ last_minutes minutes.now }
{
    &minutes[minutes.len().saturating_sub(MINUTES)..]
}

/// How many Access-Requests were answered in a minute.
fn answered(minute: &Minute) -> u64
    ensures { result ≡ answered_in minute.now }
{
    minute
        .accepts
        .saturating_add(minute.limit_rejects)
        .saturating_add(minute.rejects)
}

/// The most Access-Requests that were answered in one of these minutes.
fn most_answered(minutes: &[Minute]) -> u64
    ensures { result ≡ greatest (map answered_in minutes.now) }
{
    let mut most = 0u64;
    for minute in minutes {
        most = most.max(answered(minute));
    }
    most
}

/// The most places that were held at the end of one of these minutes.
fn most_held(minutes: &[Minute]) -> u64
    ensures { result ≡ greatest (map held_at_end minutes.now) }
{
    let mut most = 0u64;
    for minute in minutes {
        most = most.max(minute.held);
    }
    most
}

/// Where the first minute begins, so that the last one of `number` ends at the right.
fn left_of(number: usize) -> u64
    ensures left { result ≡ left_of number }
    ensures most { result ≤ 600 }
{
    WIDTH.saturating_sub(number.saturating_mul(MINUTE_WIDTH)) as u64
}

/// Writes the logins and the rejects of each minute.
#[tactic(auto, unfolding(crate::specs::Chart::logins_with))]
fn write_logins(html: &mut Html, minutes: &[Minute], most: u64) -> Result<(), AllocError>
    ensures { OnOk result (html.new ≡ html.old ++ logins_with most minutes.now) }
{
    html.markup(
        "<section class=\"half\"><div class=\"top\"><h2>Logins and rejects a minute</h2><p class=\"key\">",
    )?;
    html.markup("<span style=\"--c:var(--login)\">accepted</span>")?;
    html.markup("<span style=\"--c:var(--limit)\">no free place</span>")?;
    html.markup("<span style=\"--c:var(--reject)\">rejected otherwise</span></p></div>\n")?;
    write_logins_drawing(html, minutes, most)?;
    write_axis(html, minutes, most)?;
    Ok(())
}

/// Writes the bars of the minutes.
#[tactic(auto, unfolding(crate::specs::Chart::logins_drawing))]
fn write_logins_drawing(html: &mut Html, minutes: &[Minute], most: u64) -> Result<(), AllocError>
    ensures { OnOk result (html.new ≡ html.old ++ logins_drawing most minutes.now) }
{
    html.markup(
        "<svg viewBox=\"0 0 600 1000\" preserveAspectRatio=\"none\" role=\"img\" aria-labelledby=\"lt ld\">",
    )?;
    html.markup("<title id=\"lt\">Logins and rejects a minute, over the last hour</title>")?;
    html.markup("<desc id=\"ld\">The most in a minute: ")?;
    html.number(most)?;
    html.markup("</desc>\n")?;
    write_rules(html)?;
    write_bars(html, minutes, most)?;
    html.markup("</svg>")?;
    Ok(())
}

/// Writes the bars of the minutes.
fn write_bars(html: &mut Html, minutes: &[Minute], most: u64) -> Result<(), AllocError>
    ensures { OnOk result (html.new ≡ html.old ++ bars_of most minutes.now) }
{
    let mut left = minutes.len();
    for minute in minutes {
        write_bar(html, minute, left_of(left), most)?;
        left -= 1;
    }
    Ok(())
}

/// Writes the places held at the end of each minute.
#[tactic(auto, unfolding(crate::specs::Chart::held_with))]
fn write_held(html: &mut Html, minutes: &[Minute], most: u64) -> Result<(), AllocError>
    ensures { OnOk result (html.new ≡ html.old ++ held_with most minutes.now) }
{
    html.markup("<section class=\"half\"><div class=\"top\"><h2>Places held</h2>")?;
    html.markup(
        "<p class=\"key\"><span style=\"--c:var(--held)\">at the end of each minute</span></p></div>\n",
    )?;
    write_held_drawing(html, minutes, most)?;
    write_axis(html, minutes, most)?;
    Ok(())
}

/// Writes the curve, and where each minute is touched.
#[tactic(auto, unfolding(crate::specs::Chart::held_drawing))]
fn write_held_drawing(html: &mut Html, minutes: &[Minute], most: u64) -> Result<(), AllocError>
    ensures { OnOk result (html.new ≡ html.old ++ held_drawing most minutes.now) }
{
    html.markup(
        "<svg viewBox=\"0 0 600 1000\" preserveAspectRatio=\"none\" role=\"img\" aria-labelledby=\"ht hd\">",
    )?;
    html.markup("<title id=\"ht\">Places held over the last hour</title>")?;
    html.markup("<desc id=\"hd\">The most at the end of a minute: ")?;
    html.number(most)?;
    html.markup("</desc>\n")?;
    write_rules(html)?;
    write_curve_if_any(html, minutes, most)?;
    write_touches(html, minutes)?;
    html.markup("</svg>")?;
    Ok(())
}

/// Writes the curve, if a minute is over.
fn write_curve_if_any(html: &mut Html, minutes: &[Minute], most: u64) -> Result<(), AllocError>
    ensures { OnOk result (html.new ≡ html.old ++ curve_if_any most minutes.now) }
{
    if minutes.is_empty() {
        return Ok(());
    }
    write_curve(html, minutes, most)
}

/// Writes the curve.
#[tactic(auto, unfolding(crate::specs::Chart::curve_of))]
fn write_curve(html: &mut Html, minutes: &[Minute], most: u64) -> Result<(), AllocError>
    ensures { OnOk result (html.new ≡ html.old ++ curve_of most minutes.now) }
{
    html.markup("<path class=\"area\" d=\"")?;
    write_area(html, minutes, most)?;
    html.markup("\"/><path class=\"curve\" d=\"M")?;
    write_points(html, minutes, most)?;
    html.markup("\"/>\n")?;
    Ok(())
}

/// Writes where each minute is touched.
fn write_touches(html: &mut Html, minutes: &[Minute]) -> Result<(), AllocError>
    ensures { OnOk result (html.new ≡ html.old ++ all_held_at minutes.now) }
{
    let mut left = minutes.len();
    for minute in minutes {
        write_held_touch(html, minute, left_of(left))?;
        left -= 1;
    }
    Ok(())
}

/// Writes the grid lines of a chart: at its foot, in the middle and at the most.
fn write_rules(html: &mut Html) -> Result<(), AllocError>
    ensures { OnOk result (html.new ≡ html.old ++ chart_rules) }
{
    html.markup("<path class=\"rule\" d=\"M0 0H600M0 500H600M0 1000H600\"/>\n")
}

/// Writes what stands below a chart: when it begins and ends, and what its height is.
#[tactic(auto, unfolding(crate::specs::Chart::axis_of))]
fn write_axis(html: &mut Html, minutes: &[Minute], most: u64) -> Result<(), AllocError>
    ensures { OnOk result (html.new ≡ html.old ++ axis_of most minutes.now) }
{
    html.markup("<p class=\"axis\"><span>")?;
    write_axis_if_any(html, Minute::last_of(minutes), most)?;
    html.markup("</span></p></section>\n")?;
    Ok(())
}

/// Writes when a chart begins and ends, if a minute is over.
fn write_axis_if_any(html: &mut Html, last: Option<Minute>, most: u64) -> Result<(), AllocError>
    ensures { OnOk result (html.new ≡ html.old ++ axis_if_any most last) }
{
    match last {
        Some(last) => write_axis_words(html, &last, most),
        None => html.markup("The first minute is not over yet."),
    }
}

/// Writes when a chart begins and ends, by its last minute, and what its height is.
#[tactic(auto, unfolding(crate::specs::Chart::axis_words))]
fn write_axis_words(html: &mut Html, last: &Minute, most: u64) -> Result<(), AllocError>
    ensures { OnOk result (html.new ≡ html.old ++ axis_words most last.now) }
{
    html.clock(last.start.saturating_sub(3_540))?;
    html.markup("</span><span>most: ")?;
    html.grouped(most)?;
    html.markup("</span><span>")?;
    html.clock(last.start.saturating_add(60))?;
    html.markup(" UTC")?;
    Ok(())
}

/// Writes the bar of a minute: accepts, above them rejects for want of a place, above them all others.
#[tactic(auto, unfolding(crate::specs::Chart::bar_of))]
fn write_bar(html: &mut Html, minute: &Minute, left: u64, most: u64) -> Result<(), AllocError>
    requires { left ≤ 600 }
    ensures { OnOk result (html.new ≡ html.old ++ bar_of left most minute.now) }
{
    html.markup("<g><title>")?;
    write_minute(html, minute)?;
    html.markup("</title>")?;
    write_stack(html, minute, left, most)?;
    write_touch(html, left)?;
    html.markup("</g>\n")?;
    Ok(())
}

/// Writes the numbers of a minute.
#[tactic(auto, unfolding(crate::specs::Chart::minute_words))]
fn write_minute(html: &mut Html, minute: &Minute) -> Result<(), AllocError>
    ensures { OnOk result (html.new ≡ html.old ++ minute_words minute.now) }
{
    html.clock(minute.start)?;
    html.markup(" UTC: ")?;
    html.number(minute.accepts)?;
    html.markup(" accepted, ")?;
    html.number(minute.limit_rejects)?;
    html.markup(" without a free place, ")?;
    html.number(minute.rejects)?;
    html.markup(" rejected otherwise")?;
    Ok(())
}

/// Writes the pieces of a minute's bar.
fn write_stack(html: &mut Html, minute: &Minute, left: u64, most: u64) -> Result<(), AllocError>
    requires { left ≤ 600 }
    ensures { OnOk result (html.new ≡ html.old ++ stack_of left most minute.now) }
{
    let with_limit = minute.accepts.saturating_add(minute.limit_rejects);
    let tops = Tops {
        login: share(minute.accepts, most),
        limit: share(with_limit, most),
        reject: share(answered(minute), most),
    };
    write_pieces(html, left, tops)
}

/// Writes the pieces of a bar, each from the height of the one before.
#[tactic(auto, unfolding(crate::specs::Chart::pieces_text))]
fn write_pieces(html: &mut Html, left: u64, tops: Tops) -> Result<(), AllocError>
    requires { left ≤ 600 }
    ensures { OnOk result (html.new
        ≡ html.old ++ pieces_text left tops.login tops.limit tops.reject) }
{
    write_piece_if_any(html, "<rect class=\"login\" x=\"", left, 0, tops.login)?;
    write_piece_if_any(
        html,
        "<rect class=\"limit\" x=\"",
        left,
        tops.login,
        tops.limit,
    )?;
    write_piece_if_any(
        html,
        "<rect class=\"reject\" x=\"",
        left,
        tops.limit,
        tops.reject,
    )?;
    Ok(())
}

/// Writes a piece of a bar, from one height to another; none where they are the same.
fn write_piece_if_any(
    html: &mut Html,
    front: &'static str,
    left: u64,
    foot: u64,
    top: u64,
) -> Result<(), AllocError>
    requires { left ≤ 600 }
    ensures { OnOk result (html.new ≡ html.old ++ piece_if_any front.now left foot top) }
{
    if top <= foot {
        return Ok(());
    }
    write_piece(html, front, left, foot, top)
}

/// Writes a piece of a bar.
#[tactic(auto, unfolding(crate::specs::Chart::piece_text))]
fn write_piece(
    html: &mut Html,
    front: &'static str,
    left: u64,
    foot: u64,
    top: u64,
) -> Result<(), AllocError>
    requires { left ≤ 600 }
    ensures { OnOk result (html.new ≡ html.old ++ piece_text front.now left foot top) }
{
    html.markup(front)?;
    html.number(left + 1)?;
    html.markup("\" y=\"")?;
    html.number(THOUSANDTHS.saturating_sub(top))?;
    html.markup("\" width=\"8\" height=\"")?;
    html.number(top.saturating_sub(foot))?;
    html.markup("\"/>")?;
    Ok(())
}

/// Writes where a minute is touched to read its numbers: over the whole height.
#[tactic(auto, unfolding(crate::specs::Chart::touch_at))]
fn write_touch(html: &mut Html, left: u64) -> Result<(), AllocError>
    ensures { OnOk result (html.new ≡ html.old ++ touch_at left) }
{
    html.markup("<rect class=\"touch\" x=\"")?;
    html.number(left)?;
    html.markup("\" y=\"0\" width=\"10\" height=\"1000\"/>")?;
    Ok(())
}

/// Writes where a minute is touched to read the places that were held at its end.
#[tactic(auto, unfolding(crate::specs::Chart::held_at))]
fn write_held_touch(html: &mut Html, minute: &Minute, left: u64) -> Result<(), AllocError>
    ensures { OnOk result (html.new ≡ html.old ++ held_at left minute.now) }
{
    html.markup("<g><title>")?;
    html.clock(minute.start.saturating_add(60))?;
    html.markup(" UTC: ")?;
    html.number(minute.held)?;
    html.markup(" held</title>")?;
    write_touch(html, left)?;
    html.markup("</g>\n")?;
    Ok(())
}

/// Writes the outline of what lies below the curve.
#[tactic(auto, unfolding(crate::specs::Chart::area_of))]
fn write_area(html: &mut Html, minutes: &[Minute], most: u64) -> Result<(), AllocError>
    ensures { OnOk result (html.new ≡ html.old ++ area_of most minutes.now) }
{
    html.markup("M")?;
    html.number(left_of(minutes.len()) + 5)?;
    html.markup(" 1000L")?;
    write_points(html, minutes, most)?;
    html.markup("V1000Z")?;
    Ok(())
}

/// Writes the points of the curve.
fn write_points(html: &mut Html, minutes: &[Minute], most: u64) -> Result<(), AllocError>
    ensures { OnOk result (html.new ≡ html.old ++ points_of most minutes.now) }
{
    let mut left = minutes.len();
    for minute in minutes {
        write_point(html, minute, left_of(left), most)?;
        left -= 1;
    }
    Ok(())
}

/// Writes a point of the curve, in the middle of its minute.
#[tactic(auto, unfolding(crate::specs::Chart::point_of))]
fn write_point(html: &mut Html, minute: &Minute, left: u64, most: u64) -> Result<(), AllocError>
    requires { left ≤ 600 }
    ensures { OnOk result (html.new ≡ html.old ++ point_of left most minute.now) }
{
    html.number(left + 5)?;
    html.markup(" ")?;
    html.number(THOUSANDTHS.saturating_sub(share(minute.held, most)))?;
    html.markup(" ")?;
    Ok(())
}
