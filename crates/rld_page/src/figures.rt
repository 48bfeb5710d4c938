//! Numbers for people.

ghost use Rattle.std.specs.Prelude.{◌≡◌, ◌≤◌, ◌++◌, OnOk};
ghost use Rattle.rld_page.specs.Figures.{share_of, tenths_of, tenths_text, width_text};

use crate::html::Html;
use std::alloc::AllocError;

/// The thousandths of a whole.
pub(crate) const THOUSANDTHS: u64 = 1_000;

/// The share of a part in a whole, in thousandths, rounded down: at most all, and 0 of nothing.
pub(crate) fn share(part: u64, whole: u64) -> u64
    ensures share { result ≡ share_of part whole }
    ensures most { result ≤ 1000 }
{
    if whole == 0 {
        return 0;
    }
    let part = u128::from(part.min(whole));
    (part * 1_000 / u128::from(whole)) as u64
}

/// Datagrams a second, in tenths, from those of a minute, rounded to the nearest.
pub(crate) fn tenths(a_minute: u64) -> u64
    ensures { result ≡ tenths_of a_minute }
{
    a_minute / 6 + u64::from(a_minute % 6 >= 3)
}

/// Writes tenths, with one decimal. It fails only if memory is refused.
#[tactic(auto, unfolding(crate::specs::Figures::tenths_text))]
pub(crate) fn write_tenths(html: &mut Html, tenths: u64) -> Result<(), AllocError>
    ensures { OnOk result (html.new ≡ html.old ++ tenths_text tenths) }
{
    html.grouped(tenths / 10)?;
    html.markup(".")?;
    html.number(tenths % 10)
}

/// Writes thousandths as a width in per cent, for a style: `12.5%`. It fails only if memory is refused.
#[tactic(auto, unfolding(crate::specs::Figures::width_text))]
pub(crate) fn write_width(html: &mut Html, thousandths: u64) -> Result<(), AllocError>
    ensures { OnOk result (html.new ≡ html.old ++ width_text thousandths) }
{
    html.number(thousandths / 10)?;
    html.markup(".")?;
    html.number(thousandths % 10)?;
    html.markup("%")
}
