//! What a running server shows to a browser and to a program, as texts of a `Look`: a page of HTML
//! with charts of the last hour in SVG, and the accounts as JSON. It promises:
//! - The page has the octets of `specs/Page.antt`, and nothing else (`page`). Its sections are in
//!   `specs/Summary.antt` and `specs/Tables.antt`, numbers for people in `specs/Figures.antt`.
//! - Its charts are those of `specs/Chart.antt`: of each of the last 60 minutes the logins, the
//!   rejects, and the places held (`write_charts`).
//! - No text, name or id can begin or end a tag, or end an attribute: whatever is no literal of
//!   this program is a number, a date or escaped (`Html::text`: `written`, `plain`;
//!   `specs/Html.antt`).
//! - The JSON has each account of the look once, in its order, with what it holds
//!   (`accounts_json`).
//!
//! The style sheet is a constant of the program. By tests alone (`test_page`,
//! `tests/programs/page.py`): that the page is HTML that browsers show as it is meant, and that the
//! JSON is JSON.
#![tactic(auto)]

mod accounts;
mod causes;
mod chart;
mod document;
mod figures;
mod html;
mod json;
mod refused;
mod servers;
mod sockets;
mod style;
mod summary;

pub use document::page;
pub use json::accounts_json;
