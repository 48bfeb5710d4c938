//! What a running server shows as text. For the control socket: its status, whether it is ready,
//! what each account holds, the links of one account, and those that are wanted of all, a page at a
//! time; each but the second also as JSON. And its metrics in Prometheus' text format, version
//! 0.0.4. It promises:
//! - A status has the octets of `specs/Status.antt` (`status_text`; `status_json`), and whether a
//!   server is ready those of `specs/Ready.antt` (`ready_text`).
//! - Lists have the lines of `specs/Accounts.antt`, `specs/Links.antt` and `specs/Listing.antt`, in
//!   which no name or id can forge a word or a line (`accounts_text`, `links_text`, `page_text`).
//! - In a string of JSON each octet is one character, and none ends the string (`push_string`).
//! - The metrics have the octets of `specs/Metrics.antt`, and nothing else; the buckets of a
//!   histogram are cumulative (`push_metrics`).
//!
//! By tests alone: that the definitions of JSON are JSON, by a reader of another maker
//! (`tests/programs/steering.py`); that the definition of metrics is the text format of Prometheus,
//! by an example worked out by hand (`test_counts`).
#![tactic(auto)]

mod accounts;
mod build;
mod datagrams;
mod gauges;
mod json;
mod line_words;
mod link_objects;
mod links;
mod listing;
mod metrics;
mod ready;
mod recent;
mod servers;
mod status;
mod status_object;
mod sums;
mod text;
mod times;
mod words;

pub use accounts::accounts_text;
pub use build::push_build_line;
pub use json::{push_member_front, push_string_member};
pub use link_objects::push_server_members;
pub use links::{Holder, links_text};
pub use listing::{Shown, page_text};
pub use metrics::push_metrics;
pub use ready::ready_text;
pub use status::status_text;
pub use status_object::status_json;
