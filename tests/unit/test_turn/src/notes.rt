//! A watcher that notes what it learns, as words.

use rld_turn::{Ended, Watch};
use rsl_event::{Detail, RejectCause};
use std::alloc::Global;

/// What a watcher has learned: that a turn has begun, and for each datagram the port that it came
/// from, the number of the client, how it ended and, where it can be a reject, why.
#[derive(Drop)]
pub(crate) struct Notes {
    text: String,
}

impl Notes {
    /// Nothing yet.
    pub(crate) fn new(alloc: Global) -> Notes {
        Notes {
            text: String::new(alloc),
        }
    }

    /// What was noted.
    pub(crate) fn text(&self) -> &str {
        self.text.trim()
    }
}

impl Watch for Notes {
    fn begin(&mut self) {
        let _ = write!(self.text, " begin");
    }

    fn note(&mut self, ended: Ended<'_>) {
        let port = ended.origin.source.port;
        let told = (port, ended.client, ended.end, cause_in(ended.detail));
        let _ = write!(self.text, " {told:?}");
    }

    fn finish(&mut self) {}
}

/// A watcher that notes nothing.
#[derive(Clone, Copy)]
pub(crate) struct Unwatched;

impl Watch for Unwatched {
    fn begin(&mut self) {}

    fn note(&mut self, _ended: Ended<'_>) {}

    fn finish(&mut self) {}
}

/// Why a request is rejected, if it is.
fn cause_in(detail: Option<Detail>) -> Option<RejectCause> {
    match detail {
        Some(Detail::Rejected(cause)) => Some(cause),
        Some(Detail::Asks | Detail::Accounting(_)) | None => None,
    }
}
