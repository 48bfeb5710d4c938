//! The state of a running server, as it stands behind its lock: the recorder, the accounts of its
//! books, and the generation that it writes. It has no thread and no lock of its own. It promises:
//! - Books and log are of the accounts that stand beside them (`ServerState`: `server`, `table`).
//! - A batch is recorded as the store promises (`ServerState::record`: `decisions`, `recorded`).
//!   One of another table is refused whole, and a store that can record nothing more is asked no
//!   more (`ServerState::record`: `other_table`, `given_up`).
//! - A generation that does not begin leaves the present one as it was (`ServerState::roll`:
//!   `same`). One with other accounts has what is admitted of the books (`ServerState::change`:
//!   `admitted`), once its log is on the disk (private: `ServerState::enter`: `requires`).
//! - A session is called freed only where a link was bound to it and its Stop is recorded
//!   (`ServerState::free`: `freed`), all of an access server once its restart is
//!   (`ServerState::free_server`: `freed`).
//!
//! What speaks of a history is over a log that tells. No clause says what one worker finds of what
//! another did, besides what the type keeps.
#![tactic(auto)]

mod archived;
mod changing;
mod clock;
mod disconnecting;
mod freeing;
mod listing;
mod not_held;
mod places;
mod reload_result;
mod roll_fault;
mod sought;
mod state;
mod timer;
mod told;
mod trouble;

pub use archived::archive_look;
pub use changing::Changed;
pub use clock::{ClockNews, news_of_clock, seconds_behind};
pub use freeing::Freed;
pub use listing::LinksPage;
pub use not_held::NotHeld;
pub use places::places_in;
pub use reload_result::{Change, ReloadFault, Reloaded};
pub use roll_fault::{NotBegun, Notice, RollFault, notice_of_archive, notice_of_roll};
pub use state::ServerState;
pub use timer::RollTimer;
pub use told::{Ascii, Standing, Told, ToldLine};
pub use trouble::{News, Trouble};
