//! The links of one account, and the access servers that they name. The links are kept in several
//! orders, so that no other link is looked at than the one that is wanted. `specs/Seen.antt` says
//! what a link stands for, `specs/LinkList.antt` and `specs/First.antt` what is found. It promises:
//! - A link is found as the definitions find it: that of a session (`Links::bound_to`: `found`,
//!   `missed`), the one that an alive takes (`Links::reservation`: `found`, `missed`), the one that
//!   yields (`Links::yielding`: `found`), and that of a station (`Links::returning`: `found`).
//! - The links that end are exactly those that lapse, that of a stopped session, and those at a
//!   swept access server that opened at least the told seconds ago (`Links::lapse`, `Links::stop`,
//!   `Links::sweep`: `links`).
//! - The number of places that is carried is that of the links (`Links::open`: `counted`).
//!
//! No clause rules out a change that also grows a list of its own: what it changes owns its
//! allocator.
#![tactic(auto)]

mod link;
mod links;
mod list;
mod order;
mod servers;
mod slots;

pub use link::{Holder, Link};
pub use links::Links;
pub use list::LinkList;
pub use servers::Servers;
