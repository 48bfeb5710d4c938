use crate::{KeptAsk, KeptStop};
use rsl_event::Nas;
use rsl_wire::Octets;

/// What held a link.
#[derive(PartialEq, Eq, Drop)]
pub enum SavedHolder {
    /// The accept number that reserved it.
    Reserved(u64),
    /// The session that it was bound to, by its Acct-Session-Id (RFC 2866 section 5.5). The session
    /// is at the link's access server.
    Bound(Octets),
}

/// A link of a saved book.
#[derive(PartialEq, Eq, Drop)]
pub struct SavedLink {
    /// Its access server.
    pub nas: Nas,
    /// What held it.
    pub holder: SavedHolder,
    /// Its bundle, by its Acct-Multi-Session-Id (RFC 2866 section 5.11), if it was in one. The
    /// bundle is at the link's access server.
    pub bundle: Option<Octets>,
    /// Its station: the last Calling-Station-Id (RFC 2865 section 5.31) with which it was touched, if
    /// any.
    pub station: Option<Octets>,
    /// The account's clock when it opened, in seconds; 0 where that is not known.
    pub opened: u64,
    /// The account's clock at its last touch, in seconds.
    pub touched: u64,
}

/// All that the book of one account held, except its rules: those are the account's, and a book is
/// restored under them.
#[derive(PartialEq, Eq, Drop)]
pub struct SavedBook {
    /// The account's clock, in seconds: the greatest moment so far.
    pub clock: u64,
    /// The links, in the order in which they opened.
    pub links: Vec<SavedLink>,
    /// How many asks were accepted: the next accept number.
    pub accepts: u64,
    /// The last fresh asks, newest first.
    pub asks: Vec<KeptAsk>,
    /// The last stops, newest first.
    pub stops: Vec<KeptStop>,
    /// How many alives found no place, at most 2^64 - 1.
    pub over: u64,
}
