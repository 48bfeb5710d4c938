//! Which links of all accounts an operator wants to see.

ghost use Rattle.std.specs.Prelude.{◌≡◌};
ghost use Rattle.rld_control.specs.Wanted.{is_at, is_in, is_named, is_wanted, same_state, state_of};

use rsl_event::NasName;
use rsl_session::{SavedHolder, SavedLink};

/// The state of a link.
#[derive(Clone, Copy)]
pub enum LinkState {
    /// A login took a place, and its Start has not come.
    Reserved,
    /// It has a session, which was heard of less than the live time ago.
    Live,
    /// It has a session, which was not.
    Stale,
}

impl LinkState {
    /// The state of a link that was last touched `age` seconds ago, of an account with the live
    /// time `live`.
    pub fn of(live: u64, age: u64, holder: &SavedHolder) -> LinkState
        ensures { result ≡ state_of live age holder.now }
    {
        match holder {
            SavedHolder::Reserved(_) => LinkState::Reserved,
            SavedHolder::Bound(_) => {
                if age < live {
                    LinkState::Live
                } else {
                    LinkState::Stale
                }
            }
        }
    }

    /// Whether the two are one state.
    fn is_same(self, other: LinkState) -> bool
        ensures { result ≡ same_state self other }
    {
        match self {
            LinkState::Reserved => matches!(other, LinkState::Reserved),
            LinkState::Live => matches!(other, LinkState::Live),
            LinkState::Stale => matches!(other, LinkState::Stale),
        }
    }
}

/// The links that an operator wants to see: those that have all that is given.
#[derive(Drop)]
pub struct Wanted {
    /// The name of their access server.
    pub nas: Option<NasName>,
    /// The address of their client.
    pub client: Option<[u8; 4]>,
    /// Their state.
    pub state: Option<LinkState>,
    /// They were last touched this many seconds ago, or longer.
    pub older: u64,
}

impl Wanted {
    /// Whether a link is wanted whose client has this address, of an account with the live time
    /// `live`, at a moment in seconds since 1970.
    pub fn has(&self, client: [u8; 4], live: u64, moment: u64, link: &SavedLink) -> bool
        ensures { result ≡ is_wanted self.now client live moment link.now }
    {
        let age = moment.saturating_sub(link.touched);
        self.has_name(&link.nas.name)
            && self.has_client(client)
            && self.has_state(LinkState::of(live, age, &link.holder))
            && self.older <= age
    }

    /// Whether links at an access server of this name are wanted.
    fn has_name(&self, nas: &NasName) -> bool
        ensures { result ≡ is_named self.now.nas nas.now }
    {
        match &self.nas {
            None => true,
            Some(wanted) => nas.is_same(wanted),
        }
    }

    /// Whether links of the client with this address are wanted.
    fn has_client(&self, client: [u8; 4]) -> bool
        ensures { result ≡ is_at self.now.client client }
    {
        match self.client {
            None => true,
            Some(wanted) => client == wanted,
        }
    }

    /// Whether links in this state are wanted.
    fn has_state(&self, state: LinkState) -> bool
        ensures { result ≡ is_in self.now.state state }
    {
        match self.state {
            None => true,
            Some(wanted) => state.is_same(wanted),
        }
    }
}
