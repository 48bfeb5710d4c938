ghost use Rattle.std.specs.Prelude.{◌≡◌, ◌∷◌, ◌-◌, max, nat_le, IfOk};
ghost use Rattle.rsl_accounts.specs.Limits.{RulesFit};
ghost use Rattle.rsl_session.specs.Past.{looking_back};
ghost use Rattle.rsl_session.specs.Binding.{is_session};
ghost use Rattle.rsl_session.specs.Lapse.{standing_time};
ghost use Rattle.rsl_rule.specs.Standing.{is_idle_so, standing_of};

use crate::binding::session_after;
use crate::link::{opening_after, touch_after};
use rsl_accounts::Rules;
use rsl_event::{Event, Nas};
use rsl_session::{PastEvent, Session};
use rsl_wire::{NoMemory, Octets};
use std::alloc::Global;

/// How a link stands after some events.
#[derive(Drop)]
pub(crate) struct Standing {
    /// The account's clock.
    pub clock: u64,
    /// The clock when the link opened.
    pub opened: u64,
    /// The clock at the link's last touch.
    pub touched: u64,
    /// The session that the link is bound to.
    pub session: Option<Session>,
}

impl Standing {
    /// How the link stands after the next entry.
    #[tactic(auto, using(crate::proofs::Looking::standing_pushed))]
    pub fn after(
        self,
        alloc: Global,
        link: usize,
        history: &[PastEvent],
        entry: &PastEvent,
    ) -> Result<Standing, NoMemory>
        requires { self ≡ standing_of link (looking_back history.now) }
        ensures { IfOk result (λ next.
            next ≡ standing_of link (entry.now ∷ looking_back history.now)) }
    {
        let number = history.len() + 1;
        let clock = self.clock.max(entry.event.moment);
        let opened = opening_after(link, number, clock, self.opened);
        let touched = touch_after(link, number, entry.outcome, clock, self.touched);
        let session = session_after(alloc, self.session, link, number, entry)?;
        Ok(Standing {
            clock,
            opened,
            touched,
            session,
        })
    }

    /// Whether the link is bound to the session with this Acct-Session-Id at an access server.
    #[tactic(auto, unfolding(rsl_session::specs::Same::same_session))]
    pub fn is_bound_to(&self, nas: &Nas, id: &Octets) -> bool
        ensures { result ≡ is_session self.now.session (record { nas = nas.now; id = id.now }) }
    {
        match &self.session {
            Some(session) => session.nas.is_same(nas) && session.id == *id,
            None => false,
        }
    }

    /// Whether the link is idle when an event comes: bound, and its live time is over.
    pub fn is_idle(&self, rules: &Rules, event: &Event) -> bool
        ensures { result ≡ is_idle_so rules.now event.now self.now }
    {
        let untouched = self.clock.max(event.moment).saturating_sub(self.touched);
        self.session.is_some() && rules.live <= untouched
    }

    /// Whether the link lapses when an event comes.
    pub fn lapses(&self, rules: &Rules, event: &Event) -> bool
        requires { RulesFit rules.now }
        ensures { result ≡ nat_le (standing_time rules.now self.now.session)
            (max self.now.clock event.now.moment - self.now.touched) }
    {
        let untouched = self.clock.max(event.moment).saturating_sub(self.touched);
        match self.session {
            Some(_) => rules.live + rules.grace <= untouched,
            None => rules.reserve <= untouched,
        }
    }
}
