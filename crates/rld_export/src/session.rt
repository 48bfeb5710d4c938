ghost use Rattle.std.specs.Prelude.{◌≡◌, ◌+◌, IfOk, true};
ghost use Rattle.rsl_accounts.specs.Limits.{RulesFit};
ghost use Rattle.rld_export.specs.Sessions.{lapses, why_of};
ghost use Rattle.rld_export.specs.Text.{why_word};

use rsl_accounts::Rules;
use rsl_event::Act;
use rsl_session::Session;
use rsl_wire::NoMemory;
use std::alloc::Global;

/// A session that is held: a link is bound to it.
#[derive(PartialEq, Eq, Drop)]
pub(crate) struct Held {
    /// Its access server and its Acct-Session-Id (RFC 2866 section 5.5).
    pub(crate) session: Session,
    /// The second since 1970 when its link was bound, or `None` if no log that was read tells that.
    pub(crate) began: Option<u64>,
    /// The account's clock at the last touch of its link, in seconds.
    pub(crate) seen: u64,
}

/// Why a session ended.
#[derive(Clone, Copy, PartialEq, Eq)]
pub(crate) enum Why {
    /// Its Stop came. An operator who frees a place makes the Stop that the access server would
    /// have sent, so a log has the same move of both.
    Stop,
    /// Its access server restarted.
    Off,
    /// Nothing was heard of it for its live and grace times.
    Silent,
    /// Its place went to another login of the account: it was stale, or of the station that logged
    /// in.
    Yielded,
    /// It is not among what the next log begins with: the account file was changed, or a log is
    /// missing.
    Changed,
}

/// The end of a session.
#[derive(Clone, Copy, PartialEq, Eq)]
pub(crate) struct End {
    /// The second of it, since 1970.
    pub(crate) at: u64,
    /// Why the session ended.
    pub(crate) why: Why,
}

/// A session that has ended.
#[derive(PartialEq, Eq, Drop)]
pub(crate) struct Ended {
    /// The session as it was last held.
    pub(crate) held: Held,
    /// Its end.
    pub(crate) end: End,
}

impl Why {
    /// Why a session ended that had not lapsed, and has no link after an act.
    pub(crate) fn of(act: &Act) -> Why
        ensures { result ≡ why_of act.now }
    {
        match act {
            Act::Ask { .. } | Act::Alive { .. } => Why::Yielded,
            Act::Stop { .. } => Why::Stop,
            Act::Sweep { .. } => Why::Off,
            Act::Tick => Why::Silent,
        }
    }

    /// The word for it in a line.
    pub(crate) fn word(self) -> &'static str
        ensures { result.now ≡ why_word self }
    {
        match self {
            Why::Stop => "stop",
            Why::Off => "off",
            Why::Silent => "silent",
            Why::Yielded => "yielded",
            Why::Changed => "changed",
        }
    }
}

/// An equal session. It fails only if memory is refused.
pub(crate) fn session_copy(alloc: Global, session: &Session) -> Result<Session, NoMemory>
    ensures { IfOk result (λ copy. copy ≡ session.now) }
{
    Ok(Session {
        nas: session.nas.try_copy(alloc)?,
        id: session.id.try_copy(alloc)?,
    })
}

impl Held {
    /// Whether its link lapses by this clock under these rules, if nothing touches it.
    #[tactic(auto, unfolding(crate::specs::Sessions::lapses))]
    pub(crate) fn lapses(&self, rules: Rules, now: u64) -> bool
        requires { RulesFit rules }
        ensures { result ≡ lapses rules now self.now }
    {
        rules.live + rules.grace <= now.saturating_sub(self.seen)
    }

    /// The second when its link lapsed.
    #[tactic(auto, unfolding(crate::specs::Sessions::lapses))]
    pub(crate) fn lapsed_at(&self, rules: Rules, now: u64) -> u64
        requires fit { RulesFit rules }
        requires lapsed { lapses rules now self.now ≡ true }
        ensures { result ≡ self.now.seen + rules.live + rules.grace }
    {
        self.seen + rules.live + rules.grace
    }

    /// An equal one. It fails only if memory is refused.
    pub(crate) fn try_copy(&self, alloc: Global) -> Result<Held, NoMemory>
        ensures { IfOk result (λ copy. copy ≡ self.now) }
    {
        Ok(Held {
            session: session_copy(alloc, &self.session)?,
            began: self.began,
            seen: self.seen,
        })
    }

    /// The same session, ended. It fails only if memory is refused.
    pub(crate) fn ended(&self, alloc: Global, end: End) -> Result<Ended, NoMemory>
        ensures { IfOk result (λ ended. ended ≡ record { held = self.now; end = end }) }
    {
        Ok(Ended {
            held: self.try_copy(alloc)?,
            end,
        })
    }
}
