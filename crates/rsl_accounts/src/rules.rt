ghost use Rattle.std.specs.Prelude.{◌≡◌, ◌↔◌, IsTrue};
ghost use Rattle.rsl_accounts.specs.Limits.{IsTime, RulesFit};
ghost use Rattle.rsl_accounts.specs.Settings.{rules_of_places};

/// The most places that an account can have.
pub(crate) const MAX_PLACES: u64 = 64;

/// The fewest links that a place can have.
pub(crate) const MIN_PORTS: u64 = 1;

/// The most links that a place can have.
pub(crate) const MAX_PORTS: u64 = 16;

/// The fewest seconds that a time can have.
pub(crate) const MIN_TIME: u64 = 1;

/// The most seconds that a time can have: a day.
pub(crate) const MAX_TIME: u64 = 86_400;

/// The fewest seconds between interim updates (RFC 2869 section 5.16).
pub(crate) const MIN_INTERIM: u64 = 60;

/// The session limit of one account: how many places it has, and how long a place is kept.
#[derive(Clone, Copy, PartialEq, Eq)]
pub struct Rules {
    /// Places that the account's sessions may hold at once: 0 to 64.
    pub places: u64,
    /// Links of one multilink bundle that share a place, the Port-Limit: 1 to 16.
    pub ports: u64,
    /// Seconds for which an accept reserves a place.
    pub reserve: u64,
    /// Seconds from its last packet for which a session counts as live.
    pub live: u64,
    /// Seconds for which a session that is no longer live keeps its place.
    pub grace: u64,
    /// Seconds for which a stopped session stays closed.
    pub closed: u64,
    /// Seconds for which the repeats of an ask get its answer: at most `reserve`.
    pub keep: u64,
}

impl Rules {
    /// The session limit of `places` places with `ports` ports each. Every time is 0, so the rules
    /// do not fit until `Config::make` fills the times in.
    pub fn of_places(places: u64, ports: u64) -> Rules
        ensures { result ≡ rules_of_places places ports }
    {
        Rules {
            places,
            ports,
            reserve: 0,
            live: 0,
            grace: 0,
            closed: 0,
            keep: 0,
        }
    }

    /// Whether every number is within its limits: at most 64 places, 1 to 16 ports, each time 1 to
    /// 86,400 seconds, and `keep` at most `reserve`.
    pub fn fits(&self) -> bool
        ensures { IsTrue result ↔ RulesFit self.now }
    {
        self.places <= MAX_PLACES
            && MIN_PORTS <= self.ports
            && self.ports <= MAX_PORTS
            && is_time(self.reserve)
            && is_time(self.live)
            && is_time(self.grace)
            && is_time(self.closed)
            && is_time(self.keep)
            && self.keep <= self.reserve
    }
}

/// Whether a time is 1 to 86,400 seconds.
fn is_time(seconds: u64) -> bool
    ensures { IsTrue result ↔ IsTime seconds }
{
    MIN_TIME <= seconds && seconds <= MAX_TIME
}
