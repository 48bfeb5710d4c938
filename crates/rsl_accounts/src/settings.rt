ghost use Rattle.std.specs.Prelude.{◌≡◌};
ghost use Rattle.std.specs.Result.{result_err};
ghost use Rattle.rsl_accounts.specs.Settings.{own_time};
ghost use Rattle.rsl_accounts.specs.Version.{
  is_strict,
  knows_ipv6,
  knows_own_times,
  least_secret,
  reply_room,
  unsigned_rule,
};
ghost use Rattle.rsl_accounts.specs.Walk.{
  interim_fault,
  secret_len_fault,
  reply_len_fault,
  settings_checks,
  first_fault,
};

use crate::entry::Entry;
use crate::fault::ConfigFault;
use crate::field::Field;
use crate::rules::Rules;
use crate::unsigned_rule::UnsignedRule;

/// The first version of the file's format.
pub(crate) const MIN_VERSION: u64 = 1;

/// The last version of the file's format.
pub(crate) const MAX_VERSION: u64 = 3;

/// The first version with times of an account's own, and with `interim_secs`.
const OWN_TIMES_VERSION: u64 = 2;

/// The first version in which what is left out or misspelled counts on the safe side.
const STRICT_VERSION: u64 = 3;

/// The most octets of an account's reply attributes in that version.
pub const REPLY_ROOM: usize = 1000;

/// The fewest octets of a client's secret in that version.
const STRICT_SECRET_LEN: usize = 16;

/// The settings of an account file, common to all accounts.
#[derive(Clone, Copy)]
pub struct Settings {
    /// The version of the file's format: 1, 2 or 3. From version 2 on an account can have its own
    /// times, and accepts can have an Acct-Interim-Interval. In version 3 a secret has at least 16
    /// octets, and unsigned requests are guarded (`UnsignedRule`).
    pub version: u64,
    /// How many shards the accounts are spread over: 1 to 4.
    pub shards: u64,
    /// Seconds for which an accept reserves a place: 1 to 86,400, like every time.
    pub reserve: u64,
    /// Seconds from its last packet for which a session counts as live.
    pub live: u64,
    /// Seconds for which a session that is no longer live keeps its place.
    pub grace: u64,
    /// Seconds for which a stopped session stays closed.
    pub closed: u64,
    /// Seconds for which the repeats of an ask get its answer: at most `reserve`.
    pub keep: u64,
    /// The interim interval of accepts in seconds, for accounts without their own: 60 to 86,400;
    /// ignored in version 1.
    pub interim: Option<u32>,
    /// Whether accounts count by stations (Calling-Station-Id, RFC 2865 section 5.31), so that a
    /// fresh ask ends a link of its own station; for accounts that do not say so themselves.
    pub station: bool,
    /// Whether an Accounting-On or Accounting-Off is as old as its Acct-Delay-Time (RFC 2866
    /// section 5.2) says.
    pub delay_time: bool,
}

impl Settings {
    /// `BadValue` of the first field with a wrong value, in the order of the walk.
    #[tactic(auto, unfolding(crate::specs::Walk::settings_checks))]
    pub(crate) fn check(&self) -> Result<(), ConfigFault>
        ensures { result_err result ≡ first_fault (settings_checks self.now) }
    {
        Field::Version.check_number(self.version)?;
        Field::Shards.check_number(self.shards)?;
        Field::ReserveSecs.check_number(self.reserve)?;
        Field::LiveSecs.check_number(self.live)?;
        Field::GraceSecs.check_number(self.grace)?;
        Field::ClosedSecs.check_number(self.closed)?;
        Field::KeepSecs.check_number(self.keep)?;
        check_interim(self.version, self.interim)
    }

    ghost use Rattle.rsl_accounts.specs.Settings.{interim_of, rules_of};

    /// The session limit of the account, with its times: its own if the version knows them and the
    /// account has them, else those of the settings.
    pub(crate) fn rules_of(&self, entry: &Entry) -> Rules
        ensures { result ≡ rules_of self.now entry.now }
    {
        Rules {
            places: entry.rules.places,
            ports: entry.rules.ports,
            reserve: self.reserve,
            live: own_time(self.version, entry.own_live, self.live),
            grace: own_time(self.version, entry.own_grace, self.grace),
            closed: self.closed,
            keep: self.keep,
        }
    }

    /// The interim interval of the account's accepts in seconds: its own, else that of the
    /// settings, and none if the version knows none.
    pub(crate) fn interim_of(&self, entry: &Entry) -> Option<u32>
        ensures { result ≡ interim_of self.now entry.now }
    {
        if knows_own_times(self.version) {
            entry.interim.or(self.interim)
        } else {
            None
        }
    }
}

/// `BadValue` of the interim interval, if the version knows it.
fn check_interim(version: u64, interim: Option<u32>) -> Result<(), ConfigFault>
    ensures { result_err result ≡ interim_fault version interim }
{
    if !knows_own_times(version) {
        return Ok(());
    }
    Field::InterimSecs.check_short(interim)
}

/// Whether an account can have its own times, and `interim_secs` is known.
pub fn knows_own_times(version: u64) -> bool
    ensures { result ≡ knows_own_times version }
{
    OWN_TIMES_VERSION <= version
}

/// Whether what is left out or misspelled counts on the safe side.
pub fn is_strict(version: u64) -> bool
    ensures { result ≡ is_strict version }
{
    version == STRICT_VERSION
}

/// Whether a NAS-IPv6-Address names an access server.
pub(crate) fn knows_ipv6(version: u64) -> bool
    ensures { result ≡ knows_ipv6 version }
{
    is_strict(version)
}

/// How requests without a Message-Authenticator are taken.
pub(crate) fn unsigned_rule(version: u64) -> UnsignedRule
    ensures { result ≡ unsigned_rule version }
{
    if is_strict(version) {
        UnsignedRule::Guarded
    } else {
        UnsignedRule::Trusted
    }
}

/// `BadValue` of a client's secret that is too short for the version.
pub fn check_secret_len(version: u64, len: usize) -> Result<(), ConfigFault>
    ensures { result_err result ≡ secret_len_fault version len }
{
    if len < least_secret(version) {
        return Err(ConfigFault::BadValue(Field::Secret));
    }
    Ok(())
}

/// Checks the length of an account's reply attributes. `BadValue`: the version has no room for them.
pub(crate) fn check_reply_len(version: u64, len: usize) -> Result<(), ConfigFault>
    ensures { result_err result ≡ reply_len_fault version len }
{
    if len > reply_room(version) {
        return Err(ConfigFault::BadValue(Field::Reply));
    }
    Ok(())
}

/// The most octets of an account's reply attributes, which only version 3 knows.
fn reply_room(version: u64) -> usize
    ensures { result ≡ reply_room version }
{
    if is_strict(version) { REPLY_ROOM } else { 0 }
}

/// The fewest octets of a client's secret.
fn least_secret(version: u64) -> usize
    ensures { result ≡ least_secret version }
{
    if is_strict(version) {
        STRICT_SECRET_LEN
    } else {
        1
    }
}

/// A time of an account: its own if it has one that the version knows, else the common one.
fn own_time(version: u64, own: Option<u64>, common: u64) -> u64
    ensures { result ≡ own_time version own common }
{
    if knows_own_times(version) {
        own.unwrap_or(common)
    } else {
        common
    }
}
