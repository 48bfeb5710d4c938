ghost use Rattle.std.specs.Prelude.{◌≡◌, Some};
ghost use Rattle.std.specs.Result.{result_err};
ghost use Rattle.rsl_accounts.specs.Walk.{number_fault, option_fault, count_fault, text_fault};
ghost use Rattle.rsl_accounts.specs.Field.{
  field_key,
  is_between,
  is_secret,
  is_name,
  has_no_nul,
  is_visible,
  takes_number,
  takes_count,
  takes_text,
};

use crate::fault::ConfigFault;
use crate::rules::{MAX_PLACES, MAX_PORTS, MAX_TIME, MIN_INTERIM, MIN_PORTS, MIN_TIME};
use crate::settings::{MAX_VERSION, MIN_VERSION};
use std::fmt;

/// The most shards of a server.
const MAX_SHARDS: u64 = 4;

/// The greatest UDP port.
const MAX_PORT: u64 = u16::MAX as u64;

/// The greatest number of an attribute of an account's accepts: 32 bits.
const MAX_OPTION: u64 = u32::MAX as u64;

/// The most clients of a file.
const MAX_CLIENTS: u64 = 256;

/// The most accounts of a file.
const MAX_ACCOUNTS: u64 = 16_384;

/// The most octets of a secret or a password.
const MAX_SECRET_LEN: u64 = 128;

/// The most octets of a name.
const MAX_NAME_LEN: u64 = 64;

/// A field of an account file.
#[derive(Clone, Copy, Debug)]
pub enum Field {
    /// The version of the file's format.
    Version,
    /// How many shards the accounts are spread over.
    Shards,
    /// Seconds for which an accept reserves a place.
    ReserveSecs,
    /// Seconds from its last packet for which a session counts as live.
    LiveSecs,
    /// Seconds for which a session that is no longer live keeps its place.
    GraceSecs,
    /// Seconds for which a stopped session stays closed.
    ClosedSecs,
    /// Seconds for which the repeats of an ask get its answer.
    KeepSecs,
    /// The clients, as an array of tables.
    Client,
    /// The accounts, as an array of tables.
    Account,
    /// The IPv4 address of a client.
    Address,
    /// The secret shared with a client.
    Secret,
    /// Whether a client signs its requests with a Message-Authenticator.
    Signed,
    /// Whether a client's requests may ask without a password.
    Trusted,
    /// How a client takes Disconnect-Requests (RFC 5176), as a table.
    Disconnect,
    /// The UDP port at which a client takes them.
    Port,
    /// The User-Name of an account.
    Name,
    /// The password of an account.
    Password,
    /// Places that an account's sessions may hold at once.
    Places,
    /// The Port-Limit of an account.
    Ports,
    /// The Service-Type of an account's accepts.
    ServiceType,
    /// The Framed-Protocol of an account's accepts.
    FramedProtocol,
    /// The Session-Timeout of an account's accepts, in seconds.
    SessionTimeout,
    /// The Idle-Timeout of an account's accepts, in seconds.
    IdleTimeout,
    /// An account's own live time, under the key of `LiveSecs`.
    OwnLive,
    /// An account's own grace time, under the key of `GraceSecs`.
    OwnGrace,
    /// The interim interval of accepts in seconds, of the file or of an account.
    InterimSecs,
    /// Whether the logins of an account are rejected.
    Disabled,
    /// The attributes of a profile's or an account's accepts.
    Reply,
    /// The profiles of the file, or the name of an account's.
    Profile,
    /// Whether accepts have a Port-Limit.
    PortLimit,
    /// Whether a fresh ask ends a link of its own station, of the file or of an account.
    Station,
    /// Whether an Accounting-On or Accounting-Off is as old as its Acct-Delay-Time says.
    DelayTime,
}

impl Field {
    /// The key of the field in the file, such as `keep_secs`.
    pub fn key(&self) -> &'static str
        ensures { result.now ≡ field_key self.now }
    {
        match self {
            Field::Version => "version",
            Field::Shards => "shards",
            Field::ReserveSecs => "reserve_secs",
            Field::LiveSecs => "live_secs",
            Field::GraceSecs => "grace_secs",
            Field::ClosedSecs => "closed_secs",
            Field::KeepSecs => "keep_secs",
            Field::Client => "client",
            Field::Account => "account",
            Field::Address => "address",
            Field::Secret => "secret",
            Field::Signed => "signed",
            Field::Trusted => "trusted",
            Field::Disconnect => "disconnect",
            Field::Port => "port",
            Field::Name => "name",
            Field::Password => "password",
            Field::Places => "places",
            Field::Ports => "ports",
            Field::ServiceType => "service_type",
            Field::FramedProtocol => "framed_protocol",
            Field::SessionTimeout => "session_timeout",
            Field::IdleTimeout => "idle_timeout",
            Field::OwnLive => "live_secs",
            Field::OwnGrace => "grace_secs",
            Field::InterimSecs => "interim_secs",
            Field::Disabled => "disabled",
            Field::Reply => "reply",
            Field::Profile => "profile",
            Field::PortLimit => "port_limit",
            Field::Station => "station",
            Field::DelayTime => "delay_time",
        }
    }

    /// Whether the number is within the field's limits.
    pub fn takes_number(self, number: u64) -> bool
        ensures { result ≡ takes_number self number }
    {
        match self {
            Field::Version => is_between(MIN_VERSION, MAX_VERSION, number),
            Field::Shards => is_between(1, MAX_SHARDS, number),
            Field::ReserveSecs
            | Field::LiveSecs
            | Field::GraceSecs
            | Field::ClosedSecs
            | Field::KeepSecs
            | Field::OwnLive
            | Field::OwnGrace => is_between(MIN_TIME, MAX_TIME, number),
            Field::InterimSecs => is_between(MIN_INTERIM, MAX_TIME, number),
            Field::Port => is_between(1, MAX_PORT, number),
            Field::Places => is_between(0, MAX_PLACES, number),
            Field::Ports => is_between(MIN_PORTS, MAX_PORTS, number),
            Field::ServiceType
            | Field::FramedProtocol
            | Field::SessionTimeout
            | Field::IdleTimeout => is_between(1, MAX_OPTION, number),
            _ => false,
        }
    }

    /// Whether this number of tables is within the field's limits.
    pub fn takes_count(self, count: usize) -> bool
        ensures { result ≡ takes_count self count }
    {
        match self {
            Field::Client => is_between(1, MAX_CLIENTS, count as u64),
            Field::Account => is_between(1, MAX_ACCOUNTS, count as u64),
            _ => false,
        }
    }

    /// Whether the text is within the field's limits.
    pub fn takes_text(self, text: &[u8]) -> bool
        ensures { result ≡ takes_text self text.now }
    {
        match self {
            Field::Secret | Field::Password => is_secret(text),
            Field::Name => is_name(text),
            _ => false,
        }
    }

    /// `BadValue` unless the number is within the field's limits.
    #[tactic(auto, unfolding(crate::specs::Walk::number_fault))]
    pub(crate) fn check_number(self, number: u64) -> Result<(), ConfigFault>
        ensures { result_err result ≡ number_fault self number }
    {
        if self.takes_number(number) {
            Ok(())
        } else {
            Err(ConfigFault::BadValue(self))
        }
    }

    /// `BadValue` unless the number is left out or within the field's limits.
    pub(crate) fn check_option(self, number: Option<u64>) -> Result<(), ConfigFault>
        ensures { result_err result ≡ option_fault self number }
    {
        match number {
            Some(number) => self.check_number(number),
            None => Ok(()),
        }
    }

    /// `check_option` of a number of 32 bits.
    pub(crate) fn check_short(self, number: Option<u32>) -> Result<(), ConfigFault>
        ensures { result_err result ≡ option_fault self number }
    {
        match number {
            Some(number) => self.check_number(u64::from(number)),
            None => Ok(()),
        }
    }

    /// `BadValue` unless this number of tables is within the field's limits.
    #[tactic(auto, unfolding(crate::specs::Walk::count_fault))]
    pub(crate) fn check_count(self, count: usize) -> Result<(), ConfigFault>
        ensures { result_err result ≡ count_fault self count }
    {
        if self.takes_count(count) {
            Ok(())
        } else {
            Err(ConfigFault::BadValue(self))
        }
    }

    /// `BadValue` unless the text is within the field's limits.
    #[tactic(auto, unfolding(crate::specs::Walk::text_fault))]
    pub(crate) fn check_text(self, text: &[u8]) -> Result<(), ConfigFault>
        ensures { result_err result ≡ text_fault self text.now }
    {
        if self.takes_text(text) {
            Ok(())
        } else {
            Err(ConfigFault::BadValue(self))
        }
    }
}

impl fmt::Display for Field {
    ghost output = { λ field. Some (field_key field) };

    fn fmt<W: fmt::Write>(&self, f: &mut fmt::Formatter<W>) -> fmt::Result {
        f.write_str(self.key())
    }
}

/// Whether a number is from `least` to `most`.
fn is_between(least: u64, most: u64, number: u64) -> bool
    ensures { result ≡ is_between least most number }
{
    least <= number && number <= most
}

/// Whether the text has 1 to 128 octets, none of them NUL.
fn is_secret(text: &[u8]) -> bool
    ensures { result ≡ is_secret text.now }
{
    is_between(1, MAX_SECRET_LEN, text.len() as u64) && has_no_nul(text)
}

/// Whether the text has 1 to 64 octets, each a visible ASCII character.
fn is_name(text: &[u8]) -> bool
    ensures { result ≡ is_name text.now }
{
    is_between(1, MAX_NAME_LEN, text.len() as u64) && is_visible(text)
}

/// Whether no octet is NUL.
fn has_no_nul(text: &[u8]) -> bool
    ensures { result ≡ has_no_nul text.now }
{
    text.iter().all(|octet| *octet != 0)
}

/// Whether each octet is a visible ASCII character.
fn is_visible(text: &[u8]) -> bool
    ensures { result ≡ is_visible text.now }
{
    text.iter()
        .all(|octet| is_between(0x21, 0x7e, *octet as u64))
}
