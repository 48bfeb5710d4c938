ghost use Rattle.std.specs.Prelude.{◌≡◌};
ghost use Rattle.std.specs.Result.{result_err};
ghost use Rattle.rsl_accounts.specs.Walk.{
  account_checks,
  common_checks,
  own_checks,
  option_text_fault,
  reply_checks,
  first_fault,
};

use crate::fault::ConfigFault;
use crate::field::Field;
use crate::reply::Reply;
use crate::rules::Rules;
use crate::secret::Secret;
use crate::settings::{check_reply_len, knows_own_times};
use crate::text::Text;

/// An account. The fields that each login reads come first, since fields lie in memory in their
/// order.
#[derive(Drop)]
pub struct Entry {
    /// The password: 1 to 128 octets of UTF-8 without NUL. An account without one is asked for by trusted
    /// clients alone.
    pub password: Option<Secret>,
    /// The Service-Type of the account's accepts (RFC 2865 section 5.6), at least 1.
    pub service_type: Option<u32>,
    /// The Framed-Protocol of the account's accepts (RFC 2865 section 5.7), at least 1.
    pub framed_protocol: Option<u32>,
    /// The Session-Timeout of the account's accepts in seconds (RFC 2865 section 5.27), at least 1.
    pub session_timeout: Option<u32>,
    /// The Idle-Timeout of the account's accepts in seconds (RFC 2865 section 5.28), at least 1.
    pub idle_timeout: Option<u32>,
    /// The Acct-Interim-Interval of the account's accepts (RFC 2869 section 5.16), in seconds: 60
    /// to 86,400. `Config::make` fills in that of the settings if the account has none; in version
    /// 1 it removes it.
    pub interim: Option<u32>,
    /// The session limit.
    pub rules: Rules,
    /// Whether its accepts have a Port-Limit (RFC 2865 section 5.42).
    pub port_limit: bool,
    /// The other attributes of its accepts: in version 3 at most 1,000 octets, and else none.
    pub reply: Reply,
    /// Whether its logins are rejected. What its sessions send in accounting counts as ever.
    pub disabled: bool,
    /// The User-Name: 1 to 64 octets, each 0x21 to 0x7E.
    pub name: Text,
    /// The account's own live time in seconds, 1 to 86,400; ignored in version 1.
    pub own_live: Option<u64>,
    /// The account's own grace time in seconds, 1 to 86,400; ignored in version 1.
    pub own_grace: Option<u64>,
    /// Whether the account counts by stations; the settings say so if the account does not.
    pub own_station: Option<bool>,
}

impl Entry {
    /// `BadValue` of the first field with a wrong value, in the order of the walk. A version
    /// without times of an account ignores them.
    #[tactic(auto, using(crate::proofs::Faults::checks_steps), unfolding(crate::specs::Walk::account_checks))]
    pub(crate) fn check(&self, version: u64) -> Result<(), ConfigFault>
        ensures { result_err result ≡ first_fault (account_checks version self.now) }
    {
        self.check_common()?;
        self.check_own_times(version)?;
        self.check_reply(version)
    }

    /// `BadValue` of reply attributes that are too long for the version.
    #[tactic(auto, unfolding(crate::specs::Walk::reply_checks))]
    fn check_reply(&self, version: u64) -> Result<(), ConfigFault>
        ensures { result_err result ≡ first_fault (reply_checks version self.now) }
    {
        check_reply_len(version, self.reply.len())
    }

    /// `BadValue` of the first wrong field among those of every version.
    #[tactic(auto, unfolding(crate::specs::Walk::common_checks))]
    fn check_common(&self) -> Result<(), ConfigFault>
        ensures { result_err result ≡ first_fault (common_checks self.now) }
    {
        Field::Name.check_text(self.name.as_bytes())?;
        self.check_password()?;
        Field::Places.check_number(self.rules.places)?;
        Field::Ports.check_number(self.rules.ports)?;
        Field::ServiceType.check_short(self.service_type)?;
        Field::FramedProtocol.check_short(self.framed_protocol)?;
        Field::SessionTimeout.check_short(self.session_timeout)?;
        Field::IdleTimeout.check_short(self.idle_timeout)
    }

    /// `BadValue` of a password that is wrong.
    fn check_password(&self) -> Result<(), ConfigFault>
        ensures { result_err result ≡ option_text_fault Field.Password self.now.password }
    {
        match &self.password {
            Some(password) => Field::Password.check_text(password.expose()),
            None => Ok(()),
        }
    }

    /// `BadValue` of the first field with a wrong value, of its own times and the seconds between
    /// its interim updates.
    #[tactic(auto, unfolding(crate::specs::Walk::own_checks, crate::specs::Walk::own_times_checks))]
    fn check_own_times(&self, version: u64) -> Result<(), ConfigFault>
        ensures { result_err result ≡ first_fault (own_checks version self.now) }
    {
        if !knows_own_times(version) {
            return Ok(());
        }
        Field::OwnLive.check_option(self.own_live)?;
        Field::OwnGrace.check_option(self.own_grace)?;
        Field::InterimSecs.check_short(self.interim)
    }
}
