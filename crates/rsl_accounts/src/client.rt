ghost use Rattle.std.specs.Prelude.{◌≡◌};
ghost use Rattle.std.specs.Result.{result_err};
ghost use Rattle.rsl_accounts.specs.Walk.{client_checks, first_fault, option_fault, trust_fault};

use crate::fault::ConfigFault;
use crate::field::Field;
use crate::secret::Secret;
use crate::settings::check_secret_len;

/// An access server that may send packets.
#[derive(Drop)]
pub struct Client {
    /// Its IPv4 address.
    pub address: [u8; 4],
    /// The secret shared with it: 1 to 128 octets of UTF-8 without NUL, and in version 3 at least
    /// 16.
    pub secret: Secret,
    /// Whether each of its Access-Requests must have a right Message-Authenticator (RFC 3579
    /// section 3.2).
    pub signed: bool,
    /// Whether it has checked who asks, so that a request of it without a password is an ask of the account
    /// that it names. Only a client that signs is trusted.
    pub trusted: bool,
    /// The UDP port at which it takes Disconnect-Requests (RFC 5176), if it does; never 0.
    pub disconnect: Option<u16>,
}

impl Client {
    /// `BadValue` of the first field with a wrong value: any four octets are an address, one that is trusted has
    /// to sign, and the port at which it takes Disconnect-Requests is not 0.
    #[tactic(auto, unfolding(crate::specs::Walk::client_checks))]
    pub(crate) fn check(&self, version: u64) -> Result<(), ConfigFault>
        ensures { result_err result ≡ first_fault (client_checks version self.now) }
    {
        let secret = self.secret.expose();
        Field::Secret.check_text(secret)?;
        check_secret_len(version, secret.len())?;
        check_trust(self.signed, self.trusted)?;
        check_port(self.disconnect)
    }
}

/// `BadValue` of a client that is trusted and does not sign.
pub fn check_trust(signed: bool, trusted: bool) -> Result<(), ConfigFault>
    ensures { result_err result ≡ trust_fault signed trusted }
{
    if trusted && !signed {
        return Err(ConfigFault::BadValue(Field::Trusted));
    }
    Ok(())
}

/// `BadValue` of a port that is 0.
fn check_port(port: Option<u16>) -> Result<(), ConfigFault>
    ensures { result_err result ≡ option_fault Field.Port port }
{
    match port {
        Some(port) => Field::Port.check_number(u64::from(port)),
        None => Ok(()),
    }
}
