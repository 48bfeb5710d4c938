ghost use Rattle.std.specs.Prelude.{◌≡◌};
ghost use Rattle.rsl_accounts.specs.Part.{fields_of, knows};

use crate::field::Field;
use std::fmt;

/// A table of the account file. It prints as the prefix of a key in a fault: nothing for the head,
/// and `client` and a blank for a client.
#[derive(Clone, Copy, Debug)]
pub enum Part {
    /// The head of the file.
    Head,
    /// A table `client`.
    Client,
    /// A table `account`.
    Account,
    /// The table `disconnect` of a client.
    Disconnect,
    /// A table in `profile`.
    Profile,
}

impl Part {
    /// The fields that the table may have.
    fn fields(self) -> &'static [Field]
        ensures { result.now ≡ fields_of self }
    {
        match self {
            Part::Head => &[
                Field::Version,
                Field::Shards,
                Field::ReserveSecs,
                Field::LiveSecs,
                Field::GraceSecs,
                Field::ClosedSecs,
                Field::KeepSecs,
                Field::InterimSecs,
                Field::Client,
                Field::Account,
                Field::Profile,
                Field::PortLimit,
                Field::Station,
                Field::DelayTime,
            ],
            Part::Client => &[
                Field::Address,
                Field::Secret,
                Field::Signed,
                Field::Trusted,
                Field::Disconnect,
            ],
            Part::Account => &[
                Field::Name,
                Field::Password,
                Field::Places,
                Field::Ports,
                Field::ServiceType,
                Field::FramedProtocol,
                Field::SessionTimeout,
                Field::IdleTimeout,
                Field::OwnLive,
                Field::OwnGrace,
                Field::InterimSecs,
                Field::Disabled,
                Field::Reply,
                Field::Profile,
                Field::PortLimit,
                Field::Station,
            ],
            Part::Disconnect => &[Field::Port],
            Part::Profile => &[Field::Reply],
        }
    }

    /// Whether the table may have a key of this name, in version 3.
    pub fn knows(self, name: &str) -> bool
        ensures { result ≡ knows self name.now }
    {
        self.fields().iter().any(|field| name == field.key())
    }
}

impl fmt::Display for Part {
    fn fmt<W: fmt::Write>(&self, f: &mut fmt::Formatter<W>) -> fmt::Result {
        f.write_str(match self {
            Part::Head => "",
            Part::Client => "client ",
            Part::Account => "account ",
            Part::Disconnect => "disconnect ",
            Part::Profile => "profile ",
        })
    }
}
