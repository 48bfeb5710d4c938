ghost use Rattle.std.specs.Prelude.{◌≡◌, ℕ, Some, List, codes, ◌++◌, decimal};
ghost use Rattle.std.specs.List.{list_any};
ghost use Rattle.std.specs.Prelude.{bytes_eq};
ghost use Rattle.rld_config.specs.Key.{key_name, keys_of, knows};

use crate::key::Key;
use std::fmt;

/// A table of the server's file. It prints as the prefix of a key in a fault: nothing for the head,
/// and `listen 2` and a blank for the second `listen`.
#[derive(Clone, Copy, Debug)]
pub enum Part {
    /// The head of the file.
    Head,
    /// The table `listen` of this number, from 1 in the order of the file.
    Listen(u64),
    /// The table `network` of this number, from 1 in the order of the file.
    Network(u64),
    /// The table `control`.
    Control,
    /// The table `web`.
    Web,
    /// The table `ask`.
    Ask,
    /// The table `trust`.
    Trust,
}

impl Part {
    /// The keys that the table may have.
    fn keys(self) -> &'static [Key]
        ensures { result.now ≡ keys_of self }
    {
        match self {
            Part::Head => &[
                Key::Accounts,
                Key::State,
                Key::StateMustExist,
                Key::Sync,
                Key::Archive,
                Key::ArchiveMegabytes,
                Key::Listen,
                Key::Network,
                Key::Control,
                Key::Web,
                Key::Ask,
                Key::Trust,
            ],
            Part::Listen(_) => &[
                Key::Address,
                Key::Auth,
                Key::Acct,
                Key::Receivers,
                Key::StatusServer,
            ],
            Part::Network(_) => &[Key::Prefix, Key::Client],
            Part::Control => &[Key::Socket, Key::Mode, Key::Group],
            Part::Web => &[Key::Address, Key::Port],
            Part::Ask => &[Key::Address, Key::Port, Key::TokenFile, Key::Client],
            Part::Trust => &[Key::ReadableAccounts],
        }
    }

    /// Whether the table may have a key of this name.
    pub(crate) fn knows(self, name: &str) -> bool
        ensures { result ≡ knows self name.now }
    {
        self.keys().iter().any(|key| name == key.name())
    }
}

impl fmt::Display for Part {
    fn fmt<W: fmt::Write>(&self, f: &mut fmt::Formatter<W>) -> fmt::Result {
        match self {
            Part::Head => Ok(()),
            Part::Listen(number) => write!(f, "listen {number} "),
            Part::Network(number) => write!(f, "network {number} "),
            Part::Control => f.write_str("control "),
            Part::Web => f.write_str("web "),
            Part::Ask => f.write_str("ask "),
            Part::Trust => f.write_str("trust "),
        }
    }
}
