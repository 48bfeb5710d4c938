ghost use Rattle.std.specs.Prelude.{◌≡◌, ◌<◌, ◌^◌, IsTrue, Some};
ghost use Rattle.rld_config.specs.Key.{key_name, has_no_nul, is_between, is_group, is_mode, is_path, takes_number};

use std::fmt;

/// The most days that an archive may be kept: a hundred years.
const MAX_DAYS: u64 = 36_500;

/// The most megabytes that an archive may have.
const MAX_MEGABYTES: u64 = 65_535;

/// The most that a UDP or TCP port can be.
const MAX_PORT: u64 = 65_535;

/// The most receivers on each socket of a table.
const MAX_RECEIVERS: u64 = 16;

/// The most octets of a group's name.
const MAX_GROUP_LEN: u64 = 32;

/// The most octets of a path.
const MAX_PATH_LEN: u64 = 4_095;

/// A key of the server's file.
#[derive(Clone, Copy, Debug)]
pub enum Key {
    /// The path of the account file.
    Accounts,
    /// The path of the folder where the server keeps its history.
    State,
    /// Whether the folder must have a history at a start.
    StateMustExist,
    /// When what was recorded is synced to the disk.
    Sync,
    /// How long files that no start needs any more are kept.
    Archive,
    /// How many megabytes of logs the archive may have.
    ArchiveMegabytes,
    /// Where packets come to, as an array of tables.
    Listen,
    /// The networks that stand for clients, as an array of tables.
    Network,
    /// The control socket of the running server, as a table.
    Control,
    /// The page of the running server, as a table.
    Web,
    /// Where asks come in over HTTP, as a table.
    Ask,
    /// What others may do, as a table.
    Trust,
    /// The address of a `listen`, of `web` or of `ask`.
    Address,
    /// The UDP port for Access-Requests.
    Auth,
    /// The UDP port for Accounting-Requests.
    Acct,
    /// How many receivers each of the two ports has.
    Receivers,
    /// Whether Status-Server packets are answered on both ports.
    StatusServer,
    /// The prefix of a `network`.
    Prefix,
    /// The IPv4 address of the client that a `network` stands for, or that asks count as from.
    Client,
    /// The path of the control socket.
    Socket,
    /// The mode of the control socket.
    Mode,
    /// The name of the group of the control socket.
    Group,
    /// The TCP port of the page, or of asks.
    Port,
    /// The path of the file with the token of asks.
    TokenFile,
    /// Whether everybody may read the account file.
    ReadableAccounts,
}

impl Key {
    /// The key as it is in the file, such as `receivers`.
    pub fn name(&self) -> &'static str
        ensures { result.now ≡ key_name self.now }
    {
        match self {
            Key::Accounts => "accounts",
            Key::State => "state",
            Key::StateMustExist => "state_must_exist",
            Key::Sync => "sync",
            Key::Archive => "archive",
            Key::ArchiveMegabytes => "archive_megabytes",
            Key::Listen => "listen",
            Key::Network => "network",
            Key::Control => "control",
            Key::Web => "web",
            Key::Ask => "ask",
            Key::Trust => "trust",
            Key::Address => "address",
            Key::Auth => "auth",
            Key::Acct => "acct",
            Key::Receivers => "receivers",
            Key::StatusServer => "status_server",
            Key::Prefix => "prefix",
            Key::Client => "client",
            Key::Socket => "socket",
            Key::Mode => "mode",
            Key::Group => "group",
            Key::Port => "port",
            Key::TokenFile => "token_file",
            Key::ReadableAccounts => "readable_accounts",
        }
    }

    /// Whether the number is within the key's limits, which fit 16 bits.
    pub(crate) fn takes_number(self, number: u64) -> bool
        ensures value { result ≡ takes_number self number }
        ensures small { IsTrue result → number < 2 ^ 16 }
    {
        match self {
            Key::Archive => is_between(1, MAX_DAYS, number),
            Key::ArchiveMegabytes => is_between(1, MAX_MEGABYTES, number),
            Key::Auth | Key::Acct | Key::Port => is_between(1, MAX_PORT, number),
            Key::Receivers => is_between(1, MAX_RECEIVERS, number),
            Key::Mode => is_mode(number),
            _ => false,
        }
    }
}

impl fmt::Display for Key {
    ghost output = { λ key. Some (key_name key) };

    fn fmt<W: fmt::Write>(&self, f: &mut fmt::Formatter<W>) -> fmt::Result {
        f.write_str(self.name())
    }
}

/// Whether a number is from `least` to `most`.
pub(crate) fn is_between(least: u64, most: u64, number: u64) -> bool
    ensures { result ≡ is_between least most number }
{
    least <= number && number <= most
}

/// Whether a number is the mode of a socket that its owner may write to, alone or with his group or
/// with everybody.
fn is_mode(number: u64) -> bool
    ensures value { result ≡ is_mode number }
    ensures small { IsTrue result → number < 2 ^ 16 }
{
    number == 0o600 || number == 0o660 || number == 0o666
}

/// Whether the text has 1 to 32 octets, none of them NUL.
pub(crate) fn is_group(text: &[u8]) -> bool
    ensures { result ≡ is_group text.now }
{
    is_between(1, MAX_GROUP_LEN, text.len() as u64) && has_no_nul(text)
}

/// Whether the text has 1 to 4,095 octets, none of them NUL.
pub(crate) fn is_path(text: &[u8]) -> bool
    ensures { result ≡ is_path text.now }
{
    is_between(1, MAX_PATH_LEN, text.len() as u64) && has_no_nul(text)
}

/// Whether no octet is NUL.
fn has_no_nul(text: &[u8]) -> bool
    ensures { result ≡ has_no_nul text.now }
{
    text.iter().all(|octet| *octet != 0)
}
