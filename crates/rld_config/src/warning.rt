//! What an operator should know of an account file that is right.
ghost use Rattle.std.specs.Prelude.{◌≡◌, ◌≤◌, ◌*◌, ◌++◌, IfOk, OnOk, length, map};
ghost use Rattle.std.specs.List.{flat_map};
ghost use Rattle.rsl_accounts.specs.Configuration.{client_number};
ghost use Rattle.rsl_accounts.specs.Limits.{RulesFit};
ghost use Rattle.rsl_accounts.specs.Version.{unsigned_rule};
ghost use Rattle.rld_config.specs.Server.{is_unsigned_at};
ghost use Rattle.rld_config.specs.declared.warning.Warning.TheVariants.{NotSigned};
ghost use Rattle.rld_config.specs.Warning.{
  book_octets,
  books_octets,
  advice,
  client_warnings,
  counted,
  megabytes,
  mode_warning,
  network_warnings,
  shards_warning,
  short_secret,
  unsigned_address,
  unsigned_prefix,
  warnings_of,
};

use crate::others_read;
use rld_networks::{Network, Prefix};
use rsl_accounts::{Client, Config, Rules, UnsignedRule};
use rsl_wire::NoMemory;
use std::alloc::Global;
use std::fmt;

/// The fewest octets that a secret should have: RFC 2865 section 3 prefers at least 16.
const SECRET_LEN: usize = 16;

/// The octets of a book without links.
const BOOK: u64 = 3_299;

/// The octets of each link that a book has room for.
const LINK: u64 = 223;

/// Octets of a megabyte.
const MEGABYTE: u64 = 1_000_000;

/// A remark on an account file that is right. It prints as a line.
#[derive(Clone, Copy, Debug)]
pub enum Warning {
    /// In version 3 the client of this address need not sign its Access-Requests.
    NotSigned([u8; 4]),
    /// In version 1 or 2 this many clients need not sign; the first has this address.
    Unsigned(u64, [u8; 4]),
    /// In version 1 or 2 the secrets of this many clients have under 16 octets; the first client has
    /// this address.
    ShortSecrets(u64, [u8; 4]),
    /// In version 1 or 2 this many networks stand for clients that need not sign; the first has this
    /// prefix.
    UnsignedNetworks(u64, Prefix),
    /// The addresses of this prefix stand for one client, so its access servers that name
    /// themselves neither by NAS-Identifier nor by NAS-IP-Address count as one.
    Prefixed(Prefix),
    /// Everybody can read the account file.
    OthersRead,
    /// The account file says `shards`, which counts for `radlimit` alone.
    Shards(u64),
    /// The memory of the accounts' books, in megabytes, rounded up.
    Memory(u64),
}

impl fmt::Display for Warning {
    fn fmt<W: fmt::Write>(&self, f: &mut fmt::Formatter<W>) -> fmt::Result {
        match self {
            Warning::NotSigned([a, b, c, d]) => write!(
                f,
                "client {a}.{b}.{c}.{d}: its Access-Requests need no Message-Authenticator"
            ),
            Warning::Unsigned(count, [a, b, c, d]) => write!(
                f,
                "version 3 signs each answer, and wants `signed = false` said of clients that need not sign: {count}, first {a}.{b}.{c}.{d}"
            ),
            Warning::ShortSecrets(count, [a, b, c, d]) => write!(
                f,
                "version 3 refuses secrets of under 16 octets: {count}, first of {a}.{b}.{c}.{d}"
            ),
            Warning::UnsignedNetworks(count, prefix) => write!(
                f,
                "version 3 refuses networks of clients that need not sign: {count}, first {prefix}"
            ),
            Warning::Prefixed(prefix) => write!(
                f,
                "network {prefix}: access servers without NAS-Identifier and NAS-IP-Address count as one"
            ),
            Warning::OthersRead => f.write_str("accounts: everybody can read the file"),
            Warning::Shards(shards) => {
                write!(f, "accounts: radlimitd passes over `shards = {shards}`")
            }
            Warning::Memory(megabytes) => {
                write!(f, "accounts: their places take {megabytes} MB of memory")
            }
        }
    }
}

/// The remarks on a right account file of this mode, and on the networks of the server's file: of
/// version 3 each client that need not sign, in the file's order, and of another version what
/// version 3 would do better; each network; whether everybody can read the account file; more than
/// one shard; and the memory of its books. It fails only if memory is refused.
#[tactic(auto, unfolding(crate::specs::Warning::warnings_of))]
pub fn warnings(
    alloc: Global,
    config: &Config,
    networks: &[Network],
    mode: u32,
) -> Result<Vec<Warning>, NoMemory>
    ensures { IfOk result (λ warnings. warnings.items ≡ warnings_of config.now networks.now mode) }
{
    let mut warnings = client_warnings(alloc, config, networks)?;
    warn_of_networks(networks, &mut warnings)?;
    warn_of_mode(mode, &mut warnings)?;
    warn_of_shards(config, &mut warnings)?;
    warnings.push(Warning::Memory(megabytes(books_octets(config))))?;
    Ok(warnings)
}

/// The remarks on the clients.
fn client_warnings(
    alloc: Global,
    config: &Config,
    networks: &[Network],
) -> Result<Vec<Warning>, NoMemory>
    ensures { IfOk result (λ warnings. warnings.items
        ≡ client_warnings (unsigned_rule config.now.settings.version) config.now networks.now) }
{
    match config.unsigned_rule() {
        UnsignedRule::Guarded => not_signed(alloc, config),
        UnsignedRule::Trusted => advice(alloc, config, networks),
    }
}

/// Each client that need not sign.
fn not_signed(alloc: Global, config: &Config) -> Result<Vec<Warning>, NoMemory>
    ensures { IfOk result (λ warnings.
        warnings.items ≡ map NotSigned (flat_map unsigned_address config.now.clients)) }
{
    let mut warnings = Vec::new(alloc);
    for address in unsigned_addresses(alloc, config)?.as_slice() {
        warnings.push(Warning::NotSigned(*address))?;
    }
    Ok(warnings)
}

/// What version 3 would do better.
fn advice(alloc: Global, config: &Config, networks: &[Network]) -> Result<Vec<Warning>, NoMemory>
    ensures { IfOk result (λ warnings. warnings.items ≡ advice config.now networks.now) }
{
    let mut warnings = Vec::new(alloc);
    let unsigned = unsigned_addresses(alloc, config)?;
    if let Some(first) = unsigned.first() {
        warnings.push(Warning::Unsigned(unsigned.len() as u64, *first))?;
    }
    let short = short_secrets(alloc, config)?;
    if let Some(first) = short.first() {
        warnings.push(Warning::ShortSecrets(short.len() as u64, *first))?;
    }
    let mut prefixes = Vec::new(alloc);
    push_prefixes(config, networks, &mut prefixes)?;
    if let Some(first) = prefixes.first() {
        warnings.push(Warning::UnsignedNetworks(prefixes.len() as u64, *first))?;
    }
    Ok(warnings)
}

/// The addresses of clients that need not sign.
fn unsigned_addresses(alloc: Global, config: &Config) -> Result<Vec<[u8; 4]>, NoMemory>
    ensures { IfOk result (λ found. found.items ≡ flat_map unsigned_address config.now.clients) }
{
    let mut found = Vec::new(alloc);
    for number in 0..config.clients() {
        push_unsigned(config.client_at(number), &mut found)?;
    }
    Ok(found)
}

/// Adds the address of a client that need not sign.
fn push_unsigned(client: &Client, found: &mut Vec<[u8; 4]>) -> Result<(), NoMemory>
    ensures { OnOk result (found.new.items ≡ found.old.items ++ unsigned_address client.now) }
{
    if !client.signed {
        found.push(client.address)?;
    }
    Ok(())
}

/// The addresses of clients whose secrets are short.
fn short_secrets(alloc: Global, config: &Config) -> Result<Vec<[u8; 4]>, NoMemory>
    ensures { IfOk result (λ found. found.items ≡ flat_map short_secret config.now.clients) }
{
    let mut found = Vec::new(alloc);
    for number in 0..config.clients() {
        push_short(config.client_at(number), &mut found)?;
    }
    Ok(found)
}

/// Adds the address of a client whose secret is short.
fn push_short(client: &Client, found: &mut Vec<[u8; 4]>) -> Result<(), NoMemory>
    ensures { OnOk result (found.new.items ≡ found.old.items ++ short_secret client.now) }
{
    if client.secret.expose().len() < SECRET_LEN {
        found.push(client.address)?;
    }
    Ok(())
}

/// Adds the prefixes of networks that stand for clients that need not sign.
fn push_prefixes(
    config: &Config,
    networks: &[Network],
    found: &mut Vec<Prefix>,
) -> Result<(), NoMemory>
    ensures { OnOk result
        (found.new.items ≡ found.old.items ++ flat_map (unsigned_prefix config.now) networks.now) }
{
    for network in networks {
        push_prefix(config, network, found)?;
    }
    Ok(())
}

/// Adds the prefix of a network that stands for a client that need not sign.
fn push_prefix(config: &Config, network: &Network, found: &mut Vec<Prefix>) -> Result<(), NoMemory>
    ensures { OnOk result
        (found.new.items ≡ found.old.items ++ unsigned_prefix config.now network.now) }
{
    if is_unsigned(config, network) {
        found.push(network.prefix)?;
    }
    Ok(())
}

/// Whether a network stands for a client that need not sign.
fn is_unsigned(config: &Config, network: &Network) -> bool
    ensures { result ≡ is_unsigned_at config.now (client_number config.now network.now.client) }
{
    match config.client(network.client) {
        Some(number) => !config.client_at(number).signed,
        None => false,
    }
}

/// Adds what is to be known of networks.
fn warn_of_networks(networks: &[Network], warnings: &mut Vec<Warning>) -> Result<(), NoMemory>
    ensures { OnOk result
        (warnings.new.items ≡ warnings.old.items ++ network_warnings networks.now) }
{
    for network in networks {
        warnings.push(Warning::Prefixed(network.prefix))?;
    }
    Ok(())
}

/// Adds that everybody can read the file, if so.
fn warn_of_mode(mode: u32, warnings: &mut Vec<Warning>) -> Result<(), NoMemory>
    ensures { OnOk result (warnings.new.items ≡ warnings.old.items ++ mode_warning mode) }
{
    if others_read(mode) {
        warnings.push(Warning::OthersRead)?;
    }
    Ok(())
}

/// Adds that the number of shards counts for nothing, if it is over one.
fn warn_of_shards(config: &Config, warnings: &mut Vec<Warning>) -> Result<(), NoMemory>
    ensures { OnOk result (warnings.new.items
        ≡ warnings.old.items ++ shards_warning config.now.settings.shards) }
{
    let shards = config.shards();
    if shards > 1 {
        warnings.push(Warning::Shards(u64::from(shards)))?;
    }
    Ok(())
}

/// The octets of memory of the accounts' books: 3,522 for each with one link, and 223 for each
/// further link.
pub fn books_octets(config: &Config) -> u64
    ensures value { result ≡ books_octets config.now.accounts }
    ensures most { result ≤ 231651 * length config.now.accounts }
    ensures few { length config.now.accounts ≤ 16384 }
{
    let mut octets = 0;
    for number in 0..config.accounts() {
        octets += book_octets(&config.entry(number).rules);
    }
    octets
}

/// The octets of a book.
#[tactic(auto, unfolding(crate::specs::Warning::book_octets))]
fn book_octets(rules: &Rules) -> u64
    requires { RulesFit rules.now }
    ensures value { result ≡ book_octets rules.now }
    ensures most { result ≤ 231651 }
{
    BOOK + LINK * (rules.places * rules.ports)
}

/// Millions of octets, rounded up.
fn megabytes(octets: u64) -> u64
    requires { octets ≤ 3795369984 }
    ensures { result ≡ megabytes octets }
{
    (octets + (MEGABYTE - 1)) / MEGABYTE
}
