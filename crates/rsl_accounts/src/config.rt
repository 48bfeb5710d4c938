ghost use Rattle.std.specs.Prelude.{
  ◌≡◌,
  ◌≢◌,
  ◌<◌,
  ◌%◌,
  false,
  true,
  None,
  IfOk,
  IfErr,
  IfSome,
  count_by,
  position,
  is_none,
  length,
  slice_get,
  map,
};
ghost use Rattle.std.specs.List.{list_any};
ghost use Rattle.rsl_accounts.specs.Configuration.{
  same_octets,
  configuration_of,
  PassesBeforeNames,
  client_number,
  account_number,
  counts_stations,
  comes_twice,
  addresses,
  names,
  with_times,
  has_short_live,
  first_without_login,
  has_trusted,
};
ghost use Rattle.rsl_accounts.specs.Keys.{AreKeysOf};
ghost use Rattle.rsl_auth.specs.Hmac.{IsKeyOf};
ghost use Rattle.rsl_accounts.specs.Version.{knows_ipv6, unsigned_rule};
ghost use Rattle.rsl_accounts.specs.Walk.{first_fault, walk_over};
ghost use Rattle.rsl_accounts.specs.Limits.{IsConfiguration, IsAccount, IsSecret};

use crate::client::Client;
use crate::entry::Entry;
use crate::fault::ConfigFault;
use crate::settings::{Settings, knows_ipv6, unsigned_rule};
use crate::unsigned_rule::UnsignedRule;
use crate::walk::walk;
use indexmap::IndexSet;
use rsl_auth::HmacKey;
use rsl_wire::NoMemory;
use std::alloc::Global;
use std::marker::Model;

/// Settings, clients and accounts within their limits. Clients and accounts are numbered from 0 in
/// the order of the file.
#[derive(Drop)]
pub struct Config {
    settings: Settings,
    clients: Vec<Client>,
    keys: Vec<HmacKey>,
    accounts: Vec<Entry>,
    names: IndexSet<Vec<u8>>,
}

impl Model for Config {
    ghost use Rattle.rsl_accounts.specs.Configuration.{Configuration};

    ghost Value = { Configuration };

    ghost use Rattle.rsl_accounts.specs.ConfigSeen.{configuration_in, IsKept};

    ghost view = { configuration_in };

    ghost invariant = { IsKept };
}

impl Config {
    /// The configuration of these settings, clients and accounts. The rules of each account get the
    /// times of the settings, or from version 2 on its own live and grace times if it has them.
    /// From version 2 on its Acct-Interim-Interval is its own, else that of the settings; in
    /// version 1 it has none.
    ///
    /// The faults come in this order: `BadValue` of the first field of the walk with a wrong value,
    /// `TwiceClient`, `TwiceAccount`, `KeepTooLong`. `NoMemory` comes if memory is refused, and
    /// only after the walk and `TwiceClient`.
    pub fn make(
        alloc: Global,
        settings: Settings,
        clients: Vec<Client>,
        accounts: Vec<Entry>,
    ) -> Result<Config, ConfigFault>
        ensures ok { IfOk result (λ config.
            configuration_of settings clients.items accounts.items ≡ Ok config) }
        ensures fault { IfErr result (λ fault. fault ≢ ConfigFault.NoMemory →
            configuration_of settings clients.items accounts.items ≡ Err fault) }
        ensures memory { IfErr result (λ fault. fault ≡ ConfigFault.NoMemory →
            PassesBeforeNames settings clients.items accounts.items) }
    {
        walk(&settings, clients.as_slice(), accounts.as_slice())?;
        Config::assemble(alloc, settings, clients, accounts)
    }

    /// The configuration of parts that have passed the walk: `make` from `TwiceClient` on.
    fn assemble(
        alloc: Global,
        settings: Settings,
        clients: Vec<Client>,
        accounts: Vec<Entry>,
    ) -> Result<Config, ConfigFault>
        requires { first_fault (walk_over settings clients.items accounts.items) ≡ None }
        ensures ok { IfOk result (λ config.
            configuration_of settings clients.items accounts.items ≡ Ok config) }
        ensures fault { IfErr result (λ fault. fault ≢ ConfigFault.NoMemory →
            configuration_of settings clients.items accounts.items ≡ Err fault) }
        ensures memory { IfErr result (λ fault. fault ≡ ConfigFault.NoMemory →
            PassesBeforeNames settings clients.items accounts.items) }
    {
        if has_twice(clients.as_slice()) {
            return Err(ConfigFault::TwiceClient);
        }
        let names = index_names(alloc, accounts.as_slice())?;
        if settings.keep > settings.reserve {
            return Err(ConfigFault::KeepTooLong);
        }
        let keys = hmac_keys(alloc, clients.as_slice())?;
        Ok(Config {
            settings,
            clients,
            keys,
            accounts: fill_times(&settings, accounts),
            names,
        })
    }

    /// The number of the client with this address, if there is one.
    pub fn client(&self, address: [u8; 4]) -> Option<u32>
        ensures number { result ≡ client_number self.now address }
        ensures limits { IsConfiguration self.now }
    {
        let number = position_of(self.clients.as_slice(), address)?;
        Some(number as u32)
    }

    /// The client with the number.
    pub fn client_at(&self, number: u32) -> &Client
        requires { number < length self.now.clients }
        ensures client { slice_get self.now.clients number ≡ Some result.now }
        ensures limits { IsSecret result.now.secret }
    {
        &self.clients[number as usize]
    }

    /// The HMAC key of the client's secret, prepared once for all packets.
    pub fn hmac_key(&self, client: u32) -> &HmacKey
        requires { client < length self.now.clients }
        ensures { IfSome (slice_get self.now.clients client) (λ client.
            IsKeyOf client.secret result.now) }
    {
        &self.keys[client as usize]
    }

    /// How an unsigned Access-Request is treated, of a client that need not sign.
    pub fn unsigned_rule(&self) -> UnsignedRule
        ensures { result ≡ unsigned_rule self.now.settings.version }
    {
        unsigned_rule(self.settings.version)
    }

    /// Whether a NAS-IPv6-Address (RFC 3162 section 2.1) names an access server.
    pub fn knows_ipv6(&self) -> bool
        ensures { result ≡ knows_ipv6 self.now.settings.version }
    {
        knows_ipv6(self.settings.version)
    }

    /// Whether the account with this number counts by stations, so that a fresh ask ends a link of
    /// its own station (docs/SESSION-RULE.md): as it says itself, else as the settings say.
    pub fn counts_stations(&self, account: u32) -> bool
        requires { account < length self.now.accounts }
        ensures { result ≡ counts_stations self.now account }
    {
        self.entry(account)
            .own_station
            .unwrap_or(self.settings.station)
    }

    /// Whether an Accounting-On or Accounting-Off is as old as its Acct-Delay-Time (RFC 2866
    /// section 5.2) says.
    pub fn heeds_delay_time(&self) -> bool
        ensures { result ≡ self.now.settings.delay_time }
    {
        self.settings.delay_time
    }

    /// The number of the account with the name, if there is one.
    pub fn account(&self, name: &[u8]) -> Option<u32>
        ensures number { result ≡ account_number self.now name.now }
        ensures limits { IsConfiguration self.now }
    {
        let number = self.names.get_index_of(name)?;
        Some(number as u32)
    }

    /// The account with the number.
    pub fn entry(&self, number: u32) -> &Entry
        requires { number < length self.now.accounts }
        ensures entry { slice_get self.now.accounts number ≡ Some result.now }
        ensures limits { IsAccount self.now.settings result.now }
    {
        &self.accounts[number as usize]
    }

    /// How many clients there are: 1 to 256.
    pub fn clients(&self) -> u32
        ensures number { result ≡ length self.now.clients }
        ensures limits { IsConfiguration self.now }
    {
        self.clients.len() as u32
    }

    /// How many accounts there are: 1 to 16,384.
    pub fn accounts(&self) -> u32
        ensures number { result ≡ length self.now.accounts }
        ensures limits { IsConfiguration self.now }
    {
        self.accounts.len() as u32
    }

    /// The number of the first account whose live time is under two of its interim intervals, so
    /// that one lost interim update lets its sessions lapse.
    pub fn first_short_live(&self) -> Option<u32>
        ensures number { result ≡ position has_short_live self.now.accounts }
        ensures within { IfSome result (λ number. number < length self.now.accounts) }
        ensures limits { IsConfiguration self.now }
    {
        let number = position_of_short_live(self.accounts.as_slice())?;
        Some(number as u32)
    }

    /// How many accounts have a live time under two of their interim intervals.
    pub fn short_lives(&self) -> u32
        ensures number { result ≡ count_by has_short_live self.now.accounts }
        ensures limits { IsConfiguration self.now }
    {
        self.accounts
            .iter()
            .filter(|entry| has_short_live(entry))
            .count() as u32
    }

    /// The number of the first account that nobody can log in to: it has no password, and no client is
    /// trusted. None if there is no such account.
    pub fn first_without_login(&self) -> Option<u32>
        ensures number { result ≡ first_without_login self.now }
        ensures within { IfSome result (λ number. number < length self.now.accounts) }
        ensures limits { IsConfiguration self.now }
    {
        if has_trusted(self.clients.as_slice()) {
            return None;
        }
        let number = position_without_password(self.accounts.as_slice())?;
        Some(number as u32)
    }

    /// How many shards the accounts are spread over: 1 to 4.
    pub fn shards(&self) -> u32
        ensures number { result ≡ self.now.settings.shards }
        ensures limits { IsConfiguration self.now }
    {
        self.settings.shards as u32
    }

    /// The number of the account's shard.
    pub fn shard_of(&self, account: u32) -> u32
        ensures number { result ≡ account % self.now.settings.shards }
        ensures shard { result < self.now.settings.shards }
    {
        account % self.shards()
    }
}

/// The index of the first account whose live time is under two of its interim intervals.
fn position_of_short_live(accounts: &[Entry]) -> Option<usize>
    ensures index { result ≡ position has_short_live accounts.now }
    ensures within { IfSome result (λ index. index < length accounts.now) }
{
    accounts.iter().position(|entry| has_short_live(entry))
}

/// Whether the requests of some client may ask without a password.
fn has_trusted(clients: &[Client]) -> bool
    ensures { result ≡ has_trusted clients.now }
{
    clients.iter().any(|client| client.trusted)
}

/// The index of the first account that has no password.
fn position_without_password(accounts: &[Entry]) -> Option<usize>
    ensures index { result ≡ position (λ entry. is_none entry.password) accounts.now }
    ensures within { IfSome result (λ index. index < length accounts.now) }
{
    accounts.iter().position(|entry| entry.password.is_none())
}

/// Whether an account's live time is under two of the intervals that its accepts ask for.
fn has_short_live(entry: &Entry) -> bool
    ensures { result ≡ has_short_live entry.now }
{
    match entry.interim {
        Some(seconds) => entry.rules.live < 2 * u64::from(seconds),
        None => false,
    }
}

/// The index of the first client with the address.
fn position_of(clients: &[Client], address: [u8; 4]) -> Option<usize>
    ensures index { result ≡ position (λ client. same_octets address client.address) clients.now }
    ensures within { IfSome result (λ index. index < length clients.now) }
{
    clients.iter().position(|client| address == client.address)
}

/// Whether a client has the address.
fn has_address(clients: &[Client], address: [u8; 4]) -> bool
    ensures { result ≡ list_any (λ client. same_octets address client.address) clients.now }
{
    clients.iter().any(|client| address == client.address)
}

/// Whether two clients have the same address.
fn has_twice(clients: &[Client]) -> bool
    ensures { result ≡ comes_twice (addresses clients.now) }
{
    for (number, client) in clients.iter().enumerate() {
        if has_address(&clients[..number], client.address) {
            return true;
        }
    }
    false
}

/// The HMAC key of each client's secret. It fails only if memory is refused.
#[tactic(auto, using(crate::proofs::Keys::key_steps))]
fn hmac_keys(alloc: Global, clients: &[Client]) -> Result<Vec<HmacKey>, NoMemory>
    ensures { IfOk result (λ keys. AreKeysOf clients.now keys.items) }
{
    let mut keys = Vec::with_capacity(alloc, clients.len())?;
    for client in clients {
        keys.push(HmacKey::new(client.secret.expose()))?;
    }
    Ok(keys)
}

/// The names of the accounts, in their order. `TwiceAccount` if a name comes twice.
fn index_names(alloc: Global, accounts: &[Entry]) -> Result<IndexSet<Vec<u8>>, ConfigFault>
    ensures index { IfOk result (λ index.
        map (λ name. name.items) index.keys ≡ names accounts.now) }
    ensures differ { IfOk result (λ _. comes_twice (names accounts.now) ≡ false) }
    ensures fault { IfErr result (λ fault. fault ≢ ConfigFault.NoMemory →
        (fault ≡ ConfigFault.TwiceAccount) × (comes_twice (names accounts.now) ≡ true)) }
{
    let mut index = IndexSet::with_capacity(alloc, accounts.len())?;
    for account in accounts {
        let name = Vec::from_slice(alloc, account.name.as_bytes())?;
        if !index.insert(name)? {
            return Err(ConfigFault::TwiceAccount);
        }
    }
    Ok(index)
}

/// The accounts with their times and the seconds between their interim updates.
fn fill_times(settings: &Settings, mut accounts: Vec<Entry>) -> Vec<Entry>
    ensures { result.items ≡ map (with_times settings.now) accounts.items }
{
    for account in accounts.iter_mut() {
        account.rules = settings.rules_of(account);
        account.interim = settings.interim_of(account);
    }
    accounts
}
