//! The server's file: TOML with the paths at its head, arrays of tables `listen` and `network`, and
//! tables `control`, `web`, `ask` and `trust`.
ghost use Rattle.std.specs.Prelude.{◌≡◌, ◌≢◌, ◌≤◌, Some, None, map, length, IfOk, IfErr, option_map};
ghost use Rattle.toml.specs.View.{view};
ghost use Rattle.rsl_account_file.specs.File.{file_of};
ghost use Rattle.rld_config.specs.Server.{
  ask_in,
  asks_in,
  control_in,
  each,
  head_in,
  listen_in,
  listens_in,
  listens_of,
  network_in,
  networks_in,
  networks_of,
  page_in,
  server_in,
  server_of_file,
  server_of_text,
  readers_in,
  socket_in,
  trust_in,
  web_in,
};

use crate::archive::Archive;
use crate::ask::AskSettings;
use crate::control::ControlSocket;
use crate::fault::ServerFault;
use crate::head::Head;
use crate::key::Key;
use crate::listen::{ACCT_PORT, AUTH_PORT, Listen, first_taken_port};
use crate::network::first_taken_prefix;
use crate::new_history::NewHistory;
use crate::part::Part;
use crate::sync::SyncPolicy;
use crate::trust::Trust;
use crate::value::{
    address, archive, archive_megabytes, check_names, client, flag, group, ip_address, member,
    needed_number, new_history, number, path, path_or_none, prefix, sync, tables_of,
};
use crate::web::Web;
use rld_networks::Network;
use rsl_accounts::Text;
use std::alloc::Global;
use toml::Value;

/// The most tables of the array `listen`.
const MAX_LISTENS: u64 = 16;

/// The most tables of the array `network`: as many as there may be clients.
const MAX_NETWORKS: u64 = 256;

/// The loopback address, which no other machine can reach.
const OWN_ADDRESS: [u8; 4] = [127, 0, 0, 1];

/// The default mode of the control socket: the server's user alone may ask.
const OWNERS_MODE: u16 = 0o600;

/// The contents of a server's file.
#[derive(Drop)]
pub struct ServerFile {
    /// The path of the account file: 1 to 4,095 octets without NUL, like each path.
    pub accounts: Text,
    /// The path of the state folder.
    pub state: Text,
    /// Whether a start that finds no history begins one.
    pub new_history: NewHistory,
    /// When what was recorded is synced to the disk.
    pub sync: SyncPolicy,
    /// How long files that no start needs any more are kept.
    pub archive: Archive,
    /// How many megabytes, of 1,000,000 octets, the logs of the archive may have: 1 to 65,535, by default
    /// 2,000. It is absent only where all files are kept and the file does not say it: then no log goes for
    /// its octets.
    pub archive_megabytes: Option<u16>,
    /// Where packets come to: 1 to 16, no two on one port.
    pub listens: Vec<Listen>,
    /// The networks that stand for clients: at most 256, no two with one prefix.
    pub networks: Vec<Network>,
    /// The control socket, and who may use it.
    pub control: ControlSocket,
    /// The address of the page, if it is served.
    pub web: Option<Web>,
    /// Where asks come in, if they do.
    pub ask: Option<AskSettings>,
    /// What others may do with the account file.
    pub trust: Trust,
}

impl ServerFile {
    /// The contents of a server's file from its text. The faults come in this order: `NotToml`; of
    /// the head, the first unknown key, then the first key that is absent or has a wrong value; the
    /// same of each table `listen`, in the file's order, then `TakenPort`; the same of each table
    /// `network`, then `TakenPrefix`; the same of `control`, of `web`, of `ask` and of `trust`.
    /// `NoMemory` comes if memory is refused, before the checks that follow.
    pub fn read(alloc: Global, text: &[u8]) -> Result<ServerFile, ServerFault>
        ensures ok { IfOk result (λ file. server_of_text text.now ≡ Ok (server_in file)) }
        ensures fault { IfErr result (λ fault. fault ≢ ServerFault.NoMemory →
            server_of_text text.now ≡ Err fault) }
    {
        ServerFile::of_file(alloc, &parse(alloc, text)?)
    }

    /// The contents of a server's file from its TOML table.
    #[tactic(auto, unfolding(crate::specs::Server::server_of_file))]
    fn of_file(alloc: Global, file: &Value) -> Result<ServerFile, ServerFault>
        ensures ok { IfOk result (λ server.
            server_of_file (view file.now) ≡ Ok (server_in server)) }
        ensures fault { IfErr result (λ fault. fault ≢ ServerFault.NoMemory →
            server_of_file (view file.now) ≡ Err fault) }
    {
        let head = head(alloc, file)?;
        let listens = listens(alloc, file)?;
        let networks = networks(alloc, file)?;
        let control = control(alloc, file)?;
        let web = web(alloc, file)?;
        let ask = ask(alloc, file)?;
        let trust = trust(alloc, file)?;
        Ok(ServerFile {
            accounts: head.accounts,
            state: head.state,
            new_history: head.new_history,
            sync: head.sync,
            archive: head.archive,
            archive_megabytes: head.archive_megabytes,
            listens,
            networks,
            control,
            web,
            ask,
            trust,
        })
    }
}

/// The text as a TOML table.
pub(crate) fn parse(alloc: Global, text: &[u8]) -> Result<Value, ServerFault>
    ensures ok { IfOk result (λ file. file_of text.now ≡ Some (view file)) }
    ensures fault { IfErr result (λ fault. fault ≢ ServerFault.NoMemory →
        (fault ≡ ServerFault.NotToml) × (file_of text.now ≡ None)) }
{
    match toml::table_from_slice(alloc, text) {
        Ok(table) => Ok(Value::Table(table)),
        Err(error) if error.is_memory() => Err(ServerFault::NoMemory),
        Err(_) => Err(ServerFault::NotToml),
    }
}

/// Reads the head of the file.
#[tactic(auto, unfolding(crate::specs::Server::head_in))]
fn head(alloc: Global, file: &Value) -> Result<Head, ServerFault>
    ensures ok { IfOk result (λ head. head_in (view file.now) ≡ Ok head) }
    ensures fault { IfErr result (λ fault. fault ≢ ServerFault.NoMemory →
        head_in (view file.now) ≡ Err fault) }
{
    check_names(alloc, Part::Head, file)?;
    let accounts = path(alloc, Part::Head, file, Key::Accounts)?;
    let state = path(alloc, Part::Head, file, Key::State)?;
    let new_history = new_history(file)?;
    let sync = sync(file)?;
    let archive = archive(file)?;
    Ok(Head {
        accounts,
        state,
        new_history,
        sync,
        archive,
        archive_megabytes: archive_megabytes(file, archive)?,
    })
}

/// Reads a table `listen`.
#[tactic(auto, unfolding(crate::specs::Server::listen_in))]
fn listen(alloc: Global, number_of_table: u64, table: &Value) -> Result<Listen, ServerFault>
    ensures ok { IfOk result (λ listen. listen_in number_of_table (view table.now) ≡ Ok listen) }
    ensures fault { IfErr result (λ fault. fault ≢ ServerFault.NoMemory →
        listen_in number_of_table (view table.now) ≡ Err fault) }
{
    let part = Part::Listen(number_of_table);
    check_names(alloc, part, table)?;
    Ok(Listen {
        address: ip_address(part, table)?,
        auth: number(part, table, Key::Auth, AUTH_PORT)?,
        acct: number(part, table, Key::Acct, ACCT_PORT)?,
        receivers: number(part, table, Key::Receivers, 1)?,
        status_server: flag(part, table, Key::StatusServer)?,
    })
}

/// Reads each table `listen`, in the file's order.
fn listens_of_tables(alloc: Global, tables: &[Value]) -> Result<Vec<Listen>, ServerFault>
    requires { length tables.now ≤ 16 }
    ensures ok { IfOk result (λ listens. each listen_in 1 (map view tables.now) ≡ Ok listens.items) }
    ensures fault { IfErr result (λ fault. fault ≢ ServerFault.NoMemory →
        each listen_in 1 (map view tables.now) ≡ Err fault) }
    ensures few { IfOk result (λ listens. length listens.items ≤ 16) }
{
    let mut listens = Vec::with_capacity(alloc, tables.len())?;
    for (number, table) in tables.iter().enumerate() {
        listens.push(listen(alloc, number as u64 + 1, table)?)?;
    }
    Ok(listens)
}

/// Reads each table `listen`, in the file's order; no two sockets may have one port.
#[tactic(auto, unfolding(crate::specs::Server::listens_of))]
fn listens_apart(alloc: Global, tables: &[Value]) -> Result<Vec<Listen>, ServerFault>
    requires { length tables.now ≤ 16 }
    ensures ok { IfOk result (λ listens. listens_of (map view tables.now) ≡ Ok listens.items) }
    ensures fault { IfErr result (λ fault. fault ≢ ServerFault.NoMemory →
        listens_of (map view tables.now) ≡ Err fault) }
{
    let listens = listens_of_tables(alloc, tables)?;
    match first_taken_port(listens.as_slice()) {
        Some(fault) => Err(fault),
        None => Ok(listens),
    }
}

/// Reads the array `listen`, or gives its default.
#[tactic(auto, unfolding(crate::specs::Server::listens_in))]
fn listens(alloc: Global, file: &Value) -> Result<Vec<Listen>, ServerFault>
    ensures ok { IfOk result (λ listens. listens_in (view file.now) ≡ Ok listens.items) }
    ensures fault { IfErr result (λ fault. fault ≢ ServerFault.NoMemory →
        listens_in (view file.now) ≡ Err fault) }
{
    match member(file, Key::Listen) {
        Some(value) => match tables_of(value, MAX_LISTENS) {
            Some(tables) => listens_apart(alloc, tables),
            None => Err(ServerFault::BadValue(Part::Head, Key::Listen)),
        },
        None => Ok(vec![in alloc; Listen::standard()]?),
    }
}

/// Reads a table `network`.
#[tactic(auto, unfolding(crate::specs::Server::network_in))]
fn network(alloc: Global, number_of_table: u64, table: &Value) -> Result<Network, ServerFault>
    ensures ok { IfOk result (λ network. network_in number_of_table (view table.now) ≡ Ok network) }
    ensures fault { IfErr result (λ fault. fault ≢ ServerFault.NoMemory →
        network_in number_of_table (view table.now) ≡ Err fault) }
{
    let part = Part::Network(number_of_table);
    check_names(alloc, part, table)?;
    Ok(Network {
        prefix: prefix(part, table)?,
        client: client(part, table)?,
    })
}

/// Reads each table `network`, in the file's order.
fn networks_of_tables(alloc: Global, tables: &[Value]) -> Result<Vec<Network>, ServerFault>
    requires { length tables.now ≤ 256 }
    ensures ok { IfOk result (λ networks.
        each network_in 1 (map view tables.now) ≡ Ok networks.items) }
    ensures fault { IfErr result (λ fault. fault ≢ ServerFault.NoMemory →
        each network_in 1 (map view tables.now) ≡ Err fault) }
    ensures few { IfOk result (λ networks. length networks.items ≤ 256) }
{
    let mut networks = Vec::with_capacity(alloc, tables.len())?;
    for (number, table) in tables.iter().enumerate() {
        networks.push(network(alloc, number as u64 + 1, table)?)?;
    }
    Ok(networks)
}

/// Reads each table `network`, in the file's order; no two networks may have one prefix.
#[tactic(auto, unfolding(crate::specs::Server::networks_of))]
fn networks_apart(alloc: Global, tables: &[Value]) -> Result<Vec<Network>, ServerFault>
    requires { length tables.now ≤ 256 }
    ensures ok { IfOk result (λ networks.
        networks_of (map view tables.now) ≡ Ok networks.items) }
    ensures fault { IfErr result (λ fault. fault ≢ ServerFault.NoMemory →
        networks_of (map view tables.now) ≡ Err fault) }
{
    let networks = networks_of_tables(alloc, tables)?;
    match first_taken_prefix(networks.as_slice()) {
        Some(fault) => Err(fault),
        None => Ok(networks),
    }
}

/// Reads the array `network`, or gives none.
#[tactic(auto, unfolding(crate::specs::Server::networks_in))]
fn networks(alloc: Global, file: &Value) -> Result<Vec<Network>, ServerFault>
    ensures ok { IfOk result (λ networks. networks_in (view file.now) ≡ Ok networks.items) }
    ensures fault { IfErr result (λ fault. fault ≢ ServerFault.NoMemory →
        networks_in (view file.now) ≡ Err fault) }
{
    match member(file, Key::Network) {
        Some(value) => match tables_of(value, MAX_NETWORKS) {
            Some(tables) => networks_apart(alloc, tables),
            None => Err(ServerFault::BadValue(Part::Head, Key::Network)),
        },
        None => Ok(Vec::new(alloc)),
    }
}

/// Reads a table `control`.
#[tactic(auto, unfolding(crate::specs::Server::socket_in))]
fn socket(alloc: Global, table: &Value) -> Result<ControlSocket, ServerFault>
    ensures ok { IfOk result (λ socket. socket_in (view table.now) ≡ Ok socket) }
    ensures fault { IfErr result (λ fault. fault ≢ ServerFault.NoMemory →
        socket_in (view table.now) ≡ Err fault) }
{
    check_names(alloc, Part::Control, table)?;
    Ok(ControlSocket {
        path: path_or_none(alloc, Part::Control, table, Key::Socket)?,
        mode: number(Part::Control, table, Key::Mode, OWNERS_MODE)?,
        group: group(alloc, Part::Control, table)?,
    })
}

/// Reads the table `control`, or gives its default.
#[tactic(auto, unfolding(crate::specs::Server::control_in))]
fn control(alloc: Global, file: &Value) -> Result<ControlSocket, ServerFault>
    ensures ok { IfOk result (λ socket. control_in (view file.now) ≡ Ok socket) }
    ensures fault { IfErr result (λ fault. fault ≢ ServerFault.NoMemory →
        control_in (view file.now) ≡ Err fault) }
{
    match member(file, Key::Control) {
        Some(table) if table.is_table() => socket(alloc, table),
        Some(_) => Err(ServerFault::BadValue(Part::Head, Key::Control)),
        None => Ok(ControlSocket {
            path: None,
            mode: OWNERS_MODE,
            group: None,
        }),
    }
}

/// Reads a table `web`.
#[tactic(auto, unfolding(crate::specs::Server::page_in))]
fn page(alloc: Global, table: &Value) -> Result<Web, ServerFault>
    ensures ok { IfOk result (λ web. page_in (view table.now) ≡ Ok web) }
    ensures fault { IfErr result (λ fault. fault ≢ ServerFault.NoMemory →
        page_in (view table.now) ≡ Err fault) }
{
    check_names(alloc, Part::Web, table)?;
    Ok(Web {
        address: address(Part::Web, table, OWN_ADDRESS)?,
        port: needed_number(Part::Web, table, Key::Port)?,
    })
}

/// Reads the table `web`, if there is one.
#[tactic(auto, unfolding(crate::specs::Server::web_in))]
fn web(alloc: Global, file: &Value) -> Result<Option<Web>, ServerFault>
    ensures ok { IfOk result (λ web. web_in (view file.now) ≡ Ok web) }
    ensures fault { IfErr result (λ fault. fault ≢ ServerFault.NoMemory →
        web_in (view file.now) ≡ Err fault) }
{
    match member(file, Key::Web) {
        Some(table) if table.is_table() => Ok(Some(page(alloc, table)?)),
        Some(_) => Err(ServerFault::BadValue(Part::Head, Key::Web)),
        None => Ok(None),
    }
}

/// Reads a table `ask`.
#[tactic(auto, unfolding(crate::specs::Server::asks_in))]
fn asks(alloc: Global, table: &Value) -> Result<AskSettings, ServerFault>
    ensures ok { IfOk result (λ ask. asks_in (view table.now) ≡ Ok ask) }
    ensures fault { IfErr result (λ fault. fault ≢ ServerFault.NoMemory →
        asks_in (view table.now) ≡ Err fault) }
{
    check_names(alloc, Part::Ask, table)?;
    Ok(AskSettings {
        address: address(Part::Ask, table, OWN_ADDRESS)?,
        port: needed_number(Part::Ask, table, Key::Port)?,
        token_file: path(alloc, Part::Ask, table, Key::TokenFile)?,
        client: client(Part::Ask, table)?,
    })
}

/// Where asks come in, if they do.
#[tactic(auto, unfolding(crate::specs::Server::ask_in))]
fn ask(alloc: Global, file: &Value) -> Result<Option<AskSettings>, ServerFault>
    ensures ok { IfOk result (λ ask. ask_in (view file.now) ≡ Ok ask) }
    ensures fault { IfErr result (λ fault. fault ≢ ServerFault.NoMemory →
        ask_in (view file.now) ≡ Err fault) }
{
    match member(file, Key::Ask) {
        Some(table) if table.is_table() => Ok(Some(asks(alloc, table)?)),
        Some(_) => Err(ServerFault::BadValue(Part::Head, Key::Ask)),
        None => Ok(None),
    }
}

/// Reads a table `trust`.
#[tactic(auto, unfolding(crate::specs::Server::readers_in))]
fn readers(alloc: Global, table: &Value) -> Result<Trust, ServerFault>
    ensures ok { IfOk result (λ trust. readers_in (view table.now) ≡ Ok trust) }
    ensures fault { IfErr result (λ fault. fault ≢ ServerFault.NoMemory →
        readers_in (view table.now) ≡ Err fault) }
{
    check_names(alloc, Part::Trust, table)?;
    Ok(Trust {
        readable_accounts: flag(Part::Trust, table, Key::ReadableAccounts)?,
    })
}

/// Reads the table `trust`. By default others may do nothing.
#[tactic(auto, unfolding(crate::specs::Server::trust_in))]
fn trust(alloc: Global, file: &Value) -> Result<Trust, ServerFault>
    ensures ok { IfOk result (λ trust. trust_in (view file.now) ≡ Ok trust) }
    ensures fault { IfErr result (λ fault. fault ≢ ServerFault.NoMemory →
        trust_in (view file.now) ≡ Err fault) }
{
    match member(file, Key::Trust) {
        Some(table) if table.is_table() => readers(alloc, table),
        Some(_) => Err(ServerFault::BadValue(Part::Head, Key::Trust)),
        None => Ok(Trust {
            readable_accounts: false,
        }),
    }
}
