ghost use Rattle.std.specs.Prelude.{◌≡◌, IfNone, IfOk, IfSome, None};
ghost use Rattle.std.specs.Net.Addr.{ipv4_octets};
ghost use Rattle.std.specs.Net.Socket.{v4_ip, v4_port};

use crate::VERSION;
use crate::accounts::ServerAccounts;
use crate::asks::asks_of;
use crate::binding::sockets_of;
use crate::core_dump::leave_memory_out;
use crate::greeting::{FirstLines, greeting_of};
use crate::group::group_number;
use crate::pace::pace_of;
use crate::proof::proof_in;
use crate::sink::sink_of;
use crate::starting::{Begun, start_in_room};
use rld_commands::{AccountFile, Fault, accounts_for, cause_of, server_file, unknown_group};
use rld_config::{ControlSocket, NewHistory, Paths, ServerFile};
use rld_folder::Folder;
use rld_log::{Pacing, Ticks};
use rld_look::Build;
use rld_serve::{Access, Control, Plan, serve};
use rld_start::{FolderGenerations, StartFault, Started, open_folder};
use rld_web::Web;
use rsl_event::Source;
use rsl_port::socket_addr;
use rsl_reply::Dictionary;
use std::alloc::Global;
use std::env::Env;
use std::fs::{File, Files};
use std::hash::RandomState;
use std::io::ErrorKind;
use std::net::{Net, TcpListener, TcpStream};
use std::sync::{Arc, Wait};
use std::thread::Threads;
use std::time::Clock;

/// Runs the server of this file until it is killed or cannot go on.
///
/// What keeps it from starting comes in this order: the clock, the server's file, the account file;
/// a network whose client is not in the account file, whose client need not sign under a guard, or
/// that takes another client's address; an account file that others may write to or read; a state
/// folder that is not there, if it must have a history; `busy`, if another process has it, or what
/// is wrong with the folder itself; a socket that
/// cannot be bound, those of RADIUS before that of the page and that of asks, before which the file
/// with their token is read; a group that the system does not know;
/// a control socket that cannot be made; and last what is wrong with the files of the folder. So if
/// an address, a port or a path cannot be used, nothing has changed in the folder, except that it
/// may be new, with an empty `lock` in it.
///
/// A running server reads its files by `files`: a thread can be given no other handle to files than
/// the system's own.
pub(crate) fn run<R>(
    rt: &R,
    files: &HostRuntime,
    alloc: Global,
    names: &Dictionary,
    name: &str,
) -> Result<(), Fault>
where
    R: Env
        + Files<File = File>
        + Net<Listener = TcpListener, Stream = TcpStream>
        + Alloc<A = Global>
        + Clone
        + Drop
        + Eprint
        + Clock
        + Threads
        + Wait
        + Sync,
{
    leave_memory_out(rt);
    let now = rt.since_1970()?.as_secs();
    let sink = sink_of(rt, alloc)?;
    let build = Build {
        version: VERSION,
        proof: proof_in(rt, alloc)?,
    };
    let server = server_file(rt, alloc, name)?;
    let paths = Paths::of(alloc, name, &server)?;
    let path = paths.accounts.as_str();
    let AccountFile { config, .. } = accounts_for(rt, alloc, names, name, &server, path)?;
    let Ok(config) = Arc::new(alloc, config) else {
        return Err(Fault::NoMemory);
    };
    let state = paths.state.as_str();
    check_free(rt, alloc, state, server.new_history)?;
    let sockets = sockets_of(rt, alloc, server.listens.as_slice())?;
    let web = web_of(rt, files, alloc, server.web)?;
    let asks = asks_of(rt, alloc, &server, token_path(&paths))?;
    let access = access_of(rt, alloc, name, &server.control)?;
    let control = match Control::bind(rt, alloc, paths.control.as_str(), access) {
        Ok(control) => control,
        Err(error) if error.kind() == ErrorKind::OutOfMemory => return Err(Fault::NoMemory),
        Err(error) => {
            let path = String::from_str(alloc, paths.control.as_str())?;
            return Err(Fault::Control(path, cause_of(error.kind())));
        }
    };
    let ticks = Ticks::new();
    let pacing = Pacing {
        pace: pace_of(server.sync),
        ticks: &ticks,
    };
    let Begun { started, room } = start_in_room(
        rt,
        alloc,
        &config,
        state,
        server.new_history,
        now,
        pacing,
    )?;
    let lines = FirstLines {
        name,
        paths: &paths,
        server: &server,
        config: &*config,
    };
    let greeting = greeting_of(alloc, &build, &lines, room.as_str(), &started.found)?;
    let Started {
        folder,
        store,
        key,
        ..
    } = started;
    let generations = generations_of(files, folder, &server);
    let accounts = ServerAccounts {
        files,
        names,
        name,
        server: &server,
        path,
    };
    let plan = Plan {
        build,
        names,
        networks: server.networks.as_slice(),
        start: now,
        pacing,
        greeting: greeting.as_str(),
        sink,
    };
    Ok(serve(
        rt,
        files,
        alloc,
        plan,
        &sockets,
        &control,
        web.as_ref(),
        asks.as_ref(),
        &generations,
        &accounts,
        store,
        key,
    )?)
}

/// The path of the file with the token of asks, if they come in.
fn token_path(paths: &Paths) -> Option<&str> {
    match &paths.token {
        Some(path) => Some(path.as_str()),
        None => None,
    }
}

/// The logs of a folder, whose archive is kept as the server's file says.
fn generations_of<'a, F: Files<File = File>>(
    files: &'a F,
    folder: Folder,
    server: &ServerFile,
) -> FolderGenerations<'a, F>
    ensures folder { result.folder ≡ folder }
    ensures archive { result.archive ≡ server.now.archive }
    ensures megabytes { result.megabytes ≡ server.now.archive_megabytes }
{
    FolderGenerations::new(files, folder, server.archive, server.archive_megabytes)
}

/// Who may use the control socket, by the server's file of this name. The group's fault comes if
/// the system knows no group of its name.
fn access_of<F: Files>(
    files: &F,
    alloc: Global,
    name: &str,
    control: &ControlSocket,
) -> Result<Access, Fault>
    ensures { IfOk result (λ access. access.mode ≡ control.now.mode) }
{
    let group = group_of(files, alloc, name, control)?;
    Ok(Access {
        mode: u32::from(control.mode),
        group,
    })
}

/// The number of the control socket's group, if its file has one.
fn group_of<F: Files>(
    files: &F,
    alloc: Global,
    name: &str,
    control: &ControlSocket,
) -> Result<Option<u32>, Fault> {
    let Some(group) = &control.group else {
        return Ok(None);
    };
    match group_number(files, alloc, group.as_str())? {
        Some(number) => Ok(Some(number)),
        None => unknown_group(files, alloc, name, group.as_str()),
    }
}

/// The page of the server, if its file has one. `Unbound` comes if its address and port cannot be
/// bound.
fn web_of<N: Net<Listener = TcpListener, Stream = TcpStream>>(
    net: &N,
    source: &HostRuntime,
    alloc: Global,
    web: Option<rld_config::Web>,
) -> Result<Option<Web>, Fault>
    ensures none { IfNone web (IfOk result (λ page. page ≡ None)) }
    ensures some { IfSome web (λ _. IfOk result (λ page. page ≡ None → ⊥)) }
    ensures address { IfSome web (λ wanted. IfOk result (λ page. IfSome page (λ page.
        ipv4_octets (v4_ip page.place) ≡ wanted.address))) }
    ensures port { IfSome web (λ wanted. IfOk result (λ page. IfSome page (λ page.
        v4_port page.place ≡ wanted.port))) }
{
    let Some(web) = web else {
        return Ok(None);
    };
    let address = web.address;
    let port = web.port;
    match Web::bind(net, alloc, RandomState::new(source)?, address, port) {
        Ok(web) => Ok(Some(web)),
        Err(error) => {
            let address = socket_addr(Source { address, port });
            Err(Fault::Unbound(address, cause_of(error.kind())))
        }
    }
}

/// Checks that no other process has the state folder, before a socket is bound: the ports of a
/// running server are taken too, and `busy` says more.
fn check_free<F: Files<File = File>>(
    files: &F,
    alloc: Global,
    path: &str,
    new_history: NewHistory,
) -> Result<(), StartFault> {
    let _folder = open_folder(files, alloc, path, new_history)?;
    Ok(())
}
