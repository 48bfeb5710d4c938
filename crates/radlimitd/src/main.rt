//! The program `radlimitd`, the operator's server. `radlimitd run FILE` is the server; the crate
//! `rld_commands` has the other commands, and `rld_words` their words. This crate has the edges of
//! the process. It promises:
//! - As `serve` requires, a server runs with the store that its start gave, of the accounts that
//!   were read, and with the networks of its file, which fit these accounts, also after a reload
//!   (private: `run`).
//! - It has a page exactly where its file has one (private: `web_of`: `none`, `some`), and asks
//!   come in only where its file says so, as the client named there (private: `asks_of`: `none`,
//!   `client`).
//! - Its control socket is given the file's mode, and its folder the file's archive (private:
//!   `access_of`; `generations_of`: `archive`).
//!
//! By tests alone: with which status `run` ends (`tests/programs/streams.py`); that a server which
//! is killed and started again goes on (`tests/programs/radclient-run.sh`,
//! `tests/programs/killed-server.py`).
#![tactic(auto)]

mod accounts;
mod asks;
mod binding;
mod core_dump;
mod greeting;
mod group;
mod pace;
mod proof;
mod run;
mod sink;
mod starting;

use rld_commands::{Fault, carry_out, exit_code};
use rld_words::{Command, Misuse, Topic, VERSION_HELP};
use rsl_dictionary::dictionary;
use run::run;
use std::alloc::Global;
use std::env::{self, Env};
use std::fs::{File, Files};
use std::io::{self, ErrorKind, IsTerminal, Read, Write};
use std::net::{Net, TcpListener, TcpStream};
use std::process::ExitCode;
use std::sync::Wait;
use std::thread::Threads;
use std::time::Clock;

/// The version of the program: the next one with `~dev`, until that is released.
pub(crate) const VERSION: &str = "0.4.0~dev";

/// The commands of the program.
const HELP: &str = "\
radlimitd keeps how many sessions each account has, and answers RADIUS by it.

    radlimitd init FOLDER      writes a server's file and an account file, with a random secret
    radlimitd check FILE       says what is wrong with a server's file, or with its account file
    radlimitd reply NAME FILE  prints what an accept of an account has
    radlimitd run FILE         runs the server of this file, until it is killed
    radlimitd lines FILE..     prints the changes that logs of a state folder have, each with its decision
    radlimitd export [--csv] [--since MOMENT] [--until MOMENT] FILE
                               prints the sessions that logs have, with their ends
    radlimitd rebase FILE      cuts a state folder to the present, after a clock was ahead

What a running server is asked:

    radlimitd ready FILE       whether it answers packets and records: for checks
    radlimitd status [--timeout SECONDS] [--json] FILE
                               what it is and does
    radlimitd accounts [--timeout SECONDS] [--json] [--held | --full] FILE
                               what each of its accounts holds, or of those that hold a place or are full
    radlimitd sessions [--timeout SECONDS] [--json] [NAME | FLAG WORD ..] FILE
                               the links of an account, or of all, each as `free` wants it
    radlimitd free NAME CLIENT NAS SESSION FILE
                               to free the place of a session that its access server has forgotten, or with
                               --nas NAS CLIENT those of all its sessions
    radlimitd disconnect NAME CLIENT NAS SESSION FILE
                               to have the access server end a session, and to free its place
    radlimitd ask NAME FIELD=VALUE.. FILE
                               for a place of an account that was checked elsewhere
    radlimitd reload [--timeout SECONDS] FILE
                               to read its accounts anew, and go on by them
    radlimitd stop FILE        to end

    radlimitd help COMMAND     says more of one, with an example and its exit statuses; so does COMMAND --help
    radlimitd version          prints the version

Flags may stand in any order, before or after other words. FILE is the server's file, radlimitd.conf(5), which names
the account file, radlimit-accounts(5).
";

fn main(rt: HostRuntime) -> ExitCode {
    let outcome = work(
        &rt,
        &rt,
        &mut rt.stdin(),
        &mut rt.stdout(),
        &mut rt.stderr(),
    );
    exit_code(&mut rt.stderr(), outcome)
}

/// Does what the arguments ask for, and writes the result.
fn work<R, I: Read + IsTerminal, W: Write, S: Write + IsTerminal>(
    rt: &R,
    files: &HostRuntime,
    stdin: &mut I,
    stdout: &mut W,
    stderr: &mut S,
) -> Result<(), Fault>
where
    R: Env
        + Files<File = File>
        + Net<Listener = TcpListener, Stream = TcpStream>
        + Alloc<A = Global>
        + Clone
        + Drop
        + Eprint
        + Clock
        + Threads
        + Wait
        + Sync,
{
    let alloc = rt.alloc();
    let mut words = match env::args(rt) {
        Ok(words) => words,
        Err(error) => return Err(fault_of_arguments(error)),
    };
    let _ = words.next();
    let words: Vec<String> = words.collect(alloc)?;
    let topic = match Command::of_words(words.as_slice()) {
        Ok(Command::Do(topic)) => topic,
        Ok(Command::HelpOn(topic)) => return say(stdout, topic.help()),
        Ok(Command::Help) => return say(stdout, HELP),
        Ok(Command::HelpOnVersion) => return say(stdout, VERSION_HELP),
        Ok(Command::Version) => return say_version(stdout),
        Err(misuse) => return Err(Fault::Usage(misuse)),
    };
    let names = dictionary(alloc)?;
    match (topic, words.as_slice()) {
        (Topic::Run, [_, file]) => run(rt, files, alloc, &names, file.as_str()),
        (topic, words) => carry_out(rt, &names, topic, words, stdin, stdout, stderr),
    }
}

/// Why the arguments cannot be read: one is not UTF-8, or memory is refused.
fn fault_of_arguments(error: io::Error) -> Fault {
    match error.kind() {
        ErrorKind::OutOfMemory => Fault::NoMemory,
        _ => Fault::Usage(Misuse::NotUtf8),
    }
}

/// Writes the name and the version of the program.
fn say_version<W: Write>(writer: &mut W) -> Result<(), Fault> {
    writeln!(writer, "radlimitd {VERSION}")?;
    Ok(writer.flush()?)
}

/// Writes a text.
fn say<W: Write>(writer: &mut W, text: &str) -> Result<(), Fault> {
    writer.write_all(text.as_bytes())?;
    Ok(writer.flush()?)
}
