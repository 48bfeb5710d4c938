ghost use Rattle.std.specs.Prelude.{◌≡◌};
ghost use Rattle.rld_commands.specs.Status.{without_no_memory};

use crate::ask::ask;
use crate::check::check;
use crate::export::export;
use crate::fault::Fault;
use crate::free::free;
use crate::init::init;
use crate::lines::lines;
use crate::rebase::rebase;
use crate::reply::reply;
use crate::sessions::sessions;
use rld_words::{Given, Misuse, Topic};
use rsl_reply::Dictionary;
use std::alloc::Global;
use std::fs::{File, Files};
use std::io::{IsTerminal, Read, Write};
use std::net::Net;
use std::time::Clock;

/// Does what a command other than `run` is for. `words` are its name and the words after it, as many as it takes;
/// `names` are those that attributes have; `stdin` is where someone may be asked, `stdout` what a command prints on,
/// and `stderr` what is said beside it.
///
/// The command's own function says each fault and when it comes. `Usage` comes for words that are none of the
/// command's.
pub fn carry_out<R, I: Read + IsTerminal, W: Write, S: Write + IsTerminal>(
    rt: &R,
    names: &Dictionary,
    topic: Topic,
    words: &[String],
    stdin: &mut I,
    stdout: &mut W,
    stderr: &mut S,
) -> Result<(), Fault>
where
    R: Files<File = File> + Net + Alloc<A = Global> + Clone + Drop + Clock,
{
    let alloc = rt.alloc();
    let [_, words @ ..] = words else {
        return Err(Fault::Usage(Misuse::Words(topic)));
    };
    let given = Given::of_words(alloc, topic, words)?;
    match (topic, given.plain()) {
        (Topic::Check, [file]) => check(rt, alloc, names, file, stdout),
        (Topic::Init, [folder]) => init(rt, alloc, folder, stdout),
        (Topic::Lines, logs) => lines(rt, alloc, logs, stdout, stderr),
        (Topic::Export, _) => export(rt, alloc, &given, stdout, stderr),
        (Topic::Reply, [name, file]) => reply(rt, alloc, names, name, file, stdout),
        (Topic::Rebase, [file]) => rebase(rt, alloc, names, file, stdout),
        (Topic::Sessions, _) => sessions(rt, alloc, &given, stdout, stderr),
        (Topic::Free, _) => without_no_memory(free(rt, alloc, &given, stdin, stdout, stderr)),
        (Topic::Disconnect, _) => {
            without_no_memory(ask(rt, alloc, topic, &given, stdout, stderr))
        }
        _ => ask(rt, alloc, topic, &given, stdout, stderr),
    }
}

/// The outcome of a command whose status 3 says that a session is not held: memory that was refused has the status
/// of what could not be done.
fn without_no_memory(outcome: Result<(), Fault>) -> Result<(), Fault>
    ensures { result ≡ without_no_memory outcome }
{
    match outcome {
        Err(Fault::NoMemory) => Err(Fault::NoRoom),
        outcome => outcome,
    }
}
