//! The program `radlimit`. `radlimit replay` reads a script of datagrams from standard input, gives
//! them to the server one after the other, and prints the answer to each; `radlimit serve` receives
//! datagrams on two sockets and answers them. This crate has the edges of the process: its
//! arguments, its three streams and its exit status. `rsl_replay` and `rsl_serve` have the rest. It
//! promises:
//! - What was written after a success is what `run` answers to the script, and the report
//!   (`command`: `replayed`); after every fault but that of a read or a write nothing was written
//!   (`command`: `silent`). The first speaks of streams whose contents are known.
//! - The exit status is 0 after a success, and else that of the fault: 1 for wrong arguments and a
//!   wrong script, 2 for a read or a write that failed, 3 when out of memory (`exit_code`;
//!   `Fault::status`).
//!
//! `main` has no clause. By tests alone (`tests/programs/streams.py`): which arguments are read,
//! the line on standard error, and that all that was written is passed on.
#![tactic(auto)]

mod arguments;
mod command;
mod exit;
mod fault;

use arguments::ask_to_serve;
use command::command;
use exit::exit_code;
use fault::Fault;
use rsl_dictionary::dictionary;
use rsl_serve::{ServeFault, serve};
use std::process::ExitCode;

fn main(rt: HostRuntime) -> ExitCode {
    let outcome = if ask_to_serve(&rt) {
        match dictionary(rt.alloc()) {
            Ok(names) => serve(&rt, &names, &mut rt.stdout())
                .map(|_closed| ())
                .map_err(Fault::from),
            Err(_) => Err(Fault::Serve(ServeFault::NoMemory)),
        }
    } else {
        command(rt.alloc(), &rt, &mut rt.stdin(), &mut rt.stdout())
    };
    exit_code(&mut rt.stderr(), outcome)
}
