ghost use Rattle.std.specs.Prelude.{◌≡◌};
ghost use Rattle.std.specs.Process.{exit_status};
ghost use Rattle.rld_commands.specs.Status.{exit_number, status_after};

use crate::fault::Fault;
use rld_start::EndStatus;
use std::io::Write;
use std::process::ExitCode;

/// How the program ends.
#[derive(Clone, Copy)]
pub enum Exit {
    /// As a server that starts, or that runs.
    As(EndStatus),
    /// What was to be freed or disconnected is not held.
    NotHeld,
}

impl Exit {
    /// The exit status of the process. What is not held has that of memory which was refused, as no command has
    /// both.
    pub fn number(self) -> u8
        ensures { result ≡ exit_number self }
    {
        match self {
            Exit::As(status) => status.number(),
            Exit::NotHeld => 3,
        }
    }
}

/// The exit status of the process: 0 if all was done, else that of the fault, which is written as
/// one line to standard error. If standard error takes nothing, the exit status remains.
pub fn exit_code<S: Write>(stderr: &mut S, outcome: Result<(), Fault>) -> ExitCode
    ensures { exit_status result ≡ exit_number (status_after outcome) }
{
    match outcome {
        Ok(()) => ExitCode::SUCCESS,
        Err(fault) => {
            let _ = writeln!(stderr, "{fault}");
            let _ = stderr.flush();
            ExitCode::from(fault.status().number())
        }
    }
}
