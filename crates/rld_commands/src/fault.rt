ghost use Rattle.std.specs.Prelude.{◌≡◌};
ghost use Rattle.rld_commands.specs.declared.fault.Fault.TheVariants.{InputOutput, NoMemory as no_memory, Run, Start, Usage};

use crate::exit::Exit;
use crate::wrong::{BadFile, BadLog};
use rld_edges::RunFault;
use rld_start::{EndStatus, StartFault};
use rld_words::{Misuse, WordsFault};
use rsl_wire::NoMemory;
use std::alloc::AllocError;
use std::io;
use std::net::SocketAddr;
use thiserror::Error;

/// Why the program does not end well. It prints as the line for standard error.
#[derive(Debug, Drop, Error)]
pub enum Fault {
    /// The arguments are wrong.
    #[error("{0}")]
    Usage(Misuse),
    /// The server's file is wrong, or the account file that it names.
    #[error("{0}")]
    BadFile(BadFile),
    /// A log of a state folder is damaged.
    #[error("{0}")]
    BadLog(BadLog),
    /// The server does not start from its folder.
    #[error("{0}")]
    Start(StartFault),
    /// The server has not started its threads and sockets, or could not go on.
    #[error("{0}")]
    Run(RunFault),
    /// A socket cannot be bound to this address and port, for this cause.
    #[error("{0}: cannot be bound: {1}")]
    Unbound(SocketAddr, &'static str),
    /// The control socket cannot be made at this path, for this cause.
    #[error("{0}: cannot be bound: {1}")]
    Control(String, &'static str),
    /// No server answers on the control socket of this path.
    #[error("{0}: no server answers")]
    Silent(String),
    /// The running server answers no packets, or records none, for this reason.
    #[error("not ready: {0}")]
    NotReady(String),
    /// The server has not answered on the control socket of this path within this number of seconds.
    #[error("{0}: no answer within {1} s")]
    Late(String, u32),
    /// A file that was to be created exists.
    #[error("{0}: is there already, and nothing is written over")]
    Taken(String),
    /// A new file cannot be written.
    #[error("{0}: cannot be written")]
    Unwritten(String),
    /// The server does not do the request.
    #[error("{0}")]
    Refused(String),
    /// An access server has not answered the request to disconnect a session.
    #[error("no answer from the access server")]
    Unanswered,
    /// What is to be freed or disconnected is not held.
    #[error("no such session")]
    NotHeld,
    /// Nobody can be asked whether to free all sessions of an access server.
    #[error("standard input is no terminal: say --yes")]
    NoTerminal,
    /// A write failed, or the clock could not be read.
    #[error("input or output fault")]
    InputOutput,
    /// Memory was refused.
    #[error("no memory")]
    NoMemory,
    /// Memory was refused to a command whose status 3 says something else.
    #[error("no memory")]
    NoRoom,
}

impl Fault {
    ghost use Rattle.rld_commands.specs.Status.{fault_status};

    /// The exit status of the process.
    pub fn status(&self) -> Exit
        ensures { result ≡ fault_status self.now }
    {
        match self {
            Fault::Usage(_) | Fault::BadFile(_) | Fault::BadLog(_) | Fault::NoTerminal => {
                Exit::As(EndStatus::WrongInput)
            }
            Fault::Start(fault) => Exit::As(fault.status()),
            Fault::Run(fault) => Exit::As(fault.status()),
            Fault::Unbound(_, _)
            | Fault::Control(_, _)
            | Fault::Silent(_)
            | Fault::Taken(_)
            | Fault::Unwritten(_)
            | Fault::Refused(_)
            | Fault::InputOutput
            | Fault::NoRoom => Exit::As(EndStatus::InputOutput),
            Fault::NoMemory => Exit::As(EndStatus::NoMemory),
            Fault::NotReady(_) => Exit::As(EndStatus::NotReady),
            Fault::Late(_, _) | Fault::Unanswered => Exit::As(EndStatus::TimedOut),
            Fault::NotHeld => Exit::NotHeld,
        }
    }
}

impl From<Misuse> for Fault {
    ghost from_gives = { λ misuse fault. fault ≡ Usage misuse };

    fn from(misuse: Misuse) -> Fault {
        Fault::Usage(misuse)
    }
}

impl From<WordsFault> for Fault {
    ghost use Rattle.rld_commands.specs.Words.{fault_of_words};

    ghost from_gives = { λ fault made. made ≡ fault_of_words fault };

    fn from(fault: WordsFault) -> Fault {
        match fault {
            WordsFault::Misuse(misuse) => Fault::Usage(misuse),
            WordsFault::NoMemory => Fault::NoMemory,
        }
    }
}

impl From<StartFault> for Fault {
    ghost from_gives = { λ fault made. made ≡ Start fault };

    fn from(fault: StartFault) -> Fault {
        Fault::Start(fault)
    }
}

impl From<RunFault> for Fault {
    ghost from_gives = { λ fault made. made ≡ Run fault };

    fn from(fault: RunFault) -> Fault {
        Fault::Run(fault)
    }
}

impl From<AllocError> for Fault {
    ghost from_gives = { λ _ fault. fault ≡ no_memory };

    fn from(_refused: AllocError) -> Fault {
        Fault::NoMemory
    }
}

impl From<NoMemory> for Fault {
    ghost from_gives = { λ _ fault. fault ≡ no_memory };

    fn from(_refused: NoMemory) -> Fault {
        Fault::NoMemory
    }
}

impl From<io::Error> for Fault {
    ghost from_gives = { λ _ fault. fault ≡ InputOutput };

    fn from(_failed: io::Error) -> Fault {
        Fault::InputOutput
    }
}
