ghost use Rattle.std.specs.Prelude.{◌≡◌};
ghost use Rattle.rld_serve.specs.AskFault.{octets_of_fault};
ghost use Rattle.rld_serve.specs.declared.ask_fault.AskFault.TheVariants.{Free, NoMemory as no_memory};

use rld_ask::Outcome;
use rld_control::{DisconnectFault, FreeFault};
use rsl_wire::NoMemory;
use std::alloc::{AllocError, AllocFailed};

/// Why a running server does not do a request.
#[derive(Clone, Copy)]
pub(crate) enum AskFault {
    /// The line is no command.
    UnknownCommand,
    /// No account has the name.
    UnknownAccount,
    /// No account has the name with which a page begins.
    Changed,
    /// The named session has no Stop, or the access server no Accounting-Off.
    Free(FreeFault),
    /// The Stop or the restart was not recorded, so nothing was freed.
    Unrecorded,
    /// No access server is asked to disconnect the session.
    Disconnect(DisconnectFault),
    /// The server's file says nothing of asks.
    NoAsks,
    /// The ask is not accepted.
    NotAccepted(Outcome),
    /// Memory was refused.
    NoMemory,
}

impl AskFault {
    /// The text of the answer.
    pub(crate) fn text(self) -> &'static str
        ensures { result.now ≡ octets_of_fault self }
    {
        match self {
            AskFault::UnknownCommand => "error unknown command\n",
            AskFault::UnknownAccount | AskFault::Free(FreeFault::UnknownAccount) => {
                "error unknown account\n"
            }
            AskFault::Changed => "error the accounts have changed: ask again\n",
            AskFault::Free(FreeFault::UnknownClient) => "error unknown client\n",
            AskFault::Free(FreeFault::NoSession) => "error no session can be named so\n",
            AskFault::Unrecorded => "error not recorded, and so not freed\n",
            AskFault::Disconnect(fault) => fault.answer(),
            AskFault::NoAsks => "error no [ask] in the server's file\n",
            AskFault::NotAccepted(Outcome::LimitReached) => "error session limit reached\n",
            AskFault::NotAccepted(Outcome::UnknownAccount) => "error unknown account\n",
            AskFault::NotAccepted(Outcome::Disabled) => "error account disabled\n",
            AskFault::NotAccepted(Outcome::Accepted | Outcome::Unanswered) =>
                "error not recorded\n",
            AskFault::NoMemory | AskFault::Free(FreeFault::NoMemory) => "error no memory\n",
        }
    }
}

impl From<FreeFault> for AskFault {
    ghost from_gives = { λ fault made. made ≡ Free fault };

    fn from(fault: FreeFault) -> AskFault {
        AskFault::Free(fault)
    }
}

impl From<AllocError> for AskFault {
    ghost from_gives = { λ _ made. made ≡ no_memory };

    fn from(_refused: AllocError) -> AskFault {
        AskFault::NoMemory
    }
}

impl<T: Drop> From<AllocFailed<T>> for AskFault {
    ghost from_gives = { λ _ made. made ≡ no_memory };

    fn from(_refused: AllocFailed<T>) -> AskFault {
        AskFault::NoMemory
    }
}

impl From<NoMemory> for AskFault {
    ghost from_gives = { λ _ made. made ≡ no_memory };

    fn from(_refused: NoMemory) -> AskFault {
        AskFault::NoMemory
    }
}
