use rsl_record::ExitStatus;
use rsl_replay::ReplayFault;
use rsl_serve::ServeFault;
use thiserror::Error;

/// Why the program does not end well. It prints as the line for standard error.
#[derive(Debug, Drop, Error)]
pub(crate) enum Fault {
    /// The arguments are wrong.
    #[error("usage: radlimit replay or radlimit serve FILE ADDRESS AUTHPORT ACCTPORT TURNS")]
    Usage,
    /// The script was not replayed.
    #[error("{0}")]
    Replay(ReplayFault),
    /// The server has not started, or has not ended well. It is never `ServeFault::Usage`, which
    /// becomes `Usage`.
    #[error("{0}")]
    Serve(ServeFault),
}

impl Fault {
    ghost use Rattle.std.specs.Prelude.{◌≡◌};
    ghost use Rattle.rsl_app.specs.Status.{fault_status};

    /// The exit status of the process.
    pub(crate) fn status(self) -> ExitStatus
        ensures { result ≡ fault_status self }
    {
        match self {
            Fault::Usage => ExitStatus::WrongInput,
            Fault::Replay(fault) => fault.status(),
            Fault::Serve(fault) => fault.status(),
        }
    }
}

impl From<ReplayFault> for Fault {
    ghost use Rattle.std.specs.Prelude.{◌≡◌};
    ghost use Rattle.rsl_app.specs.declared.fault.Fault.TheVariants.{Replay};

    ghost from_gives = { λ fault made. made ≡ Replay fault };

    fn from(fault: ReplayFault) -> Fault {
        Fault::Replay(fault)
    }
}

impl From<ServeFault> for Fault {
    ghost use Rattle.std.specs.Prelude.{◌≡◌};
    ghost use Rattle.rsl_app.specs.Status.{fault_of_server};

    ghost from_gives = { λ fault made. made ≡ fault_of_server fault };

    fn from(fault: ServeFault) -> Fault {
        match fault {
            ServeFault::Usage => Fault::Usage,
            _ => Fault::Serve(fault),
        }
    }
}
