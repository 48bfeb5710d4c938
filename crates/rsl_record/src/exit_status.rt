ghost use Rattle.std.specs.Prelude.{◌≡◌};
ghost use Rattle.rsl_record.specs.ExitStatus.{number_of};

/// How a program ends: its exit status.
#[derive(Clone, Copy)]
pub enum ExitStatus {
    /// All was done.
    Done,
    /// The arguments are wrong, or the script or the account file is.
    WrongInput,
    /// A read, a write or another call to the system failed.
    InputOutput,
    /// Memory was refused.
    NoMemory,
}

impl ExitStatus {
    /// The exit status of the process: 0 if all was done, 1 for wrong input, 2 if a system call
    /// failed, and 3 if memory was refused.
    pub fn number(self) -> u8
        ensures { result ≡ number_of self }
    {
        match self {
            ExitStatus::Done => 0,
            ExitStatus::WrongInput => 1,
            ExitStatus::InputOutput => 2,
            ExitStatus::NoMemory => 3,
        }
    }
}
