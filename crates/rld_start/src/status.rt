ghost use Rattle.std.specs.Prelude.{◌≡◌};
ghost use Rattle.rld_start.specs.Status.{number_of};

/// How a server ends: its exit status.
#[derive(Clone, Copy)]
pub enum EndStatus {
    /// All was done.
    Done,
    /// A file that the operator wrote is wrong, or the state folder does not fit it.
    WrongInput,
    /// A call to the system failed, or another server has the folder.
    InputOutput,
    /// Memory was refused.
    NoMemory,
    /// The disk could not be synced.
    Unsynced,
    /// A running server answers no packets, or records none.
    NotReady,
    /// A running server has not answered in time.
    TimedOut,
}

impl EndStatus {
    /// The exit status of the process: 0 if all was done, 1 for wrong input and a server that is not
    /// ready, 2 if a system call failed, 3 if memory was refused, 4 for a disk that cannot be
    /// synced, and 5 for an answer that has not come in time.
    pub fn number(self) -> u8
        ensures { result ≡ number_of self }
    {
        match self {
            EndStatus::Done => 0,
            EndStatus::WrongInput | EndStatus::NotReady => 1,
            EndStatus::InputOutput => 2,
            EndStatus::NoMemory => 3,
            EndStatus::Unsynced => 4,
            EndStatus::TimedOut => 5,
        }
    }
}
