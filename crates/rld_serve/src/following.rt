ghost use Rattle.std.specs.Prelude.{◌≡◌};
ghost use Rattle.rld_serve.specs.Following.{failed_by, is_to_work};

use rld_edges::{RunFault, Start};
use rld_turn::{RecordFault, Recorded};

/// Whether a tick that ended so, or a batch of another worker meanwhile, was not recorded. `Unsynced` comes where
/// nothing more can be.
pub(crate) fn failed_by(
    ticked: Result<Recorded, RecordFault>,
    has_failed: bool,
) -> Result<bool, RunFault>
    ensures { result ≡ failed_by ticked has_failed }
{
    match ticked {
        Ok(_) => Ok(has_failed),
        Err(RecordFault::Failed) => Ok(true),
        Err(RecordFault::Ended) => Err(RunFault::Unsynced),
    }
}

/// Whether there is work to do for a worker of a server that has started so. `Threads` comes where another worker
/// has not.
pub(crate) fn is_to_work(start: Start) -> Result<bool, RunFault>
    ensures { result ≡ is_to_work start }
{
    match start {
        Start::All => Ok(true),
        Start::Over => Ok(false),
        Start::Missing => Err(RunFault::Threads),
    }
}
