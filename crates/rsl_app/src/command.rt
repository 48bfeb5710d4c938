ghost use Rattle.std.specs.Prelude.{◌≡◌, ◌≢◌, ℕ, List, IfErr, IfSome, IsErrOf, OnOk};
ghost use Rattle.std.specs.Io.KnownBytes.{Appends, Keeps};
ghost use Rattle.rsl_app.specs.Status.{IsFaultOfText};
ghost use Rattle.rsl_replay.specs.Replay.{IsReplayed};
ghost use Rattle.rsl_replay.specs.declared.fault.ReplayFault.TheVariants.{InputOutput};

use crate::arguments::ask_for_a_replay;
use crate::fault::Fault;
use rsl_replay::replay;
use std::alloc::Global;
use std::env::Env;
use std::io::{Read, Write};

/// Does what the arguments ask for: replays the script that it reads. `Usage` comes if the
/// arguments are wrong, before anything is read; every other fault is that of the replay.
#[tactic(auto, using(crate::proofs::Untouched::untouched))]
pub(crate) fn command<E: Env, R: Read, W: Write>(
    alloc: Global,
    arguments: &E,
    stdin: &mut R,
    stdout: &mut W,
) -> Result<(), Fault>
    // What is written is what the server answers to the script that was read, and nothing else.
    ensures replayed { OnOk result (IfSome (R.remaining stdin.old) (λ text.
        (written : List ℕ) × IsReplayed text written ×
        Appends (W.contents stdout.old) (W.contents stdout.new) written)) }
    // A fault of the script is its first.
    ensures fault { IfErr result (λ fault. IfSome (R.remaining stdin.old) (λ text.
        IsFaultOfText text fault)) }
    // Nothing was written after any fault but `InputOutput`.
    ensures silent { IfErr result (λ fault.
        fault ≢ Fault.Replay InputOutput → Keeps (W.contents stdout.old) (W.contents stdout.new)) }
    // If the arguments are wrong, nothing is read.
    ensures unread { IsErrOf result Fault.Usage →
        Keeps (R.remaining stdin.old) (R.remaining stdin.new) }
{
    if !ask_for_a_replay(arguments) {
        return Err(Fault::Usage);
    }
    replay(alloc, stdin, stdout)?;
    Ok(())
}
