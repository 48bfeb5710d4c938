ghost use Rattle.std.specs.Prelude.{◌≢◌, ◌≤◌, ℕ, List, IfErr, IfOk, IfSome, OnOk, length};
ghost use Rattle.std.specs.Io.KnownBytes.{Appends, Keeps};
ghost use Rattle.rsl_replay.specs.Replay.{IsFaultOf, IsReplayed, most_octets};
ghost use Rattle.rsl_record.specs.Output.{output_octets};

use crate::fault::ReplayFault;
use crate::lines::lines_of;
use crate::rows::rows_of;
use crate::steps::steps_of;
use rsl_account_file::read_text;
use rsl_accounts::Config;
use rsl_record::{Output, table_of};
use rsl_script::Script;
use rsl_steps::run;
use std::alloc::Global;
use std::io::{Read, Write};

/// The most octets of a script.
const MAX_SCRIPT_LEN: u32 = 1_048_576;

/// The boot number of a server that replays a script.
const BOOT: u64 = 1;

/// Replays a script: gives its event lines to the server one after the other, and writes one line
/// for each; then a report of what each account holds.
///
/// The faults come in this order, and nothing is written before the last: `InputOutput` if a read
/// fails or 2,097,152 reads have come to no end, and `TooLong` if the script has over 1,048,576
/// octets, whichever comes first; `Line` of the first wrong line; `Config` if the configuration is
/// refused; `InputOutput` if a write fails, after part of it may have been written. `NoMemory`
/// comes if memory is refused, before the checks that follow, and for the report before anything is
/// written; a step that is refused memory is answered in its own line.
#[tactic(auto, using(crate::proofs::Written::read_fault))]
pub fn replay<R: Read, W: Write>(
    alloc: Global,
    reader: &mut R,
    writer: &mut W,
) -> Result<(), ReplayFault>
    // What is written is what the server answers to the script that was read and what its accounts
    // then hold, and nothing else.
    ensures replayed { OnOk result (IfSome (R.remaining reader.old) (λ text.
        (written : List ℕ) × IsReplayed text written ×
        Appends (W.contents writer.old) (W.contents writer.new) written)) }
    // A fault of the script is its first.
    ensures fault { IfErr result (λ fault. IfSome (R.remaining reader.old) (λ text.
        IsFaultOf text fault)) }
    // Nothing was written after any fault but `InputOutput`.
    ensures silent { IfErr result (λ fault.
        fault ≢ ReplayFault.InputOutput → Keeps (W.contents writer.old) (W.contents writer.new)) }
{
    let text = read_text(alloc, reader, MAX_SCRIPT_LEN)?;
    let output = replay_text(alloc, text.as_slice())?;
    output.write(writer)?;
    Ok(())
}

/// What is printed for a script.
fn replay_text(alloc: Global, text: &[u8]) -> Result<Output, ReplayFault>
    requires { length text.now ≤ most_octets }
    ensures replayed { IfOk result (λ output. IsReplayed text.now (output_octets output)) }
    ensures fault { IfErr result (λ fault.
        (fault ≢ ReplayFault.InputOutput) × IsFaultOf text.now fault) }
{
    let script = Script::read(alloc, text)?;
    let config = Config::make(alloc, script.settings, script.clients, script.accounts)?;
    let lines = script.events.as_slice();
    let steps = steps_of(alloc, &config, BOOT, lines)?;
    let ran = run(alloc, &config, BOOT, steps.as_slice())?;
    let lines = lines_of(alloc, &config, lines, ran.answers.as_slice())?;
    let rows = rows_of(alloc, &config, ran.shards.as_slice())?;
    let report = table_of(alloc, &config, rows.as_slice())?;
    Ok(Output { lines, report })
}
