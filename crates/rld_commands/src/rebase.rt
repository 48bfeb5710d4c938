use crate::fault::Fault;
use crate::files::{account_file, paths_of};
use crate::output::say;
use rsl_reply::Dictionary;
use std::alloc::Global;
use std::fs::{File, Files};
use std::io::Write;
use std::sync::Arc;
use std::time::Clock;

/// Begins a generation in the state folder of a server that is not running, with its books cut to
/// the present, and writes a line on it.
///
/// The faults come in this order: the clock, the server's file, the account file; then those of the
/// folder and its files, as of a start. `Start` with `NoHistory` comes if the folder has none.
pub(crate) fn rebase<R, W: Write>(
    rt: &R,
    alloc: Global,
    names: &Dictionary,
    name: &str,
    writer: &mut W,
) -> Result<(), Fault>
where
    R: Files<File = File> + Alloc<A = Global> + Clone + Drop + Clock,
{
    let now = rt.since_1970()?.as_secs();
    let paths = paths_of(rt, alloc, name)?;
    let done = {
        let accounts = account_file(rt, alloc, names, paths.accounts.as_str())?;
        let Ok(config) = Arc::new(alloc, accounts.config) else {
            return Err(Fault::NoMemory);
        };
        rld_start::rebase(rt, alloc, config, paths.state.as_str(), now)?
    };
    let text = done.line(alloc)?;
    say(writer, text.as_bytes())
}
