use rld_look::Sink;
use std::alloc::{AllocError, Global};
use std::env::{self, Env};
use std::fs::{self, File, Files};
use std::os::unix::fs::MetadataExt;

/// The system's name of this process's standard error.
const STANDARD_ERROR: &str = "/proc/self/fd/2";

/// The reader of standard error. systemd names the stream that it has opened to its journal by its
/// device and its inode, in `JOURNAL_STREAM`: if that is another one, or there is none, no journal
/// reads it.
pub(crate) fn sink_of<R>(rt: &R, alloc: Global) -> Result<Sink, AllocError>
where
    R: Env + Files<File = File> + Alloc<A = Global>,
{
    let Ok(journal) = env::var(rt, "JOURNAL_STREAM") else {
        return Ok(Sink::Plain);
    };
    let Ok(found) = fs::metadata(rt, STANDARD_ERROR) else {
        return Ok(Sink::Plain);
    };
    let stream = format!(in alloc; "{}:{}", found.dev(), found.ino())?;
    Ok(if stream == journal {
        Sink::Journal
    } else {
        Sink::Plain
    })
}
