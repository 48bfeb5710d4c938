//! A log that is read: its frames, and what its generation began with.

use crate::accounts::config_of;
use crate::fault::LinesFault;
use rld_log::Frames;
use rld_spelling::Header;
use rld_start::{check_header, check_torn};
use rld_store::{Front, Parts, StoreFault};
use rsl_accounts::Config;
use std::alloc::Global;

/// The front of a generation that was begun.
#[derive(Clone, Copy)]
pub struct Begun<'a> {
    /// Its header.
    pub header: Header,
    /// Its snapshot and its batches.
    pub parts: Parts<'a>,
}

/// The frames of a log with these octets. `Log` comes if one is spoilt before a whole one: what
/// follows the whole frames is a torn end.
pub fn frames_of(octets: Vec<u8>) -> Result<Frames, LinesFault> {
    let frames = Frames::of(octets)?;
    check_torn(&frames)?;
    Ok(frames)
}

/// The front of the log of a generation with these payloads, and a configuration that has its
/// table; `None` if the generation was not begun.
///
/// `Log` comes if the header cannot be read, or is not that of the log's name; then come the faults of
/// `config_of`.
pub fn front_of<'a>(
    alloc: Global,
    payloads: &'a [&'a [u8]],
    generation: u64,
) -> Result<Option<(Config, Begun<'a>)>, LinesFault> {
    let parts = match Parts::of(payloads) {
        Ok(parts) => parts,
        Err(StoreFault::Unbegun) => return Ok(None),
        Err(fault) => return Err(LinesFault::from(fault)),
    };
    let Front { header, table } = parts.front.front()?;
    check_header(&header, generation)?;
    let config = config_of(alloc, table)?;
    Ok(Some((config, Begun { header, parts })))
}
