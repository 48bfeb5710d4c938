//! What is done to files.

use rld_log::frame_of;
use std::{fs, io};

/// Adds octets at the end of a file.
pub fn add(rt: &HostRuntime, path: &str, octets: &[u8]) -> io::Result<()> {
    let mut all = fs::read(rt, path)?;
    all.extend_from_slice(octets)?;
    fs::write(rt, path, all.as_slice())
}

/// Copies a file.
pub fn copy(rt: &HostRuntime, from: &str, to: &str) -> io::Result<()> {
    let all = fs::read(rt, from)?;
    fs::write(rt, to, all.as_slice())
}

/// Cuts a file to its first octets.
pub fn cut(rt: &HostRuntime, path: &str, len: usize) -> io::Result<()> {
    let mut all = fs::read(rt, path)?;
    all.truncate(len);
    fs::write(rt, path, all.as_slice())
}

/// Cuts off the last octet of a file.
pub fn cut_last(rt: &HostRuntime, path: &str) -> io::Result<()> {
    let mut all = fs::read(rt, path)?;
    let _ = all.pop();
    fs::write(rt, path, all.as_slice())
}

/// Makes a file without octets.
pub fn empty(rt: &HostRuntime, path: &str) -> io::Result<()> {
    fs::write(rt, path, "")
}

/// Makes one octet another.
pub fn spoil(rt: &HostRuntime, path: &str, at: usize) -> io::Result<()> {
    let mut all = fs::read(rt, path)?;
    if let Some(octet) = all.get_mut(at) {
        *octet ^= 1;
    }
    fs::write(rt, path, all.as_slice())
}

/// Makes an octet of the payload of a log's first frame, which has this length, another one, and gives the
/// frame the digest of what it has then.
pub fn replace_first(
    rt: &HostRuntime,
    path: &str,
    len: usize,
    at: usize,
    octet: u8,
) -> io::Result<()> {
    let all = fs::read(rt, path)?;
    if len > 1000 || all.len() < 20 + len {
        return Err(io::Error::from(io::ErrorKind::InvalidData));
    }
    let mut payload = all[20..20 + len].to_vec(rt.alloc())?;
    if let Some(place) = payload.get_mut(at) {
        *place = octet;
    }
    let mut octets = frame_of(rt.alloc(), payload.as_slice())?;
    octets.extend_from_slice(&all[20 + len..])?;
    fs::write(rt, path, octets.as_slice())
}
