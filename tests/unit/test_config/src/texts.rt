//! The text of a file, as a reader gives it.

use rsl_account_file::{TextFault, read_text};
use std::io::{self, ErrorKind, Read};
use std::test::Fail;

/// A reader that gives its octets seven at a time. Then it fails, or is at its end.
#[derive(Drop)]
struct Sevens<'a> {
    octets: &'a [u8],
    fails: bool,
}

impl Read for Sevens<'_> {
    fn read(&mut self, buf: &mut [u8]) -> io::Result<usize> {
        if self.octets.is_empty() && self.fails {
            return Err(io::Error::from(ErrorKind::BrokenPipe));
        }
        let len = self.octets.len().min(7).min(buf.len());
        let (piece, rest) = self.octets.split_at(len);
        buf[..len].copy_from_slice(piece);
        self.octets = rest;
        Ok(len)
    }
}

/// What comes of a text of at most `most` octets.
fn read(rt: &HostRuntime, octets: &[u8], fails: bool, most: u32) -> Result<Vec<u8>, TextFault> {
    let mut reader = Sevens { octets, fails };
    read_text(rt.alloc(), &mut reader, most)
}

#[test]
fn a_text_is_all_that_a_reader_gives(rt: HostRuntime) -> Result<(), Fail> {
    let octets = b"accounts = \"a\"\n";
    for most in [15, 16] {
        match read(&rt, octets, false, most) {
            Ok(text) => assert_eq!(rt; text.as_slice(), octets.as_slice(), "the text"),
            Err(_) => return Err("a text that is refused")?,
        }
    }
    match read(&rt, octets, false, 14) {
        Err(TextFault::TooLong) => {}
        _ => return Err("an octet too many is not told")?,
    }
    match read(&rt, octets, true, 15) {
        Err(TextFault::Unreadable) => Ok(()),
        _ => Err("a read that fails is not told")?,
    }
}
