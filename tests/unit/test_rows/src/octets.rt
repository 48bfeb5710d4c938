//! The octets that rows write.

use crate::numbers::short_number;
use std::alloc::Global;
use std::fmt;
use std::test::Fail;

/// Octets whose Debug is their hexadecimal digits, so that they can stand in a tuple that is
/// printed.
#[derive(Clone, Copy)]
pub struct Hex<'a>(pub &'a [u8]);

impl fmt::Debug for Hex<'_> {
    fn fmt<W: fmt::Write>(&self, f: &mut fmt::Formatter<W>) -> fmt::Result {
        for octet in self.0 {
            write!(f, "{octet:02x}")?;
        }
        Ok(())
    }
}

/// The octets that words of hexadecimal digits write, where `WORD*N` stands for the word N times.
pub fn octets_of(alloc: Global, text: &str) -> Result<Vec<u8>, Fail> {
    let mut whole = Vec::new(alloc);
    for word in text.split_ascii_whitespace() {
        let (digits, times) = match word.split_once('*') {
            Some((digits, times)) => (digits, short_number(times)?),
            None => (word, 1),
        };
        let part = hex::decode(alloc, digits)?;
        for _ in 0..times {
            whole.extend_from_slice(&part)?;
        }
    }
    Ok(whole)
}

/// The first octets, at most `len` of them.
pub fn front(octets: &[u8], len: usize) -> &[u8] {
    &octets[..len.min(octets.len())]
}
