//! The numbers that decimal digits write: each fails where a text is no number of its kind.

use std::alloc::Global;
use std::test::Fail;

/// A number of at most 64 bits.
pub fn number(digits: &str) -> Result<u64, Fail> {
    Ok(digits.parse::<u64>()?)
}

/// A number of at most 32 bits.
pub fn short_number(digits: &str) -> Result<u32, Fail> {
    Ok(digits.parse::<u32>()?)
}

/// A number of at most 8 bits.
pub fn octet(digits: &str) -> Result<u8, Fail> {
    Ok(digits.parse::<u8>()?)
}

/// A number of at most 16 bits, as that of a port.
pub fn port_number(digits: &str) -> Result<u16, Fail> {
    Ok(digits.parse::<u16>()?)
}

/// A length, or a place in a text.
pub fn length(digits: &str) -> Result<usize, Fail> {
    Ok(digits.parse::<usize>()?)
}

/// The numbers of words.
pub fn numbers_of(alloc: Global, words: &str) -> Result<Vec<u64>, Fail> {
    let mut numbers = Vec::new(alloc);
    for word in words.split_ascii_whitespace() {
        numbers.push(number(word)?)?;
    }
    Ok(numbers)
}
