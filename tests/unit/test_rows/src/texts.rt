//! Texts and numbers of rows.

use std::alloc::Global;
use std::fmt;
use std::fmt::{Debug, Display};
use std::test::Fail;

/// A text whose Debug is the text as it is, so that it can stand in a tuple that is printed.
#[derive(Clone, Copy)]
pub struct Plain<'a>(pub &'a str);

impl Debug for Plain<'_> {
    fn fmt<W: fmt::Write>(&self, f: &mut fmt::Formatter<W>) -> fmt::Result {
        f.write_str(self.0)
    }
}

/// A text with what stands for each of some words, of which each is a line `WORD = TEXT`.
pub fn replaced(alloc: Global, text: &str, words: &str) -> Result<String, Fail> {
    let mut text = String::from_str(alloc, text)?;
    for line in words.lines() {
        text = with_word(alloc, text.as_str(), line)?;
    }
    Ok(text)
}

fn with_word(alloc: Global, text: &str, line: &str) -> Result<String, Fail> {
    let (word, meaning) = line.split_once(" = ").unwrap_or((line, line));
    Ok(text.replace(alloc, word, meaning)?)
}

/// The Debug of a value.
pub fn printed<T: Debug>(alloc: Global, value: &T) -> Result<String, Fail> {
    Ok(format!(in alloc; "{value:?}")?)
}

/// What a value prints.
pub fn shown<T: Display>(alloc: Global, value: &T) -> Result<String, Fail> {
    Ok(format!(in alloc; "{value}")?)
}

/// Adds the Debug of a value to a text, after a blank where that is not empty.
pub fn push_printed<T: Debug>(text: &mut String, value: &T) -> Result<(), Fail> {
    if !text.is_empty() {
        text.push(' ')?;
    }
    write!(text, "{value:?}")?;
    Ok(())
}
