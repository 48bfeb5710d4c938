use rld_faults::Faults;
use rsl_dictionary::dictionary;
use rsl_reply::Dictionary;
use std::alloc::Global;
use std::test::Fail;

/// A text with the edits that these fields write: `OLD => NEW`, where `\n` ends a line, and an empty OLD is the
/// end of the text. A field without `=>` is a whole text.
pub(crate) fn edited(alloc: Global, text: &str, edits: &[&str]) -> Result<String, Fail> {
    let mut text = String::from_str(alloc, text)?;
    for edit in edits {
        text = with_edit(alloc, text.as_str(), edit)?;
    }
    Ok(text)
}

fn with_edit(alloc: Global, text: &str, edit: &str) -> Result<String, Fail> {
    let Some((old, new)) = edit.split_once("=>") else {
        return lines_of(alloc, edit);
    };
    let new = lines_of(alloc, new.trim())?;
    if old.trim().is_empty() {
        return Ok(format!(in alloc; "{text}{new}")?);
    }
    let old = lines_of(alloc, old.trim())?;
    Ok(text.replace(alloc, old.as_str(), new.as_str())?)
}

fn lines_of(alloc: Global, text: &str) -> Result<String, Fail> {
    Ok(text.replace(alloc, "\\n", "\n")?)
}

/// What is told of faults: each with its line, between strokes.
pub(crate) fn told(alloc: Global, faults: &Faults) -> Result<String, Fail> {
    let mut text = String::new(alloc);
    for fault in faults.told.as_slice() {
        let line = format!(in alloc; "{fault}")?;
        if !text.is_empty() {
            text.push_str(" / ")?;
        }
        text.push_str(line.as_str())?;
    }
    let more = faults.more;
    if 0 < more {
        text.push_str(format!(in alloc; " and {more} more")?.as_str())?;
    }
    Ok(text)
}

/// The names of reply attributes.
pub(crate) fn names(alloc: Global) -> Result<Dictionary, Fail> {
    Ok(dictionary(alloc)?)
}
