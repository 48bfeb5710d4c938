//! Rows of text, and what is found for each.

use std::alloc::Global;
use std::io::Eprint;
use std::test::Fail;

/// What rows of text are about: a public call, or a few, whose answers become a text.
pub trait Subject {
    /// What the call gives for the fields of a row, which are those between its name and the text
    /// that is expected.
    fn found(&self, alloc: Global, fields: &[&str]) -> Result<String, Fail>;
}

/// Compares what the subject gives for each row with the text that the row expects.
///
/// A row is a line: its name, its fields, and the text that is expected, with `|` between them and
/// blanks around each left out. Empty lines and those that begin with `#` are no rows. In the
/// source a long row goes on after a `\` at the end of a line. Of each row whose texts differ its name
/// and both texts are printed on standard error, and the test ends with an error once all were
/// tried. Where the subject has no answer to a row, its name and what is expected are printed, and
/// the test ends there, with the subject's error.
pub fn check_rows<R: AllocGlobal + Eprint, S: Subject>(
    rt: &R,
    subject: &S,
    rows: &str,
) -> Result<(), Fail> {
    let mut has_failed = false;
    for line in rows.lines() {
        let row = line.trim();
        if !row.is_empty() && !row.starts_with('#') {
            let fields = fields_of(rt.alloc(), row)?;
            if !is_as_expected(rt, subject, fields.as_slice())? {
                has_failed = true;
            }
        }
    }
    if has_failed {
        return Err("a row fails")?;
    }
    Ok(())
}

/// The fields of a row, its name and what is expected among them.
fn fields_of<'a>(alloc: Global, row: &'a str) -> Result<Vec<&'a str>, Fail> {
    let mut fields = Vec::new(alloc);
    for field in row.split('|') {
        fields.push(field.trim())?;
    }
    Ok(fields)
}

/// Whether what the subject gives for the fields of a row is the last of them; if not, both are
/// printed.
fn is_as_expected<R: AllocGlobal + Eprint, S: Subject>(
    rt: &R,
    subject: &S,
    fields: &[&str],
) -> Result<bool, Fail> {
    let [name, given @ .., expected] = fields else {
        return Err("a row without a name or an expected text")?;
    };
    let found = match subject.found(rt.alloc(), given) {
        Ok(found) => found,
        Err(fail) => {
            let _ = rt.eprintln(format_args!("{name}\nexpected: {expected}\nfound:    an error"));
            return Err(fail);
        }
    };
    if found.as_str() == *expected {
        return Ok(true);
    }
    rt.eprintln(format_args!("{name}\nexpected: {expected}\nfound:    {found}"))?;
    Ok(false)
}
