use crate::fault::Fault;
use std::io::Write;

/// Writes the whole text that a command prints.
pub(crate) fn say<W: Write>(writer: &mut W, text: &[u8]) -> Result<(), Fault> {
    writer.write_all(text)?;
    Ok(writer.flush()?)
}
