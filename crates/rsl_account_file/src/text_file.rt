ghost use Rattle.std.specs.Prelude.{
  ◌≡◌,
  ◌<◌,
  ◌≤◌,
  ◌+◌,
  ◌++◌,
  ◌↔◌,
  IfOk,
  IfSome,
  IsErrOf,
  OnOk,
  length,
  vec_len,
};
ghost use Rattle.rsl_account_file.specs.Read.{IsTextRead};

use crate::text_fault::TextFault;
use std::alloc::Global;
use std::fs::{self, Files};
use std::io::{ErrorKind, Read};

/// Octets of one read.
const READ_LEN: usize = 4096;

/// The text of the file of this name, of at most `most` octets. The faults are those of
/// `read_text`; `Unreadable` also comes if the file cannot be opened.
pub fn read_file<F: Files>(
    files: &F,
    alloc: Global,
    name: &str,
    most: u32,
) -> Result<Vec<u8>, TextFault>
    ensures short { IfOk result (λ text. vec_len text ≤ most) }
{
    match fs::open(files, name) {
        Ok(mut file) => read_text(alloc, &mut file, most),
        Err(_) => Err(TextFault::Unreadable),
    }
}

/// All octets that a reader gives, if they are at most `most`.
///
/// `TooLong` comes as soon as there are more, `Unreadable` if a read fails or if twice as many
/// reads as the text may have octets come to no end, and `NoMemory` if memory is refused. A read
/// that is interrupted is tried again, and counts as a read.
#[tactic(auto, using(crate::proofs::Consumed::consumed_steps))]
pub fn read_text<R: Read>(alloc: Global, reader: &mut R, most: u32) -> Result<Vec<u8>, TextFault>
    ensures read { IfSome (R.remaining reader.old) (λ text. IsTextRead most text result) }
    ensures short { IfOk result (λ text. vec_len text ≤ most) }
{
    let mut text = Vec::new(alloc);
    let mut piece = [0u8; READ_LEN];
    for _ in 0..2 * u64::from(most) {
        match reader.read(&mut piece) {
            Ok(0) => return Ok(text),
            Ok(len) => append(&mut text, &piece[..len], most)?,
            Err(error) => match error.kind() {
                ErrorKind::Interrupted => {}
                ErrorKind::OutOfMemory => return Err(TextFault::NoMemory),
                _ => return Err(TextFault::Unreadable),
            },
        }
    }
    Err(TextFault::Unreadable)
}

/// Appends a piece to a text, unless the text would be too long.
fn append(text: &mut Vec<u8>, piece: &[u8], most: u32) -> Result<(), TextFault>
    requires { vec_len text.old ≤ most }
    ensures short { vec_len text.new ≤ most }
    ensures appended { OnOk result (text.new.items ≡ text.old.items ++ piece.now) }
    ensures readable { IsErrOf result TextFault.Unreadable → ⊥ }
    ensures too_long { IsErrOf result TextFault.TooLong ↔
        (most < vec_len text.old + length piece.now) }
{
    if most as usize - text.len() < piece.len() {
        return Err(TextFault::TooLong);
    }
    text.extend_from_slice(piece)?;
    Ok(())
}
