ghost use Rattle.std.specs.Prelude.{◌≡◌, ◌≤◌, length, IfOk, IfSome};

use std::io::{self, Read};

/// Reads a line into a buffer, and gives the number of its octets without its line feed. `None` if
/// it is longer than the buffer, or the reader ends before its line feed. Octets after the line
/// feed may be read too. The error is the reader's.
pub fn read_line<R: Read>(reader: &mut R, room: &mut [u8]) -> io::Result<Option<usize>>
    ensures { IfOk result (λ found. IfSome found (λ len. len ≤ length room.new)) }
{
    for len in 0..room.len() {
        let mut octet = [0u8; 1];
        if reader.read(&mut octet)? == 0 {
            return Ok(None);
        }
        let [octet] = octet;
        if octet == b'\n' {
            return Ok(Some(len));
        }
        room[len] = octet;
    }
    Ok(None)
}
