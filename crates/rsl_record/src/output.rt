ghost use Rattle.std.specs.Prelude.{OnOk};
ghost use Rattle.std.specs.Io.KnownBytes.{Appends};
ghost use Rattle.rsl_record.specs.Output.{output_octets};

use crate::fault::WriteFault;
use std::io::Write;

/// What a program prints at its end: its lines, and then a report.
#[derive(Drop)]
pub struct Output {
    /// The answers, or what the receivers did. Each line ends in a line feed.
    pub lines: String,
    /// The octets of the report: what each account holds.
    pub report: Vec<u8>,
}

impl Output {
    /// Writes the lines and the report, and flushes the writer. `WriteFault` comes if the writer
    /// fails; part of it may have been written.
    pub fn write<W: Write>(&self, writer: &mut W) -> Result<(), WriteFault>
        ensures { OnOk result
            (Appends (W.contents writer.old) (W.contents writer.new) (output_octets self.now)) }
    {
        writer.write_all(self.lines.as_bytes())?;
        writer.write_all(self.report.as_slice())?;
        writer.flush()?;
        Ok(())
    }
}
