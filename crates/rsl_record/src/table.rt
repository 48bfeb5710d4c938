ghost use Rattle.std.specs.Prelude.{◌≡◌, ◌<◌, All, IfOk, OnOk, decimal, length, map};
ghost use Rattle.std.specs.Io.KnownBytes.{Appends};
ghost use Rattle.rsl_accounts.specs.Limits.{IsName};
ghost use Rattle.rsl_record.specs.Table.{column, name_column, line, row_line, table};

use crate::fault::WriteFault;
use rsl_accounts::Config;
use rsl_shard::Row;
use rsl_wire::NoMemory;
use std::alloc::Global;
use std::io::Write;

/// The line of titles.
const HEADER: &str = "name                   places     held reserved     live    stale     over\n";

/// Writes a report: a line of titles, and then a line for each row, in the order given. Each line
/// ends in a line feed. The account's name is left-aligned in 20 characters, followed by six
/// columns, each a space and a number right-aligned in 8 characters. A longer name or number is not
/// cut.
///
/// `WriteFault` comes if the writer fails; part of the report may have been written. A line is
/// several small writes, so pass a buffered writer. The writer is not flushed.
#[tactic(auto, using(crate::proofs::TableLaws::one_more, crate::proofs::TableLaws::all_more))]
pub fn write_table<W: Write>(
    config: &Config,
    rows: &[Row],
    writer: &mut W,
) -> Result<(), WriteFault>
    requires { All (λ row. row.account < length config.now.accounts) rows.now }
    ensures { OnOk result
        (Appends (W.contents writer.old) (W.contents writer.new)
        (table config.now rows.now)) }
{
    writer.write_all(HEADER.as_bytes())?;
    for row in rows {
        write_row(config, row, writer)?;
    }
    Ok(())
}

/// The report that `write_table` writes. It fails only if memory is refused.
pub fn table_of(alloc: Global, config: &Config, rows: &[Row]) -> Result<Vec<u8>, NoMemory>
    requires { All (λ row. row.account < length config.now.accounts) rows.now }
    ensures { IfOk result (λ octets. octets.items ≡ table config.now rows.now) }
{
    let mut octets = Vec::new(alloc);
    match write_table(config, rows, &mut octets) {
        Ok(()) => Ok(octets),
        // A write to a `Vec` fails only if memory is refused.
        Err(WriteFault) => Err(NoMemory),
    }
}

/// Writes the line of a row.
fn write_row<W: Write>(config: &Config, row: &Row, writer: &mut W) -> Result<(), WriteFault>
    requires { row.now.account < length config.now.accounts }
    ensures { OnOk result
        (Appends (W.contents writer.old) (W.contents writer.new)
        (row_line config.now row.now)) }
{
    let numbers = [
        row.places as u64,
        row.held as u64,
        row.reserved as u64,
        row.live as u64,
        row.stale as u64,
        row.over,
    ];
    write_line(config.entry(row.account).name.as_str(), &numbers, writer)
}

/// Writes a line: a name, numbers and a line feed.
#[tactic(auto, using(crate::proofs::TableLaws::one_more, crate::proofs::TableLaws::line_done))]
fn write_line<W: Write>(name: &str, numbers: &[u64], writer: &mut W) -> Result<(), WriteFault>
    requires { IsName name.now }
    ensures { OnOk result
        (Appends (W.contents writer.old) (W.contents writer.new)
        (line name.now (map decimal numbers.now))) }
{
    write_name(name, writer)?;
    for number in numbers {
        write_number(*number, writer)?;
    }
    writer.write_all(b"\n")?;
    Ok(())
}

/// Writes a name, left-aligned in 20 characters.
fn write_name<W: Write>(name: &str, writer: &mut W) -> Result<(), WriteFault>
    requires { IsName name.now }
    ensures { OnOk result
        (Appends (W.contents writer.old) (W.contents writer.new)
        (name_column name.now)) }
{
    write!(writer, "{name:<20}")?;
    Ok(())
}

/// Writes a column: a space, and the number right-aligned in 8 characters.
fn write_number<W: Write>(number: u64, writer: &mut W) -> Result<(), WriteFault>
    ensures { OnOk result
        (Appends (W.contents writer.old) (W.contents writer.new)
        (column (decimal number))) }
{
    write!(writer, " {number:>8}")?;
    Ok(())
}
