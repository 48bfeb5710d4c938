//! Tests of the reports of `rsl_record`.

use rsl_account_file::read_config;
use rsl_accounts::Config;
use rsl_record::{AuditFault, Output, WriteFault, table_of, write_table};
use rsl_reply::Dictionary;
use rsl_shard::Row;
use std::alloc::Global;
use std::io;
use std::io::{ErrorKind, Write};
use std::process::Abort;
use std::test::Fail;
use test_rows::{Subject, check_rows, number, shown};

/// Accounts with names of 4, 20, 21 and 64 octets.
const FILE: &str = r#"
version = 1
shards = 2
reserve_secs = 60
live_secs = 900
grace_secs = 900
closed_secs = 3600
keep_secs = 10
client = [{ address = "192.168.1.16", secret = "xyzzy5461" }]
account = [
    { name = "nemo", password = "arctangent", places = 1, ports = 1 },
    { name = "aaaaaaaaaaaaaaaaaaaa", password = "pw", places = 1, ports = 1 },
    { name = "bbbbbbbbbbbbbbbbbbbbb", password = "pw", places = 1, ports = 1 },
    { name = "cccccccccccccccccccccccccccccccccccccccccccccccccccccccccccccccc", password = "pw", places = 1, ports = 1 },
]
"#;

/// The line of titles.
const TITLES: &str = "name                   places     held reserved     live    stale     over\n";

/// An account that holds its one place for an accept.
const RESERVED: Row = Row {
    account: 0,
    places: 1,
    held: 1,
    reserved: 1,
    live: 0,
    stale: 0,
    over: 0,
};

/// Numbers as wide as a column, wider by one, and the greatest.
const WIDE: Row = Row {
    account: 0,
    places: 64,
    held: 12_345_678,
    reserved: 123_456_789,
    live: u32::MAX,
    stale: 0,
    over: u64::MAX,
};

/// A number of its own in each column.
const EACH: Row = Row {
    account: 1,
    places: 64,
    held: 5,
    reserved: 1,
    live: 2,
    stale: 3,
    over: 4,
};

/// A writer that takes up to `of_one` octets of one write, and fails once it has taken `in_all`
/// octets.
#[derive(Drop)]
struct Limited {
    taken: Vec<u8>,
    of_one: usize,
    in_all: usize,
}

impl Write for Limited {
    fn write(&mut self, buf: &[u8]) -> io::Result<usize> {
        let room = self.in_all.saturating_sub(self.taken.len());
        let len = buf.len().min(self.of_one).min(room);
        if len == 0 {
            return Err(io::Error::from(ErrorKind::BrokenPipe));
        }
        self.taken.extend_from_slice(&buf[..len])?;
        Ok(len)
    }

    fn flush(&mut self) -> io::Result<()> {
        Ok(())
    }
}

#[test]
fn tables_stand_as_their_format_says(rt: HostRuntime) -> Result<(), Fail> {
    for (name, rows, of_one, lines) in [
        ("no rows", &[][..], usize::MAX, ""),
        (
            "a place that is reserved",
            &[RESERVED],
            usize::MAX,
            "nemo                        1        1        1        0        0        0\n",
        ),
        (
            "three octets of each write",
            &[RESERVED],
            3,
            "nemo                        1        1        1        0        0        0\n",
        ),
        (
            "each number in its own column",
            &[EACH],
            usize::MAX,
            "aaaaaaaaaaaaaaaaaaaa       64        5        1        2        3        4\n",
        ),
        (
            "numbers of 8, 9, 10 and 20 digits",
            &[WIDE],
            usize::MAX,
            "nemo                       64 12345678 123456789 4294967295        0 18446744073709551615\n",
        ),
        (
            "names of 21 and of 64 octets, and the rows in the order given",
            &[
                Row { account: 3, ..EACH },
                RESERVED,
                Row { account: 2, ..EACH },
                RESERVED,
            ],
            1,
            "cccccccccccccccccccccccccccccccccccccccccccccccccccccccccccccccc       64        5        1        2        3        4\n\
             nemo                        1        1        1        0        0        0\n\
             bbbbbbbbbbbbbbbbbbbbb       64        5        1        2        3        4\n\
             nemo                        1        1        1        0        0        0\n",
        ),
    ] {
        let (result, taken) = write_anew(&rt, rows, of_one, usize::MAX)?;
        let found = format!(in rt.alloc(); "{result:?} {}", str::from_utf8(taken.as_slice())?)?;
        let expected = format!(in rt.alloc(); "Ok(()) {TITLES}{lines}")?;
        assert_eq!(rt; found.as_str(), expected.as_str(), "{name}");
    }
    Ok(())
}

#[test]
fn a_fault_comes_where_the_writer_fails(rt: HostRuntime) -> Result<(), Fail> {
    let config = read_config(rt.alloc(), &Dictionary::new(rt.alloc()), FILE.as_bytes())?;
    fails_at_each_octet(&rt, &config)
}

/// Writes a table over writers that fail after each number of octets.
fn fails_at_each_octet<R: AllocGlobal + Abort>(rt: &R, config: &Config) -> Result<(), Fail> {
    let rows = [RESERVED, WIDE, Row { account: 3, ..EACH }];
    let (_, whole) = write(rt, config, &rows, usize::MAX, usize::MAX)?;
    for in_all in 0..whole.len() {
        let (result, taken) = write(rt, config, &rows, usize::MAX, in_all)?;
        assert_eq!(rt; result, Err(WriteFault), "{in_all}");
        assert_eq!(rt; taken.len(), in_all);
    }
    let (result, _) = write(rt, config, &rows, usize::MAX, whole.len())?;
    assert_eq!(rt; result, Ok(()));
    Ok(())
}

#[test]
fn an_output_is_its_lines_and_then_its_report(rt: HostRuntime) -> Result<(), Fail> {
    let alloc = rt.alloc();
    let config = read_config(alloc, &Dictionary::new(alloc), FILE.as_bytes())?;
    let rows = [RESERVED, EACH];
    let known = are_below(&rows, config.accounts());
    assert!(rt; known);
    let output = Output {
        lines: String::from_str(alloc, "1 accept\n")?,
        report: table_of(alloc, &config, &rows)?,
    };
    let (_, table) = write(&rt, &config, &rows, usize::MAX, usize::MAX)?;
    let whole = format!(in alloc; "1 accept\n{}", str::from_utf8(table.as_slice())?)?;
    for in_all in 0..=whole.len() {
        let mut writer = Limited {
            taken: Vec::new(alloc),
            of_one: 3,
            in_all,
        };
        let result = output.write(&mut writer);
        assert_eq!(rt; result.is_ok(), in_all == whole.len(), "{in_all}");
        assert_eq!(rt; writer.taken.as_slice(), &whole.as_bytes()[..in_all]);
    }
    Ok(())
}

/// Writes a table as `write` does, with a configuration that is read for it.
fn write_anew<R: AllocGlobal + Abort>(
    rt: &R,
    rows: &[Row],
    of_one: usize,
    in_all: usize,
) -> Result<(Result<(), WriteFault>, Vec<u8>), Fail> {
    let config = read_config(rt.alloc(), &Dictionary::new(rt.alloc()), FILE.as_bytes())?;
    write(rt, &config, rows, of_one, in_all)
}

/// Writes a table over a writer of these limits. Gives what was answered and the octets that were
/// taken.
fn write<R: AllocGlobal + Abort>(
    rt: &R,
    config: &Config,
    rows: &[Row],
    of_one: usize,
    in_all: usize,
) -> Result<(Result<(), WriteFault>, Vec<u8>), Fail> {
    let mut writer = Limited {
        taken: Vec::new(rt.alloc()),
        of_one,
        in_all,
    };
    let known = are_below(rows, config.accounts());
    assert!(rt; known);
    let result = write_table(config, rows, &mut writer);
    Ok((result, writer.taken))
}

/// Whether the account of each row has a number below this one.
fn are_below(rows: &[Row], accounts: u32) -> bool {
    rows.iter().all(|row| row.account < accounts)
}
