//! Headers and tables: worked rows, and tables that are not written.

use crate::written::{former_header_told, former_told, header_told, table_told};
use rld_spelling::{
    Fault, FormerTable, Header, ReadFault, SpellFault, Table, TableAccount, TableClient,
    former_header,
};
use rsl_accounts::Rules;
use rsl_wire::Octets;
use std::alloc::Global;
use std::test::Fail;
use test_rows::{Subject, check_rows, octets_of, printed};

/// The Debug of a fault and its offset.
fn shown_fault(alloc: Global, fault: Fault, len: usize) -> Result<String, Fail> {
    printed(alloc, &(fault.cause, fault.offset(len)))
}

/// Reads a header at the front of octets, and writes it again: the header, and what is behind it.
struct Headers;

impl Subject for Headers {
    fn found(&self, alloc: Global, fields: &[&str]) -> Result<String, Fail> {
        let [text] = fields else {
            return Err("a row has octets")?;
        };
        let octets = octets_of(alloc, text)?;
        match Header::read_front(&octets) {
            Ok((header, rest)) => {
                let mut again = Vec::new(alloc);
                header.push(&mut again)?;
                again.extend_from_slice(rest)?;
                if again.as_slice() != octets.as_slice() {
                    return Err("written otherwise than it was read")?;
                }
                let mut text = header_told(alloc, &header)?;
                write!(text, " {rest:?}")?;
                Ok(text)
            }
            Err(fault) => shown_fault(alloc, fault, octets.len()),
        }
    }
}

#[test]
fn octets_of_headers(rt: HostRuntime) -> Result<(), Fail> {
    check_rows(
        &rt,
        &Headers,
        "
# the format, the rule, the generation, the table, the boot number, and the moves before
the header of docs/FOLDER.md | 03 01 01 01 fe6553f100 00 | \
Header { generation: 1, table: 1, boot: 1700000000, lines: 0 } []
a header | 03 01 fd0100 02 07 fe000f4240 | \
Header { generation: 256, table: 2, boot: 7, lines: 1000000 } []
# whatever follows: a reader of a front looks no further
a header and what is behind it | 03 01 05 03 04 06 03 01 | \
Header { generation: 5, table: 3, boot: 4, lines: 6 } [3, 1]
the least numbers | 03 01 00 00 00 00 | Header { generation: 0, table: 0, boot: 0, lines: 0 } []
the greatest numbers | 03 01 ff*9 ff*9 ff*9 ff*9 | \
Header { generation: 18446744073709551615, table: 18446744073709551615, boot: 18446744073709551615, \
lines: 18446744073709551615 } []
no format | 00 01 fd0100 02 07 fe000f4240 | (OtherFormat, 0)
format 1 | 01 01 fd0100 02 07 fe000f4240 | (OtherFormat, 0)
format 2 | 02 01 fd0100 02 07 fe000f4240 | (OtherFormat, 0)
a later format | 04 01 fd0100 02 07 fe000f4240 | (OtherFormat, 0)
a format of more octets | fd0100 01 fd0100 02 07 fe000f4240 | (OtherFormat, 0)
format 3 in three octets | fd0003 01 fd0100 02 07 fe000f4240 | (LongNumber, 0)
another rule | 03 02 | (OtherRule, 1)
another format and another rule | 04 02 | (OtherFormat, 0)
no octet | | (CutShort, 0)
no rule | 03 | (CutShort, 1)
no generation | 03 01 | (CutShort, 2)
no table | 03 01 05 | (CutShort, 3)
no boot number | 03 01 05 03 | (CutShort, 4)
no moves | 03 01 05 03 04 | (CutShort, 5)
# the mark of a number is there, and what it counts is not
a boot number that ends early | 03 01 05 03 fe6553f1 | (CutShort, 5)
a generation in more octets | 03 01 fd0005 03 04 06 | (LongNumber, 2)
a table in more octets | 03 01 05 fd0003 04 06 | (LongNumber, 3)
a boot number in more octets | 03 01 05 03 fd0004 06 | (LongNumber, 4)
moves in more octets | 03 01 05 03 04 fd0006 | (LongNumber, 5)
",
    )
}

/// Numbers of each length, the least and the greatest.
const NUMBERS: [u64; 8] = [
    0,
    252,
    253,
    65_535,
    65_536,
    4_294_967_295,
    4_294_967_296,
    u64::MAX,
];

/// Whether a header is read as it was written, with what is behind it.
fn is_read_back(alloc: Global, header: &Header, behind: &[u8]) -> Result<bool, Fail> {
    let mut octets = Vec::new(alloc);
    header.push(&mut octets)?;
    octets.extend_from_slice(behind)?;
    match Header::read_front(&octets) {
        Ok((found, rest)) => Ok(found == *header && rest == behind),
        Err(_) => Ok(false),
    }
}

#[test]
fn headers_are_read_as_they_were_written(rt: HostRuntime) -> Result<(), Fail> {
    for first in NUMBERS {
        for second in NUMBERS {
            for header in [
                Header {
                    generation: first,
                    table: second,
                    boot: 3,
                    lines: 4,
                },
                Header {
                    generation: 1,
                    table: 2,
                    boot: first,
                    lines: second,
                },
            ] {
                for behind in ["", "a table"] {
                    let same = is_read_back(rt.alloc(), &header, behind.as_bytes())?;
                    assert!(rt; same, "{first} {second}");
                }
            }
        }
    }
    Ok(())
}

/// Reads a header of format 1 or 2.
struct FormerHeaders;

impl Subject for FormerHeaders {
    fn found(&self, alloc: Global, fields: &[&str]) -> Result<String, Fail> {
        let [text] = fields else {
            return Err("a row has octets")?;
        };
        let octets = octets_of(alloc, text)?;
        match former_header(&octets) {
            Ok(header) => former_header_told(alloc, &header),
            Err(fault) => shown_fault(alloc, fault, octets.len()),
        }
    }
}

#[test]
fn octets_of_headers_of_before(rt: HostRuntime) -> Result<(), Fail> {
    check_rows(
        &rt,
        &FormerHeaders,
        "
# the format, the rule, the era, the generation, the digest, and the moves before
one of format 1 | 01 01 02 fd0100 5a*16 fe000f4240 | \
FormerHeader { era: 2, generation: 256, digest: [90, 90, 90, 90, 90, 90, 90, 90, 90, 90, 90, 90, \
90, 90, 90, 90], lines: 1000000 }
one of format 2 | 02 01 01 03 00*16 00 | \
FormerHeader { era: 1, generation: 3, digest: [0, 0, 0, 0, 0, 0, 0, 0, 0, 0, 0, 0, 0, 0, 0, 0], lines: 0 }
no format | 00 01 02 fd0100 5a*16 fe000f4240 | (OtherFormat, 0)
the format of today | 03 01 02 fd0100 5a*16 fe000f4240 | (OtherFormat, 0)
a later format | 04 01 02 fd0100 5a*16 fe000f4240 | (OtherFormat, 0)
format 2 in three octets | fd0002 01 02 fd0100 5a*16 fe000f4240 | (LongNumber, 0)
another rule in format 1 | 01 02 | (OtherRule, 1)
another rule in format 2 | 02 00 | (OtherRule, 1)
no octet | | (CutShort, 0)
a digest that ends early | 02 01 02 03 5a*15 | (CutShort, 4)
no lines | 01 01 02 03 5a*16 | (CutShort, 20)
an octet too many | 02 01 02 03 5a*16 00 00 | (Trailing, 21)
",
    )
}

/// Reads a table, and writes it again.
struct Tables;

impl Subject for Tables {
    fn found(&self, alloc: Global, fields: &[&str]) -> Result<String, Fail> {
        let [text] = fields else {
            return Err("a row has octets")?;
        };
        let octets = octets_of(alloc, text)?;
        match Table::read(alloc, &octets) {
            Ok(table) => {
                let mut again = Vec::new(alloc);
                table.push(&mut again)?;
                if again.as_slice() != octets.as_slice() {
                    return Err("written otherwise than it was read")?;
                }
                table_told(alloc, &table)
            }
            Err(ReadFault::NoMemory) => return Err("no memory")?,
            Err(ReadFault::Malformed(fault)) => shown_fault(alloc, fault, octets.len()),
        }
    }
}

#[test]
fn octets_of_tables(rt: HostRuntime) -> Result<(), Fail> {
    check_rows(
        &rt,
        &Tables,
        "
# the accounts and the clients
a table | 01 04 6269636b 02 01 3c fd0258 fd012c 78 05 02 c0a80110 0a000001 | \
Table { accounts: [TableAccount { name: [98, 105, 99, 107], rules: Rules { places: 2, \
ports: 1, reserve: 60, live: 600, grace: 300, closed: 120, keep: 5 } }], clients: [TableClient { address: [192, 168, 1, \
16] }, TableClient { address: [10, 0, 0, 1] }] }
the table of docs/FOLDER.md | 02 01 61 02 01 3c fd0384 fd0384 fd0e10 0a 01 62 00 01 3c fd0384 fd0384 fd0e10 0a 01 c0a80110 | \
Table { accounts: [TableAccount { name: [97], rules: Rules { places: 2, ports: 1, reserve: 60, \
live: 900, grace: 900, closed: 3600, keep: 10 } }, TableAccount { name: [98], rules: Rules { places: 0, ports: 1, \
reserve: 60, live: 900, grace: 900, closed: 3600, keep: 10 } }], clients: [TableClient { address: [192, 168, 1, 16] }] }
no octet | | (CutShort, 0)
an address that ends early | 01 04 6269636b 02 01 3c fd0258 fd012c 78 05 01 c0a801 | (CutShort, 18)
an octet too many | 01 04 6269636b 02 01 3c fd0258 fd012c 78 05 01 c0a80110 00 | (Trailing, 22)
# one of before has the boot number and the shards before the accounts
a table of before | 07 02 01 01 61 02 01 3c 3c 3c 3c 05 01 c0a80110 | (BadName, 1)
",
    )
}

/// Reads a table of before.
struct FormerTables;

impl Subject for FormerTables {
    fn found(&self, alloc: Global, fields: &[&str]) -> Result<String, Fail> {
        let [text] = fields else {
            return Err("a row has octets")?;
        };
        let octets = octets_of(alloc, text)?;
        match FormerTable::read(alloc, &octets) {
            Ok(former) => former_told(alloc, &former),
            Err(ReadFault::NoMemory) => return Err("no memory")?,
            Err(ReadFault::Malformed(fault)) => shown_fault(alloc, fault, octets.len()),
        }
    }
}

#[test]
fn octets_of_tables_of_before(rt: HostRuntime) -> Result<(), Fail> {
    check_rows(
        &rt,
        &FormerTables,
        "
# the boot number, the shards, the accounts and the clients
a table | 07 02 01 04 6269636b 02 01 3c fd0258 fd012c 78 05 02 c0a80110 0a000001 | \
FormerTable { boot: 7, shards: 2, table: Table { accounts: [TableAccount { name: [98, 105, 99, 107], rules: Rules { \
places: 2, ports: 1, reserve: 60, live: 600, grace: 300, closed: 120, keep: 5 } }], clients: [TableClient { \
address: [192, 168, 1, 16] }, TableClient { address: [10, 0, 0, 1] }] } }
of one shard | 00 01 01 01 61 02 01 3c 3c 3c 3c 05 01 c0a80110 | \
FormerTable { boot: 0, shards: 1, table: Table { accounts: [TableAccount { name: [97], rules: Rules { places: 2, \
ports: 1, reserve: 60, live: 60, grace: 60, closed: 60, keep: 5 } }], clients: [TableClient { \
address: [192, 168, 1, 16] }] } }
no shard | 07 00 01 01 61 02 01 3c 3c 3c 3c 05 01 c0a80110 | (OutOfRange, 1)
five shards | 07 05 01 01 61 02 01 3c 3c 3c 3c 05 01 c0a80110 | (OutOfRange, 1)
four shards and no account | 07 04 00 | (OutOfRange, 2)
a boot number alone | 07 | (CutShort, 1)
an account more than can be | 07 04 fd4001 | (OutOfRange, 2)
a place more than can be | 07 01 01 01 61 41 01 | (OutOfRange, 5)
no client | 07 01 01 01 61 01 01 3c 01 01 01 01 00 | (OutOfRange, 12)
an address that ends early | 07 02 01 04 6269636b 02 01 3c fd0258 fd012c 78 05 01 c0a801 | (CutShort, 20)
an octet too many | 07 02 01 04 6269636b 02 01 3c fd0258 fd012c 78 05 01 c0a80110 00 | (Trailing, 24)
",
    )
}

#[test]
fn limits_of_tables(rt: HostRuntime) -> Result<(), Fail> {
    check_rows(
        &rt,
        &Tables,
        "
# 1 to 16384 accounts: fd4000
no account | 00 | (OutOfRange, 0)
as many accounts as can be | fd4000 | (CutShort, 3)
an account more | fd4001 | (OutOfRange, 0)
# a name has 1 to 64 visible characters: 21 to 7e
no name | 01 00 00 | (BadName, 1)
a long name | 01 40 61*64 | (CutShort, 66)
a longer name | 01 41 61*65 00 | (BadName, 1)
a name of 254 octets | 01 fe 61*254 00 | (TooLong, 1)
a name that ends early | 01 04 616161 | (CutShort, 2)
the first and the last visible character | 01 02 217e | (CutShort, 4)
a space | 01 02 6120 00 | (BadName, 1)
an octet that is no character | 01 02 7f61 00 | (BadName, 1)
# 0 to 64 places of 1 to 16 ports
as many places as can be | 01 01 61 40 10 | (CutShort, 5)
a place more | 01 01 61 41 01 | (OutOfRange, 3)
no port | 01 01 61 00 00 | (OutOfRange, 4)
a port more | 01 01 61 00 11 | (OutOfRange, 4)
# a time has 1 to 86400 seconds: fe00015180
a reservation of no time | 01 01 61 01 01 00 | (OutOfRange, 5)
a reservation of a day | 01 01 61 01 01 fe00015180 | (CutShort, 10)
a reservation of a second more | 01 01 61 01 01 fe00015181 | (OutOfRange, 5)
no live time | 01 01 61 01 01 3c 00 | (OutOfRange, 6)
no grace | 01 01 61 01 01 3c 01 00 | (OutOfRange, 7)
a closed time of a second more | 01 01 61 01 01 3c 01 01 fe00015181 | (OutOfRange, 8)
nothing is kept | 01 01 61 01 01 3c 01 01 01 00 | (OutOfRange, 9)
# and keep is at most reserve
kept as long as reserved | 01 01 61 01 01 3c 01 01 01 3c | (CutShort, 10)
kept a second longer | 01 01 61 01 01 3c 01 01 01 3d | (KeepTooLong, 3)
# 1 to 256 clients: fd0100
no client | 01 01 61 01 01 3c 01 01 01 01 00 | (OutOfRange, 10)
as many clients as can be | 01 01 61 01 01 3c 01 01 01 01 fd0100 | (CutShort, 13)
a client more | 01 01 61 01 01 3c 01 01 01 01 fd0101 | (OutOfRange, 10)
",
    )
}

/// Rules that an account can have.
const RULES: Rules = Rules {
    places: 64,
    ports: 16,
    reserve: 60,
    live: 86_400,
    grace: 1,
    closed: 1,
    keep: 60,
};

/// A table of an account and a client.
fn table(alloc: Global) -> Result<Table, Fail> {
    let account = TableAccount {
        name: Octets::from_slice(alloc, &[0x6e; 64])?,
        rules: RULES,
    };
    let client = TableClient {
        address: [192, 168, 1, 16],
    };
    Ok(Table {
        accounts: vec![in alloc; account]?,
        clients: vec![in alloc; client]?,
    })
}

/// What a table is refused for, and how many octets were written.
fn refused(alloc: Global, table: &Table) -> Result<(Option<SpellFault>, usize), Fail> {
    let mut octets = Vec::new(alloc);
    let fault = table.push(&mut octets).err();
    Ok((fault, octets.len()))
}

/// What a table whose account is this is refused for, and how many octets were written.
fn refused_account(
    alloc: Global,
    name: &[u8],
    rules: Rules,
) -> Result<(Option<SpellFault>, usize), Fail> {
    let account = TableAccount {
        name: Octets::from_slice(alloc, name)?,
        rules,
    };
    let changed = Table {
        accounts: vec![in alloc; account]?,
        ..table(alloc)?
    };
    refused(alloc, &changed)
}

#[test]
fn tables_that_do_not_fit_are_not_written(rt: HostRuntime) -> Result<(), Fail> {
    let alloc = rt.alloc();
    let unfit = (Some(SpellFault::Unfit), 0);
    assert_eq!(rt; refused(alloc, &table(alloc)?)?, (None, 82));
    let changed = Table {
        accounts: Vec::new(alloc),
        ..table(alloc)?
    };
    assert_eq!(rt; refused(alloc, &changed)?, unfit, "no account");
    let changed = Table {
        clients: Vec::new(alloc),
        ..table(alloc)?
    };
    assert_eq!(rt; refused(alloc, &changed)?, unfit, "no client");
    Ok(())
}

#[test]
fn accounts_that_do_not_fit_are_not_written(rt: HostRuntime) -> Result<(), Fail> {
    let alloc = rt.alloc();
    let unfit = (Some(SpellFault::Unfit), 0);
    assert_eq!(rt; refused_account(alloc, b"", RULES)?, unfit, "no name");
    assert_eq!(rt;
        refused_account(alloc, &[0x6e; 65], RULES)?,
        unfit,
        "65 octets"
    );
    assert_eq!(rt;
        refused_account(alloc, &[0x6e; 254], RULES)?,
        unfit,
        "254 octets"
    );
    assert_eq!(rt; refused_account(alloc, b"a b", RULES)?, unfit, "a space");
    let rules = Rules { keep: 61, ..RULES };
    assert_eq!(rt;
        refused_account(alloc, b"a", rules)?,
        unfit,
        "kept for too long"
    );
    let rules = Rules::of_places(1, 1);
    assert_eq!(rt; refused_account(alloc, b"a", rules)?, unfit, "no times");
    Ok(())
}
