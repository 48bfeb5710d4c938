//! Logs of versions before format 3, whose snapshots have the books shard after shard: account N is of
//! shard N modulo the number of shards.
//!
//! A row has the number of shards, and the payloads of a log's frames with `/` between them, and after
//! them perhaps `torn`. It tells the clock of the book of each account, in the order of the accounts'
//! numbers, and the length of the torn end; or the fault.

use crate::faults::frames;
use crate::server::log_of;
use rld_store::{FormerEnd, StoreFault, read_former, read_frames};
use rsl_account_file::read_config;
use rsl_accounts::Config;
use rsl_reply::Dictionary;
use std::alloc::Global;
use std::test::Fail;
use test_rows::{Subject, check_rows, printed, short_number};

/// The configuration of five accounts, with one shard as its own.
const FILE: &str = "version = 1\nshards = 1\nreserve_secs = 60\nlive_secs = 900\n\
grace_secs = 900\nclosed_secs = 3600\nkeep_secs = 10\n\
client = [{ address = \"192.168.1.16\", secret = \"xyzzy5461\" }]\n\
account = [\n\
{ name = \"a\", password = \"pw\", places = 1, ports = 1 },\n\
{ name = \"b\", password = \"pw\", places = 1, ports = 1 },\n\
{ name = \"c\", password = \"pw\", places = 1, ports = 1 },\n\
{ name = \"d\", password = \"pw\", places = 1, ports = 1 },\n\
{ name = \"e\", password = \"pw\", places = 2, ports = 1 },\n]\n";

/// Reads logs of before.
struct Formers;

impl Subject for Formers {
    fn found(&self, alloc: Global, fields: &[&str]) -> Result<String, Fail> {
        let [shards, log] = fields else {
            return Err("a number of shards and a log")?;
        };
        let config: Config = read_config(alloc, &Dictionary::new(alloc), FILE.as_bytes())?;
        let (log, is_torn) = match log.strip_suffix(" torn") {
            Some(log) => (log, true),
            None => (*log, false),
        };
        let mut payloads = Vec::new(alloc);
        for payload in log.split('/') {
            payloads.push(payload)?;
        }
        let mut octets = frames(alloc, payloads.as_slice())?;
        if is_torn {
            octets.extend_from_slice(b"torn")?;
        }
        let mut log = log_of(alloc, &octets, &[])?;
        let found = read_frames(alloc, &mut log)?;
        match read_former(alloc, &config, short_number(shards)?, &found) {
            Ok(end) => told(alloc, &end),
            Err(StoreFault::NoMemory) => return Err("no memory")?,
            Err(fault) => printed(alloc, &fault),
        }
    }
}

/// The clock of each book, and the length of the torn end.
fn told(alloc: Global, end: &FormerEnd) -> Result<String, Fail> {
    let mut text = String::new(alloc);
    let header = &end.header;
    write!(text, "{}-{}:", header.era, header.generation)?;
    for book in end.books.save(alloc)?.as_slice() {
        write!(text, " {}", book.clock)?;
    }
    write!(text, ", torn {}", end.torn)?;
    Ok(text)
}

// A bare book is its clock and five zeros. Those of a snapshot have the clocks 1 to 5 in its order.
#[test]
fn books_are_read_shard_after_shard(rt: HostRuntime) -> Result<(), Fail> {
    check_rows(
        &rt,
        &Formers,
        "
one shard | 1 | 02 01 07 03 00*16 00/05 01 00*5 02 00*5 03 00*5 04 00*5 05 00*5 | 7-3: 1 2 3 4 5, torn 0
# 0, 2 and 4, then 1 and 3
two shards | 2 | 02 01 07 03 00*16 00/05 01 00*5 02 00*5 03 00*5 04 00*5 05 00*5 | 7-3: 1 4 2 5 3, torn 0
of format 1 | 2 | 01 01 07 03 00*16 00/05 01 00*5 02 00*5 03 00*5 04 00*5 05 00*5 | 7-3: 1 4 2 5 3, torn 0
# 0 and 3, then 1 and 4, then 2
three shards | 3 | 02 01 07 03 00*16 00/05 01 00*5 02 00*5 03 00*5 04 00*5 05 00*5 | 7-3: 1 3 5 2 4, torn 0
# 0 and 4, then 1, 2 and 3
four shards | 4 | 02 01 07 03 00*16 00/05 01 00*5 02 00*5 03 00*5 04 00*5 05 00*5 | 7-3: 1 3 4 5 2, torn 0
# a stop of account 1 at 9, a stop of account 3 at 8, and a tick at 4, which is late for these two
batches | 2 | 02 01 01 01 00*16 00/05 01 00*5 02 00*5 03 00*5 04 00*5 05 00*5/\
    02 03 09 01 00 02 01 73 03 08 03 00 02 01 73/01 05 04 | 1-1: 4 9 4 8 4, torn 0
a torn end | 2 | 02 01 01 01 00*16 00/05 01 00*5 02 00*5 03 00*5 04 00*5 05 00*5 torn | 1-1: 1 4 2 5 3, torn 4
",
    )
}

#[test]
fn faults_of_logs_of_before(rt: HostRuntime) -> Result<(), Fail> {
    check_rows(
        &rt,
        &Formers,
        "
# the payload of the header begins at octet 20, that of the snapshot at 61, and that of a batch at 112
the present format | 2 | 03 01 01 01 00*16 00/05 00*30 | Malformed(Malformed { offset: 20, cause: OtherFormat })
a later format | 2 | 04 01 01 01 00*16 00/05 00*30 | Malformed(Malformed { offset: 20, cause: OtherFormat })
another rule | 2 | 02 02 01 01 00*16 00/05 00*30 | Malformed(Malformed { offset: 21, cause: OtherRule })
no snapshot | 2 | 02 01 01 01 00*16 00 | Unbegun
a book too few | 2 | 02 01 01 01 00*16 00/04 00*24 | Misfit { offset: 61, fault: WrongCount }
a book too many | 2 | 02 01 01 01 00*16 00/06 00*36 | Misfit { offset: 61, fault: WrongCount }
a book that ends early | 2 | 02 01 01 01 00*16 00/05 00*29 | Malformed(Malformed { offset: 91, cause: CutShort })
# the third book has two links at different access servers: of two shards it is that of account 4, which
# has two places, and of one shard that of account 2, which has one
two places | 2 | 02 01 01 01 00*16 00/05 00*12 09 03 00 02 00 02 00 01 00 09 00 02 00 02 00 09 00 00 00*12 \
    | 1-1: 0 0 0 0 9, torn 0
a place too many | 1 | 02 01 01 01 00*16 00/05 00*12 09 03 00 02 00 02 00 01 00 09 00 02 00 02 00 09 00 00 00*12 \
    | Misfit { offset: 61, fault: Misfit(TooManyPlaces) }
a move of no account | 2 | 02 01 01 01 00*16 00/05 00*30/01 03 07 05 00 02 01 73 \
    | Malformed(Malformed { offset: 115, cause: NoAccount })
",
    )
}
