//! One run without a crash, and its moves in batches.

use rsl_account_file::read_config;
use rsl_accounts::Config;
use rsl_event::{Nas, NasName, Port, Source};
use rsl_reply::Dictionary;
use rsl_shard::{Line, Move, Row, Segment, Shard};
use rsl_steps::{Ran, Step, run};
use rsl_wire::Octets;
use std::alloc::Global;
use std::sync::Arc;
use std::test::Fail;
use test_rows::{number, octets_of, replaced};

/// The configuration: three accounts, of which the second has two places. They count by stations, and
/// delays of restarts count.
const FILE: &str = "version = 3\nshards = SHARDS\nreserve_secs = 60\nlive_secs = 900\n\
grace_secs = 900\nclosed_secs = 3600\nkeep_secs = 10\nstation = true\ndelay_time = true\n\
client = [{ address = \"192.168.1.16\", secret = \"xyzzy5461xyzzy5461\", signed = false }]\n\
account = [\n\
{ name = \"a\", password = \"pw\", places = 1, ports = 1 },\n\
{ name = \"b\", password = \"pw\", places = 2, ports = 1 },\n\
{ name = \"c\", password = \"pw\", places = 1, ports = 1 },\n]\n";

/// What comes, with every kind of move, from two access servers, `n` and `m`, at one client. After
/// its name a line has the port, the moment, and a datagram, whose hidden password and
/// authenticator are those of Python's `hashlib`; or the moment of a tick; or of a restart, the access
/// server, and the delay if there is one.
const COMING: &str = "
a asks at n: auth 0 0101002c0101010101010101010101010101010101036102124fcd8b1e40d59472494139d2abd86fcf20036e
that again: auth 1 0101002c0101010101010101010101010101010101036102124fcd8b1e40d59472494139d2abd86fcf20036e
a asks for one too many: auth 2 0102002c0202020202020202020202020202020201036102128731457a43a25790583cfc9268c5db8920036e
b asks at n: auth 2 0103002c03030303030303030303030303030303010362021234166946b630b29e72c59fdf3f995fe820036e
a begins: acct 3 04010024be7ec978ab2b572a8161471c29c92be328060000000120036e0103612c047331
b asks at m: auth 4 0104002c040404040404040404040404040404040103620212ca7f42712d4bc4aa459462223da7893b20036d
b begins at m: acct 5 04020024fc9a4f45bbda766b616da3cb3c0c735828060000000120036d0103622c047431
a goes on: acct 6 04030024f87edf9011b4c6b430234d2bda17111028060000000320036e0103612c047331
nobody begins: acct 7 040400282b7d04f890dd55869f27691c3d119a2d28060000000120036e010767686f73742c047831
a ends: acct 8 0405002471a7565c7458eccc5a8a29718d89061828060000000220036e0103612c047331
a asks again: auth 9 0105002c0505050505050505050505050505050501036102126e7405872c2361493ecf175c3ca5ed9a20036e
m is on: acct 10 0406001d0a97cfae0a149b8f4dcbed018d9d427028060000000720036d
and is swept: sweep 10 m
b asks at m again: auth 11 0106002c06060606060606060606060606060606010362021238d94816ef33828ba5d836c4e6d7e27b20036d
b begins at n: acct 11 04070024d58dc5b047cdc5fefd67bea70f4b2ec128060000000120036e0103622c047432
c asks: auth 12 0107002c070707070707070707070707070707070103630212394613ca9b4056a129af45daf51f978720036e
reservations end: tick 75
c asks again: auth 76 0108002c08080808080808080808080808080808010363021238d74d034995628f2ea0217968bd3bff20036e
c begins: acct 77 040800245d74c272297520038ecdd732c482243c28060000000120036e0103632c047531
another of c goes on: acct 78 040900245d01b78a9160ec39fbc2e11f6dd9563428060000000320036e0103632c047532
c asks by a device: auth 78 010a003f0a0a0a0a0a0a0a0a0a0a0a0a0a0a0a0a01036302129e9b751bd2a3965e741fff15b7ee770720036e1f1330302d30302d35452d30302d35332d3241
c goes on, and is of that device: acct 78 040c00379c4d5952a77148357f64e75400b2ad2128060000000320036e0103632c0475311f1330302d30302d35452d30302d35332d3241
that device asks again: auth 78 010b003f0b0b0b0b0b0b0b0b0b0b0b0b0b0b0b0b01036302126383f893cb5a746d39604612fa94030920036e1f1330302d30302d35452d30302d35332d3241
and begins: acct 79 040d00374dedec295c4d2d0cfff0525a2b588c9c28060000000120036e0103632c0475331f1330302d30302d35452d30302d35332d3241
a asks by a device: auth 78 010c002f0c0c0c0c0c0c0c0c0c0c0c0c0c0c0c0c0103610212b237b3af2ef8c0734eab165423bc9e9920036e1f0364
that device asks at m: auth 79 010d002f0d0d0d0d0d0d0d0d0d0d0d0d0d0d0d0d0103610212ea495ec1db25dcf16340fbac7b8dfd6a20036d1f0364
n is off: acct 79 040a001d5066fffea0c964adaf67bc2bb212494228060000000820036e
and is swept, by its own word two seconds late: sweep 79 n delay=2
nobody ends: acct 80 040b0028a570b89482643f10c50ae89ac413fb7c28060000000220036e010767686f73742c047831
a asks once more: auth 81 0109002c0909090909090909090909090909090901036102123d6fab66be491292e6a21a4b1a29430a20036e
b comes back at m: acct 82 040c0024188cd0544298e755b62a990093de16e428060000000320036d0103622c047431
time passes: tick 83
";

/// The boot number of the server.
const BOOT: u64 = 1;

/// What one run without a crash has decided and left.
#[derive(Drop)]
pub struct Run {
    /// Its moves, each with the decision on it.
    pub lines: Vec<Line>,
    /// What each account holds then, in the order of the accounts.
    pub rows: Vec<Row>,
}

/// The configuration, where a line `SHARDS = NUMBER` says how many shards it has.
pub fn config_of(alloc: Global, shards: &str) -> Result<Arc<Config>, Fail> {
    let text = replaced(alloc, FILE, shards)?;
    let config = read_config(alloc, &Dictionary::new(alloc), text.as_bytes())?;
    Ok(Arc::new(alloc, config)?)
}

/// The step of a line of what comes.
fn step_of(alloc: Global, line: &str) -> Result<Step, Fail> {
    let (_, text) = line.split_once(": ").unwrap_or(("", line));
    let (kind, rest) = text.split_once(' ').unwrap_or((text, ""));
    let (moment, what) = rest.split_once(' ').unwrap_or((rest, ""));
    let moment = number(moment)?;
    match kind {
        "auth" => datagram_of(alloc, moment, Port::Auth, what),
        "acct" => datagram_of(alloc, moment, Port::Acct, what),
        "sweep" => sweep_of(alloc, moment, what),
        "tick" => Ok(Step::Tick { shard: 0, moment }),
        _ => Err("an unknown step")?,
    }
}

/// The step of a datagram.
fn datagram_of(alloc: Global, moment: u64, port: Port, octets: &str) -> Result<Step, Fail> {
    let octets = octets_of(alloc, octets)?;
    Ok(Step::Datagram {
        moment,
        port,
        source: Source {
            address: [192, 168, 1, 16],
            port: 1024,
        },
        octets: Octets::from_slice(alloc, &octets)?,
    })
}

/// The step of an access server that has restarted.
fn sweep_of(alloc: Global, moment: u64, what: &str) -> Result<Step, Fail> {
    let (name, delay) = what.split_once(" delay=").unwrap_or((what, "0"));
    let name = NasName::Identifier(Octets::from_slice(alloc, name.as_bytes())?);
    Ok(Step::Sweep {
        shard: 0,
        moment,
        nas: Nas { client: 0, name },
        delay: number(delay)?,
    })
}

/// The steps of what comes.
fn steps(alloc: Global) -> Result<Vec<Step>, Fail> {
    let mut steps = Vec::new(alloc);
    for line in COMING.trim().lines() {
        steps.push(step_of(alloc, line)?)?;
    }
    Ok(steps)
}

/// The shard of the run, which has all accounts: so its journal has all moves in their order.
fn shard_of_run(alloc: Global) -> Result<Shard, Fail> {
    let steps = steps(alloc)?;
    let config = config_of(alloc, "SHARDS = 1")?;
    let Ran { mut shards, .. } = run(alloc, &*config, BOOT, &steps)?;
    match shards.pop() {
        Some(shard) => Ok(shard),
        None => Err("no shard")?,
    }
}

/// The lines of the journal of a shard.
fn lines_of(alloc: Global, shard: Shard) -> Result<Vec<Line>, Fail> {
    let Segment { lines, .. } = shard.into_segment(alloc)?;
    Ok(lines)
}

/// The run.
pub fn run_of(alloc: Global) -> Result<Run, Fail> {
    let shard = shard_of_run(alloc)?;
    let rows = shard.rows(alloc)?;
    let lines = lines_of(alloc, shard)?;
    Ok(Run { lines, rows })
}

/// How many moves the batch with this index has: one, two or three in turn.
pub fn batch_len(index: usize) -> usize {
    1 + index % 3
}

/// The moves of some lines.
fn moves_of(alloc: Global, lines: &[Line]) -> Result<Vec<Move>, Fail> {
    let mut moves = Vec::new(alloc);
    for line in lines {
        moves.push(line.moved.try_copy(alloc)?)?;
    }
    Ok(moves)
}

/// The moves of lines, in batches.
pub fn batches_of(alloc: Global, lines: &[Line]) -> Result<Vec<Vec<Move>>, Fail> {
    let mut batches = Vec::new(alloc);
    let mut from: usize = 0;
    for index in 0..lines.len() {
        let rest = &lines[lines.len().min(from)..];
        let front = &rest[..batch_len(index).min(rest.len())];
        if !front.is_empty() {
            batches.push(moves_of(alloc, front)?)?;
            from = from.saturating_add(front.len());
        }
    }
    Ok(batches)
}
