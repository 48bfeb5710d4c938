//! What is counted of turns, at a receiver's place of a board.

use crate::disk::{shared_config, store_of};
use crate::turns::{Scene, port_of, scene_of, served};
use rld_counts::{Board, Cell, Fate, Gate, cell_of};
use rld_log::MemoryLog;
use rld_look::{Refusals, WatchContext, Watcher};
use rld_store::Store;
use rsl_accounts::Config;
use rsl_event::Port;
use std::alloc::Global;
use std::io;
use std::sync::Wait;
use std::sync::atomic::{AtomicU64, Ordering};
use std::test::Fail;
use std::time::{Clock, Duration};
use test_rows::{Subject, check_rows, number, short_number};

/// The counts of the turns of rows, at this gate, or else at that of the row's port.
#[derive(Clone, Copy)]
struct Counted<'a, R: Wait + Clock> {
    rt: &'a R,
    gate: Option<Gate>,
}

impl<R: Wait + Clock> Subject for Counted<'_, R> {
    fn found(&self, alloc: Global, fields: &[&str]) -> Result<String, Fail> {
        let scene = scene_of(fields)?;
        let config = shared_config(alloc)?;
        let mut store = store_of(alloc, &config, scene.disk)?;
        let gate = self.gate.unwrap_or(Gate::of(port_of(scene.port)?));
        let board = Board::new(alloc, config.clients(), &[gate])?;
        let refusals = Refusals::new(alloc, 1)?;
        let context = WatchContext {
            board: &board,
            refusals: &refusals,
        };
        let Some(mut watcher) = Watcher::new(self.rt, alloc, context, 0)? else {
            return Err("no place")?;
        };
        let mut counts = String::new(alloc);
        served(
            alloc,
            &*config,
            scene,
            &mut store,
            &mut watcher,
            &mut counts,
        )?;
        let clients = config.clients();
        let readings = board.read(self.rt, alloc, clients)?;
        let cell = cell_of(alloc, readings.as_slice(), gate, clients)?;
        let mut text = String::new(alloc);
        push_cell(&mut text, gate, &cell)?;
        Ok(text)
    }
}

/// A clock that is a fixed number of milliseconds later each time that it is read.
#[derive(Drop)]
struct Slow<'a, R: Wait> {
    _rt: &'a R,
    millis: u64,
    looks: AtomicU64,
}

impl<R: Wait> Wait for Slow<'_, R> {}

impl<R: Wait> Clock for Slow<'_, R> {
    fn monotonic(&self) -> io::Result<Duration> {
        let looks = self.looks.fetch_add(1, Ordering::SeqCst);
        Ok(Duration::from_millis(looks.saturating_mul(self.millis)))
    }

    fn since_1970(&self) -> io::Result<Duration> {
        Ok(Duration::from_secs(0))
    }
}

/// How many answers of the turns of rows are timed, and the sum of their times in microseconds, by a clock that
/// goes on at each look. A row has first by how many milliseconds.
#[derive(Clone, Copy)]
struct Timed<'a, R: Wait> {
    rt: &'a R,
}

impl<R: Wait> Subject for Timed<'_, R> {
    fn found(&self, alloc: Global, fields: &[&str]) -> Result<String, Fail> {
        let [millis, scene @ ..] = fields else {
            return Err("a row with other fields")?;
        };
        let slow = Slow {
            _rt: self.rt,
            millis: number(millis)?,
            looks: AtomicU64::new(0),
        };
        let scene = scene_of(scene)?;
        let config = shared_config(alloc)?;
        let mut store = store_of(alloc, &config, scene.disk)?;
        let gate = Gate::of(port_of(scene.port)?);
        let board = Board::new(alloc, config.clients(), &[gate])?;
        let refusals = Refusals::new(alloc, 1)?;
        let context = WatchContext {
            board: &board,
            refusals: &refusals,
        };
        let Some(mut watcher) = Watcher::new(&slow, alloc, context, 0)? else {
            return Err("no place")?;
        };
        let mut counts = String::new(alloc);
        served(
            alloc,
            &*config,
            scene,
            &mut store,
            &mut watcher,
            &mut counts,
        )?;
        let clients = config.clients();
        let readings = board.read(&slow, alloc, clients)?;
        let cell = cell_of(alloc, readings.as_slice(), gate, clients)?;
        let (timed, micros) = (cell.times().samples(), cell.times().micros());
        Ok(format!(in alloc; "timed={timed} micros={micros}")?)
    }
}

/// The counts of the turns of rows that two receivers take, one after the other, before and after they
/// begin to count by client anew. A row has first for how many clients, and for how many one looks.
#[derive(Clone, Copy)]
struct Renewed<'a, R: Wait + Clock> {
    rt: &'a R,
}

impl<R: Wait + Clock> Subject for Renewed<'_, R> {
    fn found(&self, alloc: Global, fields: &[&str]) -> Result<String, Fail> {
        let [clients, looked, scene @ ..] = fields else {
            return Err("a row with other fields")?;
        };
        let scene = scene_of(scene)?;
        let config = shared_config(alloc)?;
        let mut store = store_of(alloc, &config, scene.disk)?;
        let gate = Gate::of(port_of(scene.port)?);
        let board = Board::new(alloc, config.clients(), &[gate, gate])?;
        let refusals = Refusals::new(alloc, 2)?;
        let context = WatchContext {
            board: &board,
            refusals: &refusals,
        };
        served_by_two(self.rt, alloc, &*config, context, scene, &mut store)?;
        let counts = board.counts_for(alloc, short_number(clients)?)?;
        board.renew(self.rt, counts);
        served_by_two(self.rt, alloc, &*config, context, scene, &mut store)?;
        let looked = short_number(looked)?;
        let readings = board.read(self.rt, alloc, looked)?;
        let cell = cell_of(alloc, readings.as_slice(), gate, looked)?;
        let mut text = String::new(alloc);
        push_cell(&mut text, gate, &cell)?;
        Ok(text)
    }
}

/// Takes the turns of a row at the first receiver's place, and then at the second one's.
fn served_by_two<R: Wait + Clock>(
    rt: &R,
    alloc: Global,
    config: &Config,
    context: WatchContext<'_>,
    scene: Scene<'_>,
    store: &mut Store<MemoryLog>,
) -> Result<(), Fail> {
    for receiver in 0..2 {
        let Some(mut watcher) = Watcher::new(rt, alloc, context, receiver)? else {
            return Err("no place")?;
        };
        let mut counts = String::new(alloc);
        served(alloc, config, scene, store, &mut watcher, &mut counts)?;
    }
    Ok(())
}

/// Tells each count of a gate that is not 0, how many there are of the client, and how many are timed.
fn push_cell(text: &mut String, gate: Gate, cell: &Cell) -> Result<(), Fail> {
    for cause in gate.causes() {
        let fate = Fate {
            gate,
            cause: *cause,
        };
        push_count(text, cause.name(), cell.counts().count(fate))?;
    }
    let of_client = match cell.client(0) {
        Some(counts) => counts.received(),
        None => 0,
    };
    let timed = cell.times().samples();
    write!(text, "client={of_client} timed={timed}")?;
    Ok(())
}

/// Tells a count, unless it is 0.
fn push_count(text: &mut String, name: &str, count: u64) -> Result<(), Fail> {
    if count > 0 {
        write!(text, "{name}={count} ")?;
    }
    Ok(())
}

/// What is counted: each datagram by its end, all of the one client, and those whose answer was sent
/// with a time.
const COUNTED: &str = "
requests by their ends | auth | 1 | ask short:1025 wrong:1026 half bare:1027 ask:1028 | | 5 1 | \
    | drop_short=1 drop_bad_length=1 accept=1 reject_limit=1 reject_malformed=1 reject_wrong_password=1 \
    client=6 timed=4
over several turns | auth | 2 | ask*65 | | 5 1 | | accept=65 client=65 timed=65
answers that could not be sent | auth | 1 | ask wrong | 0 1 | 5 1 | | unsent=2 client=2 timed=0
a batch that is not recorded | auth | 1 | ask wrong short | | 5 1 | append 0 \
    | drop_short=1 unrecorded=1 reject_wrong_password=1 client=3 timed=1
accounting by its status | acct | 1 | start stop on stray forged short | | 5 1 | \
    | drop_short=1 drop_bad_authenticator=1 start=1 stop=1 accounting_on=1 start_unknown=1 client=6 timed=4
a request at the other port | acct | 1 | ask | | 5 1 | | drop_wrong_code=1 client=1 timed=0
";

#[test]
fn datagrams_are_counted_by_their_ends(rt: HostRuntime) -> Result<(), Fail> {
    let rows = Counted {
        rt: &rt,
        gate: None,
    };
    check_rows(&rt, &rows, COUNTED)
}

/// The same of asks: each request ends as an ask, and one that is not served has no time.
const ASKED: &str = "
requests by their ends | auth | 1 | ask short:1025 wrong:1026 half bare:1027 ask:1028 | | 5 1 | \
    | unserved=4 accept=1 reject_limit=1 client=6 timed=2
answers that could not be sent | auth | 1 | ask wrong | 0 1 | 5 1 | | unsent=2 client=2 timed=0
a batch that is not recorded | auth | 1 | ask wrong short | | 5 1 | append 0 \
    | unrecorded=1 unserved=2 client=3 timed=0
";

#[test]
fn asks_are_counted_by_their_ends(rt: HostRuntime) -> Result<(), Fail> {
    let rows = Counted {
        rt: &rt,
        gate: Some(Gate::Ask),
    };
    check_rows(&rt, &rows, ASKED)
}

/// A turn looks at the clock as it begins, and once when it is over, for all answers that were sent: a time has its
/// whole seconds and the rest, and none is lost of an answer that takes long.
const TIMED: &str = "
under a second | 300 | auth | 1 | ask | | 5 1 | | timed=1 micros=300000
a second and a half | 1500 | auth | 1 | ask | | 5 1 | | timed=1 micros=1500000
a minute and a quarter of a second | 60250 | auth | 1 | ask | | 5 1 | | timed=1 micros=60250000
two in one turn | 1500 | auth | 1 | ask ask | | 5 1 | | timed=2 micros=3000000
at the other port | 2001 | acct | 1 | start | | 5 1 | | timed=1 micros=2001000
one that was not sent | 1500 | auth | 1 | ask | 0 | 5 1 | | timed=0 micros=0
";

#[test]
fn times_of_answers_have_their_seconds(rt: HostRuntime) -> Result<(), Fail> {
    check_rows(&rt, &Timed { rt: &rt }, TIMED)
}

/// What was counted of the one client before is counted of none; what is counted of it afterwards is, if
/// the cells are for it, and if one looks for as many clients.
const RENEWED: &str = "
for as many clients | 1 | 1 | auth | 1 | ask wrong short | | 5 1 | \
    | drop_short=4 accept=4 reject_wrong_password=4 client=6 timed=8
for more | 3 | 3 | auth | 1 | ask wrong short | | 5 1 | \
    | drop_short=4 accept=4 reject_wrong_password=4 client=6 timed=8
for none | 0 | 0 | auth | 1 | ask wrong short | | 5 1 | \
    | drop_short=4 accept=4 reject_wrong_password=4 client=0 timed=8
for more, as one looks for the former ones | 3 | 1 | auth | 1 | ask wrong short | | 5 1 | \
    | drop_short=4 accept=4 reject_wrong_password=4 client=0 timed=8
at the other port | 2 | 2 | acct | 1 | start on short | | 5 1 | \
    | drop_short=4 start=4 accounting_on=4 client=6 timed=8
";

#[test]
fn counts_by_client_begin_anew(rt: HostRuntime) -> Result<(), Fail> {
    check_rows(&rt, &Renewed { rt: &rt }, RENEWED)
}
