//! What turns make of what waits.
//!
//! A row has a name, the port, the turns, what comes, the numbers of the sends that fail, the clock's
//! first moment and its step, and the call of the disk that fails, with the number of its batch.
//!
//! It tells the counts: turns, taken, dropped, refused, unrecorded, answered and unsent, after `Down`
//! where the port failed and `Ended` where nothing more could be recorded. Then how many datagrams the
//! port gave, and how many it was handed to send. Then what was handed to be sent, and to which port; and
//! each move that a loss of power leaves in the log, as its batch, its moment, what it is and the
//! decision.

use crate::clock::clock_of;
use crate::coming::{coming_of, networks_of, push_sent};
use crate::disk::{batches_of, left_by, push_moves, shared_config, store_of};
use crate::notes::{Notes, Unwatched};
use rld_log::MemoryLog;
use rld_store::{Store, read_frames};
use rld_turn::{End, Ended, Gathered, Present, Receiver, RecordFault, Recorded, Watch};
use rsl_accounts::Config;
use rsl_event::Port;
use rsl_port::{Clock, MemoryPort};
use rsl_shard::Move;
use std::alloc::Global;
use std::net::SocketAddr;
use std::sync::Arc;
use std::test::Fail;
use test_rows::{Plain, Subject, check_rows, number, numbers_of, push_printed};

/// The turns of rows.
#[derive(Clone, Copy)]
struct Turns;

impl Subject for Turns {
    fn found(&self, alloc: Global, fields: &[&str]) -> Result<String, Fail> {
        let scene = scene_of(fields)?;
        let config = shared_config(alloc)?;
        let mut store = store_of(alloc, &config, scene.disk)?;
        let mut text = String::new(alloc);
        let datagrams = served(
            alloc,
            &*config,
            scene,
            &mut store,
            &mut Unwatched,
            &mut text,
        )?;
        push_port(&mut text, &datagrams)?;
        push_sent(&mut text, alloc, datagrams.sent())?;
        push_moves(&mut text, alloc, &*config, &left_by(store))?;
        Ok(text)
    }
}

/// What a row says.
#[derive(Clone, Copy)]
pub(crate) struct Scene<'a> {
    pub(crate) port: &'a str,
    pub(crate) turns: &'a str,
    pub(crate) coming: &'a str,
    pub(crate) failing: &'a str,
    pub(crate) clock: &'a str,
    pub(crate) disk: &'a str,
}

/// A row, of its fields.
pub(crate) fn scene_of<'a>(fields: &[&'a str]) -> Result<Scene<'a>, Fail> {
    let [port, turns, coming, failing, clock, disk] = fields else {
        return Err("a row with other fields")?;
    };
    Ok(Scene {
        port,
        turns,
        coming,
        failing,
        clock,
        disk,
    })
}

/// The port of a word.
pub(crate) fn port_of(word: &str) -> Result<Port, Fail> {
    match word {
        "auth" => Ok(Port::Auth),
        "acct" => Ok(Port::Acct),
        _ => Err("an unknown port")?,
    }
}

/// The turns of rows that tell only how many.
#[derive(Clone, Copy)]
struct Crowds;

impl Subject for Crowds {
    fn found(&self, alloc: Global, fields: &[&str]) -> Result<String, Fail> {
        let scene = scene_of(fields)?;
        let config = shared_config(alloc)?;
        let mut store = store_of(alloc, &config, scene.disk)?;
        let mut text = String::new(alloc);
        let datagrams = served(
            alloc,
            &*config,
            scene,
            &mut store,
            &mut Unwatched,
            &mut text,
        )?;
        push_port(&mut text, &datagrams)?;
        push_sizes(&mut text, &batches_of(alloc, &*config, &left_by(store))?)?;
        Ok(text)
    }
}

/// The turns of rows that have what a watcher learns.
#[derive(Clone, Copy)]
struct Watched;

impl Subject for Watched {
    fn found(&self, alloc: Global, fields: &[&str]) -> Result<String, Fail> {
        let scene = scene_of(fields)?;
        let config = shared_config(alloc)?;
        let mut store = store_of(alloc, &config, scene.disk)?;
        let mut notes = Notes::new(alloc);
        let mut counts = String::new(alloc);
        served(alloc, &*config, scene, &mut store, &mut notes, &mut counts)?;
        Ok(String::from_str(alloc, notes.text())?)
    }
}

/// Takes the turns of a row, and tells the counts. Gives the port.
pub(crate) fn served<W: Watch>(
    alloc: Global,
    config: &Config,
    scene: Scene<'_>,
    store: &mut Store<MemoryLog>,
    watch: &mut W,
    text: &mut String,
) -> Result<MemoryPort<SocketAddr>, Fail> {
    let coming = coming_of(alloc, scene.coming)?;
    let mut datagrams = MemoryPort::new(alloc, coming, numbers_of(alloc, scene.failing)?);
    let mut clock = clock_of(scene.clock)?;
    let networks = networks_of(alloc)?;
    let present = Present::new(config, networks.as_slice(), 1, 1);
    let mut receiver = Receiver::new(alloc, port_of(scene.port)?)?;
    let mut counting = Counting::of(watch);
    for _ in 0..number(scene.turns)? {
        counting.begin();
        let Gathered { moves, port } = receiver.gather(&present, clock.now(), &mut datagrams);
        let recorded = record(alloc, store, moves);
        receiver.answer(&present, &recorded, &mut datagrams, &mut counting);
        counting.finish();
        let end = match (port, &recorded) {
            (Err(_), _) => "Down",
            (Ok(()), Err(RecordFault::Ended)) => "Ended",
            (Ok(()), _) => continue,
        };
        push_printed(text, &Plain(end))?;
        break;
    }
    push_printed(text, &counting.counts)?;
    Ok(datagrams)
}

/// Records moves, if there is one.
fn record(
    alloc: Global,
    store: &mut Store<MemoryLog>,
    moves: Vec<Move>,
) -> Result<Option<Recorded>, RecordFault> {
    if moves.is_empty() {
        return Ok(None);
    }
    match store.commit(alloc, moves) {
        Ok(recorded) => Ok(Some(recorded)),
        Err(fault) => Err(RecordFault::from(fault)),
    }
}

/// A watcher that counts what another one learns: turns, taken, dropped, refused, unrecorded, answered
/// and unsent.
#[derive(Drop)]
struct Counting<'w, W> {
    watch: &'w mut W,
    counts: [u64; 7],
}

impl<'w, W: Watch> Counting<'w, W> {
    /// A watcher that has counted nothing yet.
    fn of(watch: &'w mut W) -> Counting<'w, W> {
        Counting {
            watch,
            counts: [0; 7],
        }
    }
}

impl<W: Watch> Watch for Counting<'_, W> {
    fn begin(&mut self) {
        self.counts[0] += 1;
        self.watch.begin();
    }

    fn note(&mut self, ended: Ended<'_>) {
        let place = match ended.end {
            End::Dropped(_) => 2,
            End::Refused => 3,
            End::Unrecorded => 4,
            End::Answered(_) => 5,
            End::Unsent(_) => 6,
        };
        self.counts[1] += 1;
        self.counts[place] += 1;
        self.watch.note(ended);
    }

    fn finish(&mut self) {
        self.watch.finish();
    }
}

/// Tells how many datagrams a port gave, and how many it was handed to send.
fn push_port(text: &mut String, datagrams: &MemoryPort<SocketAddr>) -> Result<(), Fail> {
    if !datagrams.is_telling() {
        return Err("the port was refused memory")?;
    }
    let taken = datagrams.taken().len() as u64;
    if datagrams.room() < 4096 && taken > 0 {
        return Err("a datagram had less room than 4,096 octets")?;
    }
    push_printed(text, &[taken, datagrams.sent().len() as u64])
}

/// Tells how many moves each batch has.
fn push_sizes(text: &mut String, batches: &[Vec<Move>]) -> Result<(), Fail> {
    for batch in batches {
        push_printed(text, &batch.len())?;
    }
    Ok(())
}

/// What is dropped, answered, unsent and unrecorded, in one turn and in several.
const TURNS: &str = "
an ask | auth | 1 | ask | | 5 1 | \
    | [1, 1, 0, 0, 0, 1, 0] [1, 1] accept to 1024, (0, 5, own, Accept(0))
what waits is one batch, at one moment | auth | 1 | ask wrong:1025 short ask:1026 ask | | 5 1 | \
    | [1, 5, 1, 0, 0, 4, 0] [5, 4] \
    accept to 1024, reject to 1025, limit to 1026, accept to 1024, \
    (0, 5, own, Accept(0)) (0, 5, own, LimitReject) (0, 5, own, Accept(0))
each turn is a batch of its own | auth | 2 | ask nothing ask:1025 | | 5 1 | \
    | [2, 2, 0, 0, 0, 2, 0] [2, 2] accept to 1024, limit to 1025, \
    (0, 5, own, Accept(0)) (1, 6, own, LimitReject)
no turns | auth | 0 | ask | | 5 1 | | [0, 0, 0, 0, 0, 0, 0] [0, 0]
nothing comes | auth | 2 | nothing | | 5 1 | | [2, 0, 0, 0, 0, 0, 0] [0, 0]
a restart is one sweep, a stray a line | acct | 1 | start on stray stop | | 5 1 | \
    | [1, 4, 0, 0, 0, 4, 0] [4, 4] start to 1024, on to 1024, stray to 1024, stop to 1024, \
    (0, 5, own, Done) (0, 5, sweep, Done) (0, 5, stray, Done) (0, 5, own, Done)
a restart frees a place for what waits behind it | acct | 2 | start nothing on start forged | | 5 1 | \
    | [2, 4, 1, 0, 0, 3, 0] [4, 3] start to 1024, on to 1024, start to 1024, \
    (0, 5, own, Done) (1, 6, sweep, Done) (1, 6, own, Done)
peers of a network count as its client, and each gets its answer | auth | 1 | ask@2001:db8:7::5 \
    ask@192.0.2.9 ask wrong@2001:db8:7::6 ask:1025 | | 5 1 | \
    | [1, 5, 0, 0, 0, 5, 0] [5, 5] accept to [2001:db8:7::5]:1024, accept to 192.0.2.9:1024, accept to 1024, \
    reject to [2001:db8:7::6]:1024, limit to 1025, (0, 5, own, Accept(0)) (0, 5, own, Accept(0)) \
    (0, 5, own, Accept(0)) (0, 5, own, LimitReject)
peers of no client are dropped | auth | 1 | ask@2001:db8:8::5 ask@198.51.100.1 ask@0.0.0.0 | | 5 1 | \
    | [1, 3, 3, 0, 0, 0, 0] [3, 0]
the first send fails | auth | 1 | ask ask:1025 | 0 | 5 1 | \
    | [1, 2, 0, 0, 0, 1, 1] [2, 2] accept to 1024, limit to 1025, \
    (0, 5, own, Accept(0)) (0, 5, own, LimitReject)
a reject beside unrecorded asks | auth | 1 | ask wrong:1025 ask:1026 | | 5 1 | append 0 \
    | [1, 3, 0, 0, 2, 1, 0] [3, 1] reject to 1025,
a batch that fails leaves no trace | auth | 2 | ask:1025 wrong nothing ask | | 5 1 | append 0 \
    | [2, 3, 0, 0, 1, 2, 0] [3, 2] reject to 1024, accept to 1024, (0, 6, own, Accept(0))
a batch without moves is not recorded | auth | 1 | wrong bare half | | 5 1 | sync 0 \
    | [1, 3, 1, 0, 0, 2, 0] [3, 2] reject to 1024, bare to 1024,
nothing more can be recorded | auth | 9 | ask wrong nothing ask | | 5 1 | sync 0 \
    | Ended [1, 2, 0, 0, 1, 1, 0] [2, 1] reject to 1024,
the second batch is the last | auth | 9 | ask nothing ask nothing ask | | 5 1 | sync 1 \
    | Ended [2, 2, 0, 0, 1, 1, 0] [2, 1] accept to 1024, (0, 5, own, Accept(0))
the port fails at once | auth | 9 | fault ask | | 5 1 | \
    | Down [1, 0, 0, 0, 0, 0, 0] [0, 0]
what came before the port failed is answered | auth | 9 | ask wrong fault ask | | 5 1 | \
    | Down [1, 2, 0, 0, 0, 2, 0] [2, 2] accept to 1024, reject to 1024, \
    (0, 5, own, Accept(0))
the port fails and nothing can be recorded | auth | 9 | ask fault | | 5 1 | sync 0 \
    | Down [1, 1, 0, 0, 1, 0, 0] [1, 0]
";

/// Many come at once: the counts, what the port counts, and how many moves each batch has that was
/// recorded.
const CROWDS: &str = "
as many as a turn takes | auth | 1 | ask*64 | | 5 1 | \
    | [1, 64, 0, 0, 0, 64, 0] [64, 64] 64
one more stays at the port | auth | 1 | ask*65 | | 5 1 | \
    | [1, 64, 0, 0, 0, 64, 0] [64, 64] 64
and is taken by the next turn | auth | 2 | ask*65 | | 5 1 | \
    | [2, 65, 0, 0, 0, 65, 0] [65, 65] 64 1
dropped ones count among the 64 | auth | 1 | short*63 ask ask | | 5 1 | \
    | [1, 64, 63, 0, 0, 1, 0] [64, 1] 1
rejects alone are not recorded | auth | 2 | wrong*65 | | 5 1 | \
    | [2, 65, 0, 0, 0, 65, 0] [65, 65]
";

/// What a watcher learns: that a turn has begun, and the port that each datagram came from, its
/// client, how it ended, and why it is rejected, if it is.
const WATCHED: &str = "
each end, in the order of the datagrams | auth | 1 | ask short:1025 wrong:1026 half bare:1027 ask:1028 \
    | | 5 1 | | begin (1024, Some(0), Answered(Accept(0)), None) (1025, Some(0), Dropped(Short), None) \
    (1026, Some(0), Answered(Reject), Some(WrongPassword)) (1024, Some(0), Dropped(BadLength), None) \
    (1027, Some(0), Answered(Reject), Some(Malformed)) (1028, Some(0), Answered(LimitReject), None)
peers of networks, and of no client | auth | 1 | ask@2001:db8:7::5 ask@2001:db8:8::5 ask@198.51.100.1 | | 5 1 | \
    | begin (1024, Some(0), Answered(Accept(0)), None) (1024, None, Dropped(UnknownClient), None) \
    (1024, None, Dropped(UnknownClient), None)
an answer that could not be sent | auth | 1 | ask wrong | 0 1 | 5 1 | \
    | begin (1024, Some(0), Unsent(Accept(0)), None) (1024, Some(0), Unsent(Reject), Some(WrongPassword))
a batch that is not recorded | auth | 1 | ask wrong short | | 5 1 | append 0 \
    | begin (1024, Some(0), Unrecorded, None) (1024, Some(0), Answered(Reject), Some(WrongPassword)) \
    (1024, Some(0), Dropped(Short), None)
";

#[test]
fn turns_tell_how_each_datagram_ended(rt: HostRuntime) -> Result<(), Fail> {
    check_rows(&rt, &Watched, WATCHED)
}

#[test]
fn turns_over_what_waits(rt: HostRuntime) -> Result<(), Fail> {
    check_rows(&rt, &Turns, TURNS)
}

#[test]
fn turns_over_as_many_as_they_take(rt: HostRuntime) -> Result<(), Fail> {
    check_rows(&rt, &Crowds, CROWDS)
}

/// What is sent in one turn over a store, of what comes.
fn sent_in_turn(
    alloc: Global,
    config: &Config,
    coming: &str,
    store: &mut Store<MemoryLog>,
) -> Result<String, Fail> {
    let scene = Scene {
        port: "auth",
        turns: "1",
        coming,
        failing: "",
        clock: "5 1",
        disk: "",
    };
    let mut text = String::new(alloc);
    let datagrams = served(alloc, config, scene, store, &mut Unwatched, &mut text)?;
    text.clear();
    push_sent(&mut text, alloc, datagrams.sent())?;
    Ok(text)
}

/// After a loss of power what was answered is answered so again, and its place is still taken.
#[test]
fn a_restart_changes_no_answer(rt: HostRuntime) -> Result<(), Fail> {
    let alloc = rt.alloc();
    let config = shared_config(alloc)?;
    let mut store = store_of(alloc, &config, "")?;
    let sent = sent_in_turn(alloc, &*config, "ask ask:1025", &mut store)?;
    assert_eq!(rt; sent.as_str(), " accept to 1024, limit to 1025,");
    let mut log = left_by(store);
    let frames = read_frames(alloc, &mut log)?;
    let Ok(mut opened) = Store::open(alloc, Arc::try_clone(&config)?, log, &frames) else {
        return Err("not opened")?;
    };
    let again = sent_in_turn(alloc, &*config, "ask ask:1025 ask:1026", &mut opened.store)?;
    assert_eq!(rt;
        again.as_str(),
        " accept to 1024, limit to 1025, limit to 1026,"
    );
    Ok(())
}
