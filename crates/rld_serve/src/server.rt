ghost use Rattle.std.specs.Prelude.{◌≡◌, Err, IfErr, IfOk, IfSome, IsTrue, false, length, map};
ghost use Rattle.std.specs.Arc.{arc_value};
ghost use Rattle.std.specs.List.{filter_map};
ghost use Rattle.rld_books.specs.Saved.{IsServerOf};
ghost use Rattle.rld_edges.specs.Fault.{fault_in, gravest};
ghost use Rattle.rld_edges.specs.Jobs.{port_of};
ghost use Rattle.rld_edges.specs.declared.fault.RunFault.TheVariants.{Unsynced};
ghost use Rattle.rld_counts.specs.Fates.{gate_of};
ghost use Rattle.rld_serve.specs.Fitting.{AreFit};

use crate::accounts::Accounts;
use crate::asking::Seat;
use crate::following::{failed_by, is_to_work};
use crate::reporting::MOST_TOLD;
use crate::rolling::Rolls;
use circular_buffer::HeapCircularBuffer;
use rld_ask::Asks;
use rld_counts::{Board, Gate};
use rld_current::{Current, Shared};
use rld_edges::{
    Control, Job, Orders, Readiness, RunFault, Shutdown, Sockets, outcome_of, ports_of,
};
use rld_folder::LogKey;
use rld_log::{FileLog, PacedLog, Pacing};
use rld_look::{ArchiveLook, Build, History, Pages, Refusals, Sink};
use rld_networks::Network;
use rld_start::Generations;
use rld_state::{ServerState, Told, Trouble, news_of_clock, seconds_behind};
use rld_store::Store;
use rsl_event::Port;
use rsl_port::{Clock, SystemClock};
use rsl_reply::Dictionary;
use std::alloc::{AllocError, Global};
use std::net::{Net, TcpListener, TcpStream};
use std::sync::atomic::{AtomicBool, AtomicU64, Ordering};
use std::sync::{Arc, Mutex, RwLock, Wait};
use std::thread::{self, Threads};
use std::time::{self, Duration};

/// How long the worker that makes ticks sleeps between two, in seconds.
const TICK_SECS: u64 = 1;

const _: () = prove!(TICK_SECS == 1);

/// What a server starts with, besides its accounts, its sockets, its store and its folder.
#[derive(Clone, Copy)]
pub struct Plan<'a> {
    /// The build that runs.
    pub build: Build,
    /// The names that attributes have.
    pub names: &'a Dictionary,
    /// The networks that stand for its clients.
    pub networks: &'a [Network],
    /// The second of its start, since 1970: the moment if the clock cannot be read.
    pub start: u64,
    /// When its logs are synced to the disk, and the ticks that it makes.
    pub pacing: Pacing<'a>,
    /// The text written to standard error once all workers have started.
    pub greeting: &'a str,
    /// The reader of standard error.
    pub sink: Sink,
}

/// A running server, which its workers share.
#[derive(Drop)]
pub(crate) struct Server<'a, G, A, R> {
    pub(crate) rt: &'a R,
    pub(crate) files: &'a HostRuntime,
    pub(crate) alloc: Global,
    pub(crate) plan: Plan<'a>,
    pub(crate) sockets: &'a Sockets,
    pub(crate) generations: &'a G,
    pub(crate) accounts: &'a A,
    pub(crate) state: Mutex<ServerState<PacedLog<'a, FileLog>>>,
    pub(crate) board: Board,
    /// Where asks are counted, if they come in.
    pub(crate) seat: Option<Seat>,
    pub(crate) refusals: Refusals,
    pub(crate) told: Mutex<HeapCircularBuffer<Told>>,
    pub(crate) history: Mutex<History>,
    pub(crate) is_failing: AtomicBool,
    /// Whether an operator has asked it to end.
    pub(crate) is_stopped: AtomicBool,
    pub(crate) clock_behind: AtomicU64,
    pub(crate) archive: Mutex<ArchiveLook>,
    /// The sessions that are to be disconnected.
    pub(crate) orders: Orders,
    pub(crate) shutdown: Shutdown,
    pub(crate) current: RwLock<Current>,
}

/// Serves until it is asked to end or cannot go on: receives RADIUS datagrams on the sockets,
/// answers each once its move is recorded, and makes a tick each second. Each receiver has its own
/// thread, and so have the worker that makes ticks, the one that answers on the control socket, the
/// one that writes to standard error, the one that has sessions disconnected, if there are `pages` the
/// one that shows the server, and if there are `asks` the one that takes them.
///
/// The next generation begins after 1,000,000 moves or ten minutes, whichever comes first. If it
/// cannot begin, the present one goes on, and it is tried again a minute later. At the start, and
/// once a generation has begun, the logs before it are put away.
///
/// On an operator's request the accounts are read again (`reload`), between the turns of all
/// receivers. What comes meanwhile waits in the sockets' buffers.
///
/// The store's books and its table are of these accounts; it has no move yet. `key` is the right to remove
/// its log.
/// The plan's networks are those of the file that `accounts` are read again by, and fit these accounts.
///
/// `greeting` is written to standard error once all workers have started, and a last line where an operator
/// has asked it to end. A line says when batches are no longer recorded, and when they are again; so it does
/// if a generation cannot begin, or logs cannot be put away. Where the disk has no room, the oldest logs of
/// the archive go, within a second, and a line says which. Each refused datagram has a line, up to 20 of a
/// cause each second, and a line gives the number of the others.
///
/// `Threads` comes if a worker has not started within about five seconds, `Down` if a socket fails,
/// `Unsynced` if the store can record nothing more, and `NoMemory` if memory is refused at the
/// start. All workers then end: no receiver goes on alone. Of several faults the gravest is given.
///
/// `files` reads the system's tables of sockets: a thread can be given no other handle to files
/// than the system's own.
pub fn serve<'a, P, G, A, R>(
    rt: &'a R,
    files: &'a HostRuntime,
    alloc: Global,
    plan: Plan<'a>,
    sockets: &'a Sockets,
    control: &Control,
    pages: Option<&P>,
    asks: Option<&Asks>,
    generations: &'a G,
    accounts: &'a A,
    store: Store<PacedLog<'a, FileLog>>,
    key: LogKey,
) -> Result<(), RunFault>
where
    P: Pages + Sync,
    G: Generations + Sync,
    A: Accounts + Sync,
    R: Net<Listener = TcpListener, Stream = TcpStream>
        + Eprint
        + time::Clock
        + Threads
        + Wait
        + Sync,
    requires server { IsServerOf (arc_value store.config) store.books }
    requires kept { key.generation ≡ store.header.generation }
    requires networks { A.networks accounts.now ≡ plan.networks.now }
    requires fit { AreFit plan.networks.now (arc_value store.config) }
{
    let mut jobs = sockets.jobs(alloc, control)?;
    if pages.is_some() {
        jobs.push(Job::Show)?;
    }
    if asks.is_some() {
        jobs.push(Job::Ask)?;
    }
    let config = Arc::try_clone(store.config())?;
    let rooms = Rooms::new(alloc, plan.start, config.clients(), jobs.as_slice(), asks)?;
    let Rooms {
        board,
        seat,
        refusals,
        told,
        history,
        orders,
    } = rooms;
    let state = ServerState::new(store, key);
    let current = Current::of(&state, config);
    let server = Server {
        rt,
        files,
        alloc,
        plan,
        sockets,
        generations,
        accounts,
        state: Mutex::new(state),
        board,
        seat,
        refusals,
        told: Mutex::new(told),
        history: Mutex::new(history),
        is_failing: AtomicBool::new(false),
        is_stopped: AtomicBool::new(false),
        clock_behind: AtomicU64::new(0),
        archive: Mutex::new(ArchiveLook { logs: 0, octets: 0 }),
        orders,
        shutdown: Shutdown::new(jobs.len()),
        current: RwLock::new(current),
    };
    run_jobs(&server, jobs.as_slice(), pages, asks)
}

/// The room for what a server counts, and for what its workers leave each other.
#[derive(Drop)]
struct Rooms {
    board: Board,
    seat: Option<Seat>,
    refusals: Refusals,
    told: HeapCircularBuffer<Told>,
    history: History,
    orders: Orders,
}

impl Rooms {
    /// The room of a server that starts at this second, with this number of clients and these jobs. It
    /// fails only if memory is refused.
    fn new(
        alloc: Global,
        start: u64,
        clients: u32,
        jobs: &[Job<'_>],
        asks: Option<&Asks>,
    ) -> Result<Rooms, AllocError>
        ensures { IfOk result (λ rooms. IfSome rooms.seat (λ seat.
            seat.number ≡ length (filter_map port_of jobs.now))) }
    {
        let ports = ports_of(alloc, jobs)?;
        let mut gates = gates_of(alloc, ports.as_slice())?;
        let seat = asks.map(|asks| Seat {
            client: asks.client(),
            number: gates.len(),
        });
        if seat.is_some() {
            gates.push(Gate::Ask)?;
        }
        Ok(Rooms {
            board: Board::new(alloc, clients, gates.as_slice())?,
            seat,
            refusals: Refusals::new(alloc, gates.len())?,
            told: HeapCircularBuffer::with_capacity(alloc, MOST_TOLD)?,
            history: History::new(alloc, start)?,
            orders: Orders::new(alloc)?,
        })
    }
}

/// Where the receivers of these ports take what they count.
fn gates_of(alloc: Global, ports: &[Port]) -> Result<Vec<Gate>, AllocError>
    ensures { IfOk result (λ gates. gates.items ≡ map gate_of ports.now) }
{
    let mut gates = Vec::new(alloc);
    for port in ports {
        gates.push(Gate::of(*port))?;
    }
    Ok(gates)
}

/// Does each job on its own thread, and gives their results. That nothing more can be recorded is
/// the fault even if each worker met another one.
fn run_jobs<P, G, A, R>(
    server: &Server<'_, G, A, R>,
    jobs: &[Job<'_>],
    pages: Option<&P>,
    asks: Option<&Asks>,
) -> Result<(), RunFault>
where
    P: Pages + Sync,
    G: Generations + Sync,
    A: Accounts + Sync,
    R: Net<Listener = TcpListener, Stream = TcpStream>
        + Eprint
        + time::Clock
        + Threads
        + Wait
        + Sync,
{
    let ended = thread::map_indices(
        server.rt,
        server.alloc,
        jobs.len(),
        &|i| server.work(jobs.get(i), i, pages, asks),
    )?;
    let has_ended = server.state.lock(server.rt).has_ended();
    outcome_after(has_ended, ended.as_slice())
}

/// The outcome of workers that ended so, where nothing more can be recorded or it can.
fn outcome_after(has_ended: bool, ended: &[Result<(), RunFault>]) -> Result<(), RunFault>
    ensures ended { IsTrue has_ended → result ≡ Err Unsynced }
    ensures open { has_ended ≡ false → fault_in result ≡ gravest ended.now }
{
    if has_ended {
        return Err(RunFault::Unsynced);
    }
    outcome_of(ended)
}

impl<'a, G, A, R> Server<'a, G, A, R>
where
    G: Generations,
    A: Accounts,
    R: Net + Eprint + time::Clock + Wait,
{
    /// Does the job with this number until the server is to end or the job fails, and then makes
    /// the others end.
    fn work<P: Pages>(
        &self,
        job: Option<&Job<'_>>,
        number: usize,
        pages: Option<&P>,
        asks: Option<&Asks>,
    ) -> Result<(), RunFault> {
        let outcome = match job {
            Some(Job::Receive(socket, port)) => self.receive_all(socket, *port, number),
            Some(Job::Tick) => self.tick(),
            Some(Job::Answer(control)) => self.answer_all(control),
            Some(Job::Report) => self.report_all(),
            Some(Job::Disconnect) => self.disconnect_all(),
            Some(Job::Show) => match pages {
                Some(pages) => self.show(pages),
                None => Ok(()),
            },
            Some(Job::Ask) => match asks {
                Some(asks) => self.take_asks(asks),
                None => Ok(()),
            },
            None => Ok(()),
        };
        self.shutdown.end();
        outcome
    }

    /// Notes that a worker has started, and waits for the others. Gives whether there is work to
    /// do.
    pub(crate) fn has_started(&self) -> Result<bool, RunFault> {
        is_to_work(self.shutdown.await_start(self.rt))
    }

    /// Answers operators, one after the other.
    fn answer_all(&self, control: &Control) -> Result<(), RunFault> {
        let mut readiness = Readiness::of(self.rt, self.alloc, control.listener())?;
        if !self.has_started()? {
            return Ok(());
        }
        for _ in self.rt.forever() {
            if self.shutdown.is_over() {
                break;
            }
            match control.listener().accept() {
                Ok((stream, _)) => self.answer(stream),
                Err(_) => readiness.wait()?,
            }
        }
        Ok(())
    }

    /// Makes a tick each second, begins the next generation if it is due, and reports failures.
    fn tick(&self) -> Result<(), RunFault> {
        if !self.has_started()? {
            return Ok(());
        }
        let mut clock = SystemClock::new(self.rt, self.plan.start);
        let mut trouble = Trouble::new();
        let mut clock_trouble = Trouble::new();
        let mut rolls = Rolls::new();
        self.put_away(&mut rolls, clock.now());
        for _ in self.rt.forever() {
            if self.shutdown.is_over() {
                break;
            }
            let has_failed = self.tick_once(&mut clock)?;
            let has_failed = self.tick_in_room(has_failed, &mut clock)?;
            self.is_failing.store(has_failed, Ordering::SeqCst);
            self.watch_clock(&mut clock_trouble, &mut clock);
            self.end_minute_if_over(clock.now());
            if let Some(news) = trouble.news(has_failed) {
                self.tell(Told::Recording(news));
            }
            self.roll_if_due(&mut rolls, clock.now())?;
            thread::sleep(self.rt, Duration::from_secs(TICK_SECS));
        }
        Ok(())
    }

    /// Where the disk has had no room since the last call: the oldest logs of the archive go, and another tick
    /// is made, until there is room or the archive has no log. Gives whether that tick, or a batch of another
    /// worker since logs went, was not recorded; that is `has_failed` where no log has gone.
    fn tick_in_room(
        &self,
        has_failed: bool,
        clock: &mut SystemClock<'_, R>,
    ) -> Result<bool, RunFault> {
        let ticks = self.plan.pacing.ticks;
        let mut has_failed = has_failed;
        for _ in self.rt.forever() {
            if !ticks.take_wants_room() || !self.make_room() {
                break;
            }
            // what found no room before may find some now, and the line on what was removed tells of it
            let _ = ticks.take_wants_room();
            let _ = self.shared().take_failed();
            has_failed = self.tick_once(clock)?;
        }
        Ok(has_failed)
    }

    /// Looks whether the clock is behind the books, and reports where that begins and where it is over. The
    /// clock is read last: whoever has stepped the books has read it before.
    fn watch_clock(&self, trouble: &mut Trouble, clock: &mut SystemClock<'_, R>) {
        let of_books = self.state.lock(self.rt).clock();
        let behind = seconds_behind(clock.now(), of_books);
        self.clock_behind.store(behind, Ordering::SeqCst);
        if let Some(news) = news_of_clock(trouble, behind) {
            self.tell(Told::Clock(news));
        }
    }

    /// Makes a tick, and gives whether it, or a batch of another worker since the last one, was not
    /// recorded. `Unsynced` comes where nothing more can be.
    fn tick_once(&self, clock: &mut SystemClock<'_, R>) -> Result<bool, RunFault>
        ensures { IfErr result (λ fault. fault ≡ Unsynced) }
    {
        self.plan.pacing.ticks.begin();
        let shared = self.shared();
        let ticked = shared.tick(clock.now());
        failed_by(ticked, shared.take_failed())
    }
}

impl<'a, G, A, R> Server<'a, G, A, R> {
    /// What turns share.
    pub(crate) fn shared(&self) -> Shared<'_, PacedLog<'a, FileLog>, R>
        ensures { result.networks.now ≡ self.now.plan.networks.now }
    {
        Shared {
            rt: self.rt,
            alloc: self.alloc,
            state: &self.state,
            networks: self.plan.networks,
        }
    }
}
