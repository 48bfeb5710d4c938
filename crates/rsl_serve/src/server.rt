ghost use Rattle.std.specs.Prelude.{◌≡◌, ◌≢◌, ◌∷◌, ℕ, List, [], IfErr, IfOk};
ghost use Rattle.std.specs.Io.KnownBytes.{Appends, Keeps};
ghost use Rattle.rsl_event.specs.declared.meaning.Port.TheVariants as ports;
ghost use Rattle.rsl_service.specs.Told.{no_numbers};
ghost use Rattle.rsl_record.specs.Output.{output_octets};
ghost use Rattle.rsl_serve.specs.Served.{HasClosed, HasReported, HasServed, IsPrinted, IsReceived};
ghost use Rattle.rsl_service.specs.Service.{IsLedgerOf};

use crate::clock::RunTime;
use crate::shutdown::Shutdown;
use crate::workers::Received;
use crate::{Plan, ServeFault, UdpPort, counts_of};
use rsl_account_file::read_config_file;
use rsl_accounts::Config;
use rsl_record::{Output, table_of};
use rsl_reply::Dictionary;
use rsl_service::{Blanks, Closed, Counts, Open, Pass, Service, Tally};
use std::alloc::Global;
use std::env::{self, Env};
use std::fs::Files;
use std::io::{ErrorKind, Write};
use std::marker::Brand;
use std::net::Net;
use std::sync::Wait;
use std::thread::Threads;
use std::time;

/// Serves the accounts of a file, whose attributes have the names of a dictionary: receives RADIUS datagrams on two UDP sockets, for TURNS turns of
/// each, and answers them. Then it writes what both receivers did, a line for each, and what each
/// account holds.
///
/// The arguments after the program's name and a first word are FILE, ADDRESS, AUTHPORT, ACCTPORT
/// and TURNS; `Plan::read` reads the last four. The faults come in this order, and nothing is
/// written before the last: `Usage` if the arguments are wrong; `InputOutput` if the clock cannot
/// be read; `Unreadable` and `Config` if the account file is; `InputOutput` if a socket cannot be
/// bound or fails, a thread cannot be made, or the record is not settled at the end, and if a write
/// fails. `NoMemory` comes if memory is refused, except in a step.
///
/// It receives no datagram in the second of its start, which is its boot number. What it gives is
/// its service, closed.
pub fn serve<R, W: Write>(rt: &R, names: &Dictionary, stdout: &mut W) -> Result<Closed, ServeFault>
where
    R: Env + Files + Net + time::Clock + AllocGlobal + Threads + Wait + Sync,
    // What is written is what the receivers did and what the accounts hold, and nothing else; the
    // service was closed with the passes of its workers.
    ensures served { IfOk result (λ closed. (turns : ℕ) × (written : List ℕ)
        × HasServed closed turns written
        × Appends (W.contents stdout.old) (W.contents stdout.new) written) }
    // Nothing was written after any fault but `InputOutput`.
    ensures silent { IfErr result (λ fault.
        fault ≢ ServeFault.InputOutput → Keeps (W.contents stdout.old) (W.contents stdout.new)) }
{
    let served = run_server(rt, names)?;
    served.output.write(stdout)?;
    Ok(served.closed)
}

/// Runs a server by its arguments.
fn run_server<R>(rt: &R, names: &Dictionary) -> Result<Served, ServeFault>
where
    R: Env + Files + Net + time::Clock + AllocGlobal + Threads + Wait + Sync,
    ensures { IfOk result (λ served. (turns : ℕ)
        × HasServed served.closed turns (output_octets served.output)) }
{
    let start = rt.since_1970();
    let alloc = rt.alloc();
    let (file, plan) = parse_arguments(rt)?;
    let run_time = RunTime::new(start?, plan.turns);
    let config = read_config_file(rt, alloc, names, file.as_str())?;
    let sockets = Sockets {
        auth: UdpPort::bind(rt, plan.address, plan.auth)?,
        acct: UdpPort::bind(rt, plan.address, plan.acct)?,
    };
    run_time.await_next_second(rt);
    let blanks = Blanks::new();
    run::<Brand, Brand, Brand, Brand, R>(rt, alloc, blanks, config, sockets, run_time)
}

/// The name of the account file and the plan in the arguments: the program's name, a first word,
/// FILE, ADDRESS, AUTHPORT, ACCTPORT and TURNS.
///
/// `Usage` comes if they are anything else, and `NoMemory` if memory is refused for them.
fn parse_arguments<R: Env + AllocGlobal>(rt: &R) -> Result<(String, Plan), ServeFault> {
    let alloc = rt.alloc();
    let words = match env::args(rt) {
        Ok(words) => words,
        Err(error) if error.kind() == ErrorKind::OutOfMemory => return Err(ServeFault::NoMemory),
        Err(_) => return Err(ServeFault::Usage),
    };
    let words: Vec<String> = words.collect(alloc)?;
    let [_program, _serve, file, address, auth, acct, turns] = words.as_slice() else {
        return Err(ServeFault::Usage);
    };
    match Plan::read(
        address.as_str(),
        auth.as_str(),
        acct.as_str(),
        turns.as_str(),
    ) {
        Some(plan) => Ok((file.clone()?, plan)),
        None => Err(ServeFault::Usage),
    }
}

/// The sockets of a server, before the first read.
#[derive(Drop)]
pub(crate) struct Sockets {
    pub auth: UdpPort,
    pub acct: UdpPort,
}

/// The passes of the workers of a server.
#[derive(Drop)]
pub(crate) struct Passes<L0: Tally, L1: Tally, L2: Tally, L3: Tally> {
    pub auth: Pass<L0, L1, L2, L3>,
    pub acct: Pass<L0, L1, L2, L3>,
    pub ticks: Pass<L0, L1, L2, L3>,
}

/// The results of a server's workers: what both receivers did, and the passes.
#[derive(Drop)]
pub(crate) struct Finished<L0: Tally, L1: Tally, L2: Tally, L3: Tally> {
    pub auth: Received,
    pub acct: Received,
    pub passes: Passes<L0, L1, L2, L3>,
}

/// What a server leaves that has ended well.
#[derive(Drop)]
pub(crate) struct Served {
    /// What is printed.
    pub output: Output,
    /// Its service, closed with the passes of its workers.
    pub closed: Closed,
    /// What its receivers did.
    pub auth: Received,
    pub acct: Received,
}

/// A running server: its service, and what its workers share.
#[derive(Drop)]
pub(crate) struct Server<'a, L0: Tally, L1: Tally, L2: Tally, L3: Tally, R> {
    pub rt: &'a R,
    pub alloc: Global,
    pub service: Service<L0, L1, L2, L3, Open>,
    pub run_time: RunTime,
    pub shutdown: Shutdown,
}

/// Runs a server until both receivers have taken their turns, and closes its service.
fn run<L0, L1, L2, L3, R>(
    rt: &R,
    alloc: Global,
    blanks: Blanks,
    config: Config,
    sockets: Sockets,
    run_time: RunTime,
) -> Result<Served, ServeFault>
where
    L0: Tally + Send + Sync,
    L1: Tally + Send + Sync,
    L2: Tally + Send + Sync,
    L3: Tally + Send + Sync,
    R: time::Clock + Threads + Wait + Sync,
    requires ledger0 { IsLedgerOf config 0
        blanks.blank0.name blanks.blank0.parts L0.name L0.parts L0.setup L0.books }
    requires ledger1 { IsLedgerOf config 1
        blanks.blank1.name blanks.blank1.parts L1.name L1.parts L1.setup L1.books }
    requires ledger2 { IsLedgerOf config 2
        blanks.blank2.name blanks.blank2.parts L2.name L2.parts L2.setup L2.books }
    requires ledger3 { IsLedgerOf config 3
        blanks.blank3.name blanks.blank3.parts L3.name L3.parts L3.setup L3.books }
    requires auth { sockets.auth ≡ no_numbers }
    requires acct { sockets.acct ≡ no_numbers }
    ensures config { IfOk result (λ served. served.closed.config ≡ config) }
    ensures boot { IfOk result (λ served. served.closed.boot ≡ run_time.boot) }
    ensures auth { IfOk result (λ served. IsReceived ports.Auth run_time.turns served.auth) }
    ensures acct { IfOk result (λ served. IsReceived ports.Acct run_time.turns served.acct) }
    ensures printed { IfOk result (λ served. IsPrinted config
        served.auth.taken.counts served.acct.taken.counts (output_octets served.output)) }
    ensures served { IfOk result (λ served.
        HasServed served.closed run_time.turns (output_octets served.output)) }
{
    let service: Service<L0, L1, L2, L3, Open> = Service::new(
        alloc,
        blanks,
        config,
        run_time.boot,
        Open,
    )?;
    let server = Server {
        rt,
        alloc,
        service,
        run_time,
        shutdown: Shutdown::new(),
    };
    let passes = server.open_passes()?;
    let finished = server.run_workers(passes, sockets)?;
    server.close(finished)
}

impl<L0: Tally, L1: Tally, L2: Tally, L3: Tally, R: Wait> Server<'_, L0, L1, L2, L3, R> {
    /// Opens a pass for each worker.
    fn open_passes(&self) -> Result<Passes<L0, L1, L2, L3>, ServeFault> {
        Ok(Passes {
            auth: self.service.open_pass(self.rt, self.alloc)?,
            acct: self.service.open_pass(self.rt, self.alloc)?,
            ticks: self.service.open_pass(self.rt, self.alloc)?,
        })
    }

    /// The report of the service.
    #[tactic(auto, using(crate::proofs::Reported::reported))]
    fn report(&self) -> Result<Vec<u8>, ServeFault>
        ensures { IfOk result (λ report. HasReported self.now.service.config report.items) }
    {
        let rows = self.service.report(self.rt, self.alloc)?;
        let report = table_of(self.alloc, self.service.config(), rows.as_slice())?;
        Ok(report)
    }

    /// What is printed of the service and its receivers.
    fn output(&self, auth: &Counts, acct: &Counts) -> Result<Output, ServeFault>
        ensures { IfOk result (λ output.
            IsPrinted self.now.service.config auth.now acct.now (output_octets output)) }
    {
        let report = self.report()?;
        let lines = counts_of(self.alloc, auth, acct)?;
        Ok(Output { lines, report })
    }

    /// Takes the report of the service, and closes it with these passes.
    fn close(self, finished: Finished<L0, L1, L2, L3>) -> Result<Served, ServeFault>
        requires auth { IsReceived ports.Auth self.run_time.turns finished.auth }
        requires acct { IsReceived ports.Acct self.run_time.turns finished.acct }
        ensures config { IfOk result (λ served.
            served.closed.config ≡ self.entry.service.config) }
        ensures boot { IfOk result (λ served. served.closed.boot ≡ self.entry.service.boot) }
        ensures closed { IfOk result (λ served. HasClosed served.closed
            finished.passes.auth.receipts finished.passes.acct.receipts finished.passes.ticks.receipts) }
        ensures auth { IfOk result (λ served.
            IsReceived ports.Auth self.entry.run_time.turns served.auth) }
        ensures acct { IfOk result (λ served.
            IsReceived ports.Acct self.entry.run_time.turns served.acct) }
        ensures printed { IfOk result (λ served. IsPrinted self.entry.service.config
            served.auth.taken.counts served.acct.taken.counts (output_octets served.output)) }
    {
        let Finished { auth, acct, passes } = finished;
        let output = self.output(&auth.taken.counts, &acct.taken.counts)?;
        let Server {
            rt: _,
            alloc,
            service,
            run_time: _,
            shutdown: _,
        } = self;
        let closed = close_service(alloc, service, passes)?;
        Ok(Served {
            output,
            closed,
            auth,
            acct,
        })
    }
}

/// Closes a service with the passes of its workers, which settles its record.
#[tactic(auto, using(crate::proofs::Reported::closing))]
fn close_service<L0: Tally, L1: Tally, L2: Tally, L3: Tally>(
    alloc: Global,
    service: Service<L0, L1, L2, L3, Open>,
    passes: Passes<L0, L1, L2, L3>,
) -> Result<Closed, ServeFault>
    ensures config { IfOk result (λ closed. closed.config ≡ service.config) }
    ensures boot { IfOk result (λ closed. closed.boot ≡ service.boot) }
    ensures closed { IfOk result (λ closed. HasClosed closed
        passes.auth.receipts passes.acct.receipts passes.ticks.receipts) }
{
    let passes = into_vec(alloc, passes)?;
    let closed = service.close(alloc, passes, Vec::new(alloc))?;
    Ok(closed)
}

/// The passes as a list.
fn into_vec<L0: Tally, L1: Tally, L2: Tally, L3: Tally>(
    alloc: Global,
    passes: Passes<L0, L1, L2, L3>,
) -> Result<Vec<Pass<L0, L1, L2, L3>>, ServeFault>
    ensures { IfOk result (λ list. list.items ≡ passes.auth ∷ passes.acct ∷ passes.ticks ∷ []) }
{
    Ok(vec![in alloc; passes.auth, passes.acct, passes.ticks]?)
}
