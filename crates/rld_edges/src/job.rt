ghost use Rattle.std.specs.Prelude.{◌≡◌, ◌++◌, map, IfOk, OnOk};
ghost use Rattle.std.specs.List.{filter_map, flat_map};
ghost use Rattle.rld_edges.specs.Jobs.{jobs_of, jobs_on, port_of, receivers_on, seen};

use crate::control::Control;
use crate::sockets::{Bound, Pair, Sockets};
use rsl_event::Port;
use std::alloc::{AllocError, Global};

/// The job of a worker of a server.
#[derive(Clone, Copy, Drop)]
pub enum Job<'a> {
    /// Receive datagrams from this socket, for this port.
    Receive(&'a Bound, Port),
    /// Make ticks.
    Tick,
    /// Answer operators.
    Answer(&'a Control),
    /// Write to standard error.
    Report,
    /// Have access servers disconnect sessions.
    Disconnect,
    /// Show the server to clients.
    Show,
    /// It takes asks over HTTP.
    Ask,
}

impl Sockets {
    /// The jobs of a server's workers: the receivers that the server's file gives each socket, and
    /// one worker each that makes ticks, answers on the control socket, writes to standard error, and
    /// has sessions disconnected. It fails only if memory is refused.
    #[tactic(auto, using(crate::proofs::Pushing::four_more))]
    pub fn jobs<'a>(
        &'a self,
        alloc: Global,
        control: &'a Control,
    ) -> Result<Vec<Job<'a>>, AllocError>
        ensures { IfOk result (λ jobs.
            map seen jobs.items ≡ jobs_of self.now.pairs.items control.now) }
    {
        let mut jobs = self.receivers(alloc)?;
        jobs.push(Job::Tick)?;
        jobs.push(Job::Answer(control))?;
        jobs.push(Job::Report)?;
        jobs.push(Job::Disconnect)?;
        Ok(jobs)
    }

    /// The receivers that the server's file gives each socket.
    fn receivers(&self, alloc: Global) -> Result<Vec<Job<'_>>, AllocError>
        ensures { IfOk result (λ jobs.
            map seen jobs.items ≡ flat_map jobs_on self.now.pairs.items) }
    {
        let mut jobs = Vec::new(alloc);
        for pair in self.pairs.as_slice() {
            push_pair(&mut jobs, pair)?;
        }
        Ok(jobs)
    }
}

/// Adds the receivers of both sockets of a `[[listen]]`.
fn push_pair<'a>(jobs: &mut Vec<Job<'a>>, pair: &'a Pair) -> Result<(), AllocError>
    ensures { OnOk result (map seen jobs.new.items ≡ map seen jobs.old.items ++ jobs_on pair.now) }
{
    push_receivers(jobs, &pair.auth, Port::Auth, pair.receivers)?;
    push_receivers(jobs, &pair.acct, Port::Acct, pair.receivers)?;
    Ok(())
}

/// Adds the receivers of a socket, `receivers` in number.
fn push_receivers<'a>(
    jobs: &mut Vec<Job<'a>>,
    socket: &'a Bound,
    port: Port,
    receivers: u16,
) -> Result<(), AllocError>
    ensures { OnOk result (map seen jobs.new.items ≡ map seen jobs.old.items ++ receivers_on socket.now port receivers) }
{
    for _ in 0..receivers {
        jobs.push(Job::Receive(socket, port))?;
    }
    Ok(())
}

/// The port of each receiver among these jobs. It fails only if memory is refused.
pub fn ports_of(alloc: Global, jobs: &[Job<'_>]) -> Result<Vec<Port>, AllocError>
    ensures { IfOk result (λ ports. ports.items ≡ filter_map port_of jobs.now) }
{
    let mut ports = Vec::new(alloc);
    for job in jobs {
        if let Job::Receive(_, port) = job {
            ports.push(*port)?;
        }
    }
    Ok(ports)
}
