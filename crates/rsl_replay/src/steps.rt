ghost use Rattle.std.specs.Prelude.{◌≡◌, ℕ, ◌≤◌, ◌++◌, IfOk, OnOk, length, sum_by};
ghost use Rattle.rsl_accounts.specs.Configuration.{client_number};
ghost use Rattle.rsl_event.specs.declared.meaning.Port.TheVariants as Port;
ghost use Rattle.rsl_replay.specs.Access.{access_octets};
ghost use Rattle.rsl_replay.specs.Accounting.{accounting_octets};
ghost use Rattle.rsl_replay.specs.Steps.{
  step_count_of,
  datagram,
  delay_told,
  signing_at,
  nas_named,
  secret_at,
  step_count,
  steps_of_line,
  steps_of_lines,
  sweep_count,
  sweeps,
  sweeps_before,
  ticks,
};

use crate::access::access_octets;
use crate::accounting::accounting_octets;
use rsl_accounts::Config;
use rsl_event::{Nas, NasName, Port, Signing, Source};
use rsl_script::{AccessRequest, AccountingRequest, AttributeText, EventLine, Happening};
use rsl_steps::Step;
use rsl_wire::{NoMemory, Octets};
use std::alloc::Global;

/// The source port of every datagram of a script.
const SOURCE_PORT: u16 = 1024;

/// The secret for an address that is no client's.
const NO_SECRET: &[u8] = b"none";

/// The steps of event lines, in order, for a server with this boot number. It fails only if memory
/// is refused.
pub fn steps_of(
    alloc: Global,
    config: &Config,
    boot: u64,
    lines: &[EventLine],
) -> Result<Vec<Step>, NoMemory>
    ensures steps { IfOk result (λ steps. steps.items ≡ steps_of_lines config.now boot lines.now) }
    ensures count { IfOk result (λ steps.
        length steps.items ≡ sum_by (step_count config.now) lines.now) }
{
    let mut steps = Vec::new(alloc);
    for line in lines {
        push_line(alloc, config, boot, line, &mut steps)?;
    }
    Ok(steps)
}

/// Appends the steps of a line.
#[tactic(auto, unfolding(crate::specs::Steps::steps_of_line))]
fn push_line(
    alloc: Global,
    config: &Config,
    boot: u64,
    line: &EventLine,
    steps: &mut Vec<Step>,
) -> Result<(), NoMemory>
    ensures { OnOk result (steps.new.items ≡
        steps.old.items ++ steps_of_line config.now boot line.now) }
{
    let moment = line.moment;
    match &line.happening {
        Happening::Access { address, request } => {
            steps.push(access_datagram(alloc, config, moment, *address, request)?)?;
        }
        Happening::Accounting { address, request } => {
            push_sweeps_before(alloc, config, moment, *address, request, steps)?;
            steps.push(accounting_datagram(alloc, config, boot, moment, *address, request)?)?;
        }
        Happening::Raw {
            address,
            port,
            octets,
        } => {
            let octets = octets.try_copy(alloc)?;
            steps.push(datagram(moment, *port, *address, octets))?;
        }
        Happening::Tick => push_ticks(config, moment, steps)?,
    }
    Ok(())
}

/// The datagram of an Access-Request.
fn access_datagram(
    alloc: Global,
    config: &Config,
    moment: u64,
    address: [u8; 4],
    request: &AccessRequest,
) -> Result<Step, NoMemory>
    ensures { IfOk result (λ step. step ≡
        datagram moment Port.Auth address (access_octets
        request.now (signing_at config.now address) (secret_at config.now address))) }
{
    let signing = signing_at(config, address);
    let octets = access_octets(alloc, request, signing, secret_at(config, address))?;
    let octets = Octets::from_slice(alloc, &octets)?;
    Ok(datagram(moment, Port::Auth, address, octets))
}

/// The datagram of an Accounting-Request.
fn accounting_datagram(
    alloc: Global,
    config: &Config,
    boot: u64,
    moment: u64,
    address: [u8; 4],
    request: &AccountingRequest,
) -> Result<Step, NoMemory>
    ensures { IfOk result (λ step. step ≡
        datagram moment Port.Acct address (accounting_octets
        boot request.now (secret_at config.now address))) }
{
    let octets = accounting_octets(alloc, boot, request, secret_at(config, address))?;
    let octets = Octets::from_slice(alloc, &octets)?;
    Ok(datagram(moment, Port::Acct, address, octets))
}

/// A datagram from a client to a port.
fn datagram(moment: u64, port: Port, address: [u8; 4], octets: Octets) -> Step
    ensures { result ≡ datagram moment port address octets }
{
    Step::Datagram {
        moment,
        port,
        source: Source {
            address,
            port: SOURCE_PORT,
        },
        octets,
    }
}

/// The secret for packets from an address.
fn secret_at(config: &Config, address: [u8; 4]) -> &[u8]
    ensures { result.now ≡ secret_at config.now address }
{
    match config.client(address) {
        Some(client) => config.client_at(client).secret.expose(),
        None => NO_SECRET,
    }
}

/// The signing of an Access-Request from an address: signed if the client must sign.
fn signing_at(config: &Config, address: [u8; 4]) -> Signing
    ensures { result ≡ signing_at config.now address }
{
    match config.client(address) {
        Some(client) => Signing::of(config.client_at(client)),
        None => Signing::Plain,
    }
}

/// Appends the sweeps before an Accounting-Request: those of an access server of a client that has
/// restarted.
fn push_sweeps_before(
    alloc: Global,
    config: &Config,
    moment: u64,
    address: [u8; 4],
    request: &AccountingRequest,
    steps: &mut Vec<Step>,
) -> Result<(), NoMemory>
    ensures { OnOk result (steps.new.items ≡
        steps.old.items ++ sweeps_before config.now moment address request.now) }
{
    let AccountingRequest::Server { nas, delay, .. } = request else {
        return Ok(());
    };
    match config.client(address) {
        Some(client) => {
            let nas = nas_named(alloc, client, nas)?;
            push_sweeps(
                alloc,
                config,
                moment,
                &nas,
                delay_told(config, *delay),
                steps,
            )
        }
        None => Ok(()),
    }
}

/// The access server of a client with this name, or unnamed.
fn nas_named(alloc: Global, client: u32, name: &Option<AttributeText>) -> Result<Nas, NoMemory>
    ensures { IfOk result (λ nas. nas ≡ nas_named client name.now) }
{
    let name = match name {
        Some(name) => NasName::Identifier(name.to_octets(alloc)?),
        None => NasName::Unnamed,
    };
    Ok(Nas { client, name })
}

/// How many seconds ago an access server restarted: the delay of the line, if the configuration
/// heeds it, else 0.
fn delay_told(config: &Config, delay: Option<u32>) -> u64
    ensures { result ≡ delay_told config.now delay }
{
    if !config.heeds_delay_time() {
        return 0;
    }
    u64::from(delay.unwrap_or(0))
}

/// Appends a sweep of the access server for each shard.
fn push_sweeps(
    alloc: Global,
    config: &Config,
    moment: u64,
    nas: &Nas,
    delay: u64,
    steps: &mut Vec<Step>,
) -> Result<(), NoMemory>
    ensures { OnOk result (steps.new.items ≡
        steps.old.items ++ sweeps config.now moment nas.now delay) }
{
    for shard in 0..config.shards() {
        let nas = nas.try_copy(alloc)?;
        steps.push(Step::Sweep {
            shard,
            moment,
            nas,
            delay,
        })?;
    }
    Ok(())
}

/// Appends a tick for each shard.
fn push_ticks(config: &Config, moment: u64, steps: &mut Vec<Step>) -> Result<(), NoMemory>
    ensures { OnOk result (steps.new.items ≡ steps.old.items ++ ticks config.now moment) }
{
    for shard in 0..config.shards() {
        steps.push(Step::Tick { shard, moment })?;
    }
    Ok(())
}

/// The number of steps of a line.
#[tactic(auto, unfolding(crate::specs::Steps::step_count))]
pub(crate) fn step_count(config: &Config, line: &EventLine) -> usize
    ensures count { result ≡ step_count config.now line.now }
    ensures steps { (boot : ℕ) → length (steps_of_line config.now boot line.now) ≡ result }
{
    step_count_of(config, &line.happening)
}

/// The number of steps of what happens on a line.
fn step_count_of(config: &Config, happening: &Happening) -> usize
    ensures { result ≡ step_count_of config.now happening.now }
{
    match happening {
        Happening::Access { .. } | Happening::Raw { .. } => 1,
        Happening::Accounting { address, request } => sweep_count(config, request, *address) + 1,
        Happening::Tick => config.shards() as usize,
    }
}

/// The number of sweeps before an Accounting-Request.
fn sweep_count(config: &Config, request: &AccountingRequest, address: [u8; 4]) -> usize
    ensures count { result ≡
        sweep_count config.now request.now (client_number config.now address) }
    ensures few { result ≤ 4 }
{
    match (request, config.client(address)) {
        (AccountingRequest::Server { .. }, Some(_)) => config.shards() as usize,
        _ => 0,
    }
}
