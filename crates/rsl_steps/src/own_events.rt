ghost use Rattle.std.specs.Prelude.{◌≡◌, ◌<◌, length, IfOk, Ok};
ghost use Rattle.rsl_event.specs.Meaning.{meaning};
ghost use Rattle.rsl_steps.specs.Own.{event_of, own_event, own_events};

use crate::step::Step;
use rsl_accounts::Config;
use rsl_event::{Act, Dropped, Event, Meaning, Port, Source, prepare};
use rsl_wire::NoMemory;
use std::alloc::Global;

/// An account's own events among steps, in order: the account's own packets, and the sweeps and
/// ticks of its shard. A restart's datagram and a stray belong to no account. It fails only if
/// memory is refused.
#[tactic(auto, using(crate::proofs::OwnSteps::own_steps))]
pub fn own(
    alloc: Global,
    config: &Config,
    boot: u64,
    account: u32,
    steps: &[Step],
) -> Result<Vec<Event>, NoMemory>
    requires { account < length config.now.accounts }
    ensures { IfOk result (λ events. events.items ≡ own_events config.now boot account steps.now) }
{
    let mut events = Vec::new(alloc);
    for step in steps {
        if let Some(event) = event_of(alloc, config, boot, account, step)? {
            events.push(event)?;
        }
    }
    Ok(events)
}

/// The event of a step for an account, if any.
fn event_of(
    alloc: Global,
    config: &Config,
    boot: u64,
    account: u32,
    step: &Step,
) -> Result<Option<Event>, NoMemory>
    ensures { IfOk result (λ event. event ≡ event_of config.now boot account step.now) }
{
    match step {
        Step::Datagram {
            moment,
            port,
            source,
            octets,
        } => event_in(
            alloc,
            config,
            boot,
            account,
            *moment,
            *port,
            *source,
            octets.as_slice(),
        ),
        Step::Sweep {
            shard,
            moment,
            nas,
            delay,
        } if config.shard_of(account) == *shard => Ok(Some(Event {
            moment: *moment,
            act: Act::Sweep {
                nas: nas.try_copy(alloc)?,
                delay: *delay,
            },
        })),
        Step::Tick { shard, moment } if config.shard_of(account) == *shard => Ok(Some(Event {
            moment: *moment,
            act: Act::Tick,
        })),
        Step::Sweep { .. } | Step::Tick { .. } => Ok(None),
    }
}

/// The event of a datagram for an account, if any.
fn event_in(
    alloc: Global,
    config: &Config,
    boot: u64,
    account: u32,
    moment: u64,
    port: Port,
    source: Source,
    octets: &[u8],
) -> Result<Option<Event>, NoMemory>
    ensures { IfOk result (λ event. event ≡
        own_event account moment (meaning config.now boot port source octets.now)) }
{
    match prepare(alloc, config, boot, port, source, octets) {
        Ok(prepared) => own_event(alloc, account, moment, &prepared.meaning),
        Err(Dropped::NoMemory) => Err(NoMemory),
        Err(_) => Ok(None),
    }
}

/// The event of a meaning for an account, if any.
fn own_event(
    alloc: Global,
    account: u32,
    moment: u64,
    meaning: &Meaning,
) -> Result<Option<Event>, NoMemory>
    ensures { IfOk result (λ event. event ≡ own_event account moment (Ok meaning.now)) }
{
    match meaning {
        Meaning::Own {
            account: other,
            act,
        } if *other == account => Ok(Some(Event {
            moment,
            act: act.try_copy(alloc)?,
        })),
        _ => Ok(None),
    }
}
