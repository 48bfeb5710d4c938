//! Tests of `rsl_steps`: what a list of steps is answered, the places that are held then, and each
//! account's own events among the steps.
//!
//! A row has the head of a script, and steps, with `/` between their lines. Steps are event lines
//! of a script, `sweep SHARD MOMENT NAS` for one shard alone, and `time SHARD MOMENT` for a tick of
//! one shard alone. An access server is at the client 192.168.1.16, of which `C` is the address.

use crate::replay::{replies_in, script_of};
use rsl_accounts::Config;
use rsl_event::{Act, Decision, Event, Nas, NasName};
use rsl_replay::steps_of;
use rsl_rule::{decide, places};
use rsl_script::Script;
use rsl_steps::{Answer, Ran, Step, own, run};
use rsl_wire::Octets;
use std::alloc::Global;
use std::test::Fail;
use test_rows::{Plain, Subject, check_rows, number, printed, push_printed, short_number};

/// The boot number of the server.
pub(crate) const BOOT: u64 = 1;

/// A head and steps: the answers, a word each.
struct Answered;

impl Subject for Answered {
    fn found(&self, alloc: Global, fields: &[&str]) -> Result<String, Fail> {
        let [head, steps] = fields else {
            return Err("a head and steps")?;
        };
        let (config, steps) = config_and_steps(alloc, head, steps)?;
        answers_in(alloc, &answers_to(alloc, &config, &steps)?)
    }
}

#[test]
fn steps_are_answered_in_order(rt: HostRuntime) -> Result<(), Fail> {
    check_rows(
        &rt,
        &Answered,
        "
nothing | set shards 2/client C xyzzy5461/account a pw 1/account b pw 1/ \
    |  \
    | 
sweeps of a shard each | set shards 2/client C xyzzy5461/account a pw 1/account b pw 1/ \
    | ask 0 C n b pw 1/sweep 0 0 n/ask 0 C n b pw 2/sweep 1 0 n/ask 0 C n b pw 3/sweep 2 0 n \
    | Accept(0) Quiet LimitReject Quiet Accept(1) Quiet
ticks of a shard each | set shards 2/client C xyzzy5461/account a pw 1/account b pw 1/ \
    | ask 0 C n a pw 1/ask 0 C n b pw 1/time 1 60/time 2 90 \
    | Accept(0) Accept(0) Quiet Quiet
a tick of a shard that is not there \
    | set shards 2/client C xyzzy5461/account a pw 1/account b pw 1/ \
    | ask 0 C n a pw 1/ask 0 C n b pw 1/time 2 60/ask 0 C n a pw 2/ask 0 C n b pw 2/time 0 60/\
    ask 0 C n a pw 3/ask 0 C n b pw 3 \
    | Accept(0) Accept(0) Quiet LimitReject LimitReject Quiet Accept(1) LimitReject
two accounts in one shard | client C xyzzy5461/account a pw 2/account b pw 2/ \
    | ask 0 C n a pw 1/ask 0 C n b pw 1/ask 0 C n a pw 2/ask 0 C n b pw 2/ask 0 C n b pw 3 \
    | Accept(0) Accept(0) Accept(1) Accept(1) LimitReject
two accounts in shards of their own \
    | set shards 3/client C xyzzy5461/account a pw 2/account b pw 2/ \
    | ask 0 C n a pw 1/ask 0 C n b pw 1/ask 0 C n a pw 2/ask 0 C n b pw 2/ask 0 C n b pw 3 \
    | Accept(0) Accept(0) Accept(1) Accept(1) LimitReject
a restart, a stray | set shards 2/client C xyzzy5461/account a pw 1/account b pw 1/ \
    | start 0 C n a s/on 1 C n/start 2 C n ghost s/stop 3 C n a s \
    | Account Quiet Quiet Account Account Account
a late restart | set shards 2/client C xyzzy5461/account a pw 1/account b pw 1/ \
    | ask 0 C n a pw 1/ask 5 C n b pw 1/on 8 C n delay=5/ask 8 C n a pw 2/ask 8 C n b pw 2 \
    | Accept(0) Accept(0) Quiet Quiet Account Accept(1) LimitReject
an account that counts by stations, and one that does not \
    | client C xyzzy5461/account a pw 1 station/account b pw 1/ \
    | ask 0 C n a pw 1 station=d/ask 1 C n a pw 2 station=d/ask 0 C n b pw 1 station=d/\
    ask 1 C n b pw 2 station=d \
    | Accept(0) Accept(1) Accept(0) LimitReject
late sweeps of a shard each | set shards 2/client C xyzzy5461/account a pw 1/account b pw 1/ \
    | ask 0 C n b pw 1/sweep 1 4 n delay=5/ask 4 C n b pw 2/sweep 0 5 n delay=5/ask 5 C n b pw 3/\
    sweep 1 5 n delay=5/ask 5 C n b pw 4 \
    | Accept(0) Quiet LimitReject Quiet LimitReject Quiet Accept(1)
a moment that falls | set shards 2/client C xyzzy5461/account a pw 1/account b pw 1/ \
    | ask 18446744073709551615 C n a pw 1/ask 0 C n a pw 2 \
    | Accept(0) LimitReject
drops and rejects | client C xyzzy5461/account a pw 2/account b pw 2/ \
    | raw-auth 0 C 00/raw-acct 0 C 0400001400000000000000000000000000000000/\
    ask 0 10.0.0.9 n a pw 1/ask 0 C n a no 1/ask 0 C n a pw 1 \
    | Short BadAuthenticator UnknownClient Reject Accept(0)
",
    )
}

/// A head of two accounts, and steps: the places that each account holds after a run of them, and
/// those that the rule counts on the own events of each.
struct Held;

impl Subject for Held {
    fn found(&self, alloc: Global, fields: &[&str]) -> Result<String, Fail> {
        let [head, steps] = fields else {
            return Err("a head and steps")?;
        };
        let (config, steps) = config_and_steps(alloc, head, steps)?;
        places_after(alloc, &config, &steps)
    }
}

fn places_after(alloc: Global, config: &Config, steps: &[Step]) -> Result<String, Fail> {
    let ran = run(alloc, config, BOOT, steps)?;
    let held = (held_by(&ran, config, 0)?, held_by(&ran, config, 1)?);
    let first = counted_for(alloc, config, steps, 0)?;
    printed(
        alloc,
        &(held, (first, counted_for(alloc, config, steps, 1)?)),
    )
}

/// The places that the book of an account holds after a run.
fn held_by(ran: &Ran, config: &Config, account: u32) -> Result<u64, Fail> {
    let Some(shard) = ran.shards.get(config.shard_of(account) as usize) else {
        return Err("there is no such shard")?;
    };
    match shard.book(account) {
        Some(book) => Ok(book.held()),
        None => Err("there is no such account")?,
    }
}

/// The places that the rule counts on an account's own events.
fn counted_for(alloc: Global, config: &Config, steps: &[Step], account: u32) -> Result<u32, Fail> {
    if config.accounts() <= account {
        return Err("there is no such account")?;
    }
    let events = own(alloc, config, BOOT, account, steps)?;
    Ok(places(alloc, &config.entry(account).rules, &events)?)
}

#[test]
fn places_are_those_of_the_own_events(rt: HostRuntime) -> Result<(), Fail> {
    check_rows(
        &rt,
        &Held,
        "
sweeps of a shard each | set shards 2/client C xyzzy5461/account a pw 1/account b pw 1/ \
    | ask 0 C n b pw 1/sweep 0 0 n/ask 0 C n b pw 2/sweep 1 0 n/ask 0 C n b pw 3/sweep 2 0 n \
    | ((0, 1), (0, 1))
ticks of a shard each | set shards 2/client C xyzzy5461/account a pw 1/account b pw 1/ \
    | ask 0 C n a pw 1/ask 0 C n b pw 1/time 1 60/time 2 90 \
    | ((1, 0), (1, 0))
two accounts in one shard | client C xyzzy5461/account a pw 2/account b pw 2/ \
    | ask 0 C n a pw 1/ask 0 C n b pw 1/ask 0 C n a pw 2/ask 0 C n b pw 2/ask 0 C n b pw 3 \
    | ((2, 2), (2, 2))
two accounts in shards of their own \
    | set shards 3/client C xyzzy5461/account a pw 2/account b pw 2/ \
    | ask 0 C n a pw 1/ask 0 C n b pw 1/ask 0 C n a pw 2/ask 0 C n b pw 2/ask 0 C n b pw 3 \
    | ((2, 2), (2, 2))
a restart, a stray | set shards 2/client C xyzzy5461/account a pw 1/account b pw 1/ \
    | start 0 C n a s/on 1 C n/start 2 C n ghost s/stop 3 C n a s \
    | ((0, 0), (0, 0))
a late restart | set shards 2/client C xyzzy5461/account a pw 1/account b pw 1/ \
    | ask 0 C n a pw 1/ask 5 C n b pw 1/on 8 C n delay=5/ask 8 C n a pw 2/ask 8 C n b pw 2 \
    | ((1, 1), (1, 1))
an account that counts by stations, and one that does not \
    | client C xyzzy5461/account a pw 1 station/account b pw 1/ \
    | ask 0 C n a pw 1 station=d/ask 1 C n a pw 2 station=d/ask 0 C n b pw 1 station=d/\
    ask 1 C n b pw 2 station=d \
    | ((1, 1), (1, 1))
",
    )
}

/// A head, steps and an account: its own events, each with its moment and the decision on it.
struct Decided;

impl Subject for Decided {
    fn found(&self, alloc: Global, fields: &[&str]) -> Result<String, Fail> {
        let [head, steps, account] = fields else {
            return Err("a head, steps and an account")?;
        };
        let (config, steps) = config_and_steps(alloc, head, steps)?;
        decisions_in(alloc, &config, &steps, short_number(account)?)
    }
}

fn decisions_in(
    alloc: Global,
    config: &Config,
    steps: &[Step],
    account: u32,
) -> Result<String, Fail> {
    if config.accounts() <= account {
        return Err("there is no such account")?;
    }
    let events = own(alloc, config, BOOT, account, steps)?;
    let decisions = decide(alloc, &config.entry(account).rules, &events)?;
    told_decisions(alloc, &events, &decisions)
}

fn told_decisions(alloc: Global, events: &[Event], decisions: &[Decision]) -> Result<String, Fail> {
    let mut text = String::new(alloc);
    for (event, decision) in events.iter().zip(decisions) {
        push_printed(
            &mut text,
            &(Plain(act_word(event)), event.moment, *decision),
        )?;
    }
    Ok(text)
}

#[test]
fn own_events_are_decided_by_the_rule(rt: HostRuntime) -> Result<(), Fail> {
    check_rows(
        &rt,
        &Decided,
        "
another's alone | set shards 2/client C xyzzy5461/account a pw 1/account b pw 1/ \
    | ask 0 C n b pw 1/sweep 0 0 n/ask 0 C n b pw 2/sweep 1 0 n/ask 0 C n b pw 3/sweep 2 0 n | 0 \
    | (sweep, 0, Done)
sweeps of a shard each | set shards 2/client C xyzzy5461/account a pw 1/account b pw 1/ \
    | ask 0 C n b pw 1/sweep 0 0 n/ask 0 C n b pw 2/sweep 1 0 n/ask 0 C n b pw 3/sweep 2 0 n | 1 \
    | (ask, 0, Accept(0)) (ask, 0, LimitReject) (sweep, 0, Done) (ask, 0, Accept(1))
ticks of another shard | set shards 2/client C xyzzy5461/account a pw 1/account b pw 1/ \
    | ask 0 C n a pw 1/ask 0 C n b pw 1/time 1 60/time 2 90 | 0 \
    | (ask, 0, Accept(0))
ticks of a shard each | set shards 2/client C xyzzy5461/account a pw 1/account b pw 1/ \
    | ask 0 C n a pw 1/ask 0 C n b pw 1/time 1 60/time 2 90 | 1 \
    | (ask, 0, Accept(0)) (tick, 60, Done)
two accounts in one shard | client C xyzzy5461/account a pw 2/account b pw 2/ \
    | ask 0 C n a pw 1/ask 0 C n b pw 1/ask 0 C n a pw 2/ask 0 C n b pw 2/ask 0 C n b pw 3 | 0 \
    | (ask, 0, Accept(0)) (ask, 0, Accept(1))
two accounts in shards of their own \
    | set shards 3/client C xyzzy5461/account a pw 2/account b pw 2/ \
    | ask 0 C n a pw 1/ask 0 C n b pw 1/ask 0 C n a pw 2/ask 0 C n b pw 2/ask 0 C n b pw 3 | 1 \
    | (ask, 0, Accept(0)) (ask, 0, Accept(1)) (ask, 0, LimitReject)
a restart, a stray | set shards 2/client C xyzzy5461/account a pw 1/account b pw 1/ \
    | start 0 C n a s/on 1 C n/start 2 C n ghost s/stop 3 C n a s | 0 \
    | (alive, 0, Done) (sweep, 1, Done) (stop, 3, Done)
a late restart | set shards 2/client C xyzzy5461/account a pw 1/account b pw 1/ \
    | ask 0 C n a pw 1/ask 5 C n b pw 1/on 8 C n delay=5/ask 8 C n a pw 2/ask 8 C n b pw 2 | 1 \
    | (ask, 5, Accept(0)) (sweep, 8, Done) (ask, 8, LimitReject)
an account that counts by stations, and one that does not \
    | client C xyzzy5461/account a pw 1 station/account b pw 1/ \
    | ask 0 C n a pw 1 station=d/ask 1 C n a pw 2 station=d/ask 0 C n b pw 1 station=d/\
    ask 1 C n b pw 2 station=d | 0 \
    | (ask, 0, Accept(0)) (ask, 1, Accept(1))
an account that does not count by stations, beside one that does \
    | client C xyzzy5461/account a pw 1 station/account b pw 1/ \
    | ask 0 C n a pw 1 station=d/ask 1 C n a pw 2 station=d/ask 0 C n b pw 1 station=d/\
    ask 1 C n b pw 2 station=d | 1 \
    | (ask, 0, Accept(0)) (ask, 1, LimitReject)
",
    )
}

/// A head and steps: the octets of the replies.
struct Replies;

impl Subject for Replies {
    fn found(&self, alloc: Global, fields: &[&str]) -> Result<String, Fail> {
        let [head, steps] = fields else {
            return Err("a head and steps")?;
        };
        let (config, steps) = config_and_steps(alloc, head, steps)?;
        replies_in(alloc, &answers_to(alloc, &config, &steps)?)
    }
}

// The request is that of RFC 2865 section 7.1. The Response Authenticators were computed with
// Python's hashlib, by the formula of RFC 2865 section 3.
#[test]
fn replies_have_their_octets(rt: HostRuntime) -> Result<(), Fail> {
    check_rows(
        &rt,
        &Replies,
        "
an accept with its Class and Port-Limit | client C xyzzy5461/account nemo arctangent 1/ \
    | raw-auth 0 C 010000380f403f9473978057bd83d5cb98f4227a01066e656d6f\
    02120dbe708d93d413ce3196e43f782a0aee0406c0a80110050600000003 \
    | 0200002c7fa85d1b244f70f55c748cf7f4494287191200000000000000010000000000000000\
    3e0600000001
a limit reject with its Reply-Message | client C xyzzy5461/account nemo arctangent 0/ \
    | raw-auth 0 C 010000380f403f9473978057bd83d5cb98f4227a01066e656d6f\
    02120dbe708d93d413ce3196e43f782a0aee0406c0a80110050600000003 \
    | 0300002b7fd581ea748d151b6509911236d3d392121753657373696f6e20\
    6c696d69742072656163686564
the reject of a malformed attribute list | client C xyzzy5461/account nemo arctangent 1/ \
    | raw-auth 0 C 01070016000000000000000000000000000000000101 \
    | 03070014f7736c975c3d2175bb9feeadefc4ca84
",
    )
}

/// The configuration of a script's head, and the steps of lines.
pub(crate) fn config_and_steps(
    alloc: Global,
    head: &str,
    lines: &str,
) -> Result<(Config, Vec<Step>), Fail> {
    let head = head.replace(alloc, "C", "192.168.1.16")?;
    let config = config_of(alloc, script_of(alloc, head.as_str())?)?;
    let lines = lines.replace(alloc, "C", "192.168.1.16")?;
    let mut steps = Vec::new(alloc);
    for line in lines.as_str().split('/') {
        push_steps(alloc, &mut steps, &config, line)?;
    }
    Ok((config, steps))
}

/// The answers to steps.
fn answers_to(alloc: Global, config: &Config, steps: &[Step]) -> Result<Vec<Answer>, Fail> {
    Ok(run(alloc, config, BOOT, steps)?.answers)
}

fn config_of(alloc: Global, script: Script) -> Result<Config, Fail> {
    Ok(Config::make(alloc, script.settings, script.clients, script.accounts)?)
}

/// The steps of a line.
fn push_steps(
    alloc: Global,
    steps: &mut Vec<Step>,
    config: &Config,
    line: &str,
) -> Result<(), Fail> {
    if line.starts_with("sweep") || line.starts_with("time") {
        steps.push(step_of(alloc, line)?)?;
        return Ok(());
    }
    let script = script_of(alloc, line)?;
    steps.append(&mut steps_of(alloc, config, BOOT, &script.events)?)?;
    Ok(())
}

/// The step of a line for one shard alone.
fn step_of(alloc: Global, line: &str) -> Result<Step, Fail> {
    let words: Vec<&str> = line.split(' ').collect(alloc)?;
    match words.as_slice() {
        ["sweep", shard, moment, name, late @ ..] => Ok(Step::Sweep {
            shard: short_number(shard)?,
            moment: number(moment)?,
            nas: nas_of(alloc, name)?,
            delay: delay_of(late)?,
        }),
        ["time", shard, moment] => Ok(Step::Tick {
            shard: short_number(shard)?,
            moment: number(moment)?,
        }),
        _ => Err("no step for one shard")?,
    }
}

/// The delay of the words `[delay=N]`.
fn delay_of(words: &[&str]) -> Result<u64, Fail> {
    match words {
        [] => Ok(0),
        [word] => number(word.trim_start_matches("delay=")),
        _ => Err("one delay at most")?,
    }
}

fn nas_of(alloc: Global, name: &str) -> Result<Nas, Fail> {
    let name = NasName::Identifier(Octets::from_slice(alloc, name.as_bytes())?);
    Ok(Nas { client: 0, name })
}

/// The answers of a run, a word each.
fn answers_in(alloc: Global, answers: &[Answer]) -> Result<String, Fail> {
    let mut text = String::new(alloc);
    for answer in answers {
        push_answer(&mut text, answer)?;
    }
    Ok(text)
}

fn push_answer(text: &mut String, answer: &Answer) -> Result<(), Fail> {
    match answer {
        Answer::Reply(said, _) => push_printed(text, said),
        Answer::Dropped(dropped) => push_printed(text, dropped),
        Answer::Quiet => push_printed(text, &Plain("Quiet")),
        Answer::Refused => push_printed(text, &Plain("Refused")),
    }
}

/// The name of an event's act.
fn act_word(event: &Event) -> &'static str {
    match event.act {
        Act::Ask { .. } => "ask",
        Act::Alive { .. } => "alive",
        Act::Stop { .. } => "stop",
        Act::Sweep { .. } => "sweep",
        Act::Tick => "tick",
    }
}
