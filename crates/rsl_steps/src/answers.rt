ghost use Rattle.std.specs.Prelude.{◌≡◌, ℕ, ◌<◌, List, [], length, Some, slice_get, IfOk};
ghost use Rattle.rsl_accounts.specs.Limits.{IsConfiguration};
ghost use Rattle.rsl_accounts.specs.declared.entry.Entry.{Entry};
ghost use Rattle.rsl_shard.specs.Moves.{IsTaken};
ghost use Rattle.rsl_shard.specs.Setup.{Setup};
ghost use Rattle.rsl_shard.specs.declared.moved.Move.TheVariants as moves;
ghost use Rattle.rsl_steps.specs.Books.{AreAnswersByBooks};
ghost use Rattle.rsl_steps.specs.Own.{own};
ghost use Rattle.rsl_steps.specs.Ran.{AreShards, HasBookOf};
ghost use Rattle.rsl_steps.specs.Run.{AreAnswers, steps_taken};
ghost use Rattle.rsl_steps.specs.Taking.{AreReady, HaveShardsRoom, IsQuietAt, Takes, answer_to_drop};
ghost use Rattle.rsl_steps.specs.declared.step.Step.{Step};

use crate::decision::{decide, move_at};
use crate::laws::{books_answer_as_looking_back, shards_obey_the_rule};
use crate::reply_octets::ReplyOctets;
use crate::step::{Answer, Ran, Step};
use rsl_accounts::Config;
use rsl_event::{Dropped, Nas, Port, Prepared, Source, prepare, reply_to, room};
use rsl_shard::{Move, Shard};
use rsl_wire::NoMemory;
use std::alloc::Global;

/// Answers steps in order, by new shards: the time of a step does not grow with the steps before
/// it. It fails only if memory for the shards or for the list of answers is refused, before any
/// step.
pub fn run(alloc: Global, config: &Config, boot: u64, steps: &[Step]) -> Result<Ran, NoMemory>
    // Each step that is made is answered as the session rule says of its own account's events
    // before it alone; one of no account is answered from itself alone.
    ensures answers { IfOk result (λ ran.
        AreAnswers config.now boot [] steps.now ran.answers.items) }
    ensures count { IfOk result (λ ran. length ran.answers.items ≡ length steps.now) }
    // Books that began new give the same answers.
    ensures by_books { IfOk result (λ ran.
        AreAnswersByBooks config.now boot [] steps.now ran.answers.items) }
    // There is a shard for each number, whose journal has the moves of the steps that were made: an
    // account's own events in its shard, a stray in shard 0, a sweep or a tick in the shard that it
    // names.
    ensures shards { IfOk result (λ ran. AreShards config.now boot
        (steps_taken [] steps.now ran.answers.items) ran.shards.items) }
    // Each account's book is there, and is that of its own events: it holds the places that the
    // session rule finds by looking back over them, and these are at most the account's, as they
    // were after each earlier event.
    ensures books { IfOk result (λ ran. (account : ℕ) (entry : Entry) →
        slice_get config.now.accounts account ≡ Some entry →
        HasBookOf config.now account entry.rules
        (own config.now boot account (steps_taken [] steps.now ran.answers.items))
        ran.shards.items) }
{
    // Books answer and hold what looking back finds.
    books_answer_as_looking_back();
    shards_obey_the_rule();
    let mut shards = new_shards(alloc, config)?;
    let mut answers = Vec::with_capacity(alloc, steps.len())?;
    for step in steps {
        let answer = take_step(alloc, config, boot, shards.as_mut_slice(), step);
        answers.push_reserved(answer);
    }
    Ok(Ran { answers, shards })
}

/// New shards for a configuration.
fn new_shards(alloc: Global, config: &Config) -> Result<Vec<Shard>, NoMemory>
    ensures new { IfOk result (λ shards. (boot : ℕ) → AreShards config.now boot [] shards.items) }
    ensures limits { IfOk result (λ _. IsConfiguration config.now) }
{
    let mut shards = Vec::new(alloc);
    for number in 0..config.shards() {
        shards.push(Shard::new(alloc, config, number)?)?;
    }
    Ok(shards)
}

/// Answers one step.
fn take_step(alloc: Global, config: &Config, boot: u64, shards: &mut [Shard], step: &Step) -> Answer
    requires { AreReady config.now shards.old }
    ensures { (before : List Step) → AreShards config.now boot before shards.old →
        Takes config.now boot before step.now result shards.old shards.new }
{
    match step {
        Step::Datagram {
            moment,
            port,
            source,
            octets,
        } => take_datagram(
            alloc,
            config,
            boot,
            shards,
            *moment,
            *port,
            *source,
            octets.as_slice(),
        ),
        Step::Sweep {
            shard,
            moment,
            nas,
            delay,
        } => take_sweep(alloc, shards, *shard, *moment, nas, *delay),
        Step::Tick { shard, moment } => take_tick(alloc, shards, *shard, *moment),
    }
}

/// Answers one datagram.
fn take_datagram(
    alloc: Global,
    config: &Config,
    boot: u64,
    shards: &mut [Shard],
    moment: u64,
    port: Port,
    source: Source,
    octets: &[u8],
) -> Answer
    requires { AreReady config.now shards.old }
    ensures { (before : List Step) → AreShards config.now boot before shards.old →
        Takes config.now boot before (Step.Datagram moment port source octets.now)
        result shards.old shards.new }
{
    let prepared = match prepare(alloc, config, boot, port, source, octets) {
        Ok(prepared) => prepared,
        Err(dropped) => return answer_to_drop(dropped),
    };
    let Ok(draft) = room(alloc, &prepared) else {
        return Answer::Refused;
    };
    let Prepared {
        packet,
        client,
        meaning,
    } = prepared;
    let kind = meaning.kind();
    let Ok(decision) = decide(alloc, config, shards, moment, meaning) else {
        return Answer::Refused;
    };
    let mut octets = reply_to(&packet, client, kind, config, boot, decision, draft);
    // The step is made: if a smaller buffer is refused, the octets stay in theirs.
    octets.shrink_to_fit();
    Answer::Reply(kind.said(decision), ReplyOctets::from(octets))
}

/// Sweeps a shard, if there is one of this number, of an access server that restarted `delay`
/// seconds before.
fn take_sweep(
    alloc: Global,
    shards: &mut [Shard],
    shard: u32,
    moment: u64,
    nas: &Nas,
    delay: u64,
) -> Answer
    requires { HaveShardsRoom shards.old }
    ensures { IsQuietAt result shard (moves.Sweep moment nas.now delay) shards.old shards.new }
{
    let Ok(nas) = nas.try_copy(alloc) else {
        return Answer::Refused;
    };
    move_if_there(alloc, shards, shard, Move::Sweep { moment, nas, delay })
}

/// Ticks a shard, if there is one of this number.
fn take_tick(alloc: Global, shards: &mut [Shard], shard: u32, moment: u64) -> Answer
    requires { HaveShardsRoom shards.old }
    ensures { IsQuietAt result shard (moves.Tick moment) shards.old shards.new }
{
    move_if_there(alloc, shards, shard, Move::Tick { moment })
}

/// Makes a move in a shard, if there is one of this number.
fn move_if_there(alloc: Global, shards: &mut [Shard], shard: u32, moved: Move) -> Answer
    requires room { HaveShardsRoom shards.old }
    requires each { (setup : Setup) → IsTaken setup moved }
    ensures { IsQuietAt result shard moved shards.old shards.new }
{
    if shard as usize >= shards.len() {
        return Answer::Quiet;
    }
    match move_at(alloc, shards, shard, moved) {
        Ok(_) => Answer::Quiet,
        Err(_) => Answer::Refused,
    }
}

/// The answer to a datagram without a meaning: if memory was refused, that of a refused step.
fn answer_to_drop(dropped: Dropped) -> Answer
    ensures { result ≡ answer_to_drop dropped }
{
    match dropped {
        Dropped::NoMemory => Answer::Refused,
        Dropped::Short
        | Dropped::BadLength
        | Dropped::UnknownClient
        | Dropped::WrongCode
        | Dropped::BadAuthenticator
        | Dropped::Malformed
        | Dropped::BadSignature
        | Dropped::Unsigned
        | Dropped::UnsignedProxy
        | Dropped::ProxyTooLong
        | Dropped::NoStatus
        | Dropped::NoSession => Answer::Dropped(dropped),
    }
}
