ghost use Rattle.std.specs.Prelude.{◌≡◌, ◌+◌, ◌^◌, ◌<◌, All, ℕ, IfErr, OnOk, length, map};
ghost use Rattle.rsl_record.specs.Chain.{HasMade};
ghost use Rattle.rsl_record.specs.Faults.{GoOn, IsBreak, IsSegmentFault};
ghost use Rattle.rsl_record.specs.Records.{segments_of};
ghost use Rattle.rsl_record.specs.Segments.{GoesOn, HasJoined};
ghost use Rattle.rsl_shard.specs.Moves.{IsTaken};
ghost use Rattle.rsl_shard.specs.Restep.{restep};

use crate::chain::Chain;
use crate::close_fault::CloseFault;
use crate::record::Record;
use rsl_accounts::Config;
use rsl_shard::{Line, Segment};
use std::alloc::Global;

/// Checks that the segments of each shard join, and that each segment is of an existing shard.
#[tactic(auto, using(crate::proofs::Chains::segments_steps))]
pub(crate) fn check_segments(
    alloc: Global,
    config: &Config,
    journals: &Record<'_>,
) -> Result<(), CloseFault>
    ensures joined { OnOk result ((shard : ℕ) →
        HasJoined config.now (segments_of journals.now) shard) }
    ensures err { IfErr result (IsSegmentFault config.now (segments_of journals.now)) }
{
    for shard in 0..config.shards() {
        check_shard(alloc, config, shard, journals)?;
    }
    match journals.lowest_astray(config.shards()) {
        Some(shard) => Err(CloseFault::MissingSegment { shard }),
        None => Ok(()),
    }
}

/// Checks that the segments of a shard join.
fn check_shard(
    alloc: Global,
    config: &Config,
    shard: u32,
    journals: &Record<'_>,
) -> Result<(), CloseFault>
    requires { shard < config.now.settings.shards }
    ensures joined { OnOk result (HasJoined config.now (segments_of journals.now) shard) }
    ensures err { IfErr result
        (IsBreak shard (HasJoined config.now (segments_of journals.now) shard)) }
{
    let segments = journals.of_shard(alloc, shard)?;
    let mut chain = Chain::begin(alloc, config, shard)?;
    take_segments(&mut chain, alloc, segments.as_slice())
}

/// Takes segments of the chain's shard, one after another.
#[tactic(auto, using(crate::proofs::Chains::chain_steps))]
fn take_segments(chain: &mut Chain, alloc: Global, segments: &[&Segment]) -> Result<(), CloseFault>
    ensures joined { OnOk result (GoOn chain.old (map (λ segment. segment.now) segments.now)) }
    ensures err { IfErr result (IsBreak chain.old.books.setup.shard
        (GoOn chain.old (map (λ segment. segment.now) segments.now))) }
{
    for segment in segments {
        take_segment(chain, alloc, segment)?;
    }
    Ok(())
}

/// Takes a segment of the chain's shard.
#[tactic(auto, using(crate::proofs::Chains::segment_steps))]
fn take_segment(chain: &mut Chain, alloc: Global, segment: &Segment) -> Result<(), CloseFault>
    ensures goes_on { OnOk result
        (GoesOn chain.old.books.setup chain.old.lines chain.old.books.books segment.now) }
    ensures lines { OnOk result
        (chain.new.lines ≡ chain.old.lines + length segment.now.lines.items) }
    ensures setup { OnOk result (chain.new.books.setup ≡ chain.old.books.setup) }
    ensures books { OnOk result (chain.new.books.books
        ≡ restep chain.old.books.setup chain.old.books.books segment.now.lines.items) }
    ensures err { IfErr result (IsBreak chain.old.books.setup.shard
        (GoesOn chain.old.books.setup chain.old.lines chain.old.books.books segment.now)) }
{
    if !chain.is_joined_by(segment) {
        return Err(CloseFault::MissingSegment {
            shard: chain.shard(),
        });
    }
    take_lines(chain, alloc, segment.lines.as_slice())
}

/// Takes lines, one after another.
#[tactic(auto, using(crate::proofs::Chains::line_steps))]
fn take_lines(chain: &mut Chain, alloc: Global, lines: &[Line]) -> Result<(), CloseFault>
    requires { chain.old.lines + length lines.now < 2 ^ 128 }
    ensures taken { OnOk result
        (All (λ line. IsTaken chain.old.books.setup line.moved) lines.now) }
    ensures lines { OnOk result (chain.new.lines ≡ chain.old.lines + length lines.now) }
    ensures setup { OnOk result (chain.new.books.setup ≡ chain.old.books.setup) }
    ensures books { OnOk result (chain.new.books.books
        ≡ restep chain.old.books.setup chain.old.books.books lines.now) }
    ensures err { IfErr result (IsBreak chain.old.books.setup.shard
        (All (λ line. IsTaken chain.old.books.setup line.moved) lines.now)) }
{
    for line in lines {
        take_line(chain, alloc, line)?;
    }
    Ok(())
}

/// Takes a line, if the shard takes its move.
#[tactic(auto, using(crate::proofs::Chains::one_line))]
fn take_line(chain: &mut Chain, alloc: Global, line: &Line) -> Result<(), CloseFault>
    requires { chain.old.lines + 1 < 2 ^ 128 }
    ensures taken { OnOk result (HasMade chain.old chain.new line.now) }
    ensures err { IfErr result (IsBreak chain.old.books.setup.shard
        (IsTaken chain.old.books.setup line.now.moved)) }
{
    match chain.take_line(alloc, line)? {
        Some(_) => Ok(()),
        None => Err(CloseFault::MissingSegment {
            shard: chain.shard(),
        }),
    }
}
