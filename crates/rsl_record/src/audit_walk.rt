ghost use Rattle.std.specs.Prelude.{◌≡◌, ◌≢◌, ℕ, ◌+◌, ◌^◌, ◌<◌, ◌++◌, [], ◌∷◌, ◌↔◌};
ghost use Rattle.std.specs.Prelude.{List, IsTrue, IfOk, IfErr, OnOk, length};
ghost use Rattle.rsl_record.specs.Audit.{AreJoined, AreRight, BeginsNew, IsRecord, IsRight, Joins};
ghost use Rattle.rsl_record.specs.Audit.{
  IsFaultOfLines,
  IsFaultOfSegment,
  IsFaultOfSegments,
  IsFirstFault,
  account_of,
};
ghost use Rattle.rsl_record.specs.Walk.{IsChainOf, IsFaultOfBeginning, IsFaultOfLine};
ghost use Rattle.rsl_shard.specs.declared.line.Line.{Line as OneLine};

use crate::audit_fault::AuditFault;
use crate::chain::Chain;
use rsl_accounts::Config;
use rsl_shard::{Line, Move, Segment};
use std::alloc::Global;

/// Checks whether the record of a shard was kept right: its segments, in the order given, follow
/// one another from new books, and each line has the decision of the session rule, which looks back
/// over the own events of the line's account in all lines before it. A record of no segments was
/// kept right.
///
/// The walk goes segment by segment, first its opening and then its lines, and ends at the first
/// fault: `NotFromEmpty`, `Gap` or `WrongDecision`. `NoMemory` comes if memory is refused.
///
/// Books are stepped line by line, since they decide as the rule does: the time grows with the
/// lines, and the memory with the books alone.
#[tactic(auto, using(crate::proofs::Walking::record_told))]
pub fn audit(alloc: Global, config: &Config, segments: &[Segment]) -> Result<(), AuditFault>
    ensures kept_right { OnOk result (IsRecord config.now segments.now) }
    ensures fault { IfErr result (IsFirstFault config.now segments.now) }
    ensures exact { IfErr result (λ fault.
        fault ≢ AuditFault.NoMemory → IsRecord config.now segments.now → ⊥) }
{
    match segments.first() {
        None => Ok(()),
        Some(first) => {
            let chain = begin(alloc, config, first)?;
            walk(alloc, config, chain, segments)
        }
    }
}

/// The chain of no lines, if the first segment begins there.
#[tactic(auto, using(crate::proofs::Walking::beginning))]
fn begin(alloc: Global, config: &Config, first: &Segment) -> Result<Chain, AuditFault>
    ensures begins { OnOk result (BeginsNew config.now first.now) }
    ensures chain { IfOk result (λ chain. IsChainOf config.now first.now.shard [] chain) }
    ensures err { IfErr result (IsFaultOfBeginning config.now first.now) }
{
    if first.shard >= config.shards() {
        return Err(AuditFault::NotFromEmpty);
    }
    let chain = Chain::begin(alloc, config, first.shard)?;
    if !chain.is_joined_by(first) {
        return Err(AuditFault::NotFromEmpty);
    }
    Ok(chain)
}

/// Goes through the segments of a record, over the chain of no lines.
#[tactic(auto, using(crate::proofs::Walking::segments_walked))]
fn walk(
    alloc: Global,
    config: &Config,
    mut chain: Chain,
    segments: &[Segment],
) -> Result<(), AuditFault>
    ensures joined { (shard : ℕ) → IsChainOf config.now shard [] chain →
        OnOk result (AreJoined config.now shard [] segments.now) }
    ensures err { (shard : ℕ) → IsChainOf config.now shard [] chain →
        IfErr result (IsFaultOfSegments config.now shard segments.now) }
{
    for (number, segment) in segments.iter().enumerate() {
        take_segment(&mut chain, alloc, config, number as u64, segment)?;
    }
    Ok(())
}

/// Takes the segment with this number: how it follows, and then its lines.
#[tactic(auto, using(crate::proofs::Walking::fault_of_segment))]
fn take_segment(
    chain: &mut Chain,
    alloc: Global,
    config: &Config,
    number: u64,
    segment: &Segment,
) -> Result<(), AuditFault>
    ensures joins { (shard : ℕ) (before : List OneLine) →
        IsChainOf config.now shard before chain.old →
        OnOk result (Joins config.now shard before segment.now) }
    ensures right { (shard : ℕ) (before : List OneLine) →
        IsChainOf config.now shard before chain.old →
        OnOk result (AreRight config.now shard before segment.now.lines.items) }
    ensures chain { (shard : ℕ) (before : List OneLine) →
        IsChainOf config.now shard before chain.old →
        OnOk result (IsChainOf config.now shard (before ++ segment.now.lines.items) chain.new) }
    ensures err { (shard : ℕ) (before : List OneLine) →
        IsChainOf config.now shard before chain.old →
        IfErr result (IsFaultOfSegment config.now shard before number segment.now) }
{
    if !goes_on(chain, config, segment) {
        return Err(AuditFault::Gap { segment: number });
    }
    take_lines(chain, alloc, config, segment.lines.as_slice())
}

/// Whether a segment follows the lines so far, and has under 2^64 lines with those.
#[tactic(auto, using(crate::proofs::Walking::segment_joined))]
fn goes_on(chain: &Chain, config: &Config, segment: &Segment) -> bool
    ensures joins { (shard : ℕ) (before : List OneLine) →
        IsChainOf config.now shard before chain.now →
        IsTrue result ↔ Joins config.now shard before segment.now }
    ensures room { IsTrue result → chain.now.lines + length segment.now.lines.items < 2 ^ 64 }
{
    segment.shard == chain.shard()
        && segment.lines.len() as u64 <= u64::MAX - segment.first
        && chain.is_joined_by(segment)
}

/// Takes lines, one after another.
#[tactic(auto, using(crate::proofs::Walking::lines_taken))]
fn take_lines(
    chain: &mut Chain,
    alloc: Global,
    config: &Config,
    lines: &[Line],
) -> Result<(), AuditFault>
    requires { chain.old.lines + length lines.now < 2 ^ 64 }
    ensures right { (shard : ℕ) (before : List OneLine) →
        IsChainOf config.now shard before chain.old →
        OnOk result (AreRight config.now shard before lines.now) }
    ensures chain { (shard : ℕ) (before : List OneLine) →
        IsChainOf config.now shard before chain.old →
        OnOk result (IsChainOf config.now shard (before ++ lines.now) chain.new) }
    ensures err { (shard : ℕ) (before : List OneLine) →
        IsChainOf config.now shard before chain.old →
        IfErr result (IsFaultOfLines config.now shard before lines.now) }
{
    for line in lines {
        take_line(chain, alloc, config, line)?;
    }
    Ok(())
}

/// Takes a line, if it is right.
#[tactic(auto, using(crate::proofs::Walking::line_taken))]
fn take_line(
    chain: &mut Chain,
    alloc: Global,
    config: &Config,
    line: &Line,
) -> Result<(), AuditFault>
    requires { chain.old.lines + 1 < 2 ^ 64 }
    ensures count { OnOk result (chain.new.lines ≡ chain.old.lines + 1) }
    ensures right { (shard : ℕ) (before : List OneLine) →
        IsChainOf config.now shard before chain.old →
        OnOk result (IsRight config.now shard before line.now) }
    ensures chain { (shard : ℕ) (before : List OneLine) →
        IsChainOf config.now shard before chain.old →
        OnOk result (IsChainOf config.now shard (before ++ line.now ∷ []) chain.new) }
    ensures err { (shard : ℕ) (before : List OneLine) →
        IsChainOf config.now shard before chain.old →
        IfErr result (IsFaultOfLine config.now shard before line.now) }
{
    let position = chain.lines() as u64;
    let decision = chain.take_line(alloc, line)?;
    if decision != Some(line.decision) {
        return Err(wrong_decision(&line.moved, position));
    }
    Ok(())
}

/// The fault of a wrong line at a position.
fn wrong_decision(moved: &Move, position: u64) -> AuditFault
    ensures { result ≡ AuditFault.WrongDecision (account_of moved.now) position }
{
    let account = match moved {
        Move::Own { account, .. } => Some(*account),
        Move::Sweep { .. } | Move::Tick { .. } | Move::Stray { .. } => None,
    };
    AuditFault::WrongDecision { account, position }
}
