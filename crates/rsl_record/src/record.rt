ghost use Rattle.std.specs.Prelude.{◌≡◌, ◌++◌, ◌∷◌, [], List, IfOk, OnOk, map};
ghost use Rattle.rsl_record.specs.Faults.{IsLowestAstray};
ghost use Rattle.rsl_record.specs.Records.{segments_of};
ghost use Rattle.rsl_record.specs.Segments.{lines_of, of_shard, shard_lines};
ghost use Rattle.rsl_shard.specs.declared.segment.Segment.{Segment as OneSegment};

use rsl_shard::{Line, Segment};
use rsl_wire::NoMemory;
use std::alloc::Global;

/// A server's record, borrowed: the segments of all its shards.
#[derive(Clone, Copy)]
pub(crate) struct Record<'a> {
    /// The segments that were handed out, those of a shard in order.
    pub given: &'a [Segment],
    /// The shards' present journals.
    pub present: &'a [Segment],
}

impl<'a> Record<'a> {
    /// The segments of a shard, in order. It fails only if memory is refused.
    pub(crate) fn of_shard(&self, alloc: Global, shard: u32) -> Result<Vec<&'a Segment>, NoMemory>
        ensures { IfOk result (λ segments.
            map (λ segment. segment.now) segments.items ≡ of_shard shard (segments_of self.now)) }
    {
        let mut segments = Vec::new(alloc);
        push_of_shard(shard, self.given, &mut segments)?;
        push_of_shard(shard, self.present, &mut segments)?;
        Ok(segments)
    }

    /// All lines of a shard, in the order of its segments. It fails only if memory is refused.
    pub(crate) fn lines_of_shard(
        &self,
        alloc: Global,
        shard: u32,
    ) -> Result<Vec<&'a Line>, NoMemory>
        ensures { IfOk result (λ lines.
            map (λ line. line.now) lines.items ≡ shard_lines shard (segments_of self.now)) }
    {
        let segments = self.of_shard(alloc, shard)?;
        let lines = lines_of(alloc, segments.as_slice())?;
        Ok(lines)
    }

    /// The lowest number of a segment that is not the number of a shard.
    #[tactic(auto, using(crate::proofs::Chains::astray_empty))]
    pub(crate) fn lowest_astray(&self, shards: u32) -> Option<u32>
        ensures { IsLowestAstray shards (segments_of self.now) result }
    {
        let astray = lowest_astray(shards, None, self.given);
        lowest_astray(shards, astray, self.present)
    }
}

/// Pushes the segments of a shard.
fn push_of_shard<'a>(
    shard: u32,
    segments: &'a [Segment],
    found: &mut Vec<&'a Segment>,
) -> Result<(), NoMemory>
    ensures { OnOk result (map (λ segment. segment.now) found.new.items
        ≡ map (λ segment. segment.now) found.old.items ++ of_shard shard segments.now) }
{
    for segment in segments {
        if segment.shard == shard {
            found.push(segment)?;
        }
    }
    Ok(())
}

/// All lines of some segments, in order.
fn lines_of<'a>(alloc: Global, segments: &[&'a Segment]) -> Result<Vec<&'a Line>, NoMemory>
    ensures { IfOk result (λ lines. map (λ line. line.now) lines.items
        ≡ lines_of (map (λ segment. segment.now) segments.now)) }
{
    let mut lines = Vec::new(alloc);
    for segment in segments {
        push_lines(segment.lines.as_slice(), &mut lines)?;
    }
    Ok(lines)
}

/// Pushes lines.
fn push_lines<'a>(more: &'a [Line], lines: &mut Vec<&'a Line>) -> Result<(), NoMemory>
    ensures { OnOk result (map (λ line. line.now) lines.new.items
        ≡ map (λ line. line.now) lines.old.items ++ more.now) }
{
    for line in more {
        lines.push(line)?;
    }
    Ok(())
}

/// The lowest number that is not the number of a shard: the one found before, or one of these
/// segments.
#[tactic(auto, using(crate::proofs::Chains::astray_steps))]
fn lowest_astray(shards: u32, found: Option<u32>, segments: &[Segment]) -> Option<u32>
    ensures { (before : List OneSegment) → IsLowestAstray shards before found →
        IsLowestAstray shards (before ++ segments.now) result }
{
    let mut lowest = found;
    for segment in segments {
        lowest = lower(shards, lowest, segment.shard);
    }
    lowest
}

/// The lower of the number found before and this one, if this is not the number of a shard.
#[tactic(auto, using(crate::proofs::Chains::lower_steps))]
fn lower(shards: u32, found: Option<u32>, number: u32) -> Option<u32>
    ensures { (before : List OneSegment) (segment : OneSegment) → segment.shard ≡ number →
        IsLowestAstray shards before found →
        IsLowestAstray shards (before ++ segment ∷ []) result }
{
    if number < shards {
        return found;
    }
    match found {
        Some(lowest) => Some(lowest.min(number)),
        None => Some(number),
    }
}
