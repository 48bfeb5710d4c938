//! Laws of closed services. Each is the contract of a function that does nothing, or calls laws of
//! the crates below, on which its proof rests.

ghost use Rattle.rsl_service.specs.Laws.{ClosedJournalsObeyTheRule};

/// The journals of a closed service obey the session rule: each account's decisions are the rule's
/// over its own events among the lines of its shard, and so are its book and its places. The given
/// segments are as `Service::cut` hands them out.
pub fn closed_journals_obey_the_rule()
    ensures { ClosedJournalsObeyTheRule }
{
    rsl_steps::laws::journals_obey_the_rule();
}
