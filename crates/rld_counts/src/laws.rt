//! The laws that join counts, meanings and what is told: the contract of a function that does nothing.

ghost use Rattle.rld_counts.specs.Laws.{CausesAreTold, FatesAreTrue};

use rsl_event::laws::causes_are_of_rejects;

/// Each datagram of a turn has a fate of its gate, from what a watcher learns of it. One that is dropped is
/// counted under the cause why it has no meaning; one that is rejected under the cause of its
/// reject; an accepted one, and one that found no place, asks for an account with the right
/// password; an accounting request is counted under its Acct-Status-Type, and apart if it is of a
/// session whose User-Name no account has. Each cause that is true of a datagram at a gate is among
/// those that the gate tells (`Gate::causes`).
pub fn fates_are_true()
    ensures truth { FatesAreTrue }
    ensures told { CausesAreTold }
{
    causes_are_of_rejects();
}
