//! Laws of details: the contracts of functions that do nothing.

ghost use Rattle.rsl_event.specs.Laws.{CausesAreOfRejects, UncheckedAreOfTrusted};

/// An Access-Request that is understood has a cause exactly if it is rejected: a bare one has the
/// cause of malformed attributes, any other reject another cause, and an ask none.
pub fn causes_are_of_rejects()
    ensures { CausesAreOfRejects }
{}

/// A request of a client that is not trusted, as none is in versions 1 and 2 of the account file, is never
/// rejected for a credential that the server does not check.
pub fn unchecked_are_of_trusted()
    ensures { UncheckedAreOfTrusted }
{}
