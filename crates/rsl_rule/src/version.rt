/// The version of the session rule. What is written of books and moves carries it, and a reader
/// refuses any other, since one rule cannot go on from the books of another.
///
/// It is raised with each change of what the rule decides on some events, or of what a book holds
/// after them. A change of words, code or proofs alone does not raise it.
///
/// Stations and delays did not raise it: where no event carries one, the rule decides as before, and
/// no earlier log has such an event.
pub const SESSION_RULE_VERSION: u64 = 1;
