use rsl_event::Decision;

/// What an event did. A link is named by the number of the event that opened it, counted from 1.
#[derive(Clone, Copy)]
pub enum Outcome {
    /// A fresh ask was accepted with this number, and opened a reserved link.
    Accepted(u64),
    /// A fresh ask was accepted, to which a link of its station or a stale one yielded, and opened a
    /// reserved link.
    AcceptedInPlace {
        /// The accept number.
        number: u64,
        /// The link that yielded and ended.
        yielded: usize,
    },
    /// A fresh ask was refused, because no place was free.
    Refused,
    /// An ask was a repeat of a fresh ask, and got its decision again.
    Repeated(Decision),
    /// An alive opened a link that is bound to its session.
    Opened,
    /// An alive took this reserved link for its session.
    Took(usize),
    /// An alive renewed this link, which was bound to its session.
    Renewed(usize),
    /// An alive was of a session that is closed, and changed nothing.
    Ignored,
    /// An alive found no place for a new link, and changed nothing.
    Over,
    /// A stop, sweep or tick. The definitions say of each link whether it ends it.
    Passed,
}
