//! What a running server has made of a command.

ghost use Rattle.std.specs.Prelude.{◌≡◌};
ghost use Rattle.rld_commands.specs.Outcome.{is_not_held, outcome_of};

use rld_control::{Reply, is_unanswered};
use rld_words::Topic;

/// What a running server has made of a command.
#[derive(Clone, Copy)]
pub(crate) enum Outcome<'a> {
    /// It has done it, and prints these lines.
    Done(&'a [u8]),
    /// What is to be freed or disconnected is not held.
    NotHeld,
    /// An access server has not answered it.
    Unanswered,
    /// It has not done it, for this reason.
    Refused(&'a [u8]),
    /// Its answer was cut off.
    Broken,
}

impl<'a> Outcome<'a> {
    /// What a server has made of this command, by its answer.
    pub(crate) fn of(topic: Topic, reply: Reply<'a>) -> Outcome<'a>
        ensures { result ≡ outcome_of topic reply.entry }
    {
        if is_not_held(topic, reply) {
            return Outcome::NotHeld;
        }
        match reply {
            Reply::Done(lines) => Outcome::Done(lines),
            Reply::Refused(text) if is_unanswered(text) => Outcome::Unanswered,
            Reply::Refused(text) => Outcome::Refused(text),
            Reply::Broken => Outcome::Broken,
        }
    }
}

/// Whether a server says that what is to be freed or disconnected is not held: `free` is done then, and
/// `disconnect` is not.
fn is_not_held(topic: Topic, reply: Reply<'_>) -> bool
    ensures { result ≡ is_not_held topic reply.entry }
{
    match (topic, reply) {
        (Topic::Free, Reply::Done(lines)) => lines == b"no such session\n".as_slice(),
        (Topic::Disconnect, Reply::Refused(text)) => text == b"no such session".as_slice(),
        _ => false,
    }
}
