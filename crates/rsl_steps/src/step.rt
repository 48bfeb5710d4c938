use crate::reply_octets::ReplyOctets;
use rsl_event::{Dropped, Nas, Port, Said, Source};
use rsl_shard::Shard;
use rsl_wire::Octets;

/// What reaches the server.
#[derive(Drop)]
pub enum Step {
    /// A datagram.
    Datagram {
        /// The moment at which it came, in seconds. A later step may have a lower moment.
        moment: u64,
        /// The port that it came to.
        port: Port,
        /// Where it came from.
        source: Source,
        /// Its octets.
        octets: Octets,
    },
    /// An access server has restarted, for the accounts of one shard.
    Sweep {
        /// The number of the shard; any other number is no account's.
        shard: u32,
        /// The moment, in seconds.
        moment: u64,
        /// The access server.
        nas: Nas,
        /// How many seconds ago it restarted.
        delay: u64,
    },
    /// Time has passed, for the accounts of one shard.
    Tick {
        /// The number of the shard; any other number is no account's.
        shard: u32,
        /// The moment, in seconds.
        moment: u64,
    },
}

/// The answer to a step.
#[derive(PartialEq, Eq, Drop)]
pub enum Answer {
    /// A reply: the answer in a word, and its octets.
    Reply(Said, ReplyOctets),
    /// The datagram was dropped. It is never `Dropped::NoMemory`, which becomes `Refused`.
    Dropped(Dropped),
    /// A sweep or a tick was made; there is nothing to answer.
    Quiet,
    /// Memory was refused: the step changed nothing and has no answer.
    Refused,
}

/// The answers of a run, and its shards.
#[derive(Drop)]
pub struct Ran {
    /// The answer to each step, in order.
    pub answers: Vec<Answer>,
    /// The shards after the steps, in the order of their numbers.
    pub shards: Vec<Shard>,
}
