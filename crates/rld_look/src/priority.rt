ghost use Rattle.std.specs.Prelude.{◌≡◌};
ghost use Rattle.rld_look.specs.Line.{mark_of, priority_of};

use rld_counts::Kind;

/// The reader of the lines that a server writes.
#[derive(Clone, Copy)]
pub enum Sink {
    /// The journal of systemd, which takes a mark at the front of a line as its priority.
    Journal,
    /// A person, a file or another program.
    Plain,
}

/// The priority of a line, by the names of RFC 5424 section 6.2.1.
#[derive(Clone, Copy)]
pub enum Priority {
    /// The server does not do its work.
    Error,
    /// Something is misconfigured, or fails.
    Warning,
    /// Something that an operator may want to know.
    Notice,
}

impl Priority {
    /// The prefix of a line of this priority: a mark that the journal reads, or nothing.
    pub fn mark(self, sink: Sink) -> &'static str
        ensures { result.now ≡ mark_of sink self }
    {
        match (sink, self) {
            (Sink::Plain, _) => "",
            (Sink::Journal, Priority::Error) => "<3>",
            (Sink::Journal, Priority::Warning) => "<4>",
            (Sink::Journal, Priority::Notice) => "<5>",
        }
    }

    /// The priority of the line of a datagram of this kind. A reject concerns a customer; any other
    /// refusal concerns whoever runs the access servers or this server.
    pub fn of(kind: Kind) -> Priority
        ensures { result ≡ priority_of kind }
    {
        match kind {
            Kind::LimitRejected | Kind::Rejected => Priority::Notice,
            Kind::Accepted | Kind::Accounted | Kind::NoAccount | Kind::Dropped | Kind::Failed =>
                Priority::Warning,
        }
    }
}
