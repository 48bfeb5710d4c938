ghost use Rattle.std.specs.Prelude.{◌≡◌};
ghost use Rattle.rsl_script.specs.Verb.{verb_of, setting_of};

use crate::request::Method;
use rsl_event::{Port, Status};

/// What a line is about, by its first word.
#[derive(Clone, Copy)]
pub(crate) enum Verb {
    /// A setting.
    Set,
    /// A client.
    Client,
    /// An account.
    Account,
    /// Something that happens.
    Event(EventVerb),
}

/// What happens, by the first word of its line.
#[derive(Clone, Copy)]
pub(crate) enum EventVerb {
    /// An Access-Request comes.
    Access(Method),
    /// An Accounting-Request comes.
    Accounting(Status),
    /// A datagram of given octets comes to this port.
    Raw(Port),
    /// Time passes.
    Tick,
}

/// A setting that a script may give.
#[derive(Clone, Copy)]
pub(crate) enum Setting {
    /// The number of shards.
    Shards,
    /// Seconds for which an accept reserves a place.
    Reserve,
    /// Seconds from its last packet for which a session counts as live.
    Live,
    /// Seconds for which a session that is no longer live keeps its place.
    Grace,
    /// Seconds for which a stopped session stays closed.
    Closed,
    /// Seconds for which the repeats of an ask get its answer.
    Keep,
}

/// What a line with this first word is about.
#[tactic(auto, unfolding(crate::specs::Verb::verb_of))]
pub(crate) fn verb_of(word: &str) -> Option<Verb>
    ensures { result ≡ verb_of word.now }
{
    match word {
        "set" => Some(Verb::Set),
        "client" => Some(Verb::Client),
        "account" => Some(Verb::Account),
        "ask" => Some(Verb::Event(EventVerb::Access(Method::Pap))),
        "chap" => Some(Verb::Event(EventVerb::Access(Method::Chap))),
        "start" => Some(Verb::Event(EventVerb::Accounting(Status::Start))),
        "interim" => Some(Verb::Event(EventVerb::Accounting(Status::InterimUpdate))),
        "stop" => Some(Verb::Event(EventVerb::Accounting(Status::Stop))),
        "on" => Some(Verb::Event(EventVerb::Accounting(Status::AccountingOn))),
        "off" => Some(Verb::Event(EventVerb::Accounting(Status::AccountingOff))),
        "raw-auth" => Some(Verb::Event(EventVerb::Raw(Port::Auth))),
        "raw-acct" => Some(Verb::Event(EventVerb::Raw(Port::Acct))),
        "tick" => Some(Verb::Event(EventVerb::Tick)),
        _ => None,
    }
}

/// The setting of this name.
#[tactic(auto, unfolding(crate::specs::Verb::setting_of))]
pub(crate) fn setting_of(word: &str) -> Option<Setting>
    ensures { result ≡ setting_of word.now }
{
    match word {
        "shards" => Some(Setting::Shards),
        "reserve" => Some(Setting::Reserve),
        "live" => Some(Setting::Live),
        "grace" => Some(Setting::Grace),
        "closed" => Some(Setting::Closed),
        "keep" => Some(Setting::Keep),
        _ => None,
    }
}
