//! Whether two lines are equal, layer by layer: the move, the event in it, and the act in that.
ghost use Rattle.std.specs.Prelude.{◌≡◌, ◌↔◌, IsTrue};
ghost use Rattle.rsl_event.specs.declared.event.Act.TheVariants.{Alive};

use rsl_event::{Act, Event, Nas, Note};
use rsl_shard::{Line, Move};
use rsl_wire::Octets;

/// Whether two lines are equal.
pub(crate) fn same_line(line: &Line, other: &Line) -> bool
    ensures { IsTrue result ↔ (line.now ≡ other.now) }
{
    line.decision == other.decision && same_move(&line.moved, &other.moved)
}

/// Whether two moves are equal.
fn same_move(moved: &Move, other: &Move) -> bool
    ensures { IsTrue result ↔ (moved.now ≡ other.now) }
{
    match moved {
        Move::Own { account, event } => match other {
            Move::Own {
                account: other_account,
                event: other_event,
            } => *account == *other_account && same_event(event, other_event),
            _ => false,
        },
        Move::Sweep { moment, nas, delay } => match other {
            Move::Sweep {
                moment: other_moment,
                nas: other_nas,
                delay: other_delay,
            } => *moment == *other_moment && nas.is_same(other_nas) && *delay == *other_delay,
            _ => false,
        },
        Move::Tick { moment } => match other {
            Move::Tick {
                moment: other_moment,
            } => *moment == *other_moment,
            _ => false,
        },
        Move::Stray { moment, note } => match other {
            Move::Stray {
                moment: other_moment,
                note: other_note,
            } => *moment == *other_moment && same_note(note, other_note),
            _ => false,
        },
    }
}

/// Whether two notes are equal.
fn same_note(note: &Note, other: &Note) -> bool
    ensures { IsTrue result ↔ (note.now ≡ other.now) }
{
    note.status == other.status
        && note.nas.is_same(&other.nas)
        && note.name == other.name
        && note.session == other.session
}

/// Whether two events are equal.
fn same_event(event: &Event, other: &Event) -> bool
    ensures { IsTrue result ↔ (event.now ≡ other.now) }
{
    event.moment == other.moment && same_act(&event.act, &other.act)
}

/// Whether two acts are equal.
fn same_act(act: &Act, other: &Act) -> bool
    ensures { IsTrue result ↔ (act.now ≡ other.now) }
{
    match act {
        Act::Ask { key, nas, station } => match other {
            Act::Ask {
                key: other_key,
                nas: other_nas,
                station: other_station,
            } => {
                key.is_same(other_key)
                    && nas.is_same(other_nas)
                    && same_option(station, other_station)
            }
            _ => false,
        },
        Act::Alive {
            nas,
            session,
            bundle,
            class,
            station,
        } => is_alive(other, nas, session, bundle, *class, station),
        Act::Stop { nas, session } => match other {
            Act::Stop {
                nas: other_nas,
                session: other_session,
            } => nas.is_same(other_nas) && *session == *other_session,
            _ => false,
        },
        Act::Sweep { nas, delay } => match other {
            Act::Sweep {
                nas: other_nas,
                delay: other_delay,
            } => nas.is_same(other_nas) && *delay == *other_delay,
            _ => false,
        },
        Act::Tick => match other {
            Act::Tick => true,
            _ => false,
        },
    }
}

/// Whether an act is an alive with these fields.
fn is_alive(
    act: &Act,
    nas: &Nas,
    session: &Octets,
    bundle: &Option<Octets>,
    class: Option<u64>,
    station: &Option<Octets>,
) -> bool
    ensures { IsTrue result ↔
        (act.now ≡ Alive nas.now session.now bundle.now class station.now) }
{
    match act {
        Act::Alive {
            nas: other_nas,
            session: other_session,
            bundle: other_bundle,
            class: other_class,
            station: other_station,
        } => {
            other_nas.is_same(nas)
                && *other_session == *session
                && same_option(other_bundle, bundle)
                && same_class(*other_class, class)
                && same_option(other_station, station)
        }
        _ => false,
    }
}

/// Whether two bundle ids or two stations are equal, as far as there are any.
fn same_option(octets: &Option<Octets>, other: &Option<Octets>) -> bool
    ensures { IsTrue result ↔ (octets.now ≡ other.now) }
{
    match octets {
        Some(octets) => match other {
            Some(other) => *octets == *other,
            None => false,
        },
        None => other.is_none(),
    }
}

/// Whether two optional class numbers are equal.
fn same_class(class: Option<u64>, other: Option<u64>) -> bool
    ensures { IsTrue result ↔ (class ≡ other) }
{
    class == other
}
