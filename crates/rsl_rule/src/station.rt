ghost use Rattle.std.specs.Prelude.{◌≡◌};
ghost use Rattle.std.specs.Option.{option_copied};
ghost use Rattle.rsl_session.specs.Past.{looking_back};
ghost use Rattle.rsl_session.specs.Station.{is_of_station, station_at, station_of, stationed_by};

use crate::link::touches_link;
use rsl_event::Act;
use rsl_session::PastEvent;
use rsl_wire::Octets;

/// The station of an act.
#[tactic(auto, unfolding(rsl_session::specs::Station::station_of))]
fn station_of_act(act: &Act) -> Option<&Octets>
    ensures { option_copied result ≡ station_of act.now }
{
    match act {
        Act::Ask { station, .. } | Act::Alive { station, .. } => station.as_ref(),
        Act::Stop { .. } | Act::Sweep { .. } | Act::Tick => None,
    }
}

/// The station with which the entry with this number touched a link.
#[tactic(auto, unfolding(rsl_session::specs::Station::stationed_by))]
fn station_touched(link: usize, number: usize, entry: &PastEvent) -> Option<&Octets>
    ensures { option_copied result ≡ stationed_by link number entry.now }
{
    if touches_link(link, number, entry.outcome) {
        station_of_act(&entry.event.act)
    } else {
        None
    }
}

/// The station of a link: the last with which it was touched.
#[tactic(auto, using(crate::proofs::Looking::station_steps))]
fn station_of_link(link: usize, history: &[PastEvent]) -> Option<&Octets>
    ensures { option_copied result ≡ station_at link (looking_back history.now) }
{
    let mut station = None;
    for (at, entry) in history.iter().enumerate() {
        station = station_touched(link, at + 1, entry).or(station);
    }
    station
}

/// Whether a link is of the station of an act.
#[tactic(auto, unfolding(rsl_session::specs::Station::is_of_station))]
pub(crate) fn is_link_of_station(history: &[PastEvent], act: &Act, link: usize) -> bool
    ensures { result ≡ is_of_station (looking_back history.now) (station_of act.now) link }
{
    let Some(station) = station_of_act(act) else {
        return false;
    };
    match station_of_link(link, history) {
        Some(own) => own == station,
        None => false,
    }
}
