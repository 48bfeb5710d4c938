use rsl_accounts::Rules;
use rsl_event::{Act, Event, Key, Nas, NasName, Source};
use rsl_wire::{NoMemory, Octets};
use std::alloc::Global;

/// The most seconds that a time of the rules can have.
const DAY: u64 = 86_400;

/// How many links lie between two whose turn comes one after the other, where they do not come in
/// the order in which they opened. It is odd, so each of 1,024 links has its turn.
const STRIDE: u64 = 389;

/// A work whose events are those of its turns.
#[derive(Clone, Copy)]
pub(crate) enum Work {
    /// An Interim-Update of each link, in the order in which they opened.
    Interims,
    /// The same, in another order.
    Strides,
    /// In that order, each link ends by a Stop, and in the next turn another opens in its bundle.
    Changes,
    /// An ask, the Start that takes the link that it reserved, and the Stop of that.
    Takes,
    /// An Interim-Update of each link, in the order in which they opened. Each has a station of its own.
    Stationed,
    /// An ask of one station, to which the link of the ask before yields. The other links have stations
    /// of their own.
    Returns,
    /// An ask of a station that no link has. The links have stations of their own.
    Misses,
    /// An ask of the one station that all links have. Where the places are full of whole bundles, no
    /// link yields to it.
    Shared,
    /// An ask without a station.
    Asks,
}

impl Work {
    /// The work of this name, if there is one.
    pub(crate) fn named(name: &str) -> Option<Work> {
        match name {
            "interims" => Some(Work::Interims),
            "strides" => Some(Work::Strides),
            "changes" => Some(Work::Changes),
            "takes" => Some(Work::Takes),
            "stationed" => Some(Work::Stationed),
            "returns" => Some(Work::Returns),
            "misses" => Some(Work::Misses),
            "shared" => Some(Work::Shared),
            "asks" => Some(Work::Asks),
            _ => None,
        }
    }

    /// The station, by its number, of a link that is open before it, if it has one.
    pub(crate) fn station_of(self, link: u64) -> Option<u64> {
        match self {
            Work::Stationed | Work::Returns | Work::Misses => Some(link),
            Work::Shared => Some(0),
            _ => None,
        }
    }
}

/// An account, and what is open of it.
#[derive(Clone, Copy)]
pub(crate) struct Size {
    pub places: u64,
    pub ports: u64,
    pub links: u64,
    /// The access servers that its links are at.
    pub servers: u64,
}

impl Size {
    /// The rules of the account, whose times are as long as can be.
    pub(crate) fn rules(&self) -> Rules {
        Rules {
            places: self.places,
            ports: self.ports,
            reserve: DAY,
            live: DAY,
            grace: DAY,
            closed: DAY,
            keep: 10,
        }
    }

    /// The access server of a link by its number.
    fn nas(&self, alloc: Global, link: u64) -> Result<Nas, NoMemory> {
        nas_of(alloc, link / self.ports.max(1) % self.servers.max(1))
    }

    /// The alive of a session that has a link: links that follow one another share a bundle.
    fn alive(&self, alloc: Global, link: u64, session: u64) -> Result<Act, NoMemory> {
        self.alive_of(alloc, link, session, None)
    }

    /// The same of a station by its number, if it has one.
    fn alive_of(
        &self,
        alloc: Global,
        link: u64,
        session: u64,
        station: Option<u64>,
    ) -> Result<Act, NoMemory> {
        Ok(Act::Alive {
            nas: self.nas(alloc, link)?,
            session: octets_of(alloc, session)?,
            bundle: Some(octets_of(alloc, link / self.ports.max(1))?),
            class: None,
            station: station_of(alloc, station)?,
        })
    }

    /// The Start of a link by its number, of a station by its number, if it has one, at the moment 0.
    pub(crate) fn start(
        &self,
        alloc: Global,
        link: u64,
        station: Option<u64>,
    ) -> Result<Event, NoMemory> {
        Ok(Event {
            moment: 0,
            act: self.alive_of(alloc, link, link, station)?,
        })
    }

    /// The event of a turn of a work, a second after the one before; of `Takes` and of asks alone a
    /// hundred of them come in a second, so that no other link lapses.
    pub(crate) fn event(&self, alloc: Global, work: Work, turn: u64) -> Result<Event, NoMemory> {
        let links = self.links.max(1);
        let (link, strided) = (turn % links, turn.wrapping_mul(STRIDE) % links);
        let (moment, act) = match work {
            Work::Interims => (turn, self.alive(alloc, link, link)?),
            Work::Stationed => (turn, self.alive_of(alloc, link, link, Some(link))?),
            Work::Strides => (turn, self.alive(alloc, strided, strided)?),
            Work::Changes => (turn, self.change(alloc, turn)?),
            Work::Takes => (turn / 100, self.take(alloc, turn)?),
            Work::Returns => (turn / 100, self.ask(alloc, turn, Some(self.links))?),
            Work::Misses => (
                turn / 100,
                self.ask(alloc, turn, Some(self.links.wrapping_add(turn)))?,
            ),
            Work::Shared => (turn / 100, self.ask(alloc, turn, Some(0))?),
            Work::Asks => (turn / 100, self.ask(alloc, turn, None)?),
        };
        Ok(Event { moment, act })
    }

    /// The ask of this number, of a station by its number, if it has one.
    fn ask(&self, alloc: Global, number: u64, station: Option<u64>) -> Result<Act, NoMemory> {
        Ok(Act::Ask {
            key: key_of(number),
            nas: self.nas(alloc, 0)?,
            station: station_of(alloc, station)?,
        })
    }

    /// The act of a turn of `Changes`.
    fn change(&self, alloc: Global, turn: u64) -> Result<Act, NoMemory> {
        let links = self.links.max(1);
        let change = turn / 2;
        let link = change.wrapping_mul(STRIDE) % links;
        let session = (change - change % links).wrapping_add(link);
        if turn % 2 == 0 {
            let nas = self.nas(alloc, link)?;
            let session = octets_of(alloc, session)?;
            Ok(Act::Stop { nas, session })
        } else {
            self.alive(alloc, link, session.wrapping_add(links))
        }
    }

    /// The act of a turn of `Takes`. The numbers of the accepts begin with 0, and those of the
    /// sessions past those of the other links.
    fn take(&self, alloc: Global, turn: u64) -> Result<Act, NoMemory> {
        let number = turn / 3;
        if turn % 3 == 0 {
            return self.ask(alloc, number, None);
        }
        let nas = self.nas(alloc, 0)?;
        let session = octets_of(alloc, self.links.wrapping_add(number))?;
        Ok(if turn % 3 == 1 {
            Act::Alive {
                nas,
                session,
                bundle: None,
                class: Some(number),
                station: None,
            }
        } else {
            Act::Stop { nas, session }
        })
    }
}

/// A tick within the first day.
pub(crate) fn tick_of(turn: u64) -> Event {
    Event {
        moment: turn % DAY,
        act: Act::Tick,
    }
}

/// One of a list of events of every kind, of 3,000 sessions at 2,000 access servers, 10 a second, of which
/// some are of one of 500 stations.
pub(crate) fn mixed(alloc: Global, turn: u64) -> Result<Event, NoMemory> {
    let nas = nas_of(alloc, turn % 2_000)?;
    let session = octets_of(alloc, turn % 3_000)?;
    let station = station_of(alloc, (turn % 3 == 0).then_some(turn % 500))?;
    let act = match turn % 16 {
        0 => Act::Tick,
        1 => Act::Sweep {
            nas,
            delay: turn / 16 % 4,
        },
        2 | 3 | 4 => Act::Stop { nas, session },
        5 | 6 | 7 | 8 => Act::Ask {
            key: key_of(turn),
            nas,
            station,
        },
        kind => Act::Alive {
            nas,
            session,
            bundle: None,
            class: if kind == 9 { Some(turn / 4) } else { None },
            station,
        },
    };
    Ok(Event {
        moment: turn / 10,
        act,
    })
}

/// The key of an ask by its number.
pub(crate) fn key_of(number: u64) -> Key {
    let source = Source {
        address: [192, 168, 1, 16],
        port: 1024,
    };
    Key {
        source,
        id: (number % 256) as u8,
        authenticator: [0; 16],
    }
}

fn nas_of(alloc: Global, number: u64) -> Result<Nas, NoMemory> {
    Ok(Nas {
        client: 0,
        name: NasName::Identifier(octets_of(alloc, number)?),
    })
}

/// A station by its number, of the length of one as RFC 3580 section 3.21 writes it.
fn station_of(alloc: Global, number: Option<u64>) -> Result<Option<Octets>, NoMemory> {
    let Some(number) = number else {
        return Ok(None);
    };
    let mut station = [b'-'; 17];
    station[..8].copy_from_slice(&number.to_be_bytes());
    Ok(Some(Octets::from_slice(alloc, &station)?))
}

/// Eight octets by their number.
fn octets_of(alloc: Global, number: u64) -> Result<Octets, NoMemory> {
    Octets::from_slice(alloc, &number.to_be_bytes())
}
