use rand_core::utils::NextWord;
use rand_pcg::Pcg32;
use rsl_accounts::Rules;
use rsl_event::{Act, Event, Key, Nas, NasName, Source};
use rsl_wire::{NoMemory, Octets};
use std::alloc::Global;

/// Draws rules and events.
#[derive(Drop)]
pub(crate) struct Draw {
    words: Pcg32,
    /// The kind of act that a list has most of.
    favoured: u32,
    /// One moment in this many is a new one.
    pace: u32,
    /// The last moments.
    moments: [u64; 4],
}

impl Draw {
    /// What a seed draws.
    pub(crate) fn new(seed: u64) -> Draw {
        Draw {
            words: Pcg32::new(seed, 54),
            favoured: 0,
            pace: 1,
            moments: [0; 4],
        }
    }

    /// A number below this one.
    fn below(&mut self, bound: u32) -> u32 {
        self.words.next_word() % bound
    }

    /// The rules of another account: few places, and times so short that each edge is met.
    pub(crate) fn rules(&mut self) -> Rules {
        let keep = 1 + u64::from(self.below(6));
        Rules {
            places: u64::from(self.below(5)),
            ports: 1 + u64::from(self.below(3)),
            reserve: keep + u64::from(self.below(5)),
            live: 1 + u64::from(self.below(8)),
            grace: 1 + u64::from(self.below(8)),
            closed: 1 + u64::from(self.below(12)),
            keep,
        }
    }

    /// Begins a list: near the end of time, one in eight.
    pub(crate) fn begin(&mut self) {
        self.favoured = self.below(8);
        self.pace = 1 + self.below(4);
        let start = if self.below(8) == 0 { u64::MAX - 60 } else { 0 };
        self.moments = [start; 4];
    }

    /// The moment of the next event: that of one of the last, one that falls, or one at an edge of
    /// a time.
    fn moment(&mut self, rules: &Rules) -> u64 {
        let earlier = self.moments[self.below(4) as usize];
        if self.below(4) >= self.pace {
            return earlier;
        }
        let moment = match self.below(8) {
            0 => earlier.saturating_sub(3),
            1 => earlier.saturating_add(rules.keep),
            2 => earlier.saturating_add(rules.reserve),
            3 => earlier.saturating_add(rules.live),
            4 => earlier
                .saturating_add(rules.live)
                .saturating_add(rules.grace),
            5 => earlier.saturating_add(rules.closed),
            _ => earlier.saturating_add(1),
        };
        let moment = moment.saturating_sub(u64::from(self.below(2)));
        self.moments[self.below(4) as usize] = moment;
        moment
    }

    /// The next event.
    pub(crate) fn event(&mut self, alloc: Global, rules: &Rules) -> Result<Event, NoMemory> {
        let moment = self.moment(rules);
        let kind = if self.below(2) == 0 {
            self.favoured
        } else {
            self.below(8)
        };
        let act = match kind {
            0 | 1 => self.ask(alloc)?,
            2 | 3 | 4 => self.alive(alloc)?,
            5 => self.stop(alloc)?,
            6 => self.sweep(alloc)?,
            _ => Act::Tick,
        };
        Ok(Event { moment, act })
    }

    fn ask(&mut self, alloc: Global) -> Result<Act, NoMemory> {
        let source = Source {
            address: [192, 168, 1, 16],
            port: 1024 + self.below(2) as u16,
        };
        let key = Key {
            source,
            id: self.below(8) as u8,
            authenticator: [0; 16],
        };
        let nas = self.nas(alloc)?;
        let station = self.station(alloc)?;
        Ok(Act::Ask { key, nas, station })
    }

    fn alive(&mut self, alloc: Global) -> Result<Act, NoMemory> {
        Ok(Act::Alive {
            nas: self.nas(alloc)?,
            session: self.session(alloc)?,
            bundle: self.bundle(alloc)?,
            class: self.class(),
            station: self.station(alloc)?,
        })
    }

    fn stop(&mut self, alloc: Global) -> Result<Act, NoMemory> {
        Ok(Act::Stop {
            nas: self.nas(alloc)?,
            session: self.session(alloc)?,
        })
    }

    /// A sweep that is told at once is rare, as it ends so much.
    fn sweep(&mut self, alloc: Global) -> Result<Act, NoMemory> {
        let delay = self.delay();
        if delay < 2 && self.below(2) > 0 {
            return self.alive(alloc);
        }
        let nas = self.nas(alloc)?;
        Ok(Act::Sweep { nas, delay })
    }

    /// How late a sweep is told: by about as much as links are old, or by more than any is.
    fn delay(&mut self) -> u64 {
        match self.below(8) {
            0 => u64::MAX,
            1 => 0,
            _ => u64::from(self.below(6)),
        }
    }

    /// One of two stations, so that links of one account are often of the same one, or none.
    fn station(&mut self, alloc: Global) -> Result<Option<Octets>, NoMemory> {
        match self.below(4) {
            0 => Ok(Some(Octets::from_slice(alloc, b"a")?)),
            1 => Ok(Some(Octets::from_slice(alloc, b"b")?)),
            _ => Ok(None),
        }
    }

    fn nas(&mut self, alloc: Global) -> Result<Nas, NoMemory> {
        let name = match self.below(6) {
            0 => NasName::Unnamed,
            1 => NasName::Address(Octets::from_slice(alloc, b"n")?),
            2 => NasName::Identifier(Octets::from_slice(alloc, b"m")?),
            _ => NasName::Identifier(Octets::from_slice(alloc, b"n")?),
        };
        let client = self.below(4) / 3;
        Ok(Nas { client, name })
    }

    fn session(&mut self, alloc: Global) -> Result<Octets, NoMemory> {
        Octets::from_slice(alloc, &[self.below(6) as u8])
    }

    fn bundle(&mut self, alloc: Global) -> Result<Option<Octets>, NoMemory> {
        match self.below(4) {
            0 => Ok(Some(Octets::from_slice(alloc, b"m")?)),
            1 => Ok(Some(Octets::from_slice(alloc, b"k")?)),
            _ => Ok(None),
        }
    }

    fn class(&mut self) -> Option<u64> {
        match self.below(3) {
            0 => Some(u64::from(self.below(8))),
            _ => None,
        }
    }
}
