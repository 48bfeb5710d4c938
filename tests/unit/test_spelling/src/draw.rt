//! Draws moves and books.

use rand_core::utils::NextWord;
use rand_pcg::Pcg32;
use rld_spelling::Counts;
use rsl_event::{Act, Decision, Event, Key, Nas, NasName, Note, Source};
use rsl_session::{KeptAsk, KeptStop, SavedBook, SavedHolder, SavedLink, Session};
use rsl_shard::Move;
use rsl_wire::{NoMemory, Octets};
use std::alloc::Global;

/// The accounts and clients of everything that is drawn: their numbers take one octet and more.
pub(crate) const COUNTS: Counts = Counts {
    accounts: 70_000,
    clients: 300,
};

/// Octets from which names and ids are cut, before their values are drawn.
const OCTETS: [u8; 253] = [0x6e; 253];

/// Draws moves and books.
#[derive(Drop)]
pub(crate) struct Draw {
    words: Pcg32,
}

impl Draw {
    /// What a seed draws.
    pub(crate) fn new(seed: u64) -> Draw {
        Draw {
            words: Pcg32::new(seed, 54),
        }
    }

    /// A number below this one.
    fn below(&mut self, bound: u32) -> u32 {
        self.words.next_word() % bound
    }

    /// A number of any size: each form of numbers comes, and the numbers at its edges.
    fn number(&mut self) -> u64 {
        let word = u64::from(self.words.next_word());
        match self.below(8) {
            0 => 252 + word % 3,
            1 => 65_534 + word % 3,
            2 => 4_294_967_294 + word % 3,
            3 => u64::MAX - word % 3,
            4 => word << 20,
            5 => word,
            _ => word % 253,
        }
    }

    /// 0, or a number of any size.
    fn some_number(&mut self) -> u64 {
        if self.is_so() { 0 } else { self.number() }
    }

    fn is_so(&mut self) -> bool {
        self.below(2) == 0
    }

    /// At most 253 octets, mostly few.
    fn octets(&mut self, alloc: Global) -> Result<Octets, NoMemory> {
        let len = match self.below(8) {
            0 => 0,
            1 => 253,
            2 => self.below(254) as usize,
            _ => self.below(30) as usize,
        };
        let mut octets = Vec::from_slice(alloc, &OCTETS[..len.min(253)])?;
        for octet in octets.as_mut_slice() {
            *octet = self.below(256) as u8;
        }
        Octets::from_slice(alloc, octets.as_slice())
    }

    fn some_octets(&mut self, alloc: Global) -> Result<Option<Octets>, NoMemory> {
        if self.is_so() {
            return Ok(None);
        }
        Ok(Some(self.octets(alloc)?))
    }

    fn nas(&mut self, alloc: Global) -> Result<Nas, NoMemory> {
        let client = self.below(300);
        let name = match self.below(3) {
            0 => NasName::Unnamed,
            1 => NasName::Address(self.octets(alloc)?),
            _ => NasName::Identifier(self.octets(alloc)?),
        };
        Ok(Nas { client, name })
    }

    fn key(&mut self) -> Key {
        let address = [192, 168, self.below(256) as u8, self.below(256) as u8];
        let source = Source {
            address,
            port: self.below(65_536) as u16,
        };
        let id = self.below(256) as u8;
        Key {
            source,
            id,
            authenticator: [id; 16],
        }
    }

    fn own_act(&mut self, alloc: Global) -> Result<Act, NoMemory> {
        match self.below(3) {
            0 => {
                let key = self.key();
                let nas = self.nas(alloc)?;
                let station = self.some_octets(alloc)?;
                Ok(Act::Ask { key, nas, station })
            }
            1 => self.alive(alloc),
            _ => {
                let nas = self.nas(alloc)?;
                let session = self.octets(alloc)?;
                Ok(Act::Stop { nas, session })
            }
        }
    }

    fn alive(&mut self, alloc: Global) -> Result<Act, NoMemory> {
        let class = if self.is_so() {
            None
        } else {
            Some(self.number())
        };
        let nas = self.nas(alloc)?;
        let session = self.octets(alloc)?;
        let bundle = self.some_octets(alloc)?;
        let station = self.some_octets(alloc)?;
        Ok(Act::Alive {
            nas,
            session,
            bundle,
            class,
            station,
        })
    }

    fn note(&mut self, alloc: Global) -> Result<Note, NoMemory> {
        let status = self.words.next_word();
        let nas = self.nas(alloc)?;
        let name = self.octets(alloc)?;
        let session = self.octets(alloc)?;
        Ok(Note {
            nas,
            status,
            name,
            session,
        })
    }

    /// A move: one of an account comes most often.
    pub(crate) fn moved(&mut self, alloc: Global) -> Result<Move, NoMemory> {
        let moment = self.number();
        match self.below(6) {
            0 => Ok(Move::Tick { moment }),
            1 => {
                let nas = self.nas(alloc)?;
                let delay = self.some_number();
                Ok(Move::Sweep { moment, nas, delay })
            }
            2 => {
                let note = self.note(alloc)?;
                Ok(Move::Stray { moment, note })
            }
            _ => {
                let account = self.below(70_000);
                let act = self.own_act(alloc)?;
                let event = Event { moment, act };
                Ok(Move::Own { account, event })
            }
        }
    }

    fn link(&mut self, alloc: Global) -> Result<SavedLink, NoMemory> {
        let touched = self.number();
        let holder = if self.is_so() {
            SavedHolder::Reserved(self.number())
        } else {
            SavedHolder::Bound(self.octets(alloc)?)
        };
        let nas = self.nas(alloc)?;
        let bundle = self.some_octets(alloc)?;
        let station = self.some_octets(alloc)?;
        let opened = self.some_number();
        Ok(SavedLink {
            nas,
            holder,
            bundle,
            station,
            opened,
            touched,
        })
    }

    fn kept_ask(&mut self, alloc: Global) -> Result<KeptAsk, NoMemory> {
        let decision = if self.is_so() {
            Decision::LimitReject
        } else {
            Decision::Accept(self.number())
        };
        let key = self.key();
        let at = self.number();
        let swept = self.is_so();
        let nas = self.nas(alloc)?;
        Ok(KeptAsk {
            key,
            nas,
            decision,
            at,
            swept,
        })
    }

    fn kept_stop(&mut self, alloc: Global) -> Result<KeptStop, NoMemory> {
        let at = self.number();
        let swept = self.is_so();
        let nas = self.nas(alloc)?;
        let id = self.octets(alloc)?;
        let session = Session { nas, id };
        Ok(KeptStop { session, at, swept })
    }

    fn links(&mut self, alloc: Global) -> Result<Vec<SavedLink>, NoMemory> {
        let mut links = Vec::new(alloc);
        for _ in 0..self.below(5) {
            links.push(self.link(alloc)?)?;
        }
        Ok(links)
    }

    fn asks(&mut self, alloc: Global) -> Result<Vec<KeptAsk>, NoMemory> {
        let mut asks = Vec::new(alloc);
        for _ in 0..self.below(9) {
            asks.push(self.kept_ask(alloc)?)?;
        }
        Ok(asks)
    }

    fn stops(&mut self, alloc: Global) -> Result<Vec<KeptStop>, NoMemory> {
        let mut stops = Vec::new(alloc);
        for _ in 0..self.below(5) {
            stops.push(self.kept_stop(alloc)?)?;
        }
        Ok(stops)
    }

    /// What a book may hold.
    pub(crate) fn book(&mut self, alloc: Global) -> Result<SavedBook, NoMemory> {
        let clock = self.number();
        let accepts = self.number();
        let over = self.number();
        let links = self.links(alloc)?;
        let asks = self.asks(alloc)?;
        let stops = self.stops(alloc)?;
        Ok(SavedBook {
            clock,
            links,
            accepts,
            asks,
            stops,
            over,
        })
    }

    // ---- events of one account: access servers, sessions, bundles and stations are few

    /// How many events an account has.
    pub(crate) fn count(&mut self) -> u32 {
        self.below(40)
    }

    /// How many seconds pass before an event.
    pub(crate) fn pause(&mut self) -> u64 {
        u64::from(self.below(30))
    }

    /// One of four ids. The first takes memory of its own.
    fn few(&mut self, alloc: Global) -> Result<Octets, NoMemory> {
        match self.below(4) {
            0 => Octets::from_slice(alloc, &OCTETS[..30]),
            1 => Octets::from_slice(alloc, b"1"),
            2 => Octets::from_slice(alloc, b"2"),
            _ => Octets::from_slice(alloc, b"3"),
        }
    }

    fn few_nas(&mut self, alloc: Global) -> Result<Nas, NoMemory> {
        let client = self.below(2);
        let name = if self.is_so() {
            NasName::Identifier(self.few(alloc)?)
        } else {
            NasName::Unnamed
        };
        Ok(Nas { client, name })
    }

    /// One of four stations, or none.
    fn few_stations(&mut self, alloc: Global) -> Result<Option<Octets>, NoMemory> {
        if self.is_so() {
            return Ok(None);
        }
        Ok(Some(self.few(alloc)?))
    }

    fn few_alive(&mut self, alloc: Global) -> Result<Act, NoMemory> {
        let class = if self.is_so() {
            None
        } else {
            Some(u64::from(self.below(8)))
        };
        let bundled = self.is_so();
        let nas = self.few_nas(alloc)?;
        let session = self.few(alloc)?;
        let bundle = if bundled {
            Some(self.few(alloc)?)
        } else {
            None
        };
        let station = self.few_stations(alloc)?;
        Ok(Act::Alive {
            nas,
            session,
            bundle,
            class,
            station,
        })
    }

    fn act(&mut self, alloc: Global) -> Result<Act, NoMemory> {
        match self.below(16) {
            0..=4 => {
                let key = self.key();
                let nas = self.few_nas(alloc)?;
                let station = self.few_stations(alloc)?;
                Ok(Act::Ask { key, nas, station })
            }
            5..=11 => self.few_alive(alloc),
            12..=13 => {
                let nas = self.few_nas(alloc)?;
                let session = self.few(alloc)?;
                Ok(Act::Stop { nas, session })
            }
            14 => {
                let nas = self.few_nas(alloc)?;
                let delay = u64::from(self.below(4)) * 20;
                Ok(Act::Sweep { nas, delay })
            }
            _ => Ok(Act::Tick),
        }
    }

    /// What happens to an account at a moment.
    pub(crate) fn event(&mut self, alloc: Global, moment: u64) -> Result<Event, NoMemory> {
        let act = self.act(alloc)?;
        Ok(Event { moment, act })
    }
}
