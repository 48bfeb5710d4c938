//! How many octets usual moves take.

use rld_spelling::Counts;
use rsl_event::{Act, Event, Key, Nas, NasName, Source};
use rsl_shard::Move;
use rsl_wire::{NoMemory, Octets};
use std::alloc::Global;
use std::test::Fail;

/// The most accounts that a configuration can have, and many clients.
const MANY: Counts = Counts {
    accounts: 16_384,
    clients: 1_000,
};

/// A moment of this century.
const NOW: u64 = 1_700_000_000;

/// A station as RFC 3580 section 3.21 writes it, of 17 octets: a move takes 18 octets more with it.
const STATION: &[u8] = b"00-10-A4-23-19-C0";

/// How many octets a move takes.
fn length(alloc: Global, moved: &Move) -> Result<usize, Fail> {
    let mut octets = Vec::new(alloc);
    MANY.push_move(&mut octets, moved)?;
    Ok(octets.len())
}

/// An access server with a name of 16 octets.
fn usual_nas(alloc: Global) -> Result<Nas, NoMemory> {
    let name = Octets::from_slice(alloc, b"bras-3.pop.net.x")?;
    Ok(Nas {
        client: 999,
        name: NasName::Identifier(name),
    })
}

fn station_of(alloc: Global, station: Option<&[u8]>) -> Result<Option<Octets>, NoMemory> {
    match station {
        Some(station) => Ok(Some(Octets::from_slice(alloc, station)?)),
        None => Ok(None),
    }
}

fn own(act: Act) -> Move {
    Move::Own {
        account: 16_383,
        event: Event { moment: NOW, act },
    }
}

#[test]
fn an_ask_takes_at_most_64_octets_and_those_of_its_station(rt: HostRuntime) -> Result<(), Fail> {
    let source = Source {
        address: [192, 168, 1, 16],
        port: 1024,
    };
    let key = Key {
        source,
        id: 7,
        authenticator: [0; 16],
    };
    for (station, octets) in [(None, 53), (Some(STATION), 71)] {
        let ask = own(Act::Ask {
            key,
            nas: usual_nas(rt.alloc())?,
            station: station_of(rt.alloc(), station)?,
        });
        assert_eq!(rt; length(rt.alloc(), &ask)?, octets);
    }
    Ok(())
}

#[test]
fn an_interim_takes_at_most_56_octets_and_those_of_its_station(
    rt: HostRuntime,
) -> Result<(), Fail> {
    for (station, octets) in [(None, 54), (Some(STATION), 72)] {
        let interim = own(Act::Alive {
            nas: usual_nas(rt.alloc())?,
            session: Octets::from_slice(rt.alloc(), b"8100002f0001a2b3")?,
            bundle: None,
            class: Some(70_000),
            station: station_of(rt.alloc(), station)?,
        });
        assert_eq!(rt; length(rt.alloc(), &interim)?, octets);
    }
    Ok(())
}

#[test]
fn a_tick_takes_at_most_10_octets(rt: HostRuntime) -> Result<(), Fail> {
    assert_eq!(rt; length(rt.alloc(), &Move::Tick { moment: NOW })?, 6);
    assert_eq!(rt; length(rt.alloc(), &Move::Tick { moment: u64::MAX })?, 10);
    Ok(())
}
