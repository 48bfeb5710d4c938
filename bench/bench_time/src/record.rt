use crate::events::key_of;
use rsl_accounts::Config;
use rsl_event::{Act, Event, Nas, NasName};
use rsl_shard::{Move, Segment, Shard};
use rsl_wire::{NoMemory, Octets};
use std::alloc::Global;

/// The record of the first shard in two segments, of `lines` lines together.
pub(crate) fn record_of(
    alloc: Global,
    config: &Config,
    lines: u64,
) -> Result<Vec<Segment>, NoMemory> {
    // A configuration has a shard: this call tells it.
    let mut shard = Shard::new(alloc, config, 0)?;
    let mut segments = Vec::new(alloc);
    for number in 0..lines {
        if number == lines / 2 {
            segments.push(shard.cut(alloc)?)?;
        }
        let moved = move_of(alloc, config.accounts(), number)?;
        if shard.takes(&moved) && shard.total() < u64::MAX {
            shard.step(alloc, moved)?;
        }
    }
    segments.push(shard.cut(alloc)?)?;
    Ok(segments)
}

/// The move of a line: one of four events of a session of the account whose turn it is, 100 a
/// second.
fn move_of(alloc: Global, accounts: u32, number: u64) -> Result<Move, NoMemory> {
    let accounts = u64::from(accounts.max(1));
    let turn = number / accounts;
    let event = Event {
        moment: number / 100,
        act: act_of(alloc, turn)?,
    };
    Ok(Move::Own {
        account: (number % accounts) as u32,
        event,
    })
}

/// The act of a turn.
fn act_of(alloc: Global, turn: u64) -> Result<Act, NoMemory> {
    let nas = Nas {
        client: 0,
        name: NasName::Identifier(Octets::from_slice(alloc, b"nas1.example")?),
    };
    if turn % 4 == 0 {
        return Ok(Act::Ask {
            key: key_of(turn / 4),
            nas,
            station: None,
        });
    }
    let session = Octets::from_slice(alloc, &(turn / 4).to_be_bytes())?;
    Ok(if turn % 4 == 3 {
        Act::Stop { nas, session }
    } else {
        Act::Alive {
            nas,
            session,
            bundle: None,
            class: None,
            station: None,
        }
    })
}
