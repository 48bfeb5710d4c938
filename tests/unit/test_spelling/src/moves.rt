//! Moves: worked rows, and random ones there and back.

use crate::draw::{COUNTS, Draw};
use crate::written::moves_told;
use rld_spelling::{Counts, ReadFault, SpellFault};
use rsl_event::{Act, Event, Nas, NasName};
use rsl_shard::Move;
use rsl_wire::Octets;
use std::alloc::Global;
use std::test::Fail;
use test_rows::{Subject, check_rows, octets_of, printed};

/// The moves that are drawn.
const MOVES: u64 = 10_000; // quick: 500

/// The accounts and clients of the rows.
const FEW: Counts = Counts {
    accounts: 3,
    clients: 2,
};

/// Reads the moves of a batch, and writes them again: what was read, or the fault and its
/// offset.
struct Batches;

impl Subject for Batches {
    fn found(&self, alloc: Global, fields: &[&str]) -> Result<String, Fail> {
        let [text] = fields else {
            return Err("a row has octets")?;
        };
        let octets = octets_of(alloc, text)?;
        match FEW.read_moves(alloc, &octets) {
            Ok(moves) => {
                let mut again = Vec::new(alloc);
                FEW.push_moves(&mut again, &moves)?;
                if again.as_slice() != octets.as_slice() {
                    return Err("written otherwise than it was read")?;
                }
                moves_told(alloc, &moves)
            }
            Err(ReadFault::NoMemory) => return Err("no memory")?,
            Err(ReadFault::Malformed(fault)) => {
                printed(alloc, &(fault.cause, fault.offset(octets.len())))
            }
        }
    }
}

#[test]
fn octets_of_each_kind_of_move(rt: HostRuntime) -> Result<(), Fail> {
    check_rows(
        &rt,
        &Batches,
        "
# 1700000000 is 0x6553f100; 192.168.1.16 is c0a80110, port 1024 is 0400
no move | 00 | []
an ask | 01 01 fe6553f100 02 c0a80110 0400 07 aa*16 01 00 02 6e31 | \
[Own { account: 2, event: Event { moment: 1700000000, act: Ask { key: Key { source: Source { \
address: [192, 168, 1, 16], port: 1024 }, id: 7, authenticator: [170, 170, 170, 170, 170, 170, 170, \
170, 170, 170, 170, 170, 170, 170, 170, 170] }, nas: Nas { client: 1, name: Identifier([110, 49]) } } \
} }]
an alive without bundle and class | 01 02 05 00 00 01 04 0a000001 01 73 00 00 | \
[Own { account: 0, event: Event { moment: 5, act: Alive { nas: Nas { client: 0, name: Address([10, 0, \
0, 1]) }, session: [115], bundle: None, class: None } } }]
an alive with both | 01 02 05 00 00 02 01 73 01 02 6d6d 01 fd0100 | \
[Own { account: 0, event: Event { moment: 5, act: Alive { nas: Nas { client: 0, name: Unnamed }, \
session: [115], bundle: Some([109, 109]), class: Some(256) } } }]
a stop | 01 03 fc 01 01 02 01 73 | \
[Own { account: 1, event: Event { moment: 252, act: Stop { nas: Nas { client: 1, name: Unnamed }, \
session: [115] } } }]
a sweep | 01 04 fd00fd 01 00 00 | \
[Sweep { moment: 253, nas: Nas { client: 1, name: Identifier([]) } }]
a tick at the end of time | 01 05 ffffffffffffffffff | [Tick { moment: 18446744073709551615 }]
a stray | 01 06 00 00 02 0f 01 75 00 | \
[Stray { moment: 0, note: Note { nas: Nas { client: 0, name: Unnamed }, status: 15, name: [117], \
session: [] } }]
# the fields of tags 1, 2 and 4, and after them a station or a delay
an ask of a station | 01 07 fe6553f100 02 c0a80110 0400 07 aa*16 01 00 02 6e31 02 6162 | \
[Own { account: 2, event: Event { moment: 1700000000, act: Ask { key: Key { source: Source { \
address: [192, 168, 1, 16], port: 1024 }, id: 7, authenticator: [170, 170, 170, 170, 170, 170, 170, \
170, 170, 170, 170, 170, 170, 170, 170, 170] }, nas: Nas { client: 1, name: Identifier([110, 49]) }, \
station: [97, 98] } } }]
an alive of a station | 01 08 05 00 00 01 04 0a000001 01 73 00 00 01 61 | \
[Own { account: 0, event: Event { moment: 5, act: Alive { nas: Nas { client: 0, name: Address([10, 0, \
0, 1]) }, session: [115], bundle: None, class: None, station: [97] } } }]
one with a bundle and a class too | 01 08 05 00 00 02 01 73 01 02 6d6d 01 fd0100 02 6162 | \
[Own { account: 0, event: Event { moment: 5, act: Alive { nas: Nas { client: 0, name: Unnamed }, \
session: [115], bundle: Some([109, 109]), class: Some(256), station: [97, 98] } } }]
a sweep that was told late | 01 09 fd00fd 01 00 00 05 | \
[Sweep { moment: 253, nas: Nas { client: 1, name: Identifier([]) }, delay: 5 }]
the greatest delay of a packet | 01 09 00 00 02 feffffffff | \
[Sweep { moment: 0, nas: Nas { client: 0, name: Unnamed }, delay: 4294967295 }]
the greatest delay | 01 09 00 00 02 ffffffffffffffffff | \
[Sweep { moment: 0, nas: Nas { client: 0, name: Unnamed }, delay: 18446744073709551615 }]
one of each format | 02 04 01 00 02 09 02 00 02 01 | \
[Sweep { moment: 1, nas: Nas { client: 0, name: Unnamed } }, \
Sweep { moment: 2, nas: Nas { client: 0, name: Unnamed }, delay: 1 }]
two ticks | 02 05 01 05 02 | [Tick { moment: 1 }, Tick { moment: 2 }]
",
    )
}

#[test]
fn octets_that_are_no_moves(rt: HostRuntime) -> Result<(), Fail> {
    check_rows(
        &rt,
        &Batches,
        "
nothing at all | | (CutShort, 0)
a move that is missing | 02 05 01 | (CutShort, 3)
a number that ends early | 01 05 fe6553f1 | (CutShort, 3)
a name that ends early | 01 04 00 00 00 02 6e | (CutShort, 6)
a key that ends early | 01 01 00 00 c0a80110 0400 07 aa*15 | (CutShort, 11)
an unknown kind | 01 0a | (UnknownTag, 1)
no kind | 01 00 00 | (UnknownTag, 1)
an unknown kind of name | 01 04 00 00 03 | (UnknownTag, 4)
a flag that is none | 01 02 05 00 00 02 01 73 02 | (UnknownTag, 8)
an account that is not there | 01 03 00 03 00 02 00 | (NoAccount, 3)
a client that is not there | 01 04 00 02 02 | (NoClient, 3)
a name of 254 octets | 01 04 00 00 00 fe 00*254 | (TooLong, 5)
a status of over 32 bits | 01 06 00 00 02 ff0000000100000000 00 00 | (OutOfRange, 5)
252 in two octets | 01 05 fd00fc | (LongNumber, 2)
65535 in four octets | 01 05 fe0000ffff | (LongNumber, 2)
4294967295 in eight octets | 01 05 ff00000000ffffffff | (LongNumber, 2)
an octet behind the last move | 01 05 01 00 | (Trailing, 3)
# a move has one spelling
a delay of 0 | 01 09 00 00 02 00 | (OutOfRange, 5)
a delay in more octets | 01 09 00 00 02 fd0005 | (LongNumber, 5)
a delay that is missing | 01 09 00 00 02 | (CutShort, 5)
a delay behind a sweep with none | 01 04 00 00 02 05 | (Trailing, 5)
an ask of a station that is missing | 01 07 00 00 c0a80110 0400 07 aa*16 00 02 | (CutShort, 29)
an ask of a station that ends early | 01 07 00 00 c0a80110 0400 07 aa*16 00 02 03 6162 | (CutShort, 30)
a station behind an ask of none | 01 01 00 00 c0a80110 0400 07 aa*16 00 02 01 61 | (Trailing, 29)
an alive of a station that is missing | 01 08 05 00 00 02 01 73 00 00 | (CutShort, 10)
a station of 254 octets | 01 08 05 00 00 02 01 73 00 00 fe 61*254 | (TooLong, 10)
a station behind an alive of none | 01 02 05 00 00 02 01 73 00 00 01 61 | (Trailing, 10)
",
    )
}

/// Whether the next move that is drawn is read as it was written.
fn is_read_back(alloc: Global, draw: &mut Draw) -> Result<bool, Fail> {
    let moves = vec![in alloc; draw.moved(alloc)?]?;
    let mut octets = Vec::new(alloc);
    COUNTS.push_moves(&mut octets, &moves)?;
    let read = COUNTS.read_moves(alloc, &octets)?;
    Ok(read.as_slice() == moves.as_slice())
}

#[test]
fn random_moves_are_read_as_they_were_written(rt: HostRuntime) -> Result<(), Fail> {
    let mut draw = Draw::new(1);
    for number in 0..MOVES {
        let same = is_read_back(rt.alloc(), &mut draw)?;
        assert!(rt; same, "move {number}");
    }
    Ok(())
}

fn unnamed(client: u32) -> Nas {
    Nas {
        client,
        name: NasName::Unnamed,
    }
}

/// An alive with a station of this many octets.
fn stationed(alloc: Global, len: usize) -> Result<Move, Fail> {
    let station = "a".repeat(alloc, len)?;
    let act = Act::Alive {
        nas: unnamed(0),
        session: Octets::from_slice(alloc, b"s")?,
        bundle: None,
        class: None,
        station: Some(Octets::from_slice(alloc, station.as_bytes())?),
    };
    Ok(own(0, act))
}

/// What a move is refused for, and how many octets were written.
fn refused(alloc: Global, moved: Move) -> Result<(Option<SpellFault>, usize), Fail> {
    let mut octets = vec![in alloc; 7]?;
    let fault = FEW.push_move(&mut octets, &moved).err();
    Ok((fault, octets.len()))
}

#[test]
fn moves_that_do_not_fit_are_not_written(rt: HostRuntime) -> Result<(), Fail> {
    let alloc = rt.alloc();
    let long = Octets::from_slice(alloc, &[0x6e; 254])?;
    let unfit = (Some(SpellFault::Unfit), 1);
    for delay in [0, 1] {
        let sweep = Move::Sweep {
            moment: 0,
            nas: unnamed(2),
            delay,
        };
        assert_eq!(rt; refused(alloc, sweep)?, unfit, "a client that is not there");
    }
    let name = NasName::Identifier(long);
    let sweep = Move::Sweep {
        moment: 0,
        nas: Nas { client: 0, name },
        delay: 0,
    };
    assert_eq!(rt; refused(alloc, sweep)?, unfit, "a name of 254 octets");
    let stop = Act::Stop {
        nas: unnamed(0),
        session: Octets::from_slice(alloc, b"s")?,
    };
    assert_eq!(rt;
        refused(alloc, own(3, stop))?,
        unfit,
        "an account that is not there"
    );
    let alive = stationed(alloc, 254)?;
    assert_eq!(rt; refused(alloc, alive)?, unfit, "a station of 254 octets");
    let alive = stationed(alloc, 253)?;
    assert_eq!(rt; refused(alloc, alive)?, (None, 264), "one of 253 octets");
    assert_eq!(rt;
        refused(alloc, own(0, Act::Tick))?,
        unfit,
        "a tick as an account's own"
    );
    assert_eq!(rt;
        refused(alloc, Move::Tick { moment: 1 })?,
        (None, 3),
        "a tick"
    );
    Ok(())
}

fn own(account: u32, act: Act) -> Move {
    Move::Own {
        account,
        event: Event { moment: 0, act },
    }
}
