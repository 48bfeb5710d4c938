//! Tests of `rsl_shard`: the life of one shard, line by line.
//!
//! A row has the head of a script, as in `steps`, the number of the shard, and lines with `/`
//! between them; what is expected is what each tells. `ACCOUNT EVENT` is a move of one account,
//! with an event as in a timeline, `all EVENT` a sweep or a tick, `stray` a stray at 0: it tells
//! the decision, or that the shard does not take it. `journal` tells the lines that there are, and
//! all lines so far; `rows` for each account its places, and then those held, the links that are
//! reserved, live and stale, and the over count; `cut` the segment: its shard, how many lines came
//! before, the places that each book of its opening holds, and its lines; `end` the same of the
//! journal with which the shard ends.

use crate::steps::config_and_steps;
use rsl_accounts::Config;
use rsl_book::Book;
use rsl_event::{Act, Event, Nas, NasName, Note};
use rsl_shard::{Line, Move, Row, Segment, Shard};
use rsl_wire::Octets;
use std::alloc::Global;
use std::test::Fail;
use test_rows::{Subject, check_rows, printed};
use test_timelines::event_in;

/// The lines of a shard: what each tells.
struct Lived;

impl Subject for Lived {
    fn found(&self, alloc: Global, fields: &[&str]) -> Result<String, Fail> {
        let [head, number, lines] = fields else {
            return Err("a head, a shard and lines")?;
        };
        let (config, _) = config_and_steps(alloc, head, "")?;
        life_of(alloc, &config, number.parse()?, lines)
    }
}

fn life_of(alloc: Global, config: &Config, number: u32, lines: &str) -> Result<String, Fail> {
    if config.shards() <= number {
        return Err("there is no such shard")?;
    }
    let mut shard = Shard::new(alloc, config, number)?;
    let mut text = String::new(alloc);
    for line in lines.split('/') {
        if line == "end" {
            let last = shard.into_segment(alloc)?;
            push_part(&mut text, ", ", told_segment(alloc, &last)?.as_str())?;
            return Ok(text);
        }
        push_part(&mut text, ", ", told(alloc, &mut shard, line)?.as_str())?;
    }
    Ok(text)
}

pub(crate) fn push_part(text: &mut String, between: &str, part: &str) -> Result<(), Fail> {
    if !text.is_empty() {
        text.push_str(between)?;
    }
    text.push_str(part)?;
    Ok(())
}

/// What a line tells.
fn told(alloc: Global, shard: &mut Shard, line: &str) -> Result<String, Fail> {
    match line {
        "cut" => told_segment(alloc, &shard.cut(alloc)?),
        "rows" => told_rows(alloc, &shard.rows(alloc)?),
        "journal" => Ok(format!(in alloc; "{} of {}", shard.moves(), shard.total())?),
        line => told_move(alloc, shard, move_of(alloc, line)?),
    }
}

fn told_move(alloc: Global, shard: &mut Shard, moved: Move) -> Result<String, Fail> {
    if !shard.takes(&moved) || shard.total() == u64::MAX {
        return Ok(String::from_str(alloc, "not taken")?);
    }
    printed(alloc, &shard.step(alloc, moved)?)
}

fn told_rows(alloc: Global, rows: &[Row]) -> Result<String, Fail> {
    let mut text = String::new(alloc);
    for row in rows {
        push_part(&mut text, "; ", told_row(alloc, row)?.as_str())?;
    }
    Ok(text)
}

fn told_row(alloc: Global, row: &Row) -> Result<String, Fail> {
    Ok(format!(in alloc;
        "{}: {} {} {} {} {} {}",
        row.account, row.places, row.held, row.reserved, row.live, row.stale, row.over
    )?)
}

fn told_segment(alloc: Global, segment: &Segment) -> Result<String, Fail> {
    let mut text = format!(in alloc; "shard {} from {}:", segment.shard, segment.first)?;
    for book in &segment.opening {
        write!(text, " {}", Book::held(book))?;
    }
    for line in &segment.lines {
        push_part(&mut text, "; ", told_line(alloc, line)?.as_str())?;
    }
    Ok(text)
}

fn told_line(alloc: Global, line: &Line) -> Result<String, Fail> {
    match &line.moved {
        Move::Own { account, event } => {
            Ok(format!(in alloc; "{account} at {} {:?}", event.moment, line.decision)?)
        }
        Move::Sweep { moment, .. } => Ok(format!(in alloc; "sweep {moment} {:?}", line.decision)?),
        Move::Tick { moment } => Ok(format!(in alloc; "tick {moment} {:?}", line.decision)?),
        Move::Stray { moment, .. } => Ok(format!(in alloc; "stray {moment} {:?}", line.decision)?),
    }
}

/// The move of a line.
pub(crate) fn move_of(alloc: Global, line: &str) -> Result<Move, Fail> {
    let Some((who, event)) = line.split_once(' ') else {
        return stray(alloc);
    };
    let event = event_in(alloc, event)?;
    if who != "all" {
        return Ok(Move::Own {
            account: who.parse()?,
            event,
        });
    }
    let Event { moment, act } = event;
    match act {
        Act::Sweep { nas, delay } => Ok(Move::Sweep { moment, nas, delay }),
        Act::Tick => Ok(Move::Tick { moment }),
        _ => Err("no move of all accounts")?,
    }
}

fn stray(alloc: Global) -> Result<Move, Fail> {
    let nas = Nas {
        client: 0,
        name: NasName::Unnamed,
    };
    let note = Note {
        nas,
        status: 1,
        name: Octets::from_slice(alloc, b"ghost")?,
        session: Octets::from_slice(alloc, b"s1")?,
    };
    Ok(Move::Stray { moment: 0, note })
}

#[test]
fn a_shard_lives_by_its_lines(rt: HostRuntime) -> Result<(), Fail> {
    check_rows(
        &rt,
        &Lived,
        "
a line of each kind | client C xyzzy5461/account a pw 1/account b pw 2/ | 0 \
    | 0 ask 0 n 1/0 ask 1 n 1/0 ask 20 n 1/1 alive 21 n s/1 stop 22 n s/all sweep 23 n/\
    all tick 24/stray/journal/cut \
    | Accept(0), Accept(0), LimitReject, Done, Done, Done, Done, Done, 8 of 8, \
    shard 0 from 0: 0 0; 0 at 0 Accept(0); 0 at 1 Accept(0); 0 at 20 LimitReject; 1 at 21 Done; \
    1 at 22 Done; sweep 23 Done; tick 24 Done; stray 0 Done
a late sweep, and a station | client C xyzzy5461/account a pw 1/ | 0 \
    | 0 ask 0 n 1/all sweep 4 n delay=5/0 ask 4 n 2/all sweep 5 n delay=5/0 ask 5 n 3 station=d/\
    0 ask 6 n 4 station=d/journal/cut \
    | Accept(0), Done, LimitReject, Done, Accept(1), Accept(2), 6 of 6, \
    shard 0 from 0: 0; 0 at 0 Accept(0); sweep 4 Done; 0 at 4 LimitReject; sweep 5 Done; \
    0 at 5 Accept(1); 0 at 6 Accept(2)
what a shard takes | set shards 2/client C xyzzy5461/account a pw 1/account b pw 1/account c pw 1/ \
    | 1 | 0 ask 0 n 1/1 ask 0 n 1/2 stop 0 n s/3 ask 0 n 1/1 tick 0/1 sweep 0 n/1 alive 0 n s/\
    1 stop 0 n s/journal \
    | not taken, Accept(0), not taken, not taken, not taken, not taken, Done, Done, 3 of 3
an own move leaves the other books | client C xyzzy5461/account a pw 2/account b pw 2/ | 0 \
    | 1 ask 0 n 1/rows/0 alive 1 n s/rows \
    | Accept(0), 0: 2 0 0 0 0 0; 1: 2 1 1 0 0 0, Done, 0: 2 1 0 1 0 0; 1: 2 1 1 0 0 0
a sweep and a tick step each book | client C xyzzy5461/account a pw 1/account b pw 1/ | 0 \
    | 0 ask 0 n 1/1 ask 0 n 2/all sweep 1 n/rows/0 ask 2 n 3/1 ask 2 n 4/all tick 62/rows \
    | Accept(0), Accept(0), Done, 0: 1 0 0 0 0 0; 1: 1 0 0 0 0 0, Accept(1), Accept(1), Done, \
    0: 1 0 0 0 0 0; 1: 1 0 0 0 0 0
the books go on after a cut, and a second cut is empty | client C xyzzy5461/account a pw 1/ | 0 \
    | 0 ask 0 n 1/cut/journal/0 ask 1 n 1/0 ask 1 n 2/journal/cut/cut/journal/rows \
    | Accept(0), shard 0 from 0: 0; 0 at 0 Accept(0), 0 of 1, Accept(0), LimitReject, 2 of 3, \
    shard 0 from 1: 1; 0 at 1 Accept(0); 0 at 1 LimitReject, shard 0 from 3: 1, 0 of 3, \
    0: 1 1 1 0 0 0
a shard ends with its journal | client C xyzzy5461/account a pw 1/account b pw 1/ | 0 \
    | 0 ask 0 n 1/1 ask 1 n 1/end \
    | Accept(0), Accept(0), shard 0 from 0: 0 0; 0 at 0 Accept(0); 1 at 1 Accept(0)
and with what came after a cut | client C xyzzy5461/account a pw 2/ | 0 \
    | 0 ask 0 n 1/cut/0 ask 1 n 2/end \
    | Accept(0), shard 0 from 0: 0; 0 at 0 Accept(0), Accept(1), \
    shard 0 from 1: 1; 0 at 1 Accept(1)
rows of a shard alone | set shards 2/client C xyzzy5461/account a pw 2/account b pw 1/\
    account c pw 1/ | 0 \
    | 0 alive 0 n s/0 ask 1 n 1/2 ask 0 n 1/all tick 59/rows/all tick 900/rows/2 alive 901 n x/\
    2 alive 901 n y/rows \
    | Done, Accept(0), Accept(0), Done, 0: 2 2 1 1 0 0; 2: 1 1 1 0 0 0, Done, \
    0: 2 1 0 0 1 0; 2: 1 0 0 0 0 0, Done, Done, 0: 2 1 0 0 1 0; 2: 1 1 0 1 0 1
",
    )
}
