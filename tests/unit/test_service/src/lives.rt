//! The life of a service, line by line.
//!
//! A row has a name, the number of shards and the places of each of the accounts `a` to `d`, lines
//! with `/` between them, and how the service is closed. `open COUNT` opens passes, the first of
//! which is 0, and tells how many, and why there are no more. `PASS ask MOMENT NAME ID [STATION]`
//! applies an Access-Request, `PASS on MOMENT [DELAY]` a restart of the access server, `PASS stray
//! MOMENT` a Start of nobody's: it tells the word of the answer. `PASS expire MOMENT` tells its answer, `report` the
//! accounts that hold places, with these, `cut SHARD` how many lines came before the segment and how
//! many it has. The service is closed with `everything`, or with `one pass` alone, without the
//! segments that were `cut`, with the first of these alone (`first cut`), or with its first decision
//! `changed`: that tells the fault, or of each segment its shard, how many lines came before and how
//! many it has, and then the audit of each shard.

use crate::packets::{SOURCE, ask_of, config_of, on, stray};
use rsl_accounts::Config;
use rsl_event::{Decision, Port};
use rsl_record::{CloseFault, audit};
use rsl_service::{Blanks, Open, Pass, Service, Tally};
use rsl_shard::Segment;
use std::alloc::Global;
use std::marker::Brand;
use std::sync::Wait;
use std::test::Fail;
use test_rows::{Subject, check_rows, number, octet, printed, short_number};

/// The lives of rows.
#[derive(Clone, Copy)]
struct Lives<'a, R> {
    rt: &'a R,
}

impl<R: Wait> Subject for Lives<'_, R> {
    fn found(&self, alloc: Global, fields: &[&str]) -> Result<String, Fail> {
        let [shards, places, lines, ending] = fields else {
            return Err("shards, places, lines and an ending")?;
        };
        let config = config_of(alloc, shards, places)?;
        let again = config_of(alloc, shards, places)?;
        let life = Life {
            config,
            lines,
            ending,
        };
        life_of(self.rt, alloc, again, &life)
    }
}

/// What a row says of a life.
#[derive(Drop)]
struct Life<'a> {
    config: Config,
    lines: &'a str,
    ending: &'a str,
}

/// What a life tells, over ledgers of its own.
fn life_of<R: Wait>(
    rt: &R,
    alloc: Global,
    config: Config,
    life: &Life<'_>,
) -> Result<String, Fail> {
    lived::<Brand, Brand, Brand, Brand, R>(rt, alloc, Blanks::new(), config, life)
}

/// What the lines of a life tell, and its ending.
fn lived<L0: Tally, L1: Tally, L2: Tally, L3: Tally, R: Wait>(
    rt: &R,
    alloc: Global,
    blanks: Blanks,
    config: Config,
    life: &Life<'_>,
) -> Result<String, Fail> {
    let service: Service<L0, L1, L2, L3, Open> = Service::new(alloc, blanks, config, 1, Open)?;
    let mut served = Served {
        service,
        passes: Vec::new(alloc),
        given: Vec::new(alloc),
    };
    let mut text = served.told_lines(rt, alloc, life.lines)?;
    text.push_str(served.closed(alloc, life)?.as_str())?;
    Ok(text)
}

/// A service with its passes, and the segments that were cut.
#[derive(Drop)]
struct Served<L0: Tally, L1: Tally, L2: Tally, L3: Tally> {
    service: Service<L0, L1, L2, L3, Open>,
    passes: Vec<Pass<L0, L1, L2, L3>>,
    given: Vec<Segment>,
}

impl<L0: Tally, L1: Tally, L2: Tally, L3: Tally> Served<L0, L1, L2, L3> {
    /// Opens `many` passes, unless that fails: how many were opened, and the fault if there is one.
    fn told_open<R: Wait>(&mut self, rt: &R, alloc: Global, many: u64) -> Result<String, Fail> {
        for opened in 0..many {
            match self.service.open_pass(rt, alloc) {
                Ok(pass) => self.passes.push(pass)?,
                Err(fault) => return printed(alloc, &(opened, fault)),
            }
        }
        printed(alloc, &many)
    }

    /// What lines tell.
    fn told_lines<R: Wait>(&mut self, rt: &R, alloc: Global, lines: &str) -> Result<String, Fail> {
        let mut text = String::new(alloc);
        for line in lines.split('/') {
            text.push_str(self.told(rt, alloc, line)?.as_str())?;
            text.push_str(", ")?;
        }
        Ok(text)
    }

    /// What a line tells.
    fn told<R: Wait>(&mut self, rt: &R, alloc: Global, line: &str) -> Result<String, Fail> {
        match line.split_once(' ') {
            None => self.told_report(rt, alloc),
            Some(("open", many)) => self.told_open(rt, alloc, number(many)?),
            Some(("cut", shard)) => self.told_cut(rt, alloc, short_number(shard)?),
            Some((pass, call)) => self.told_call(rt, alloc, number(pass)? as usize, call),
        }
    }

    /// The accounts that hold places, with these.
    fn told_report<R: Wait>(&self, rt: &R, alloc: Global) -> Result<String, Fail> {
        let rows = self.service.report(rt, alloc)?;
        let mut text = String::from_str(alloc, "held")?;
        for row in &rows {
            if row.held > 0 {
                text.push_str(printed(alloc, &(row.account, row.held))?.as_str())?;
            }
        }
        Ok(text)
    }

    /// What a cut hands out.
    fn told_cut<R: Wait>(&mut self, rt: &R, alloc: Global, shard: u32) -> Result<String, Fail> {
        match self.service.cut(rt, alloc, shard) {
            Ok(segment) => {
                let told = printed(alloc, &(segment.first, segment.lines.len()))?;
                self.given.push(segment)?;
                Ok(told)
            }
            Err(fault) => printed(alloc, &fault),
        }
    }

    /// What a call of a pass answers.
    fn told_call<R: Wait>(
        &mut self,
        rt: &R,
        alloc: Global,
        pass: usize,
        call: &str,
    ) -> Result<String, Fail> {
        let Some(pass) = self.passes.get_mut(pass) else {
            return Err("no such pass")?;
        };
        if let Some(("expire", moment)) = call.split_once(' ') {
            return printed(
                alloc,
                &self.service.expire(rt, alloc, pass, number(moment)?),
            );
        }
        let (port, moment, octets) = datagram_of(alloc, call)?;
        applied(rt, alloc, &self.service, pass, port, moment, &octets)
    }

    /// What the closing answers, and each shard's audit.
    fn closed(self, alloc: Global, life: &Life<'_>) -> Result<String, Fail> {
        let Served {
            service,
            mut passes,
            mut given,
        } = self;
        match life.ending {
            "everything" => (),
            "one pass" => passes.truncate(1),
            "cut" => given.clear(),
            "first cut" => given.truncate(1),
            "changed" => change(&mut given),
            _ => return Err("an unknown ending")?,
        }
        match service.close(alloc, passes, given) {
            Ok(closed) => told_segments(alloc, &life.config, closed.segments()),
            Err(fault) => printed::<CloseFault>(alloc, &fault),
        }
    }
}

/// Changes the first decision of the first segment.
fn change(given: &mut [Segment]) {
    if let Some(segment) = given.first_mut() {
        if let Some(line) = segment.lines.first_mut() {
            line.decision = Decision::LimitReject;
        }
    }
}

/// The port, the moment and the octets of a call.
fn datagram_of(alloc: Global, call: &str) -> Result<(Port, u64, Vec<u8>), Fail> {
    let words: Vec<&str> = call.split(' ').collect(alloc)?;
    match words.as_slice() {
        ["ask", moment, name, id] => ask_at(alloc, moment, name, id, None),
        ["ask", moment, name, id, station] => ask_at(alloc, moment, name, id, Some(station)),
        ["on", moment] => Ok((Port::Acct, number(moment)?, on(alloc, None)?)),
        ["on", moment, delay] => Ok((
            Port::Acct,
            number(moment)?,
            on(alloc, Some(short_number(delay)?))?,
        )),
        ["stray", moment] => Ok((Port::Acct, number(moment)?, stray(alloc)?)),
        _ => Err("an unknown call")?,
    }
}

/// The port, the moment and the octets of an Access-Request.
fn ask_at(
    alloc: Global,
    moment: &str,
    name: &str,
    id: &str,
    station: Option<&str>,
) -> Result<(Port, u64, Vec<u8>), Fail> {
    let octets = ask_of(alloc, name, octet(id)?, &[0; 16], station)?;
    Ok((Port::Auth, number(moment)?, octets))
}

/// The word of the answer to a datagram.
fn applied<L0: Tally, L1: Tally, L2: Tally, L3: Tally, R: Wait>(
    rt: &R,
    alloc: Global,
    service: &Service<L0, L1, L2, L3, Open>,
    pass: &mut Pass<L0, L1, L2, L3>,
    port: Port,
    moment: u64,
    octets: &[u8],
) -> Result<String, Fail> {
    match service.prepare(alloc, port, SOURCE, octets) {
        Ok(prepared) => match service.apply(rt, alloc, pass, moment, prepared) {
            Ok(answered) => printed(alloc, &answered.said),
            Err(fault) => printed(alloc, &fault),
        },
        Err(dropped) => printed(alloc, &dropped),
    }
}

/// Of each segment its shard, how many lines came before and how many it has; and each shard's audit.
fn told_segments(alloc: Global, config: &Config, segments: &[Segment]) -> Result<String, Fail> {
    let mut text = String::new(alloc);
    for segment in segments {
        let told = printed(alloc, &(segment.shard, segment.first, segment.lines.len()))?;
        text.push_str(told.as_str())?;
    }
    text.push_str(told_audits(alloc, config, segments)?.as_str())?;
    Ok(text)
}

/// What the audit of each shard answers, where segments stand by shard.
pub(crate) fn told_audits(
    alloc: Global,
    config: &Config,
    segments: &[Segment],
) -> Result<String, Fail> {
    let mut text = String::new(alloc);
    let mut rest = segments;
    for shard in 0..config.shards() {
        let (mine, others) = rest.split_at(count_of(rest, shard));
        text.push_str(printed(alloc, &audit(alloc, config, mine))?.as_str())?;
        rest = others;
    }
    Ok(text)
}

/// How many segments at the front are of a shard.
fn count_of(segments: &[Segment], shard: u32) -> usize {
    for place in 0..segments.len() {
        if segments[place].shard != shard {
            return place;
        }
    }
    segments.len()
}

#[test]
fn services_live_by_their_lines(rt: HostRuntime) -> Result<(), Fail> {
    check_rows(
        &rt,
        &Lives { rt: &rt },
        "
two passes, an expiry and a restart | 2 | 1 \
    | open 2/0 ask 0 a 1/1 ask 0 b 1/report/0 expire 0/1 on 0/report | everything \
    | 2, Accept(0), Accept(0), held(0, 1)(1, 1), Ok(()), Account, held, \
    (0, 0, 3)(1, 0, 3)Ok(())Ok(())
without the second pass | 2 | 1 | open 2/0 ask 0 a 1/1 ask 0 b 1 | one pass \
    | 2, Accept(0), Accept(0), MissingPass
passes past the last | 2 | 1 | open 1025/1023 ask 0 b 1 | everything \
    | (1024, TooMany), Accept(0), (0, 0, 0)(1, 0, 1)Ok(())Ok(())
a cut | 1 | 2 | open 1/0 ask 0 a 1/0 ask 0 b 1/cut 0/cut 1/0 ask 0 a 2/0 ask 0 b 2 | everything \
    | 1, Accept(0), Accept(0), (0, 2), NoShard, Accept(1), Accept(1), (0, 0, 2)(0, 2, 2)Ok(())
a second cut directly after the first | 1 | 2 \
    | open 1/0 ask 0 a 1/0 ask 0 b 1/cut 0/cut 0/0 ask 0 a 2/0 ask 0 b 2 | everything \
    | 1, Accept(0), Accept(0), (0, 2), (2, 0), Accept(1), Accept(1), \
    (0, 0, 2)(0, 2, 0)(0, 2, 2)Ok(())
the first of two cuts alone, where the second has no lines | 1 | 2 \
    | open 1/0 ask 0 a 1/0 ask 0 b 1/cut 0/cut 0/0 ask 0 a 2/0 ask 0 b 2 | first cut \
    | 1, Accept(0), Accept(0), (0, 2), (2, 0), Accept(1), Accept(1), (0, 0, 2)(0, 2, 2)Ok(())
without what was cut | 1 | 2 | open 1/0 ask 0 a 1/0 ask 0 b 1/cut 0/0 ask 0 a 2 | cut \
    | 1, Accept(0), Accept(0), (0, 2), Accept(1), MissingSegment { shard: 0 }
a decision of what was cut is changed | 1 | 2 \
    | open 1/0 ask 0 a 1/0 ask 0 b 1/cut 0/0 ask 0 a 2 | changed \
    | 1, Accept(0), Accept(0), (0, 2), Accept(1), Mismatch { shard: 0, position: 0 }
cuts of three shards | 3 | 1 \
    | open 3/2 ask 0 b 1/1 stray 1/cut 1/0 expire 60/cut 0/2 ask 60 b 2/report | everything \
    | 3, Accept(0), Account, (0, 1), Ok(()), (0, 2), Accept(1), held(1, 1), \
    (0, 0, 2)(0, 2, 0)(1, 0, 1)(1, 1, 2)(2, 0, 1)Ok(())Ok(())Ok(())
a device that dials again, and a repeat | 1 | 1 \
    | open 2/0 ask 0 a 1 d/1 ask 1 a 2 d/0 ask 2 a 3 e/1 ask 3 a 1 d/report | everything \
    | 2, Accept(0), Accept(1), LimitReject, Accept(0), held(0, 1), (0, 0, 4)Ok(())
restarts that are told late | 2 | 1 \
    | open 2/0 ask 0 a 1/1 ask 5 b 1/1 on 8 5/report/0 ask 8 a 2/0 ask 8 b 2/0 on 10 5/report \
    | everything \
    | 2, Accept(0), Accept(0), Account, held(1, 1), Accept(1), LimitReject, Account, held(0, 1), \
    (0, 0, 4)(1, 0, 4)Ok(())Ok(())
a limit, and a repeat | 1 | 1 | open 3/0 ask 0 a 1/1 ask 9 a 1/2 ask 10 a 2/report | everything \
    | 3, Accept(0), Accept(0), LimitReject, held(0, 1), (0, 0, 3)Ok(())
",
    )
}
