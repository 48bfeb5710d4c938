//! Tests of `rsl_replay`: the packets that lines stand for, and what a replay does with readers and
//! writers that fail. What a script prints is shown by `test_scripts`.
//!
//! A script stands in a row with `/` between its lines, and so does what it prints.

use rsl_accounts::{Config, ConfigFault, Field};
use rsl_event::Port;
use rsl_replay::{ReplayFault, lines_of, replay, steps_of};
use rsl_script::{EventLine, Script};
use rsl_steps::{Answer, Step, run};
use std::alloc::Global;
use std::io::{ErrorKind, Read, Write};
use std::test::Fail;
use std::{io, str};
use test_rows::{Subject, check_rows, push_printed};

/// A client that need not sign, one that must, and an account.
const HEAD: &str =
    "client 192.168.1.16 xyzzy5461\nclient 192.168.1.17 xyzzy5461 signed\naccount u pw 1\n";

/// The script that a row writes.
pub(crate) fn script_of(alloc: Global, row: &str) -> Result<Script, Fail> {
    let script = row.replace(alloc, "/", "\n")?;
    Ok(Script::read(alloc, script.as_bytes())?)
}

/// Its configuration, and its event lines.
fn config_of(alloc: Global, script: Script) -> Result<(Config, Vec<EventLine>), Fail> {
    let config = Config::make(alloc, script.settings, script.clients, script.accounts)?;
    Ok((config, script.events))
}

/// The answers to the steps of event lines.
fn answers_to(alloc: Global, config: &Config, lines: &[EventLine]) -> Result<Vec<Answer>, Fail> {
    let steps = steps_of(alloc, config, 1, lines)?;
    Ok(run(alloc, config, 1, &steps)?.answers)
}

/// An event line: the last step that it stands for, for a datagram its moment, port, source and
/// octets.
struct Datagrams;

impl Subject for Datagrams {
    fn found(&self, alloc: Global, fields: &[&str]) -> Result<String, Fail> {
        let [line] = fields else {
            return Err("an event line")?;
        };
        datagram(alloc, line)
    }
}

/// The last step of an event line in words.
fn datagram(alloc: Global, line: &str) -> Result<String, Fail> {
    let text = format!(in alloc; "{HEAD}{line}")?;
    let (config, lines) = config_of(alloc, Script::read(alloc, text.as_bytes())?)?;
    let steps = steps_of(alloc, &config, 1, &lines)?;
    match steps.last() {
        Some(step) => told_step(alloc, step),
        None => Err("no step")?,
    }
}

fn told_step(alloc: Global, step: &Step) -> Result<String, Fail> {
    match step {
        Step::Datagram {
            moment,
            port,
            source,
            octets,
        } => {
            let mut text = format!(in alloc; "{moment} {} ", port_name(*port))?;
            let [a, b, c, d] = source.address;
            write!(text, "{a}.{b}.{c}.{d}:{} ", source.port)?;
            push_hex(&mut text, alloc, octets.as_slice())?;
            Ok(text)
        }
        Step::Sweep { .. } | Step::Tick { .. } => Err("a step without a datagram")?,
    }
}

pub(crate) fn port_name(port: Port) -> &'static str {
    match port {
        Port::Auth => "Auth",
        Port::Acct => "Acct",
    }
}

fn push_hex(text: &mut String, alloc: Global, octets: &[u8]) -> Result<(), Fail> {
    let digits = hex::encode(alloc, octets)?;
    text.push_str(digits.as_str())?;
    Ok(())
}

// The octets were computed with Python's hashlib and hmac from the formulas of RFC 2865 sections 3,
// 5.2 and 5.3, RFC 2866 section 3 and RFC 3579 section 3.2.
#[test]
fn lines_stand_for_datagrams(rt: HostRuntime) -> Result<(), Fail> {
    check_rows(
        &rt,
        &Datagrams,
        "
an ask | ask 0 192.168.1.16 n u pw 1 | 0 Auth 192.168.1.16:1024 \
    0101002ca3c9c9ea0eb0dc7560a417f2096e59c40103750212d9b8181161e64ecd6f44519b3fc1e35c20036e
no NAS, 17 octets | ask 0 192.168.1.16 - u aaaaaaaaaaaaaaaab 007 | 0 Auth 192.168.1.16:1024 \
    010700396c3ec0319498887acee3bb192461754d01037502221b585c250e27b2945d9346f779086c\
    54977304d7631a104762367447b7e4661c
a CHAP ask | chap 5 192.168.1.16 n u pw 255 | 5 Auth 192.168.1.16:1024 \
    01ff002dfb81413bb8867b9868e0882cf367623c0103750313ff467dbf8d60ed7a10a6aa3199788867fc20036e
# An address that is no client's has the secret `none`.
no client's | ask 0 10.0.0.9 n u pw 1 | 0 Auth 10.0.0.9:1024 \
    0101002c753050e10dbd27abb7480b078911c42201037502126a701b52e8baa5134516b720ed91ba6a20036e
# A client whose requests must be signed: a Message-Authenticator comes first.
signed | ask 0 192.168.1.17 n u pw 1 | 0 Auth 192.168.1.17:1024 \
    0101003ef50ad49f6792c3d1702f123566266ef250125dabfe2fc366eda0ae75bd81b50bb9d2\
    0103750212794c92dc634f79b2dc279e24207f719520036e
a signed CHAP ask | chap 0 192.168.1.17 - u pw 9 | 0 Auth 192.168.1.17:1024 \
    0109003c41056cce8ae068ea9498e43858c8a6f45012085a7d0f68cd4e09299cb5e121beecbb\
    010375031309a6423c73b50bf0c91462743da888def9
a start | start 0 192.168.1.16 n u s1 multi=m class=3 | 0 Acct 192.168.1.16:1024 \
    04000039d86897cd8ffc42cdd8553f3104c74b1828060000000120036e0103752c04733132036d\
    191200000000000000010000000000000003
an interim | interim 0 192.168.1.16 - u s1 | 0 Acct 192.168.1.16:1024 \
    040000218c691069014eb20b677f4d781f7017be2806000000030103752c047331
a stop | stop 0 192.168.1.16 n u s1 | 0 Acct 192.168.1.16:1024 \
    0400002469ed8530102e4a4d89c13049c8a7e72828060000000220036e0103752c047331
an on | on 12 192.168.1.16 n | 12 Acct 192.168.1.16:1024 \
    0400001d52e8592f94d3ebe088794fd4f6c2a0c028060000000720036e
an off | off 0 192.168.1.16 - | 0 Acct 192.168.1.16:1024 \
    0400001acaaf8a99a4a6738d98e8426d8f81c0ec280600000008
no client's stop | stop 0 10.0.0.9 n u s1 | 0 Acct 10.0.0.9:1024 \
    0400002436371b065764ab55ec950ecae1aecfca28060000000220036e0103752c047331
an ask of a station | ask 0 192.168.1.16 n u pw 1 station=a | 0 Auth 192.168.1.16:1024 \
    0101002ff3c1bbf0d718c30da942d0174d8ca1b30103750212ec0149b0cd2dc68e1b4cd1364f6930ba20036e1f\
    0361
a signed ask of a station | ask 0 192.168.1.17 - u pw 1 station=00-10-A4-23-19-C0 | 0 Auth 192.168.1.17:1024 \
    0101004ea53c58ab3b165b41b5fa6e63ded1f6c55012157eae2b00472457137b62cd2b5f4aff01037502126866\
    e9e151cc0bf3047a846bb13a8f601f1330302d31302d41342d32332d31392d4330
a CHAP ask of a station | chap 5 192.168.1.16 n u pw 255 station=a | 5 Auth 192.168.1.16:1024 \
    01ff00303ef6472de0257651a54d1d174932140c0103750313ff4b300fa5f02c4e605ee5a025766c518820036e\
    1f0361
a start of a station | start 0 192.168.1.16 n u s1 multi=m class=3 station=a | 0 Acct 192.168.1.16:1024 \
    0400003c1bb376f4c29199f6176493642a5f8f5f28060000000120036e0103752c04733132036d191200000000\
    0000000100000000000000031f0361
an interim of a station | interim 0 192.168.1.16 - u s1 station=a | 0 Acct 192.168.1.16:1024 \
    04000024d7fcf1ac7dffc07f98d48935d231ef432806000000030103752c0473311f0361
a stop of a station | stop 0 192.168.1.16 n u s1 station=a | 0 Acct 192.168.1.16:1024 \
    0400002733a4f9cab09d7e044bab956cbc89b5f628060000000220036e0103752c0473311f0361
an on that is late | on 12 192.168.1.16 n delay=300 | 12 Acct 192.168.1.16:1024 \
    04000023b1bb80af80d8e4f38da8d23dd527bf5828060000000720036e29060000012c
an off that is not | off 12 192.168.1.16 - delay=0 | 12 Acct 192.168.1.16:1024 \
    04000020f4c381fd2a12beff7d1f084654a75fd1280600000008290600000000
raw octets | raw-auth 9 1.2.3.4 00fFAb10 | 9 Auth 1.2.3.4:1024 00ffab10
raw octets for accounting | raw-acct 10 1.2.3.4 00 | 10 Acct 1.2.3.4:1024 00
",
    )
}

/// An event line over two shards: the sweeps that it stands for, each with its shard, moment and delay.
struct Sweeps;

impl Subject for Sweeps {
    fn found(&self, alloc: Global, fields: &[&str]) -> Result<String, Fail> {
        let [line] = fields else {
            return Err("an event line")?;
        };
        let text = format!(in alloc; "set shards 2\n{HEAD}{line}")?;
        let (config, lines) = config_of(alloc, Script::read(alloc, text.as_bytes())?)?;
        sweeps_in(alloc, &steps_of(alloc, &config, 1, &lines)?)
    }
}

fn sweeps_in(alloc: Global, steps: &[Step]) -> Result<String, Fail> {
    let mut text = String::new(alloc);
    for step in steps {
        if let Step::Sweep {
            shard,
            moment,
            delay,
            ..
        } = step
        {
            push_printed(&mut text, &(*shard, *moment, *delay))?;
        }
    }
    Ok(text)
}

#[test]
fn restarts_stand_for_sweeps_of_each_shard(rt: HostRuntime) -> Result<(), Fail> {
    check_rows(
        &rt,
        &Sweeps,
        "
an on | on 12 192.168.1.16 n | (0, 12, 0) (1, 12, 0)
an off that is late | off 12 192.168.1.16 n delay=300 | (0, 12, 300) (1, 12, 300)
the greatest delay | on 5 192.168.1.16 - delay=4294967295 | (0, 5, 4294967295) (1, 5, 4294967295)
a delay of 0 | on 5 192.168.1.16 - delay=0 | (0, 5, 0) (1, 5, 0)
one of an address that is no client's | on 5 10.0.0.9 n delay=3 |
a stop | stop 5 192.168.1.16 n u s |
",
    )
}

/// Two event lines: whether they stand for the same datagram.
struct Pairs;

impl Subject for Pairs {
    fn found(&self, alloc: Global, fields: &[&str]) -> Result<String, Fail> {
        let [one, other] = fields else {
            return Err("two event lines")?;
        };
        let is_same = datagram(alloc, one)? == datagram(alloc, other)?;
        Ok(format!(in alloc; "{is_same}")?)
    }
}

// The Request Authenticator is over the text of the line without its moment.
#[test]
fn lines_that_differ_in_the_moment_alone_are_one_packet(rt: HostRuntime) -> Result<(), Fail> {
    check_rows(
        &rt,
        &Pairs,
        "
the moment | ask 0 192.168.1.16 n u pw 7 | ask 00 192.168.1.16 n u pw 7 | true
an Identifier's text | ask 0 192.168.1.16 n u pw 7 | ask 0 192.168.1.16 n u pw 07 | false
an Identifier | ask 0 192.168.1.16 n u pw 7 | ask 0 192.168.1.16 n u pw 8 | false
the moment, of a station | ask 0 192.168.1.16 n u pw 7 station=a | ask 00 192.168.1.16 n u pw 7 station=a \
    | true
a station | ask 0 192.168.1.16 n u pw 7 station=a | ask 0 192.168.1.16 n u pw 7 station=b | false
a station or none | ask 0 192.168.1.16 n u pw 7 station=a | ask 0 192.168.1.16 n u pw 7 | false
the method | ask 0 192.168.1.16 n u pw 7 | chap 0 192.168.1.16 n u pw 7 | false
",
    )
}

/// A script: the octets of its replies.
struct Replies;

impl Subject for Replies {
    fn found(&self, alloc: Global, fields: &[&str]) -> Result<String, Fail> {
        let [script] = fields else {
            return Err("a script")?;
        };
        let (config, lines) = config_of(alloc, script_of(alloc, script)?)?;
        let answers = answers_to(alloc, &config, &lines)?;
        replies_in(alloc, &answers)
    }
}

/// The octets of the replies among answers.
pub(crate) fn replies_in(alloc: Global, answers: &[Answer]) -> Result<String, Fail> {
    let mut text = String::new(alloc);
    for answer in answers {
        if let Answer::Reply(_, octets) = answer {
            push_hex(&mut text, alloc, octets.as_slice())?;
        }
    }
    Ok(text)
}

// The authenticators were computed with Python's hashlib and hmac, by the formulas of RFC 2865
// section 3 and RFC 3579 section 3.2.
#[test]
fn replies_have_their_octets(rt: HostRuntime) -> Result<(), Fail> {
    check_rows(
        &rt,
        &Replies,
        "
an accept | client 192.168.1.16 xyzzy5461/account nemo arctangent 1/raw-auth 0 192.168.1.16 \
    010000380f403f9473978057bd83d5cb98f4227a01066e656d6f02120dbe708d93d413ce3196e43f782a0aee\
    0406c0a80110050600000003 \
    | 0200002c7fa85d1b244f70f55c748cf7f4494287191200000000000000010000000000000000\
    3e0600000001
a limit reject | client 192.168.1.16 xyzzy5461/account nemo arctangent 0/raw-auth 0 192.168.1.16 \
    010000380f403f9473978057bd83d5cb98f4227a01066e656d6f02120dbe708d93d413ce3196e43f782a0aee\
    0406c0a80110050600000003 \
    | 0300002b7fd581ea748d151b6509911236d3d392121753657373696f6e206c696d69742072656163686564
a malformed list | client 192.168.1.16 xyzzy5461/account nemo arctangent 1/\
    raw-auth 0 192.168.1.16 01070016000000000000000000000000000000000101 \
    | 03070014f7736c975c3d2175bb9feeadefc4ca84
a signed accept | client 192.168.1.16 xyzzy5461 signed/account nemo arctangent 1/\
    ask 0 192.168.1.16 n nemo arctangent 1 \
    | 0201003e34e6d56c66c483e61eafa342b169fcde5012f5f80615a32e6913355b8dad7c3a08ad\
    1912000000000000000100000000000000003e0600000001
a signed limit reject | client 192.168.1.16 xyzzy5461 signed/account nemo arctangent 0/\
    ask 0 192.168.1.16 n nemo arctangent 1 \
    | 0301003dc29ac08afd9869af23c874c23eef62c65012925bdb3880f3d33b82c8cede738572e9\
    121753657373696f6e206c696d69742072656163686564
a signed reject | client 192.168.1.16 xyzzy5461 signed/account nemo arctangent 1/\
    ask 0 192.168.1.16 n nemo arctangen 1 \
    | 03010026b298f8720d9cd034165e84e3384b08a950128dd9fda77f276185b5d40a700f4f13e9
",
    )
}

/// A script, and a number: what is printed where the answer to the step of that number is
/// `Refused`.
struct Refusals;

impl Subject for Refusals {
    fn found(&self, alloc: Global, fields: &[&str]) -> Result<String, Fail> {
        let [script, refused] = fields else {
            return Err("a script and a number")?;
        };
        let (config, lines) = config_of(alloc, script_of(alloc, script)?)?;
        printed_but(alloc, &config, &lines, refused.parse()?)
    }
}

fn printed_but(
    alloc: Global,
    config: &Config,
    lines: &[EventLine],
    refused: usize,
) -> Result<String, Fail> {
    let steps = steps_of(alloc, config, 1, lines)?;
    let mut answers = run(alloc, config, 1, &steps)?.answers;
    if refused < answers.len() {
        answers[refused] = Answer::Refused;
    }
    let printed = lines_of(alloc, config, lines, &answers)?;
    Ok(printed.as_str().replace(alloc, "\n", "/")?)
}

#[test]
fn refused_step_refuses_its_line(rt: HostRuntime) -> Result<(), Fail> {
    check_rows(
        &rt,
        &Refusals,
        "
# The line of step 1 to 3 has the sweeps of two shards, and its datagram.
the first | set shards 2/client 192.168.1.16 xyzzy5461/account u pw 1/\
    ask 0 192.168.1.16 n u pw 1/on 1 192.168.1.16 n/tick 2/ | 0 | 1 refused/2 account/3 tick/
the first of the line's sweeps | set shards 2/client 192.168.1.16 xyzzy5461/account u pw 1/\
    ask 0 192.168.1.16 n u pw 1/on 1 192.168.1.16 n/tick 2/ | 1 | 1 accept 0/2 refused/3 tick/
the second | set shards 2/client 192.168.1.16 xyzzy5461/account u pw 1/\
    ask 0 192.168.1.16 n u pw 1/on 1 192.168.1.16 n/tick 2/ | 2 | 1 accept 0/2 refused/3 tick/
the line's datagram | set shards 2/client 192.168.1.16 xyzzy5461/account u pw 1/\
    ask 0 192.168.1.16 n u pw 1/on 1 192.168.1.16 n/tick 2/ | 3 | 1 accept 0/2 refused/3 tick/
the first tick | set shards 2/client 192.168.1.16 xyzzy5461/account u pw 1/\
    ask 0 192.168.1.16 n u pw 1/on 1 192.168.1.16 n/tick 2/ | 4 | 1 accept 0/2 account/3 refused/
the second tick | set shards 2/client 192.168.1.16 xyzzy5461/account u pw 1/\
    ask 0 192.168.1.16 n u pw 1/on 1 192.168.1.16 n/tick 2/ | 5 | 1 accept 0/2 account/3 refused/
none | set shards 2/client 192.168.1.16 xyzzy5461/account u pw 1/\
    ask 0 192.168.1.16 n u pw 1/on 1 192.168.1.16 n/tick 2/ | 6 | 1 accept 0/2 account/3 tick/
",
    )
}

/// The name of a fault, and of a fault in it: the text for standard error, and the status.
struct Faults;

impl Subject for Faults {
    fn found(&self, alloc: Global, fields: &[&str]) -> Result<String, Fail> {
        let fault = match fields {
            ["Line", line] => ReplayFault::Line(line.parse()?),
            ["TooLong"] => ReplayFault::TooLong,
            ["Config", fault] => ReplayFault::Config(config_fault(fault)?),
            ["from", fault] => ReplayFault::from(config_fault(fault)?),
            ["InputOutput"] => ReplayFault::InputOutput,
            ["NoMemory"] => ReplayFault::NoMemory,
            _ => Err("an unknown fault")?,
        };
        let text = format!(in alloc; "{fault}")?;
        Ok(format!(in alloc; "{text}, {}", fault.status().number())?)
    }
}

fn config_fault(name: &str) -> Result<ConfigFault, Fail> {
    Ok(match name {
        "BadValue(Client)" => ConfigFault::BadValue(Field::Client),
        "BadValue(KeepSecs)" => ConfigFault::BadValue(Field::KeepSecs),
        "TwiceClient" => ConfigFault::TwiceClient,
        "TwiceAccount" => ConfigFault::TwiceAccount,
        "KeepTooLong" => ConfigFault::KeepTooLong,
        "NoMemory" => ConfigFault::NoMemory,
        _ => Err("an unknown fault")?,
    })
}

#[test]
fn faults_print_as_the_text_for_standard_error(rt: HostRuntime) -> Result<(), Fail> {
    check_rows(
        &rt,
        &Faults,
        "
a line | Line | 12 | bad script: line 12, 1
too long | TooLong | bad script: too long, 1
a client | Config | BadValue(Client) | bad script: BadValue client, 1
a setting | Config | BadValue(KeepSecs) | bad script: BadValue keep_secs, 1
a client twice | Config | TwiceClient | bad script: TwiceClient, 1
an account twice | Config | TwiceAccount | bad script: TwiceAccount, 1
keep | Config | KeepTooLong | bad script: KeepTooLong, 1
no memory for the configuration | from | NoMemory | no memory, 3
input or output | InputOutput | input or output fault, 2
no memory | NoMemory | no memory, 3
",
    )
}

/// A reader that gives its text in pieces, then fails where that is asked for, and else is at its
/// end. Every second read is interrupted.
#[derive(Drop)]
struct Pieces<'a> {
    text: &'a [u8],
    most: usize,
    is_interrupted: bool,
    fails: bool,
}

impl Read for Pieces<'_> {
    fn read(&mut self, buf: &mut [u8]) -> io::Result<usize> {
        self.is_interrupted = !self.is_interrupted;
        if self.is_interrupted {
            return Err(io::Error::from(ErrorKind::Interrupted));
        }
        if self.text.is_empty() && self.fails {
            return Err(io::Error::from(ErrorKind::BrokenPipe));
        }
        let len = self.text.len().min(self.most).min(buf.len());
        let (piece, rest) = self.text.split_at(len);
        buf[..len].copy_from_slice(piece);
        self.text = rest;
        Ok(len)
    }
}

/// A reader without an end: each read is interrupted, or gives `#` over and over.
#[derive(Drop)]
struct Endless {
    is_interrupted: bool,
    reads: u64,
    given: u64,
}

impl Read for Endless {
    fn read(&mut self, buf: &mut [u8]) -> io::Result<usize> {
        self.reads = self.reads.saturating_add(1);
        if self.is_interrupted {
            return Err(io::Error::from(ErrorKind::Interrupted));
        }
        buf.fill(b'#');
        self.given = self.given.saturating_add(buf.len() as u64);
        Ok(buf.len())
    }
}

/// A writer that takes up to three octets of each write, and fails once it has `most` in all. It
/// passes on what it has at a flush, which can fail.
#[derive(Drop)]
struct Threes {
    taken: Vec<u8>,
    most: usize,
    passed_on: usize,
    fails_to_flush: bool,
}

impl Threes {
    /// What was passed on.
    fn text(&self) -> &[u8] {
        match self.taken.get(..self.passed_on) {
            Some(text) => text,
            None => &[],
        }
    }
}

impl Write for Threes {
    fn write(&mut self, buf: &[u8]) -> io::Result<usize> {
        if self.most <= self.taken.len() {
            return Err(io::Error::from(ErrorKind::StorageFull));
        }
        let len = buf.len().min(3);
        self.taken.extend_from_slice(&buf[..len])?;
        Ok(len)
    }

    fn flush(&mut self) -> io::Result<()> {
        if self.fails_to_flush {
            return Err(io::Error::from(ErrorKind::StorageFull));
        }
        self.passed_on = self.taken.len();
        Ok(())
    }
}

/// A script of three asks, and what it prints.
const ASKS: &str = "client 192.168.1.16 xyzzy5461\naccount u pw 2\n\
ask 0 192.168.1.16 n u pw 1\nask 0 192.168.1.16 n u pw 2\nask 0 192.168.1.16 n u pw 3\n";

const PRINTED: &str = "\
1 accept 0
2 accept 1
3 reject limit
name                   places     held reserved     live    stale     over
u                           2        2        2        0        0        0
";

/// The titles of a report, which a row of a test writes as `TITLES`.
const TITLES: &str = "name                   places     held reserved     live    stale     over";

/// What a replay gave, and what was written.
fn told_replay(
    alloc: Global,
    found: Result<(), ReplayFault>,
    written: &[u8],
) -> Result<String, Fail> {
    let written = str::from_utf8(written).unwrap_or("no text");
    let written = written.replace(alloc, TITLES, "TITLES")?;
    let written = written.as_str().replace(alloc, "\n", "/")?;
    Ok(format!(in alloc; "{found:?} [{written}]")?)
}

/// How many octets each read gives at most, and whether the last one fails: what comes of the three
/// asks.
struct Pieced;

impl Subject for Pieced {
    fn found(&self, alloc: Global, fields: &[&str]) -> Result<String, Fail> {
        let [most, end] = fields else {
            return Err("a number and an end")?;
        };
        let mut reader = Pieces {
            text: ASKS.as_bytes(),
            most: most.parse()?,
            is_interrupted: false,
            fails: *end == "fails",
        };
        let mut output = Vec::new(alloc);
        let found = replay(alloc, &mut reader, &mut output);
        told_replay(alloc, found, &output)
    }
}

#[test]
fn pieces_are_one_script_unless_a_read_fails(rt: HostRuntime) -> Result<(), Fail> {
    check_rows(
        &rt,
        &Pieced,
        "
octets | 1 | ends | Ok(()) [1 accept 0/2 accept 1/3 reject limit/\
    TITLES/u                           2        2        2        0        0        0/]
twos | 2 | ends | Ok(()) [1 accept 0/2 accept 1/3 reject limit/\
    TITLES/u                           2        2        2        0        0        0/]
sevens | 7 | ends | Ok(()) [1 accept 0/2 accept 1/3 reject limit/\
    TITLES/u                           2        2        2        0        0        0/]
all | 4096 | ends | Ok(()) [1 accept 0/2 accept 1/3 reject limit/\
    TITLES/u                           2        2        2        0        0        0/]
a fault | 16 | fails | Err(InputOutput) []
",
    )
}

/// How many octets are taken, and whether a flush fails: what is passed on of the three asks, and
/// whether what was taken is the beginning of what they print.
struct Taken;

impl Subject for Taken {
    fn found(&self, alloc: Global, fields: &[&str]) -> Result<String, Fail> {
        let [most, flush] = fields else {
            return Err("a number and a flush")?;
        };
        let mut input = ASKS.as_bytes();
        let mut writer = Threes {
            taken: Vec::new(alloc),
            most: most.parse()?,
            passed_on: 0,
            fails_to_flush: *flush == "fails",
        };
        let found = replay(alloc, &mut input, &mut writer);
        let mut text = told_replay(alloc, found, writer.text())?;
        if !PRINTED.as_bytes().starts_with(&writer.taken) {
            text.push_str(" and something else was taken")?;
        }
        Ok(text)
    }
}

// The three asks print lines of 37 octets, and two lines of 75.
#[test]
fn writer_of_three_octets_gets_all_unless_it_fails(rt: HostRuntime) -> Result<(), Fail> {
    check_rows(
        &rt,
        &Taken,
        "
all | 187 | passes on | Ok(()) [1 accept 0/2 accept 1/3 reject limit/\
    TITLES/u                           2        2        2        0        0        0/]
nothing | 0 | passes on | Err(InputOutput) []
a part | 4 | passes on | Err(InputOutput) []
the lines alone | 37 | passes on | Err(InputOutput) []
the lines and the titles | 112 | passes on | Err(InputOutput) []
all but three octets | 184 | passes on | Err(InputOutput) []
no flush | 187 | fails | Err(InputOutput) []
",
    )
}

/// Whether each read is interrupted: what a replay gives, and the reads, or the octets over
/// 1,048,576.
struct Unending;

impl Subject for Unending {
    fn found(&self, alloc: Global, fields: &[&str]) -> Result<String, Fail> {
        let mut reader = Endless {
            is_interrupted: matches!(fields, ["interrupted"]),
            reads: 0,
            given: 0,
        };
        let mut output = Vec::new(alloc);
        let found = replay(alloc, &mut reader, &mut output);
        let mut text = told_replay(alloc, found, &output)?;
        if reader.is_interrupted {
            write!(text, ", {} reads", reader.reads)?;
        } else {
            let is_few = 1_048_576 < reader.given && reader.given <= 1_048_576 + 4096;
            write!(text, ", few octets {is_few}")?;
        }
        Ok(text)
    }
}

#[test]
fn reader_without_an_end_is_given_up(rt: HostRuntime) -> Result<(), Fail> {
    check_rows(
        &rt,
        &Unending,
        "
# Interrupted reads count, and 2,097,152 of them are the end.
interruptions | interrupted | Err(InputOutput) [], 2097152 reads
# Reading stops as soon as there are over 1,048,576 octets, and not over 4,096 more.
octets | given | Err(TooLong) [], few octets true
",
    )
}

/// A script with `WORD` in it, what stands there, and how many times over: what a replay gives and
/// prints.
struct Replayed;

impl Subject for Replayed {
    fn found(&self, alloc: Global, fields: &[&str]) -> Result<String, Fail> {
        let [script, word, times] = fields else {
            return Err("a script, a word and a number")?;
        };
        let word = word.repeat(alloc, times.parse()?)?;
        let script = script.replace(alloc, "WORD", word.as_str())?;
        replay_of(alloc, script.as_str())
    }
}

fn replay_of(alloc: Global, script: &str) -> Result<String, Fail> {
    let script = script.replace(alloc, "/", "\n")?;
    let mut input = script.as_bytes();
    let mut output = Vec::new(alloc);
    let found = replay(alloc, &mut input, &mut output);
    told_replay(alloc, found, &output)
}

// No want of memory is made up: the greatest datagram that UDP carries, padded, and the greatest
// words.
#[test]
fn long_lines_are_replayed(rt: HostRuntime) -> Result<(), Fail> {
    check_rows(
        &rt,
        &Replayed,
        "
4,097 octets | client 192.168.1.16 xyzzy5461/account nemo arctangent 1/raw-auth 0 192.168.1.16 \
    010000380f403f9473978057bd83d5cb98f4227a01066e656d6f02120dbe708d93d413ce3196e43f782a0aee\
    0406c0a80110050600000003WORD/ | 00 | 4041 | Ok(()) [1 accept 0/\
    TITLES/nemo                        1        1        1        0        0        0/]
65,507 octets | client 192.168.1.16 xyzzy5461/account nemo arctangent 1/raw-auth 0 192.168.1.16 \
    010000380f403f9473978057bd83d5cb98f4227a01066e656d6f02120dbe708d93d413ce3196e43f782a0aee\
    0406c0a80110050600000003WORD/ | 00 | 65451 | Ok(()) [1 accept 0/\
    TITLES/nemo                        1        1        1        0        0        0/]
no packet | client 192.168.1.16 xyzzy5461/account nemo arctangent 1/raw-auth 0 192.168.1.16 WORD/ \
    | ff | 65507 | Ok(()) [1 drop BadLength/\
    TITLES/nemo                        1        0        0        0        0        0/]
",
    )
}

// With its first line, a script of 1,048,577 octets is too long.
#[test]
fn too_long_comes_before_a_wrong_line(rt: HostRuntime) -> Result<(), Fail> {
    check_rows(
        &rt,
        &Replayed,
        "
1,048,576 octets | wrong/#xxxxxxxxxxxxxxxxxxxWORD | xxxxxxxxxxxxxxxxxxxxxxxxxxxxxxxxxxxxxxxxxxxxxxxxxx | 20971 | Err(Line(1)) []
1,048,577 octets | wrong/#xxxxxxxxxxxxxxxxxxxxWORD | xxxxxxxxxxxxxxxxxxxxxxxxxxxxxxxxxxxxxxxxxxxxxxxxxx | 20971 | Err(TooLong) []
",
    )
}
