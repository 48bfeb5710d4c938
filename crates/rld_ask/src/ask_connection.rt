//! A connection over which asks come, one after the other.

ghost use Rattle.std.specs.Prelude.{◌≡◌, ◌⊎◌, ◌++◌, ◌||◌, false, true, IfOk, None, OnErr, OnOk, option_copied};
ghost use Rattle.http1.specs.declared.conn.Reading.TheVariants.{Body, Head};
ghost use Rattle.http1.specs.declared.decode.Decoder.{Decoder};
ghost use Rattle.rld_ask.specs.Asking.{has_ended, is_waiting};
ghost use Rattle.rld_ask.specs.Form.{form_of};
ghost use Rattle.rld_ask.specs.Outcome.{status_of};
ghost use Rattle.rld_ask.specs.Heads.{HasShown, IsJudged, is_shown_by};
ghost use Rattle.rld_ask.specs.Response.{after_head, body_octets, head_octets, response_octets};
ghost use Rattle.rld_ask.specs.Sending.{GivesAsk, HasResponded, IsAsk, IsAsking, IsRestOf, IsTold, ends_so, sent_for, status_told, text_of, text_told};
ghost use Rattle.rld_ask.specs.declared.ask_connection.Phase.TheVariants.{Ends, Waits};
ghost use Rattle.rld_ask.specs.declared.ask_connection.Turn.TheVariants.{Asks as asks};
ghost use Rattle.rld_ask.specs.declared.form.AskForm.{AskForm as OneAsk};

use crate::asked::Answer;
use crate::fault::FormFault;
use crate::form::AskForm;
use crate::outcome::Outcome;
use crate::refusal::Refusal;
use crate::refused::Refused;
use crate::reply::reply_json;
use crate::status::{closing_text, fields_of, reason_of};
use crate::token::Token;
use bytes::{Buf, BufMut, BytesMut};
use http1::{BodySize, Event, Limits, Server, WriteError};
use httparse::spans::EMPTY_HEADER_SPAN;
use rld_values::push_text;
use rsl_reply::Dictionary;
use std::alloc::{AllocError, Global};
use std::io::{self, ErrorKind, Read, Write};
use std::net::{Shutdown, SocketAddr, TcpStream};

/// How long a request may take from its first octet until its answer has gone, in milliseconds.
const PATIENCE_MILLIS: u64 = 5_000;

/// How long a connection may rest between two requests, in milliseconds.
const REST_MILLIS: u64 = 300_000;

/// How often octets are moved before others have their turn.
const MOVES: usize = 64;

/// The most octets of a request's head. A longer one is answered with 414 or 431.
const MAX_HEAD_LEN: usize = 8_192;

/// The most octets of a form. A longer one is answered with 413.
const MAX_FORM_LEN: usize = 4_096;

/// How many octets are read at once.
const READ_LEN: usize = 2_048;

/// The most fields of a request's head. One with more is answered with 431.
const MAX_FIELDS: usize = 64;

/// How a turn of a connection ends.
#[derive(Drop)]
pub(crate) enum Turn {
    /// Nothing can be done until octets come or have gone.
    Waits,
    /// More can be done at once.
    GoesOn,
    /// This ask waits for its answer.
    Asks(AskForm),
    /// The connection is done with.
    Leaves,
}

/// What a connection does next.
#[derive(Clone, Copy)]
enum Phase {
    /// It waits for the first octet of a request.
    Rests,
    /// It reads a request.
    Reads,
    /// An ask waits for its answer.
    Waits,
    /// Once what is pending has gone, it lets go what still comes.
    Closes,
    /// It lets go what still comes, until the other side is done too.
    Discards,
    /// It is done with, and to be closed.
    Ends,
}

/// A connection over which asks come.
#[derive(Drop)]
pub(crate) struct AskConnection {
    alloc: Global,
    stream: TcpStream,
    server: Server,
    input: BytesMut,
    output: BytesMut,
    form: Vec<u8>,
    refusal: Option<Refusal>,
    refused: Refused,
    peer: SocketAddr,
    has_shown_token: bool,
    phase: Phase,
    until: u64,
}

impl AskConnection {
    /// A connection that this peer has made at this moment in milliseconds. No call on the stream waits from now
    /// on.
    pub(crate) fn new(
        alloc: Global,
        stream: TcpStream,
        peer: SocketAddr,
        now: u64,
    ) -> io::Result<AskConnection>
        ensures peer { IfOk result (λ connection. connection.peer ≡ peer) }
        ensures shown { IfOk result (λ connection. connection.has_shown_token ≡ false) }
    {
        stream.set_nonblocking(true)?;
        stream.set_nodelay(true)?;
        let limits = Limits {
            max_head_len: MAX_HEAD_LEN,
            ..Limits::default()
        };
        Ok(AskConnection {
            alloc,
            stream,
            server: Server::new(limits),
            input: BytesMut::new(alloc),
            output: BytesMut::new(alloc),
            form: Vec::new(alloc),
            refusal: None,
            refused: Refused::none(),
            peer,
            has_shown_token: false,
            phase: Phase::Reads,
            until: now.saturating_add(PATIENCE_MILLIS),
        })
    }

    /// The stream, to be waited for.
    pub(crate) fn stream(&self) -> &TcpStream {
        &self.stream
    }

    /// Who has made it.
    pub(crate) fn peer(&self) -> SocketAddr
        ensures { result ≡ self.now.peer }
    {
        self.peer
    }

    /// Whether one of its requests has shown the token.
    pub(crate) fn has_shown_token(&self) -> bool
        ensures { result ≡ self.now.has_shown_token }
    {
        self.has_shown_token
    }

    /// How long it lasts still at this moment, in milliseconds.
    pub(crate) fn left(&self, now: u64) -> u64 {
        self.until.saturating_sub(now)
    }

    /// Whether an ask of it waits for its answer.
    pub(crate) fn is_waiting(&self) -> bool
        ensures { result ≡ is_waiting self.now.phase }
    {
        matches!(self.phase, Phase::Waits)
    }

    /// How many of its requests were refused since this was asked last.
    pub(crate) fn take_refused(&mut self) -> Refused
        ensures { self.new ≡ record self.old { refused = self.new.refused } }
    {
        let refused = self.refused;
        self.refused = Refused::none();
        refused
    }

    /// Does what can be done without waiting, for some moves at most.
    pub(crate) fn take_turn(&mut self, token: &Token, now: u64) -> Turn
        ensures kept { (self.old.phase ≡ Waits → ⊥) → self.new.phase ≡ Waits → IsAsk result }
        ensures asks { (ask : OneAsk) → result ≡ asks ask → IsAsking self.new ask }
    {
        for _ in 0..MOVES {
            match self.take_step(token, now) {
                Ok(Turn::GoesOn) => {}
                Ok(turn) => return turn,
                Err(error) if error.kind() == ErrorKind::WouldBlock => return Turn::Waits,
                Err(_) => return Turn::Leaves,
            }
        }
        Turn::GoesOn
    }

    /// Writes what is pending, or reads on.
    fn take_step(&mut self, token: &Token, now: u64) -> io::Result<Turn>
        ensures kept { (self.old.phase ≡ Waits → ⊥) → self.new.phase ≡ Waits → GivesAsk result }
        ensures asks { IfOk result (λ turn. (ask : OneAsk) → turn ≡ asks ask → IsAsking self.new ask) }
    {
        if !self.output.is_empty() {
            let mut stream = &self.stream;
            let sent = stream.write(self.output.as_slice())?;
            if sent == 0 {
                return Ok(Turn::Leaves);
            }
            self.output.advance(sent.min(self.output.len()));
            return Ok(Turn::GoesOn);
        }
        match self.phase {
            Phase::Rests | Phase::Reads => self.read_event(token, now),
            Phase::Waits => Ok(Turn::Waits),
            Phase::Closes => {
                self.stream.shutdown(Shutdown::Write)?;
                self.phase = Phase::Discards;
                Ok(Turn::GoesOn)
            }
            Phase::Discards => self.discard(),
            Phase::Ends => Ok(Turn::Leaves),
        }
    }

    /// Reads what comes after the last request, and lets it go: where a socket is closed before that, the
    /// answer may be lost.
    fn discard(&mut self) -> io::Result<Turn>
        ensures shown { self.new.has_shown_token ≡ self.old.has_shown_token }
        ensures kept { (self.old.phase ≡ Waits → ⊥) → self.new.phase ≡ Waits → GivesAsk result }
        ensures asks { IfOk result (λ turn. (ask : OneAsk) → turn ≡ asks ask → ⊥) }
    {
        let mut octets = [0u8; 1_024];
        let mut stream = &self.stream;
        match stream.read(&mut octets)? {
            0 => Ok(Turn::Leaves),
            _ => Ok(Turn::GoesOn),
        }
    }

    /// Takes one event from what was read, or reads more.
    #[tactic(auto, using(crate::proofs::Judging::judged, crate::proofs::Judging::shown, crate::proofs::Judging::no_data, crate::proofs::Judging::no_end))]
    fn read_event(&mut self, token: &Token, now: u64) -> io::Result<Turn>
        ensures kept { (self.old.phase ≡ Waits → ⊥) → self.new.phase ≡ Waits → GivesAsk result }
        ensures asks { IfOk result (λ turn. (ask : OneAsk) → turn ≡ asks ask → IsAsking self.new ask) }
        ensures judged { self.old.server.reading ≡ Head → (body : Decoder) →
            self.new.server.reading ≡ Body body →
            IsJudged token.now.credentials.items self.old.server.limits self.old.input.items self.new.refusal }
        ensures stays { (body : Decoder) → self.old.server.reading ≡ Body body →
            (self.new.refusal ≡ self.old.refusal) ⊎ HasResponded self.new.phase }
        ensures taken { IfOk result (λ turn. (ask : OneAsk) → turn ≡ asks ask →
            (self.old.server.reading ≡ Head → ⊥) × (self.old.refusal ≡ None)) }
        ensures shown { self.old.server.reading ≡ Head → self.old.has_shown_token ≡ false →
            self.new.has_shown_token ≡ true →
            HasShown token.now.credentials.items self.old.server.limits self.old.input.items }
        ensures unshown { (body : Decoder) → self.old.server.reading ≡ Body body →
            self.new.has_shown_token ≡ self.old.has_shown_token }
    {
        let mut spans = [EMPTY_HEADER_SPAN; MAX_FIELDS];
        let read = match self.server.read(self.input.as_slice(), &mut spans) {
            Ok(read) => read,
            Err(fault) => return self.close_with(fault.status()),
        };
        match read.event {
            Event::NeedMore => self.read_more(now),
            Event::Head(head) => {
                self.refusal = Refusal::of(token, self.input.as_slice(), &head, &spans);
                self.note_token();
                if let Some(status) = self.closing_status() {
                    return self.close_with(status);
                }
                if self.server.expects_continue() {
                    self.tell_to_continue()?;
                }
                self.consume(read.consumed);
                Ok(Turn::GoesOn)
            }
            Event::Data(piece) => {
                let piece = piece.of(self.input.as_slice());
                if self.form.len() + piece.len() > MAX_FORM_LEN {
                    return self.close_with(413);
                }
                self.form.extend_from_slice(piece)?;
                self.consume(read.consumed);
                Ok(Turn::GoesOn)
            }
            Event::End(_) => {
                self.consume(read.consumed);
                self.end_request(now)
            }
            _ => Ok(Turn::Leaves),
        }
    }

    /// Notes that the token was shown, unless the request that is read is refused for want of it.
    fn note_token(&mut self)
        ensures { self.new ≡ record self.old {
          has_shown_token = self.old.has_shown_token || is_shown_by self.old.refusal;
        } }
    {
        if !matches!(self.refusal, Some(Refusal::Token)) {
            self.has_shown_token = true;
        }
    }

    /// The status with which a connection closes whose request has a form that is not read: a coded or a long one.
    fn closing_status(&self) -> Option<u16> {
        if self.server.has_codings() {
            return Some(501);
        }
        match self.server.unread_size() {
            BodySize::Known(len) if len > MAX_FORM_LEN as u64 => Some(413),
            _ => None,
        }
    }

    /// Lets go of octets that were read.
    fn consume(&mut self, count: usize)
        ensures { self.new ≡ record self.old { input = self.new.input } }
    {
        let count = count.min(self.input.len());
        self.input.advance(count);
    }

    /// Reads octets, if some are there.
    fn read_more(&mut self, now: u64) -> io::Result<Turn>
        ensures shown { self.new.has_shown_token ≡ self.old.has_shown_token }
        ensures server { self.new.server ≡ self.old.server }
        ensures refusal { self.new.refusal ≡ self.old.refusal }
        ensures kept { (self.old.phase ≡ Waits → ⊥) → self.new.phase ≡ Waits → GivesAsk result }
        ensures asks { IfOk result (λ turn. (ask : OneAsk) → turn ≡ asks ask → ⊥) }
    {
        self.input.reserve(READ_LEN)?;
        let mut stream = &self.stream;
        if self.input.read_from(&mut stream)? == 0 {
            return Ok(Turn::Leaves);
        }
        if let Phase::Rests = self.phase {
            self.phase = Phase::Reads;
            self.until = now.saturating_add(PATIENCE_MILLIS);
        }
        Ok(Turn::GoesOn)
    }

    /// Tells the other side to go on with the form.
    fn tell_to_continue(&mut self) -> io::Result<()>
        ensures shown { self.new.has_shown_token ≡ self.old.has_shown_token }
        ensures reading { self.new.server.reading ≡ self.old.server.reading }
        ensures refusal { self.new.refusal ≡ self.old.refusal }
        ensures phase { self.new.phase ≡ self.old.phase }
    {
        match self
            .server
            .write_informational(&mut self.output, 100, b"Continue", &[])
        {
            Ok(()) => Ok(()),
            Err(fault) => Err(io_error(fault)),
        }
    }

    /// Takes the ask of a request that was read, or refuses it.
    fn end_request(&mut self, now: u64) -> io::Result<Turn>
        ensures shown { self.new.has_shown_token ≡ self.old.has_shown_token }
        ensures stays { (self.new.refusal ≡ self.old.refusal) ⊎ HasResponded self.new.phase }
        ensures kept { (self.old.phase ≡ Waits → ⊥) → self.new.phase ≡ Waits → GivesAsk result }
        ensures turn { IfOk result (λ turn. turn ≡ ends_so self.old.refusal (form_of self.old.form.items)) }
        ensures waits { IfOk result (λ turn. (ask : OneAsk) → turn ≡ asks ask → IsAsking self.new ask) }
        ensures sent { OnOk result (self.new.output.items ≡ self.old.output.items
            ++ sent_for self.old.server self.old.refusal (form_of self.old.form.items)) }
    {
        if let Some(refusal) = self.refusal {
            self.refused.add(Refused::of_status(refusal.status()));
            self.respond(refusal.status(), refusal.text().as_bytes(), now)?;
            return Ok(Turn::GoesOn);
        }
        match AskForm::read(self.alloc, self.form.as_slice()) {
            Ok(ask) => {
                self.phase = Phase::Waits;
                Ok(Turn::Asks(ask))
            }
            Err(FormFault::NoMemory) => Err(io::Error::from(ErrorKind::OutOfMemory)),
            Err(fault) => {
                self.refused.add(Refused::of_status(400));
                let mut text = Vec::new(self.alloc);
                fault.push(&mut text)?;
                text.push(b'\n')?;
                self.respond(400, text.as_slice(), now)?;
                Ok(Turn::GoesOn)
            }
        }
    }

    /// Answers the ask that waits. Where there is no answer nothing is known of it.
    fn answer(&mut self, names: &Dictionary, answer: Option<&Answer>, now: u64) -> io::Result<()>
        ensures { OnOk result (self.new.output.items ≡ self.old.output.items ++ response_octets self.old.server
            (status_told (option_copied answer.entry)) (text_told names.now (option_copied answer.entry))) }
    {
        match answer {
            Some(Answer { outcome, reply }) => self.tell(names, *outcome, reply.as_slice(), now),
            None => self.tell(names, Outcome::Unanswered, &[], now),
        }
    }

    /// Tells what became of an ask to whose request this is the reply.
    fn tell(
        &mut self,
        names: &Dictionary,
        outcome: Outcome,
        reply: &[u8],
        now: u64,
    ) -> io::Result<()>
        ensures { OnOk result (self.new.output.items ≡ self.old.output.items
            ++ response_octets self.old.server (status_of outcome) (text_of names.now outcome reply.now)) }
    {
        let text = text_of(self.alloc, names, outcome, reply)?;
        self.respond(outcome.status(), text.as_slice(), now)
    }

    /// Whether it has ended.
    pub(crate) fn has_ended(&self) -> bool
        ensures { result ≡ has_ended self.now.phase }
    {
        matches!(self.phase, Phase::Ends)
    }

    /// Ends it: it is closed in the next turn.
    pub(crate) fn end(&mut self)
        ensures { self.new ≡ record self.old { phase = Ends } }
    {
        self.phase = Phase::Ends;
    }

    /// Answers the ask that waits, and sends what goes without waiting. Where the answer cannot be written, the
    /// connection is done with.
    pub(crate) fn answer_or_end(&mut self, names: &Dictionary, answer: Option<&Answer>, now: u64)
        ensures { IsTold names.now self.old (option_copied answer.entry) self.new }
    {
        match self.answer(names, answer, now) {
            Ok(()) => self.send(),
            Err(_) => self.end(),
        }
    }

    /// Sends of what is pending as much as goes without waiting. What does not go, goes in a later turn.
    pub(crate) fn send(&mut self)
        ensures { IsRestOf self.old.output.items self.new.output.items }
    {
        let mut stream = &self.stream;
        if let Ok(sent) = stream.write(self.output.as_slice()) {
            self.output.advance(sent.min(self.output.len()));
        }
    }

    /// Writes a response, and makes ready for the next request.
    fn respond(&mut self, status: u16, text: &[u8], now: u64) -> io::Result<()>
        ensures shown { self.new.has_shown_token ≡ self.old.has_shown_token }
        ensures refusal { OnErr result (self.new.refusal ≡ self.old.refusal) }
        ensures done { OnOk result (HasResponded self.new.phase) }
        ensures phase { self.new.phase ≡ Waits → self.old.phase ≡ Waits }
        ensures sent { OnOk result (self.new.output.items
            ≡ self.old.output.items ++ response_octets self.old.server status text.now) }
    {
        match self.write_response(status, text) {
            Ok(()) => {}
            Err(fault) => return Err(io_error(fault)),
        }
        self.form.clear();
        self.refusal = None;
        if self.server.is_closed() {
            self.phase = Phase::Closes;
            self.until = now.saturating_add(PATIENCE_MILLIS);
        } else {
            self.phase = Phase::Rests;
            self.until = now.saturating_add(REST_MILLIS);
        }
        Ok(())
    }

    /// Writes a response with this status and text.
    fn write_response(&mut self, status: u16, text: &[u8]) -> Result<(), WriteError>
        ensures shown { self.new.has_shown_token ≡ self.old.has_shown_token }
        ensures refusal { self.new.refusal ≡ self.old.refusal }
        ensures phase { self.new.phase ≡ self.old.phase }
        ensures sent { OnOk result (self.new.output.items
            ≡ self.old.output.items ++ response_octets self.old.server status text.now) }
    {
        self.write_head(status, text)?;
        self.write_body(text)
    }

    /// Writes the head of a response with this status and text.
    fn write_head(&mut self, status: u16, text: &[u8]) -> Result<(), WriteError>
        ensures shown { self.new.has_shown_token ≡ self.old.has_shown_token }
        ensures refusal { self.new.refusal ≡ self.old.refusal }
        ensures phase { self.new.phase ≡ self.old.phase }
        ensures sent { OnOk result (self.new.output.items
            ≡ self.old.output.items ++ head_octets self.old.server status text.now) }
        ensures server { OnOk result (self.new.server ≡ after_head self.old.server status text.now) }
    {
        let size = BodySize::Known(text.len() as u64);
        let reason = reason_of(status).as_bytes();
        self.server
            .write_response(&mut self.output, status, reason, &fields_of(status), size)
    }

    /// Writes the text of a response, and ends it.
    fn write_body(&mut self, text: &[u8]) -> Result<(), WriteError>
        ensures shown { self.new.has_shown_token ≡ self.old.has_shown_token }
        ensures refusal { self.new.refusal ≡ self.old.refusal }
        ensures phase { self.new.phase ≡ self.old.phase }
        ensures sent { OnOk result (self.new.output.items
            ≡ self.old.output.items ++ body_octets self.old.server text.now) }
    {
        self.server.write_data(&mut self.output, text)?;
        self.server.write_end(&mut self.output, &[])
    }

    /// Answers what cannot be read, and ends the connection.
    fn close_with(&mut self, status: u16) -> io::Result<Turn>
        ensures shown { self.new.has_shown_token ≡ self.old.has_shown_token }
        ensures server { self.new.server ≡ self.old.server }
        ensures refusal { self.new.refusal ≡ self.old.refusal }
        ensures kept { (self.old.phase ≡ Waits → ⊥) → self.new.phase ≡ Waits → GivesAsk result }
        ensures asks { IfOk result (λ turn. (ask : OneAsk) → turn ≡ asks ask → ⊥) }
    {
        self.refused.add(Refused::of_status(status));
        self.output.put_slice(closing_text(status).as_bytes())?;
        self.phase = Phase::Closes;
        Ok(Turn::GoesOn)
    }
}

/// What is told of an ask: the reply where it is accepted, and else what became of it.
fn text_of(
    alloc: Global,
    names: &Dictionary,
    outcome: Outcome,
    reply: &[u8],
) -> Result<Vec<u8>, AllocError>
    ensures { IfOk result (λ text. text.items ≡ text_of names.now outcome reply.now) }
{
    match outcome {
        Outcome::Accepted => reply_json(alloc, names, reply),
        outcome => {
            let mut text = Vec::new(alloc);
            push_text(&mut text, outcome.text())?;
            text.push(b'\n')?;
            Ok(text)
        }
    }
}

/// Why a response could not be written: memory was refused, or the request allows none.
fn io_error(fault: WriteError) -> io::Error {
    match fault {
        WriteError::OutOfMemory => io::Error::from(ErrorKind::OutOfMemory),
        _ => io::Error::from(ErrorKind::InvalidData),
    }
}
