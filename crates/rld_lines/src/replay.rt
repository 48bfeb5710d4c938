//! The lines of a log.

ghost use Rattle.std.specs.Prelude.{◌≡◌, ◌+◌, ◌++◌, All, IfOk, OnOk, length};
ghost use Rattle.rld_books.specs.Server.{decision_in, replay, server_after};
ghost use Rattle.rld_lines.specs.Lines.{IsPrinted, line, lines_of};
ghost use Rattle.rld_spelling.specs.Moves.{MoveFits};
ghost use Rattle.rld_store.specs.Generations.{counts_of};

use crate::fault::{LinesFault, wrong};
use crate::line::{push_end, push_front};
use crate::reading::{Begun, frames_of, front_of};
use rld_books::ServerBooks;
use rld_spelling as spelling;
use rld_start::Cause;
use rld_store::{Part, counts_in};
use rsl_accounts::Config;
use rsl_shard::Move;
use std::alloc::Global;
use std::io::Write;

/// The log of a generation, as it was read.
#[derive(Drop)]
pub struct LogFile<'a> {
    /// Its name in the lines.
    pub name: &'a str,
    /// The number of the generation in its name.
    pub generation: u64,
    /// Its octets.
    pub octets: Vec<u8>,
}

/// What was found in a log when its lines were written.
#[derive(Clone, Copy)]
pub struct Printed {
    /// The number of its moves.
    pub moves: u64,
    /// The octets of its torn end.
    pub torn: usize,
}

/// The books of a log, and the rest of what its lines need.
#[derive(Drop)]
struct Replay<'a> {
    config: &'a Config,
    file: &'a str,
    books: ServerBooks,
    /// The number of moves replayed so far, and of those of all generations before.
    number: u64,
}

impl<'a> Replay<'a> {
    /// Makes a move of a batch that begins at an offset of the file, and appends its line.
    #[tactic(auto, unfolding(crate::specs::Lines::line))]
    fn push_line(
        &mut self,
        alloc: Global,
        out: &mut Vec<u8>,
        at: usize,
        moved: &Move,
    ) -> Result<(), LinesFault>
        requires { MoveFits (counts_of self.old.config.now) moved.now }
        ensures config { self.new.config ≡ self.old.config }
        ensures file { self.new.file ≡ self.old.file }
        ensures number { OnOk result (self.new.number ≡ self.old.number + 1) }
        ensures books { OnOk result (self.new.books ≡ server_after self.old.books moved.now) }
        ensures line { OnOk result (out.new.items ≡ out.old.items
            ++ line self.old.file.now self.old.config.now (self.old.number + 1) moved.now
            (decision_in self.old.books moved.now)) }
    {
        if !self.books.takes(moved) {
            return Err(wrong(at, Cause::Foreign));
        }
        let Some(number) = self.number.checked_add(1) else {
            return Err(wrong(at, Cause::Malformed(spelling::Cause::OutOfRange)));
        };
        let made = moved.try_copy(alloc)?;
        push_front(out, self.file, self.config, number, moved)?;
        let decision = self.books.make(made);
        push_end(out, decision)?;
        self.number = number;
        Ok(())
    }

    /// Makes the moves of a batch that begins at an offset of the file, and writes their lines.
    fn push_lines(
        &mut self,
        alloc: Global,
        out: &mut Vec<u8>,
        at: usize,
        batch: &[Move],
    ) -> Result<(), LinesFault>
        requires { All (MoveFits (counts_of self.old.config.now)) batch.now }
        ensures config { self.new.config ≡ self.old.config }
        ensures file { self.new.file ≡ self.old.file }
        ensures number { OnOk result (self.new.number ≡ self.old.number + length batch.now) }
        ensures books { OnOk result (self.new.books ≡ replay self.old.books batch.now) }
        ensures lines { OnOk result (out.new.items ≡ out.old.items
            ++ lines_of self.old.file.now self.old.config.now self.old.number self.old.books batch.now) }
    {
        for moved in batch {
            self.push_line(alloc, out, at, moved)?;
        }
        Ok(())
    }

    /// The lines of the batch in a payload.
    fn lines_of(&mut self, alloc: Global, part: Part<'_>) -> Result<Vec<u8>, LinesFault>
        ensures config { self.new.config ≡ self.old.config }
        ensures file { self.new.file ≡ self.old.file }
        ensures printed { IfOk result (λ lines.
            IsPrinted self.old.file.now self.old.config.now self.old.number self.old.books
            part.entry.payload.now lines.items self.new.number self.new.books) }
    {
        let batch = part.moves(alloc, counts_in(self.config))?;
        let mut lines = Vec::new(alloc);
        self.push_lines(alloc, &mut lines, part.begin(), batch.as_slice())?;
        Ok(lines)
    }

    /// Writes the lines of batches, whose frames follow others of this length.
    fn write<W: Write>(
        &mut self,
        alloc: Global,
        whole: usize,
        batches: &[&[u8]],
        writer: &mut W,
    ) -> Result<(), LinesFault> {
        let mut whole = whole;
        for payload in batches {
            let part = Part::after(whole, payload)?;
            let lines = self.lines_of(alloc, part)?;
            writer.write_all(lines.as_slice())?;
            whole = part.end;
        }
        Ok(())
    }
}

/// Writes the lines of a generation, and gives their number.
fn write_moves<W: Write>(
    alloc: Global,
    config: &Config,
    file: &str,
    begun: Begun<'_>,
    writer: &mut W,
) -> Result<u64, LinesFault> {
    let Begun { header, parts } = begun;
    let mut replay = Replay {
        config,
        file,
        books: parts.snapshot.books(alloc, config)?,
        number: header.lines,
    };
    replay.write(alloc, parts.snapshot.end, parts.batches, writer)?;
    Ok(replay.number.saturating_sub(header.lines))
}

/// Writes the lines of a log.
///
/// A log whose generation was not begun has none. `Log` comes if a frame is spoilt before a whole
/// one, if a version before 0.4 wrote the log, if its header is not that of its name, or if its
/// table is damaged: then no line is written. `Log` also comes if a payload spells nothing that can
/// be there, or something of no account of the table, `Unwritten` if the writer failed, and
/// `NoMemory` if memory is refused. The lines of the batches before such a payload are written.
pub fn write_lines<W: Write>(
    alloc: Global,
    log: LogFile<'_>,
    writer: &mut W,
) -> Result<Printed, LinesFault> {
    let frames = frames_of(log.octets)?;
    let payloads = frames.payloads(alloc)?;
    let moves = match front_of(alloc, &payloads, log.generation)? {
        Some((config, begun)) => write_moves(alloc, &config, log.name, begun, writer)?,
        None => 0,
    };
    Ok(Printed {
        moves,
        torn: frames.torn().len(),
    })
}
