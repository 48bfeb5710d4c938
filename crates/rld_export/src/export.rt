//! The sessions of logs, one log after the other.

use crate::following::{Ends, Following};
use crate::form::Form;
use crate::line::push_line;
use crate::record::push_columns;
use crate::span::Span;
use rld_lines::{Begun, LinesFault, LogFile, frames_of, front_of};
use rld_store::{Part, counts_in};
use rsl_accounts::Config;
use std::alloc::Global;
use std::io::Write;

/// What is written of sessions.
#[derive(Clone, Copy)]
pub struct Wanted {
    /// The form of the lines.
    pub form: Form,
    /// The sessions that were held at some moment of this span.
    pub span: Span,
}

/// The sessions of logs that are read from the oldest to the newest.
#[derive(Drop)]
pub struct Export {
    wanted: Wanted,
    /// The sessions at the end of the log that was read last.
    last: Option<Following>,
}

impl Wanted {
    /// Writes the lines of sessions that have ended.
    fn write_ends<W: Write>(
        self,
        alloc: Global,
        config: &Config,
        ends: &[Ends],
        writer: &mut W,
    ) -> Result<(), LinesFault> {
        let mut lines = Vec::new(alloc);
        for ended in ends {
            for session in ended.sessions.as_slice() {
                let end = Some(session.end);
                push_line(&mut lines, self, config, ended.account, &session.held, end)?;
            }
        }
        Ok(writer.write_all(lines.as_slice())?)
    }
}

impl Following {
    /// Makes the moves of batches, whose frames follow others of this length, and writes the
    /// sessions that ended.
    fn follow<W: Write>(
        &mut self,
        alloc: Global,
        wanted: Wanted,
        whole: usize,
        batches: &[&[u8]],
        writer: &mut W,
    ) -> Result<(), LinesFault> {
        let mut whole = whole;
        for payload in batches {
            let part = Part::after(whole, payload)?;
            let mut ends = Vec::new(alloc);
            for moved in part.moves(alloc, counts_in(&self.config))? {
                self.make(alloc, part.begin(), moved, &mut ends)?;
            }
            wanted.write_ends(alloc, &self.config, &ends, writer)?;
            whole = part.end;
        }
        let mut ends = Vec::new(alloc);
        self.end(alloc, &mut ends)?;
        wanted.write_ends(alloc, &self.config, &ends, writer)
    }
}

impl Export {
    /// An export before its first log. It writes the names of the columns, if there are any.
    pub fn new<W: Write>(
        alloc: Global,
        wanted: Wanted,
        writer: &mut W,
    ) -> Result<Export, LinesFault> {
        let mut line = Vec::new(alloc);
        if let Form::Csv = wanted.form {
            push_columns(&mut line)?;
        }
        writer.write_all(line.as_slice())?;
        Ok(Export { wanted, last: None })
    }

    /// Reads the next log, writes the sessions that ended in it, and gives the octets of its torn
    /// end. A log whose generation was not begun is passed over.
    ///
    /// The faults are those of `write_lines`; the lines of the batches before a fault are written.
    pub fn read<W: Write>(
        &mut self,
        alloc: Global,
        log: LogFile<'_>,
        writer: &mut W,
    ) -> Result<usize, LinesFault> {
        let frames = frames_of(log.octets)?;
        let payloads = frames.payloads(alloc)?;
        if let Some((config, begun)) = front_of(alloc, &payloads, log.generation)? {
            let mut following = self.begin(alloc, config, begun, writer)?;
            let Begun { parts, .. } = begun;
            following.follow(
                alloc,
                self.wanted,
                parts.snapshot.end,
                parts.batches,
                writer,
            )?;
            self.last = Some(following);
        }
        Ok(frames.torn().len())
    }

    /// The beginning of the next generation, with the sessions of the one before.
    fn begin<W: Write>(
        &self,
        alloc: Global,
        config: Config,
        begun: Begun<'_>,
        writer: &mut W,
    ) -> Result<Following, LinesFault> {
        let mut ends = Vec::new(alloc);
        let snapshot = begun.parts.snapshot;
        let Some(last) = &self.last else {
            return Following::begin(alloc, config, snapshot, &[], 0, &mut ends);
        };
        let carried = last.carried(alloc, &config, &mut ends)?;
        self.wanted.write_ends(alloc, &last.config, &ends, writer)?;
        let mut ends = Vec::new(alloc);
        let following = Following::begin(
            alloc,
            config,
            snapshot,
            &carried,
            last.latest,
            &mut ends,
        )?;
        self.wanted
            .write_ends(alloc, &following.config, &ends, writer)?;
        Ok(following)
    }

    /// Writes the sessions that are held after the last log, account by account.
    pub fn finish<W: Write>(self, alloc: Global, writer: &mut W) -> Result<(), LinesFault> {
        let Some(last) = &self.last else {
            return Ok(());
        };
        for account in 0..last.config.accounts() {
            let mut lines = Vec::new(alloc);
            for held in last.held(account) {
                push_line(&mut lines, self.wanted, &last.config, account, held, None)?;
            }
            writer.write_all(lines.as_slice())?;
        }
        Ok(())
    }
}
