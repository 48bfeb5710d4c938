//! A server that goes from one generation to the next while it runs.

use crate::server::{OURS, pacing, say_header, started};
use rld_config::Archive;
use rld_log::{FileLog, PacedLog, Pacing, Ticks};
use rld_start::{FolderGenerations, Generations, NextLog, Started, Written, next_header};
use rld_store::Store;
use rsl_shard::Move;
use std::{fs, io};

/// A server that has started.
#[derive(Drop)]
pub struct Running<'a> {
    generations: FolderGenerations<'a, HostRuntime>,
    pacing: Pacing<'a>,
    store: Store<PacedLog<'a, FileLog>>,
}

impl<'a> Running<'a> {
    /// One that starts from a folder whose archive is kept so long; or its fault is said.
    pub fn start(
        rt: &'a HostRuntime,
        folder: &str,
        archive: Archive,
        now: u64,
        ticks: &'a Ticks,
    ) -> io::Result<Option<Running<'a>>> {
        match started(rt, folder, OURS, now, ticks) {
            Ok(
                Started {
                    folder,
                    store,
                    found,
                    ..
                },
            ) => {
                println!(rt;
                    "runs in log-{}, moves {}",
                    store.header().generation,
                    found.moves
                )?;
                Ok(Some(Running {
                    generations: FolderGenerations::new(rt, folder, archive, None),
                    pacing: pacing(ticks),
                    store,
                }))
            }
            Err(fault) => {
                println!(rt; "a start: {fault}")?;
                Ok(None)
            }
        }
    }

    /// Records a batch of moves, and says what was decided.
    pub fn commit(&mut self, rt: &HostRuntime, moves: Vec<Move>) -> io::Result<()> {
        match self.store.commit(rt.alloc(), moves) {
            Ok(recorded) => println!(rt; "decisions: {:?}", recorded.decisions()),
            Err(fault) => println!(rt; "a batch: {fault}"),
        }
    }

    /// Goes on in the next generation, after `moves` moves of this one, and says in which. In its
    /// log these octets stand already.
    pub fn roll(&mut self, rt: &HostRuntime, moves: u64, octets: &str) -> io::Result<()> {
        let header = self.store.header();
        let next = match self.generations.next_log(rt.alloc(), header.generation) {
            Ok(next) => next,
            Err(fault) => return println!(rt; "no next log: {fault}"),
        };
        let NextLog { key, log } = next.paced(self.pacing);
        let number = key.generation();
        fs::write(
            rt,
            format!(in rt.alloc(); "rolled/log-{number}")?.as_str(),
            octets,
        )?;
        let Some(header) = next_header(&header, number, moves) else {
            return println!(rt; "no header");
        };
        match self.store.roll(rt.alloc(), header, log) {
            Ok(_older) => say_header(rt, "goes on in ", &self.store.header()),
            Err(refused) => {
                drop(refused.log);
                let is_gone = self.generations.remove(rt.alloc(), key).is_ok();
                println!(rt; "no log-{number}: {}; gone: {is_gone}", refused.fault)
            }
        }
    }

    /// Wants a log after a generation that is later than those of the folder, and says the fault.
    pub fn roll_after(&self, rt: &HostRuntime, present: u64) -> io::Result<()> {
        match self.generations.next_log(rt.alloc(), present) {
            Ok(next) => println!(rt; "after log-{present}: log-{}", next.key.generation()),
            Err(fault) => println!(rt; "after log-{present}: {fault}"),
        }
    }

    /// Puts old logs away at this second, and says where it fails.
    pub fn put_away(&self, rt: &HostRuntime, now: u64) -> io::Result<()> {
        let newest = Written::by(&self.store);
        match self.generations.put_away(rt.alloc(), newest, now) {
            Ok(()) => println!(rt; "put away"),
            Err(fault) => println!(rt; "put away: {fault}"),
        }
    }
}
