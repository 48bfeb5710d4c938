//! Beginning a generation with the books of the one before, cut to a moment.

ghost use Rattle.std.specs.Prelude.{◌≡◌, ◌+◌, ◌<◌, ◌^◌, IfOk, string_bytes};
ghost use Rattle.std.specs.Arc.{arc_value};
ghost use Rattle.rld_books.specs.Cut.{cut_server, late_in_server};
ghost use Rattle.rld_books.specs.Saved.{IsServerOf};
ghost use Rattle.rld_start.specs.NextHeaders.{header_after};
ghost use Rattle.rld_start.specs.Numbers.{greatest_by, number_of};

use crate::fault::StartFault;
use crate::header::next_header;
use crate::new_generation::{NewGeneration, begin_generation, sync_begun};
use crate::number::new_number;
use crate::reopening::Former;
use crate::words::{write_number, write_text};
use crate::wrong::{Cause, Wrong};
use rld_books::{CutBooks, ServerBooks, ServerFault};
use rld_folder::{FileName, Folder, Generation, Synced};
use rld_log::{Pace, Pacing};
use rsl_accounts::Config;
use std::alloc::{AllocError, Global};
use std::fs::{File, Files};
use std::sync::Arc;

/// The result of a rebase. Only a generation that was begun with cut books gives one.
#[derive(Clone, Copy)]
pub struct Rebased {
    from: u64,
    generation: u64,
    moments: u64,
}

impl Rebased {
    ghost use Rattle.rld_start.specs.Rebased.{rebased};

    /// The number of the generation whose books were cut.
    pub fn from(&self) -> u64
        ensures { result ≡ self.now.from }
    {
        self.from
    }

    /// The number of the generation that begins with them.
    pub fn generation(&self) -> u64
        ensures { result ≡ self.now.generation }
    {
        self.generation
    }

    /// The number of moments that were later than the present and were cut, at most 2^64 - 1.
    pub fn moments(&self) -> u64
        ensures { result ≡ self.now.moments }
    {
        self.moments
    }

    /// The message of a rebase, in one line with its line feed: the generation whose books were
    /// cut, how many moments were, and the generation that begins with them. It fails only if memory is
    /// refused.
    pub fn line(&self, alloc: Global) -> Result<String, AllocError>
        ensures { IfOk result (λ text. string_bytes text ≡ rebased self.now) }
    {
        let mut text = String::new(alloc);
        write_number(&mut text, "generation ", self.from)?;
        write_number(&mut text, ": ", self.moments)?;
        write_number(&mut text, " moments cut; generation ", self.generation)?;
        write_text(&mut text, " begins\n")?;
        Ok(text)
    }
}

/// A generation that was begun with cut books. Only `cut_from` makes one.
#[derive(Drop)]
pub(crate) struct Cut<'a> {
    /// The number of the generation whose books were cut.
    from: u64,
    /// The generation.
    begun: NewGeneration<'a>,
    /// The number of moments that were cut, at most 2^64 - 1.
    moments: u64,
    /// That its log is on the disk.
    synced: Synced,
}

impl Cut<'_> {
    /// What is said of it, once its log is on the disk.
    pub(crate) fn rebased(&self) -> Rebased
        requires { self.now.synced.generation ≡ self.now.begun.store.header.generation }
        ensures from { result.from ≡ self.now.from }
        ensures generation { result.generation ≡ self.now.begun.store.header.generation }
        ensures moments { result.moments ≡ self.now.moments }
    {
        Rebased {
            from: self.from,
            generation: self.begun.store.header().generation,
            moments: self.moments,
        }
    }
}

/// Begins a generation after an opened one, with its table and with the books of its log, cut to a
/// moment.
pub(crate) fn cut_from<'a, R: Files<File = File>>(
    files: &R,
    alloc: Global,
    folder: &Folder,
    names: &[FileName],
    former: &Former<'_>,
    now: u64,
    pacing: Pacing<'a>,
) -> Result<Cut<'a>, StartFault>
    requires { pacing.pace ≡ Pace.Always }
    ensures synced { IfOk result (λ cut.
        cut.synced.generation ≡ cut.begun.store.header.generation) }
    ensures from { IfOk result (λ cut. cut.from ≡ former.now.number) }
    ensures books { IfOk result (λ cut.
        IsServerOf (arc_value former.now.opened.store.config) former.now.opened.store.books →
        cut.begun.store.books ≡ cut_server now former.now.opened.store.books) }
    ensures moments { IfOk result (λ cut. late_in_server now former.now.opened.store.books < 2 ^ 64 →
        cut.moments ≡ late_in_server now former.now.opened.store.books) }
    ensures header { IfOk result (λ cut. cut.begun.store.header ≡ header_after
        former.now.opened.header (greatest_by number_of names.now + 1) former.now.opened.moves) }
    ensures key { IfOk result (λ cut. cut.begun.key.generation ≡ cut.begun.store.header.generation) }
{
    let next = new_number(names)?;
    let Some(header) = next_header(&former.opened.header, next, former.opened.moves as u64) else {
        return Err(StartFault::NoNumber);
    };
    let store = &former.opened.store;
    let config = Arc::try_clone(store.config())?;
    let generation = Generation::Numbered(former.number);
    let CutBooks { books, moments } = cut_books(alloc, &*config, generation, store.books(), now)?;
    let begun = begin_generation(files, alloc, config, folder, header, books, pacing)?;
    let synced = sync_begun(files, alloc, folder, &header)?;
    Ok(Cut {
        from: former.number,
        begun,
        moments,
        synced,
    })
}

/// The books of a generation, cut to a moment. They can be restored, so `Misfit` comes for no books
/// of a log (`rld_books::laws::cut_books_fit`).
fn cut_books(
    alloc: Global,
    config: &Config,
    generation: Generation,
    books: &ServerBooks,
    now: u64,
) -> Result<CutBooks, StartFault>
    ensures server { IfOk result (λ cut. IsServerOf config.now cut.books) }
    ensures cut { IfOk result (λ cut. IsServerOf config.now books.now →
        cut.books ≡ cut_server now books.now) }
    ensures moments { IfOk result (λ cut. late_in_server now books.now < 2 ^ 64 →
        cut.moments ≡ late_in_server now books.now) }
{
    match books.cut(alloc, config, now) {
        Ok(cut) => Ok(cut),
        Err(ServerFault::NoMemory) => Err(StartFault::NoMemory),
        Err(fault) => {
            let wrong = Wrong {
                offset: 0,
                cause: Cause::Misfit(fault),
            };
            Err(StartFault::bad(FileName::Log(generation), wrong))
        }
    }
}
