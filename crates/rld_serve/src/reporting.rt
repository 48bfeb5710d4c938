//! The lines of a server on standard error. One worker writes all of them, so that no other waits
//! for the reader.

use crate::accounts::Accounts;
use crate::holdings::Holdings;
use crate::server::Server;
use rld_counts::Counts;
use rld_edges::{RunFault, StderrWriter};
use rld_look::{Refusal, Taken, write_left_out};
use rld_start::Generations;
use rld_state::{Ascii, Told, ToldLine};
use std::net::Net;
use std::sync::Wait;
use std::sync::atomic::Ordering;
use std::thread;
use std::time::{self, Duration};

/// How long the worker sleeps at a time, in milliseconds.
const SLEEP_MILLIS: u64 = 200;

/// How many times it sleeps between two reports of refusals: for a second, in which each cause gets
/// its lines once.
const SLEEPS: u64 = 5;

const _: () = prove!(SLEEP_MILLIS * SLEEPS == 1_000);

/// How many reports may wait to be written, except refusals.
pub(crate) const MOST_TOLD: usize = 64;

const _: () = prove!(MOST_TOLD == 64);

impl<G, A, R: Wait> Server<'_, G, A, R> {
    /// Queues a report to be written. It is left out if `MOST_TOLD` reports wait.
    pub(crate) fn tell(&self, told: Told) {
        let _ = self.told.lock(self.rt).try_push_back(told);
    }
}

impl<G, A, R> Server<'_, G, A, R>
where
    G: Generations,
    A: Accounts,
    R: Net + Eprint + time::Clock + Wait,
{
    /// Writes reports to standard error, until the server is to end: refusals each second, and all
    /// else five times a second. What finds no room there is written later; of refusals only their
    /// number.
    pub(crate) fn report_all(&self) -> Result<(), RunFault> {
        let mut writer = StderrWriter::of(self.rt, self.alloc)?;
        if !self.has_started()? {
            return Ok(());
        }
        if writer.has_room() {
            let _ = self.rt.eprintln(self.plan.greeting);
        }
        let mut left_out = Counts::new();
        for _ in self.rt.forever() {
            let is_over = self.shutdown.is_over();
            self.report(&mut writer, &mut left_out);
            if is_over {
                break;
            }
            self.pass_second(&mut writer);
        }
        self.report_end(&mut writer);
        Ok(())
    }

    /// Writes the last line, where an operator has asked the server to end: where it stands. There is none if
    /// memory for it is refused.
    fn report_end(&self, writer: &mut StderrWriter) {
        if !self.is_stopped.load(Ordering::SeqCst) {
            return;
        }
        if let Ok(holdings) = self.holdings() {
            self.tell(Told::Stopped(holdings.standing()));
            self.report_told(writer);
        }
    }

    /// Lets a second pass, or the time until the server is to end. Reports other than refusals are
    /// written meanwhile.
    fn pass_second(&self, writer: &mut StderrWriter) {
        for _ in 0..SLEEPS {
            if self.shutdown.is_over() {
                break;
            }
            thread::sleep(self.rt, Duration::from_millis(SLEEP_MILLIS));
            self.report_told(writer);
        }
    }

    /// Writes what waits. Refusals that are left out are counted, until their number is written.
    fn report(&self, writer: &mut StderrWriter, left_out: &mut Counts) {
        let mut has_room = self.report_told(writer);
        let taken = self.refusals.take(self.rt, self.alloc);
        left_out.add(&taken.left_out);
        let holdings = self.holdings_for(&taken);
        for refusal in taken.waited {
            has_room = has_room && self.report_refusal(writer, holdings.as_ref(), &refusal);
            if !has_room {
                left_out.note(refusal.fate);
            }
            self.refusals.keep(self.rt, refusal);
        }
        if has_room && left_out.received() > 0 && self.report_left_out(writer, left_out) {
            *left_out = Counts::new();
        }
    }

    /// Writes the reports other than refusals, and gives whether all of them found room.
    fn report_told(&self, writer: &mut StderrWriter) -> bool {
        for _ in 0..MOST_TOLD {
            if !writer.has_room() {
                return false;
            }
            let Some(told) = self.told.lock(self.rt).pop_front() else {
                return true;
            };
            let _ = self.rt.eprint(ToldLine {
                sink: self.plan.sink,
                told,
            });
        }
        true
    }

    /// What the store shows, if a line needs it and memory is not refused.
    fn holdings_for(&self, taken: &Taken) -> Option<Holdings> {
        if taken.waited.iter().all(|refusal| refusal.name.is_none()) {
            return None;
        }
        self.holdings().ok()
    }

    /// Writes the line of a refusal, and gives whether it found room.
    fn report_refusal(
        &self,
        writer: &mut StderrWriter,
        holdings: Option<&Holdings>,
        refusal: &Refusal,
    ) -> bool {
        let places = match (holdings, &refusal.name) {
            (Some(holdings), Some(name)) => holdings.places_of(name.as_slice()),
            _ => None,
        };
        let mut line = Vec::new(self.alloc);
        let written = refusal.write_line(self.alloc, &mut line, self.plan.sink, places);
        written.is_ok() && self.write(writer, line.as_slice())
    }

    /// Writes the numbers of refusals left out, and gives whether they found room.
    fn report_left_out(&self, writer: &mut StderrWriter, left_out: &Counts) -> bool {
        let mut lines = Vec::new(self.alloc);
        let written = write_left_out(&mut lines, self.plan.sink, left_out);
        written.is_ok() && self.write(writer, lines.as_slice())
    }

    /// Writes lines, and gives whether they found room.
    fn write(&self, writer: &mut StderrWriter, lines: &[u8]) -> bool {
        if !writer.has_room() {
            return false;
        }
        let _ = self.rt.eprint(Ascii(lines));
        true
    }
}
