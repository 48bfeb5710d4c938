//! What a work tells, and the calls that are refused.

use crate::TRIES;
use crate::stop::Stop;
use std::alloc::Global;

/// What a work has told, which is printed once it has come to its end: where it begins anew, nothing is
/// printed twice.
#[derive(Drop)]
pub(crate) struct Page<'a, R> {
    rt: &'a R,
    pub alloc: Global,
    pub text: String,
    /// The call that was refused.
    refused: Option<&'static str>,
}

impl<'a, R: Print> Page<'a, R> {
    /// A page with nothing on it.
    pub(crate) fn new(rt: &'a R, alloc: Global) -> Page<'a, R> {
        Page {
            rt,
            alloc,
            text: String::new(alloc),
            refused: None,
        }
    }

    /// The runtime.
    pub(crate) fn rt(&self) -> &'a R {
        self.rt
    }

    /// Prints what is on the page, under the name of a work.
    pub(crate) fn print(&self, work: &'static str) -> Result<(), Stop> {
        print!(self.rt; "== {work}\n{}", self.text)?;
        Ok(())
    }

    /// The call that was refused.
    pub(crate) fn refused(&self) -> Option<&'static str> {
        self.refused
    }

    /// Notes that a call was refused. Only one can be: where it is not as it should be, or another was
    /// refused before, that is printed.
    pub(crate) fn note(&mut self, call: &'static str, is_right: bool) -> Result<(), Stop> {
        if self.refused.is_some() {
            println!(self.rt; "{call}: refused again")?;
        }
        self.refused = Some(call);
        self.check(call, is_right)
    }

    /// Prints that a call is not as it should be, where it is not.
    pub(crate) fn check(&self, call: &'static str, is_right: bool) -> Result<(), Stop> {
        if !is_right {
            println!(self.rt; "{call}: not as it should be where memory is refused")?;
        }
        Ok(())
    }

    /// Makes a call of a subject until it is not refused, and checks that a refusal left of the subject
    /// what was seen before it. A look that is refused is a call too, which changes nothing.
    pub(crate) fn insist<S, V: PartialEq + Drop, T: Drop, L, C>(
        &mut self,
        call: &'static str,
        subject: &mut S,
        look: L,
        make: C,
    ) -> Result<T, Stop>
    where
        L: Fn(&S) -> Result<V, Stop>,
        C: Fn(&mut S) -> Result<T, Stop>,
    {
        let before = self.look(subject, &look)?;
        for _ in 0..TRIES {
            match make(subject) {
                Err(Stop::NoMemory) => {
                    let after = self.look(subject, &look)?;
                    self.note(call, after == before)?;
                }
                made => return made,
            }
        }
        Err(Stop::NoMemory)
    }

    /// What is seen of a subject.
    pub(crate) fn look<S, V: Drop, L: Fn(&S) -> Result<V, Stop>>(
        &mut self,
        subject: &S,
        look: &L,
    ) -> Result<V, Stop> {
        for _ in 0..TRIES {
            match look(subject) {
                Err(Stop::NoMemory) => self.note("a look", true)?,
                seen => return seen,
            }
        }
        Err(Stop::NoMemory)
    }
}
