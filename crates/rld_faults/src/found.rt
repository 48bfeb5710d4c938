use crate::spot::Spot;
use crate::step::Step;
use rsl_wire::NoMemory;
use std::alloc::Global;

/// The most faults of a file that are told.
pub(crate) const MOST: usize = 20;

/// A fault whose line is looked for.
#[derive(Drop)]
pub(crate) struct Found {
    /// Where it is.
    pub(crate) at: Spot,
    /// What is wrong.
    pub(crate) sentence: String,
    /// Where the first one is, of two that may not both be there.
    pub(crate) first: Option<Spot>,
}

/// What was found wrong with a file: the first faults, and how many there are.
#[derive(Drop)]
pub(crate) struct Finds {
    /// For what is written.
    pub(crate) alloc: Global,
    /// The first faults, `MOST` of them at most.
    pub(crate) kept: Vec<Found>,
    /// How many more there are.
    pub(crate) more: u64,
}

impl Finds {
    /// Nothing is wrong yet.
    pub(crate) fn new(alloc: Global) -> Finds {
        Finds {
            alloc,
            kept: Vec::new(alloc),
            more: 0,
        }
    }

    /// Whether the next fault is counted alone.
    pub(crate) fn is_full(&self) -> bool {
        MOST <= self.kept.len()
    }

    /// Counts a fault that is not told.
    pub(crate) fn count(&mut self) {
        self.more = self.more.saturating_add(1);
    }

    /// Puts a fault down.
    pub(crate) fn push(&mut self, way: Vec<Step>, sentence: String) -> Result<(), NoMemory> {
        self.put(Found {
            at: Spot::new(way),
            sentence,
            first: None,
        })
    }

    /// Puts the fault of a second one down, with the way to the first.
    pub(crate) fn push_second(
        &mut self,
        way: Vec<Step>,
        sentence: String,
        first: Vec<Step>,
    ) -> Result<(), NoMemory> {
        self.put(Found {
            at: Spot::new(way),
            sentence,
            first: Some(Spot::new(first)),
        })
    }

    fn put(&mut self, found: Found) -> Result<(), NoMemory> {
        if self.is_full() {
            self.count();
        } else {
            self.kept.push(found)?;
        }
        Ok(())
    }
}
