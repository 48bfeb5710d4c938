use crate::step::{Step, begins};

/// A place of a file that is looked for in its text: the line of the longest part of the way that the text
/// names.
#[derive(Drop)]
pub(crate) struct Spot {
    way: Vec<Step>,
    steps: usize,
    line: Option<u64>,
}

impl Spot {
    /// The place at the end of a way, which is not found yet.
    pub(crate) fn new(way: Vec<Step>) -> Spot {
        Spot {
            way,
            steps: 0,
            line: None,
        }
    }

    /// The line on which the text names it, from 1. `None`: it names no step of the way.
    pub(crate) fn line(&self) -> Option<u64> {
        self.line
    }

    /// Takes note that the text names these steps on this line.
    pub(crate) fn note(&mut self, steps: &[Step], line: u64) {
        if self.steps < steps.len() && begins(self.way.as_slice(), steps) {
            self.steps = steps.len();
            self.line = Some(line);
        }
    }
}
