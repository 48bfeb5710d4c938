use rsl_wire::NoMemory;
use std::alloc::Global;

/// A step of the way from the head of a file to a value.
#[derive(Drop)]
pub(crate) enum Step {
    /// To what stands under a key of a table.
    Key(String),
    /// To the item of a list with this index, from 0.
    Item(usize),
}

impl Step {
    /// The step under a key.
    pub(crate) fn key(alloc: Global, name: &str) -> Result<Step, NoMemory> {
        Ok(Step::Key(String::from_str(alloc, name)?))
    }

    /// Whether both are one step.
    fn is_same(&self, other: &Step) -> bool {
        match (self, other) {
            (Step::Key(one), Step::Key(other)) => one.as_str() == other.as_str(),
            (Step::Item(one), Step::Item(other)) => *one == *other,
            _ => false,
        }
    }
}

/// Whether a way begins with these steps.
pub(crate) fn begins(way: &[Step], steps: &[Step]) -> bool {
    let mut rest = way;
    for step in steps {
        let [first, others @ ..] = rest else {
            return false;
        };
        if !first.is_same(step) {
            return false;
        }
        rest = others;
    }
    true
}
