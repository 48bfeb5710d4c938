//! Replaying a script: the packets and steps of its event lines, and what is printed of the
//! answers. `rsl_script` has the script's grammar; `specs/Access.antt`, `specs/Accounting.antt` and
//! `specs/Steps.antt` have the packets and steps, `specs/Lines.antt` and `specs/Report.antt` what
//! is printed. It promises:
//! - What is written is, for each event line, what `run` of `rsl_steps` answers, then a report of
//!   what each account holds, and nothing else (`replay`: `replayed`; `specs/Replay.antt`).
//! - A fault of the script is the first (`replay`: `fault`), and after every fault but
//!   `InputOutput` nothing was written (`replay`: `silent`).
//!
//! `replayed` and `fault` speak of readers and writers whose contents are known, as those over
//! memory, and not of standard input and output. By tests alone: the texts of the faults, and that
//! none comes of a read, a write or a growth that did not fail. What the scripts of `test_scripts`
//! and `examples/` print was also worked out by a model in Python, from the sentences of the rule
//! and the RFCs.
#![tactic(auto)]

mod access;
mod accounting;
mod fault;
mod lines;
mod output;
mod rows;
mod steps;
mod word;

pub use fault::ReplayFault;
pub use lines::lines_of;
pub use output::replay;
pub use steps::steps_of;
