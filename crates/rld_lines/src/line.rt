//! The line of a move.

ghost use Rattle.std.specs.Prelude.{◌≡◌, ◌++◌, ◌∷◌, [], OnOk, codes};
ghost use Rattle.std.specs.Fmt.{decimal};
ghost use Rattle.rld_lines.specs.Lines.{decision_text, line, moment_of, move_text};
ghost use Rattle.rld_values.specs.Values.{escaped};
ghost use Rattle.rld_spelling.specs.Moves.{MoveFits};
ghost use Rattle.rld_store.specs.Generations.{counts_of};

use crate::words::push_move;
use rld_values::{push_decimal, push_escaped};
use rsl_accounts::Config;
use rsl_event::Decision;
use rsl_shard::Move;
use std::alloc::AllocError;

/// The moment of a move.
fn moment_of(moved: &Move) -> u64
    ensures { result ≡ moment_of moved.now }
{
    match moved {
        Move::Own { event, .. } => event.moment,
        Move::Sweep { moment, .. } | Move::Tick { moment } | Move::Stray { moment, .. } => *moment,
    }
}

/// Writes the start of a line: the file, the move's number, its moment, and the move.
pub(crate) fn push_front(
    out: &mut Vec<u8>,
    file: &str,
    config: &Config,
    number: u64,
    moved: &Move,
) -> Result<(), AllocError>
    requires { MoveFits (counts_of config.now) moved.now }
    ensures { OnOk result (out.new.items ≡ out.old.items ++ (escaped file.now ++ (32 ∷ (decimal number
        ++ (32 ∷ (decimal (moment_of moved.now) ++ (32 ∷ move_text config.now moved.now))))))) }
{
    push_escaped(out, file.as_bytes())?;
    out.push(32)?;
    push_decimal(out, number)?;
    out.push(32)?;
    push_decimal(out, moment_of(moved))?;
    out.push(32)?;
    push_move(out, config, moved)
}

/// Writes the end of a line: the decision.
pub(crate) fn push_end(out: &mut Vec<u8>, decision: Decision) -> Result<(), AllocError>
    ensures { OnOk result (out.new.items ≡ out.old.items
        ++ (codes " -> " ++ (decision_text decision ++ 10 ∷ []))) }
{
    out.extend_from_slice(b" -> ")?;
    match decision {
        Decision::Accept(number) => {
            out.extend_from_slice(b"accept ")?;
            push_decimal(out, number)?;
        }
        Decision::LimitReject => out.extend_from_slice(b"reject limit")?,
        Decision::Done => out.extend_from_slice(b"done")?,
    }
    out.push(10)?;
    Ok(())
}
