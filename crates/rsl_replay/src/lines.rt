ghost use Rattle.std.specs.Prelude.{
  ◌≡◌,
  ◌++◌,
  IfOk,
  OnOk,
  length,
  option_copied,
  string_bytes,
  sum_by,
};
ghost use Rattle.std.specs.List.{list_any};
ghost use Rattle.rsl_replay.specs.Lines.{answer_word, is_refused, line_text, printed_lines, word_of};
ghost use Rattle.rsl_replay.specs.Steps.{step_count};

use crate::steps::step_count;
use crate::word::Word;
use rsl_accounts::Config;
use rsl_script::{EventLine, Happening};
use rsl_steps::Answer;
use std::alloc::{AllocError, Global};

/// The text printed for event lines, given the answers to their steps in order: for each line its
/// number, counted from 1, a space, its word and a line feed. It fails only if memory is refused.
pub fn lines_of(
    alloc: Global,
    config: &Config,
    lines: &[EventLine],
    answers: &[Answer],
) -> Result<String, AllocError>
    requires { length answers.now ≡ sum_by (step_count config.now) lines.now }
    ensures { IfOk result (λ text.
        string_bytes text ≡ printed_lines config.now lines.now answers.now) }
{
    let mut text = String::new(alloc);
    let mut rest = answers;
    for (index, line) in lines.iter().enumerate() {
        let (own, others) = rest.split_at(step_count(config, line));
        write_line(&mut text, index as u64 + 1, word_of(&line.happening, own))?;
        rest = others;
    }
    Ok(text)
}

/// Writes a line with a number and a word.
fn write_line(text: &mut String, number: u64, word: Word) -> Result<(), AllocError>
    ensures { OnOk result (string_bytes text.new ≡ string_bytes text.old ++ line_text number word) }
{
    writeln!(text, "{number} {word}")
}

/// The word of a line, from the answers to its steps.
fn word_of(happening: &Happening, answers: &[Answer]) -> Word
    ensures { result ≡ word_of happening.now answers.now }
{
    if is_any_refused(answers) {
        return Word::Refused;
    }
    match happening {
        Happening::Tick => Word::Tick,
        _ => answer_word(answers.last()),
    }
}

/// Whether any step was refused.
fn is_any_refused(answers: &[Answer]) -> bool
    ensures { result ≡ list_any is_refused answers.now }
{
    answers
        .iter()
        .any(|answer| matches!(answer, Answer::Refused))
}

/// The word of the last answer of a line.
fn answer_word(last: Option<&Answer>) -> Word
    ensures { result ≡ answer_word (option_copied last.entry) }
{
    match last {
        Some(Answer::Reply(said, _)) => Word::Said(*said),
        Some(Answer::Dropped(dropped)) => Word::Dropped(*dropped),
        Some(Answer::Refused) => Word::Refused,
        Some(Answer::Quiet) | None => Word::Tick,
    }
}
