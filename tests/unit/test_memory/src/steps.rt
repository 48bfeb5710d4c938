//! A list of steps.

use crate::BOOT;
use crate::given::Given;
use crate::page::Page;
use crate::printed::{Hex, RowText, StoredText};
use crate::stop::Stop;
use rsl_accounts::Config;
use rsl_book::Book;
use rsl_shard::{Row, Shard};
use rsl_steps::{Answer, Ran, Step, run};
use std::alloc::Global;

/// Has `run` answer the steps of a script, and tells all that is seen of it. Where a step is refused,
/// the others have to be as without that step.
pub(crate) fn tell<R: Print>(page: &mut Page<R>, given: &Given) -> Result<(), Stop> {
    let (alloc, config) = (page.alloc, &*given.config);
    let ran = run(alloc, config, BOOT, &given.steps)?;
    if !ran.answers.contains(&Answer::Refused) {
        return tell_ran(page, config, &ran);
    }
    let taken = taken_of(alloc, given.again(alloc)?.steps, &ran.answers)?;
    let without = run(alloc, config, BOOT, &taken)?;
    page.note("run", is_without(config, &ran, &without))?;
    tell_ran(page, config, &run(alloc, config, BOOT, &given.steps)?)
}

/// The steps that were not refused.
fn taken_of(alloc: Global, steps: Vec<Step>, answers: &[Answer]) -> Result<Vec<Step>, Stop> {
    let mut taken = Vec::new(alloc);
    for (step, answer) in steps.into_iter().zip(answers) {
        if *answer != Answer::Refused {
            taken.push(step)?;
        }
    }
    Ok(taken)
}

/// Whether a run of which one step was refused is else as the run without that step: the answers, the
/// books and the numbers of lines.
fn is_without(config: &Config, ran: &Ran, without: &Ran) -> bool {
    let others = ran
        .answers
        .iter()
        .filter(|answer| **answer != Answer::Refused);
    ran.answers.len() == without.answers.len() + 1
        && others
            .zip(&without.answers)
            .all(|(one, other)| one == other)
        && are_same(config, &ran.shards, &without.shards)
}

/// Whether two runs have the same books, and as many lines in each shard.
fn are_same(config: &Config, first: &[Shard], second: &[Shard]) -> bool {
    for account in 0..config.accounts() {
        match (
            book_of(config, first, account),
            book_of(config, second, account),
        ) {
            (Some(one), Some(other)) if one.same(other) => (),
            _ => return false,
        }
    }
    let moves = first.iter().map(Shard::moves);
    first.len() == second.len() && moves.zip(second).all(|(one, other)| one == other.moves())
}

/// Tells each answer of a run, what each account's book shows and stores, and how many lines each
/// shard's journal has.
fn tell_ran<R: Print>(page: &mut Page<R>, config: &Config, ran: &Ran) -> Result<(), Stop> {
    for answer in &ran.answers {
        tell_answer(page, answer)?;
    }
    for account in 0..config.accounts() {
        if let Some(book) = book_of(config, &ran.shards, account) {
            let (row, stored, now) = (Row::of(account, book), book.stored(), book.now());
            writeln!(
                page.text,
                "{} {} now {now}",
                RowText(&row),
                StoredText(stored)
            )?;
        }
    }
    for shard in &ran.shards {
        writeln!(page.text, "{} lines", shard.moves())?;
    }
    Ok(())
}

/// Tells an answer.
fn tell_answer<R: Print>(page: &mut Page<R>, answer: &Answer) -> Result<(), Stop> {
    match answer {
        Answer::Reply(said, octets) => writeln!(page.text, "{said:?} {}", Hex(octets.as_slice()))?,
        Answer::Dropped(dropped) => writeln!(page.text, "drop {dropped}")?,
        Answer::Quiet => writeln!(page.text, "quiet")?,
        Answer::Refused => writeln!(page.text, "refused")?,
    }
    Ok(())
}

/// The book of an account.
fn book_of<'a>(config: &Config, shards: &'a [Shard], account: u32) -> Option<&'a Book> {
    shards.get(config.shard_of(account) as usize)?.book(account)
}
