//! The answers to asks, of how their requests ended.

ghost use Rattle.std.specs.Prelude.{◌≡◌, [], map, IfNone, IfOk, IfSome, OnOk};
ghost use Rattle.rld_current.specs.Asking.{
  AreAnswers,
  answers_told,
  outcome_noted,
  replies_after,
  reply_if,
  told_in,
};

use crate::ask_watch::Noted;
use rld_ask::Answer;
use rld_turn::{End, PeerDatagram};
use rsl_wire::{NoMemory, Octets};
use std::alloc::Global;
use std::collections::VecDeque;

/// The answers to asks whose requests ended so, with these replies; none where one of them was lost or memory is
/// refused.
pub(crate) fn answers_or_none(
    alloc: Global,
    noted: &[Noted],
    replies: Option<VecDeque<PeerDatagram>>,
) -> Vec<Answer>
    ensures lost { IfNone replies (result.items ≡ []) }
    ensures kept { IfSome replies (λ replies. AreAnswers noted.now replies.items result.items) }
{
    let Some(replies) = replies else {
        return Vec::new(alloc);
    };
    match answers_of(alloc, noted, replies) {
        Ok(answers) => answers,
        Err(_) => Vec::new(alloc),
    }
}

/// The answers to asks whose requests ended so, with these replies.
fn answers_of(
    alloc: Global,
    noted: &[Noted],
    replies: VecDeque<PeerDatagram>,
) -> Result<Vec<Answer>, NoMemory>
    ensures { IfOk result (λ answers. map told_in answers.items ≡ answers_told noted.now replies.items) }
{
    let mut answers = Vec::with_capacity(alloc, noted.len())?;
    let mut replies = replies;
    for one in noted {
        answers.push(answer_of(alloc, one, &mut replies)?)?;
    }
    Ok(answers)
}

/// The answer to an ask whose request ended so: with the next reply, if it was answered. One that could not be
/// sent is passed over.
fn answer_of(
    alloc: Global,
    one: &Noted,
    replies: &mut VecDeque<PeerDatagram>,
) -> Result<Answer, NoMemory>
    ensures outcome { IfOk result (λ answer. answer.outcome ≡ outcome_noted one.now) }
    ensures reply { IfOk result (λ answer. answer.reply ≡ reply_if one.now.end replies.old.items) }
    ensures rest { OnOk result (replies.new.items ≡ replies_after one.now.end replies.old.items) }
{
    let sent = match one.end() {
        End::Answered(_) => replies.pop_front(),
        End::Unsent(_) => {
            drop(replies.pop_front());
            None
        }
        End::Dropped(_) | End::Refused | End::Unrecorded => None,
    };
    let reply = match sent {
        Some(sent) => sent.octets,
        None => Octets::from_slice(alloc, &[])?,
    };
    Ok(Answer {
        outcome: one.outcome(),
        reply,
    })
}
