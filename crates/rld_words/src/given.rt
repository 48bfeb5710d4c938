//! The words of a command, whose flags may stand in any order, before and after the others.

ghost use Rattle.std.specs.Prelude.{◌≡◌, ◌⊎◌, false, true, find, map, string_bytes, IfErr, IfOk, None, Some, option_map};
ghost use Rattle.std.specs.List.{list_any};
ghost use Rattle.rld_words.specs.Flags.{is_same};
ghost use Rattle.rld_words.specs.Given.{given_of, has, seen, value_of, with_word};
ghost use Rattle.rld_words.specs.declared.fault.WordsFault.TheVariants.{NoMemory as no_memory};

use crate::command::Misuse;
use crate::fault::WordsFault;
use crate::flag::Flag;
use crate::topic::Topic;
use rsl_wire::NoMemory;
use std::alloc::Global;

/// A flag that is given.
#[derive(Clone, Copy)]
struct Used<'a> {
    flag: Flag,
    /// The word after it; none of a flag that has no value.
    value: &'a str,
}

/// The words after the name of a command: its flags, each once, and the others in their order.
#[derive(Drop)]
pub struct Given<'a> {
    used: Vec<Used<'a>>,
    plain: Vec<&'a str>,
    /// The flag whose value is the next word.
    due: Option<Flag>,
}

impl<'a> Given<'a> {
    /// What is given by these words after the name of a command. A word that is no flag of the command is one of
    /// the others, whatever it begins with. `Misuse` comes for a flag that is there twice, or without its value.
    pub fn of_words(
        alloc: Global,
        topic: Topic,
        words: &'a [String],
    ) -> Result<Given<'a>, WordsFault>
        ensures ok { IfOk result (λ given. given_of topic (map string_bytes words.now) ≡ Some (seen given)) }
        ensures fault { IfErr result (λ fault. (fault ≡ no_memory)
            ⊎ (given_of topic (map string_bytes words.now) ≡ None)) }
    {
        let mut given = Given {
            used: Vec::new(alloc),
            plain: Vec::new(alloc),
            due: None,
        };
        for word in words {
            if !given.take(topic, word.as_str())? {
                return Err(WordsFault::Misuse(Misuse::Unreadable(topic)));
            }
        }
        match given.due {
            None => Ok(given),
            Some(_) => Err(WordsFault::Misuse(Misuse::Unreadable(topic))),
        }
    }

    /// Takes the next word, and gives whether it may stand there: a flag may not that is there already.
    fn take(&mut self, topic: Topic, word: &'a str) -> Result<bool, NoMemory>
        ensures taken { IfOk result (λ may. may ≡ true →
            with_word topic (seen self.old) word.now ≡ Some (seen self.new)) }
        ensures refused { IfOk result (λ may. may ≡ false → with_word topic (seen self.old) word.now ≡ None) }
    {
        if let Some(flag) = self.due {
            self.used.push(Used { flag, value: word })?;
            self.due = None;
            return Ok(true);
        }
        let Some(flag) = Flag::of_word(topic, word) else {
            self.plain.push(word)?;
            return Ok(true);
        };
        if self.has(flag) {
            return Ok(false);
        }
        if flag.has_value() {
            self.due = Some(flag);
        } else {
            self.used.push(Used { flag, value: "" })?;
        }
        Ok(true)
    }

    /// Whether a flag is given.
    #[tactic(auto, using(crate::proofs::Seen::has_seen))]
    pub fn has(&self, flag: Flag) -> bool
        ensures { result ≡ has (seen self.now) flag }
    {
        is_among(self.used.as_slice(), flag)
    }

    /// The value of a flag, if it is given.
    pub fn value(&self, flag: Flag) -> Option<&'a str>
        ensures { option_map (λ word. word.now) result ≡ value_of (seen self.now) flag }
    {
        value_among(self.used.as_slice(), flag)
    }

    /// The other words.
    pub fn plain(&self) -> &[&'a str]
        ensures { map (λ word. word.now) result.now ≡ (seen self.now).plain }
    {
        self.plain.as_slice()
    }

    /// The last of the other words, which names the server's file, and those before it. `Words` comes where there
    /// is none, or where it begins as a flag does.
    pub fn file(&self, topic: Topic) -> Result<(&'a str, &[&'a str]), Misuse> {
        match self.plain.as_slice().split_last() {
            Some((name, words)) if !name.starts_with("--") => Ok((*name, words)),
            _ => Err(Misuse::Words(topic)),
        }
    }
}

/// Whether a flag is among those that are given.
fn is_among(used: &[Used<'_>], flag: Flag) -> bool
    ensures { result ≡ list_any (λ (one : Used). is_same one.flag flag) used.now }
{
    used.iter().any(|one| one.flag.is(flag))
}

/// The value of a flag among those that are given.
fn value_among<'a>(used: &[Used<'a>], flag: Flag) -> Option<&'a str>
    ensures { result ≡
        option_map (λ (one : Used). one.value) (find (λ (one : Used). is_same one.flag flag) used.now) }
{
    used.iter()
        .find(|one| one.flag.is(flag))
        .map(|one| one.value)
}
