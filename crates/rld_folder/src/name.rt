ghost use Rattle.std.specs.Prelude.{◌≡◌, ℕ, List, ◌<◌, ◌^◌, ◌++◌, IfOk, IfSome, Some, None, codes, string_bytes, MatchOption};
ghost use Rattle.std.specs.Fmt.{decimal};
ghost use Rattle.rld_folder.specs.Names.{IsGeneration, IsName, name_of, word_of};
ghost use Rattle.rld_folder.specs.declared.name.FileName.{FileName as OneName};
ghost use Rattle.rld_folder.specs.declared.name.Generation.{Generation as OneGeneration};

use std::alloc::{AllocError, Global};
use std::fmt;

/// A generation, by the name of its log.
#[derive(Clone, Copy, Debug)]
pub enum Generation {
    /// `log-3-17`: of a version before 0.4, which counted the generations of each era.
    Former {
        /// The number of the era, from 0.
        era: u64,
        /// The number of the generation within its era, from 0.
        number: u64,
    },
    /// `log-17`: by its number, from 1.
    Numbered(u64),
}

/// What a file of a folder is for.
#[derive(Clone, Copy, Debug)]
pub enum FileName {
    /// `lock`: the running server holds it.
    Lock,
    /// `era-3`: the table of an era, of a version before 0.4.
    FormerTable(u64),
    /// `log-17`, or `log-3-17`: the log of a generation.
    Log(Generation),
}

impl fmt::Display for FileName {
    ghost use Rattle.std.specs.Prelude.{Some};
    ghost use Rattle.rld_folder.specs.Names.{name_of};

    ghost output = { λ file. Some (name_of file) };

    /// Writes the name of the file.
    fn fmt<W: fmt::Write>(&self, f: &mut fmt::Formatter<W>) -> fmt::Result {
        match self {
            FileName::Lock => f.write_str("lock"),
            FileName::FormerTable(era) => write!(f, "era-{era}"),
            FileName::Log(Generation::Former { era, number }) => write!(f, "log-{era}-{number}"),
            FileName::Log(Generation::Numbered(number)) => write!(f, "log-{number}"),
        }
    }
}

/// The number of a word, if it is the number's own text. A similar word, such as `07` or `+7`, may
/// give a number too.
fn number_of(word: &str) -> Option<u64>
    ensures { (number : ℕ) → number < 2 ^ 64 → word.now ≡ decimal number → result ≡ Some number }
{
    word.parse().ok()
}

/// The number after the beginning of a name.
fn number_after(name: &str, beginning: &str) -> Option<u64>
    ensures only { (number : ℕ) → number < 2 ^ 64 → name.now ≡ beginning.now ++ decimal number →
        result ≡ Some number }
    ensures begins { IfSome result (λ _. (rest : List ℕ) × (name.now ≡ beginning.now ++ rest)) }
{
    number_of(name.strip_prefix(beginning)?)
}

/// The words of two numbers, or `None` where there is but one.
fn words_of(word: &str) -> Option<(&str, &str)>
    ensures two { (era number : ℕ) → era < 2 ^ 64 →
        word.now ≡ decimal era ++ (codes "-" ++ decimal number) →
        MatchOption result ⊥ (λ words. (words.0.now ≡ decimal era) × (words.1.now ≡ decimal number)) }
    ensures one { (number : ℕ) → number < 2 ^ 64 → word.now ≡ decimal number → result ≡ None }
{
    word.split_once('-')
}

/// The generation of a word of two numbers, or of one.
fn generation_of(word: &str) -> Option<Generation>
    ensures { (generation : OneGeneration) → IsGeneration generation →
        word.now ≡ word_of generation → result ≡ Some generation }
{
    match words_of(word) {
        Some((era, number)) => Some(Generation::Former {
            era: number_of(era)?,
            number: number_of(number)?,
        }),
        None => Some(Generation::Numbered(number_of(word)?)),
    }
}

/// The generation after `log-`.
fn generation_after(name: &str) -> Option<Generation>
    ensures { (generation : OneGeneration) → IsGeneration generation →
        name.now ≡ codes "log-" ++ word_of generation → result ≡ Some generation }
{
    generation_of(name.strip_prefix("log-")?)
}

impl FileName {
    /// The name of the file.
    pub fn text(self, alloc: Global) -> Result<String, AllocError>
        ensures { IfOk result (λ text. string_bytes text ≡ name_of self) }
    {
        format!(in alloc; "{self}")
    }

    /// The only file that may have this name.
    fn guess(name: &str) -> Option<FileName>
        ensures { (file : OneName) → IsName file → name.now ≡ name_of file → result ≡ Some file }
    {
        if name == "lock" {
            return Some(FileName::Lock);
        }
        if let Some(era) = number_after(name, "era-") {
            return Some(FileName::FormerTable(era));
        }
        Some(FileName::Log(generation_after(name)?))
    }

    /// The file with this name, or `None` if no file of a server has it.
    pub fn read(alloc: Global, name: &str) -> Result<Option<FileName>, AllocError>
        ensures found { IfOk result (λ read. IfSome read (λ file. name.now ≡ name_of file)) }
        ensures only { (file : OneName) → IsName file → name.now ≡ name_of file →
            IfOk result (λ read. read ≡ Some file) }
    {
        let Some(file) = FileName::guess(name) else {
            return Ok(None);
        };
        if file.text(alloc)?.as_str() == name {
            Ok(Some(file))
        } else {
            Ok(None)
        }
    }
}
