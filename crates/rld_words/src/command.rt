ghost use Rattle.std.specs.Prelude.{◌≡◌, map, string_bytes};
ghost use Rattle.rld_words.specs.Arguments.{
  about,
  asks_for_help,
  command_of,
  help_on,
  is_flag,
  is_help,
  is_version,
  to_do,
  version_of,
};

use crate::topic::Topic;
use std::fmt;

/// A request to the program.
#[derive(Clone, Copy, Debug)]
pub enum Command {
    /// Do this, with the words after its name.
    Do(Topic),
    /// Print the usage of this, what it prints, and its exit statuses.
    HelpOn(Topic),
    /// Print the commands.
    Help,
    /// Print the usage of `version`, and its exit statuses.
    HelpOnVersion,
    /// Print the version.
    Version,
}

/// What is wrong with the arguments.
#[derive(Clone, Copy, Debug)]
pub enum Misuse {
    /// One is not UTF-8.
    NotUtf8,
    /// There is no argument.
    NoCommand,
    /// No command has this name.
    UnknownCommand,
    /// It has too many or too few words.
    Words(Topic),
    /// The words of `free` or `disconnect` name no session, that of `sessions` no account, or a flag is unknown,
    /// there twice, or without its value.
    Unreadable(Topic),
}

impl fmt::Display for Misuse {
    /// Writes what is wrong, and the usage of the command.
    fn fmt<W: fmt::Write>(&self, f: &mut fmt::Formatter<W>) -> fmt::Result {
        match self {
            Misuse::NotUtf8 => f.write_str("an argument is not UTF-8"),
            Misuse::NoCommand => {
                f.write_str("usage: radlimitd COMMAND ..; `radlimitd help` has the commands")
            }
            Misuse::UnknownCommand => {
                f.write_str("no such command; `radlimitd help` has the commands")
            }
            Misuse::Words(topic) => write!(f, "usage: {topic}"),
            Misuse::Unreadable(topic) => write!(f, "usage: {topic}{}", topic.form()),
        }
    }
}

impl Command {
    /// The request of the words after the name of the program.
    pub fn of_words(words: &[String]) -> Result<Command, Misuse>
        ensures { result ≡ command_of (map string_bytes words.now) }
    {
        let [word, rest @ ..] = words else {
            return Err(Misuse::NoCommand);
        };
        let word = word.as_str();
        if is_help(word) {
            return Command::help_on(rest);
        }
        if is_version(word) {
            return Command::version_of(rest);
        }
        Command::about(word, rest)
    }

    /// The request of a word for the version, with others after it: the version, or help on that.
    fn version_of(words: &[String]) -> Result<Command, Misuse>
        ensures { result ≡ version_of (map string_bytes words.now) }
    {
        if words.is_empty() {
            Ok(Command::Version)
        } else if asks_for_help(words) {
            Ok(Command::HelpOnVersion)
        } else {
            Err(Misuse::UnknownCommand)
        }
    }

    /// The request of a word for help, with others after it: help on the next command, or on all.
    fn help_on(words: &[String]) -> Result<Command, Misuse>
        ensures { result ≡ help_on (map string_bytes words.now) }
    {
        let [word, ..] = words else {
            return Ok(Command::Help);
        };
        let word = word.as_str();
        if is_help(word) {
            return Ok(Command::Help);
        }
        if is_version(word) {
            return Ok(Command::HelpOnVersion);
        }
        match Topic::of_word(word) {
            Some(topic) => Ok(Command::HelpOn(topic)),
            None => Err(Misuse::UnknownCommand),
        }
    }

    /// The request of the name of a command, with others after it.
    fn about(word: &str, words: &[String]) -> Result<Command, Misuse>
        ensures { result ≡ about word.now (map string_bytes words.now) }
    {
        match Topic::of_word(word) {
            Some(topic) => Command::to_do(topic, words),
            None => Err(Misuse::UnknownCommand),
        }
    }

    /// The request of a command, with the words after its name, or for help on it.
    fn to_do(topic: Topic, words: &[String]) -> Result<Command, Misuse>
        ensures { result ≡ to_do topic (map string_bytes words.now) }
    {
        if asks_for_help(words) {
            Ok(Command::HelpOn(topic))
        } else if topic.takes(words.len()) {
            Ok(Command::Do(topic))
        } else {
            Err(Misuse::Words(topic))
        }
    }
}

/// Whether the only word after the name of a command asks for help on it.
fn asks_for_help(words: &[String]) -> bool
    ensures { result ≡ asks_for_help (map string_bytes words.now) }
{
    match words {
        [] => false,
        [word] => is_flag(word.as_str()),
        [_, _, ..] => false,
    }
}

/// Whether a word asks for help.
fn is_help(word: &str) -> bool
    ensures { result ≡ is_help word.now }
{
    word == "help" || is_flag(word)
}

/// Whether a word is the flag that asks for help.
fn is_flag(word: &str) -> bool
    ensures { result ≡ is_flag word.now }
{
    matches!(word, "--help" | "-h")
}

/// Whether a word asks for the version.
fn is_version(word: &str) -> bool
    ensures { result ≡ is_version word.now }
{
    matches!(word, "version" | "--version" | "-V")
}
