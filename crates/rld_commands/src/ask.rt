ghost use Rattle.std.specs.Prelude.{◌≡◌, ◌≢◌, ◌<◌, ◌^◌, ◌++◌, ◌⊎◌, ℕ, IfErr, IfOk, None, Some, map, ok_or, string_bytes};
ghost use Rattle.std.specs.Fmt.{decimal};
ghost use Rattle.rld_commands.specs.Asking.{IsDoneWith, IsLate, IsRefusal, IsSentAs, IsSilent, IsWhyNot, flag_text, flags_text, words_text};
ghost use Rattle.rld_control.specs.Command.{command_of};
ghost use Rattle.rld_words.specs.Given.{seen, value_of};
ghost use Rattle.rld_words.specs.Waits.{patience_in as patience_of_secs, patience_of};
ghost use Rattle.rld_commands.specs.declared.fault.Fault.TheVariants.{NoMemory as no_memory, Usage as usage};

use crate::answer::Answer;
use crate::fault::Fault;
use crate::files::paths_of;
use crate::outcome::Outcome;
use crate::output::say;
use form_urlencoded::Serializer;
use rld_config::Paths;
use rld_control::{Command, Reply};
use rld_words::{Flag, Given, Misuse, Patience, Topic};
use std::alloc::{AllocError, Global};
use std::fs::Files;
use std::io::{self, ErrorKind, IsTerminal, Write};
use std::net::Net;
use std::os::unix::net::UnixStream;
use std::path::PathBuf;
use std::time::Clock;

/// Sends a command as a line to the running server of the file that the last word names, and writes the lines of
/// its answer. `--timeout` and its seconds are not sent.
///
/// `Usage` comes if the words are no such command, before anything is read. `Silent` comes if no server
/// answers in full on the control socket of the file, `Late` if it takes longer than it may,
/// `NotHeld` if what is to be freed or disconnected is not held, `Unanswered` if an access server has not
/// answered it, and `Refused` with the server's reason; `NotReady` comes in place of these for `ready`. On
/// `stderr` is said that the server works on it, if it is a terminal.
pub(crate) fn ask<R: Files + Net + Clock, W: Write, S: Write + IsTerminal>(
    rt: &R,
    alloc: Global,
    topic: Topic,
    given: &Given<'_>,
    writer: &mut W,
    stderr: &mut S,
) -> Result<(), Fault> {
    let (name, words) = given.file(topic)?;
    let patience = patience_in(topic, given)?;
    let line = match topic {
        Topic::Ask => ask_line(alloc, words)?,
        _ => line_of(alloc, topic, given, words)?,
    };
    check_line(alloc, line.as_str(), topic)?;
    let control = control_of(rt, alloc, name)?;
    let asked = Asked {
        topic,
        path: control.as_str(),
        patience,
    };
    let lines = asked.lines(rt, alloc, line.as_str(), stderr)?;
    say(writer, lines.as_slice())
}

/// Checks that a line is a command to the server. `Usage` comes if it is not.
pub(crate) fn check_line(alloc: Global, line: &str, topic: Topic) -> Result<(), Fault>
    ensures command { IfOk result (λ _. command_of line.now ≢ None) }
    ensures fault { IfErr result (λ fault. (fault ≡ no_memory)
        ⊎ ((fault ≡ usage (Misuse.Unreadable topic)) × (command_of line.now ≡ None))) }
{
    match Command::read(alloc, line.as_bytes())? {
        Some(_) => Ok(()),
        None => Err(Fault::Usage(Misuse::Unreadable(topic))),
    }
}

/// The path of the control socket of the server's file of this name.
pub(crate) fn control_of<F: Files>(files: &F, alloc: Global, name: &str) -> Result<PathBuf, Fault> {
    let Paths { control, .. } = paths_of(files, alloc, name)?;
    Ok(control)
}

/// How long the answer to a command is waited for, of which this is given. `Usage` comes where `--timeout` has no
/// number of seconds.
pub(crate) fn patience_in(topic: Topic, given: &Given<'_>) -> Result<Patience, Fault>
    ensures none { value_of (seen given.now) Flag.Timeout ≡ None → result ≡ Ok (patience_of topic) }
    ensures some { (secs : ℕ) → secs < 2 ^ 32 → value_of (seen given.now) Flag.Timeout ≡ Some (decimal secs) →
        result ≡ ok_or (patience_of_secs secs) (usage (Misuse.Unreadable topic)) }
{
    match given.value(Flag::Timeout) {
        Some(word) => match Patience::of_word(word) {
            Some(patience) => Ok(patience),
            None => Err(Fault::Usage(Misuse::Unreadable(topic))),
        },
        None => Ok(Patience::of(topic)),
    }
}

/// A running server that is asked on its control socket.
#[derive(Clone, Copy)]
pub(crate) struct Asked<'a> {
    /// What it is asked for.
    pub(crate) topic: Topic,
    /// The path of the socket.
    pub(crate) path: &'a str,
    /// How long each answer is waited for.
    pub(crate) patience: Patience,
}

impl Asked<'_> {
    /// The lines that it answers to a line. `Silent` comes if it does not answer in full, `Late` if it
    /// takes longer than it may, `NotHeld` if what is to be freed or disconnected is not held, `Unanswered` if an
    /// access server has not answered it, and `Refused` with its reason; `NotReady` comes in place of these for
    /// `ready`.
    pub(crate) fn lines<R: Net + Clock, S: Write + IsTerminal>(
        &self,
        rt: &R,
        alloc: Global,
        line: &str,
        stderr: &mut S,
    ) -> Result<Vec<u8>, Fault> {
        let octets = self.answer(rt, alloc, line, stderr)?;
        self.lines_of(alloc, octets)
    }

    /// The lines of an answer, or why there are none.
    fn lines_of(&self, alloc: Global, octets: Vec<u8>) -> Result<Vec<u8>, Fault>
        ensures done { IfOk result (λ lines. IsDoneWith self.now.topic octets.items lines.items) }
        ensures fault { IfErr result (IsWhyNot self.now.topic self.now.path.now octets.items) }
    {
        let mut octets = octets;
        let len = match Outcome::of(self.topic, Reply::of(octets.as_slice())) {
            Outcome::Done(lines) => lines.len(),
            Outcome::NotHeld => return Err(Fault::NotHeld),
            Outcome::Unanswered => return Err(Fault::Unanswered),
            Outcome::Refused(text) => {
                return Err(self.refused(String::from_utf8_lossy(alloc, text)?));
            }
            Outcome::Broken => return Err(self.silent(alloc)?),
        };
        octets.truncate(len);
        Ok(octets)
    }

    /// The whole answer to a line, or why there is none.
    fn answer<R: Net + Clock, S: Write + IsTerminal>(
        &self,
        rt: &R,
        alloc: Global,
        line: &str,
        stderr: &mut S,
    ) -> Result<Vec<u8>, Fault> {
        match self.answer_to(rt, alloc, line, stderr) {
            Ok(octets) => Ok(octets),
            Err(error) if error.kind() == ErrorKind::OutOfMemory => Err(Fault::NoMemory),
            Err(error) if error.kind() == ErrorKind::WouldBlock => Err(self.late(alloc)?),
            Err(_) => Err(self.silent(alloc)?),
        }
    }

    /// Sends the line, and reads the whole answer. The error is the system's, or `WouldBlock` if the
    /// patience is over.
    fn answer_to<R: Net + Clock, S: Write + IsTerminal>(
        &self,
        rt: &R,
        alloc: Global,
        line: &str,
        stderr: &mut S,
    ) -> io::Result<Vec<u8>> {
        let stream = UnixStream::connect(rt, self.path)?;
        let mut to = &stream;
        to.write_all(line.as_bytes())?;
        to.write_all(b"\n")?;
        let terminal = if stderr.is_terminal() {
            Some(stderr)
        } else {
            None
        };
        let mut octets = Vec::new(alloc);
        Answer::begun(rt, &stream, self.patience, terminal)?.whole(&mut octets)?;
        Ok(octets)
    }

    /// The fault of a server that does not do it, for this reason.
    fn refused(&self, why: String) -> Fault
        ensures { IsRefusal self.now.topic (string_bytes why) result }
    {
        match self.topic {
            Topic::Ready => Fault::NotReady(why),
            _ => Fault::Refused(why),
        }
    }

    /// The fault of a control socket at which no server answers.
    pub(crate) fn silent(&self, alloc: Global) -> Result<Fault, Fault>
        ensures silent { IfOk result (IsSilent self.now.topic self.now.path.now) }
        ensures fault { IfErr result (λ fault. fault ≡ no_memory) }
    {
        Ok(match self.topic {
            Topic::Ready => Fault::NotReady(format!(in alloc; "{}: no server answers", self.path)?),
            _ => Fault::Silent(String::from_str(alloc, self.path)?),
        })
    }

    /// The fault of an answer that has not come in time: no server answers, unless the words said
    /// the time.
    fn late(&self, alloc: Global) -> Result<Fault, Fault>
        ensures late { IfOk result (IsLate self.now.topic self.now.patience self.now.path.now) }
        ensures fault { IfErr result (λ fault. fault ≡ no_memory) }
    {
        match self.patience {
            Patience::Seconds(secs) if Patience::of(self.topic).takes_timeout() => Ok(Fault::Late(
                String::from_str(alloc, self.path)?,
                secs,
            )),
            _ => self.silent(alloc),
        }
    }
}

/// A command as one line, without its line feed: its name, the flags that are sent, and its words.
fn line_of(alloc: Global, topic: Topic, given: &Given<'_>, words: &[&str]) -> Result<String, Fault>
    ensures line { IfOk result (λ line.
        IsSentAs topic (seen given.now) (map (λ word. word.now) words.now) (string_bytes line)) }
    ensures fault { IfErr result (λ fault. fault ≡ no_memory) }
{
    let mut line = String::from_str(alloc, topic.word())?;
    push_flags(&mut line, given)?;
    push_words(&mut line, words)?;
    Ok(line)
}

/// Adds the flags that a running server is sent.
fn push_flags(line: &mut String, given: &Given<'_>) -> Result<(), AllocError>
    ensures { IfOk result (λ _. string_bytes line.new
        ≡ string_bytes line.old ++ flags_text (seen given.now)) }
{
    push_flag(line, given, Flag::Json, " --json")?;
    push_flag(line, given, Flag::Held, " --held")?;
    push_flag(line, given, Flag::Full, " --full")
}

/// Adds the word of a flag, if it is given.
fn push_flag(line: &mut String, given: &Given<'_>, flag: Flag, word: &str) -> Result<(), AllocError>
    ensures { IfOk result (λ _. string_bytes line.new
        ≡ string_bytes line.old ++ flag_text (seen given.now) flag word.now) }
{
    if given.has(flag) {
        line.push_str(word)?;
    }
    Ok(())
}

/// Adds words, each after a space.
#[tactic(auto, using(crate::proofs::Words::word_steps))]
fn push_words(line: &mut String, words: &[&str]) -> Result<(), AllocError>
    ensures { IfOk result (λ _. string_bytes line.new
        ≡ string_bytes line.old ++ words_text (map (λ word. word.now) words.now)) }
{
    for word in words {
        line.push_str(" ")?;
        line.push_str(word)?;
    }
    Ok(())
}

/// The line of an ask: the first word is the account's name, and each other one a field of the form, `=` and its
/// value.
fn ask_line(alloc: Global, words: &[&str]) -> Result<String, Fault> {
    let [name, fields @ ..] = words else {
        return Err(Fault::Usage(Misuse::Words(Topic::Ask)));
    };
    let mut form = Serializer::new(String::new(alloc));
    form.append_pair("name", name)?;
    for field in fields {
        let Some((field, value)) = field.split_once('=') else {
            return Err(Fault::Usage(Misuse::Unreadable(Topic::Ask)));
        };
        form.append_pair(field, value)?;
    }
    let form = form.finish();
    let command = Topic::Ask.word();
    Ok(format!(in alloc; "{command} {form}")?)
}
