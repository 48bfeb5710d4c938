ghost use Rattle.std.specs.Prelude.{◌≡◌, ◌≢◌, None, Some, Ok, Err, [], IfErr, IfOk, IsErrOf, OnOk};
ghost use Rattle.rsl_script.specs.Line.{line_of};
ghost use Rattle.rsl_script.specs.Script.{contents, contents_of, script_of};
ghost use Rattle.rsl_script.specs.Taking.{with_next_line, with_said, contents_with};

use crate::event_line::EventLine;
use crate::fault::{LineFault, ScriptFault};
use crate::line::ScriptLine;
use crate::verb::Setting;
use rsl_accounts::{Client, Entry, Settings};
use std::alloc::Global;

/// A script whose lines are all right.
#[derive(Drop)]
pub struct Script {
    /// The settings. The last `set` of each counts.
    pub settings: Settings,
    /// The clients, in the order of their lines.
    pub clients: Vec<Client>,
    /// The accounts, in the order of their lines. The times of their rules are 0, for the
    /// configuration to fill in; `live=N` and `grace=N` of a line are the account's own times. An
    /// account counts by stations if its line has the word `station`.
    pub accounts: Vec<Entry>,
    /// What happens, in the order of its lines.
    pub events: Vec<EventLine>,
}

impl Script {
    /// The script of a text: exactly what its lines say. `Line` comes exactly if a line is wrong,
    /// with the number of the first. `NoMemory` comes if memory is refused before that.
    pub fn read(alloc: Global, text: &[u8]) -> Result<Script, ScriptFault>
        ensures script { IfOk result (λ script. script_of text.now ≡ Ok (contents script)) }
        ensures line { IfErr result (λ fault.
            fault ≢ ScriptFault.NoMemory → script_of text.now ≡ Err fault) }
    {
        let mut script = Script::new(alloc);
        for (index, line) in text.split(|octet| *octet == b'\n').enumerate() {
            if let Err(fault) = script.read_line(alloc, line) {
                return Err(fault.at(index as u64 + 1));
            }
        }
        Ok(script)
    }

    /// The script of no lines, with the default settings.
    #[tactic(auto, unfolding(crate::specs::Script::contents_of))]
    fn new(alloc: Global) -> Script
        ensures { contents result ≡ contents_of [] }
    {
        Script {
            settings: Settings {
                version: 2,
                shards: 1,
                reserve: 60,
                live: 900,
                grace: 900,
                closed: 3600,
                keep: 10,
                interim: None,
                station: false,
                delay_time: true,
            },
            clients: Vec::new(alloc),
            accounts: Vec::new(alloc),
            events: Vec::new(alloc),
        }
    }

    /// Takes the next line of the text.
    #[tactic(auto, unfolding(crate::specs::Taking::with_said))]
    fn read_line(&mut self, alloc: Global, line: &[u8]) -> Result<(), LineFault>
        ensures taken { OnOk result (with_said (contents self.old) (line_of line.now) ≡
            Some (contents self.new)) }
        ensures wrong { IsErrOf result LineFault.Wrong →
            with_said (contents self.old) (line_of line.now) ≡ None }
    {
        self.take(ScriptLine::read(alloc, line)?)
    }

    /// Adds what a line says. A configuration line after an event line is wrong.
    fn take(&mut self, line: ScriptLine) -> Result<(), LineFault>
        ensures taken { OnOk result (with_next_line (contents self.old) line ≡
            Some (contents self.new)) }
        ensures wrong { IsErrOf result LineFault.Wrong →
            with_next_line (contents self.old) line ≡ None }
    {
        match line {
            ScriptLine::Silent => {}
            ScriptLine::Event(event) => self.events.push(event)?,
            _ if !self.events.is_empty() => return Err(LineFault::Wrong),
            ScriptLine::Set(setting, value) => self.set(setting, value),
            ScriptLine::Client(client) => self.clients.push(client)?,
            ScriptLine::Account(account) => self.accounts.push(account)?,
        }
        Ok(())
    }

    /// Gives a setting its value.
    fn set(&mut self, setting: Setting, value: u64)
        ensures { contents self.new ≡ contents_with (contents self.old) (ScriptLine.Set setting value) }
    {
        match setting {
            Setting::Shards => self.settings.shards = value,
            Setting::Reserve => self.settings.reserve = value,
            Setting::Live => self.settings.live = value,
            Setting::Grace => self.settings.grace = value,
            Setting::Closed => self.settings.closed = value,
            Setting::Keep => self.settings.keep = value,
        }
    }
}
