//! What a script gives.

use crate::BOOT;
use crate::stop::Stop;
use rsl_accounts::Config;
use rsl_event::Event;
use rsl_replay::steps_of;
use rsl_script::Script;
use rsl_steps::{Step, own};
use std::alloc::Global;
use std::sync::Arc;

/// What a script gives.
#[derive(Drop)]
pub(crate) struct Given<'a> {
    text: &'a [u8],
    /// Its configuration.
    pub config: Arc<Config>,
    /// The steps of its event lines.
    pub steps: Vec<Step>,
}

impl<'a> Given<'a> {
    /// What the text of a script gives.
    pub(crate) fn read(alloc: Global, text: &'a [u8]) -> Result<Given<'a>, Stop> {
        let script = Script::read(alloc, text)?;
        let config = Config::make(alloc, script.settings, script.clients, script.accounts)?;
        let config = Arc::new(alloc, config)?;
        let steps = steps_of(alloc, &*config, BOOT, script.events.as_slice())?;
        Ok(Given {
            text,
            config,
            steps,
        })
    }

    /// The same once more.
    pub(crate) fn again(&self, alloc: Global) -> Result<Given<'a>, Stop> {
        Given::read(alloc, self.text)
    }

    /// A configuration of its own, from the lines before the first that is empty.
    pub(crate) fn config(&self, alloc: Global) -> Result<Config, Stop> {
        let script = Script::read(alloc, settings_of(self.text))?;
        Ok(Config::make(alloc, script.settings, script.clients, script.accounts)?)
    }

    /// The own events of an account.
    pub(crate) fn events(&self, alloc: Global, account: u32) -> Result<Vec<Event>, Stop> {
        Ok(own(alloc, &*self.config, BOOT, account, &self.steps)?)
    }
}

/// The lines of a script before the first that is empty.
fn settings_of(text: &[u8]) -> &[u8] {
    for end in 1..text.len() {
        if text[end - 1] == b'\n' && text[end] == b'\n' {
            return &text[..end];
        }
    }
    text
}
