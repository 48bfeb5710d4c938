//! The flags that narrow a list of sessions.

use crate::flag::Flag;
use crate::given::Given;
use std::alloc::{AllocError, Global};

/// What stands in a line for what is not given.
pub const NOT_GIVEN: &str = "\\-";

/// The flags of a list of sessions, each with its word, if it is given.
#[derive(Clone, Copy)]
pub struct Flags<'a> {
    /// The form of a session: `json` or `lines`.
    form: &'static str,
    /// The name of its access server, as `free` takes it.
    nas: Option<&'a str>,
    /// The address of its client.
    client: Option<&'a str>,
    /// Its state.
    state: Option<&'a str>,
    /// How many seconds ago it was touched, at least.
    older: Option<u64>,
}

impl<'a> Flags<'a> {
    /// The flags of all sessions, as lines.
    fn none() -> Flags<'a> {
        Flags {
            form: "lines",
            nas: None,
            client: None,
            state: None,
            older: None,
        }
    }

    /// The flags of the sessions of an access server, as lines.
    pub fn of_server(nas: &'a str, client: &'a str) -> Flags<'a> {
        Flags {
            nas: Some(nas),
            client: Some(client),
            ..Flags::none()
        }
    }

    /// The flags that are given. `None` where a value is no word of a list, or that of `--older` is no number.
    pub fn of_given(given: &Given<'a>) -> Option<Flags<'a>> {
        let nas = given.value(Flag::Nas);
        let client = given.value(Flag::Client);
        let state = given.value(Flag::State);
        if [nas, client, state].contains(&Some(NOT_GIVEN)) {
            return None;
        }
        let older = match given.value(Flag::Older) {
            Some(word) => Some(word.parse().ok()?),
            None => None,
        };
        Some(Flags {
            form: if given.has(Flag::Json) {
                "json"
            } else {
                "lines"
            },
            nas,
            client,
            state,
            older,
        })
    }

    /// The line that asks for a page of the sessions, which begins with the account of this word. It
    /// is a command only if each word is right.
    pub fn line(&self, alloc: Global, from: &str) -> Result<String, AllocError> {
        let client = self.client.unwrap_or(NOT_GIVEN);
        let state = self.state.unwrap_or(NOT_GIVEN);
        let nas = self.nas.unwrap_or(NOT_GIVEN);
        let older = self.older.unwrap_or(0);
        let form = self.form;
        format!(in alloc; "links {form} {client} {state} {older:016x} {nas} {from}")
    }
}
