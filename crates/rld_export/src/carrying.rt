//! The sessions of a generation by the numbers of the next one.

use crate::following::{Ends, Following, push_ends};
use crate::session::{End, Ended, Held, Why};
use rsl_accounts::Config;
use rsl_event::Nas;
use rsl_session::Session;
use rsl_wire::NoMemory;
use std::alloc::Global;

/// The session with the number of its client in another configuration, or `None` if that has no
/// client of its address.
fn renumbered(
    alloc: Global,
    old: &Config,
    next: &Config,
    held: &Held,
) -> Result<Option<Held>, NoMemory> {
    let nas = &held.session.nas;
    if nas.client >= old.clients() {
        return Ok(None);
    }
    let Some(client) = next.client(old.client_at(nas.client).address) else {
        return Ok(None);
    };
    Ok(Some(Held {
        session: Session {
            nas: Nas {
                client,
                name: nas.name.try_copy(alloc)?,
            },
            id: held.session.id.try_copy(alloc)?,
        },
        began: held.began,
        seen: held.seen,
    }))
}

/// As many empty lists.
fn empty_lists(alloc: Global, count: u32) -> Result<Vec<Vec<Held>>, NoMemory> {
    let mut lists = Vec::new(alloc);
    for _ in 0..count {
        lists.push(Vec::new(alloc))?;
    }
    Ok(lists)
}

impl Following {
    /// The sessions of each account of the next configuration, by its numbers: an account goes on by
    /// its name, and a client by its address. Sessions of others have ended.
    pub(crate) fn carried(
        &self,
        alloc: Global,
        next: &Config,
        ends: &mut Vec<Ends>,
    ) -> Result<Vec<Vec<Held>>, NoMemory> {
        let mut lists = empty_lists(alloc, next.accounts())?;
        for account in 0..self.config.accounts() {
            let number = next.account(self.config.entry(account).name.as_bytes());
            let mut sessions = Vec::new(alloc);
            for held in self.held(account) {
                let list = match number {
                    Some(number) => lists.get_mut(number as usize),
                    None => None,
                };
                self.carry(alloc, next, held, list, &mut sessions)?;
            }
            push_ends(ends, account, sessions)?;
        }
        Ok(lists)
    }

    /// Carries a session over to a list, if there is one and its client goes on; else it has ended.
    fn carry(
        &self,
        alloc: Global,
        next: &Config,
        held: &Held,
        list: Option<&mut Vec<Held>>,
        sessions: &mut Vec<Ended>,
    ) -> Result<(), NoMemory> {
        if let Some(list) = list {
            if let Some(moved) = renumbered(alloc, &self.config, next, held)? {
                list.push(moved)?;
                return Ok(());
            }
        }
        let end = End {
            at: self.latest,
            why: Why::Changed,
        };
        sessions.push(held.ended(alloc, end)?)?;
        Ok(())
    }
}
