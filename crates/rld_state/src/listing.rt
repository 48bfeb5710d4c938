//! The links of all accounts, a page at a time.

ghost use Rattle.std.specs.Prelude.{◌≡◌, ◌+◌, ◌<◌, ◌≤◌, length, IfOk, IfSome};
ghost use Rattle.std.specs.Arc.{arc_value};
ghost use Rattle.std.specs.Option.{option_map};
ghost use Rattle.rsl_accounts.specs.Configuration.{account_number};
ghost use Rattle.rld_control.specs.declared.listing.AccountLinks.{AccountLinks as HeldLinks};
ghost use Rattle.rsl_session.specs.Saved.{saved_links};
ghost use Rattle.rld_state.specs.Listing.{AreHeldFrom, links_held};

use crate::state::ServerState;
use rld_control::AccountLinks;
use rld_log::Log;
use rsl_wire::NoMemory;
use std::alloc::Global;

/// The most accounts of a page.
const MOST_ACCOUNTS: u32 = 1_024;

/// The number of links from which on a page has no other account. An account has at most 1,024.
const ENOUGH_LINKS: usize = 512;

/// A page of the links of all accounts.
#[derive(Drop)]
pub struct LinksPage {
    /// Some accounts, one after the other, each with its links.
    pub held: Vec<AccountLinks>,
    /// The number of the account with which the next page begins: that of no account after the last
    /// page.
    pub next: u32,
}

impl<L: Log + Drop> ServerState<L> {
    /// The links of the accounts from the number `first` on, in file order, and of each in the order
    /// in which they opened: of at most `MOST_ACCOUNTS` accounts, and of no other once there are
    /// `ENOUGH_LINKS`. It fails only if memory is refused.
    #[tactic(auto, using(crate::proofs::Pages::page_steps))]
    pub fn links_from(&self, alloc: Global, first: u32) -> Result<LinksPage, NoMemory>
        ensures held { IfOk result (λ page.
            AreHeldFrom self.now.recorder.books first page.held.items) }
        ensures next { IfOk result (λ page. page.next ≡ first + length page.held.items) }
        ensures few { IfOk result (λ page. length page.held.items ≤ 1024) }
        ensures some { first < length (arc_value self.now.recorder.config).accounts →
            IfOk result (λ page. first < page.next) }
        ensures within { first ≤ length (arc_value self.now.recorder.config).accounts →
            IfOk result (λ page. page.next ≤ length (arc_value self.now.recorder.config).accounts) }
    {
        let end = end_of(self.accounts().accounts(), first);
        let mut held = Vec::new(alloc);
        let mut links = 0usize;
        for account in first..end {
            let one = self.links_held(alloc, account)?;
            links = links.saturating_add(one.links.len());
            held.push(one)?;
            if links >= ENOUGH_LINKS {
                let next = account + 1;
                return Ok(LinksPage { held, next });
            }
        }
        Ok(LinksPage { held, next: end })
    }

    /// What the account with this name holds: its links, in the order in which they opened. `None`
    /// if there is no such account. It fails only if memory is refused.
    pub fn held_by(&self, alloc: Global, name: &[u8]) -> Result<Option<AccountLinks>, NoMemory>
        ensures account { IfOk result (λ found. option_map (λ (held : HeldLinks). held.account) found
            ≡ account_number (arc_value self.now.recorder.config) name.now) }
        ensures links { IfOk result (λ found. IfSome found (λ held.
            saved_links held.links.items ≡ links_held self.now.recorder.books held.account)) }
        ensures within { IfOk result (λ found. IfSome found (λ held.
            held.account < length (arc_value self.now.recorder.config).accounts)) }
    {
        match self.accounts().account(name) {
            Some(account) => Ok(Some(self.links_held(alloc, account)?)),
            None => Ok(None),
        }
    }

    /// The links of an account.
    #[tactic(auto, using(crate::proofs::Pages::held_steps))]
    fn links_held(&self, alloc: Global, account: u32) -> Result<AccountLinks, NoMemory>
        ensures account { IfOk result (λ held. held.account ≡ account) }
        ensures links { IfOk result (λ held.
            saved_links held.links.items ≡ links_held self.now.recorder.books account) }
    {
        match self.recorder().links(alloc, account)? {
            Some(links) => Ok(AccountLinks { account, links }),
            None => {
                let links = Vec::new(alloc);
                Ok(AccountLinks { account, links })
            }
        }
    }
}

/// The number after the last account that a page has which begins with this one.
fn end_of(accounts: u32, first: u32) -> u32
    ensures from { first ≤ result }
    ensures within { first ≤ accounts → result ≤ accounts }
    ensures some { first < accounts → first < result }
    ensures few { result ≤ first + 1024 }
{
    let end = accounts.min(first.saturating_add(MOST_ACCOUNTS));
    end.max(first)
}
