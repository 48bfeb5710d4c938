//! Prints what a browser and a monitor are shown of a server: of one that has run for some hours, with
//! names that try to forge what is printed, of one that has just started, and of one whose clock was set back.
#![tactic(auto)]

mod sample;

use crate::sample::{accounts, idle, late, worked};
use rld_look::{AccountsLook, Health, Look};
use rld_page::{accounts_json, page};
use rsl_wire::NoMemory;
use std::alloc::AllocError;
use std::io::{self, Write};

fn main(rt: HostRuntime) -> io::Result<()> {
    print(&rt, worked(rt.alloc()), accounts(rt.alloc(), 10))?;
    print(&rt, idle(rt.alloc()), accounts(rt.alloc(), 0))?;
    print(&rt, late(rt.alloc()), accounts(rt.alloc(), 0))
}

/// Prints all that is shown of a server.
fn print(
    rt: &HostRuntime,
    look: Result<Look, NoMemory>,
    accounts: Result<AccountsLook, NoMemory>,
) -> io::Result<()> {
    let (Ok(look), Ok(accounts)) = (look, accounts) else {
        return Err(AllocError.into());
    };
    rt.stdout().write_all(page(rt.alloc(), &look)?.as_slice())?;
    rt.stdout()
        .write_all(accounts_json(rt.alloc(), &accounts)?.as_slice())?;
    let health = Health::of(look.recording, look.clock_behind);
    rt.stdout().write_all(health.text().as_bytes())
}
