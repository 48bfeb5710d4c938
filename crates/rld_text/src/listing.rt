//! The links of all accounts, a page at a time.

ghost use Rattle.std.specs.Prelude.{◌≡◌, ◌<◌, ◌++◌, length, IfOk, OnOk};
ghost use Rattle.std.specs.List.{flat_map};
ghost use Rattle.rld_text.specs.Listing.{held_text, more_line, next_line, page_text, text_if_wanted, text_of_wanted, wanted_text};

use crate::links::{Holder, push_link};
use rld_control::{AccountLinks, Form, Reply, Wanted};
use rld_values::{push_text, push_word};
use rsl_accounts::Config;
use rsl_session::SavedLink;
use std::alloc::{AllocError, Global};

/// What is shown of accounts, and when.
#[derive(Clone, Copy)]
pub struct Shown<'a> {
    /// The accounts and their clients.
    pub config: &'a Config,
    /// The form of a link.
    pub form: Form,
    /// The links that are shown.
    pub wanted: &'a Wanted,
    /// The moment, in seconds since 1970.
    pub moment: u64,
}

/// A page of the links of all accounts: with which account another page begins; the links of these
/// accounts that are wanted, a line each; and at the end the line `ok`. `next` is the number of the
/// account with which another page begins, or of none. It fails only if memory is refused.
#[tactic(auto, unfolding(crate::specs::Listing::page_text))]
pub fn page_text(
    alloc: Global,
    shown: &Shown<'_>,
    page: &[AccountLinks],
    next: u32,
) -> Result<Vec<u8>, AllocError>
    ensures { IfOk result (λ text. text.items ≡ page_text shown.now.form shown.now.config.now
        shown.now.wanted.now shown.now.moment page.now next) }
{
    let mut text = Vec::new(alloc);
    push_next(&mut text, shown.config, next)?;
    push_page(alloc, &mut text, shown, page)?;
    Reply::Done(b"").write(&mut text)?;
    Ok(text)
}

/// Writes with which account another page begins.
fn push_next(out: &mut Vec<u8>, config: &Config, next: u32) -> Result<(), AllocError>
    ensures { OnOk result (out.new.items ≡ out.old.items ++ next_line config.now next) }
{
    if next < config.accounts() {
        push_more(out, config.entry(next).name.as_bytes())
    } else {
        push_text(out, "last\n")
    }
}

/// Writes that another page begins with the account of this name.
#[tactic(auto, unfolding(crate::specs::Listing::more_line))]
fn push_more(out: &mut Vec<u8>, name: &[u8]) -> Result<(), AllocError>
    ensures { OnOk result (out.new.items ≡ out.old.items ++ more_line name.now) }
{
    push_text(out, "more ")?;
    push_word(out, name)?;
    push_text(out, "\n")
}

/// Writes the links of accounts that are wanted.
fn push_page(
    alloc: Global,
    out: &mut Vec<u8>,
    shown: &Shown<'_>,
    page: &[AccountLinks],
) -> Result<(), AllocError>
    ensures { OnOk result (out.new.items ≡ out.old.items ++ flat_map (held_text shown.now.form
        shown.now.config.now shown.now.wanted.now shown.now.moment) page.now) }
{
    for held in page {
        push_held(alloc, out, shown, held)?;
    }
    Ok(())
}

/// Writes the links of an account that are wanted.
fn push_held(
    alloc: Global,
    out: &mut Vec<u8>,
    shown: &Shown<'_>,
    held: &AccountLinks,
) -> Result<(), AllocError>
    ensures { OnOk result (out.new.items ≡ out.old.items ++ held_text shown.now.form
        shown.now.config.now shown.now.wanted.now shown.now.moment held.now) }
{
    if held.account >= shown.config.accounts() {
        return Ok(());
    }
    let entry = shown.config.entry(held.account);
    let holder = Holder {
        config: shown.config,
        name: entry.name.as_str(),
        live: entry.rules.live,
        moment: shown.moment,
    };
    let links = held.links.as_slice();
    push_wanted(alloc, out, shown.form, shown.wanted, &holder, links)
}

/// Writes those of some links that are wanted.
fn push_wanted(
    alloc: Global,
    out: &mut Vec<u8>,
    form: Form,
    wanted: &Wanted,
    holder: &Holder<'_>,
    links: &[SavedLink],
) -> Result<(), AllocError>
    ensures { OnOk result (out.new.items ≡ out.old.items ++ wanted_text form holder.now.config.now
        wanted.now holder.now.name.now holder.now.live holder.now.moment links.now) }
{
    for link in links {
        push_if_wanted(alloc, out, form, wanted, holder, link)?;
    }
    Ok(())
}

/// Writes a link, if its client is known and it is wanted.
fn push_if_wanted(
    alloc: Global,
    out: &mut Vec<u8>,
    form: Form,
    wanted: &Wanted,
    holder: &Holder<'_>,
    link: &SavedLink,
) -> Result<(), AllocError>
    ensures { OnOk result (out.new.items ≡ out.old.items ++ text_if_wanted form holder.now.config.now
        wanted.now holder.now.name.now holder.now.live holder.now.moment link.now) }
{
    if link.nas.client < holder.config.clients() {
        push_known(alloc, out, form, wanted, holder, link)
    } else {
        Ok(())
    }
}

/// Writes a link whose client is known, if it is wanted.
fn push_known(
    alloc: Global,
    out: &mut Vec<u8>,
    form: Form,
    wanted: &Wanted,
    holder: &Holder<'_>,
    link: &SavedLink,
) -> Result<(), AllocError>
    requires { link.now.nas.client < length holder.now.config.now.clients }
    ensures { OnOk result (out.new.items ≡ out.old.items ++ text_of_wanted form holder.now.config.now
        wanted.now holder.now.name.now holder.now.live holder.now.moment link.now) }
{
    let client = holder.config.client_at(link.nas.client);
    if wanted.has(client.address, holder.live, holder.moment, link) {
        push_link(alloc, out, form, holder, link)
    } else {
        Ok(())
    }
}
