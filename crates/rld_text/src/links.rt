ghost use Rattle.std.specs.Prelude.{◌≡◌, ◌<◌, ◌++◌, length, IfOk, OnOk};
ghost use Rattle.rld_text.specs.Links.{bound_state, holder_words, ids_words, link_line, link_text, links_text, text_if_known};

use crate::line_words::{push_number_word, push_octets_word_if};
use crate::link_objects::push_link_object;
use rld_control::{Form, Reply, push_server};
use rld_values::{push_text, push_word};
use rsl_accounts::Config;
use rsl_session::{SavedHolder, SavedLink};
use std::alloc::{AllocError, Global};

/// The account whose links are printed, and the moment.
#[derive(Clone, Copy)]
pub struct Holder<'a> {
    /// The configuration of its clients.
    pub config: &'a Config,
    /// The account's name.
    pub name: &'a str,
    /// The live time of its sessions in seconds.
    pub live: u64,
    /// The moment, in seconds since 1970.
    pub moment: u64,
}

/// The links of an account, a line each, and at the end the line `ok`. It fails only if memory is
/// refused.
pub fn links_text(
    alloc: Global,
    form: Form,
    holder: &Holder<'_>,
    links: &[SavedLink],
) -> Result<Vec<u8>, AllocError>
    ensures { IfOk result (λ text. text.items ≡ links_text form holder.now.config.now
        holder.now.name.now holder.now.live holder.now.moment links.now) }
{
    let mut text = Vec::new(alloc);
    for link in links {
        push_if_known(alloc, &mut text, form, holder, link)?;
    }
    Reply::Done(b"").write(&mut text)?;
    Ok(text)
}

/// Writes a link, if its client is known.
fn push_if_known(
    alloc: Global,
    out: &mut Vec<u8>,
    form: Form,
    holder: &Holder<'_>,
    link: &SavedLink,
) -> Result<(), AllocError>
    ensures { OnOk result (out.new.items ≡ out.old.items ++ text_if_known form holder.now.config.now
        holder.now.name.now holder.now.live holder.now.moment link.now) }
{
    if link.nas.client < holder.config.clients() {
        push_link(alloc, out, form, holder, link)
    } else {
        Ok(())
    }
}

/// Writes a link.
pub(crate) fn push_link(
    alloc: Global,
    out: &mut Vec<u8>,
    form: Form,
    holder: &Holder<'_>,
    link: &SavedLink,
) -> Result<(), AllocError>
    requires { link.now.nas.client < length holder.now.config.now.clients }
    ensures { OnOk result (out.new.items ≡ out.old.items ++ link_text form holder.now.config.now
        holder.now.name.now holder.now.live holder.now.moment link.now) }
{
    match form {
        Form::Lines => push_line(out, holder, link),
        Form::Json => push_link_object(alloc, out, holder, link),
    }
}

/// Writes the line of a link.
fn push_line(out: &mut Vec<u8>, holder: &Holder<'_>, link: &SavedLink) -> Result<(), AllocError>
    requires { link.now.nas.client < length holder.now.config.now.clients }
    ensures { OnOk result (out.new.items ≡ out.old.items ++ link_line holder.now.config.now
        holder.now.name.now holder.now.live holder.now.moment link.now) }
{
    let client = holder.config.client_at(link.nas.client);
    let age = holder.moment.saturating_sub(link.touched);
    push_server(out, holder.name.as_bytes(), client.address, &link.nas.name)?;
    push_holder(out, holder.live, age, &link.holder)?;
    push_number_word(out, "age", age)?;
    push_ids(out, link)?;
    push_text(out, "\n")
}

/// Writes the ids of a link's bundle and of its station, where it has them.
#[tactic(auto, unfolding(crate::specs::Links::ids_words))]
fn push_ids(out: &mut Vec<u8>, link: &SavedLink) -> Result<(), AllocError>
    ensures { OnOk result (out.new.items ≡ out.old.items ++ ids_words link.now) }
{
    push_octets_word_if(out, "bundle", &link.bundle)?;
    push_octets_word_if(out, "station", &link.station)
}

/// Writes what holds a link: its session and state, or that it is reserved.
fn push_holder(
    out: &mut Vec<u8>,
    live: u64,
    age: u64,
    holder: &SavedHolder,
) -> Result<(), AllocError>
    ensures { OnOk result (out.new.items ≡ out.old.items ++ holder_words live age holder.now) }
{
    match holder {
        SavedHolder::Reserved(_) => push_text(out, " \\- reserved"),
        SavedHolder::Bound(session) => {
            out.push(32)?;
            push_word(out, session.as_slice())?;
            push_state(out, live, age)
        }
    }
}

/// Writes the state of a bound link.
fn push_state(out: &mut Vec<u8>, live: u64, age: u64) -> Result<(), AllocError>
    ensures { OnOk result (out.new.items ≡ out.old.items ++ bound_state live age) }
{
    if age < live {
        push_text(out, " live")
    } else {
        push_text(out, " stale")
    }
}
