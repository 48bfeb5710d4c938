//! The lines of refusals.

ghost use Rattle.std.specs.Prelude.{◌≡◌, ◌++◌, OnOk};
ghost use Rattle.rld_look.specs.Line.{account_words, address_words, asker_words, cause_words, client_words, front_words, held_words, left_out_at, left_out_if_any, left_out_line, left_out_lines, line_of, more_words, nas_words, number_words, source_words};

use crate::priority::{Priority, Sink};
use crate::refusal::Refusal;
use rld_counts::{Cause, Counts, Fate, Gate};
use rld_values::{push_decimal, push_dotted, push_escaped, push_hex, push_text};
use rsl_event::NasName;
use rsl_wire::Octets;
use std::alloc::{AllocError, Global};
use std::net::IpAddr;

/// The places of an account.
#[derive(Clone, Copy)]
pub struct Places {
    /// The number that it holds.
    pub held: u32,
    /// The number that it has.
    pub all: u32,
}

impl Refusal {
    /// Writes the line of the refusal. `places` are those of its account, if there is one, when the
    /// line is written. It fails only if memory is refused; a part of the line may then have been
    /// written.
    #[tactic(auto, unfolding(crate::specs::Line::line_of))]
    pub fn write_line(
        &self,
        alloc: Global,
        out: &mut Vec<u8>,
        sink: Sink,
        places: Option<Places>,
    ) -> Result<(), AllocError>
        ensures { OnOk result (out.new.items ≡ out.old.items ++ line_of sink self.now places) }
    {
        push_front(out, sink, self.fate)?;
        push_source(alloc, out, self)?;
        push_asker(out, self)?;
        push_cause(out, self.fate.cause)?;
        push_held(out, places)
    }
}

/// Writes a line for each cause of which some refusals were left out, with their number. It fails
/// only if memory is refused; a part of the lines may then have been written.
#[tactic(auto, unfolding(crate::specs::Line::left_out_lines))]
pub fn write_left_out(out: &mut Vec<u8>, sink: Sink, left_out: &Counts) -> Result<(), AllocError>
    ensures { OnOk result (out.new.items ≡ out.old.items ++ left_out_lines sink left_out.now) }
{
    push_left_out_at(out, sink, left_out, Gate::Auth)?;
    push_left_out_at(out, sink, left_out, Gate::Acct)?;
    push_left_out_at(out, sink, left_out, Gate::Ask)?;
    Ok(())
}

/// Writes the number left out at a gate for each cause, if any were.
fn push_left_out_at(
    out: &mut Vec<u8>,
    sink: Sink,
    left_out: &Counts,
    gate: Gate,
) -> Result<(), AllocError>
    ensures { OnOk result (out.new.items ≡ out.old.items ++ left_out_at sink left_out.now gate) }
{
    for cause in gate.causes() {
        let fate = Fate {
            gate,
            cause: *cause,
        };
        push_if_any(out, sink, fate, left_out.count(fate))?;
    }
    Ok(())
}

/// Writes the start of a line: its mark, and the gate.
#[tactic(auto, unfolding(crate::specs::Line::front_words))]
fn push_front(out: &mut Vec<u8>, sink: Sink, fate: Fate) -> Result<(), AllocError>
    ensures { OnOk result (out.new.items ≡ out.old.items ++ front_words sink fate) }
{
    push_text(out, Priority::of(fate.cause.kind()).mark(sink))?;
    push_text(out, "refused port=")?;
    push_text(out, fate.gate.word())
}

/// Writes the source of a datagram.
#[tactic(auto, unfolding(crate::specs::Line::source_words))]
fn push_source(alloc: Global, out: &mut Vec<u8>, refusal: &Refusal) -> Result<(), AllocError>
    ensures { OnOk result (out.new.items ≡ out.old.items ++ source_words refusal.now) }
{
    push_text(out, " client=")?;
    push_client(alloc, out, refusal)?;
    push_text(out, ":")?;
    push_decimal(out, u64::from(refusal.source.port))
}

/// Writes the address of the client that a peer stands for; of a peer that stands for none, its own.
fn push_client(alloc: Global, out: &mut Vec<u8>, refusal: &Refusal) -> Result<(), AllocError>
    ensures { OnOk result (out.new.items
        ≡ out.old.items ++ client_words refusal.now.client refusal.now.source refusal.now.peer) }
{
    match refusal.client {
        Some(_) => push_dotted(out, refusal.source.address),
        None => push_address(alloc, out, refusal.peer),
    }
}

/// Writes an address before a port.
fn push_address(alloc: Global, out: &mut Vec<u8>, address: IpAddr) -> Result<(), AllocError>
    ensures { OnOk result (out.new.items ≡ out.old.items ++ address_words address) }
{
    let text = format!(in alloc; "{address}")?;
    match address {
        IpAddr::V4(_) => push_text(out, text.as_str()),
        IpAddr::V6(_) => {
            push_text(out, "[")?;
            push_text(out, text.as_str())?;
            push_text(out, "]")
        }
    }
}

/// Writes who asks, as far as it is known: the access server, and the account.
#[tactic(auto, unfolding(crate::specs::Line::asker_words))]
fn push_asker(out: &mut Vec<u8>, refusal: &Refusal) -> Result<(), AllocError>
    ensures { OnOk result (out.new.items ≡ out.old.items ++ asker_words refusal.now) }
{
    push_nas(out, &refusal.nas)?;
    push_account(out, &refusal.name)
}

/// Writes the name of an access server, if it has one.
fn push_nas(out: &mut Vec<u8>, name: &NasName) -> Result<(), AllocError>
    ensures { OnOk result (out.new.items ≡ out.old.items ++ nas_words name.now) }
{
    match name {
        NasName::Identifier(name) => {
            push_text(out, " nas=")?;
            push_escaped(out, name.as_slice())
        }
        NasName::Address(address) => {
            push_text(out, " nas-address=")?;
            push_hex(out, address.as_slice())
        }
        NasName::Unnamed => Ok(()),
    }
}

/// Writes a User-Name, if there is one.
fn push_account(out: &mut Vec<u8>, name: &Option<Octets>) -> Result<(), AllocError>
    ensures { OnOk result (out.new.items ≡ out.old.items ++ account_words name.now) }
{
    match name {
        Some(name) => {
            push_text(out, " account=")?;
            push_escaped(out, name.as_slice())
        }
        None => Ok(()),
    }
}

/// Writes the cause.
#[tactic(auto, unfolding(crate::specs::Line::cause_words))]
fn push_cause(out: &mut Vec<u8>, cause: Cause) -> Result<(), AllocError>
    ensures { OnOk result (out.new.items ≡ out.old.items ++ cause_words cause) }
{
    push_text(out, " cause=")?;
    push_text(out, cause.name())
}

/// Writes the held places of all, if they are known, and ends the line.
fn push_held(out: &mut Vec<u8>, places: Option<Places>) -> Result<(), AllocError>
    ensures { OnOk result (out.new.items ≡ out.old.items ++ held_words places) }
{
    if let Some(places) = places {
        push_text(out, " held=")?;
        push_decimal(out, u64::from(places.held))?;
        push_text(out, "/")?;
        push_decimal(out, u64::from(places.all))?;
    }
    push_text(out, "\n")
}

/// Writes the number left out of a cause, if any were.
fn push_if_any(out: &mut Vec<u8>, sink: Sink, fate: Fate, number: u64) -> Result<(), AllocError>
    ensures { OnOk result
        (out.new.items ≡ out.old.items ++ left_out_if_any sink fate number) }
{
    if number == 0 {
        Ok(())
    } else {
        push_left_out(out, sink, fate, number)
    }
}

/// Writes the number left out of a cause.
#[tactic(auto, unfolding(crate::specs::Line::left_out_line))]
fn push_left_out(out: &mut Vec<u8>, sink: Sink, fate: Fate, number: u64) -> Result<(), AllocError>
    ensures { OnOk result (out.new.items ≡ out.old.items ++ left_out_line sink fate number) }
{
    push_number(out, sink, fate.cause, number)?;
    push_more(out, fate.gate)?;
    push_cause(out, fate.cause)?;
    push_text(out, "\n")
}

/// Writes the words after the number, and the gate.
fn push_more(out: &mut Vec<u8>, gate: Gate) -> Result<(), AllocError>
    ensures { OnOk result (out.new.items ≡ out.old.items ++ more_words gate) }
{
    push_text(out, " more refused port=")?;
    push_text(out, gate.word())?;
    Ok(())
}

/// Writes the start of a line with the number of a cause: its mark, and the number.
#[tactic(auto, unfolding(crate::specs::Line::number_words))]
fn push_number(out: &mut Vec<u8>, sink: Sink, cause: Cause, number: u64) -> Result<(), AllocError>
    ensures { OnOk result (out.new.items ≡ out.old.items ++ number_words sink cause number) }
{
    push_text(out, Priority::of(cause.kind()).mark(sink))?;
    push_decimal(out, number)
}
