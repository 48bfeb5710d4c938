ghost use Rattle.std.specs.Prelude.{◌≡◌, ◌++◌, OnOk};
ghost use Rattle.std.specs.List.{flat_map};
ghost use Rattle.rld_text.specs.Metrics.{all_front, client_front, client_lines, clients_head, datagrams_head, datagrams_line, ends_lines, ends_text, lines_of};

use crate::text::{Head, push_head, push_label};
use rld_counts::{Counts, Fate, Gate};
use rld_look::{ClientLook, Look};
use rld_values::{push_decimal, push_dotted, push_text};
use std::alloc::{AllocError, Global};

/// Writes how all datagrams ended, and those of each client.
#[tactic(auto, unfolding(crate::specs::Metrics::ends_text))]
pub(crate) fn push_ends_text(
    alloc: Global,
    out: &mut Vec<u8>,
    look: &Look,
) -> Result<(), AllocError>
    ensures { OnOk result (out.new.items ≡ out.old.items ++ ends_text look.entry.now) }
{
    push_datagrams_head(out)?;
    push_all(out, &look.counts)?;
    push_clients_head(out)?;
    push_clients(alloc, out, look.clients.as_slice())
}

/// Writes the head of the counts of all datagrams.
#[tactic(auto, unfolding(crate::specs::Metrics::datagrams_head))]
fn push_datagrams_head(out: &mut Vec<u8>) -> Result<(), AllocError>
    ensures { OnOk result (out.new.items ≡ out.old.items ++ datagrams_head) }
{
    push_head(
        out,
        &Head {
            name: "radlimitd_datagrams_total",
            kind: "counter",
            help: "Datagrams taken, by their port and by how they ended.",
        },
    )
}

/// Writes the head of the counts of clients.
#[tactic(auto, unfolding(crate::specs::Metrics::clients_head))]
fn push_clients_head(out: &mut Vec<u8>) -> Result<(), AllocError>
    ensures { OnOk result (out.new.items ≡ out.old.items ++ clients_head) }
{
    push_head(
        out,
        &Head {
            name: "radlimitd_client_datagrams_total",
            kind: "counter",
            help: "Datagrams taken of a client, by their port and by how they ended.",
        },
    )
}

/// Writes how all datagrams ended, those of no client included.
fn push_all(out: &mut Vec<u8>, counts: &Counts) -> Result<(), AllocError>
    ensures { OnOk result (out.new.items ≡ out.old.items ++ ends_lines all_front counts.now) }
{
    push_ends(out, b"radlimitd_datagrams_total{", counts)
}

/// Writes how the datagrams of each client ended.
fn push_clients(alloc: Global, out: &mut Vec<u8>, clients: &[ClientLook]) -> Result<(), AllocError>
    ensures { OnOk result (out.new.items ≡ out.old.items ++ flat_map client_lines clients.now) }
{
    for client in clients {
        push_client(alloc, out, client)?;
    }
    Ok(())
}

/// Writes how the datagrams of a client ended.
fn push_client(alloc: Global, out: &mut Vec<u8>, client: &ClientLook) -> Result<(), AllocError>
    ensures { OnOk result (out.new.items ≡ out.old.items ++ client_lines client.now) }
{
    let mut front = Vec::new(alloc);
    push_client_front(&mut front, client.address)?;
    push_ends(out, front.as_slice(), &client.counts)
}

/// Writes the start of a client's lines.
#[tactic(auto, unfolding(crate::specs::Metrics::client_front))]
fn push_client_front(out: &mut Vec<u8>, address: [u8; 4]) -> Result<(), AllocError>
    ensures { OnOk result (out.new.items ≡ out.old.items ++ client_front address) }
{
    push_text(out, "radlimitd_client_datagrams_total{client=\"")?;
    push_dotted(out, address)?;
    push_text(out, "\",")?;
    Ok(())
}

/// Writes how datagrams ended.
#[tactic(auto, unfolding(crate::specs::Metrics::ends_lines))]
fn push_ends(out: &mut Vec<u8>, front: &[u8], counts: &Counts) -> Result<(), AllocError>
    ensures { OnOk result (out.new.items ≡ out.old.items ++ ends_lines front.now counts.now) }
{
    push_lines(out, front, counts, Gate::Auth)?;
    push_lines(out, front, counts, Gate::Acct)?;
    push_lines(out, front, counts, Gate::Ask)?;
    Ok(())
}

/// Writes the number of datagrams that came to a gate and ended for each of its causes.
fn push_lines(
    out: &mut Vec<u8>,
    front: &[u8],
    counts: &Counts,
    gate: Gate,
) -> Result<(), AllocError>
    ensures { OnOk result (out.new.items ≡ out.old.items ++ lines_of front.now counts.now gate) }
{
    for cause in gate.causes() {
        let fate = Fate {
            gate,
            cause: *cause,
        };
        push_line(out, front, gate.word(), cause.name(), counts.count(fate))?;
    }
    Ok(())
}

/// Writes the number of datagrams of a port that ended in this way.
#[tactic(auto, unfolding(crate::specs::Metrics::datagrams_line))]
fn push_line(
    out: &mut Vec<u8>,
    front: &[u8],
    port: &str,
    end: &str,
    number: u64,
) -> Result<(), AllocError>
    ensures { OnOk result (out.new.items
        ≡ out.old.items ++ datagrams_line front.now port.now end.now number) }
{
    out.extend_from_slice(front)?;
    push_label(out, "port", port)?;
    push_text(out, ",")?;
    push_label(out, "end", end)?;
    push_text(out, "} ")?;
    push_decimal(out, number)?;
    push_text(out, "\n")
}
