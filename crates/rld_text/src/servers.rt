//! The metrics of access servers.

ghost use Rattle.std.specs.Prelude.{◌≡◌, ◌++◌, OnOk};
ghost use Rattle.std.specs.List.{flat_map};
ghost use Rattle.rld_text.specs.Metrics.{nas_value, reserved_head, reserved_line, server_line, servers_all, servers_number, servers_text, sessions_head, sessions_line, silent_head, silent_line};

use crate::gauges::push_gauge;
use crate::text::{Head, push_escaped, push_head};
use rld_look::{AccessServerLook, Look, write_nas_word};
use rld_values::{push_decimal, push_dotted, push_text};
use rsl_event::NasName;
use std::alloc::{AllocError, Global};

/// Writes how many access servers there are, and what the first ones hold and since when they are silent.
pub(crate) fn push_servers_text(
    alloc: Global,
    out: &mut Vec<u8>,
    look: &Look,
) -> Result<(), AllocError>
    ensures { OnOk result (out.new.items ≡ out.old.items ++ servers_text look.entry.now) }
{
    let servers = &look.access_servers;
    push_all(
        alloc,
        out,
        look.now,
        servers.number,
        servers.first.as_slice(),
    )
}

/// Writes the metrics of these access servers, of which there are `number`.
#[tactic(auto, unfolding(crate::specs::Metrics::servers_all))]
fn push_all(
    alloc: Global,
    out: &mut Vec<u8>,
    now: u64,
    number: u64,
    servers: &[AccessServerLook],
) -> Result<(), AllocError>
    ensures { OnOk result (out.new.items ≡ out.old.items ++ servers_all now number servers.now) }
{
    push_number(out, number)?;
    push_sessions_head(out)?;
    push_sessions(alloc, out, servers)?;
    push_reserved_head(out)?;
    push_reserved(alloc, out, servers)?;
    push_silent_head(out)?;
    push_silent(alloc, out, now, servers)?;
    Ok(())
}

/// Writes how many access servers there are.
fn push_number(out: &mut Vec<u8>, number: u64) -> Result<(), AllocError>
    ensures { OnOk result (out.new.items ≡ out.old.items ++ servers_number number) }
{
    push_gauge(
        out,
        "radlimitd_access_servers",
        "Access servers that hold a session or a reservation. Of the first 256 there is more.",
        number,
    )
}

/// Writes the head of what access servers hold.
#[tactic(auto, unfolding(crate::specs::Metrics::sessions_head))]
fn push_sessions_head(out: &mut Vec<u8>) -> Result<(), AllocError>
    ensures { OnOk result (out.new.items ≡ out.old.items ++ sessions_head) }
{
    push_head(
        out,
        &Head {
            name: "radlimitd_access_server_sessions",
            kind: "gauge",
            help: "Sessions and reservations that an access server holds.",
        },
    )
}

/// Writes what each access server holds.
fn push_sessions(
    alloc: Global,
    out: &mut Vec<u8>,
    servers: &[AccessServerLook],
) -> Result<(), AllocError>
    ensures { OnOk result (out.new.items ≡ out.old.items ++ flat_map sessions_line servers.now) }
{
    for server in servers {
        push_sessions_line(alloc, out, server)?;
    }
    Ok(())
}

/// Writes what an access server holds.
fn push_sessions_line(
    alloc: Global,
    out: &mut Vec<u8>,
    server: &AccessServerLook,
) -> Result<(), AllocError>
    ensures { OnOk result (out.new.items ≡ out.old.items ++ sessions_line server.now) }
{
    let number = server.reserved.saturating_add(server.bound);
    push_line(
        alloc,
        out,
        "radlimitd_access_server_sessions{client=\"",
        server,
        number,
    )
}

/// Writes the head of what is reserved of that.
#[tactic(auto, unfolding(crate::specs::Metrics::reserved_head))]
fn push_reserved_head(out: &mut Vec<u8>) -> Result<(), AllocError>
    ensures { OnOk result (out.new.items ≡ out.old.items ++ reserved_head) }
{
    push_head(
        out,
        &Head {
            name: "radlimitd_access_server_reserved",
            kind: "gauge",
            help: "Reservations among these: accepts whose session has not begun.",
        },
    )
}

/// Writes what is reserved at each access server.
fn push_reserved(
    alloc: Global,
    out: &mut Vec<u8>,
    servers: &[AccessServerLook],
) -> Result<(), AllocError>
    ensures { OnOk result (out.new.items ≡ out.old.items ++ flat_map reserved_line servers.now) }
{
    for server in servers {
        push_reserved_line(alloc, out, server)?;
    }
    Ok(())
}

/// Writes what is reserved at an access server.
fn push_reserved_line(
    alloc: Global,
    out: &mut Vec<u8>,
    server: &AccessServerLook,
) -> Result<(), AllocError>
    ensures { OnOk result (out.new.items ≡ out.old.items ++ reserved_line server.now) }
{
    push_line(
        alloc,
        out,
        "radlimitd_access_server_reserved{client=\"",
        server,
        server.reserved,
    )
}

/// Writes the head of how long access servers are silent.
#[tactic(auto, unfolding(crate::specs::Metrics::silent_head))]
fn push_silent_head(out: &mut Vec<u8>) -> Result<(), AllocError>
    ensures { OnOk result (out.new.items ≡ out.old.items ++ silent_head) }
{
    push_head(
        out,
        &Head {
            name: "radlimitd_access_server_silent_seconds",
            kind: "gauge",
            help: "Seconds since the last packet about a session that an access server holds.",
        },
    )
}

/// Writes for how long each access server has been silent.
fn push_silent(
    alloc: Global,
    out: &mut Vec<u8>,
    now: u64,
    servers: &[AccessServerLook],
) -> Result<(), AllocError>
    ensures { OnOk result (out.new.items ≡ out.old.items ++ flat_map (silent_line now) servers.now) }
{
    for server in servers {
        push_silent_line(alloc, out, now, server)?;
    }
    Ok(())
}

/// Writes for how long an access server has been silent.
fn push_silent_line(
    alloc: Global,
    out: &mut Vec<u8>,
    now: u64,
    server: &AccessServerLook,
) -> Result<(), AllocError>
    ensures { OnOk result (out.new.items ≡ out.old.items ++ silent_line now server.now) }
{
    let number = now.saturating_sub(server.last);
    push_line(
        alloc,
        out,
        "radlimitd_access_server_silent_seconds{client=\"",
        server,
        number,
    )
}

/// Writes a number of an access server.
#[tactic(auto, unfolding(crate::specs::Metrics::server_line))]
fn push_line(
    alloc: Global,
    out: &mut Vec<u8>,
    front: &str,
    server: &AccessServerLook,
    number: u64,
) -> Result<(), AllocError>
    ensures { OnOk result (out.new.items ≡ out.old.items ++ server_line front.now server.now number) }
{
    push_text(out, front)?;
    push_dotted(out, server.client)?;
    push_text(out, "\",nas=\"")?;
    push_nas(alloc, out, &server.nas)?;
    push_text(out, "\"} ")?;
    push_decimal(out, number)?;
    push_text(out, "\n")
}

/// Writes the name of an access server as the value of a label.
fn push_nas(alloc: Global, out: &mut Vec<u8>, nas: &NasName) -> Result<(), AllocError>
    ensures { OnOk result (out.new.items ≡ out.old.items ++ nas_value nas.now) }
{
    let mut word = Vec::new(alloc);
    write_nas_word(&mut word, nas)?;
    push_escaped(out, word.as_slice())
}
