//! Where asks come in, by the server's file.

ghost use Rattle.std.specs.Prelude.{◌≡◌, IfNone, IfOk, IfSome, None};

use rld_ask::Asks;
use rld_commands::{Fault, TokenFile, cause_of, token_in};
use rld_config::{AskSettings, ServerFile};
use rsl_event::Source;
use rsl_port::socket_addr;
use std::alloc::Global;
use std::fs::Files;
use std::net::{Net, TcpListener, TcpStream};

/// Where asks come in, if the server's file says so: `path` is that of the file with the token. `Unbound` comes
/// where the address and port cannot be bound.
pub(crate) fn asks_of<R>(
    rt: &R,
    alloc: Global,
    server: &ServerFile,
    path: Option<&str>,
) -> Result<Option<Asks>, Fault>
where
    R: Files + Net<Listener = TcpListener, Stream = TcpStream>,
    ensures none { IfNone server.now.ask (IfOk result (λ asks. asks ≡ None)) }
    ensures client { IfSome server.now.ask (λ wanted. IfOk result (λ asks.
        IfSome asks (λ asks. asks.client ≡ wanted.client))) }
{
    let (Some(ask), Some(path)) = (&server.ask, path) else {
        return Ok(None);
    };
    let AskSettings {
        address,
        port,
        client,
        ..
    } = ask;
    let TokenFile { token, .. } = token_in(rt, alloc, path)?;
    match Asks::bind(rt, alloc, token, *client, *address, *port) {
        Ok(asks) => Ok(Some(asks)),
        Err(error) => {
            let source = Source {
                address: *address,
                port: *port,
            };
            let cause = cause_of(error.kind());
            Err(Fault::Unbound(socket_addr(source), cause))
        }
    }
}
