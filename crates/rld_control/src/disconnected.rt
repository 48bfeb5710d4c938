//! What comes of a session that its access server is to disconnect (RFC 5176).

ghost use Rattle.std.specs.Prelude.{◌≡◌, ◌++◌, IfOk, OnOk};
ghost use Rattle.rld_control.specs.Disconnecting.{
  answer_octets,
  cause_text,
  fault_octets,
  is_unanswered,
  port_of,
  refusal,
  sent_to,
};

use crate::cause::cause_name;
use crate::reply::Reply;
use rld_values::{push_decimal, push_text};
use rsl_accounts::Config;
use std::alloc::{AllocError, Global};

/// Why no access server is asked to disconnect a session.
#[derive(Clone, Copy, Debug)]
pub enum DisconnectFault {
    /// Its client takes no Disconnect-Requests, as the account file says.
    NoPort,
    /// No link is bound to it.
    NotHeld,
    /// As many are asked as may be.
    Busy,
    /// The system gives no socket.
    NoSocket,
}

impl DisconnectFault {
    /// The answer to the operator who asked for it.
    pub fn answer(self) -> &'static str
        ensures { result.now ≡ fault_octets self }
    {
        match self {
            DisconnectFault::NoPort => "error the client has no `disconnect` in the account file\n",
            DisconnectFault::NotHeld => "error no such session\n",
            DisconnectFault::Busy => "error busy: 16 sessions are being disconnected\n",
            DisconnectFault::NoSocket => "error no socket\n",
        }
    }
}

/// What came of asking an access server to disconnect a session.
#[derive(Clone, Copy, Debug)]
pub enum Disconnected {
    /// It has, and the session's place is free.
    Done,
    /// It has, but the session's Stop was not recorded, so its place is held.
    Unrecorded,
    /// It has not, for the cause with this number if it gives one (Error-Cause, RFC 5176 section
    /// 3.5).
    Refused(Option<u32>),
    /// It has not answered.
    Unanswered,
}

impl Disconnected {
    /// The answer to the operator who asked for it. It fails only if memory is refused.
    pub fn answer(self, alloc: Global) -> Result<Vec<u8>, AllocError>
        ensures { IfOk result (λ octets. octets.items ≡ answer_octets self) }
    {
        let mut octets = Vec::new(alloc);
        self.push(alloc, &mut octets)?;
        Ok(octets)
    }

    /// Writes the answer.
    fn push(self, alloc: Global, out: &mut Vec<u8>) -> Result<(), AllocError>
        ensures { OnOk result (out.new.items ≡ out.old.items ++ answer_octets self) }
    {
        match self {
            Disconnected::Done => Reply::Done(b"disconnected\n").write(out),
            Disconnected::Unrecorded => {
                Reply::Refused(b"disconnected, but not recorded, and so not freed").write(out)
            }
            Disconnected::Refused(cause) => {
                let text = refusal(alloc, cause)?;
                Reply::Refused(text.as_slice()).write(out)
            }
            Disconnected::Unanswered => {
                Reply::Refused(b"no answer from the access server").write(out)
            }
        }
    }
}

/// Whether a server's reason is that the access server has not answered.
pub fn is_unanswered(text: &[u8]) -> bool
    ensures { result ≡ is_unanswered text.now }
{
    text == b"no answer from the access server".as_slice()
}

/// How an access server refuses, for the cause with this number if it gives one.
fn refusal(alloc: Global, cause: Option<u32>) -> Result<Vec<u8>, AllocError>
    ensures { IfOk result (λ text. text.items ≡ refusal cause) }
{
    let mut text = Vec::new(alloc);
    push_text(&mut text, "the access server refuses")?;
    if let Some(cause) = cause {
        push_cause(&mut text, cause)?;
    }
    Ok(text)
}

/// Writes the cause with this number, by its name if it has one.
fn push_cause(out: &mut Vec<u8>, cause: u32) -> Result<(), AllocError>
    ensures { OnOk result (out.new.items ≡ out.old.items ++ cause_text cause) }
{
    match cause_name(cause) {
        Some(name) => {
            push_text(out, ": ")?;
            push_text(out, name)
        }
        None => {
            push_text(out, ": Error-Cause ")?;
            push_decimal(out, u64::from(cause))
        }
    }
}

/// The UDP port to which a Disconnect-Request for a session of the client with this address goes,
/// where a link is bound to the session or not. `NoPort` comes if the client takes none, or there is
/// no such client, and else `NotHeld` if no link is.
pub fn disconnect_port(
    config: &Config,
    client: [u8; 4],
    is_held: bool,
) -> Result<u16, DisconnectFault>
    ensures { result ≡ sent_to (port_of config.now client) is_held }
{
    match port_of(config, client) {
        Some(port) => {
            if is_held {
                Ok(port)
            } else {
                Err(DisconnectFault::NotHeld)
            }
        }
        None => Err(DisconnectFault::NoPort),
    }
}

/// The UDP port at which the client with this address takes Disconnect-Requests, if it does.
fn port_of(config: &Config, client: [u8; 4]) -> Option<u16>
    ensures { result ≡ port_of config.now client }
{
    let client = config.client(client)?;
    config.client_at(client).disconnect
}
