ghost use Rattle.std.specs.Prelude.{◌≡◌, ◌<◌, IfOk, length};
ghost use Rattle.std.specs.Int.{w64, from_be_bytes};
ghost use Rattle.rsl_wire.specs.Attributes.{first_of};
ghost use Rattle.rsl_wire.specs.Seen.{fields_of};
ghost use Rattle.rsl_event.specs.Accounting.{
  class_number,
  class_in,
  delay_in,
  unless_empty,
  note_of,
  if_session,
  session_act,
  status_meaning,
  accounting_meaning,
};
ghost use Rattle.rsl_event.specs.Detail.{GivesDetailed, request_status};
ghost use Rattle.rsl_event.specs.Meaning.{Gives};
ghost use Rattle.rsl_event.specs.declared.detail.Detail.TheVariants.{Accounting};

use crate::codes::{
    ACCOUNTING_REQUEST, ACCT_DELAY_TIME, ACCT_MULTI_SESSION_ID, ACCT_SESSION_ID, ACCT_STATUS_TYPE,
    CLASS, CLASS_LEN, USER_NAME,
};
use crate::detail::Detail;
use crate::event::Act;
use crate::meaning::{Dropped, Meaning, Note};
use crate::request::{
    access_server_of, account_named, has_long_proxy_states, most_proxy_len, text_of,
};
use crate::station::station_in;
use crate::status::Status;
use rsl_accounts::Config;
use rsl_auth::accounting_ok;
use rsl_wire::{Attrs, NoMemory, Octets, Packet};
use std::alloc::Global;

/// The meaning of a packet of this client on the accounting port, with its detail.
#[tactic(auto, unfolding(crate::specs::Accounting::accounting_meaning))]
pub(crate) fn accounting_meaning(
    alloc: Global,
    config: &Config,
    boot: u64,
    client: u32,
    packet: &Packet<'_>,
) -> Result<(Meaning, Detail), Dropped>
    requires { client < length config.now.clients }
    ensures meaning { GivesDetailed result
        (accounting_meaning config.now boot client (fields_of packet.now)) }
    ensures detail { IfOk result (λ found.
        found.1 ≡ Accounting (request_status (fields_of packet.now))) }
{
    if packet.code != ACCOUNTING_REQUEST {
        return Err(Dropped::WrongCode);
    }
    let secret = config.client_at(client).secret.expose();
    if !accounting_ok(packet.octets(), secret) {
        return Err(Dropped::BadAuthenticator);
    }
    let Ok(attributes) = packet.attributes() else {
        return Err(Dropped::Malformed);
    };
    if has_long_proxy_states(&attributes, most_proxy_len(config.unsigned_rule())) {
        return Err(Dropped::ProxyTooLong);
    }
    let Some(number) = attributes.number(ACCT_STATUS_TYPE) else {
        return Err(Dropped::NoStatus);
    };
    let meaning = status_meaning(alloc, config, boot, client, number, &attributes)?;
    Ok((meaning, Detail::Accounting(Status::from_number(number))))
}

/// The meaning of an accounting packet with this Acct-Status-Type.
#[tactic(auto, unfolding(crate::specs::Accounting::status_meaning))]
fn status_meaning(
    alloc: Global,
    config: &Config,
    boot: u64,
    client: u32,
    number: u32,
    attributes: &Attrs<'_>,
) -> Result<Meaning, Dropped>
    ensures { Gives result (status_meaning config.now boot client number attributes.now) }
{
    match Status::from_number(number) {
        Some(Status::AccountingOn | Status::AccountingOff) => Ok(Meaning::Restart {
            nas: access_server_of(alloc, config, client, attributes)?,
            delay: delay_in(config, attributes),
        }),
        Some(status) => session_meaning(alloc, config, boot, client, status, attributes),
        None => Ok(Meaning::Stray(note_of(alloc, config, client, number, attributes)?)),
    }
}

/// The meaning of a packet that reports on a session.
fn session_meaning(
    alloc: Global,
    config: &Config,
    boot: u64,
    client: u32,
    status: Status,
    attributes: &Attrs<'_>,
) -> Result<Meaning, Dropped>
    ensures { Gives result (if_session config.now boot client status attributes.now) }
{
    if text_of(attributes, ACCT_SESSION_ID).is_empty() {
        return Err(Dropped::NoSession);
    }
    Ok(match account_named(config, attributes.first(USER_NAME)) {
        Some(account) => Meaning::Own {
            account,
            act: session_act(alloc, config, boot, client, account, status, attributes)?,
        },
        None => Meaning::Stray(note_of(alloc, config, client, status.number(), attributes)?),
    })
}

/// The act of a session: it has ended, or goes on.
fn session_act(
    alloc: Global,
    config: &Config,
    boot: u64,
    client: u32,
    account: u32,
    status: Status,
    attributes: &Attrs<'_>,
) -> Result<Act, NoMemory>
    requires { account < length config.now.accounts }
    ensures { IfOk result (λ act.
        act ≡ session_act config.now boot client account status attributes.now) }
{
    let nas = access_server_of(alloc, config, client, attributes)?;
    let session = Octets::from_slice(alloc, text_of(attributes, ACCT_SESSION_ID))?;
    if let Status::Stop = status {
        return Ok(Act::Stop { nas, session });
    }
    let bundle = bundle_in(alloc, attributes)?;
    let class = class_in(boot, attributes);
    let station = station_in(alloc, config, account, attributes)?;
    Ok(Act::Alive {
        nas,
        session,
        bundle,
        class,
        station,
    })
}

/// How many seconds ago the access server restarted: its Acct-Delay-Time (RFC 2866 section 5.2), if the
/// configuration heeds it, else 0.
fn delay_in(config: &Config, attributes: &Attrs<'_>) -> u64
    ensures { result ≡ delay_in config.now attributes.now }
{
    if !config.heeds_delay_time() {
        return 0;
    }
    u64::from(attributes.number(ACCT_DELAY_TIME).unwrap_or(0))
}

/// The first Acct-Multi-Session-Id, unless it is empty.
fn bundle_in(alloc: Global, attributes: &Attrs<'_>) -> Result<Option<Octets>, NoMemory>
    ensures { IfOk result (λ bundle.
        bundle ≡ unless_empty (first_of ACCT_MULTI_SESSION_ID attributes.now)) }
{
    match attributes.first(ACCT_MULTI_SESSION_ID) {
        None | Some([]) => Ok(None),
        Some(id) => Ok(Some(Octets::from_slice(alloc, id)?)),
    }
}

/// The accept number of the first Class of this server.
fn class_in(boot: u64, attributes: &Attrs<'_>) -> Option<u64>
    ensures { result ≡ class_in boot attributes.now }
{
    for (kind, value) in attributes.iter() {
        if kind == CLASS {
            if let Some(number) = class_number(boot, value) {
                return Some(number);
            }
        }
    }
    None
}

/// The accept number in a Class value, if it is this server's.
fn class_number(boot: u64, value: &[u8]) -> Option<u64>
    ensures { result ≡ class_number boot value.now }
{
    if value.len() != CLASS_LEN {
        return None;
    }
    let (theirs, number) = value.split_at(8);
    if number_of(theirs) == boot {
        Some(number_of(number))
    } else {
        None
    }
}

/// Eight octets as a number, high octet first.
fn number_of(octets: &[u8]) -> u64
    requires { length octets.now ≡ 8 }
    ensures { result ≡ from_be_bytes w64 octets.now }
{
    u64::from_be_bytes([
        octets[0], octets[1], octets[2], octets[3], octets[4], octets[5], octets[6], octets[7],
    ])
}

/// The note of a packet with this Acct-Status-Type.
fn note_of(
    alloc: Global,
    config: &Config,
    client: u32,
    number: u32,
    attributes: &Attrs<'_>,
) -> Result<Note, NoMemory>
    ensures { IfOk result (λ note. note ≡ note_of config.now client number attributes.now) }
{
    Ok(Note {
        nas: access_server_of(alloc, config, client, attributes)?,
        status: number,
        name: Octets::from_slice(alloc, text_of(attributes, USER_NAME))?,
        session: Octets::from_slice(alloc, text_of(attributes, ACCT_SESSION_ID))?,
    })
}
