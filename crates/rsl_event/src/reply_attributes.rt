ghost use Rattle.std.specs.Prelude.{◌≡◌, ◌+◌, ◌≤◌, length};
ghost use Rattle.std.specs.List.{AllByRecursion};
ghost use Rattle.rsl_accounts.specs.Limits.{RulesFit};
ghost use Rattle.rsl_wire.specs.Attributes.{IsAttribute, attribute_octets, list_octets};
ghost use Rattle.rsl_event.specs.Accounting.{class_number};
ghost use Rattle.rsl_event.specs.Answer.{
  accept_attributes,
  accept_octets,
  class_attribute,
  class_octets,
  limit_attributes,
  number_attribute,
  optional_attribute,
  port_limit_of,
};
ghost use Rattle.rsl_event.specs.Draft.{with_more};
ghost use Rattle.rsl_event.specs.Request.{proxy_states, proxy_len};

use crate::codes::{
    ACCT_INTERIM_INTERVAL, CLASS, CLASS_LEN, FRAMED_PROTOCOL, IDLE_TIMEOUT, PORT_LIMIT,
    PROXY_STATE, REPLY_MESSAGE, SERVICE_TYPE, SESSION_TIMEOUT,
};
use rsl_accounts::{Entry, Reply};
use rsl_wire::{Attrs, Draft};

/// Writes the attributes of an accept of this account.
pub(crate) fn push_accept(draft: &mut Draft, boot: u64, number: u64, entry: &Entry)
    requires room { length draft.old.attributes ≤ 18 }
    requires limits { RulesFit entry.now.rules }
    requires few { length entry.now.reply ≤ 1000 }
    ensures written { draft.new ≡ with_more draft.old (accept_octets boot number entry.now) }
    ensures short { length draft.new.attributes ≤ 72 + length entry.now.reply }
    ensures kept { length draft.old.attributes ≤ length draft.new.attributes }
{
    push_set(draft, boot, number, entry);
    push_reply(draft, &entry.reply);
}

/// Writes the attributes of an accept that the server sets.
fn push_set(draft: &mut Draft, boot: u64, number: u64, entry: &Entry)
    requires room { length draft.old.attributes ≤ 18 }
    requires limits { RulesFit entry.now.rules }
    ensures written { draft.new ≡ with_more draft.old
        (list_octets (accept_attributes boot number entry.now)) }
    ensures short { length draft.new.attributes ≤ 72 }
    ensures kept { length draft.old.attributes ≤ length draft.new.attributes }
{
    push_class(draft, boot, number);
    push_optional(draft, PORT_LIMIT, port_limit_of(entry));
    push_optional(draft, SERVICE_TYPE, entry.service_type);
    push_optional(draft, FRAMED_PROTOCOL, entry.framed_protocol);
    push_optional(draft, SESSION_TIMEOUT, entry.session_timeout);
    push_optional(draft, IDLE_TIMEOUT, entry.idle_timeout);
    push_optional(draft, ACCT_INTERIM_INTERVAL, entry.interim);
}

/// The Port-Limit of the account's accepts, if they have one.
fn port_limit_of(entry: &Entry) -> Option<u32>
    requires { RulesFit entry.now.rules }
    ensures { result ≡ port_limit_of entry.now }
{
    if entry.port_limit {
        Some(entry.rules.ports as u32)
    } else {
        None
    }
}

/// Writes an account's reply attributes, which stand ready as octets.
fn push_reply(draft: &mut Draft, reply: &Reply)
    requires room { length draft.old.attributes ≤ 72 }
    requires few { length reply.now ≤ 1000 }
    ensures written { draft.new ≡ with_more draft.old reply.now }
    ensures length { length draft.new.attributes ≡
        length draft.old.attributes + length reply.now }
{
    let (profile, own) = reply.parts();
    push_octets(draft, profile);
    push_octets(draft, own);
}

/// Writes the octets of attributes as they stand.
fn push_octets(draft: &mut Draft, octets: &[u8])
    requires { 20 + (length draft.old.attributes + length octets.now) ≤ 4096 }
    ensures written { draft.new ≡ with_more draft.old octets.now }
    ensures length { length draft.new.attributes ≡
        length draft.old.attributes + length octets.now }
{
    draft.push_octets(octets).unwrap();
}

/// Writes what a limit reject says.
pub(crate) fn push_limit_message(draft: &mut Draft)
    requires room { length draft.old.attributes ≤ 18 }
    ensures written { draft.new ≡ with_more draft.old (list_octets limit_attributes) }
    ensures short { length draft.new.attributes ≤ 72 }
{
    draft.push(REPLY_MESSAGE, b"Session limit reached").unwrap();
}

/// Writes the Proxy-State attributes among these, in order.
pub(crate) fn push_proxy_states(draft: &mut Draft, attributes: &Attrs<'_>)
    requires each { AllByRecursion IsAttribute attributes.now }
    requires room { 20 + (length draft.old.attributes + proxy_len attributes.now) ≤ 4096 }
    ensures { draft.new ≡ with_more draft.old (list_octets (proxy_states attributes.now)) }
{
    for (kind, value) in attributes.iter() {
        if kind == PROXY_STATE {
            draft.push(PROXY_STATE, value).unwrap();
        }
    }
}

/// Writes the Class of an accept: the boot number and the accept number, eight octets each.
fn push_class(draft: &mut Draft, boot: u64, number: u64)
    requires { length draft.old.attributes ≤ 66 }
    ensures written { draft.new ≡ with_more draft.old
        (attribute_octets (class_attribute boot number)) }
    ensures length { length draft.new.attributes ≡ length draft.old.attributes + 18 }
{
    draft.push(CLASS, &class_octets(boot, number)).unwrap();
}

/// The value of the Class of an accept: the boot number and the accept number, high octet first
/// (RFC 2865 section 5.25 leaves the value to the server).
///
/// | Octets | Field |
/// |---|---|
/// | 0 to 7 | the boot number |
/// | 8 to 15 | the accept number |
pub fn class_octets(boot: u64, number: u64) -> [u8; CLASS_LEN]
    ensures octets { result ≡ class_octets boot number }
    // The server reads the number again when an access server sends the Class back.
    ensures read { class_number boot result ≡ Some number }
{
    let mut value = [0u8; CLASS_LEN];
    value[..8].copy_from_slice(&boot.to_be_bytes());
    value[8..].copy_from_slice(&number.to_be_bytes());
    value
}

/// Writes an attribute whose value is a number of four octets, high octet first.
fn push_number(draft: &mut Draft, kind: u8, number: u32)
    requires { length draft.old.attributes ≤ 66 }
    ensures written { draft.new ≡ with_more draft.old
        (attribute_octets (number_attribute kind number)) }
    ensures length { length draft.new.attributes ≡ length draft.old.attributes + 6 }
{
    draft.push(kind, &number.to_be_bytes()).unwrap();
}

/// Writes an attribute of four octets, if there is a number.
fn push_optional(draft: &mut Draft, kind: u8, number: Option<u32>)
    requires { length draft.old.attributes ≤ 66 }
    ensures written { draft.new ≡ with_more draft.old
        (list_octets (optional_attribute kind number)) }
    ensures length { length draft.new.attributes ≤ length draft.old.attributes + 6 }
    ensures kept { length draft.old.attributes ≤ length draft.new.attributes }
{
    if let Some(number) = number {
        push_number(draft, kind, number);
    }
}
