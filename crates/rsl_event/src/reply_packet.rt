ghost use Rattle.std.specs.Prelude.{◌≡◌, ◌+◌, ◌<◌, ◌≤◌, [], List, ℕ, length, replicate, unwrap_or, vec_capacity, vec_len, IfOk, IfSome, IsOk, Ok};
ghost use Rattle.rsl_auth.specs.Hmac.{IsKeyOf};
ghost use Rattle.std.specs.List.{AllByRecursion};
ghost use Rattle.rsl_accounts.specs.Version.{reply_room};
ghost use Rattle.rsl_wire.specs.Attributes.{IsAttribute, attribute_list, attributes_in, list_octets};
ghost use Rattle.rsl_wire.specs.Packet.{packet_octets};
ghost use Rattle.rsl_wire.specs.Seen.{fields_of};
ghost use Rattle.rsl_event.specs.Answer.{
  answer,
  answer_to,
  code_of,
  decided_octets,
  repeated_attributes,
  said,
  said_octets,
};
ghost use Rattle.rsl_event.specs.Draft.{with_more};
ghost use Rattle.rsl_event.specs.Request.{proxy_len};
ghost use Rattle.rsl_event.specs.declared.meaning_kind.MeaningKind.TheVariants as kinds;
ghost use Rattle.rsl_event.specs.Signature.{reply_signing, signed_by};
ghost use Rattle.rsl_event.specs.Prepared.{CanReply, HasAsker, IsPrepared};

use crate::codes::{ACCESS_ACCEPT, ACCESS_REJECT, ACCOUNTING_RESPONSE, MESSAGE_AUTHENTICATOR};
use crate::event::Decision;
use crate::meaning::{Meaning, Prepared};
use crate::meaning_kind::MeaningKind;
use crate::reply_attributes::{push_accept, push_limit_message, push_proxy_states};
use crate::signing::Signing;
use crate::words::Said;
use rsl_accounts::{Config, UnsignedRule};
use rsl_auth::{HmacKey, sealed};
use rsl_wire::{Attrs, Draft, NoMemory, Packet};
use std::alloc::Global;

/// What is answered to a meaning. Only the answer to an ask depends on the decision; an ask that is
/// `Done` was not accepted.
pub fn said(meaning: &Meaning, decision: Decision) -> Said
    ensures { result ≡ said meaning.now decision }
{
    meaning.kind().said(decision)
}

/// A draft with room for the longest reply to a request, allocated before its step so that `reply`
/// allocates nothing. It fails only if that memory is refused.
pub fn room(alloc: Global, prepared: &Prepared<'_>) -> Result<Draft, NoMemory>
    ensures { IfOk result (λ draft.
        draft ≡ record { id = prepared.now.packet.id; attributes = [] }) }
{
    room_in(prepared, Vec::new(alloc))
}

/// `room` in the buffer of an earlier reply, whose octets are discarded: it allocates only if the
/// buffer holds fewer than 4,096 octets, and fails only if that memory is refused; then the buffer
/// is freed too.
pub fn room_in(prepared: &Prepared<'_>, earlier: Vec<u8>) -> Result<Draft, NoMemory>
    ensures draft { IfOk result (λ draft.
        draft ≡ record { id = prepared.now.packet.id; attributes = [] }) }
    ensures enough { 4096 ≤ vec_capacity earlier → IsOk result }
{
    Draft::in_room(earlier, prepared.packet.id)
}

/// The octets of the reply: Code, the request's Identifier, the attributes, and the Response
/// Authenticator over them and the client's secret (RFC 2865 section 3). In an answer to an
/// Access-Request that has a Message-Authenticator, or to any under a guard, its own comes first
/// (RFC 3579 section 3.2); Proxy-States come last, in their order (RFC 2865 section 5.33). It
/// allocates nothing: the draft is from `room` or `room_in`.
pub fn reply(
    prepared: &Prepared<'_>,
    config: &Config,
    boot: u64,
    decision: Decision,
    draft: Draft,
) -> Vec<u8>
    requires prepared { IsPrepared config.now prepared.now }
    requires room { draft ≡ record { id = prepared.now.packet.id; attributes = [] } }
    ensures { result.items ≡ answer config.now boot prepared.now.client
        (fields_of prepared.now.packet) prepared.now.meaning decision }
{
    let kind = prepared.meaning.kind();
    reply_to(
        &prepared.packet,
        prepared.client,
        kind,
        config,
        boot,
        decision,
        draft,
    )
}

/// `reply` to a packet whose meaning was moved away: its client and the kind of the meaning are
/// enough.
pub fn reply_to(
    request: &Packet<'_>,
    client: u32,
    kind: MeaningKind,
    config: &Config,
    boot: u64,
    decision: Decision,
    draft: Draft,
) -> Vec<u8>
    requires prepared { CanReply config.now client request.now.attrs.now kind }
    requires room { draft ≡ record { id = request.now.id; attributes = [] } }
    ensures { result.items ≡
        answer_to config.now boot client (fields_of request.now) kind decision }
{
    let word = kind.said(decision);
    let attributes = attributes_of(request, kind);
    let signing = reply_signing(config.unsigned_rule(), word, &attributes);
    let mut draft = draft;
    signing.push(&mut draft);
    write_said(config, boot, kind, decision, &mut draft);
    write_repeated(&attributes, kind, &mut draft);
    let request_auth = &request.authenticator;
    let secret = config.client_at(client).secret.expose();
    let key = config.hmac_key(client);
    let octets = finish(draft, code_of(word), signing, request_auth, key);
    sealed(octets, request_auth, secret)
}

/// The attributes of a request, or none of a bare one, whose list is malformed. The others are not
/// checked again.
fn attributes_of<'a>(request: &Packet<'a>, kind: MeaningKind) -> Option<Attrs<'a>>
    requires { (kind ≡ kinds.Bare → ⊥) → attribute_list request.now.attrs.now ≡
        Ok (attributes_in request.now.attrs.now) }
    ensures list { unwrap_or result [] ≡ attributes_in request.now.attrs.now }
    ensures each { IfSome result (AllByRecursion IsAttribute) }
{
    let MeaningKind::Bare = kind else {
        return Some(request.well_formed_attributes());
    };
    match request.attributes() {
        Ok(attributes) => Some(attributes),
        Err(_) => None,
    }
}

/// Whether a reply is signed: it is if it answers an Access-Request whose well-formed list has a
/// Message-Authenticator, or any under a guard.
fn reply_signing(rule: UnsignedRule, word: Said, request: &Option<Attrs<'_>>) -> Signing
    ensures { result ≡ reply_signing rule word (unwrap_or request.now []) }
{
    if let Said::Account = word {
        return Signing::Plain;
    }
    if let UnsignedRule::Guarded = rule {
        return Signing::Signed;
    }
    match request {
        Some(attributes) if attributes.count(MESSAGE_AUTHENTICATOR) > 0 => Signing::Signed,
        _ => Signing::Plain,
    }
}

/// The octets of a reply without the Response Authenticator, with the value of its
/// Message-Authenticator if it has one, as its first attribute.
fn finish(
    draft: Draft,
    code: u8,
    signing: Signing,
    request_auth: &[u8; 16],
    key: &HmacKey,
) -> Vec<u8>
    requires { signing ≡ Signing.Signed → 18 ≤ length draft.attributes }
    ensures octets { (secret : List ℕ) → IsKeyOf secret key.now → result.items ≡ signed_by signing
        (packet_octets (record {
          code = code;
          id = draft.id;
          authenticator = replicate 16 0;
          attributes = draft.attributes;
        }))
        request_auth.now secret }
    ensures header { 20 ≤ vec_len result }
{
    let octets = draft.finish(code, &[0; 16]);
    signing.sign(octets, request_auth, key)
}

/// The Code of a reply.
fn code_of(said: Said) -> u8
    ensures { result ≡ code_of said }
{
    match said {
        Said::Accept(_) => ACCESS_ACCEPT,
        Said::LimitReject | Said::Reject => ACCESS_REJECT,
        Said::Account => ACCOUNTING_RESPONSE,
    }
}

/// Writes the server's own attributes into a draft that has at most a Message-Authenticator.
fn write_said(config: &Config, boot: u64, kind: MeaningKind, decision: Decision, draft: &mut Draft)
    requires asker { HasAsker config.now kind }
    requires room { length draft.old.attributes ≤ 18 }
    ensures written { draft.new ≡ with_more draft.old
        (said_octets config.now boot kind decision) }
    ensures short { length draft.new.attributes ≤ 72 + reply_room config.now.settings.version }
    ensures kept { length draft.old.attributes ≤ length draft.new.attributes }
{
    if let MeaningKind::Ask(account) = kind {
        write_decision(config, boot, account, decision, draft);
    }
}

/// Writes the Proxy-States of the request.
fn write_repeated(request: &Option<Attrs<'_>>, kind: MeaningKind, draft: &mut Draft)
    requires each { IfSome request.now (AllByRecursion IsAttribute) }
    requires room { (kind ≡ kinds.Bare → ⊥) →
        20 + (length draft.old.attributes + proxy_len (unwrap_or request.now [])) ≤ 4096 }
    ensures written { draft.new ≡ with_more draft.old (list_octets (repeated_attributes
        (unwrap_or request.now []) kind)) }
    ensures kept { length draft.old.attributes ≤ length draft.new.attributes }
{
    if let MeaningKind::Bare = kind {
        return;
    }
    if let Some(attributes) = request {
        push_proxy_states(draft, attributes);
    }
}

/// Writes the attributes of a decision on an ask.
fn write_decision(config: &Config, boot: u64, account: u32, decision: Decision, draft: &mut Draft)
    requires account { account < length config.now.accounts }
    requires room { length draft.old.attributes ≤ 18 }
    ensures written { draft.new ≡ with_more draft.old
        (decided_octets config.now boot account decision) }
    ensures short { length draft.new.attributes ≤ 72 + reply_room config.now.settings.version }
    ensures kept { length draft.old.attributes ≤ length draft.new.attributes }
{
    match decision {
        Decision::Accept(number) => push_accept(draft, boot, number, config.entry(account)),
        Decision::LimitReject | Decision::Done => push_limit_message(draft),
    }
}
