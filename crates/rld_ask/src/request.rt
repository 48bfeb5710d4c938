//! The Access-Request that an ask is.
ghost use Rattle.std.specs.Prelude.{◌≡◌, ◌+◌, ◌≤◌, [], List, ℕ, length, IfOk, IfSome, IsOk, IsOkUnless, OnOk, option_copied};
ghost use Rattle.md5.specs.Md5.{md5};
ghost use Rattle.rsl_auth.specs.Hmac.{IsKeyOf};
ghost use Rattle.rsl_event.specs.Draft.{with_more};
ghost use Rattle.rsl_wire.specs.Attributes.{list_octets};
ghost use Rattle.rsl_auth.specs.Signature.{signed};
ghost use Rattle.rsl_event.specs.declared.codes.TheConstants.{ACCESS_REQUEST};
ghost use Rattle.rsl_wire.specs.Packet.{packet_octets};
ghost use Rattle.rld_ask.specs.Request.{IsShort, ask_attributes, ask_octets, request_attributes, some_attribute};

use crate::form::AskForm;
use md5::{Digest, Md5};
use rsl_auth::HmacKey;
use rsl_event::Signing;
use rsl_event::codes::{ACCESS_REQUEST, NAS_IDENTIFIER, NAS_IP_ADDRESS, USER_NAME};
use rsl_wire::{BuildFault, Draft, NoMemory, Octets, TooLong};
use std::alloc::Global;

/// Calling-Station-Id (RFC 2865 section 5.31).
pub const CALLING_STATION_ID: u8 = 31;

const _: () = prove!(CALLING_STATION_ID == 31);

impl AskForm {
    /// The octets of the Access-Request that a client with the key of this secret would have sent for the
    /// ask (RFC 2865 section 4.1), without a password: its Request Authenticator is the MD5 digest of the
    /// ask's key, and its Identifier the first octet of that, so that a repeat has the same octets. Its
    /// Message-Authenticator stands first (RFC 3579 section 3.2). `TooLong` comes only where a value has over
    /// 253 octets, as none of a form that was read has, and `NoMemory` only where memory is refused.
    pub fn request(&self, alloc: Global, key: &HmacKey) -> Result<Vec<u8>, BuildFault>
        ensures octets { IfOk result (λ octets. (secret : List ℕ) → IsKeyOf secret key.now →
            octets.items ≡ ask_octets self.now secret) }
        ensures fits { IsShort self.now → IsOkUnless result BuildFault.NoMemory }
    {
        let authenticator = self.digest();
        let draft = self.draft(alloc, authenticator[0])?;
        Ok(finished(draft, &authenticator, key))
    }

    /// The Request Authenticator of the ask.
    fn digest(&self) -> [u8; 16]
        ensures { result ≡ md5 self.now.key }
    {
        Md5::digest(self.key.as_slice())
    }

    /// The request with this Identifier, without its header and the value of its Message-Authenticator.
    #[tactic(auto, using(crate::proofs::Requests::draft_written))]
    fn draft(&self, alloc: Global, id: u8) -> Result<Draft, BuildFault>
        ensures draft { IfOk result (λ draft. draft
            ≡ record { id = id; attributes = list_octets (request_attributes self.now) }) }
        ensures room { IfOk result (λ draft. 18 ≤ length draft.attributes) }
        ensures fits { IsShort self.now → IsOkUnless result BuildFault.NoMemory }
    {
        let mut draft = match Draft::new(alloc, id) {
            Ok(draft) => draft,
            Err(NoMemory) => return Err(BuildFault::NoMemory),
        };
        Signing::Signed.push(&mut draft);
        match self.push(&mut draft) {
            Ok(()) => Ok(draft),
            Err(TooLong) => Err(BuildFault::TooLong),
        }
    }

    /// Writes the attributes after the Message-Authenticator.
    #[tactic(auto, unfolding(crate::specs::Request::ask_attributes))]
    fn push(&self, draft: &mut Draft) -> Result<(), TooLong>
        ensures written { OnOk result
            (draft.new ≡ with_more draft.old (list_octets (ask_attributes self.now))) }
        ensures kept { OnOk result (length draft.old.attributes ≤ length draft.new.attributes) }
        ensures fits { IsShort self.now → length draft.old.attributes ≤ 18 → IsOk result }
    {
        draft.push(USER_NAME, self.name.as_slice())?;
        push_some(draft, NAS_IDENTIFIER, octets_in(&self.nas_identifier))?;
        push_some(draft, NAS_IP_ADDRESS, address_in(&self.nas_ip_address))?;
        push_some(
            draft,
            CALLING_STATION_ID,
            octets_in(&self.calling_station_id),
        )
    }
}

/// The octets of a request, with its header and the value of its Message-Authenticator, which stands first.
fn finished(draft: Draft, authenticator: &[u8; 16], key: &HmacKey) -> Vec<u8>
    requires { 18 ≤ length draft.attributes }
    ensures { (secret : List ℕ) → IsKeyOf secret key.now → result.items ≡ signed
        (packet_octets (record {
          code = ACCESS_REQUEST;
          id = draft.id;
          authenticator = authenticator.now;
          attributes = draft.attributes;
        }))
        22 authenticator.now secret }
{
    let octets = draft.finish(ACCESS_REQUEST, authenticator);
    Signing::Signed.sign(octets, authenticator, key)
}

/// The octets of a value, if it is there.
fn octets_in(value: &Option<Octets>) -> Option<&[u8]>
    ensures { option_copied result ≡ value.now }
{
    match value {
        Some(octets) => Some(octets.as_slice()),
        None => None,
    }
}

/// The octets of an address, if it is there.
fn address_in(value: &Option<[u8; 4]>) -> Option<&[u8]>
    ensures { option_copied result ≡ value.now }
{
    match value {
        Some(address) => Some(address.as_slice()),
        None => None,
    }
}

/// Writes an attribute, if its value is there.
fn push_some(draft: &mut Draft, kind: u8, value: Option<&[u8]>) -> Result<(), TooLong>
    ensures written { OnOk result (draft.new
        ≡ with_more draft.old (list_octets (some_attribute kind (option_copied value.entry)))) }
    ensures kept { OnOk result (length draft.old.attributes ≤ length draft.new.attributes) }
    ensures length { OnOk result
        (length draft.new.attributes ≤ length draft.old.attributes + 255) }
    ensures fits { IfSome (option_copied value.entry) (λ octets. length octets ≤ 253) →
        length draft.old.attributes ≤ 3000 → IsOk result }
{
    match value {
        Some(octets) => draft.push(kind, octets),
        None => Ok(()),
    }
}
