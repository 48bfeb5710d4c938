ghost use Rattle.std.specs.Prelude.{◌≡◌, ◌+◌, ◌≤◌, ◌++◌, [], length, IfOk};
ghost use Rattle.rsl_auth.specs.Authenticator.{sealed};
ghost use Rattle.rsl_wire.specs.Attributes.{attribute_octets, attribute_of, list_octets};
ghost use Rattle.rsl_event.specs.Answer.{number_attribute};
ghost use Rattle.rsl_event.specs.Status.{status_number};
ghost use Rattle.rsl_replay.specs.Attributes.{text_attribute};
ghost use Rattle.rsl_replay.specs.Accounting.{
  class_attributes,
  delay_attributes,
  accounting_attributes,
  accounting_octets,
};

use rsl_auth::sealed;
use rsl_event::codes::{
    ACCOUNTING_REQUEST, ACCT_DELAY_TIME, ACCT_MULTI_SESSION_ID, ACCT_SESSION_ID, ACCT_STATUS_TYPE,
    CALLING_STATION_ID, CLASS, NAS_IDENTIFIER, USER_NAME,
};
use rsl_event::{Status, class_octets};
use rsl_script::{AccountingRequest, AttributeText};
use rsl_wire::{Draft, NoMemory};
use std::alloc::Global;

/// The Identifier of each Accounting-Request.
const IDENTIFIER: u8 = 0;

/// The octets of the Accounting-Request, for a client with this secret (RFC 2866 section 4.1). Its
/// Class, if it has one, is of the server with this boot number. It fails only if memory is
/// refused.
pub(crate) fn accounting_octets(
    alloc: Global,
    boot: u64,
    request: &AccountingRequest,
    secret: &[u8],
) -> Result<Vec<u8>, NoMemory>
    ensures { IfOk result (λ octets. octets.items ≡ accounting_octets boot request.now secret.now) }
{
    let mut draft = Draft::new(alloc, IDENTIFIER)?;
    write_request(&mut draft, boot, request);
    let octets = draft.finish(ACCOUNTING_REQUEST, &[0; 16]);
    Ok(sealed(octets, &[0; 16], secret))
}

/// Writes the attributes of the request into an empty draft.
fn write_request(draft: &mut Draft, boot: u64, request: &AccountingRequest)
    requires { draft.old.attributes ≡ [] }
    ensures { draft.new ≡ record draft.old {
      attributes = list_octets (accounting_attributes boot request.now);
    } }
{
    match request {
        AccountingRequest::Session {
            status,
            nas,
            name,
            session,
            bundle,
            class,
            station,
        } => {
            push_status(draft, *status);
            push_text(draft, NAS_IDENTIFIER, nas);
            push_value(draft, USER_NAME, name.as_slice());
            push_value(draft, ACCT_SESSION_ID, session.as_slice());
            push_text(draft, ACCT_MULTI_SESSION_ID, bundle);
            push_class(draft, boot, *class);
            push_text(draft, CALLING_STATION_ID, station);
        }
        AccountingRequest::Server { status, nas, delay } => {
            push_status(draft, *status);
            push_text(draft, NAS_IDENTIFIER, nas);
            push_delay(draft, *delay);
        }
    }
}

/// Writes the Acct-Status-Type.
fn push_status(draft: &mut Draft, status: Status)
    requires { length draft.old.attributes ≤ 2048 }
    ensures written { draft.new ≡ record draft.old {
      attributes = draft.old.attributes ++
          attribute_octets (number_attribute ACCT_STATUS_TYPE (status_number status));
    } }
    ensures length { length draft.new.attributes ≡ length draft.old.attributes + 6 }
{
    draft
        .push(ACCT_STATUS_TYPE, &status.number().to_be_bytes())
        .unwrap();
}

/// Writes an attribute.
pub(crate) fn push_value(draft: &mut Draft, kind: u8, value: &[u8])
    requires room { length draft.old.attributes ≤ 2048 }
    requires short { length value.now ≤ 253 }
    ensures written { draft.new ≡ record draft.old {
      attributes = draft.old.attributes ++ attribute_octets (attribute_of kind value.now);
    } }
    ensures length { length draft.new.attributes ≡
        length draft.old.attributes + (2 + length value.now) }
{
    draft.push(kind, value).unwrap();
}

/// Writes an attribute whose value is a text, if there is one.
pub(crate) fn push_text(draft: &mut Draft, kind: u8, text: &Option<AttributeText>)
    requires { length draft.old.attributes ≤ 2048 }
    ensures written { draft.new ≡ record draft.old {
      attributes = draft.old.attributes ++ list_octets (text_attribute kind text.now);
    } }
    ensures length { length draft.new.attributes ≤ length draft.old.attributes + 255 }
    ensures more { length draft.old.attributes ≤ length draft.new.attributes }
{
    if let Some(text) = text {
        draft.push(kind, text.as_slice()).unwrap();
    }
}

/// Writes the Class of the server with this boot number, if there is a class number.
fn push_class(draft: &mut Draft, boot: u64, number: Option<u64>)
    requires { length draft.old.attributes ≤ 2048 }
    ensures written { draft.new ≡ record draft.old {
      attributes = draft.old.attributes ++ list_octets (class_attributes boot number);
    } }
    ensures length { length draft.new.attributes ≤ length draft.old.attributes + 18 }
{
    if let Some(number) = number {
        draft.push(CLASS, &class_octets(boot, number)).unwrap();
    }
}

/// Writes the Acct-Delay-Time, if there is a delay, in seconds.
fn push_delay(draft: &mut Draft, delay: Option<u32>)
    requires { length draft.old.attributes ≤ 2048 }
    ensures { draft.new ≡ record draft.old {
      attributes = draft.old.attributes ++ list_octets (delay_attributes delay);
    } }
{
    if let Some(delay) = delay {
        draft.push(ACCT_DELAY_TIME, &delay.to_be_bytes()).unwrap();
    }
}
