ghost use Rattle.std.specs.Prelude.{◌≡◌, ◌≢◌, ◌≤◌, length, IfErr, IfOk, IfSome, Ok, Err};
ghost use Rattle.rld_ask.specs.Form.{form_in, form_of, address_in, needed, optional};
ghost use Rattle.rld_ask.specs.Request.{IsShort};
ghost use Rattle.rld_ask.specs.declared.fault.FormFault.TheVariants as faults;

use crate::fault::FormFault;
use crate::field::Field;
use crate::fields::Fields;
use rsl_accounts::address_of;
use rsl_wire::{MAX_VALUE_LEN, Octets};
use std::alloc::Global;

/// The most octets of a key.
pub const MAX_KEY_LEN: usize = 128;

const _: () = prove!(MAX_KEY_LEN == 128);

/// An ask: whether an account that was checked elsewhere has a place.
#[derive(Drop)]
pub struct AskForm {
    /// The account's name.
    pub name: Octets,
    /// What makes a repeat a repeat.
    pub key: Octets,
    /// The NAS-Identifier of the access server.
    pub nas_identifier: Option<Octets>,
    /// Its NAS-IP-Address.
    pub nas_ip_address: Option<[u8; 4]>,
    /// The Calling-Station-Id of the device.
    pub calling_station_id: Option<Octets>,
}

impl AskForm {
    /// The ask that a form has (`application/x-www-form-urlencoded`). The faults come in this order: of the
    /// first field that is not known, or is there more than once; then that of `name`, of `key`, of
    /// `nas_identifier`, of `nas_ip_address`, of `calling_station_id`; and last that the access server has
    /// neither name. A field that is empty is as one that is not there. `NoMemory` comes only where memory is
    /// refused.
    pub fn read(alloc: Global, form: &[u8]) -> Result<AskForm, FormFault>
        ensures ok { IfOk result (λ ask. form_of form.now ≡ Ok ask) }
        ensures fault { IfErr result (λ fault. fault ≢ faults.NoMemory → form_of form.now ≡ Err fault) }
        ensures short { IfOk result IsShort }
    {
        AskForm::of_fields(Fields::of(alloc, form)?)
    }

    /// The ask that these fields are.
    #[tactic(auto, unfolding(crate::specs::Form::form_in))]
    fn of_fields(fields: Fields) -> Result<AskForm, FormFault>
        ensures ask { result ≡ form_in fields }
        ensures short { IfOk result IsShort }
    {
        let Fields {
            name,
            key,
            nas_identifier,
            nas_ip_address,
            calling_station_id,
        } = fields;
        let name = needed(Field::Name, MAX_VALUE_LEN, name)?;
        let key = needed(Field::Key, MAX_KEY_LEN, key)?;
        let nas_identifier = optional(Field::NasIdentifier, nas_identifier)?;
        let nas_ip_address = address(nas_ip_address)?;
        let calling_station_id = optional(Field::CallingStationId, calling_station_id)?;
        if nas_identifier.is_none() && nas_ip_address.is_none() {
            return Err(FormFault::Missing(Field::NasIdentifier));
        }
        Ok(AskForm {
            name,
            key,
            nas_identifier,
            nas_ip_address,
            calling_station_id,
        })
    }
}

/// The value of a required field: 1 to `most` octets. `Missing`: it is not there, or empty. `Wrong`: it is longer.
fn needed(field: Field, most: usize, value: Option<Octets>) -> Result<Octets, FormFault>
    ensures value { result ≡ needed field most value }
    ensures short { IfOk result (λ octets. length octets ≤ most) }
{
    match value {
        Some(octets) if octets.len() > most => Err(FormFault::Wrong(field)),
        Some(octets) if !octets.is_empty() => Ok(octets),
        Some(_) | None => Err(FormFault::Missing(field)),
    }
}

/// The value of a field that may be left out, or empty: at most 253 octets. `Wrong`: it is longer.
fn optional(field: Field, value: Option<Octets>) -> Result<Option<Octets>, FormFault>
    ensures value { result ≡ optional field value }
    ensures short { IfOk result (λ found. IfSome found (λ octets. length octets ≤ 253)) }
{
    match value {
        Some(octets) if octets.len() > MAX_VALUE_LEN => Err(FormFault::Wrong(field)),
        Some(octets) if !octets.is_empty() => Ok(Some(octets)),
        Some(_) | None => Ok(None),
    }
}

/// The address that `nas_ip_address` is, where it is there.
fn address(value: Option<Octets>) -> Result<Option<[u8; 4]>, FormFault>
    ensures { result ≡ address_in value }
{
    match value {
        Some(octets) if !octets.is_empty() => match address_of(octets.as_slice()) {
            Some(address) => Ok(Some(address)),
            None => Err(FormFault::Wrong(Field::NasIpAddress)),
        },
        Some(_) | None => Ok(None),
    }
}
