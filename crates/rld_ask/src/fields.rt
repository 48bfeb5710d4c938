//! The fields of a form, as they are found one after the other.
ghost use Rattle.std.specs.Prelude.{◌≡◌, ◌≢◌, [], is_some, map, IfErr, IfOk, Ok, Err};
ghost use Rattle.form_urlencoded.specs.Form.{decode, plus_to_space, raw_pairs};
ghost use Rattle.rld_ask.specs.Form.{no_fields, value_in, with_pair, with_pairs, with_value};
ghost use Rattle.rld_ask.specs.declared.fault.FormFault.TheVariants as faults;

use crate::fault::FormFault;
use crate::field::Field;
use form_urlencoded::raw_pairs;
use percent_encoding::percent_decode;
use rsl_wire::{NoMemory, Octets};
use std::alloc::{AllocError, Global};

/// The values of a form's fields.
#[derive(Drop)]
pub(crate) struct Fields {
    pub(crate) name: Option<Octets>,
    pub(crate) key: Option<Octets>,
    pub(crate) nas_identifier: Option<Octets>,
    pub(crate) nas_ip_address: Option<Octets>,
    pub(crate) calling_station_id: Option<Octets>,
}

impl Fields {
    /// The fields of a form (the URL Standard's `application/x-www-form-urlencoded`), of which each is there
    /// at most once. The fault is that of the first field that has one. `NoMemory` comes only where memory
    /// is refused.
    pub(crate) fn of(alloc: Global, form: &[u8]) -> Result<Fields, FormFault>
        ensures ok { IfOk result (λ fields. with_pairs no_fields (raw_pairs form.now) ≡ Ok fields) }
        ensures fault { IfErr result (λ fault. fault ≢ faults.NoMemory →
            with_pairs no_fields (raw_pairs form.now) ≡ Err fault) }
    {
        let mut fields = Fields::none();
        for (name, value) in raw_pairs(form) {
            fields = fields.with_pair(alloc, name, value)?;
        }
        Ok(fields)
    }

    /// No fields.
    fn none() -> Fields
        ensures { result ≡ no_fields }
    {
        Fields {
            name: None,
            key: None,
            nas_identifier: None,
            nas_ip_address: None,
            calling_station_id: None,
        }
    }

    /// The fields with one more, of which the name and the value are still encoded.
    fn with_pair(self, alloc: Global, name: &[u8], value: &[u8]) -> Result<Fields, FormFault>
        ensures ok { IfOk result (λ fields. with_pair self (name.now, value.now) ≡ Ok fields) }
        ensures fault { IfErr result (λ fault. fault ≢ faults.NoMemory →
            with_pair self (name.now, value.now) ≡ Err fault) }
    {
        let name = decoded(alloc, name)?;
        let value = decoded(alloc, value)?;
        let Some(field) = Field::of_name(name.as_slice()) else {
            return Err(FormFault::Unknown);
        };
        if self.has(field) {
            return Err(FormFault::Twice(field));
        }
        Ok(self.with_value(field, value))
    }

    /// Whether a field is there.
    fn has(&self, field: Field) -> bool
        ensures { result ≡ is_some (value_in self.now field) }
    {
        match field {
            Field::Name => self.name.is_some(),
            Field::Key => self.key.is_some(),
            Field::NasIdentifier => self.nas_identifier.is_some(),
            Field::NasIpAddress => self.nas_ip_address.is_some(),
            Field::CallingStationId => self.calling_station_id.is_some(),
        }
    }

    /// The fields, of which this one has that value.
    fn with_value(self, field: Field, value: Octets) -> Fields
        ensures { result ≡ with_value field value self }
    {
        let mut fields = self;
        match field {
            Field::Name => fields.name = Some(value),
            Field::Key => fields.key = Some(value),
            Field::NasIdentifier => fields.nas_identifier = Some(value),
            Field::NasIpAddress => fields.nas_ip_address = Some(value),
            Field::CallingStationId => fields.calling_station_id = Some(value),
        }
        fields
    }
}

/// The octets that an encoded name or value stands for: `+` is a space, and `%` with two hexadecimal
/// digits an octet. It fails only where memory is refused.
fn decoded(alloc: Global, encoded: &[u8]) -> Result<Octets, NoMemory>
    ensures { IfOk result (λ octets. octets ≡ decode encoded.now) }
{
    let spaced = spaced(alloc, encoded)?;
    let mut octets = Vec::new(alloc);
    percent_decode(spaced.as_slice()).append_to(&mut octets)?;
    Octets::from_slice(alloc, octets.as_slice())
}

/// The octets with a space in place of each `+`.
fn spaced(alloc: Global, encoded: &[u8]) -> Result<Vec<u8>, AllocError>
    ensures { IfOk result (λ octets. octets.items ≡ map plus_to_space encoded.now) }
{
    let spaced = encoded.iter().map(|&b| if b == b'+' { b' ' } else { b });
    Ok(spaced.collect(alloc)?)
}
