ghost use Rattle.std.specs.Prelude.{◌≡◌};
ghost use Rattle.rld_ask.specs.Form.{field_name, field_of};

/// A field of an ask's form.
#[derive(Clone, Copy, Debug)]
pub enum Field {
    /// The account's name: 1 to 253 octets.
    Name,
    /// What makes a repeat a repeat: 1 to 128 octets.
    Key,
    /// The NAS-Identifier of the access server: at most 253 octets.
    NasIdentifier,
    /// The NAS-IP-Address of the access server: four decimal numbers with dots between them.
    NasIpAddress,
    /// The Calling-Station-Id of the device: at most 253 octets.
    CallingStationId,
}

impl Field {
    /// The field of this name, if there is one.
    pub(crate) fn of_name(name: &[u8]) -> Option<Field>
        ensures { result ≡ field_of name.now }
    {
        if name == b"name".as_slice() {
            Some(Field::Name)
        } else if name == b"key".as_slice() {
            Some(Field::Key)
        } else if name == b"nas_identifier".as_slice() {
            Some(Field::NasIdentifier)
        } else if name == b"nas_ip_address".as_slice() {
            Some(Field::NasIpAddress)
        } else if name == b"calling_station_id".as_slice() {
            Some(Field::CallingStationId)
        } else {
            None
        }
    }

    /// Its name, as it stands in a form.
    pub fn name(self) -> &'static str
        ensures { result.now ≡ field_name self }
    {
        match self {
            Field::Name => "name",
            Field::Key => "key",
            Field::NasIdentifier => "nas_identifier",
            Field::NasIpAddress => "nas_ip_address",
            Field::CallingStationId => "calling_station_id",
        }
    }
}
