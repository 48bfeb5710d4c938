//! What an attribute of Type 26 carries.
ghost use Rattle.std.specs.Prelude.{◌≡◌, option_map};
ghost use Rattle.rld_attributes.specs.Carried.{carried, carried_by, of_vendor};

/// Vendor-Specific (RFC 2865 section 5.26).
const VENDOR_SPECIFIC: u8 = 26;

/// That of a vendor which the attribute carries, or the attribute itself: the vendor's number, 0 for none, the
/// Type and the value.
pub(crate) fn carried(kind: u8, value: &[u8]) -> (u32, u8, &[u8])
    ensures { (result.0, result.1, result.2.now) ≡ carried kind value.now }
{
    if kind == VENDOR_SPECIFIC {
        carried_or_itself(of_vendor(value), kind, value)
    } else {
        (0, kind, value)
    }
}

/// What an attribute carries, or else itself.
fn carried_or_itself<'a>(
    carried: Option<(u32, u8, &'a [u8])>,
    kind: u8,
    value: &'a [u8],
) -> (u32, u8, &'a [u8])
    ensures { (result.0, result.1, result.2.now) ≡
        carried_by (option_map (λ one. (one.0, one.1, one.2.now)) carried.entry) kind value.entry.now }
{
    match carried {
        Some(carried) => carried,
        None => (0, kind, value),
    }
}

/// The attribute of a vendor, if it is just one that has a value.
fn of_vendor(value: &[u8]) -> Option<(u32, u8, &[u8])>
    ensures { option_map (λ one. (one.0, one.1, one.2.now)) result ≡ of_vendor value.now }
{
    let [high, a, b, c, number, len, value @ ..] = value else {
        return None;
    };
    let vendor = u32::from_be_bytes([*high, *a, *b, *c]);
    let is_one = !value.is_empty() && usize::from(*len) == 2 + value.len();
    if *high == 0 && 0 < vendor && 0 < *number && is_one {
        Some((vendor, *number, value))
    } else {
        None
    }
}
