ghost use Rattle.std.specs.Prelude.{◌≡◌, ◌<◌, IfOk, OnErr, IsSome, length};
ghost use Rattle.rsl_event.specs.Station.{station_in};

use crate::codes::{CALLING_STATION_ID, MAX_STATION_LEN};
use rsl_accounts::Config;
use rsl_wire::{Attrs, NoMemory, Octets};
use std::alloc::Global;

/// The station of a request for this account: its first Calling-Station-Id (RFC 2865 section 5.31),
/// if that has 1 to 64 octets and the account counts by stations.
pub(crate) fn station_in(
    alloc: Global,
    config: &Config,
    account: u32,
    attributes: &Attrs<'_>,
) -> Result<Option<Octets>, NoMemory>
    requires { account < length config.now.accounts }
    ensures found { IfOk result (λ station. station ≡ station_in config.now account attributes.now) }
    ensures refused { OnErr result (IsSome (station_in config.now account attributes.now)) }
{
    if !config.counts_stations(account) {
        return Ok(None);
    }
    match attributes.first(CALLING_STATION_ID) {
        Some(value) if !value.is_empty() && value.len() <= MAX_STATION_LEN => Ok(Some(
            Octets::from_slice(alloc, value)?,
        )),
        _ => Ok(None),
    }
}
