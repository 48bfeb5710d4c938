ghost use Rattle.std.specs.Prelude.{◌≡◌, IfOk, Ok, Some};
ghost use Rattle.rsl_accounts.specs.Configuration.{client_number};
ghost use Rattle.rsl_wire.specs.Packet.{packet_of};
ghost use Rattle.rsl_wire.specs.Seen.{fields_of};
ghost use Rattle.rsl_event.specs.Meaning.{meaning};
ghost use Rattle.rsl_event.specs.Detail.{detail_of};
ghost use Rattle.rsl_event.specs.Prepared.{GivesPrepared, HasOwnAct, IsPrepared, prepared_in};

use crate::access::access_meaning;
use crate::accounting::accounting_meaning;
use crate::detail::Detail;
use crate::event::Source;
use crate::meaning::{Dropped, Port, Prepared};
use rsl_accounts::Config;
use rsl_wire::{WireFault, read};
use std::alloc::Global;

/// A datagram that was understood, with its detail.
#[derive(Drop)]
pub struct Detailed<'a> {
    /// Its packet, its client and its meaning.
    pub prepared: Prepared<'a>,
    /// What counters and log lines say of it besides.
    pub detail: Detail,
}

/// The meaning of a datagram that came from `source` to `port` of the server with this boot number
/// (RFC 2865 sections 3 and 4.1, RFC 2866 sections 3 and 4.1), or why it is dropped: the first
/// cause that applies, in the order of `Dropped`. `NoMemory` comes only if memory is refused for a
/// meaning with octets of its own, after every other check.
pub fn prepare<'a>(
    alloc: Global,
    config: &Config,
    boot: u64,
    port: Port,
    source: Source,
    datagram: &'a [u8],
) -> Result<Prepared<'a>, Dropped>
    // The meaning, or the drop, is that of the definition.
    ensures meaning { GivesPrepared result (meaning config.now boot port source datagram.now) }
    // The packet is that of the datagram.
    ensures packet { IfOk result (λ prepared.
        packet_of datagram.now ≡ Ok (fields_of prepared.packet)) }
    // The client is that of the source.
    ensures client { IfOk result (λ prepared.
        client_number config.now source.address ≡ Some prepared.client) }
    // An act of one account is an ask, an alive or a stop.
    ensures own { IfOk result (λ prepared. HasOwnAct prepared.meaning) }
    // What `reply` requires.
    ensures prepared { IfOk result (λ prepared. IsPrepared config.now prepared) }
{
    let detailed = prepare_in_detail(alloc, config, boot, port, source, datagram)?;
    Ok(detailed.prepared)
}

/// `prepare`, with the detail that the same walk over the attributes finds.
#[tactic(auto, unfolding(crate::specs::Meaning::meaning))]
pub fn prepare_in_detail<'a>(
    alloc: Global,
    config: &Config,
    boot: u64,
    port: Port,
    source: Source,
    datagram: &'a [u8],
) -> Result<Detailed<'a>, Dropped>
    ensures meaning { GivesPrepared (prepared_in result)
        (meaning config.now boot port source datagram.now) }
    ensures packet { IfOk result (λ found.
        packet_of datagram.now ≡ Ok (fields_of found.prepared.packet)) }
    ensures client { IfOk result (λ found.
        client_number config.now source.address ≡ Some found.prepared.client) }
    ensures own { IfOk result (λ found. HasOwnAct found.prepared.meaning) }
    ensures prepared { IfOk result (λ found. IsPrepared config.now found.prepared) }
    ensures detail { IfOk result (λ found.
        detail_of config.now port source datagram.now ≡ Some found.detail) }
{
    let packet = match read(datagram) {
        Ok(packet) => packet,
        Err(WireFault::Short) => return Err(Dropped::Short),
        Err(WireFault::BadLength) => return Err(Dropped::BadLength),
    };
    let Some(client) = config.client(source.address) else {
        return Err(Dropped::UnknownClient);
    };
    let found = match port {
        Port::Auth => access_meaning(alloc, config, client, source, &packet)?,
        Port::Acct => accounting_meaning(alloc, config, boot, client, &packet)?,
    };
    let (meaning, detail) = found;
    let prepared = Prepared {
        packet,
        client,
        meaning,
    };
    Ok(Detailed { prepared, detail })
}
