ghost use Rattle.std.specs.Prelude.{◌≡◌, ◌<◌, IfOk, Ok, Some, is_some, nat_lt};
ghost use Rattle.rsl_accounts.specs.Configuration.{client_number};
ghost use Rattle.rsl_accounts.specs.Limits.{IsConfiguration};
ghost use Rattle.rsl_event.specs.Meaning.{meaning};
ghost use Rattle.rsl_event.specs.Prepared.{GivesPrepared, HasOwnAct, IsPrepared};
ghost use Rattle.rsl_shard.specs.Restep.{new_books};
ghost use Rattle.rsl_shard.specs.Setup.{setup_of};
ghost use Rattle.rsl_service.specs.Receipts.{new_pass};
ghost use Rattle.rsl_service.specs.Service.{IsLedgerOf};
ghost use Rattle.rsl_service.specs.Shares.{whole};
ghost use Rattle.rsl_wire.specs.Packet.{packet_of};
ghost use Rattle.rsl_wire.specs.Seen.{fields_of};

use crate::desk::Desk;
use crate::fault::PassFault;
use crate::ledger::{Blanks, Shares, Tally};
use crate::pass::{Pass, PassBook};
use rsl_accounts::Config;
use rsl_event::{Dropped, Port, Prepared, Source, prepare};
use rsl_wire::NoMemory;
use std::alloc::Global;
use std::marker::Model;
use std::sync::ledger::{Blank, Share};
use std::sync::{Mutex, Wait};

/// A hook that is called after each step of a shard, before its lock is released.
///
/// A server's does nothing. A test's can block a call, to show which others go on beside it.
pub trait Gate {
    /// A step of the shard with this number was made.
    fn at(&self, shard: u32);
}

/// A gate that blocks no call.
#[derive(Clone, Copy, Drop)]
pub struct Open;

impl Gate for Open {
    fn at(&self, _shard: u32) {}
}

/// The shards of a configuration, each under a lock of its own.
///
/// A contract sees the configuration. The type guarantees that there is a lock for each shard, and
/// that each ledger is that of its shard.
#[derive(Drop)]
pub(crate) struct Desks<L0: Tally, L1: Tally, L2: Tally, L3: Tally> {
    pub(crate) config: Config,
    pub(crate) desk0: Mutex<Desk<L0>>,
    pub(crate) desk1: Option<Mutex<Desk<L1>>>,
    pub(crate) desk2: Option<Mutex<Desk<L2>>>,
    pub(crate) desk3: Option<Mutex<Desk<L3>>>,
}

impl<L0: Tally, L1: Tally, L2: Tally, L3: Tally> Model for Desks<L0, L1, L2, L3> {
    ghost use Rattle.std.specs.Prelude.{◌≡◌, nat_lt, is_some};
    ghost use Rattle.rsl_accounts.specs.Configuration.{Configuration};
    ghost use Rattle.rsl_accounts.specs.Limits.{IsConfiguration};
    ghost use Rattle.rsl_shard.specs.Restep.{new_books};
    ghost use Rattle.rsl_shard.specs.Setup.{setup_of};

    ghost Value = { Configuration };

    ghost view = { λ desks. desks.config };

    ghost invariant = { λ desks.
        IsConfiguration desks.config
        × (L0.setup ≡ setup_of desks.config 0)
        × (L1.setup ≡ setup_of desks.config 1)
        × (L2.setup ≡ setup_of desks.config 2)
        × (L3.setup ≡ setup_of desks.config 3)
        × (is_some desks.desk1 ≡ nat_lt 1 desks.config.settings.shards)
        × (is_some desks.desk2 ≡ nat_lt 2 desks.config.settings.shards)
        × (is_some desks.desk3 ≡ nat_lt 3 desks.config.settings.shards)
        × (L0.books ≡ new_books desks.config 0)
        × (L1.books ≡ new_books desks.config 1)
        × (L2.books ≡ new_books desks.config 2)
        × (L3.books ≡ new_books desks.config 3) };
}

impl<L0: Tally, L1: Tally, L2: Tally, L3: Tally> Desks<L0, L1, L2, L3> {
    /// Shards of new books, with all shares of their ledgers. It fails only if memory is refused.
    fn new(
        alloc: Global,
        blanks: Blanks,
        config: Config,
    ) -> Result<(Desks<L0, L1, L2, L3>, Shares<L0, L1, L2, L3>), NoMemory>
        requires ledger0 { IsLedgerOf config 0
            blanks.blank0.name blanks.blank0.parts L0.name L0.parts L0.setup L0.books }
        requires ledger1 { IsLedgerOf config 1
            blanks.blank1.name blanks.blank1.parts L1.name L1.parts L1.setup L1.books }
        requires ledger2 { IsLedgerOf config 2
            blanks.blank2.name blanks.blank2.parts L2.name L2.parts L2.setup L2.books }
        requires ledger3 { IsLedgerOf config 3
            blanks.blank3.name blanks.blank3.parts L3.name L3.parts L3.setup L3.books }
        ensures config { IfOk result (λ made. made.0 ≡ config) }
        ensures shares { IfOk result (λ made. made.1 ≡ whole) }
    {
        let Blanks {
            blank0,
            blank1,
            blank2,
            blank3,
        } = blanks;
        // All four are tested together, which makes fewer exits. Shard 0 comes last, since every
        // configuration has it, as a clause of the others says.
        let second = desk_if_there(alloc, &config, 1, blank1);
        let third = desk_if_there(alloc, &config, 2, blank2);
        let fourth = desk_if_there(alloc, &config, 3, blank3);
        let first = Desk::new(alloc, &config, 0, blank0);
        let (Ok((desk0, share0)), Ok((desk1, share1)), Ok((desk2, share2)), Ok((desk3, share3))) = (
            first, second, third, fourth,
        ) else {
            return Err(NoMemory);
        };
        let desks = Desks {
            config,
            desk0: Mutex::new(desk0),
            desk1,
            desk2,
            desk3,
        };
        let shares = Shares {
            share0,
            share1,
            share2,
            share3,
        };
        Ok((desks, shares))
    }

    /// The configuration.
    pub(crate) fn config(&self) -> &Config
        ensures config { result.now ≡ self.now }
        ensures limits { IsConfiguration self.now }
    {
        &self.config
    }
}

/// The lock of a shard with all shares of its ledger, if the configuration has the shard.
fn desk_if_there<L: Tally>(
    alloc: Global,
    config: &Config,
    number: u32,
    blank: Blank,
) -> Result<(Option<Mutex<Desk<L>>>, Share<L>), NoMemory>
    requires setup { L.setup ≡ setup_of config.now number }
    requires books { L.books ≡ new_books config.now number }
    requires name { blank.name ≡ L.name }
    requires parts { blank.parts ≡ L.parts }
    ensures there { IfOk result (λ made.
        is_some made.0 ≡ nat_lt number config.now.settings.shards) }
    ensures parts { IfOk result (λ made. made.1.parts ≡ L.parts) }
    ensures amount { IfOk result (λ made. made.1.amount ≡ 0) }
    ensures limits { IsConfiguration config.now }
{
    if number >= config.shards() {
        let (_ledger, share) = blank.open::<L>();
        return Ok((None, share));
    }
    let (desk, share) = Desk::new(alloc, config, number, blank)?;
    Ok((Some(Mutex::new(desk)), share))
}

/// Shards of accounts, each under a lock of its own, which any number of callers share.
///
/// A contract sees the configuration and the boot number. Each shard has a ledger, which is a type:
/// so a lock protects the shard of this number and configuration, and each pass's share counts the
/// moves that its holder made there.
#[derive(Drop)]
pub struct Service<L0: Tally, L1: Tally, L2: Tally, L3: Tally, G: Gate> {
    pub(crate) desks: Desks<L0, L1, L2, L3>,
    pub(crate) boot: u64,
    pub(crate) gate: G,
    pub(crate) passes: Mutex<PassBook<L0, L1, L2, L3>>,
}

impl<L0: Tally, L1: Tally, L2: Tally, L3: Tally, G: Gate> Model for Service<L0, L1, L2, L3, G> {
    ghost use Rattle.rsl_service.specs.Service.{ServiceSeen};

    ghost Value = { ServiceSeen };

    ghost view = { λ service. record { config = service.desks; boot = service.boot } };
}

impl<L0: Tally, L1: Tally, L2: Tally, L3: Tally, G: Gate + Drop> Service<L0, L1, L2, L3, G> {
    /// A service of new books that has opened no pass. It fails only if memory is refused.
    ///
    /// Each blank has 1,025 parts, and becomes the ledger of its shard. The boot number tells this
    /// run of the server from others: it is in the Class of each accept. The gate is called at each
    /// step; a server's is `Open`.
    pub fn new(
        alloc: Global,
        blanks: Blanks,
        config: Config,
        boot: u64,
        gate: G,
    ) -> Result<Service<L0, L1, L2, L3, G>, NoMemory>
        requires ledger0 { IsLedgerOf config 0
            blanks.blank0.name blanks.blank0.parts L0.name L0.parts L0.setup L0.books }
        requires ledger1 { IsLedgerOf config 1
            blanks.blank1.name blanks.blank1.parts L1.name L1.parts L1.setup L1.books }
        requires ledger2 { IsLedgerOf config 2
            blanks.blank2.name blanks.blank2.parts L2.name L2.parts L2.setup L2.books }
        requires ledger3 { IsLedgerOf config 3
            blanks.blank3.name blanks.blank3.parts L3.name L3.parts L3.setup L3.books }
        ensures { IfOk result (λ service. service ≡ record { config = config; boot = boot }) }
    {
        let (desks, shares) = Desks::new(alloc, blanks, config)?;
        Ok(Service {
            desks,
            boot,
            gate,
            passes: Mutex::new(PassBook::new(shares)),
        })
    }
}

impl<L0: Tally, L1: Tally, L2: Tally, L3: Tally, G: Gate> Service<L0, L1, L2, L3, G> {
    /// The configuration of the service.
    pub fn config(&self) -> &Config
        ensures config { result.now ≡ self.now.config }
        ensures limits { IsConfiguration self.now.config }
    {
        self.desks.config()
    }

    /// The meaning of a datagram to this service, or why it is dropped: `prepare` of `rsl_event`.
    /// It takes no lock.
    pub fn prepare<'a>(
        &self,
        alloc: Global,
        port: Port,
        source: Source,
        datagram: &'a [u8],
    ) -> Result<Prepared<'a>, Dropped>
        ensures meaning { GivesPrepared result
            (meaning self.now.config self.now.boot port source datagram.now) }
        ensures packet { IfOk result (λ prepared.
            packet_of datagram.now ≡ Ok (fields_of prepared.packet)) }
        ensures client { IfOk result (λ prepared.
            client_number self.now.config source.address ≡ Some prepared.client) }
        ensures own { IfOk result (λ prepared. HasOwnAct prepared.meaning) }
        ensures prepared { IfOk result (λ prepared. IsPrepared self.now.config prepared) }
    {
        prepare(alloc, self.config(), self.boot, port, source, datagram)
    }

    /// A new pass, with no receipts. `TooMany` comes if 1,024 were opened, else `NoMemory` if
    /// memory is refused.
    pub fn open_pass<R: Wait>(
        &self,
        rt: &R,
        alloc: Global,
    ) -> Result<Pass<L0, L1, L2, L3>, PassFault>
        ensures { IfOk result (λ pass. pass ≡ new_pass) }
    {
        self.passes.lock(rt).open(alloc)
    }
}
