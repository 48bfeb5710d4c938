ghost use Rattle.std.specs.Prelude.{◌≡◌, None};
ghost use Rattle.rsl_accounts.specs.Configuration.{client_number};

use crate::unassigned::unassigned_address;
use rld_networks::Network;
use rsl_accounts::Config;

/// What is fixed for a server from one change of its accounts to the next.
#[derive(Clone, Copy)]
pub struct Present<'a> {
    /// The accounts, the clients and the rules.
    pub config: &'a Config,
    /// The networks that stand for clients.
    pub networks: &'a [Network],
    /// The boot number of its Classes.
    pub boot: u64,
    /// The number of their table: a turn is recorded while it is present, or not at all.
    pub table: u64,
    /// An address that no client has, for peers that stand for no client.
    pub(crate) nobody: [u8; 4],
    ghost unassigned: { client_number config.now nobody ≡ None },
}

impl<'a> Present<'a> {
    /// The present accounts, networks, boot number and number of the table.
    pub fn new(config: &'a Config, networks: &'a [Network], boot: u64, table: u64) -> Present<'a>
        ensures config { result.config.now ≡ config.entry.now }
        ensures networks { result.networks.now ≡ networks.entry.now }
        ensures boot { result.boot ≡ boot }
        ensures table { result.table ≡ table }
    {
        Present {
            config,
            networks,
            boot,
            table,
            nobody: unassigned_address(config),
        }
    }
}
