ghost use Rattle.std.specs.Prelude.{◌≡◌};
ghost use Rattle.std.specs.Arc.{arc_value};

use rld_edges::StatusService;
use rld_log::Log;
use rld_networks::Network;
use rld_state::ServerState;
use rld_turn::Present;
use rsl_accounts::Config;
use rsl_event::Port;
use std::sync::Arc;

/// The present accounts, clients and rules of a server, the boot number of its Classes, and the number
/// of their table.
///
/// A receiver holds a read guard on it for a turn, and so does a look at the server, so that all of
/// it is of the same accounts. A reload changes it under a write guard. Only a state makes one.
#[derive(Drop)]
pub struct Current {
    /// The accounts, the clients and the rules.
    pub config: Arc<Config>,
    boot: u64,
    table: u64,
}

impl Current {
    /// What is present in a state, by another handle to its accounts.
    pub fn of<L: Log + Drop>(state: &ServerState<L>, config: Arc<Config>) -> Current
        requires { arc_value config ≡ arc_value state.now.recorder.config }
        ensures config { result.config ≡ config }
        ensures boot { result.boot ≡ state.now.recorder.header.boot }
        ensures table { result.table ≡ state.now.recorder.header.table }
    {
        Current {
            config,
            boot: state.boot(),
            table: state.table(),
        }
    }

    /// What turns depend on.
    pub fn present<'b>(&'b self, networks: &'b [Network]) -> Present<'b>
        ensures config { result.config.now ≡ arc_value self.now.config }
        ensures networks { result.networks.now ≡ networks.now }
        ensures boot { result.boot ≡ self.now.boot }
        ensures table { result.table ≡ self.now.table }
    {
        Present::new(&*self.config, networks, self.boot, self.table)
    }

    /// What answers the Status-Server packets of a port.
    pub fn status<'b>(&'b self, networks: &'b [Network], port: Port) -> StatusService<'b>
        ensures config { result.present.config.now ≡ arc_value self.now.config }
        ensures networks { result.present.networks.now ≡ networks.now }
        ensures port { result.port ≡ port }
    {
        StatusService {
            present: self.present(networks),
            port,
        }
    }
}
