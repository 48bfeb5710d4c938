//! Where the request to disconnect a session goes.

ghost use Rattle.std.specs.Prelude.{◌≡◌, ◌↔◌, IfOk, IsErrOf, None};
ghost use Rattle.std.specs.Arc.{arc_value};
ghost use Rattle.rsl_accounts.specs.Configuration.{account_number, client_number};
ghost use Rattle.rld_control.specs.Disconnecting.{port_of, sent_to};
ghost use Rattle.rld_state.specs.Disconnecting.{GoesTo};
ghost use Rattle.rld_state.specs.Held.{is_held_in};

use crate::state::ServerState;
use rld_control::{DisconnectFault, FreeFault, NamedSession, Stop, disconnect_port};
use rld_log::Log;
use rsl_wire::NoMemory;
use std::alloc::Global;

impl<L: Log + Drop> ServerState<L> {
    /// The UDP port to which the request to disconnect a session goes that an operator names: its
    /// client's, where a link is bound to the session; else why none goes.
    ///
    /// The faults are those of `Stop::of`.
    pub fn port_for(
        &self,
        alloc: Global,
        named: &NamedSession,
    ) -> Result<Result<u16, DisconnectFault>, FreeFault>
        ensures found { IfOk result
            (GoesTo (arc_value self.now.recorder.config) self.now.recorder.books named.now) }
        ensures account { IsErrOf result FreeFault.UnknownAccount ↔
            (account_number (arc_value self.now.recorder.config) named.now.account ≡ None) }
        ensures client { IsErrOf result FreeFault.UnknownClient →
            client_number (arc_value self.now.recorder.config) named.now.client ≡ None }
    {
        let stop = Stop::of(alloc, self.accounts(), self.boot(), named)?;
        Ok(self.port_by(alloc, named, &stop)?)
    }

    /// The same, by the Stop of that session.
    fn port_by(
        &self,
        alloc: Global,
        named: &NamedSession,
        stop: &Stop,
    ) -> Result<Result<u16, DisconnectFault>, NoMemory>
        ensures { IfOk result (λ found. found
            ≡ sent_to (port_of (arc_value self.now.recorder.config) named.now.client)
            (is_held_in self.now.recorder.books stop.now)) }
    {
        let is_held = self.holds(alloc, stop)?;
        Ok(disconnect_port(self.accounts(), named.client, is_held))
    }
}
