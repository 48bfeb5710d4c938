//! Showing a running server.

use crate::health::Health;
use crate::look::{AccountsLook, Look};
use rsl_wire::NoMemory;
use std::io;
use std::net::Net;
use std::sync::Wait;
use std::time::Clock;

/// A server that can be shown.
///
/// To contracts it can say which looks are its own, so that what is made of a look can be said to be
/// of one that this server gave. By default it says nothing of them.
pub trait Shown {
    ghost use Rattle.std.specs.Prelude.{ℕ, IfOk};
    ghost use Rattle.rld_look.specs.declared.health.Health.{Health as OneHealth};
    ghost use Rattle.rld_look.specs.declared.look.AccountsLook.{AccountsLook as OneAccountsLook};
    ghost use Rattle.rld_look.specs.declared.look.Look.{Look as OneLook};

    /// Whether this look was taken of it at this moment.
    ghost shows: { ℕ → OneLook → Type 0 } = { λ _ _. Unit {0} };

    /// Whether its accounts have held this.
    ghost holds: { OneAccountsLook → Type 0 } = { λ _. Unit {0} };

    /// Whether it has been so.
    ghost fares: { OneHealth → Type 0 } = { λ _. Unit {0} };

    /// How it is, as far as its worker that makes ticks has seen. It reads two words, and waits for no lock:
    /// what its accounts hold counts for nothing here.
    fn health(&self) -> Health
        ensures fared { fares result };

    /// What it now shows of itself, for one who calls this moment `now`. It fails only if memory is
    /// refused.
    fn take_look(&self, now: u64) -> Result<Look, NoMemory>
        ensures shown { IfOk result (shows now) };

    /// What its accounts now hold. It fails only if memory is refused.
    fn take_accounts(&self) -> Result<AccountsLook, NoMemory>
        ensures held { IfOk result holds };

    /// Whether the server is to end.
    fn is_over(&self) -> bool;
}

/// Shows a server to clients, on its own thread.
pub trait Pages {
    /// Shows a server until it is to end, which is noticed within a second. The error is the
    /// system's, if waiting for clients fails.
    fn show<S: Shown, R: Net + Clock + Wait>(&self, rt: &R, server: &S) -> io::Result<()>;
}
