//! The walk over settings, clients and accounts, which checks their values.
ghost use Rattle.std.specs.Prelude.{◌≡◌};
ghost use Rattle.std.specs.List.{flat_map};
ghost use Rattle.std.specs.Result.{result_err};
ghost use Rattle.rsl_accounts.specs.Walk.{
  account_checks,
  client_checks,
  count_checks,
  first_fault,
  walk_over,
};

use crate::client::Client;
use crate::entry::Entry;
use crate::fault::ConfigFault;
use crate::field::Field;
use crate::settings::Settings;

/// Walks over the settings, the clients and the accounts, and gives the first fault.
#[tactic(auto, using(crate::proofs::Faults::checks_steps), unfolding(crate::specs::Walk::walk_over))]
pub(crate) fn walk(
    settings: &Settings,
    clients: &[Client],
    accounts: &[Entry],
) -> Result<(), ConfigFault>
    ensures { result_err result ≡ first_fault (walk_over settings.now clients.now accounts.now) }
{
    settings.check()?;
    check_counts(clients.len(), accounts.len())?;
    check_clients(settings.version, clients)?;
    check_accounts(settings.version, accounts)
}

/// Checks how many clients and accounts there are.
#[tactic(auto, unfolding(crate::specs::Walk::count_checks))]
fn check_counts(clients: usize, accounts: usize) -> Result<(), ConfigFault>
    ensures { result_err result ≡ first_fault (count_checks clients accounts) }
{
    Field::Client.check_count(clients)?;
    Field::Account.check_count(accounts)
}

/// Checks each client.
#[tactic(auto, using(crate::proofs::Faults::loop_steps))]
fn check_clients(version: u64, clients: &[Client]) -> Result<(), ConfigFault>
    ensures { result_err result ≡ first_fault (flat_map (client_checks version) clients.now) }
{
    for client in clients {
        client.check(version)?;
    }
    Ok(())
}

/// Checks each account.
#[tactic(auto, using(crate::proofs::Faults::loop_steps))]
fn check_accounts(version: u64, accounts: &[Entry]) -> Result<(), ConfigFault>
    ensures { result_err result ≡ first_fault (flat_map (account_checks version) accounts.now) }
{
    for account in accounts {
        account.check(version)?;
    }
    Ok(())
}
