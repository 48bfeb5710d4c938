//! The numbers of clients before and after a change.

ghost use Rattle.std.specs.Prelude.{◌≡◌, IfOk};
ghost use Rattle.rld_books.specs.Numbers.{next_numbers, number_in};

use rsl_accounts::Config;
use rsl_wire::NoMemory;
use std::alloc::Global;

/// The number of each client in the next configuration, by its address, in the order of the
/// clients.
pub(crate) fn next_numbers(
    alloc: Global,
    old: &Config,
    new: &Config,
) -> Result<Vec<Option<u32>>, NoMemory>
    ensures { IfOk result (λ numbers. numbers.items ≡ next_numbers old.now new.now) }
{
    let mut numbers = Vec::new(alloc);
    for number in 0..old.clients() {
        numbers.push(new.client(old.client_at(number).address))?;
    }
    Ok(numbers)
}

/// The number of a client after the change, if it is still there.
pub(crate) fn number_in(numbers: &[Option<u32>], client: u32) -> Option<u32>
    ensures { result ≡ number_in numbers.now client }
{
    match numbers.get(client as usize) {
        Some(number) => *number,
        None => None,
    }
}
