ghost use Rattle.std.specs.Prelude.{◌≡◌, None};
ghost use Rattle.std.specs.Int.{w32, to_be_bytes};
ghost use Rattle.rsl_accounts.specs.Configuration.{client_number};

use rsl_accounts::Config;

/// An address that no client of the configuration has, for peers that stand for no client: the
/// first from 0.0.0.0 on.
pub(crate) fn unassigned_address(config: &Config) -> [u8; 4]
    ensures { client_number config.now result ≡ None }
{
    for number in 0..config.clients() + 1 {
        let address = number.to_be_bytes();
        if config.client(address).is_none() {
            return address;
        }
    }
    unreachable!("there are more candidates than clients")
}
