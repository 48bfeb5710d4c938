ghost use Rattle.std.specs.Prelude.{◌≡◌};
ghost use Rattle.rld_state.specs.Places.{places_in};

use rld_look::Places;
use rsl_shard::Row;

/// The places of an account, from the rows of all accounts; `None` if no row is the account's.
#[tactic(auto, unfolding(crate::specs::Places::places_in))]
pub fn places_in(rows: &[Row], account: u32) -> Option<Places>
    ensures { result ≡ places_in account rows.now }
{
    for row in rows {
        if row.account == account {
            return Some(Places {
                held: row.held,
                all: row.places,
            });
        }
    }
    None
}
