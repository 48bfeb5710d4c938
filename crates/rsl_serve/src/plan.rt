ghost use Rattle.std.specs.Prelude.{◌≡◌};
ghost use Rattle.rsl_serve.specs.Plan.{plan_of, read_port};

use rsl_accounts::address_of;
use rsl_script::read_number;

/// Where a server receives datagrams, and for how many turns.
#[derive(Clone, Copy)]
pub struct Plan {
    /// The IPv4 address of both sockets, first octet first.
    pub address: [u8; 4],
    /// The authentication port.
    pub auth: u16,
    /// The accounting port.
    pub acct: u16,
    /// The turns that each receiver takes. In a turn it waits at most one second for a datagram.
    pub turns: u64,
}

impl Plan {
    /// The plan in four words: an address as in an account file, two ports 1 to 65,535, and a
    /// number under 2^64, each in decimal digits. `None` if one of them is anything else.
    #[tactic(auto, unfolding(crate::specs::Plan::plan_of))]
    pub fn read(address: &str, auth: &str, acct: &str, turns: &str) -> Option<Plan>
        ensures { result ≡ plan_of address.now auth.now acct.now turns.now }
    {
        let address = address_of(address.as_bytes())?;
        let auth = read_port(auth)?;
        let acct = read_port(acct)?;
        let turns = read_number(turns)?;
        Some(Plan {
            address,
            auth,
            acct,
            turns,
        })
    }
}

/// The port that a word writes: a number 1 to 65,535.
#[tactic(auto, unfolding(crate::specs::Plan::read_port))]
fn read_port(word: &str) -> Option<u16>
    ensures { result ≡ read_port word.now }
{
    let number = read_number(word)?;
    if number == 0 {
        return None;
    }
    u16::try_from(number).ok()
}
