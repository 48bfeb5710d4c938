ghost use Rattle.std.specs.Prelude.{◌≡◌, IfOk};
ghost use Rattle.radlimitd.specs.Proofs.{commit_of, proof_of};

use rld_look::Proof;
use rld_values::read_hex;
use rsl_wire::NoMemory;
use std::alloc::Global;
use std::env::{self, Env};

/// The environment variable by which whoever starts the program says that it is proved.
const VARIABLE: &str = "RADLIMITD_PROVED";

/// Whether this program is proved, as far as its environment says so.
pub(crate) fn proof_in<R: Env + Alloc<A = Global>>(
    rt: &R,
    alloc: Global,
) -> Result<Proof, NoMemory> {
    match env::var(rt, VARIABLE) {
        Ok(text) => proof_of(alloc, text.as_bytes()),
        Err(_) => Ok(Proof::Unproved),
    }
}

/// The proof of a value of that variable: the name of a commit as 40 hexadecimal digits, or
/// `uncommitted`. Any other says nothing.
fn proof_of(alloc: Global, text: &[u8]) -> Result<Proof, NoMemory>
    ensures { IfOk result (λ proof. proof ≡ proof_of text.now) }
{
    if text == b"uncommitted".as_slice() {
        return Ok(Proof::Uncommitted);
    }
    match read_hex(alloc, text) {
        Ok(Some(octets)) => Ok(commit_of(octets.as_slice())),
        Ok(None) => Ok(Proof::Unproved),
        Err(fault) => Err(fault),
    }
}

/// The commit whose name has these 20 octets.
fn commit_of(octets: &[u8]) -> Proof
    ensures { result ≡ commit_of octets.now }
{
    if octets.len() != 20 {
        return Proof::Unproved;
    }
    let mut name = [0u8; 20];
    name.copy_from_slice(octets);
    Proof::Commit(name)
}
