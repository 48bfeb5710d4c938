//! The status and the text with which a server ends whose record is not settled. Nothing from
//! outside brings a server to that.

use rsl_serve::ServeFault;
use rsl_service::CloseFault;
use std::alloc::Global;
use std::test::Fail;
use test_rows::{Subject, check_rows, push_printed, shown};

/// What a fault of a closing is to a server.
#[derive(Clone, Copy)]
struct Endings;

impl Subject for Endings {
    fn found(&self, alloc: Global, fields: &[&str]) -> Result<String, Fail> {
        let [word] = fields else {
            return Err("a row has a fault")?;
        };
        let fault = ServeFault::from(fault_of(word)?);
        let mut text = shown(alloc, &fault)?;
        push_printed(&mut text, &fault.status().number())?;
        Ok(text)
    }
}

/// The fault of a closing that a word names.
fn fault_of(word: &str) -> Result<CloseFault, Fail> {
    match word {
        "MissingPass" => Ok(CloseFault::MissingPass),
        "MissingSegment" => Ok(CloseFault::MissingSegment { shard: 1 }),
        "Mismatch" => Ok(CloseFault::Mismatch {
            shard: 1,
            position: 2,
        }),
        "NoMemory" => Ok(CloseFault::NoMemory),
        _ => Err("an unknown fault")?,
    }
}

#[test]
fn a_server_ends_as_its_closing_does(rt: HostRuntime) -> Result<(), Fail> {
    let rows = "
        a pass is missing | MissingPass | input or output fault 2
        a segment is missing | MissingSegment | input or output fault 2
        a receipt is not its line | Mismatch | input or output fault 2
        memory is refused | NoMemory | no memory 3
    ";
    check_rows(&rt, &Endings, rows)
}
