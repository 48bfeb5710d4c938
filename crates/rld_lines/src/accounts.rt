//! The accounts of a log's table.

ghost use Rattle.std.specs.Prelude.{◌≡◌, IfOk};
ghost use Rattle.rld_spelling.specs.TableSpelled.{table_octets};
ghost use Rattle.rld_spelling.specs.Tables.{table_of};

use crate::fault::{LinesFault, wrong};
use rld_books::TableFault;
use rld_start::Cause;
use rld_store::Part;
use rsl_accounts::Config;
use std::alloc::Global;

/// A configuration with this table of a log. `Log` comes if the octets spell no table, or if no
/// configuration has that table, and `NoMemory` if memory is refused.
pub(crate) fn config_of(alloc: Global, table: Part<'_>) -> Result<Config, LinesFault>
    ensures { IfOk result (λ config. table.entry.payload.now ≡ table_octets (table_of config)) }
{
    match rld_books::config_of(alloc, table.payload) {
        Ok(config) => Ok(config),
        Err(TableFault::NoMemory) => Err(LinesFault::NoMemory),
        Err(TableFault::Malformed(fault)) => {
            let offset = fault.offset(table.end);
            Err(wrong(offset, Cause::Malformed(fault.cause)))
        }
        Err(TableFault::NoConfiguration) => Err(wrong(table.begin(), Cause::NoConfiguration)),
    }
}
