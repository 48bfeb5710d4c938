ghost use Rattle.std.specs.Prelude.{◌≡◌, ◌++◌, OnOk};
ghost use Rattle.rld_text.specs.Metrics.{metrics_text};

use crate::build::push_build_text;
use crate::datagrams::push_ends_text;
use crate::gauges::push_numbers;
use crate::servers::push_servers_text;
use crate::times::push_times_text;
use rld_look::Look;
use std::alloc::{AllocError, Global};

/// Appends the metrics of a look at a server, in Prometheus' text format, version 0.0.4. It fails
/// only if memory is refused; a part of the text may then have been written.
#[tactic(auto, unfolding(crate::specs::Metrics::metrics_text))]
pub fn push_metrics(alloc: Global, out: &mut Vec<u8>, look: &Look) -> Result<(), AllocError>
    ensures { OnOk result (out.new.items ≡ out.old.items ++ metrics_text look.entry.now) }
{
    push_build_text(out, &look.build)?;
    push_ends_text(alloc, out, look)?;
    push_times_text(out, look)?;
    push_numbers(out, look)?;
    push_servers_text(alloc, out, look)?;
    Ok(())
}
