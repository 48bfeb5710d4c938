ghost use Rattle.std.specs.Prelude.{◌≡◌, ◌++◌, OnOk, codes};
ghost use Rattle.rld_text.specs.Metrics.{bucket_line, bucket_lines, times_end, times_head, times_lines, times_text};
ghost use Rattle.rld_text.specs.Text.{seconds};

use crate::text::{Head, push_head, push_label, push_seconds};
use rld_counts::{BUCKETS, Histogram, bound_of};
use rld_look::Look;
use rld_values::{push_decimal, push_text};
use std::alloc::AllocError;

/// Writes the histograms of both ports, and of asks.
#[tactic(auto, unfolding(crate::specs::Metrics::times_text))]
pub(crate) fn push_times_text(out: &mut Vec<u8>, look: &Look) -> Result<(), AllocError>
    ensures { OnOk result (out.new.items ≡ out.old.items ++ times_text look.entry.now) }
{
    push_times_head(out)?;
    push_times(out, "auth", &look.auth_times)?;
    push_times(out, "acct", &look.acct_times)?;
    push_times(out, "ask_http", &look.ask_times)
}

/// Writes the head of the histograms.
#[tactic(auto, unfolding(crate::specs::Metrics::times_head))]
fn push_times_head(out: &mut Vec<u8>) -> Result<(), AllocError>
    ensures { OnOk result (out.new.items ≡ out.old.items ++ times_head) }
{
    push_head(
        out,
        &Head {
            name: "radlimitd_answer_seconds",
            kind: "histogram",
            help: "From when a datagram was taken to when its answer was sent, by its port.",
        },
    )
}

/// Writes the number of answers of a port within `micros` microseconds.
#[tactic(auto, unfolding(crate::specs::Metrics::bucket_line))]
fn push_bucket(out: &mut Vec<u8>, port: &str, micros: u64, number: u64) -> Result<(), AllocError>
    ensures { OnOk result (out.new.items
        ≡ out.old.items ++ bucket_line port.now (seconds micros) number) }
{
    push_text(out, "radlimitd_answer_seconds_bucket{")?;
    push_label(out, "port", port)?;
    push_text(out, ",le=\"")?;
    push_seconds(out, micros)?;
    push_text(out, "\"} ")?;
    push_decimal(out, number)?;
    push_text(out, "\n")?;
    Ok(())
}

/// Writes the number of all answers of a port.
#[tactic(auto, unfolding(crate::specs::Metrics::bucket_line))]
fn push_last_bucket(out: &mut Vec<u8>, port: &str, number: u64) -> Result<(), AllocError>
    ensures { OnOk result (out.new.items
        ≡ out.old.items ++ bucket_line port.now (codes "+Inf") number) }
{
    push_text(out, "radlimitd_answer_seconds_bucket{")?;
    push_label(out, "port", port)?;
    push_text(out, ",le=\"")?;
    push_text(out, "+Inf")?;
    push_text(out, "\"} ")?;
    push_decimal(out, number)?;
    push_text(out, "\n")
}

/// Writes the buckets with a bound.
#[tactic(auto, using(crate::proofs::Buckets::bucket_lines_more, crate::proofs::Buckets::bucket_lines_none))]
fn push_buckets(out: &mut Vec<u8>, port: &str, times: &Histogram) -> Result<(), AllocError>
    ensures { OnOk result (out.new.items
        ≡ out.old.items ++ bucket_lines port.now times.now 24) }
{
    for bucket in 0..BUCKETS - 1 {
        push_bucket(out, port, bound_of(bucket), times.up_to(bucket))?;
    }
    Ok(())
}

/// Writes the sum of a histogram, and the number of its times.
#[tactic(auto, unfolding(crate::specs::Metrics::times_end))]
fn push_end(out: &mut Vec<u8>, port: &str, micros: u64, number: u64) -> Result<(), AllocError>
    ensures { OnOk result (out.new.items
        ≡ out.old.items ++ times_end port.now micros number) }
{
    push_text(out, "radlimitd_answer_seconds_sum{")?;
    push_label(out, "port", port)?;
    push_text(out, "} ")?;
    push_seconds(out, micros)?;
    push_text(out, "\nradlimitd_answer_seconds_count{")?;
    push_label(out, "port", port)?;
    push_text(out, "} ")?;
    push_decimal(out, number)?;
    push_text(out, "\n")?;
    Ok(())
}

/// Writes the histogram of a port.
#[tactic(auto, unfolding(crate::specs::Metrics::times_lines))]
fn push_times(out: &mut Vec<u8>, port: &str, times: &Histogram) -> Result<(), AllocError>
    ensures { OnOk result (out.new.items ≡ out.old.items ++ times_lines port.now times.now) }
{
    push_buckets(out, port, times)?;
    push_last_bucket(out, port, times.samples())?;
    push_end(out, port, times.micros(), times.samples())
}
