ghost use Rattle.std.specs.Prelude.{◌≡◌, ◌++◌, OnOk};
ghost use Rattle.rld_text.specs.Build.{build_line, proof_text, proof_word};
ghost use Rattle.rld_text.specs.Metrics.{build_head, build_sample, build_text};

use crate::text::{Head, push_head, push_label};
use rld_look::{Build, Proof};
use rld_values::{push_hex, push_text};
use std::alloc::AllocError;

/// Writes a line of a build: its version, and whether it is proved. It fails only if memory is refused; a part
/// of the line may then have been written.
pub fn push_build_line(out: &mut Vec<u8>, build: &Build) -> Result<(), AllocError>
    ensures { OnOk result (out.new.items ≡ out.old.items ++ build_line build.now) }
{
    push_text(out, "radlimitd ")?;
    push_text(out, build.version)?;
    push_text(out, ", ")?;
    push_proof_text(out, &build.proof)?;
    push_text(out, "\n")
}

/// Writes whether a build is proved, for people.
fn push_proof_text(out: &mut Vec<u8>, proof: &Proof) -> Result<(), AllocError>
    ensures { OnOk result (out.new.items ≡ out.old.items ++ proof_text proof.now) }
{
    match proof {
        Proof::Commit(name) => {
            push_text(out, "proved at ")?;
            push_hex(out, name)
        }
        Proof::Uncommitted => push_text(out, "proved, from sources that are in no commit"),
        Proof::Unproved => push_text(out, "not proved"),
    }
}

/// Writes whether a build is proved, for scripts: the name of the commit, or another word.
pub(crate) fn push_proof_word(out: &mut Vec<u8>, proof: &Proof) -> Result<(), AllocError>
    ensures { OnOk result (out.new.items ≡ out.old.items ++ proof_word proof.now) }
{
    match proof {
        Proof::Commit(name) => push_hex(out, name),
        Proof::Uncommitted => push_text(out, "uncommitted"),
        Proof::Unproved => push_text(out, "no"),
    }
}

/// Writes the metric of the program's build.
#[tactic(auto, unfolding(crate::specs::Metrics::build_text))]
pub(crate) fn push_build_text(out: &mut Vec<u8>, build: &Build) -> Result<(), AllocError>
    ensures { OnOk result (out.new.items ≡ out.old.items ++ build_text build.now) }
{
    push_build_head(out)?;
    push_build_sample(out, build)
}

/// Writes the head of the metric.
#[tactic(auto, unfolding(crate::specs::Metrics::build_head))]
fn push_build_head(out: &mut Vec<u8>) -> Result<(), AllocError>
    ensures { OnOk result (out.new.items ≡ out.old.items ++ build_head) }
{
    push_head(
        out,
        &Head {
            name: "radlimitd_build_info",
            kind: "gauge",
            help: "1, with the version that runs, and the commit that it is proved at, or no.",
        },
    )
}

/// Writes the sample of the metric.
#[tactic(auto, unfolding(crate::specs::Metrics::build_sample))]
fn push_build_sample(out: &mut Vec<u8>, build: &Build) -> Result<(), AllocError>
    ensures { OnOk result (out.new.items ≡ out.old.items ++ build_sample build.now) }
{
    push_text(out, "radlimitd_build_info{")?;
    push_label(out, "version", build.version)?;
    push_text(out, ",proved=\"")?;
    push_proof_word(out, &build.proof)?;
    push_text(out, "\"} 1\n")?;
    Ok(())
}
