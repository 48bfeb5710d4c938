//! Laws of frames and of paced logs, each the contract of a function that does nothing
//! (`specs/Laws.antt`).

ghost use Rattle.std.specs.Prelude.{ℕ, List, IsTrue};
ghost use Rattle.rld_log.specs.Laws.{HaveNoReading, HaveOneOffset, HaveOneReading, KillsAreDetected};
ghost use Rattle.rld_log.specs.Log.{Detects};
ghost use Rattle.rld_log.specs.Pacing.{IsOnDisk, TearsOrShortens};

use crate::fault::LogFault;
use crate::log::Log;

/// A file has one list of payloads.
pub fn files_have_one_reading()
    ensures { HaveOneReading }
{}

/// A damaged file has no list of payloads.
pub fn damaged_files_have_no_reading()
    ensures { HaveNoReading }
{}

/// A damaged file is damaged at one offset.
pub fn damaged_files_have_one_offset()
    ensures { HaveOneOffset }
{}

/// A frame whose write a kill cut short is torn: there is no frame in what is left of it.
pub fn kills_are_detected()
    ensures { KillsAreDetected }
{}

/// The premise on MD5 for a paced log is that for the log underneath: if no torn write passes for a
/// frame there, none does here.
pub fn premise_is_that_of_the_log<L: Log>()
    ensures { Detects L.tears → Detects (TearsOrShortens L.tears) }
{
    kills_are_detected();
}

/// Appends to any log. What is on its disk stays there, even if the append fails, or a loss of
/// power tears it: so what a sync brought to the disk is safe until a cut.
pub fn append_keeps_the_disk<L: Log>(log: &mut L, octets: &[u8]) -> Result<(), LogFault>
    ensures { IsTrue (L.tells log.new) → (front : List ℕ) →
        IsOnDisk front (L.seen log.old) (L.may_leave log.old) → IsOnDisk front (L.seen log.new) (L.may_leave log.new) }
{
    log.append(octets)
}
