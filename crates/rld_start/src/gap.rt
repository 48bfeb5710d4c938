//! The check for a gap in the history: a log in the archive that is not before the generation that
//! counts.

ghost use Rattle.std.specs.Prelude.{◌↔◌, All, IfNone, IfSome, IsOk, IsTrue};
ghost use Rattle.rld_start.specs.Gaps.{IsEarlier};

use crate::fault::StartFault;
use crate::wrong::{Cause, Wrong};
use rld_folder::{FileName, Generation, newest_generation};

/// Whether a file is no log, or that of a generation before the one that counts.
fn is_earlier(begun: Option<Generation>, file: FileName) -> bool
    ensures { IsTrue result ↔ IsEarlier begun file }
{
    match (file, begun) {
        (FileName::Log(generation), Some(begun)) => generation.precedes(begun),
        (FileName::Log(_), None) => false,
        (FileName::Lock, _) | (FileName::FormerTable(_), _) => true,
    }
}

/// A log of the archive that is not before the generation that counts, if there is one.
fn later_log(archived: &[FileName], begun: Option<Generation>) -> Option<FileName>
    ensures none { IfNone result (All (IsEarlier begun) archived.now) }
    ensures some { IfSome result (λ _. All (IsEarlier begun) archived.now → ⊥) }
{
    for file in archived {
        if !is_earlier(begun, *file) {
            return Some(*file);
        }
    }
    None
}

/// Checks that each log of the archive is before the generation that counts. `Gap` of the newest
/// log of the archive comes if it is not, or if no generation counts.
pub(crate) fn check_archive(
    archived: &[FileName],
    begun: Option<Generation>,
) -> Result<(), StartFault>
    ensures { IsOk result ↔ All (IsEarlier begun) archived.now }
{
    let Some(later) = later_log(archived, begun) else {
        return Ok(());
    };
    let file = match newest_generation(archived, None) {
        Some(newest) => FileName::Log(newest),
        None => later,
    };
    let wrong = Wrong {
        offset: 0,
        cause: Cause::Gap,
    };
    Err(StartFault::bad(file, wrong))
}
