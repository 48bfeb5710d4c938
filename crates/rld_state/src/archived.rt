ghost use Rattle.std.specs.Prelude.{◌≡◌, ◌<◌, ◌^◌, length};
ghost use Rattle.rld_folder.specs.Older.{octets_in};

use rld_folder::{ArchivedLog, octets_in};
use rld_look::ArchiveLook;

/// What is shown of an archive that has these logs.
pub fn archive_look(logs: &[ArchivedLog]) -> ArchiveLook
    ensures logs { result.logs ≡ length logs.now }
    ensures octets { octets_in logs.now < 2 ^ 64 → result.octets ≡ octets_in logs.now }
{
    ArchiveLook {
        logs: logs.len() as u64,
        octets: octets_in(logs),
    }
}
