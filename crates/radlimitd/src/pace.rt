ghost use Rattle.std.specs.Prelude.{◌≡◌};
ghost use Rattle.radlimitd.specs.Paces.{pace_of};

use rld_config::SyncPolicy;
use rld_log::Pace;

/// The pace of a server's logs, from its file.
pub(crate) fn pace_of(sync: SyncPolicy) -> Pace
    ensures { result ≡ pace_of sync }
{
    match sync {
        SyncPolicy::Always => Pace::Always,
        SyncPolicy::Second => Pace::Second,
        SyncPolicy::Never => Pace::Never,
    }
}
