use crate::archive::Archive;
use crate::new_history::NewHistory;
use crate::sync::SyncPolicy;
use rsl_accounts::Text;

/// The keys at the head of the file.
#[derive(Drop)]
pub(crate) struct Head {
    pub(crate) accounts: Text,
    pub(crate) state: Text,
    pub(crate) new_history: NewHistory,
    pub(crate) sync: SyncPolicy,
    pub(crate) archive: Archive,
    pub(crate) archive_megabytes: Option<u16>,
}
