use crate::kind::Kind;

/// When a table has to have a key.
#[derive(Clone, Copy)]
pub(crate) enum Need {
    /// In each version.
    Always,
    /// In versions 1 and 2.
    Before3,
    /// Never.
    Never,
}

/// A key of a table: its name, what it may have, when it has to be there, and the first version that knows it.
#[derive(Clone, Copy)]
pub(crate) struct Row(
    pub(crate) &'static str,
    pub(crate) Kind,
    pub(crate) Need,
    pub(crate) u64,
);

impl Row {
    /// The name of the key.
    pub(crate) fn key(&self) -> &'static str {
        self.0
    }

    /// What it may have.
    pub(crate) fn kind(&self) -> Kind {
        self.1
    }

    /// Whether a file of this version has to have it.
    pub(crate) fn is_needed(&self, version: u64) -> bool {
        match self.2 {
            Need::Always => true,
            Need::Before3 => version < 3,
            Need::Never => false,
        }
    }

    /// Whether this version knows it.
    pub(crate) fn is_known(&self, version: u64) -> bool {
        self.3 <= version
    }
}
