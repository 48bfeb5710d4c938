/// The build of a running program.
#[derive(Clone, Copy)]
pub struct Build {
    /// Its version.
    pub version: &'static str,
    /// Whether it is proved.
    pub proof: Proof,
}

/// Whether a build is proved, as whoever started it says: no program can see that of itself.
#[derive(Clone, Copy)]
pub enum Proof {
    /// It is, from the sources of the commit with this name.
    Commit([u8; 20]),
    /// It is, from sources that are in no commit.
    Uncommitted,
    /// Nothing says so.
    Unproved,
}
