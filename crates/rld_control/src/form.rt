/// The form of an answer.
#[derive(Clone, Copy)]
pub enum Form {
    /// As lines of words.
    Lines,
    /// As JSON objects (RFC 8259), one a line.
    Json,
}

/// The accounts to show.
#[derive(Clone, Copy)]
pub enum Selection {
    /// All accounts.
    All,
    /// The accounts that hold a place.
    Held,
    /// The accounts that have no free place.
    Full,
}
