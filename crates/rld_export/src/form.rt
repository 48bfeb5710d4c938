/// The form of the lines of sessions.
#[derive(Clone, Copy)]
pub enum Form {
    /// An object of JSON (RFC 8259) each.
    Json,
    /// A record of CSV (RFC 4180) each, after one with the names of the columns.
    Csv,
}
