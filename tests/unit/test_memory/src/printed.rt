use rsl_book::Stored;
use rsl_service::Counts;
use rsl_shard::Row;
use std::fmt;

/// Octets that print as their hexadecimal digits.
#[derive(Clone, Copy)]
pub(crate) struct Hex<'a>(pub &'a [u8]);

impl fmt::Display for Hex<'_> {
    fn fmt<W: fmt::Write>(&self, f: &mut fmt::Formatter<W>) -> fmt::Result {
        for octet in self.0 {
            write!(f, "{octet:02x}")?;
        }
        Ok(())
    }
}

/// What a row of a report has.
#[derive(Clone, Copy)]
pub(crate) struct RowText<'a>(pub &'a Row);

impl fmt::Display for RowText<'_> {
    fn fmt<W: fmt::Write>(&self, f: &mut fmt::Formatter<W>) -> fmt::Result {
        let row = self.0;
        write!(f, "Row {{ account: {}, places: {}", row.account, row.places)?;
        write!(f, ", held: {}, reserved: {}", row.held, row.reserved)?;
        write!(f, ", live: {}, stale: {}", row.live, row.stale)?;
        write!(f, ", over: {} }}", row.over)
    }
}

/// What a book stores.
#[derive(Clone, Copy)]
pub(crate) struct StoredText(pub Stored);

impl fmt::Display for StoredText {
    fn fmt<W: fmt::Write>(&self, f: &mut fmt::Formatter<W>) -> fmt::Result {
        let stored = self.0;
        write!(
            f,
            "Stored {{ links: {}, kept: {}",
            stored.links, stored.kept
        )?;
        write!(f, ", closed: {} }}", stored.closed)
    }
}

/// Rows of a report, as a list.
#[derive(Clone, Copy)]
pub(crate) struct RowTexts<'a>(pub &'a [Row]);

impl fmt::Display for RowTexts<'_> {
    fn fmt<W: fmt::Write>(&self, f: &mut fmt::Formatter<W>) -> fmt::Result {
        f.write_str("[")?;
        for (place, row) in self.0.iter().enumerate() {
            f.write_str(if place == 0 { "" } else { ", " })?;
            write!(f, "{}", RowText(row))?;
        }
        f.write_str("]")
    }
}

/// What a receiver counted.
#[derive(Clone, Copy)]
pub(crate) struct CountsText<'a>(pub &'a Counts);

impl fmt::Display for CountsText<'_> {
    fn fmt<W: fmt::Write>(&self, f: &mut fmt::Formatter<W>) -> fmt::Result {
        let counts = self.0;
        write!(
            f,
            "Counts {{ turns: {}, received: {}",
            counts.turns, counts.received
        )?;
        write!(
            f,
            ", answered: {}, dropped: {}",
            counts.answered, counts.dropped
        )?;
        write!(
            f,
            ", refused: {}, unsent: {} }}",
            counts.refused, counts.unsent
        )
    }
}
