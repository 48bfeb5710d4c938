ghost use Rattle.std.specs.Prelude.{◌≡◌};
ghost use Rattle.rsl_shard.specs.Rows.{row_of};

use rsl_book::Book;

/// What an account holds, as a line of the report.
#[derive(Clone, Copy, PartialEq, Eq)]
pub struct Row {
    /// The account's number, in file order.
    pub account: u32,
    /// The places that it has.
    pub places: u32,
    /// The places that it holds.
    pub held: u32,
    /// How many of its links are reserved.
    pub reserved: u32,
    /// How many of its links are bound and live.
    pub live: u32,
    /// How many of its links are bound and stale.
    pub stale: u32,
    /// How many of its alives found no place, at most 2^64 - 1.
    pub over: u64,
}

impl Row {
    /// What an account holds at its book's own clock.
    pub fn of(account: u32, book: &Book) -> Row
        ensures { result ≡ row_of account book.now }
    {
        Row {
            account,
            places: book.rules().places as u32,
            held: book.held() as u32,
            reserved: book.reserved() as u32,
            live: book.live() as u32,
            stale: book.stale() as u32,
            over: book.over(),
        }
    }
}
