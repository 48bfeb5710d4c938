use crate::line::Line;
use rsl_book::Book;

/// A part of a shard's journal that was handed out: the books that it begins with, and its lines.
#[derive(Drop)]
pub struct Segment {
    /// The shard's number.
    pub shard: u32,
    /// The number of lines in all earlier segments.
    pub first: u64,
    /// The books before the first line, in the order of their accounts' numbers.
    pub opening: Vec<Book>,
    /// The lines, in their order.
    pub lines: Vec<Line>,
}
