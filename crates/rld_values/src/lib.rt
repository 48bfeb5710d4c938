//! Values in a line of text: arbitrary octets as a word, or after a key; texts; numbers; addresses;
//! dates and ages. It knows no line. What is written stands for itself in a shell too, within
//! single quotation marks. It promises:
//! - No value can forge a word or a line, since each octet except letters, digits and a few marks
//!   is escaped (`push_word`, `push_escaped`, `push_hex`; `specs/Values.antt`).
//! - What was written is read back as it was, of any octets (`laws::read_back`; `specs/Read.antt`).
//! - A number is written in decimal digits, an IPv4 address as four of them with dots between
//!   (`push_decimal`, `push_dotted`).
//! - A second since 1970 is written as the date that HTTP has for it, its year first and its month
//!   as a number (`push_date`; `specs/Dates.antt`), and an age as whole days and a time
//!   (`push_age`).
#![tactic(auto)]

mod date;
pub mod laws;
mod reading;
mod spelling;

pub use date::{http_date, push_age, push_clock, push_date};
pub use reading::{read_escaped, read_hex, read_word};
pub use spelling::{push_decimal, push_dotted, push_escaped, push_hex, push_text, push_word};
