//! Books: a worked row, and random ones there and back.

use crate::draw::{COUNTS, Draw};
use crate::written::books_told;
use rld_spelling::{ReadFault, push_book, push_number, read_books};
use std::alloc::Global;
use std::test::Fail;
use test_rows::{Subject, check_rows, octets_of, printed};

/// The books that are drawn.
const BOOKS: u64 = 10_000; // quick: 200

/// Reads the books of a snapshot, and writes them again: what was read, or the fault and
/// its offset.
struct Snapshots;

impl Subject for Snapshots {
    fn found(&self, alloc: Global, fields: &[&str]) -> Result<String, Fail> {
        let [text] = fields else {
            return Err("a row has octets")?;
        };
        let octets = octets_of(alloc, text)?;
        match read_books(alloc, &octets, 2) {
            Ok(books) => {
                let mut again = Vec::new(alloc);
                push_number(&mut again, books.len() as u64)?;
                for book in &books {
                    push_book(&mut again, book, 2)?;
                }
                if again.as_slice() != octets.as_slice() {
                    return Err("written otherwise than it was read")?;
                }
                books_told(alloc, &books)
            }
            Err(ReadFault::NoMemory) => return Err("no memory")?,
            Err(ReadFault::Malformed(fault)) => {
                printed(alloc, &(fault.cause, fault.offset(octets.len())))
            }
        }
    }
}

#[test]
fn octets_of_a_book(rt: HostRuntime) -> Result<(), Fail> {
    check_rows(
        &rt,
        &Snapshots,
        "
# the clock, the accept number, over, and the number of links, asks and stops
a new book | 01 00 00 00 00 00 00 | \
[SavedBook { clock: 0, links: [], accepts: 0, asks: [], stops: [], over: 0 }]
# a link has its access server, what has it, its bundle, and its last touch
# what has it, by the first two tags where its opening is 0 and it has no station
two links in the order of their opening | 01 09 03 01 02 01 02 00 02 00 09 00 02 01 01 73 01 01 6d 05 00 00 | \
[SavedBook { clock: 9, links: [SavedLink { nas: Nas { client: 1, name: Unnamed }, holder: Reserved(2), \
bundle: None, touched: 9 }, SavedLink { nas: Nas { client: 0, name: Unnamed }, holder: Bound([115]), \
bundle: Some([109]), touched: 5 }], accepts: 3, asks: [], stops: [], over: 1 }]
# else by tags of their own, and after it the opening, and the station or none
a reservation with its opening and its station | 01 09 03 01 01 01 02 02 02 04 01 01 61 00 09 00 00 | \
[SavedBook { clock: 9, links: [SavedLink { nas: Nas { client: 1, name: Unnamed }, holder: Reserved(2), \
bundle: None, station: [97], opened: 4, touched: 9 }], accepts: 3, asks: [], stops: [], over: 1 }]
a session with its opening alone, and one with its station alone | \
01 09 00 00 02 00 02 03 01 73 05 00 01 01 6d 07 00 02 03 01 74 00 01 02 6162 00 08 00 00 | \
[SavedBook { clock: 9, links: [SavedLink { nas: Nas { client: 0, name: Unnamed }, holder: Bound([115]), \
bundle: Some([109]), opened: 5, touched: 7 }, SavedLink { nas: Nas { client: 0, name: Unnamed }, \
holder: Bound([116]), bundle: None, station: [97, 98], touched: 8 }], accepts: 0, asks: [], stops: [], \
over: 0 }]
a link of each kind of tags | 01 09 01 00 02 00 02 01 01 73 00 07 00 02 02 00 08 00 00 08 00 00 | \
[SavedBook { clock: 9, links: [SavedLink { nas: Nas { client: 0, name: Unnamed }, holder: Bound([115]), \
bundle: None, touched: 7 }, SavedLink { nas: Nas { client: 0, name: Unnamed }, holder: Reserved(0), \
bundle: None, opened: 8, touched: 8 }], accepts: 1, asks: [], stops: [], over: 0 }]
the longest station | 01 09 00 00 01 00 02 03 01 73 00 01 40 61*64 00 08 00 00 | \
[SavedBook { clock: 9, links: [SavedLink { nas: Nas { client: 0, name: Unnamed }, holder: Bound([115]), \
bundle: None, station: [97, 97, 97, 97, 97, 97, 97, 97, 97, 97, 97, 97, 97, 97, 97, 97, 97, 97, 97, 97, \
97, 97, 97, 97, 97, 97, 97, 97, 97, 97, 97, 97, 97, 97, 97, 97, 97, 97, 97, 97, 97, 97, 97, 97, 97, 97, \
97, 97, 97, 97, 97, 97, 97, 97, 97, 97, 97, 97, 97, 97, 97, 97, 97, 97], touched: 8 }], accepts: 0, \
asks: [], stops: [], over: 0 }]
# an ask has its key, its access server, the decision, when it came, and whether it was swept
an ask that was rejected and swept | 01 09 00 00 00 01 c0a80110 0400 07 aa*16 00 02 02 08 01 00 | \
[SavedBook { clock: 9, links: [], accepts: 0, asks: [KeptAsk { key: Key { source: Source { address: \
[192, 168, 1, 16], port: 1024 }, id: 7, authenticator: [170, 170, 170, 170, 170, 170, 170, 170, 170, \
170, 170, 170, 170, 170, 170, 170] }, nas: Nas { client: 0, name: Unnamed }, decision: LimitReject, \
at: 8, swept: true }], stops: [], over: 0 }]
# a stop has its access server, its id, when it came, and whether it was swept
a stop | 01 09 00 00 00 00 01 00 02 01 73 07 00 | \
[SavedBook { clock: 9, links: [], accepts: 0, asks: [], stops: [KeptStop { session: Session { nas: Nas \
{ client: 0, name: Unnamed }, id: [115] }, at: 7, swept: false }], over: 0 }]
a book that is cut short | 01 09 00 00 00 00 | (CutShort, 6)
a decision that is none | 01 09 00 00 00 01 c0a80110 0400 07 aa*16 00 02 03 08 01 00 | (UnknownTag, 31)
a link that nothing has | 01 09 03 01 01 01 02 04 00 00 09 00 00 | (UnknownTag, 7)
# a link has one spelling: its own tags are of one with an opening or a station
a reservation with neither | 01 09 03 01 01 01 02 02 02 00 00 00 09 00 00 | (OutOfRange, 9)
a session with neither | 01 09 03 01 01 01 02 03 01 73 00 00 00 09 00 00 | (OutOfRange, 10)
an opening that is missing | 01 09 03 01 01 01 02 02 02 | (CutShort, 9)
an opening in more octets | 01 09 03 01 01 01 02 02 02 fd0004 00 00 09 00 00 | (LongNumber, 9)
a station that is missing | 01 09 03 01 01 01 02 02 02 04 | (CutShort, 10)
a station that is neither there nor not | 01 09 03 01 01 01 02 02 02 04 02 | (UnknownTag, 10)
a station that ends early | 01 09 03 01 01 01 02 02 02 04 01 02 61 | (CutShort, 12)
a station of 254 octets | 01 09 03 01 01 01 02 02 02 04 01 fe 61*254 00 09 00 00 | (TooLong, 11)
",
    )
}

/// Whether the next book that is drawn is read as it was written.
fn is_read_back(alloc: Global, draw: &mut Draw) -> Result<bool, Fail> {
    let books = vec![in alloc; draw.book(alloc)?]?;
    let mut octets = Vec::new(alloc);
    push_number(&mut octets, 1)?;
    for book in &books {
        push_book(&mut octets, book, COUNTS.clients)?;
    }
    let read = read_books(alloc, &octets, COUNTS.clients)?;
    Ok(read.as_slice() == books.as_slice())
}

#[test]
fn random_books_are_read_as_they_were_written(rt: HostRuntime) -> Result<(), Fail> {
    let mut draw = Draw::new(2);
    for number in 0..BOOKS {
        let same = is_read_back(rt.alloc(), &mut draw)?;
        assert!(rt; same, "book {number}");
    }
    Ok(())
}
