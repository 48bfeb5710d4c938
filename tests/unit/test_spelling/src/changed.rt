//! A snapshot, a table or a header of which one octet is changed: it is refused by name, or it is
//! another well-formed one.

use crate::draw::{COUNTS, Draw};
use crate::lived::lived;
use rld_spelling::{Header, ReadFault, Table, push_book, push_number, read_books};
use rsl_session::SavedBook;
use std::alloc::Global;
use std::test::Fail;
use test_rows::octets_of;

/// The books of the snapshot.
const BOOKS: u64 = 3;

/// To how many others each octet of a book that lived is changed.
const CHANGES: u8 = 255; // quick: 3

fn push_books(octets: &mut Vec<u8>, books: &[SavedBook]) -> Result<(), Fail> {
    push_number(octets, books.len() as u64)?;
    for book in books {
        push_book(octets, book, COUNTS.clients)?;
    }
    Ok(())
}

/// A snapshot of random books.
fn snapshot(alloc: Global) -> Result<Vec<u8>, Fail> {
    let mut draw = Draw::new(3);
    let mut books = Vec::new(alloc);
    for _ in 0..BOOKS {
        books.push(draw.book(alloc)?)?;
    }
    let mut octets = Vec::new(alloc);
    push_books(&mut octets, &books)?;
    Ok(octets)
}

/// What came of octets: whether they were read. What is read is written so.
fn is_read(alloc: Global, octets: &[u8]) -> Result<bool, Fail> {
    match read_books(alloc, octets, COUNTS.clients) {
        Ok(books) => {
            let mut again = Vec::new(alloc);
            push_books(&mut again, &books)?;
            if again.as_slice() != octets {
                return Err("written otherwise than it was read")?;
            }
            Ok(true)
        }
        Err(ReadFault::NoMemory) => return Err("no memory")?,
        Err(ReadFault::Malformed(fault)) => {
            if fault.left > octets.len() {
                return Err("a fault before the beginning")?;
            }
            Ok(false)
        }
    }
}

/// Changes an octet, or changes it back.
fn change(octets: &mut Vec<u8>, place: usize, bits: u8) {
    if place < octets.len() {
        octets[place] ^= bits;
    }
}

/// How many of some changed snapshots were read, and how many were refused.
#[derive(Clone, Copy, Debug)]
struct Counted {
    read: u64,
    refused: u64,
}

impl Counted {
    fn new() -> Counted {
        Counted {
            read: 0,
            refused: 0,
        }
    }

    fn count(&mut self, is_read: bool) {
        if is_read {
            self.read = self.read.saturating_add(1);
        } else {
            self.refused = self.refused.saturating_add(1);
        }
    }
}

/// What comes of a snapshot whose octet at a place is changed.
fn count_at(
    alloc: Global,
    octets: &mut Vec<u8>,
    place: usize,
    bits: u8,
    counted: &mut Counted,
) -> Result<(), Fail> {
    change(octets, place, bits);
    counted.count(is_read(alloc, octets.as_slice())?);
    change(octets, place, bits);
    Ok(())
}

#[test]
fn each_octet_of_a_snapshot_changed(rt: HostRuntime) -> Result<(), Fail> {
    let mut octets = snapshot(rt.alloc())?;
    let mut counted = Counted::new();
    for place in 0..octets.len() {
        for bits in [1, 2, 4, 64, 128, 255] {
            count_at(rt.alloc(), &mut octets, place, bits, &mut counted)?;
        }
    }
    assert!(rt; counted.read > 500, "{counted:?}");
    assert!(rt; counted.refused > 500, "{counted:?}");
    let is_whole = is_read(rt.alloc(), octets.as_slice())?;
    assert!(rt; is_whole);
    Ok(())
}

/// A snapshot of a book that lived.
fn lived_snapshot(alloc: Global) -> Result<Vec<u8>, Fail> {
    let mut draw = Draw::new(5);
    let book = lived(alloc, &mut draw)?;
    let books = vec![in alloc; book.save(alloc)?]?;
    let mut octets = Vec::new(alloc);
    push_books(&mut octets, &books)?;
    Ok(octets)
}

#[test]
fn each_octet_of_a_book_that_lived_changed(rt: HostRuntime) -> Result<(), Fail> {
    let mut octets = lived_snapshot(rt.alloc())?;
    let mut counted = Counted::new();
    for place in 0..octets.len() {
        for bits in 1..=CHANGES {
            count_at(rt.alloc(), &mut octets, place, bits, &mut counted)?;
        }
    }
    assert!(rt; octets.len() > 100);
    assert!(rt; counted.read > octets.len() as u64, "{counted:?}");
    assert!(rt; counted.refused > 100, "{counted:?}");
    Ok(())
}

#[test]
fn each_front_of_a_snapshot_is_refused(rt: HostRuntime) -> Result<(), Fail> {
    let octets = snapshot(rt.alloc())?;
    for len in 0..octets.len() {
        let front = &octets[..len.min(octets.len())];
        let found = is_read(rt.alloc(), front)?;
        assert!(rt; !found, "{len} octets");
    }
    Ok(())
}

/// Whether octets are those of a table, which is then written so.
fn is_table(alloc: Global, octets: &[u8]) -> Result<bool, Fail> {
    match Table::read(alloc, octets) {
        Ok(table) => {
            let mut again = Vec::new(alloc);
            table.push(&mut again)?;
            if again.as_slice() != octets {
                return Err("written otherwise than it was read")?;
            }
            Ok(true)
        }
        Err(ReadFault::NoMemory) => return Err("no memory")?,
        Err(ReadFault::Malformed(_)) => Ok(false),
    }
}

/// How many changes of an octet of a table are refused.
fn refused_tables(alloc: Global, octets: &mut Vec<u8>, place: usize) -> Result<u64, Fail> {
    let mut refused = 0u64;
    for value in 1..=255 {
        change(octets, place, value);
        if !is_table(alloc, octets.as_slice())? {
            refused = refused.saturating_add(1);
        }
        change(octets, place, value);
    }
    Ok(refused)
}

#[test]
fn each_octet_of_a_table_changed(rt: HostRuntime) -> Result<(), Fail> {
    // the account a of 2 places and 1 port, times of 60, 60, 60, 60 and 5 seconds, and a client
    let mut octets = octets_of(rt.alloc(), "01 01 61 02 01 3c 3c 3c 3c 05 01 c0a80110")?;
    // How many of the 255 other values of an octet are refused: all numbers of accounts, all but 93
    // characters, all but 64 of the places and 15 of the ports, a reserve of under 5 seconds or of
    // more than one octet, and all numbers of clients.
    let refused = [(0, 255), (2, 162), (3, 191), (4, 240), (5, 8), (10, 255)];
    for (place, count) in refused {
        assert_eq!(rt;
            refused_tables(rt.alloc(), &mut octets, place)?,
            count,
            "{place}"
        );
    }
    let is_whole = is_table(rt.alloc(), octets.as_slice())?;
    assert!(rt; is_whole);
    Ok(())
}

/// Whether a header is at the front of octets. It is written so, and what is behind it is the rest.
fn has_header(alloc: Global, octets: &[u8]) -> Result<bool, Fail> {
    let Ok((header, rest)) = Header::read_front(octets) else {
        return Ok(false);
    };
    let mut again = Vec::new(alloc);
    header.push(&mut again)?;
    again.extend_from_slice(rest)?;
    if again.as_slice() != octets {
        return Err("written otherwise than it was read")?;
    }
    Ok(true)
}

/// How many changes of an octet of a header are refused.
fn refused_at(alloc: Global, octets: &mut Vec<u8>, place: usize) -> Result<u64, Fail> {
    let mut refused = 0u64;
    for bits in 1..256u32 {
        change(octets, place, bits as u8);
        if !has_header(alloc, octets.as_slice())? {
            refused = refused.saturating_add(1);
        }
        change(octets, place, bits as u8);
    }
    Ok(refused)
}

#[test]
fn each_octet_of_a_header_changed(rt: HostRuntime) -> Result<(), Fail> {
    let header = Header {
        generation: 70_000,
        table: 1,
        boot: 5_000_000_000,
        lines: 300,
    };
    let mut octets = Vec::new(rt.alloc());
    header.push(&mut octets)?;
    let spelled = octets_of(rt.alloc(), "03 01 fe00011170 01 ff000000012a05f200 fd012c")?;
    assert_eq!(rt; octets.as_slice(), spelled.as_slice());
    // How many of the 255 other values of an octet are refused: all versions, a mark of a number that
    // needs fewer octets than follow, or more than there are, and a first octet that is not needed. A
    // number of one octet leaves the others behind the header.
    let refused = [
        255, 255, 1, 0, 1, 0, 0, 0, 2, 0, 0, 0, 1, 0, 0, 0, 0, 2, 1, 0,
    ];
    for (place, count) in refused.iter().enumerate() {
        assert_eq!(rt;
            refused_at(rt.alloc(), &mut octets, place)?,
            *count,
            "{place}"
        );
    }
    assert_eq!(rt; refused.len(), octets.len());
    let is_whole = has_header(rt.alloc(), octets.as_slice())?;
    assert!(rt; is_whole);
    Ok(())
}
