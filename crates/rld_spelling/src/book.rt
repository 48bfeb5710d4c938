//! Books: all that the book of an account holds.

ghost use Rattle.std.specs.Prelude.{◌≡◌, ◌++◌, ◌↔◌, List, IsTrue, IfOk, IfSome, OnOk, IsErrOf, None, Ok, All, length};
ghost use Rattle.std.specs.List.{flat_map};
ghost use Rattle.rld_spelling.specs.Field.{option_spelled, short};
ghost use Rattle.rld_spelling.specs.Lists.{all_of, list_of, values_at};
ghost use Rattle.rld_spelling.specs.Numbers.{number_octets};
ghost use Rattle.rld_spelling.specs.Read.{Gives, Reads, ReadsIn, ReadsInto};
ghost use Rattle.rld_spelling.specs.Books.{BookSeen, book_seen, books_seen};
ghost use Rattle.rld_spelling.specs.Books.{DecisionFits, decision_at, decision_octets};
ghost use Rattle.rld_spelling.specs.Books.{HolderFits, holder_octets, held_at, held_since, is_known, since_at};
ghost use Rattle.rld_spelling.specs.Books.{link_at, link_field, link_octets, links_at, links_field, links_octets};
ghost use Rattle.rld_spelling.specs.Books.{kept_ask_at, kept_ask_field, kept_ask_octets, asks_at, asks_field, asks_octets};
ghost use Rattle.rld_spelling.specs.Books.{kept_stop_at, kept_stop_field, kept_stop_octets, stops_at, stops_field, stops_octets};
ghost use Rattle.rld_spelling.specs.Books.{book_at, book_field, book_octets, books_field};

use crate::fault::SpellFault;
use crate::request::{key_has_spelling, push_key, read_key};
use crate::server::{
    id_fits, nas_fits, option_fits, push_nas, push_option, read_id, read_nas, read_option,
};
use crate::{Cause, Fault, ReadFault, Reader, push_flag, push_number, push_short};
use rsl_event::Decision;
use rsl_session::{KeptAsk, KeptStop, SavedBook, SavedHolder, SavedLink, Session};
use rsl_wire::Octets;
use std::alloc::{AllocError, Global};

/// The tags of decisions.
const DONE: u8 = 0;

const ACCEPT: u8 = 1;

const LIMIT_REJECT: u8 = 2;

/// The tags of what holds a link.
const RESERVED: u8 = 0;

const BOUND: u8 = 1;

const RESERVED_SINCE: u8 = 2;

const BOUND_SINCE: u8 = 3;

// ---- decisions

/// Spells a decision.
#[tactic(auto, unfolding(crate::specs::Books::decision_octets))]
fn push_decision(out: &mut Vec<u8>, decision: Decision) -> Result<(), AllocError>
    ensures { OnOk result (out.new.items ≡ out.old.items ++ decision_octets decision) }
{
    match decision {
        Decision::Done => {
            out.push(DONE)?;
            Ok(())
        }
        Decision::Accept(number) => {
            out.push(ACCEPT)?;
            push_number(out, number)
        }
        Decision::LimitReject => {
            out.push(LIMIT_REJECT)?;
            Ok(())
        }
    }
}

/// Reads a decision.
#[tactic(auto, unfolding(crate::specs::Books::decision_at))]
fn read_decision(reader: &mut Reader) -> Result<Decision, Fault>
    ensures { Reads result reader.new (decision_at reader.old) }
{
    let unknown = reader.fault(Cause::UnknownTag);
    match reader.octet()? {
        DONE => Ok(Decision::Done),
        ACCEPT => Ok(Decision::Accept(reader.number()?)),
        LIMIT_REJECT => Ok(Decision::LimitReject),
        _ => Err(unknown),
    }
}

// ---- links

/// What holds a link, when it opened, and its station.
#[derive(Drop)]
struct Held {
    /// What holds it.
    holder: SavedHolder,
    /// The account's clock when it opened, in seconds; 0 where that is not known.
    opened: u64,
    /// Its station, if one is known.
    station: Option<Octets>,
}

/// What holds a link of which neither is known.
fn held_alone(holder: SavedHolder) -> Held
    ensures { result ≡ held_since holder (0, None) }
{
    Held {
        holder,
        opened: 0,
        station: None,
    }
}

/// Whether it is known when a link opened, or its station.
fn is_known(opened: u64, station: &Option<Octets>) -> bool
    ensures { result ≡ is_known (opened, station.now) }
{
    0 < opened || station.is_some()
}

/// Whether what holds a link has a spelling.
fn holder_fits(holder: &SavedHolder) -> bool
    ensures { IsTrue result ↔ HolderFits holder.now }
{
    match holder {
        SavedHolder::Reserved(number) => {
            let _number = *number;
            true
        }
        SavedHolder::Bound(session) => id_fits(session),
    }
}

/// Whether a link has a spelling.
#[tactic(auto, unfolding(crate::specs::Books::LinkFits))]
fn link_fits(link: &SavedLink, clients: u32) -> bool
    ensures { IsTrue result ↔ (link_field clients).Fits link.now }
{
    let _opened = link.opened;
    let _touched = link.touched;
    nas_fits(&link.nas, clients)
        && holder_fits(&link.holder)
        && option_fits(&link.station)
        && option_fits(&link.bundle)
}

/// Spells when a link opened, and its station.
fn push_since(out: &mut Vec<u8>, opened: u64, station: &Option<Octets>) -> Result<(), AllocError>
    requires { IfSome station.now short.Fits }
    ensures { OnOk result (out.new.items ≡
        out.old.items ++ (number_octets opened ++ option_spelled short station.now)) }
{
    push_number(out, opened)?;
    push_option(out, station)
}

/// Spells what holds a link, and when it opened and its station, unless neither is known.
fn push_holder(
    out: &mut Vec<u8>,
    holder: &SavedHolder,
    opened: u64,
    station: &Option<Octets>,
) -> Result<(), AllocError>
    requires holder { HolderFits holder.now }
    requires station { IfSome station.now short.Fits }
    ensures { OnOk result (out.new.items ≡
        out.old.items ++ holder_octets holder.now (opened, station.now)) }
{
    let known = is_known(opened, station);
    match holder {
        SavedHolder::Reserved(number) => {
            if known {
                out.push(RESERVED_SINCE)?;
                push_number(out, *number)?;
                push_since(out, opened, station)
            } else {
                out.push(RESERVED)?;
                push_number(out, *number)
            }
        }
        SavedHolder::Bound(session) => {
            if known {
                out.push(BOUND_SINCE)?;
                push_short(out, session.as_slice())?;
                push_since(out, opened, station)
            } else {
                out.push(BOUND)?;
                push_short(out, session.as_slice())
            }
        }
    }
}

/// Spells a link.
#[tactic(auto, unfolding(crate::specs::Books::link_octets, crate::specs::Books::held_octets, crate::specs::Books::LinkFits))]
fn push_link(out: &mut Vec<u8>, link: &SavedLink, clients: u32) -> Result<(), AllocError>
    requires { (link_field clients).Fits link.now }
    ensures { OnOk result (out.new.items ≡ out.old.items ++ link_octets link.now) }
{
    push_nas(out, &link.nas)?;
    push_holder(out, &link.holder, link.opened, &link.station)?;
    push_option(out, &link.bundle)?;
    push_number(out, link.touched)
}

/// Reads when a link opened, and its station. `OutOfRange` comes if neither is known.
#[tactic(auto, unfolding(crate::specs::Books::since_at))]
fn read_since(alloc: Global, reader: &mut Reader) -> Result<(u64, Option<Octets>), ReadFault>
    ensures { ReadsIn result reader.new (since_at reader.old) }
{
    let unknown = reader.fault(Cause::OutOfRange);
    let opened = reader.number()?;
    let station = read_option(alloc, reader)?;
    if is_known(opened, &station) {
        Ok((opened, station))
    } else {
        Err(ReadFault::Malformed(unknown))
    }
}

/// Reads what holds a link, when it opened, and its station.
#[tactic(auto, unfolding(crate::specs::Books::held_at, crate::specs::Books::since_at))]
fn read_held(alloc: Global, reader: &mut Reader) -> Result<Held, ReadFault>
    ensures { ReadsIn result reader.new (held_at reader.old) }
{
    let unknown = reader.fault(Cause::UnknownTag);
    match reader.octet()? {
        RESERVED => Ok(held_alone(SavedHolder::Reserved(reader.number()?))),
        BOUND => Ok(held_alone(SavedHolder::Bound(read_id(alloc, reader)?))),
        RESERVED_SINCE => {
            let holder = SavedHolder::Reserved(reader.number()?);
            let (opened, station) = read_since(alloc, reader)?;
            Ok(Held {
                holder,
                opened,
                station,
            })
        }
        BOUND_SINCE => {
            let holder = SavedHolder::Bound(read_id(alloc, reader)?);
            let (opened, station) = read_since(alloc, reader)?;
            Ok(Held {
                holder,
                opened,
                station,
            })
        }
        _ => Err(ReadFault::Malformed(unknown)),
    }
}

/// Reads a link.
#[tactic(auto, unfolding(crate::specs::Books::link_at))]
fn read_link(alloc: Global, reader: &mut Reader, clients: u32) -> Result<SavedLink, ReadFault>
    ensures { ReadsIn result reader.new (link_at clients reader.old) }
{
    let nas = read_nas(alloc, reader, clients)?;
    let held = read_held(alloc, reader)?;
    let bundle = read_option(alloc, reader)?;
    let touched = reader.number()?;
    Ok(SavedLink {
        nas,
        holder: held.holder,
        bundle,
        station: held.station,
        opened: held.opened,
        touched,
    })
}

// ---- kept asks

/// Whether a kept ask has a spelling.
#[tactic(auto, unfolding(crate::specs::Books::KeptAskFits))]
fn ask_fits(ask: &KeptAsk, clients: u32) -> bool
    ensures { IsTrue result ↔ (kept_ask_field clients).Fits ask.now }
{
    let _at = ask.at;
    key_has_spelling(ask.key);
    decision_has_spelling(ask.decision);
    nas_fits(&ask.nas, clients)
}

/// Shows the prover that every decision has a spelling.
fn decision_has_spelling(decision: Decision)
    ensures { DecisionFits decision }
{
    match decision {
        Decision::Accept(number) => {
            let _number = number;
        }
        Decision::LimitReject | Decision::Done => {}
    }
}

/// Spells a kept ask.
#[tactic(auto, unfolding(crate::specs::Books::kept_ask_octets, crate::specs::Books::KeptAskFits))]
fn push_ask(out: &mut Vec<u8>, ask: &KeptAsk, clients: u32) -> Result<(), AllocError>
    requires { (kept_ask_field clients).Fits ask.now }
    ensures { OnOk result (out.new.items ≡ out.old.items ++ kept_ask_octets ask.now) }
{
    push_key(out, &ask.key)?;
    push_nas(out, &ask.nas)?;
    push_decision(out, ask.decision)?;
    push_number(out, ask.at)?;
    push_flag(out, ask.swept)
}

/// Reads a kept ask.
#[tactic(auto, unfolding(crate::specs::Books::kept_ask_at))]
fn read_ask(alloc: Global, reader: &mut Reader, clients: u32) -> Result<KeptAsk, ReadFault>
    ensures { ReadsIn result reader.new (kept_ask_at clients reader.old) }
{
    let key = read_key(reader)?;
    let nas = read_nas(alloc, reader, clients)?;
    let decision = read_decision(reader)?;
    let at = reader.number()?;
    let swept = reader.flag()?;
    Ok(KeptAsk {
        key,
        nas,
        decision,
        at,
        swept,
    })
}

// ---- kept stops

/// Whether a kept stop has a spelling.
#[tactic(auto, unfolding(crate::specs::Books::KeptStopFits))]
fn stop_fits(stop: &KeptStop, clients: u32) -> bool
    ensures { IsTrue result ↔ (kept_stop_field clients).Fits stop.now }
{
    let _at = stop.at;
    nas_fits(&stop.session.nas, clients) && id_fits(&stop.session.id)
}

/// Spells a kept stop.
#[tactic(auto, unfolding(crate::specs::Books::kept_stop_octets, crate::specs::Books::KeptStopFits))]
fn push_stop(out: &mut Vec<u8>, stop: &KeptStop, clients: u32) -> Result<(), AllocError>
    requires { (kept_stop_field clients).Fits stop.now }
    ensures { OnOk result (out.new.items ≡ out.old.items ++ kept_stop_octets stop.now) }
{
    push_nas(out, &stop.session.nas)?;
    push_short(out, stop.session.id.as_slice())?;
    push_number(out, stop.at)?;
    push_flag(out, stop.swept)
}

/// Reads a kept stop.
#[tactic(auto, unfolding(crate::specs::Books::kept_stop_at))]
fn read_stop(alloc: Global, reader: &mut Reader, clients: u32) -> Result<KeptStop, ReadFault>
    ensures { ReadsIn result reader.new (kept_stop_at clients reader.old) }
{
    let nas = read_nas(alloc, reader, clients)?;
    let id = read_id(alloc, reader)?;
    let at = reader.number()?;
    let swept = reader.flag()?;
    Ok(KeptStop {
        session: Session { nas, id },
        at,
        swept,
    })
}

// ---- lists

/// Whether each of some links has a spelling.
fn links_fit(links: &[SavedLink], clients: u32) -> bool
    ensures { IsTrue result ↔ All (link_field clients).Fits links.now }
{
    for link in links {
        if !link_fits(link, clients) {
            return false;
        }
    }
    true
}

/// Spells links after their number.
#[tactic(auto, unfolding(crate::specs::Books::links_octets))]
fn push_links(out: &mut Vec<u8>, links: &[SavedLink], clients: u32) -> Result<(), AllocError>
    requires { All (link_field clients).Fits links.now }
    ensures { OnOk result (out.new.items ≡ out.old.items ++ links_octets links.now) }
{
    push_number(out, links.len() as u64)?;
    for link in links {
        push_link(out, link, clients)?;
    }
    Ok(())
}

/// Reads `count` links.
#[tactic(auto, using(crate::proofs::Callers::front_steps))]
fn read_link_count(
    alloc: Global,
    reader: &mut Reader,
    clients: u32,
    count: u64,
) -> Result<Vec<SavedLink>, ReadFault>
    ensures { ReadsInto (λ links. links.items) result reader.new
        (values_at (link_at clients) count reader.old) }
{
    let mut links = Vec::new(alloc);
    for _ in 0..count {
        let link = read_link(alloc, reader, clients)?;
        links.push(link)?;
    }
    Ok(links)
}

/// Reads links after their number.
#[tactic(auto, unfolding(crate::specs::Books::links_at))]
fn read_links(alloc: Global, reader: &mut Reader, clients: u32) -> Result<Vec<SavedLink>, ReadFault>
    ensures { ReadsInto (λ links. links.items) result reader.new (links_at clients reader.old) }
{
    let count = reader.number()?;
    read_link_count(alloc, reader, clients, count)
}

/// Whether each of some kept asks has a spelling.
fn asks_fit(asks: &[KeptAsk], clients: u32) -> bool
    ensures { IsTrue result ↔ All (kept_ask_field clients).Fits asks.now }
{
    for ask in asks {
        if !ask_fits(ask, clients) {
            return false;
        }
    }
    true
}

/// Spells kept asks after their number.
#[tactic(auto, unfolding(crate::specs::Books::asks_octets))]
fn push_asks(out: &mut Vec<u8>, asks: &[KeptAsk], clients: u32) -> Result<(), AllocError>
    requires { All (kept_ask_field clients).Fits asks.now }
    ensures { OnOk result (out.new.items ≡ out.old.items ++ asks_octets asks.now) }
{
    push_number(out, asks.len() as u64)?;
    for ask in asks {
        push_ask(out, ask, clients)?;
    }
    Ok(())
}

/// Reads `count` kept asks.
#[tactic(auto, using(crate::proofs::Callers::front_steps))]
fn read_ask_count(
    alloc: Global,
    reader: &mut Reader,
    clients: u32,
    count: u64,
) -> Result<Vec<KeptAsk>, ReadFault>
    ensures { ReadsInto (λ asks. asks.items) result reader.new
        (values_at (kept_ask_at clients) count reader.old) }
{
    let mut asks = Vec::new(alloc);
    for _ in 0..count {
        let ask = read_ask(alloc, reader, clients)?;
        asks.push(ask)?;
    }
    Ok(asks)
}

/// Reads kept asks after their number.
#[tactic(auto, unfolding(crate::specs::Books::asks_at))]
fn read_asks(alloc: Global, reader: &mut Reader, clients: u32) -> Result<Vec<KeptAsk>, ReadFault>
    ensures { ReadsInto (λ asks. asks.items) result reader.new (asks_at clients reader.old) }
{
    let count = reader.number()?;
    read_ask_count(alloc, reader, clients, count)
}

/// Whether each of some kept stops has a spelling.
fn stops_fit(stops: &[KeptStop], clients: u32) -> bool
    ensures { IsTrue result ↔ All (kept_stop_field clients).Fits stops.now }
{
    for stop in stops {
        if !stop_fits(stop, clients) {
            return false;
        }
    }
    true
}

/// Spells kept stops after their number.
#[tactic(auto, unfolding(crate::specs::Books::stops_octets))]
fn push_stops(out: &mut Vec<u8>, stops: &[KeptStop], clients: u32) -> Result<(), AllocError>
    requires { All (kept_stop_field clients).Fits stops.now }
    ensures { OnOk result (out.new.items ≡ out.old.items ++ stops_octets stops.now) }
{
    push_number(out, stops.len() as u64)?;
    for stop in stops {
        push_stop(out, stop, clients)?;
    }
    Ok(())
}

/// Reads `count` kept stops.
#[tactic(auto, using(crate::proofs::Callers::front_steps))]
fn read_stop_count(
    alloc: Global,
    reader: &mut Reader,
    clients: u32,
    count: u64,
) -> Result<Vec<KeptStop>, ReadFault>
    ensures { ReadsInto (λ stops. stops.items) result reader.new
        (values_at (kept_stop_at clients) count reader.old) }
{
    let mut stops = Vec::new(alloc);
    for _ in 0..count {
        let stop = read_stop(alloc, reader, clients)?;
        stops.push(stop)?;
    }
    Ok(stops)
}

/// Reads kept stops after their number.
#[tactic(auto, unfolding(crate::specs::Books::stops_at))]
fn read_stops(alloc: Global, reader: &mut Reader, clients: u32) -> Result<Vec<KeptStop>, ReadFault>
    ensures { ReadsInto (λ stops. stops.items) result reader.new (stops_at clients reader.old) }
{
    let count = reader.number()?;
    read_stop_count(alloc, reader, clients, count)
}

// ---- the whole book

/// Whether a book has a spelling: its access servers are at one of `clients` clients, and its names
/// and ids have at most 253 octets.
#[tactic(auto, unfolding(crate::specs::Books::BookFits))]
pub fn book_fits(book: &SavedBook, clients: u32) -> bool
    ensures { IsTrue result ↔ (book_field clients).Fits (book_seen book.now) }
{
    let _clock = book.clock;
    let _accepts = book.accepts;
    let _over = book.over;
    let _links = book.links.len();
    let _asks = book.asks.len();
    let _stops = book.stops.len();
    links_fit(book.links.as_slice(), clients)
        && asks_fit(book.asks.as_slice(), clients)
        && stops_fit(book.stops.as_slice(), clients)
}

/// Spells a book that has a spelling.
#[tactic(auto, unfolding(crate::specs::Books::book_octets, crate::specs::Books::BookFits))]
fn push_fitting(out: &mut Vec<u8>, book: &SavedBook, clients: u32) -> Result<(), AllocError>
    requires { (book_field clients).Fits (book_seen book.now) }
    ensures { OnOk result (out.new.items ≡ out.old.items ++ book_octets (book_seen book.now)) }
{
    push_number(out, book.clock)?;
    push_number(out, book.accepts)?;
    push_number(out, book.over)?;
    push_links(out, book.links.as_slice(), clients)?;
    push_asks(out, book.asks.as_slice(), clients)?;
    push_stops(out, book.stops.as_slice(), clients)
}

/// Appends the spelling of a book. `Unfit` comes exactly if the book has no spelling; then nothing
/// is written. If memory is refused, a part of it may have been appended.
pub fn push_book(out: &mut Vec<u8>, book: &SavedBook, clients: u32) -> Result<(), SpellFault>
    ensures spelled { OnOk result (out.new.items ≡ out.old.items ++ book_octets (book_seen book.now)) }
    ensures fits { OnOk result ((book_field clients).Fits (book_seen book.now)) }
    ensures unfit { IsErrOf result SpellFault.Unfit ↔
        ((book_field clients).Fits (book_seen book.now) → ⊥) }
    ensures unwritten { IsErrOf result SpellFault.Unfit → out.new.items ≡ out.old.items }
{
    if !book_fits(book, clients) {
        return Err(SpellFault::Unfit);
    }
    push_fitting(out, book, clients)?;
    Ok(())
}

/// Reads a book.
#[tactic(auto, unfolding(crate::specs::Books::book_at))]
fn read_book(alloc: Global, reader: &mut Reader, clients: u32) -> Result<SavedBook, ReadFault>
    ensures { ReadsInto book_seen result reader.new (book_at clients reader.old) }
{
    let clock = reader.number()?;
    let accepts = reader.number()?;
    let over = reader.number()?;
    let links = read_links(alloc, reader, clients)?;
    let asks = read_asks(alloc, reader, clients)?;
    let stops = read_stops(alloc, reader, clients)?;
    Ok(SavedBook {
        clock,
        links,
        accepts,
        asks,
        stops,
        over,
    })
}

/// Reads `count` books.
#[tactic(auto, using(crate::proofs::SeenLoops::seen_steps))]
fn read_book_count(
    alloc: Global,
    reader: &mut Reader,
    clients: u32,
    count: u64,
) -> Result<Vec<SavedBook>, ReadFault>
    ensures { ReadsInto (λ books. books_seen books.items) result reader.new
        (values_at (book_at clients) count reader.old) }
{
    let mut books = Vec::new(alloc);
    for _ in 0..count {
        let book = read_book(alloc, reader, clients)?;
        books.push(book)?;
    }
    Ok(books)
}

/// Reads books from all of the octets.
fn read_all(alloc: Global, octets: &[u8], clients: u32) -> Result<Vec<SavedBook>, ReadFault>
    ensures { Gives (λ books. books_seen books.items) result
        (all_of ((books_field clients).read octets.now)) }
{
    let mut reader = Reader::new(octets);
    let count = reader.number()?;
    let books = read_book_count(alloc, &mut reader, clients, count)?;
    if reader.left() == 0 {
        Ok(books)
    } else {
        Err(ReadFault::Malformed(reader.fault(Cause::Trailing)))
    }
}

/// The books of a snapshot, from all of the octets. It fails if memory is refused, and else with
/// the first fault.
pub fn read_books(alloc: Global, octets: &[u8], clients: u32) -> Result<Vec<SavedBook>, ReadFault>
    // What is read is spelled so.
    ensures found { IfOk result (λ books.
        (octets.now ≡ (books_field clients).spell (books_seen books.items))
        × (books_field clients).Fits (books_seen books.items)) }
    // What is spelled so is read.
    ensures only { (books : List BookSeen) → (books_field clients).Fits books →
        octets.now ≡ (books_field clients).spell books →
        Gives (λ books. books_seen books.items) result (Ok books) }
    // The fault is the first.
    ensures exact { Gives (λ books. books_seen books.items) result
        (all_of ((books_field clients).read octets.now)) }
{
    read_all(alloc, octets, clients)
}
