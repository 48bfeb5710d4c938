//! Books, moves and tables as texts, each in the layout of a derived `Debug`, but without a station
//! that is not there, and without an opening or a delay of 0.

use rld_spelling::{FormerHeader, FormerTable, Header, Table, TableAccount, TableClient};
use rsl_session::{KeptAsk, KeptStop, SavedBook, SavedHolder, SavedLink, Session};
use rsl_shard::Move;
use std::alloc::Global;
use std::test::Fail;
use test_timelines::{
    push_delay, push_event, push_key, push_nas, push_note, push_octets, push_option, push_rules,
    push_station, push_value,
};

/// What stands before an item of a list at this place.
fn before(place: usize) -> &'static str {
    if place == 0 { "" } else { ", " }
}

fn push_session(text: &mut String, session: &Session) -> Result<(), Fail> {
    text.push_str("Session { nas: ")?;
    push_nas(text, &session.nas)?;
    push_octets(text, ", id: ", &session.id, " }")
}

fn push_link(text: &mut String, link: &SavedLink) -> Result<(), Fail> {
    text.push_str("SavedLink { nas: ")?;
    push_nas(text, &link.nas)?;
    match &link.holder {
        SavedHolder::Reserved(number) => push_value(text, ", holder: Reserved(", number, ")")?,
        SavedHolder::Bound(session) => push_octets(text, ", holder: Bound(", session, ")")?,
    }
    push_option(text, ", bundle: ", &link.bundle, "")?;
    push_station(text, &link.station)?;
    if link.opened > 0 {
        push_value(text, ", opened: ", &link.opened, "")?;
    }
    push_value(text, ", touched: ", &link.touched, " }")
}

fn push_ask(text: &mut String, ask: &KeptAsk) -> Result<(), Fail> {
    text.push_str("KeptAsk { key: ")?;
    push_key(text, &ask.key)?;
    text.push_str(", nas: ")?;
    push_nas(text, &ask.nas)?;
    push_value(text, ", decision: ", &ask.decision, "")?;
    push_value(text, ", at: ", &ask.at, "")?;
    push_value(text, ", swept: ", &ask.swept, " }")
}

fn push_stop(text: &mut String, stop: &KeptStop) -> Result<(), Fail> {
    text.push_str("KeptStop { session: ")?;
    push_session(text, &stop.session)?;
    push_value(text, ", at: ", &stop.at, "")?;
    push_value(text, ", swept: ", &stop.swept, " }")
}

fn push_saved(text: &mut String, book: &SavedBook) -> Result<(), Fail> {
    push_value(text, "SavedBook { clock: ", &book.clock, ", links: [")?;
    for (place, link) in book.links.iter().enumerate() {
        text.push_str(before(place))?;
        push_link(text, link)?;
    }
    push_value(text, "], accepts: ", &book.accepts, ", asks: [")?;
    for (place, ask) in book.asks.iter().enumerate() {
        text.push_str(before(place))?;
        push_ask(text, ask)?;
    }
    text.push_str("], stops: [")?;
    for (place, stop) in book.stops.iter().enumerate() {
        text.push_str(before(place))?;
        push_stop(text, stop)?;
    }
    push_value(text, "], over: ", &book.over, " }")
}

/// The text of books.
pub(crate) fn books_told(alloc: Global, books: &[SavedBook]) -> Result<String, Fail> {
    let mut text = String::from_str(alloc, "[")?;
    for (place, book) in books.iter().enumerate() {
        text.push_str(before(place))?;
        push_saved(&mut text, book)?;
    }
    text.push(']')?;
    Ok(text)
}

fn push_move(text: &mut String, moved: &Move) -> Result<(), Fail> {
    match moved {
        Move::Own { account, event } => {
            push_value(text, "Own { account: ", account, ", event: ")?;
            push_event(text, event)?;
        }
        Move::Sweep { moment, nas, delay } => {
            push_value(text, "Sweep { moment: ", moment, ", nas: ")?;
            push_nas(text, nas)?;
            push_delay(text, *delay)?;
        }
        Move::Tick { moment } => push_value(text, "Tick { moment: ", moment, "")?,
        Move::Stray { moment, note } => {
            push_value(text, "Stray { moment: ", moment, ", note: ")?;
            push_note(text, note)?;
        }
    }
    text.push_str(" }")?;
    Ok(())
}

/// The text of moves.
pub(crate) fn moves_told(alloc: Global, moves: &[Move]) -> Result<String, Fail> {
    let mut text = String::from_str(alloc, "[")?;
    for (place, moved) in moves.iter().enumerate() {
        text.push_str(before(place))?;
        push_move(&mut text, moved)?;
    }
    text.push(']')?;
    Ok(text)
}

/// The text of a header.
pub(crate) fn header_told(alloc: Global, header: &Header) -> Result<String, Fail> {
    let mut text = String::new(alloc);
    push_value(&mut text, "Header { generation: ", &header.generation, "")?;
    push_value(&mut text, ", table: ", &header.table, "")?;
    push_value(&mut text, ", boot: ", &header.boot, "")?;
    push_value(&mut text, ", lines: ", &header.lines, " }")?;
    Ok(text)
}

/// The text of a header of before.
pub(crate) fn former_header_told(alloc: Global, header: &FormerHeader) -> Result<String, Fail> {
    let mut text = String::new(alloc);
    push_value(&mut text, "FormerHeader { era: ", &header.era, "")?;
    push_value(&mut text, ", generation: ", &header.generation, "")?;
    push_value(&mut text, ", digest: ", &header.digest, "")?;
    push_value(&mut text, ", lines: ", &header.lines, " }")?;
    Ok(text)
}

fn push_account(text: &mut String, account: &TableAccount) -> Result<(), Fail> {
    push_octets(text, "TableAccount { name: ", &account.name, ", rules: ")?;
    push_rules(text, &account.rules)?;
    text.push_str(" }")?;
    Ok(())
}

fn push_client(text: &mut String, client: &TableClient) -> Result<(), Fail> {
    push_value(text, "TableClient { address: ", &client.address, " }")
}

fn push_table(text: &mut String, table: &Table) -> Result<(), Fail> {
    text.push_str("Table { accounts: [")?;
    for (place, account) in table.accounts.iter().enumerate() {
        text.push_str(before(place))?;
        push_account(text, account)?;
    }
    text.push_str("], clients: [")?;
    for (place, client) in table.clients.iter().enumerate() {
        text.push_str(before(place))?;
        push_client(text, client)?;
    }
    text.push_str("] }")?;
    Ok(())
}

/// The text of a table.
pub(crate) fn table_told(alloc: Global, table: &Table) -> Result<String, Fail> {
    let mut text = String::new(alloc);
    push_table(&mut text, table)?;
    Ok(text)
}

/// The text of a table of before.
pub(crate) fn former_told(alloc: Global, former: &FormerTable) -> Result<String, Fail> {
    let mut text = String::new(alloc);
    push_value(&mut text, "FormerTable { boot: ", &former.boot, "")?;
    push_value(&mut text, ", shards: ", &former.shards, ", table: ")?;
    push_table(&mut text, &former.table)?;
    text.push_str(" }")?;
    Ok(text)
}
