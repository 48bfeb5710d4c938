//! Carrying a book over when the accounts change.

ghost use Rattle.std.specs.Prelude.{◌≡◌, ◌≤◌, [], ◌∷◌, ◌++◌, IfOk, OnOk, Some};
ghost use Rattle.rsl_accounts.specs.Limits.{RulesFit};
ghost use Rattle.rsl_session.specs.Saved.{saved_book, saved_link, saved_links};
ghost use Rattle.rsl_session.specs.Book.{bundles_in, new_book};
ghost use Rattle.rsl_session.specs.Places.{places_of};
ghost use Rattle.rld_books.specs.Carried.{
  Next,
  asks_on,
  carried_ask,
  carried_book,
  carried_link,
  carried_stop,
  links_on,
  placed,
  stops_on,
};
ghost use Rattle.rld_books.specs.Numbers.{number_in};

use crate::clients::number_in;
use crate::place::Placed;
use rsl_accounts::Rules;
use rsl_event::Nas;
use rsl_session::{KeptAsk, KeptStop, SavedBook, SavedHolder, SavedLink, Session};
use rsl_wire::{NoMemory, Octets};
use std::alloc::Global;

/// The access server of this name, of the client with this number after the change.
fn nas_of(alloc: Global, client: u32, nas: &Nas) -> Result<Nas, NoMemory>
    ensures { IfOk result (λ made. made ≡ record { client = client; name = nas.now.name }) }
{
    let name = nas.name.try_copy(alloc)?;
    Ok(Nas { client, name })
}

/// A copy of what held a link.
fn holder_of(alloc: Global, holder: &SavedHolder) -> Result<SavedHolder, NoMemory>
    ensures { IfOk result (λ made. made ≡ holder.now) }
{
    Ok(match holder {
        SavedHolder::Reserved(number) => SavedHolder::Reserved(*number),
        SavedHolder::Bound(id) => SavedHolder::Bound(id.try_copy(alloc)?),
    })
}

/// A link whose client has this number after the change.
fn link_of(alloc: Global, client: u32, link: &SavedLink) -> Result<SavedLink, NoMemory>
    ensures { IfOk result (λ made. (next : Next) → next link.now.nas.client ≡ Some client →
        saved_link made ≡ carried_link next (saved_link link.now)) }
{
    Ok(SavedLink {
        nas: nas_of(alloc, client, &link.nas)?,
        holder: holder_of(alloc, &link.holder)?,
        bundle: Octets::try_copy_option(alloc, &link.bundle)?,
        station: Octets::try_copy_option(alloc, &link.station)?,
        opened: link.opened,
        touched: link.touched,
    })
}

/// A fresh ask whose client has this number after the change.
fn ask_of(alloc: Global, client: u32, ask: &KeptAsk) -> Result<KeptAsk, NoMemory>
    ensures { IfOk result (λ made. (next : Next) → next ask.now.nas.client ≡ Some client →
        made ≡ carried_ask next ask.now) }
{
    Ok(KeptAsk {
        key: ask.key,
        nas: nas_of(alloc, client, &ask.nas)?,
        decision: ask.decision,
        at: ask.at,
        swept: ask.swept,
    })
}

/// A stop whose client has this number after the change.
fn stop_of(alloc: Global, client: u32, stop: &KeptStop) -> Result<KeptStop, NoMemory>
    ensures { IfOk result (λ made. (next : Next) → next stop.now.session.nas.client ≡ Some client →
        made ≡ carried_stop next stop.now) }
{
    Ok(KeptStop {
        session: Session {
            nas: nas_of(alloc, client, &stop.session.nas)?,
            id: stop.session.id.try_copy(alloc)?,
        },
        at: stop.at,
        swept: stop.swept,
    })
}

/// Places a link, if its client is still there.
fn place(
    alloc: Global,
    numbers: &[Option<u32>],
    rules: &Rules,
    found: &mut Placed,
    link: &SavedLink,
) -> Result<(), NoMemory>
    requires rules { RulesFit rules.now }
    requires counted { found.old.places ≡
        places_of rules.now.ports (bundles_in (saved_links found.old.links.items)) }
    requires limit { found.old.places ≤ rules.now.places }
    ensures links { OnOk result (saved_links found.new.links.items ≡
        placed rules.now (saved_links found.old.links.items)
        (links_on (number_in numbers.now) (saved_link link.now ∷ []))) }
    ensures counted { OnOk result (found.new.places ≡
        places_of rules.now.ports (bundles_in (saved_links found.new.links.items))) }
    ensures limit { OnOk result (found.new.places ≤ rules.now.places) }
{
    match number_in(numbers, link.nas.client) {
        Some(client) => found.put(rules, link_of(alloc, client, link)?),
        None => Ok(()),
    }
}

/// The links that are carried over.
fn links_of(
    alloc: Global,
    numbers: &[Option<u32>],
    rules: &Rules,
    links: &[SavedLink],
) -> Result<Vec<SavedLink>, NoMemory>
    requires { RulesFit rules.now }
    ensures { IfOk result (λ made. saved_links made.items ≡
        placed rules.now [] (links_on (number_in numbers.now) (saved_links links.now))) }
{
    let mut found = Placed::new(alloc);
    for link in links {
        place(alloc, numbers, rules, &mut found, link)?;
    }
    Ok(found.links)
}

/// Adds a fresh ask, if its client is still there.
fn push_ask(
    alloc: Global,
    numbers: &[Option<u32>],
    made: &mut Vec<KeptAsk>,
    ask: &KeptAsk,
) -> Result<(), NoMemory>
    ensures { OnOk result (made.new.items ≡
        made.old.items ++ asks_on (number_in numbers.now) (ask.now ∷ [])) }
{
    match number_in(numbers, ask.nas.client) {
        Some(client) => {
            made.push(ask_of(alloc, client, ask)?)?;
            Ok(())
        }
        None => Ok(()),
    }
}

/// The fresh asks that are carried over.
fn asks_of(
    alloc: Global,
    numbers: &[Option<u32>],
    asks: &[KeptAsk],
) -> Result<Vec<KeptAsk>, NoMemory>
    ensures { IfOk result (λ made. made.items ≡ asks_on (number_in numbers.now) asks.now) }
{
    let mut made = Vec::new(alloc);
    for ask in asks {
        push_ask(alloc, numbers, &mut made, ask)?;
    }
    Ok(made)
}

/// Adds a stop, if its client is still there.
fn push_stop(
    alloc: Global,
    numbers: &[Option<u32>],
    made: &mut Vec<KeptStop>,
    stop: &KeptStop,
) -> Result<(), NoMemory>
    ensures { OnOk result (made.new.items ≡
        made.old.items ++ stops_on (number_in numbers.now) (stop.now ∷ [])) }
{
    match number_in(numbers, stop.session.nas.client) {
        Some(client) => {
            made.push(stop_of(alloc, client, stop)?)?;
            Ok(())
        }
        None => Ok(()),
    }
}

/// The stops that are carried over.
fn stops_of(
    alloc: Global,
    numbers: &[Option<u32>],
    stops: &[KeptStop],
) -> Result<Vec<KeptStop>, NoMemory>
    ensures { IfOk result (λ made. made.items ≡ stops_on (number_in numbers.now) stops.now) }
{
    let mut made = Vec::new(alloc);
    for stop in stops {
        push_stop(alloc, numbers, &mut made, stop)?;
    }
    Ok(made)
}

/// A book carried over under these rules, when its clients have these numbers after the change.
pub(crate) fn carry(
    alloc: Global,
    numbers: &[Option<u32>],
    rules: &Rules,
    kept: &SavedBook,
) -> Result<SavedBook, NoMemory>
    requires { RulesFit rules.now }
    ensures { IfOk result (λ made. saved_book made ≡
        carried_book (number_in numbers.now) rules.now (saved_book kept.now)) }
{
    Ok(SavedBook {
        clock: kept.clock,
        links: links_of(alloc, numbers, rules, kept.links.as_slice())?,
        accepts: kept.accepts,
        asks: asks_of(alloc, numbers, kept.asks.as_slice())?,
        stops: stops_of(alloc, numbers, kept.stops.as_slice())?,
        over: kept.over,
    })
}

/// A new book.
#[tactic(auto, unfolding(rsl_session::specs::Saved::saved_book, rsl_session::specs::Saved::saved_links, rsl_session::specs::Book::new_book))]
pub(crate) fn new_saved(alloc: Global) -> SavedBook
    ensures { saved_book result ≡ new_book }
{
    SavedBook {
        clock: 0,
        links: Vec::new(alloc),
        accepts: 0,
        asks: Vec::new(alloc),
        stops: Vec::new(alloc),
        over: 0,
    }
}
