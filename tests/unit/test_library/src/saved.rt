//! Tests of books that are saved and put back: which are refused, and which books a shard takes.

use crate::steps::config_and_steps;
use rsl_accounts::Config;
use rsl_book::Book;
use rsl_event::{Decision, Key, Nas, NasName, Source};
use rsl_session::{KeptAsk, KeptStop, SavedBook, SavedHolder, SavedLink, Session};
use rsl_shard::Books;
use rsl_wire::{NoMemory, Octets};
use std::alloc::Global;
use std::test::Fail;
use test_rows::{Subject, check_rows, shown};
use test_timelines::rules_of;

fn nas_of(alloc: Global) -> Result<Nas, NoMemory> {
    Ok(Nas {
        client: 0,
        name: NasName::Identifier(Octets::from_slice(alloc, b"n")?),
    })
}

/// An ask that no event leads to: it was kept after the clock, and nothing was decided on it.
pub(crate) fn ask_of(alloc: Global) -> Result<KeptAsk, NoMemory> {
    let source = Source {
        address: [192, 168, 1, 16],
        port: 1024,
    };
    Ok(KeptAsk {
        key: Key {
            source,
            id: 7,
            authenticator: [0; 16],
        },
        nas: nas_of(alloc)?,
        decision: Decision::Done,
        at: 9,
        swept: true,
    })
}

pub(crate) fn stop_of(alloc: Global) -> Result<KeptStop, NoMemory> {
    Ok(KeptStop {
        session: Session {
            nas: nas_of(alloc)?,
            id: Octets::from_slice(alloc, b"s")?,
        },
        at: 9,
        swept: false,
    })
}

/// A link in the bundle of this id, or in none for `-`: all are bound to one session, are of one
/// station, and were opened and touched after the clock.
pub(crate) fn link_of(alloc: Global, bundle: &str) -> Result<SavedLink, NoMemory> {
    let bundle = match bundle {
        "-" => None,
        id => Some(Octets::from_slice(alloc, id.as_bytes())?),
    };
    Ok(SavedLink {
        nas: nas_of(alloc)?,
        holder: SavedHolder::Bound(Octets::from_slice(alloc, b"s")?),
        bundle,
        station: Some(Octets::from_slice(alloc, b"a")?),
        opened: 8,
        touched: 9,
    })
}

/// A book with `asks` asks and `stops` stops, and a link for each bundle.
fn book_of(alloc: Global, asks: u64, stops: u64, bundles: &str) -> Result<SavedBook, NoMemory> {
    let mut saved = SavedBook {
        clock: 5,
        links: Vec::new(alloc),
        accepts: 0,
        asks: Vec::new(alloc),
        stops: Vec::new(alloc),
        over: u64::MAX,
    };
    for _ in 0..asks {
        saved.asks.push(ask_of(alloc)?)?;
    }
    for _ in 0..stops {
        saved.stops.push(stop_of(alloc)?)?;
    }
    for bundle in bundles.split_whitespace() {
        saved.links.push(link_of(alloc, bundle)?)?;
    }
    Ok(saved)
}

/// What becomes of a saved book with the number of asks and of stops that a row has, and a link for
/// each bundle.
struct PutBack;

impl Subject for PutBack {
    fn found(&self, alloc: Global, fields: &[&str]) -> Result<String, Fail> {
        let [rules, asks, stops, bundles] = fields else {
            return Err("rules, asks, stops and bundles")?;
        };
        let rules = rules_of(rules)?;
        if !rules.fits() {
            return Err("the rules do not fit")?;
        }
        let saved = book_of(alloc, asks.parse()?, stops.parse()?, bundles)?;
        match Book::restore(alloc, rules, &saved) {
            Ok(book) => {
                let again = book.save(alloc)?;
                let told = if again == saved {
                    "the same"
                } else {
                    "another"
                };
                Ok(String::from_str(alloc, told)?)
            }
            Err(fault) => shown(alloc, &fault),
        }
    }
}

#[test]
fn a_book_that_no_rules_can_hold_is_refused(rt: HostRuntime) -> Result<(), Fail> {
    check_rows(
        &rt,
        &PutBack,
        "
as much as fits | places=2 | 8 | 16 | - - | the same
an ask too many | places=2 | 9 | 17 | - - - | too many asks
a stop too many | places=2 | 8 | 17 | - - - | too many stops
a place too many | places=2 | 8 | 16 | - - - | too many places
a bundle of as many links as ports | places=1 ports=2 | 0 | 0 | m m | the same
a bundle of a link more | places=1 ports=2 | 0 | 0 | m m m | too many places
a bundle of two places, its links apart | places=3 ports=2 | 1 | 1 | m - m m | the same
a place too many before the last link | places=1 ports=2 | 0 | 0 | m k m | too many places
no place | places=0 | 8 | 16 | | the same
a link without a place | places=0 | 0 | 0 | - | too many places
",
    )
}

/// Whether a shard takes the new books of accounts.
struct Given;

impl Subject for Given {
    fn found(&self, alloc: Global, fields: &[&str]) -> Result<String, Fail> {
        let [head, number, accounts] = fields else {
            return Err("a head, a shard and accounts")?;
        };
        let (config, _) = config_and_steps(alloc, head, "")?;
        let number: u32 = number.parse()?;
        if config.shards() <= number {
            return Err("there is no such shard")?;
        }
        let books = books_of(alloc, &config, accounts)?;
        match Books::from_books(&config, number, books) {
            Ok(books) => Ok(format!(in alloc; "saves {}", books.save(alloc)?.len())?),
            Err(back) => Ok(format!(in alloc; "hands back {}", back.len())?),
        }
    }
}

/// The new books of accounts.
fn books_of(alloc: Global, config: &Config, accounts: &str) -> Result<Vec<Book>, Fail> {
    let mut books = Vec::new(alloc);
    for account in accounts.split_whitespace() {
        let account: u32 = account.parse()?;
        if config.accounts() <= account {
            return Err("there is no such account")?;
        }
        books.push(Book::new(alloc, config.entry(account).rules)?)?;
    }
    Ok(books)
}

#[test]
fn a_shard_takes_one_book_of_each_account(rt: HostRuntime) -> Result<(), Fail> {
    check_rows(
        &rt,
        &Given,
        "
one of each | set shards 2/client C xyzzy5461/account a pw 1/account b pw 2/account c pw 3/ \
    | 0 | 0 2 | saves 2
of another shard | set shards 2/client C xyzzy5461/account a pw 1/account b pw 2/account c pw 3/ \
    | 1 | 1 | saves 1
one is missing | set shards 2/client C xyzzy5461/account a pw 1/account b pw 2/account c pw 3/ \
    | 0 | 0 | hands back 1
one too many | set shards 2/client C xyzzy5461/account a pw 1/account b pw 2/account c pw 3/ \
    | 0 | 0 2 0 | hands back 3
in another order | set shards 2/client C xyzzy5461/account a pw 1/account b pw 2/account c pw 3/ \
    | 0 | 2 0 | hands back 2
with the rules of another account | set shards 2/client C xyzzy5461/account a pw 1/account b pw 2/\
    account c pw 3/ | 0 | 0 1 | hands back 2
",
    )
}
