//! Cutting books to a moment.

ghost use Rattle.std.specs.Prelude.{◌≡◌, ◌+◌, ◌<◌, ◌≤◌, ◌^◌, IfOk, IsOkUnless, map, sum_by};
ghost use Rattle.rld_books.specs.Cut.{cut_ask, cut_book, cut_link, cut_server, cut_stop, earlier, late, late_in, late_in_server};
ghost use Rattle.rld_books.specs.Saved.{IsServerOf};
ghost use Rattle.rsl_session.specs.Saved.{saved_book, saved_link, saved_links};
ghost use Rattle.rsl_session.specs.declared.saved.SavedLink.{SavedLink as OneLink};
ghost use Rattle.rsl_session.specs.declared.kept.KeptAsk.{KeptAsk as OneAsk};
ghost use Rattle.rsl_session.specs.declared.kept.KeptStop.{KeptStop as OneStop};

use crate::fault::ServerFault;
use crate::server_books::ServerBooks;
use rsl_accounts::Config;
use rsl_session::{KeptAsk, KeptStop, SavedBook, SavedLink};
use std::alloc::Global;

/// Books that were cut to a moment.
#[derive(Drop)]
pub struct CutBooks {
    /// The books.
    pub books: ServerBooks,
    /// The number of moments that were later and were cut, at most 2^64 - 1.
    pub moments: u64,
}

// ---- one moment

/// The earlier of two moments.
#[tactic(auto, unfolding(crate::specs::Cut::earlier))]
fn earlier(now: u64, moment: u64) -> u64
    ensures { result ≡ earlier now moment }
{
    if now < moment { now } else { moment }
}

/// 1 for a later moment, else 0.
fn late(now: u64, moment: u64) -> u64
    ensures late { result ≡ late now moment }
    ensures one { result ≤ 1 }
{
    if now < moment { 1 } else { 0 }
}

// ---- how many moments are cut

/// The number of later moments of a link: of its opening and its last touch.
fn late_link(now: u64, link: &SavedLink) -> u64
    ensures { result ≡ late now link.now.opened + late now link.now.touched }
{
    late(now, link.opened).saturating_add(late(now, link.touched))
}

/// The number of later moments of these links, at most 2^64 - 1.
fn late_links(now: u64, links: &[SavedLink]) -> u64
    ensures { sum_by (λ link. late now link.opened + late now link.touched) links.now < 2 ^ 64 →
        result ≡ sum_by (λ link. late now link.opened + late now link.touched) links.now }
{
    let mut count: u64 = 0;
    for link in links {
        count = count.saturating_add(late_link(now, link));
    }
    count
}

/// The number of these asks that came later, at most 2^64 - 1.
fn late_asks(now: u64, asks: &[KeptAsk]) -> u64
    ensures { sum_by (λ ask. late now ask.at) asks.now < 2 ^ 64 →
        result ≡ sum_by (λ ask. late now ask.at) asks.now }
{
    let mut count: u64 = 0;
    for ask in asks {
        count = count.saturating_add(late(now, ask.at));
    }
    count
}

/// The number of these stops that came later, at most 2^64 - 1.
fn late_stops(now: u64, stops: &[KeptStop]) -> u64
    ensures { sum_by (λ stop. late now stop.at) stops.now < 2 ^ 64 →
        result ≡ sum_by (λ stop. late now stop.at) stops.now }
{
    let mut count: u64 = 0;
    for stop in stops {
        count = count.saturating_add(late(now, stop.at));
    }
    count
}

/// The number of later moments of a book, at most 2^64 - 1.
fn late_in_book(now: u64, kept: &SavedBook) -> u64
    ensures { late_in now (saved_book kept.now) < 2 ^ 64 → result ≡ late_in now (saved_book kept.now) }
{
    late(now, kept.clock)
        .saturating_add(late_links(now, kept.links.as_slice()))
        .saturating_add(late_asks(now, kept.asks.as_slice()))
        .saturating_add(late_stops(now, kept.stops.as_slice()))
}

/// The number of later moments of these books, at most 2^64 - 1.
fn late_in_all(now: u64, kept: &[SavedBook]) -> u64
    ensures { sum_by (late_in now) (map saved_book kept.now) < 2 ^ 64 →
        result ≡ sum_by (late_in now) (map saved_book kept.now) }
{
    let mut count: u64 = 0;
    for book in kept {
        count = count.saturating_add(late_in_book(now, book));
    }
    count
}

// ---- the cut

/// Cuts the opening and the last touch of a link.
fn cut_link(now: u64, link: &mut SavedLink)
    ensures { saved_link link.new ≡ cut_link now (saved_link link.old) }
{
    link.opened = earlier(now, link.opened);
    link.touched = earlier(now, link.touched);
}

/// Cuts the opening and the last touch of each of these links.
fn cut_links(now: u64, links: &mut [SavedLink])
    ensures { saved_links links.new ≡ map (cut_link now) (saved_links links.old) }
{
    for link in links.iter_mut() {
        cut_link(now, link);
    }
}

/// Cuts the moment of each of these asks.
fn cut_asks(now: u64, asks: &mut [KeptAsk])
    ensures { asks.new ≡ map (cut_ask now) asks.old }
{
    for ask in asks.iter_mut() {
        ask.at = earlier(now, ask.at);
    }
}

/// Cuts the moment of each of these stops.
fn cut_stops(now: u64, stops: &mut [KeptStop])
    ensures { stops.new ≡ map (cut_stop now) stops.old }
{
    for stop in stops.iter_mut() {
        stop.at = earlier(now, stop.at);
    }
}

/// Cuts each moment of a book.
fn cut_book(now: u64, kept: &mut SavedBook)
    ensures { saved_book kept.new ≡ cut_book now (saved_book kept.old) }
{
    kept.clock = earlier(now, kept.clock);
    cut_links(now, kept.links.as_mut_slice());
    cut_asks(now, kept.asks.as_mut_slice());
    cut_stops(now, kept.stops.as_mut_slice());
}

/// Cuts each moment of these books.
fn cut_each(now: u64, kept: &mut [SavedBook])
    ensures { map saved_book kept.new ≡ map (cut_book now) (map saved_book kept.old) }
{
    for index in 0..kept.len() {
        cut_book(now, &mut kept[index]);
    }
}

impl ServerBooks {
    /// These books, cut to a moment, as those of their configuration: each clock, each opening and
    /// last touch of a link, and each moment of a kept ask or stop that is later becomes `now`, and
    /// nothing else changes. So what was to end at a later moment ends as if its last packet came
    /// now.
    ///
    /// `WrongCount` and `Misfit` come if they are of another configuration, and `NoMemory` if
    /// memory is refused. These books stay as they are.
    pub fn cut(&self, alloc: Global, config: &Config, now: u64) -> Result<CutBooks, ServerFault>
        ensures server { IfOk result (λ cut. IsServerOf config.now cut.books) }
        ensures cut { IfOk result (λ cut. IsServerOf config.now self.now →
            cut.books ≡ cut_server now self.now) }
        ensures moments { IfOk result (λ cut. late_in_server now self.now < 2 ^ 64 →
            cut.moments ≡ late_in_server now self.now) }
        ensures memory { IsServerOf config.now self.now → IsOkUnless result ServerFault.NoMemory }
    {
        let mut kept = self.save(alloc)?;
        let moments = late_in_all(now, kept.as_slice());
        cut_each(now, kept.as_mut_slice());
        let books = ServerBooks::restore(alloc, config, kept.as_slice())?;
        Ok(CutBooks { books, moments })
    }
}
