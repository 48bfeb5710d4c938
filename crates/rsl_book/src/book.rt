ghost use Rattle.std.specs.Prelude.{◌≡◌, ◌↔◌, ◌+◌, ◌-◌, ◌*◌, ◌^◌, ◌<◌, ◌≤◌};
ghost use Rattle.std.specs.Prelude.{Option, Some, None, [], ◌∷◌, ◌++◌, find, IfOk, IfSome, IfNone, IsTrue, IsFalse, OnErr, length};
ghost use Rattle.std.specs.Prelude.{true, if◌then◌else◌};
ghost use Rattle.std.specs.List.{list_any};
ghost use Rattle.std.specs.Option.{option_map};
ghost use Rattle.rsl_accounts.specs.Limits.{RulesFit};
ghost use Rattle.rsl_event.specs.Copied.{ActHoldsOctets, IsNamedWith};
ghost use Rattle.rsl_event.specs.declared.event.Act.TheVariants.{Ask, Sweep, Tick};
ghost use Rattle.rsl_event.specs.declared.event.Decision.TheVariants.{Done};
ghost use Rattle.rsl_session.specs.declared.kept.KeptAsk.{KeptAsk};
ghost use Rattle.rsl_session.specs.Ask.{repeats};
ghost use Rattle.rsl_session.specs.Closed.{closes};
ghost use Rattle.rsl_session.specs.Places.{places_of};
ghost use Rattle.rsl_session.specs.Book.{new_book, places_in, bundles_in, reserved_in, live_in};
ghost use Rattle.rsl_session.specs.Book.{stale_in};
ghost use Rattle.rsl_session.specs.BookLinks.{is_link_of, can_be_taken, can_return, can_yield};
ghost use Rattle.rsl_session.specs.BookLinks.{fits_beside};
ghost use Rattle.rsl_session.specs.BookStep.{come_to, refuse, accept_beside, placed_ask};
ghost use Rattle.rsl_session.specs.BookStep.{fresh_ask, ask};
ghost use Rattle.rsl_session.specs.BookStep.{open_link, bind, alive, stop, sweep, act_on, step};
ghost use Rattle.rsl_book.specs.RuledBook.{RuledBook, IsWithinLimit};
ghost use Rattle.rsl_links.specs.First.{IsFirst, change_at};
ghost use Rattle.rsl_links.specs.Seen.{bundle_with, holder_at};
ghost use Rattle.rsl_links.specs.Steps.{touch_here, take_here, without_at};

mod restoring;

use crate::kept::{DecidedAsk, EndedSession, Kept};
use crate::ring::Ring;
use crate::same::has_same_links;
use crate::table::index_for;
use rsl_accounts::Rules;
use rsl_event::{Act, Decision, Event, Key, Nas};
use rsl_links::{Holder, Link, Links, Servers};
use rsl_session::{KEPT_ASKS, KEPT_STOPS};
use rsl_wire::{NoMemory, Octets};
use std::alloc::Global;
use std::marker::Model;

/// What one account holds now, so that its next event is decided without a look back.
///
/// A contract sees the rules of the account and the running book: the clock, the links in the order
/// in which they opened, the next accept number, the last fresh asks and stops, newest first, and
/// the over count. `new` allocates all its memory.
#[derive(Drop)]
pub struct Book {
    // Fields lie in memory in this order: what an ask or a tick reads comes first.
    clock: u64,
    accepts: u64,
    rules: Rules,
    links: Links,
    asks: Ring<DecidedAsk>,
    servers: Servers,
    stops: Ring<EndedSession>,
    over: u64,
}

impl Model for Book {
    ghost use Rattle.rsl_book.specs.RuledBook.{RuledBook};

    ghost Value = { RuledBook };

    ghost use Rattle.rsl_book.specs.BookSeen.{book_seen, IsSound};

    ghost view = { book_seen };

    ghost invariant = { IsSound };
}

/// How much a book holds.
#[derive(Clone, Copy, PartialEq, Eq)]
pub struct Stored {
    /// The links: at most the places of the account times its ports.
    pub links: u64,
    /// The fresh asks kept for their repeats: at most 8.
    pub kept: u64,
    /// The stops kept: at most 16.
    pub closed: u64,
}

/// The most links that an account can have.
fn most_links(rules: &Rules) -> usize
    requires { RulesFit rules.now }
    ensures most { result ≡ rules.now.places * rules.now.ports }
    ensures few { result ≤ 1024 }
{
    (rules.places * rules.ports) as usize
}

/// An equal access server and an equal station. It fails only if memory is refused.
fn copy_asker(
    alloc: Global,
    nas: &Nas,
    station: &Option<Octets>,
) -> Result<(Nas, Option<Octets>), NoMemory>
    ensures copy { IfOk result (λ copy. (copy.0 ≡ nas.now) × (copy.1 ≡ station.now)) }
    ensures refused { OnErr result (IsNamedWith station.now nas.now.name) }
{
    Ok((
        nas.try_copy(alloc)?,
        Octets::try_copy_option(alloc, station)?,
    ))
}

impl Book {
    /// The book of an account that has had no event, with all the memory that it will ever use. It
    /// fails only if memory is refused.
    pub fn new(alloc: Global, rules: Rules) -> Result<Book, NoMemory>
        requires { RulesFit rules }
        ensures made { IfOk result (λ made. made ≡ record { rules = rules; book = new_book }) }
        ensures limit { IfOk result (λ made. IsWithinLimit made) }
    {
        let most = most_links(&rules);
        Ok(Book {
            rules,
            clock: 0,
            accepts: 0,
            over: 0,
            servers: Servers::new(alloc, most + KEPT_ASKS + KEPT_STOPS + 1)?,
            links: Links::new(alloc, rules.ports, most)?,
            asks: Ring::new(alloc, KEPT_ASKS)?,
            stops: Ring::new(alloc, KEPT_STOPS)?,
        })
    }

    /// Steps the book by an event and gives the decision on it: `Done` for every event but an ask.
    /// It allocates nothing.
    pub fn apply(&mut self, event: Event) -> Decision
        ensures step { (self.new.book, result) ≡ step self.old.rules self.old.book event }
        ensures rules { self.new.rules ≡ self.old.rules }
        ensures limit_before { IsWithinLimit self.old }
        ensures limit { IsWithinLimit self.new }
    {
        self.open_invariant();
        let Event { moment, act } = event;
        self.come_to(moment);
        let decision = self.act(act);
        self.open_invariant();
        decision
    }

    /// `apply` of a borrowed event. It first copies what the book may keep: if memory is refused,
    /// nothing has changed. It allocates only for names, ids and stations of more than 22 octets.
    pub fn apply_lent(&mut self, alloc: Global, event: &Event) -> Result<Decision, NoMemory>
        ensures step { IfOk result (λ decision.
            (self.new.book, decision) ≡ step self.old.rules self.old.book event.now) }
        ensures rules { self.new.rules ≡ self.old.rules }
        ensures err { OnErr result (self.new ≡ self.old) }
        ensures refused { OnErr result (ActHoldsOctets event.now.act) }
        ensures limit_before { IsWithinLimit self.old }
        ensures limit { IsWithinLimit self.new }
    {
        self.open_invariant();
        match &event.act {
            Act::Ask { key, nas, station } => match copy_asker(alloc, nas, station) {
                Ok((nas, station)) => Ok(self.ask_at(event.moment, *key, nas, station)),
                Err(NoMemory) => Err(NoMemory),
            },
            Act::Alive { .. } | Act::Stop { .. } | Act::Sweep { .. } | Act::Tick => {
                match event.try_copy(alloc) {
                    Ok(event) => Ok(self.apply(event)),
                    Err(NoMemory) => Err(NoMemory),
                }
            }
        }
    }

    /// Steps the book by an ask at a moment.
    fn ask_at(&mut self, moment: u64, key: Key, nas: Nas, station: Option<Octets>) -> Decision
        ensures step { (self.new.book, result) ≡ step self.old.rules self.old.book
            (record { moment = moment; act = Ask key nas station }) }
        ensures rules { self.new.rules ≡ self.old.rules }
        ensures limit { IsWithinLimit self.new }
    {
        self.come_to(moment);
        let decision = self.ask(key, nas, station);
        self.open_invariant();
        decision
    }

    /// An equal book. It fails only if memory is refused.
    pub fn try_copy(&self, alloc: Global) -> Result<Book, NoMemory>
        ensures { IfOk result (λ copy. copy ≡ self.now) }
    {
        Ok(Book {
            rules: self.rules,
            clock: self.clock,
            accepts: self.accepts,
            over: self.over,
            servers: self.servers.try_copy(alloc)?,
            links: self.links.try_copy(alloc, most_links(&self.rules))?,
            asks: self.asks.try_copy(alloc)?,
            stops: self.stops.try_copy(alloc)?,
        })
    }

    /// Whether two books are equal: their rules, and all that they hold.
    pub fn same(&self, other: &Book) -> bool
        ensures { IsTrue result ↔ (self.now ≡ other.now) }
    {
        self.rules == other.rules
            && self.clock == other.clock
            && self.accepts == other.accepts
            && self.over == other.over
            && has_same_links(
                &self.links.list,
                &self.servers,
                &other.links.list,
                &other.servers,
            )
            && self
                .asks
                .has_same_asks(&self.servers, &other.asks, &other.servers)
            && self
                .stops
                .has_same_stops(&self.servers, &other.stops, &other.servers)
    }

    /// Steps a book that has come to the moment of an act by that act.
    fn act(&mut self, act: Act) -> Decision
        ensures step { (self.new.book, result) ≡ act_on self.old.rules self.old.book act }
        ensures rules { self.new.rules ≡ self.old.rules }
    {
        match act {
            Act::Ask { key, nas, station } => self.ask(key, nas, station),
            Act::Alive {
                nas,
                session,
                bundle,
                class,
                station,
            } => {
                self.alive(nas, session, bundle, class, station);
                Decision::Done
            }
            Act::Stop { nas, session } => {
                self.stop(nas, session);
                Decision::Done
            }
            Act::Sweep { nas, delay } => {
                self.sweep_at(&nas, delay);
                Decision::Done
            }
            Act::Tick => Decision::Done,
        }
    }

    /// Steps the book by a sweep of an access server at this moment, told `delay` seconds late, as
    /// `apply` does.
    pub fn sweep(&mut self, moment: u64, nas: &Nas, delay: u64)
        ensures step { (self.new.book, Done) ≡ step self.old.rules self.old.book
            (record { moment = moment; act = Sweep nas.now delay }) }
        ensures rules { self.new.rules ≡ self.old.rules }
        ensures limit_before { IsWithinLimit self.old }
        ensures limit { IsWithinLimit self.new }
    {
        self.open_invariant();
        self.come_to(moment);
        self.sweep_at(nas, delay);
        self.open_invariant();
    }

    /// Steps the book by a tick at this moment, as `apply` does.
    pub fn tick(&mut self, moment: u64)
        ensures step { (self.new.book, Done) ≡
            step self.old.rules self.old.book (record { moment = moment; act = Tick }) }
        ensures rules { self.new.rules ≡ self.old.rules }
        ensures limit_before { IsWithinLimit self.old }
        ensures limit { IsWithinLimit self.new }
    {
        self.open_invariant();
        self.come_to(moment);
        self.open_invariant();
    }

    /// The places that are held.
    pub fn held(&self) -> u64
        ensures places { result ≡ places_in self.now.rules self.now.book }
        ensures limit { result ≤ self.now.rules.places }
    {
        self.links.places
    }

    /// The number of reserved links: at most 1,024, the most that an account can have.
    #[tactic(auto, unfolding(rsl_session::specs::Book::reserved_in))]
    pub fn reserved(&self) -> u64
        ensures reserved { result ≡ reserved_in self.now.book }
        ensures few { result ≤ 1024 }
    {
        self.links.reserved() as u64
    }

    /// The number of live links at the book's clock: at most 1,024, the most that an account can
    /// have.
    #[tactic(auto, unfolding(rsl_session::specs::Book::live_in))]
    pub fn live(&self) -> u64
        ensures live { result ≡ live_in self.now.rules self.now.book }
        ensures few { result ≤ 1024 }
    {
        self.links.live(&self.rules, self.clock) as u64
    }

    /// The number of stale links at the book's clock: at most 1,024, the most that an account can
    /// have.
    #[tactic(auto, unfolding(rsl_session::specs::Book::stale_in))]
    pub fn stale(&self) -> u64
        ensures stale { result ≡ stale_in self.now.rules self.now.book }
        ensures few { result ≤ 1024 }
    {
        self.links.stale(&self.rules, self.clock) as u64
    }

    /// How much the book holds, which never grows past what `new` made room for.
    pub fn stored(&self) -> Stored
        ensures links { result.links ≡ length self.now.book.links }
        ensures kept { result.kept ≡ length self.now.book.asks }
        ensures closed { result.closed ≡ length self.now.book.stops }
        ensures few_links { result.links ≤ self.now.rules.places * self.now.rules.ports }
        ensures few_kept { result.kept ≤ 8 }
        ensures few_closed { result.closed ≤ 16 }
    {
        Stored {
            links: self.links.list.len() as u64,
            kept: self.asks.len() as u64,
            closed: self.stops.len() as u64,
        }
    }

    /// The clock: the greatest moment so far.
    pub fn now(&self) -> u64
        ensures { result ≡ self.now.book.clock }
    {
        self.clock
    }

    /// The number of alives that found no place, at most 2^64 - 1.
    pub fn over(&self) -> u64
        ensures { result ≡ self.now.book.over }
    {
        self.over
    }

    /// The rules of the account. They are within the limits of an account's rules, and the places
    /// held are within theirs.
    pub fn rules(&self) -> Rules
        ensures rules { result ≡ self.now.rules }
        ensures fit { RulesFit result }
        ensures limit { IsWithinLimit self.now }
    {
        self.rules
    }

    /// Shows the prover the invariant: the places are within the limit.
    fn open_invariant(&self)
        ensures { IsWithinLimit self.now }
    {
        let _ = &self.links;
    }

    /// Moves the clock to a moment, and ends the links that lapse then.
    fn come_to(&mut self, moment: u64)
        ensures { self.new ≡
            record self.old { book = come_to self.old.rules self.old.book moment } }
    {
        self.clock = self.clock.max(moment);
        self.links.lapse(&self.servers, &self.rules, self.clock);
    }

    /// Refuses a fresh ask.
    fn refuse(&mut self, key: Key, nas: Nas) -> Decision
        ensures step { (self.new.book, result) ≡ refuse self.old.book key nas }
        ensures rules { self.new.rules ≡ self.old.rules }
    {
        let nas = index_for(
            &mut self.servers,
            &self.links.list,
            &self.asks,
            &self.stops,
            nas,
        );
        let decision = Decision::LimitReject;
        self.asks.push(Kept {
            subject: DecidedAsk { key, decision },
            at: self.clock,
            swept: false,
            nas,
        });
        decision
    }

    /// Accepts a fresh ask. There is a place and a number for it.
    fn accept(&mut self, key: Key, nas: Nas, station: Option<Octets>) -> Decision
        requires number { self.old.book.accepts < 2 ^ 64 - 1 }
        requires place { places_in self.old.rules self.old.book + 1 ≤ self.old.rules.places }
        ensures step { (self.new.book, result) ≡
            accept_beside self.old.book.links self.old.book key nas station }
        ensures rules { self.new.rules ≡ self.old.rules }
    {
        let nas = index_for(
            &mut self.servers,
            &self.links.list,
            &self.asks,
            &self.stops,
            nas,
        );
        let number = self.accepts;
        self.accepts += 1;
        self.links.open(
            &self.servers,
            Link {
                nas,
                holder: Holder::Reserved(number),
                bundle: None,
                station,
                opened: self.clock,
                touched: self.clock,
            },
        );
        let decision = Decision::Accept(number);
        self.asks.push(Kept {
            subject: DecidedAsk { key, decision },
            at: self.clock,
            swept: false,
            nas,
        });
        decision
    }

    /// Whether a place is free once a link ends.
    fn frees_a_place(&self, at: usize) -> bool
        requires { at < length self.now.book.links }
        ensures { places_in self.now.rules self.now.book ≡
            places_of self.now.rules.ports (bundles_in (without_at at self.now.book.links))
            + (if result then 1 else 0) }
    {
        self.links.frees_a_place(&self.servers, at)
    }

    /// Ends a link.
    fn end_link(&mut self, at: usize)
        requires { at < length self.old.book.links }
        ensures { self.new ≡
            record self.old {
              book = record self.old.book {
                links = without_at at
                    self.old.book.links;
              };
            } }
    {
        self.links.end_at(&self.servers, at);
    }

    /// The link that can yield.
    fn yielding(&self) -> Option<usize>
        ensures found { IfSome result (λ at. IsFirst
            (can_yield self.now.rules self.now.book.clock self.now.book.links) self.now.book.links
            at) }
        ensures missed { IfNone result (find
            (can_yield self.now.rules self.now.book.clock self.now.book.links) self.now.book.links
            ≡ None) }
    {
        self.links.yielding(&self.servers, &self.rules, self.clock)
    }

    /// The link that can yield to a station.
    fn returning(&self, station: &Option<Octets>) -> Option<usize>
        ensures found { IfSome result (λ at. IsFirst
            (can_return station.now self.now.book.links) self.now.book.links at) }
        ensures missed { IfNone result (find
            (can_return station.now self.now.book.links) self.now.book.links ≡ None) }
    {
        self.links.returning(station)
    }

    /// Whether another link without a bundle fits once a link has ended.
    fn fits_without(&self, at: usize) -> bool
        requires { at < length self.now.book.links }
        ensures { result ≡ fits_beside self.now.rules (without_at at self.now.book.links) }
    {
        self.held() - u64::from(self.frees_a_place(at)) < self.rules().places
    }

    /// Accepts a fresh ask to which this link yields. Another link fits once it has ended.
    fn accept_in_place(
        &mut self,
        at: usize,
        key: Key,
        nas: Nas,
        station: Option<Octets>,
    ) -> Decision
        requires number { self.old.book.accepts < 2 ^ 64 - 1 }
        requires within { at < length self.old.book.links }
        requires fits { fits_beside self.old.rules (without_at at self.old.book.links) ≡ true }
        ensures step { (self.new.book, result) ≡
            accept_beside (without_at at self.old.book.links) self.old.book key nas station }
        ensures rules { self.new.rules ≡ self.old.rules }
    {
        self.end_link(at);
        self.accept(key, nas, station)
    }

    /// Answers a fresh ask to which no link of its station yields.
    fn placed_ask(&mut self, key: Key, nas: Nas, station: Option<Octets>) -> Decision
        requires { self.old.book.accepts < 2 ^ 64 - 1 }
        ensures step { (self.new.book, result) ≡
            placed_ask self.old.rules self.old.book key nas station }
        ensures rules { self.new.rules ≡ self.old.rules }
    {
        if self.held() < self.rules().places {
            return self.accept(key, nas, station);
        }
        match self.yielding() {
            Some(at) if self.fits_without(at) => self.accept_in_place(at, key, nas, station),
            _ => self.refuse(key, nas),
        }
    }

    /// Answers a fresh ask for which there is an accept number.
    fn fresh_ask(&mut self, key: Key, nas: Nas, station: Option<Octets>) -> Decision
        requires { self.old.book.accepts < 2 ^ 64 - 1 }
        ensures step { (self.new.book, result) ≡
            fresh_ask self.old.rules self.old.book key nas station }
        ensures rules { self.new.rules ≡ self.old.rules }
    {
        match self.returning(&station) {
            Some(at) if self.fits_without(at) => self.accept_in_place(at, key, nas, station),
            _ => self.placed_ask(key, nas, station),
        }
    }

    /// The decision of the latest kept ask that an ask of this key repeats.
    fn repeated(&self, key: &Key) -> Option<Decision>
        ensures { result ≡ option_map (λ (ask : KeptAsk). ask.decision) (find
            (repeats self.now.rules key.now self.now.book.clock) self.now.book.asks) }
    {
        self.asks
            .repeated(&self.servers, &self.rules, key, self.clock)
    }

    /// The number of accepted asks.
    fn accepts(&self) -> u64
        ensures { result ≡ self.now.book.accepts }
    {
        self.accepts
    }

    /// Answers a fresh ask.
    fn answer(&mut self, key: Key, nas: Nas, station: Option<Octets>) -> Decision
        ensures step { (self.new.book, result) ≡
            ask self.old.rules self.old.book key nas station None }
        ensures rules { self.new.rules ≡ self.old.rules }
    {
        if self.accepts() < u64::MAX {
            self.fresh_ask(key, nas, station)
        } else {
            self.refuse(key, nas)
        }
    }

    /// Answers an ask.
    fn ask(&mut self, key: Key, nas: Nas, station: Option<Octets>) -> Decision
        ensures step { (self.new.book, result) ≡
            ask self.old.rules self.old.book key nas station (find
            (repeats self.old.rules key self.old.book.clock) self.old.book.asks) }
        ensures rules { self.new.rules ≡ self.old.rules }
    {
        match self.repeated(&key) {
            Some(decision) => decision,
            None => self.answer(key, nas, station),
        }
    }

    /// The link bound to the session of this id at an access server.
    fn bound_to(&self, nas: &Nas, id: &Octets) -> Option<usize>
        ensures found { IfSome result (λ at. IsFirst (is_link_of
            (record { nas = nas.now; id = id.now })) self.now.book.links at) }
        ensures missed { IfNone result (find (is_link_of
            (record { nas = nas.now; id = id.now })) self.now.book.links ≡ None) }
    {
        self.links.bound_to(&self.servers, nas, id)
    }

    /// The reservation that an alive at an access server takes.
    fn reservation(&self, nas: &Nas, class: Option<u64>) -> Option<usize>
        ensures found { IfSome result (λ at. IsFirst
            (can_be_taken nas.now class) self.now.book.links at) }
        ensures missed { IfNone result (find (can_be_taken nas.now class) self.now.book.links ≡
            None) }
    {
        self.links.reservation(&self.servers, nas, class)
    }

    /// Whether the session of this id at an access server is closed.
    fn is_closed(&self, nas: &Nas, id: &Octets) -> bool
        ensures { result ≡ list_any (closes self.now.rules
            (record { nas = nas.now; id = id.now }) self.now.book.clock) self.now.book.stops }
    {
        self.stops
            .closes(&self.servers, &self.rules, self.clock, nas, id)
    }

    /// Touches a link.
    fn touch_link(&mut self, at: usize, bundle: Option<Octets>, station: Option<Octets>)
        requires { at < length self.old.book.links }
        ensures { self.new ≡ record self.old {
          book = record self.old.book {
            links = change_at at
                (touch_here self.old.book.clock bundle station) self.old.book.links;
          };
        } }
    {
        self.links
            .touch_at(&self.servers, at, self.clock, bundle, station);
    }

    /// Binds a reserved link to the session of this id.
    fn take_link(&mut self, at: usize, id: Octets, bundle: Option<Octets>, station: Option<Octets>)
        requires { at < length self.old.book.links }
        ensures { self.new ≡ record self.old {
          book = record self.old.book {
            links = change_at at
                (take_here self.old.book.clock id bundle station) self.old.book.links;
          };
        } }
    {
        self.links
            .take_at(&self.servers, at, self.clock, id, bundle, station);
    }

    /// Opens a link with these clocks of its opening and its last touch, if the places are then
    /// within the limit, and says whether they are. If not, nothing has changed.
    fn open_touched(
        &mut self,
        nas: Nas,
        holder: Holder,
        bundle: Option<Octets>,
        station: Option<Octets>,
        opened: u64,
        touched: u64,
    ) -> bool
        ensures put { IsTrue result → self.new ≡ record self.old {
          book = record self.old.book {
            links = self.old.book.links ++ record {
              nas = nas;
              holder = holder_at nas holder;
              bundle = bundle_with nas bundle;
              station = station;
              opened = opened;
              touched = touched;
            } ∷ [];
          };
        } }
        ensures fits { IsTrue result →
            places_of self.old.rules.ports
            (bundles_in self.old.book.links ++ bundle_with nas bundle ∷ []) ≤ self.old.rules.places }
        ensures full { IsFalse result → self.old.rules.places <
            places_of self.old.rules.ports
            (bundles_in self.old.book.links ++ bundle_with nas bundle ∷ []) }
        ensures same { IsFalse result → self.new ≡ self.old }
    {
        let nas = index_for(
            &mut self.servers,
            &self.links.list,
            &self.asks,
            &self.stops,
            nas,
        );
        let more = u64::from(self.links.adds_a_place(&self.servers, nas, &bundle));
        if self.links.places + more <= self.rules.places {
            self.links.open(
                &self.servers,
                Link {
                    nas,
                    holder,
                    bundle,
                    station,
                    opened,
                    touched,
                },
            );
            true
        } else {
            drop((holder, bundle, station));
            false
        }
    }

    /// Opens a link for a session, if the places are then within the limit.
    fn open_link(&mut self, nas: Nas, id: Octets, bundle: Option<Octets>, station: Option<Octets>)
        ensures { self.new ≡ record self.old {
          book = open_link self.old.rules self.old.book
              (record { nas = nas; id = id }) (bundle_with nas bundle) station;
        } }
    {
        let now = self.clock;
        if !self.open_touched(nas, Holder::Bound(id), bundle, station, now, now) {
            self.over = self.over.saturating_add(1);
        }
    }

    /// Steps the book by an alive of a session that is bound to no link, and is not closed.
    fn bind(
        &mut self,
        nas: Nas,
        id: Octets,
        bundle: Option<Octets>,
        class: Option<u64>,
        station: Option<Octets>,
    )
        ensures { self.new ≡ record self.old {
          book = bind self.old.rules self.old.book
              (record { nas = nas; id = id }) (bundle_with nas bundle) class station (find
              (can_be_taken nas class) self.old.book.links);
        } }
    {
        match self.reservation(&nas, class) {
            Some(at) => self.take_link(at, id, bundle, station),
            None => self.open_link(nas, id, bundle, station),
        }
    }

    /// Steps the book by an alive.
    fn alive(
        &mut self,
        nas: Nas,
        id: Octets,
        bundle: Option<Octets>,
        class: Option<u64>,
        station: Option<Octets>,
    )
        ensures { self.new ≡ record self.old {
          book = alive self.old.rules self.old.book
              (record { nas = nas; id = id }) (bundle_with nas bundle) class station (find
              (is_link_of (record { nas = nas; id = id })) self.old.book.links);
        } }
    {
        match self.bound_to(&nas, &id) {
            Some(at) => self.touch_link(at, bundle, station),
            None => {
                if !self.is_closed(&nas, &id) {
                    self.bind(nas, id, bundle, class, station);
                }
            }
        }
    }

    /// Steps the book by a stop.
    fn stop(&mut self, nas: Nas, id: Octets)
        ensures { self.new ≡ record self.old {
          book = stop self.old.book
              (record { nas = nas; id = id });
        } }
    {
        self.links.stop(&self.servers, &nas, &id);
        let nas = index_for(
            &mut self.servers,
            &self.links.list,
            &self.asks,
            &self.stops,
            nas,
        );
        self.stops.push(Kept {
            subject: EndedSession { id },
            at: self.clock,
            swept: false,
            nas,
        });
    }

    /// Steps the book by a sweep of an access server, told `delay` seconds late.
    fn sweep_at(&mut self, nas: &Nas, delay: u64)
        ensures { self.new ≡ record self.old { book = sweep self.old.book nas.now delay } }
    {
        let now = self.clock;
        self.links.sweep(&self.servers, nas, delay, now);
        self.asks.sweep(&self.servers, nas, delay, now);
        self.stops.sweep(&self.servers, nas, delay, now);
    }
}
