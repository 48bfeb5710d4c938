ghost use Rattle.std.specs.Prelude.{◌≡◌, IfOk, OnOk, None};
ghost use Rattle.http_server.specs.Response.{IsBlank};
ghost use Rattle.rld_web.specs.Answer.{HasAnswered, IsAnswered, IsRefusedMethod, IsShown, IsTextOf, status_of};
ghost use Rattle.rld_web.specs.Fresh.{IsTakenWhere, is_fresh, shown_of, taken_at};
ghost use Rattle.rld_web.specs.Wanted.{needs_accounts, needs_look, wanted_of};

use crate::answer::{fill, refuse};
use crate::path::Path;
use crate::wanted::Wanted;
use bytes::Bytes;
use http::{HeaderValue, Request, StatusCode};
use http_header::ALLOW;
use http_server::{Response, Service};
use rld_look::{AccountsLook, Health, Look, Shown};
use rld_page::{accounts_json, page};
use rld_text::push_metrics;
use std::alloc::{AllocError, Global};
use std::net::SocketAddrV4;

/// How long a look is shown to all clients, in milliseconds.
const LOOK_MILLIS: u64 = 1_000;

const _: () = prove!(LOOK_MILLIS == 1_000);

/// Answers requests. What the server shows and what its accounts hold is looked at where a request asks for
/// that: by a look that was taken for an earlier request less than a second before, or else by a new one.
#[derive(Drop)]
pub(crate) struct PageService<'a, S: Shown> {
    alloc: Global,
    server: &'a S,
    look: Option<Look>,
    taken: u64,
    accounts: Option<AccountsLook>,
    accounts_taken: u64,
    moment: u64,
    place: SocketAddrV4,
}

impl<'a, S: Shown> PageService<'a, S> {
    /// A service at this place, without a look.
    pub(crate) fn new(alloc: Global, server: &'a S, place: SocketAddrV4) -> PageService<'a, S>
        ensures look { result.look ≡ None }
        ensures accounts { result.accounts ≡ None }
        ensures place { result.place ≡ place }
    {
        PageService {
            alloc,
            server,
            look: None,
            taken: 0,
            accounts: None,
            accounts_taken: 0,
            moment: 0,
            place,
        }
    }

    /// Answers requests to this place from now on, at this moment in milliseconds.
    pub(crate) fn turn_to(&mut self, place: SocketAddrV4, moment: u64)
        ensures { self.new ≡ record self.old { place = place; moment = moment } }
    {
        self.place = place;
        self.moment = moment;
    }

    /// A look at the server for a request, taken now; or nothing where it needs none, or where the last look
    /// is younger than a second. If memory is refused, the look that was taken is none.
    fn look_for(&self, wanted: Wanted) -> Option<Option<Look>>
        ensures { IsTakenWhere (needs_look wanted) S.shows self.now.moment self.now.look self.now.taken
            (shown_of result self.now.look) (taken_at result self.now.taken self.now.moment) }
    {
        if !wanted.needs_look() {
            return None;
        }
        if is_fresh(&self.look, self.taken, self.moment) {
            return None;
        }
        Some(self.server.take_look(self.moment).ok())
    }

    /// A look at what the accounts hold, as `look_for` takes one at the server.
    fn accounts_for(&self, wanted: Wanted) -> Option<Option<AccountsLook>>
        ensures { IsTakenWhere (needs_accounts wanted) (λ _. S.holds) self.now.moment self.now.accounts
            self.now.accounts_taken (shown_of result self.now.accounts)
            (taken_at result self.now.accounts_taken self.now.moment) }
    {
        if !wanted.needs_accounts() {
            return None;
        }
        if is_fresh(&self.accounts, self.accounts_taken, self.moment) {
            return None;
        }
        Some(self.server.take_accounts().ok())
    }

    /// Keeps the looks that were taken for a request, for those that come.
    fn keep(&mut self, look: Option<Option<Look>>, accounts: Option<Option<AccountsLook>>)
        ensures { self.new ≡ record self.old {
          look = shown_of look self.old.look;
          taken = taken_at look self.old.taken self.old.moment;
          accounts = shown_of accounts self.old.accounts;
          accounts_taken = taken_at accounts self.old.accounts_taken self.old.moment;
        } }
    {
        if let Some(look) = look {
            self.look = look;
            self.taken = self.moment;
        }
        if let Some(accounts) = accounts {
            self.accounts = accounts;
            self.accounts_taken = self.moment;
        }
    }
}

/// The look that a request is shown: what was taken for it, or else what is kept.
fn shown_of<'l, T>(taken: &'l Option<Option<T>>, kept: &'l Option<T>) -> &'l Option<T>
    ensures { result.now ≡ shown_of taken.now kept.now }
{
    match taken {
        Some(taken) => taken,
        None => kept,
    }
}

/// Whether there is a look, which was taken less than a second before this moment in milliseconds.
fn is_fresh<T>(look: &Option<T>, taken: u64, now: u64) -> bool
    ensures { result ≡ is_fresh look.now taken now }
{
    match look {
        Some(_) => now.saturating_sub(taken) < LOOK_MILLIS,
        None => false,
    }
}

impl<S: Shown> Service for PageService<'_, S> {
    ghost answers = { λ old request response new.
        HasAnswered S.fares new.look new.accounts (wanted_of old.place request) response
        × (new.place ≡ old.place) × (new.moment ≡ old.moment)
        × IsTakenWhere (needs_look (wanted_of old.place request)) S.shows old.moment old.look old.taken
        new.look new.taken
        × IsTakenWhere (needs_accounts (wanted_of old.place request)) (λ _. S.holds) old.moment old.accounts
        old.accounts_taken new.accounts new.accounts_taken };

    fn call(
        &mut self,
        request: &Request<Bytes>,
        response: &mut Response,
    ) -> Result<(), AllocError> {
        let wanted = Wanted::of(self.alloc, self.place, request)?;
        let look = self.look_for(wanted);
        let accounts = self.accounts_for(wanted);
        let health = self.server.health();
        answer(
            self.alloc,
            wanted,
            health,
            shown_of(&look, &self.look),
            shown_of(&accounts, &self.accounts),
            response,
        )?;
        self.keep(look, accounts);
        Ok(())
    }
}

/// Answers what is asked of a server that fares so, from these looks at it. It fails if memory is refused, or
/// was for the look that is needed.
fn answer(
    alloc: Global,
    wanted: Wanted,
    health: Health,
    look: &Option<Look>,
    accounts: &Option<AccountsLook>,
    response: &mut Response,
) -> Result<(), AllocError>
    requires { IsBlank response.old }
    ensures { OnOk result (IsAnswered health look.entry.now accounts.entry.now wanted response.new) }
{
    match wanted {
        Wanted::Elsewhere => {
            let text = "ask for this server by its address or as localhost\n";
            refuse(response, StatusCode::MISDIRECTED_REQUEST, text)
        }
        Wanted::Change => refuse_method(response),
        Wanted::Unknown => refuse(response, StatusCode::NOT_FOUND, "there is no such page\n"),
        Wanted::Of(path) => show(alloc, path, health, look, accounts, response),
    }
}

/// Answers a method that does more than read.
fn refuse_method(response: &mut Response) -> Result<(), AllocError>
    requires { IsBlank response.old }
    ensures { OnOk result (IsRefusedMethod response.new) }
{
    let text = "only GET and HEAD are answered\n";
    refuse(response, StatusCode::METHOD_NOT_ALLOWED, text)?;
    response.add_header(ALLOW, HeaderValue::from_static("GET, HEAD"))
}

/// Answers with the text of a path.
fn show(
    alloc: Global,
    path: Path,
    health: Health,
    look: &Option<Look>,
    accounts: &Option<AccountsLook>,
    response: &mut Response,
) -> Result<(), AllocError>
    requires { IsBlank response.old }
    ensures { OnOk result (IsShown health look.entry.now accounts.entry.now path response.new) }
{
    let text = text_of(alloc, path, health, look, accounts)?;
    let body = Bytes::from_vec(text)?;
    fill(response, status_of(health, path), path.media_type(), body)
}

/// The text of a path. It fails if memory is refused, for the text, or for the look that is needed before it.
fn text_of(
    alloc: Global,
    path: Path,
    health: Health,
    look: &Option<Look>,
    accounts: &Option<AccountsLook>,
) -> Result<Vec<u8>, AllocError>
    ensures { IfOk result (λ text. IsTextOf health look.entry.now accounts.entry.now path text.items) }
{
    match path {
        Path::Page => match look {
            Some(look) => page(alloc, look),
            None => Err(AllocError),
        },
        Path::Metrics => match look {
            Some(look) => {
                let mut text = Vec::new(alloc);
                push_metrics(alloc, &mut text, look)?;
                Ok(text)
            }
            None => Err(AllocError),
        },
        Path::Accounts => match accounts {
            Some(accounts) => accounts_json(alloc, accounts),
            None => Err(AllocError),
        },
        Path::Health => Vec::from_slice(alloc, health.text().as_bytes()),
    }
}

/// The status of a path: 200, and 503 for the health of a server that is not well.
fn status_of(health: Health, path: Path) -> StatusCode
    ensures { result ≡ status_of health path }
{
    match (path, health) {
        (Path::Health, Health::NotRecording | Health::ClockBehind) => {
            StatusCode::SERVICE_UNAVAILABLE
        }
        _ => StatusCode::OK,
    }
}
