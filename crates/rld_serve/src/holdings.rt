//! What the store shows of itself, and what is shown of it.

ghost use Rattle.std.specs.Prelude.{◌≡◌, ◌<◌, ◌^◌, IfOk, IfSome, length, option_and_then, slice_get, ℕ};
ghost use Rattle.std.specs.Arc.{arc_value};
ghost use Rattle.rld_books.specs.Saved.{rows_in};
ghost use Rattle.rld_look.specs.Accounts.{AreFullest, held_in, looks_of};
ghost use Rattle.rld_look.specs.Clients.{IsClientLook};
ghost use Rattle.rld_look.specs.Totals.{totals_of};
ghost use Rattle.rld_serve.specs.Look.{rest_of};
ghost use Rattle.rld_start.specs.Counted.{sessions_in};
ghost use Rattle.rld_state.specs.Places.{places_in};
ghost use Rattle.rld_config.specs.Warning.{books_octets};
ghost use Rattle.rsl_accounts.specs.Configuration.{account_number};

use rld_config::books_octets;
use rld_counts::GateCounts;
use rld_log::Log;
use rld_look::{
    AccessServersLook, AccountsLook, ArchiveLook, Build, Look, Minute, Places, Recording, Refusal,
    SocketLook, Totals, client_looks, fullest_looks, held_in,
};
use rld_spelling::Header;
use rld_start::sessions_in;
use rld_state::{ServerState, Standing, places_in};
use rsl_accounts::Config;
use rsl_shard::Row;
use rsl_wire::NoMemory;
use std::alloc::Global;
use std::sync::Arc;

/// What the store shows of itself, and its accounts.
#[derive(Drop)]
pub(crate) struct Holdings {
    config: Arc<Config>,
    header: Header,
    moves: u64,
    rows: Vec<Row>,
}

/// What a look has besides what receivers have counted and what the store shows, but for the build.
#[derive(Drop)]
pub(crate) struct Rest {
    pub(crate) start: u64,
    pub(crate) moment: u64,
    pub(crate) recording: Recording,
    pub(crate) clock_behind: u64,
    pub(crate) archive: ArchiveLook,
    pub(crate) access_servers: AccessServersLook,
    pub(crate) minutes: Vec<Minute>,
    pub(crate) refusals: Vec<Refusal>,
    pub(crate) sockets: Vec<SocketLook>,
}

impl Holdings {
    /// What the store of this state shows. It fails only if memory is refused, or if the reference
    /// count of the accounts is at its limit.
    pub(crate) fn of<L: Log + Drop>(
        alloc: Global,
        state: &ServerState<L>,
    ) -> Result<Holdings, NoMemory>
        ensures config { IfOk result (λ holdings.
            arc_value holdings.config ≡ arc_value state.now.recorder.config) }
        ensures header { IfOk result (λ holdings. holdings.header ≡ state.now.recorder.header) }
        ensures moves { IfOk result (λ holdings. holdings.moves ≡ state.now.moves) }
        ensures rows { IfOk result (λ holdings.
            holdings.rows.items ≡ rows_in state.now.recorder.books) }
    {
        let rows = state.recorder().rows(alloc)?;
        Ok(Holdings {
            config: state.config()?,
            header: state.header(),
            moves: state.moves(),
            rows,
        })
    }

    /// The number of the accounts.
    pub(crate) fn accounts(&self) -> u32
        ensures { result ≡ length (arc_value self.now.config).accounts }
    {
        self.config.accounts()
    }

    /// The number of places that they hold, at most 2^64 - 1.
    pub(crate) fn held(&self) -> u64
        ensures { result ≡ held_in self.now.rows.items }
    {
        held_in(self.rows.as_slice())
    }

    /// Where the server stands.
    pub(crate) fn standing(&self) -> Standing
        ensures generation { result.generation ≡ self.now.header.generation }
        ensures sessions { sessions_in self.now.rows.items < 2 ^ 64 →
            result.sessions ≡ sessions_in self.now.rows.items }
    {
        Standing {
            generation: self.header.generation,
            sessions: sessions_in(self.rows.as_slice()),
        }
    }

    /// The places of the account with this name, if there is one.
    pub(crate) fn places_of(&self, name: &[u8]) -> Option<Places>
        ensures { result ≡ option_and_then (λ account. places_in account self.now.rows.items)
            (account_number (arc_value self.now.config) name.now) }
    {
        places_in(self.rows.as_slice(), self.config.account(name)?)
    }

    /// What the accounts hold, in the second `moment` since 1970. It fails only if memory is refused.
    pub(crate) fn accounts_look(&self, alloc: Global, moment: u64) -> Result<AccountsLook, NoMemory>
        ensures now { IfOk result (λ look. look.now ≡ moment) }
        ensures rows { IfOk result (λ look.
            look.accounts.items ≡ looks_of (arc_value self.now.config) self.now.rows.items) }
    {
        AccountsLook::of(alloc, moment, &*self.config, self.rows.as_slice())
    }

    /// What the server shows of itself: these, what its receivers have counted, and the rest. It
    /// fails only if memory is refused.
    pub(crate) fn look(
        self,
        alloc: Global,
        build: Build,
        counted: GateCounts,
        rest: Rest,
    ) -> Result<Look, NoMemory>
        ensures build { IfOk result (λ look. look.build ≡ build) }
        ensures rest { IfOk result (λ look. rest_of look ≡ rest) }

        // What the store shows.
        ensures generation { IfOk result (λ look. look.generation ≡ self.header.generation) }
        ensures moves { IfOk result (λ look. look.moves ≡ self.moves) }
        ensures memory { IfOk result (λ look.
            look.memory ≡ books_octets (arc_value self.config).accounts) }
        ensures totals { IfOk result (λ look.
            look.totals ≡ totals_of (looks_of (arc_value self.config) self.rows.items)) }
        ensures fullest { IfOk result (λ look.
            AreFullest (arc_value self.config) self.rows.items look.fullest.items) }

        // What the receivers have counted.
        ensures counts { IfOk result (λ look. look.counts ≡ counted.counts) }
        ensures len { IfOk result (λ look.
            length look.clients.items ≡ length (arc_value self.config).clients) }
        ensures clients { IfOk result (λ look. (k : ℕ) → IfSome (slice_get look.clients.items k)
            (IsClientLook (arc_value self.config) counted.logins counted.acct k)) }
        ensures auth_times { IfOk result (λ look. look.auth_times ≡ counted.auth_times) }
        ensures acct_times { IfOk result (λ look. look.acct_times ≡ counted.acct_times) }
        ensures ask_times { IfOk result (λ look. look.ask_times ≡ counted.ask_times) }
    {
        let Holdings {
            config,
            header,
            moves,
            rows,
        } = self;
        let config = &*config;
        let clients = client_looks(alloc, config, &counted.logins, &counted.acct)?;
        let totals = Totals::of(config, rows.as_slice());
        let fullest = fullest_looks(alloc, config, rows)?;
        Ok(Look {
            build,
            start: rest.start,
            now: rest.moment,
            generation: header.generation,
            moves,
            memory: books_octets(config),
            recording: rest.recording,
            clock_behind: rest.clock_behind,
            archive: rest.archive,
            counts: counted.counts,
            clients,
            auth_times: counted.auth_times,
            acct_times: counted.acct_times,
            ask_times: counted.ask_times,
            totals,
            fullest,
            access_servers: rest.access_servers,
            minutes: rest.minutes,
            refusals: rest.refusals,
            sockets: rest.sockets,
        })
    }
}
