//! Where asks are taken.

ghost use Rattle.std.specs.Prelude.{◌≡◌, ◌⊎◌, [], true, IfErr, IfOk};
ghost use Rattle.std.specs.Arc.{arc_value};
ghost use Rattle.rld_current.specs.Asking.{AreAnswersTo};
ghost use Rattle.rld_current.specs.Noting.{noted_if};
ghost use Rattle.rld_current.specs.Turning.{IsFaultOfTurn};
ghost use Rattle.rsl_event.specs.declared.meaning.Port.TheVariants.{Auth};

use crate::answers::answers_or_none;
use crate::ask_port::AskPort;
use crate::ask_watch::AskWatch;
use crate::current::Current;
use crate::shared::Shared;
use rld_ask::{Answer, AskForm, Refused};
use rld_edges::RunFault;
use rld_log::Log;
use rld_look::Watcher;
use rld_turn::Receiver;
use rsl_event::Port;
use rsl_port::{Clock, SystemClock};
use rsl_wire::NoMemory;
use std::alloc::Global;
use std::sync::Wait;
use std::time;

/// What takes asks, from turn to turn.
#[derive(Drop)]
pub struct AskPlace<'s, R: Wait + time::Clock> {
    client: [u8; 4],
    receiver: Receiver,
    clock: SystemClock<'s, R>,
    watch: AskWatch<'s, R>,
    ghost port: { receiver.port ≡ Auth },
}

impl<'s, R: Wait + time::Clock> AskPlace<'s, R> {
    /// A place for asks that come from the client with this address, with a clock, and with what counts them. It fails
    /// only where memory is refused.
    pub fn new(
        alloc: Global,
        client: [u8; 4],
        clock: SystemClock<'s, R>,
        watcher: Watcher<'s, R>,
    ) -> Result<AskPlace<'s, R>, NoMemory>
        ensures { IfOk result (λ place. place.client ≡ client) }
    {
        Ok(AskPlace {
            client,
            receiver: Receiver::new(alloc, Port::Auth)?,
            clock,
            watch: AskWatch::new(alloc, watcher)?,
        })
    }

    /// The moment that its clock shows, in seconds since 1970.
    pub fn moment(&mut self) -> u64
        ensures { self.new.client ≡ self.old.client }
    {
        self.clock.now()
    }

    /// Counts requests over HTTP that were refused unread.
    pub fn count_refused(&self, refused: Refused) {
        self.watch.count_refused(refused);
    }

    /// Takes a turn with these asks, with what is present, and gives an answer to each; those at the end have none
    /// where memory is refused. `Unsynced` comes where nothing more can be recorded.
    pub fn take_turn<L: Log + Drop>(
        &mut self,
        shared: &Shared<'_, L, R>,
        current: &Current,
        asks: &[AskForm],
    ) -> Result<Vec<Answer>, RunFault>
        ensures client { self.new.client ≡ self.old.client }
        ensures fault { IfErr result IsFaultOfTurn }
        ensures answered { IfOk result (λ answers. (answers.items ≡ [])
            ⊎ AreAnswersTo (arc_value current.now.config) shared.now.networks.now
            current.now.boot current.now.table self.old.client
            (noted_if self.new.watch.is_whole self.new.watch.noted.items) asks.now answers.items) }
    {
        self.watch.forget();
        self.turn_with(shared, current, asks)
    }

    /// Takes such a turn, of which the watch keeps nothing yet.
    fn turn_with<L: Log + Drop>(
        &mut self,
        shared: &Shared<'_, L, R>,
        current: &Current,
        asks: &[AskForm],
    ) -> Result<Vec<Answer>, RunFault>
        requires none { self.old.watch.noted.items ≡ [] }
        requires whole { self.old.watch.is_whole ≡ true }
        ensures client { self.new.client ≡ self.old.client }
        ensures fault { IfErr result IsFaultOfTurn }
        ensures answered { IfOk result (λ answers. (answers.items ≡ [])
            ⊎ AreAnswersTo (arc_value current.now.config) shared.now.networks.now
            current.now.boot current.now.table self.old.client
            (noted_if self.new.watch.is_whole self.new.watch.noted.items) asks.now answers.items) }
    {
        let alloc = shared.alloc;
        let Ok(mut port) = AskPort::new(alloc, &*current.config, self.client, asks) else {
            return Ok(Vec::new(alloc));
        };
        let turn = shared.turn(
            current,
            &mut self.receiver,
            &mut self.clock,
            &mut port,
            &mut self.watch,
        );
        turn.outcome()?;
        Ok(answers_or_none(alloc, self.watch.noted(), port.into_replies()))
    }
}
