//! Moves.

ghost use Rattle.std.specs.Prelude.{◌≡◌, ◌++◌, ◌<◌, ◌^◌, ◌↔◌, List, ◌∷◌, IsTrue, IfOk, IfSome, OnOk, IsErrOf, Ok, All, length};
ghost use Rattle.rld_spelling.specs.Field.{optional, option_spelled, short};
ghost use Rattle.rld_spelling.specs.Lists.{all_of, values_at};
ghost use Rattle.std.specs.List.{flat_map};
ghost use Rattle.rld_spelling.specs.Numbers.{number, number_octets, below_at};
ghost use Rattle.rld_spelling.specs.Read.{Gives, Reads, ReadsIn, ReadsInto};
ghost use Rattle.rld_spelling.specs.declared.fault.Cause.TheVariants.{NoAccount};
ghost use Rattle.rld_spelling.specs.Servers.{NameFits, nas_octets};
ghost use Rattle.rsl_shard.specs.declared.moved.Move.{Move as OneMove};
ghost use Rattle.rld_spelling.specs.Moves.{MoveFits, OwnFits, own_octets, note_octets, sweep_octets, move_octets, move_field, moves_field};
ghost use Rattle.rld_spelling.specs.Moves.{ask_at, alive_at, stop_at, sweep_at, tick_at, stray_at, move_at};
ghost use Rattle.rld_spelling.specs.Moves.{stationed_ask_at, stationed_alive_at, late_sweep_at};

use crate::fault::SpellFault;
use crate::request::{key_has_spelling, push_key, read_key};
use crate::server::{
    id_fits, nas_fits, option_fits, push_nas, push_option, read_id, read_nas, read_option,
};
use crate::{Cause, Fault, ReadFault, Reader, push_flag, push_number, push_short};
use rsl_event::{Act, Event, Key, Nas, Note};
use rsl_shard::Move;
use rsl_wire::Octets;
use std::alloc::{AllocError, Global};

/// The tags of moves.
const ASK: u8 = 1;

const ALIVE: u8 = 2;

const STOP: u8 = 3;

const SWEEP: u8 = 4;

const TICK: u8 = 5;

const STRAY: u8 = 6;

const STATIONED_ASK: u8 = 7;

const STATIONED_ALIVE: u8 = 8;

const LATE_SWEEP: u8 = 9;

/// The numbers of accounts and clients. An account and a client are named by numbers below these,
/// in the order of the configuration. The spelling of moves depends on nothing else.
#[derive(Clone, Copy)]
pub struct Counts {
    /// The accounts.
    pub accounts: u32,
    /// The clients.
    pub clients: u32,
}

/// Spells an optional number.
fn push_option_number(out: &mut Vec<u8>, class: Option<u64>) -> Result<(), AllocError>
    ensures { OnOk result (out.new.items ≡ out.old.items ++ option_spelled number class) }
{
    match class {
        None => push_flag(out, false),
        Some(class) => {
            push_flag(out, true)?;
            push_number(out, class)
        }
    }
}

/// Reads an optional number.
fn read_option_number(reader: &mut Reader) -> Result<Option<u64>, Fault>
    ensures { Reads result reader.new ((optional number).read reader.old) }
{
    if reader.flag()? {
        Ok(Some(reader.number()?))
    } else {
        Ok(None)
    }
}

/// Spells the front of an own move: its tag, its moment and its account.
fn push_front(out: &mut Vec<u8>, tag: u8, moment: u64, account: u32) -> Result<(), AllocError>
    ensures { OnOk result (out.new.items ≡
        out.old.items ++ (tag ∷ (number_octets moment ++ number_octets account))) }
{
    out.push(tag)?;
    push_number(out, moment)?;
    push_number(out, u64::from(account))
}

/// Spells an ask.
fn push_ask(
    out: &mut Vec<u8>,
    account: u32,
    moment: u64,
    key: &Key,
    nas: &Nas,
    station: &Option<Octets>,
) -> Result<(), AllocError>
    requires nas { NameFits nas.now.name }
    requires station { IfSome station.now short.Fits }
    ensures { OnOk result (out.new.items ≡
        out.old.items ++ own_octets account moment (Act.Ask key.now nas.now station.now)) }
{
    match station {
        None => {
            push_front(out, ASK, moment, account)?;
            push_key(out, key)?;
            push_nas(out, nas)
        }
        Some(station) => {
            push_front(out, STATIONED_ASK, moment, account)?;
            push_key(out, key)?;
            push_nas(out, nas)?;
            push_short(out, station.as_slice())
        }
    }
}

/// Spells what an alive says of its session, apart from the station.
fn push_session(
    out: &mut Vec<u8>,
    nas: &Nas,
    session: &Octets,
    bundle: &Option<Octets>,
    class: Option<u64>,
) -> Result<(), AllocError>
    requires nas { NameFits nas.now.name }
    requires session { short.Fits session.now }
    requires bundle { IfSome bundle.now short.Fits }
    ensures { OnOk result (out.new.items ≡ out.old.items ++ (nas_octets nas.now
        ++ (short.spell session.now
        ++ (option_spelled short bundle.now ++ option_spelled number class)))) }
{
    push_nas(out, nas)?;
    push_short(out, session.as_slice())?;
    push_option(out, bundle)?;
    push_option_number(out, class)
}

/// Spells an alive.
fn push_alive(
    out: &mut Vec<u8>,
    account: u32,
    moment: u64,
    nas: &Nas,
    session: &Octets,
    bundle: &Option<Octets>,
    class: Option<u64>,
    station: &Option<Octets>,
) -> Result<(), AllocError>
    requires nas { NameFits nas.now.name }
    requires session { short.Fits session.now }
    requires bundle { IfSome bundle.now short.Fits }
    requires station { IfSome station.now short.Fits }
    ensures { OnOk result (out.new.items ≡ out.old.items ++ own_octets account moment
        (Act.Alive nas.now session.now bundle.now class station.now)) }
{
    match station {
        None => {
            push_front(out, ALIVE, moment, account)?;
            push_session(out, nas, session, bundle, class)
        }
        Some(station) => {
            push_front(out, STATIONED_ALIVE, moment, account)?;
            push_session(out, nas, session, bundle, class)?;
            push_short(out, station.as_slice())
        }
    }
}

/// Spells a sweep. One with no delay has the tag of format 1.
fn push_sweep(out: &mut Vec<u8>, moment: u64, nas: &Nas, delay: u64) -> Result<(), AllocError>
    requires { NameFits nas.now.name }
    ensures { OnOk result (out.new.items ≡ out.old.items ++ sweep_octets moment nas.now delay) }
{
    if delay == 0 {
        out.push(SWEEP)?;
        push_number(out, moment)?;
        push_nas(out, nas)
    } else {
        out.push(LATE_SWEEP)?;
        push_number(out, moment)?;
        push_nas(out, nas)?;
        push_number(out, delay)
    }
}

/// Spells the note of a stray packet.
fn push_note(out: &mut Vec<u8>, note: &Note) -> Result<(), AllocError>
    requires nas { NameFits note.now.nas.name }
    requires name { short.Fits note.now.name }
    requires session { short.Fits note.now.session }
    ensures { OnOk result (out.new.items ≡ out.old.items ++ note_octets note.now) }
{
    push_nas(out, &note.nas)?;
    push_number(out, u64::from(note.status))?;
    push_short(out, note.name.as_slice())?;
    push_short(out, note.session.as_slice())
}

/// Shows the prover that every optional number has a spelling.
fn option_has_spelling(number: Option<u64>)
    ensures { IfSome number (λ n. n < 2 ^ 64) }
{
    if let Some(number) = number {
        let _number = number;
    }
}

/// Whether the ids of an alive have a spelling.
fn ids_fit(session: &Octets, bundle: &Option<Octets>) -> bool
    ensures { IsTrue result ↔ (short.Fits session.now × IfSome bundle.now short.Fits) }
{
    id_fits(session) && option_fits(bundle)
}

impl Counts {
    // ---- which moves have a spelling

    /// Whether an own move has a spelling.
    fn own_fits(self, account: u32, moment: u64, act: &Act) -> bool
        ensures { IsTrue result ↔ OwnFits self account moment act.now }
    {
        let there = account < self.accounts;
        match act {
            Act::Ask { key, nas, station } => {
                key_has_spelling(*key);
                there && nas_fits(nas, self.clients) && option_fits(station)
            }
            Act::Alive {
                nas,
                session,
                bundle,
                class,
                station,
            } => {
                option_has_spelling(*class);
                there
                    && nas_fits(nas, self.clients)
                    && ids_fit(session, bundle)
                    && option_fits(station)
            }
            Act::Stop { nas, session } => there && nas_fits(nas, self.clients) && id_fits(session),
            Act::Sweep { .. } | Act::Tick => false,
        }
    }

    /// Whether a move has a spelling: its account and its client are there, its names and ids have
    /// at most 253 octets, and an own move is an ask, an alive or a stop.
    pub fn fits(self, moved: &Move) -> bool
        ensures { IsTrue result ↔ MoveFits self moved.now }
    {
        match moved {
            Move::Own { account, event } => self.own_fits(*account, event.moment, &event.act),
            Move::Sweep { moment, nas, delay } => {
                let _moment = *moment;
                let _delay = *delay;
                nas_fits(nas, self.clients)
            }
            Move::Tick { moment } => {
                let _moment = *moment;
                true
            }
            Move::Stray { moment, note } => {
                let _moment = *moment;
                let _status = note.status;
                nas_fits(&note.nas, self.clients) && id_fits(&note.name) && id_fits(&note.session)
            }
        }
    }

    // ---- how moves are spelled

    /// Spells an own move.
    fn push_own(
        self,
        out: &mut Vec<u8>,
        account: u32,
        moment: u64,
        act: &Act,
    ) -> Result<(), AllocError>
        requires { OwnFits self account moment act.now }
        ensures { OnOk result (out.new.items ≡ out.old.items ++ own_octets account moment act.now) }
    {
        match act {
            Act::Ask { key, nas, station } => push_ask(out, account, moment, key, nas, station),
            Act::Alive {
                nas,
                session,
                bundle,
                class,
                station,
            } => push_alive(out, account, moment, nas, session, bundle, *class, station),
            Act::Stop { nas, session } => {
                push_front(out, STOP, moment, account)?;
                push_nas(out, nas)?;
                push_short(out, session.as_slice())
            }
            Act::Sweep { .. } | Act::Tick => unreachable!(),
        }
    }

    /// Spells a move that has a spelling.
    #[tactic(auto, unfolding(crate::specs::Moves::move_octets))]
    fn push_fitting(self, out: &mut Vec<u8>, moved: &Move) -> Result<(), AllocError>
        requires { MoveFits self moved.now }
        ensures { OnOk result (out.new.items ≡ out.old.items ++ move_octets moved.now) }
    {
        match moved {
            Move::Own { account, event } => self.push_own(out, *account, event.moment, &event.act),
            Move::Sweep { moment, nas, delay } => push_sweep(out, *moment, nas, *delay),
            Move::Tick { moment } => {
                out.push(TICK)?;
                push_number(out, *moment)
            }
            Move::Stray { moment, note } => {
                out.push(STRAY)?;
                push_number(out, *moment)?;
                push_note(out, note)
            }
        }
    }

    /// Appends the spelling of a move. `Unfit` comes exactly if the move has no spelling; then
    /// nothing is written. If memory is refused, a part of it may have been appended.
    pub fn push_move(self, out: &mut Vec<u8>, moved: &Move) -> Result<(), SpellFault>
        ensures spelled { OnOk result (out.new.items ≡ out.old.items ++ move_octets moved.now) }
        ensures fits { OnOk result (MoveFits self moved.now) }
        ensures unfit { IsErrOf result SpellFault.Unfit ↔ (MoveFits self moved.now → ⊥) }
        ensures unwritten { IsErrOf result SpellFault.Unfit → out.new.items ≡ out.old.items }
    {
        if !self.fits(moved) {
            return Err(SpellFault::Unfit);
        }
        self.push_fitting(out, moved)?;
        Ok(())
    }

    // ---- how moves are read

    /// Reads the number of an account.
    fn read_account(self, reader: &mut Reader) -> Result<u32, Fault>
        ensures { Reads result reader.new (below_at NoAccount self.accounts reader.old) }
    {
        Ok(reader.below(Cause::NoAccount, u64::from(self.accounts))? as u32)
    }

    /// Reads an ask without a station after its tag.
    #[tactic(auto, unfolding(crate::specs::Moves::ask_at))]
    fn read_ask(self, alloc: Global, reader: &mut Reader) -> Result<Move, ReadFault>
        ensures { ReadsIn result reader.new (ask_at self reader.old) }
    {
        let moment = reader.number()?;
        let account = self.read_account(reader)?;
        let key = read_key(reader)?;
        let nas = read_nas(alloc, reader, self.clients)?;
        let act = Act::Ask {
            key,
            nas,
            station: None,
        };
        Ok(Move::Own {
            account,
            event: Event { moment, act },
        })
    }

    /// Reads an ask of a station after its tag.
    #[tactic(auto, unfolding(crate::specs::Moves::stationed_ask_at))]
    fn read_stationed_ask(self, alloc: Global, reader: &mut Reader) -> Result<Move, ReadFault>
        ensures { ReadsIn result reader.new (stationed_ask_at self reader.old) }
    {
        let moment = reader.number()?;
        let account = self.read_account(reader)?;
        let key = read_key(reader)?;
        let nas = read_nas(alloc, reader, self.clients)?;
        let station = read_id(alloc, reader)?;
        let act = Act::Ask {
            key,
            nas,
            station: Some(station),
        };
        Ok(Move::Own {
            account,
            event: Event { moment, act },
        })
    }

    /// Reads an alive without a station after its tag.
    #[tactic(auto, unfolding(crate::specs::Moves::alive_at))]
    fn read_alive(self, alloc: Global, reader: &mut Reader) -> Result<Move, ReadFault>
        ensures { ReadsIn result reader.new (alive_at self reader.old) }
    {
        let moment = reader.number()?;
        let account = self.read_account(reader)?;
        let nas = read_nas(alloc, reader, self.clients)?;
        let session = read_id(alloc, reader)?;
        let bundle = read_option(alloc, reader)?;
        let class = read_option_number(reader)?;
        let act = Act::Alive {
            nas,
            session,
            bundle,
            class,
            station: None,
        };
        Ok(Move::Own {
            account,
            event: Event { moment, act },
        })
    }

    /// Reads an alive of a station after its tag.
    #[tactic(auto, unfolding(crate::specs::Moves::stationed_alive_at))]
    fn read_stationed_alive(self, alloc: Global, reader: &mut Reader) -> Result<Move, ReadFault>
        ensures { ReadsIn result reader.new (stationed_alive_at self reader.old) }
    {
        let moment = reader.number()?;
        let account = self.read_account(reader)?;
        let nas = read_nas(alloc, reader, self.clients)?;
        let session = read_id(alloc, reader)?;
        let bundle = read_option(alloc, reader)?;
        let class = read_option_number(reader)?;
        let station = read_id(alloc, reader)?;
        let act = Act::Alive {
            nas,
            session,
            bundle,
            class,
            station: Some(station),
        };
        Ok(Move::Own {
            account,
            event: Event { moment, act },
        })
    }

    /// Reads a stop after its tag.
    #[tactic(auto, unfolding(crate::specs::Moves::stop_at))]
    fn read_stop(self, alloc: Global, reader: &mut Reader) -> Result<Move, ReadFault>
        ensures { ReadsIn result reader.new (stop_at self reader.old) }
    {
        let moment = reader.number()?;
        let account = self.read_account(reader)?;
        let nas = read_nas(alloc, reader, self.clients)?;
        let session = read_id(alloc, reader)?;
        let act = Act::Stop { nas, session };
        Ok(Move::Own {
            account,
            event: Event { moment, act },
        })
    }

    /// Reads a sweep that was told with no delay after its tag.
    #[tactic(auto, unfolding(crate::specs::Moves::sweep_at))]
    fn read_sweep(self, alloc: Global, reader: &mut Reader) -> Result<Move, ReadFault>
        ensures { ReadsIn result reader.new (sweep_at self reader.old) }
    {
        let moment = reader.number()?;
        let nas = read_nas(alloc, reader, self.clients)?;
        Ok(Move::Sweep {
            moment,
            nas,
            delay: 0,
        })
    }

    /// Reads a sweep that was told late after its tag. `OutOfRange` comes if its delay is 0.
    #[tactic(auto, unfolding(crate::specs::Moves::late_sweep_at))]
    fn read_late_sweep(self, alloc: Global, reader: &mut Reader) -> Result<Move, ReadFault>
        ensures { ReadsIn result reader.new (late_sweep_at self reader.old) }
    {
        let moment = reader.number()?;
        let nas = read_nas(alloc, reader, self.clients)?;
        let delay = reader.between(Cause::OutOfRange, 1, u64::MAX)?;
        Ok(Move::Sweep { moment, nas, delay })
    }

    /// Reads a stray packet after its tag.
    #[tactic(auto, unfolding(crate::specs::Moves::stray_at))]
    fn read_stray(self, alloc: Global, reader: &mut Reader) -> Result<Move, ReadFault>
        ensures { ReadsIn result reader.new (stray_at self reader.old) }
    {
        let moment = reader.number()?;
        let nas = read_nas(alloc, reader, self.clients)?;
        let status = reader.below(Cause::OutOfRange, 1 << 32)? as u32;
        let name = read_id(alloc, reader)?;
        let session = read_id(alloc, reader)?;
        let note = Note {
            nas,
            status,
            name,
            session,
        };
        Ok(Move::Stray { moment, note })
    }

    /// Reads a tick after its tag.
    #[tactic(auto, unfolding(crate::specs::Moves::tick_at))]
    fn read_tick(reader: &mut Reader) -> Result<Move, ReadFault>
        ensures { ReadsIn result reader.new (tick_at reader.old) }
    {
        let moment = reader.number()?;
        Ok(Move::Tick { moment })
    }

    /// Reads a move.
    #[tactic(auto, unfolding(crate::specs::Moves::move_at))]
    fn read_move(self, alloc: Global, reader: &mut Reader) -> Result<Move, ReadFault>
        ensures { ReadsIn result reader.new (move_at self reader.old) }
    {
        let unknown = reader.fault(Cause::UnknownTag);
        match reader.octet()? {
            ASK => self.read_ask(alloc, reader),
            ALIVE => self.read_alive(alloc, reader),
            STOP => self.read_stop(alloc, reader),
            SWEEP => self.read_sweep(alloc, reader),
            TICK => Counts::read_tick(reader),
            STRAY => self.read_stray(alloc, reader),
            STATIONED_ASK => self.read_stationed_ask(alloc, reader),
            STATIONED_ALIVE => self.read_stationed_alive(alloc, reader),
            LATE_SWEEP => self.read_late_sweep(alloc, reader),
            _ => Err(ReadFault::Malformed(unknown)),
        }
    }

    /// Reads `count` moves.
    #[tactic(auto, using(crate::proofs::Callers::front_steps))]
    fn read_count(
        self,
        alloc: Global,
        reader: &mut Reader,
        count: u64,
    ) -> Result<Vec<Move>, ReadFault>
        ensures { ReadsInto (λ moves. moves.items) result reader.new
            (values_at (move_at self) count reader.old) }
    {
        let mut moves = Vec::new(alloc);
        for _ in 0..count {
            let moved = self.read_move(alloc, reader)?;
            moves.push(moved)?;
        }
        Ok(moves)
    }

    /// Reads the moves of a batch from all of the octets.
    fn read_all(self, alloc: Global, octets: &[u8]) -> Result<Vec<Move>, ReadFault>
        ensures { Gives (λ moves. moves.items) result (all_of ((moves_field self).read octets.now)) }
    {
        let mut reader = Reader::new(octets);
        let count = reader.number()?;
        let moves = self.read_count(alloc, &mut reader, count)?;
        if reader.left() == 0 {
            Ok(moves)
        } else {
            Err(ReadFault::Malformed(reader.fault(Cause::Trailing)))
        }
    }

    /// The moves of a batch, as `push_moves` spells them, from all of the octets. It fails if
    /// memory is refused, and else with the first fault.
    pub fn read_moves(self, alloc: Global, octets: &[u8]) -> Result<Vec<Move>, ReadFault>
        // What is read is spelled so.
        ensures found { IfOk result (λ moves.
            (octets.now ≡ (moves_field self).spell moves.items) × (moves_field self).Fits moves.items) }
        // What is spelled so is read.
        ensures only { (moves : List OneMove) → (moves_field self).Fits moves →
            octets.now ≡ (moves_field self).spell moves → Gives (λ moves. moves.items) result (Ok moves) }
        // The fault is the first.
        ensures exact { Gives (λ moves. moves.items) result
            (all_of ((moves_field self).read octets.now)) }
    {
        self.read_all(alloc, octets)
    }

    // ---- the moves of a batch

    /// Whether each of some moves has a spelling.
    pub fn all_fit(self, moves: &[Move]) -> bool
        ensures { IsTrue result ↔ All (MoveFits self) moves.now }
    {
        for moved in moves {
            if !self.fits(moved) {
                return false;
            }
        }
        true
    }

    /// Spells moves that have a spelling, after their number.
    fn push_each(self, out: &mut Vec<u8>, moves: &[Move]) -> Result<(), AllocError>
        requires { All (MoveFits self) moves.now }
        ensures { OnOk result (out.new.items ≡ out.old.items ++ (moves_field self).spell moves.now) }
    {
        push_number(out, moves.len() as u64)?;
        for moved in moves {
            self.push_fitting(out, moved)?;
        }
        Ok(())
    }

    /// Appends the spelling of the moves of a batch. `Unfit` comes exactly if one of them has no
    /// spelling; then nothing is written. If memory is refused, a part of it may have been
    /// appended.
    pub fn push_moves(self, out: &mut Vec<u8>, moves: &[Move]) -> Result<(), SpellFault>
        ensures spelled { OnOk result (out.new.items ≡
            out.old.items ++ (moves_field self).spell moves.now) }
        ensures fits { OnOk result ((moves_field self).Fits moves.now) }
        ensures unfit { IsErrOf result SpellFault.Unfit ↔ (All (MoveFits self) moves.now → ⊥) }
        ensures unwritten { IsErrOf result SpellFault.Unfit → out.new.items ≡ out.old.items }
    {
        let _len = moves.len();
        if !self.all_fit(moves) {
            return Err(SpellFault::Unfit);
        }
        self.push_each(out, moves)?;
        Ok(())
    }
}
