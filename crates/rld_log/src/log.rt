use crate::fault::LogFault;
use std::alloc::Global;

/// How a life of a log ends.
#[derive(Clone, Copy)]
pub enum Ending {
    /// The process is killed: what it wrote is the system's.
    Kill,
    /// The machine stops: what was not synced may be lost or torn.
    PowerLoss,
}

/// A file to which octets are appended.
///
/// A contract sees what it holds and what a crash may leave, as long as `tells` is true. A file of
/// the system tells nothing. After a call that failed, only this is known: what a crash may leave,
/// and that the earlier octets are still there.
pub trait Log {
    ghost use Rattle.std.specs.Prelude.{◌≡◌, ℕ, Bool, false, IsTrue, List, [], ◌++◌, take, IfOk, OnErr, OnOk};
    ghost use Rattle.rld_log.specs.declared.log.Ending.{Ending as OneEnding};
    ghost use Rattle.rld_log.specs.declared.log.Ending.TheVariants.{Kill};
    ghost use Rattle.rld_log.specs.Log.{Adds, Appends, Cuts, Extends, Follows, NoMore, Only, Tears};

    /// Whether the log tells what it holds, and what a crash may leave.
    ghost tells: { Self → Bool } = { λ _. false };

    /// The octets that a read returns.
    ghost seen: { Self → List ℕ } = { λ _. [] };

    /// What a crash of each kind may leave now.
    ghost may_leave: { Self → OneEnding → List ℕ → Type 0 } = { λ _ _ _. Unit {0} };

    /// What a loss of power may leave of a write of these octets, except all of them.
    ghost tears: { List ℕ → List ℕ → Type 0 } = { λ _ _. Unit {0} };

    /// All the octets.
    fn read(&mut self, alloc: Global) -> Result<Vec<u8>, LogFault>
        ensures told { IsTrue (tells self.new) → IsTrue (tells self.old) }
        ensures octets { IsTrue (tells self.new) → IfOk result (λ octets. octets.items ≡ seen self.old) }
        ensures same { IsTrue (tells self.new) → seen self.new ≡ seen self.old }
        ensures crash { IsTrue (tells self.new) → NoMore (may_leave self.old) (may_leave self.new) };

    /// Appends octets. Until a sync a loss of power may tear them.
    fn append(&mut self, octets: &[u8]) -> Result<(), LogFault>
        ensures told { IsTrue (tells self.new) → IsTrue (tells self.old) }
        ensures written { IsTrue (tells self.new) → OnOk result (seen self.new ≡ seen self.old ++ octets.now) }
        ensures front { IsTrue (tells self.new) → Extends (seen self.old) (seen self.new) }
        ensures crash { IsTrue (tells self.new) → (ending : OneEnding) →
            Follows (Appends (Tears tears ending) octets.now) (may_leave self.old ending) (may_leave self.new ending) }
        ensures kept { IsTrue (tells self.new) → OnOk result
            (Follows (Adds octets.now) (may_leave self.old Kill) (may_leave self.new Kill)) };

    /// Cuts the file to a length. Until a sync a crash may undo it.
    fn cut(&mut self, len: usize) -> Result<(), LogFault>
        ensures told { IsTrue (tells self.new) → IsTrue (tells self.old) }
        ensures done { IsTrue (tells self.new) → OnOk result (seen self.new ≡ take len (seen self.old)) }
        ensures either { IsTrue (tells self.new) → Cuts len (seen self.old) (seen self.new) }
        ensures crash { IsTrue (tells self.new) → (ending : OneEnding) →
            Follows (Cuts len) (may_leave self.old ending) (may_leave self.new ending) };

    /// Makes a crash leave what a read returns. After a fault the log must not be used any more.
    fn sync(&mut self) -> Result<(), LogFault>
        ensures told { IsTrue (tells self.new) → IsTrue (tells self.old) }
        ensures same { IsTrue (tells self.new) → seen self.new ≡ seen self.old }
        ensures crash { IsTrue (tells self.new) → OnErr result (NoMore (may_leave self.old) (may_leave self.new)) }
        ensures durable { IsTrue (tells self.new) → OnOk result (Only (seen self.old) (may_leave self.new)) };
}

/// A log whose process or machine can stop and come back, and which another can follow.
pub trait Crash: Log {
    ghost use Rattle.std.specs.Prelude.{◌≡◌, [], IfOk, IsTrue};
    ghost use Rattle.rld_log.specs.Log.{Only};

    /// Stops, and comes back with something that the crash may have left.
    fn restart(&mut self, ending: Ending)
        ensures told { IsTrue (Self.Log.tells self.new) → IsTrue (Self.Log.tells self.old) }
        ensures left { IsTrue (Self.Log.tells self.new) → Self.Log.may_leave self.old ending (Self.Log.seen self.new) }
        ensures settled { IsTrue (Self.Log.tells self.new) → Only (Self.Log.seen self.new) (Self.Log.may_leave self.new) };

    /// An empty log, to follow this one.
    fn next_log(&self, alloc: Global) -> Result<Self, LogFault>
        ensures told { IfOk result (λ next. IsTrue (Self.Log.tells next) → IsTrue (Self.Log.tells self.now)) }
        ensures empty { IfOk result (λ next. IsTrue (Self.Log.tells next) → Self.Log.seen next ≡ []) }
        ensures settled { IfOk result (λ next. IsTrue (Self.Log.tells next) →
            Only (Self.Log.seen next) (Self.Log.may_leave next)) };
}
