ghost use Rattle.std.specs.Prelude.{◌≡◌, ℕ, List};
ghost use Rattle.rsl_accounts.specs.Configuration.{Configuration};
ghost use Rattle.rsl_event.specs.Answer.{said_to};
ghost use Rattle.rsl_event.specs.MeaningKind.{kind_of};
ghost use Rattle.rsl_event.specs.Prepared.{HasAccount, HasAsker, HasRoomFor, HasRoomForReply};

use crate::event::{Act, Decision};
use crate::meaning::Meaning;
use crate::words::Said;

/// The kind of a meaning: all that its reply depends on. So a reply can be made after the act of
/// the meaning was moved away.
#[derive(Clone, Copy)]
pub enum MeaningKind {
    /// A request whose attributes are malformed.
    Bare,
    /// A request that is rejected.
    Reject,
    /// An ask of the account with this number.
    Ask(u32),
    /// An accounting packet.
    Account,
}

impl MeaningKind {
    /// What is answered to a meaning of this kind. Only the answer to an ask depends on the
    /// decision; an ask that is `Done` was not accepted.
    pub fn said(self, decision: Decision) -> Said
        ensures { result ≡ said_to self decision }
    {
        match self {
            MeaningKind::Bare | MeaningKind::Reject => Said::Reject,
            MeaningKind::Ask(_) => match decision {
                Decision::Accept(number) => Said::Accept(number),
                Decision::LimitReject | Decision::Done => Said::LimitReject,
            },
            MeaningKind::Account => Said::Account,
        }
    }
}

impl Meaning {
    /// The kind of the meaning.
    pub fn kind(&self) -> MeaningKind
        ensures kind { result ≡ kind_of self.now }
        ensures asker { (config : Configuration) → HasAccount config self.now →
            HasAsker config result }
        ensures room { (config : Configuration) (attributes : List ℕ) → HasRoomForReply config attributes self.now →
            HasRoomFor config attributes result }
    {
        match self {
            Meaning::Bare => MeaningKind::Bare,
            Meaning::Reject => MeaningKind::Reject,
            Meaning::Own {
                account,
                act: Act::Ask { .. },
            } => MeaningKind::Ask(*account),
            Meaning::Own { .. } | Meaning::Restart { .. } | Meaning::Stray(_) =>
                MeaningKind::Account,
        }
    }
}
