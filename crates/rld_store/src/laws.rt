//! Laws of generations. Each is the contract of a function that does nothing.

ghost use Rattle.std.specs.Arc.{arc_value};
ghost use Rattle.std.specs.Prelude.{List};
ghost use Rattle.rld_store.specs.Laws.{FilesHaveOneState};
ghost use Rattle.rld_store.specs.Standing.{LosesNothing, StandsFor};
ghost use Rattle.rld_books.specs.Server.{ServerSeen};
ghost use Rattle.rsl_shard.specs.declared.moved.Move.{Move as OneMove};

use crate::store::Store;
use rld_log::Log;

/// A crash loses nothing that was answered: what it leaves of a store's log has the history, or the
/// history and the unanswered batch, whole. For a loss of power the premise is that no torn write
/// passes for a frame by chance; for a kill that is proved.
pub fn crashes_lose_nothing<L: Log>(store: &Store<L>)
    ensures { (opening : ServerSeen) (history unanswered : List OneMove) →
        StandsFor (arc_value store.now.config) opening L.tears store.now.end (L.seen store.now.log) (L.may_leave store.now.log)
        store.now.whole store.now.books history unanswered →
        LosesNothing (arc_value store.now.config) opening L.tears (L.may_leave store.now.log) history unanswered }
{
    let _store = store;
}

/// A file stands for one state: whatever histories are found in it, and whatever books they
/// opened with, the resulting books are the same.
pub fn files_have_one_state()
    ensures { FilesHaveOneState }
{
    rld_spelling::laws::moves_are_read();
    rld_spelling::laws::books_are_read();
}
