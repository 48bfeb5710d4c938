//! The laws of saving and restoring a book. Each is the contract of a function that does nothing.

ghost use Rattle.rsl_book.specs.Restored.{PutBackIsSaved, SavedIsPutBack};

/// A book that fits its rules, as every [`Book`](crate::Book) does, is restored from what was saved
/// of it.
pub fn saved_is_put_back()
    ensures { SavedIsPutBack }
{}

/// A restored book is saved as what it was restored from.
pub fn put_back_is_saved()
    ensures { PutBackIsSaved }
{}
