//! The laws of fields and of what is spelled by them: each is read as it is spelled. Each law is the contract of a
//! function that does nothing. The lemmas for fields that are made of others are in `proofs/Callers.antt`.

ghost use Rattle.std.specs.Prelude.{◌≡◌, ◌++◌, ◌≤◌, ◌<◌, ◌^◌, List, ℕ};
ghost use Rattle.rsl_shard.specs.declared.moved.Move.{Move as OneMove};
ghost use Rattle.rld_spelling.specs.Books.{book_field, books_field};
ghost use Rattle.rld_spelling.specs.TableSpelled.{table_field};
ghost use Rattle.rld_spelling.specs.Field.{IsRead, octet, fixed, short, flag, nothing};
ghost use Rattle.rld_spelling.specs.Headers.{header_field};
ghost use Rattle.rld_spelling.specs.Laws.{FewEnough};
ghost use Rattle.rld_spelling.specs.Moves.{MoveFits, move_field, move_octets, moves_field};
ghost use Rattle.rld_spelling.specs.Numbers.{number, below, between, exactly, pair};
ghost use Rattle.rld_spelling.specs.Tables.{TablesFit};
ghost use Rattle.rld_spelling.specs.declared.fault.Cause.{Cause};
ghost use Rattle.rld_spelling.specs.declared.moves.Counts.{Counts as SomeCounts};

/// Each move is read as it is spelled, whatever follows, and so are the moves of a batch.
pub fn moves_are_read()
    ensures moves { (counts : SomeCounts) → FewEnough counts → IsRead (move_field counts) }
    ensures batches { (counts : SomeCounts) → FewEnough counts → IsRead (moves_field counts) }
{}

/// Octets begin with one move at most: no spelling of a move is the beginning of another's.
pub fn one_move()
    ensures { (counts : SomeCounts) → FewEnough counts → (a b : OneMove) (x y : List ℕ) →
        MoveFits counts a → MoveFits counts b → move_octets a ++ x ≡ move_octets b ++ y →
        (a ≡ b) × (x ≡ y) }
{}

/// Each book is read as it is spelled, and so are the books of a snapshot.
pub fn books_are_read()
    ensures books { (clients : ℕ) → clients < 2 ^ 32 → IsRead (book_field clients) }
    ensures snapshots { (clients : ℕ) → clients < 2 ^ 32 → IsRead (books_field clients) }
{}

/// A table is read as it is spelled.
pub fn tables_are_read()
    ensures { IsRead table_field }
{}

/// The header of a generation is read as it is spelled.
pub fn headers_are_read()
    ensures { IsRead header_field }
{}

/// The table of a configuration fits, so it is never refused.
pub fn tables_of_configurations_fit()
    ensures { TablesFit }
{}

/// Numbers are read as they are spelled: in one form, whatever follows.
pub fn numbers_are_read()
    ensures { IsRead number }
{}

/// Numbers below a limit are read as they are spelled, and no others.
pub fn numbers_below_are_read()
    ensures { (cause : Cause) (limit : ℕ) → limit ≤ 2 ^ 64 → IsRead (below cause limit) }
{}

/// Numbers from a least to a most are read as they are spelled, and no others.
pub fn numbers_between_are_read()
    ensures { (cause : Cause) (least most : ℕ) → most < 2 ^ 64 → IsRead (between cause least most) }
{}

/// A constant number is read as it is spelled, and no other.
pub fn same_numbers_are_read()
    ensures { (cause : Cause) (value : ℕ) → value < 2 ^ 64 → IsRead (exactly cause value) }
{}

/// Numbers in 2 octets are read as they are spelled.
pub fn pairs_are_read()
    ensures { IsRead pair }
{}

/// Octets, flags and strings of at most 253 octets are read as they are spelled.
pub fn octets_are_read()
    ensures octet { IsRead octet }
    ensures fixed { (count : ℕ) → IsRead (fixed count) }
    ensures short { IsRead short }
    ensures flag { IsRead flag }
    ensures nothing { IsRead nothing }
{}
