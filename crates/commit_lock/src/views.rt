//! What the locked value tells, and what a seat knows at each table.
ghost use Rattle.std.specs.Prelude.{ℕ, List};

use std::marker::Model;

/// A value that a lock can keep. Contracts see it by two lists of numbers.
///
/// No call of a lock changes `base`, and `hist` is only added to.
pub trait Kept {
    // What every value of the lock has.
    ghost base: { Self → List ℕ };

    // What turns add to, behind what is there.
    ghost hist: { Self → List ℕ };
}

/// What a seat knows at the turn table. No value of it is made.
pub struct TurnView {}

impl Model for TurnView {
    ghost use Rattle.commit_lock.specs.Views.{TurnSeen, turn_coded, turn_spent};

    ghost Value = { TurnSeen };

    ghost coded = { turn_coded };

    ghost view = { λ _. turn_spent };
}

/// What a seat knows at the book table. No value of it is made.
pub struct BookView {}

impl Model for BookView {
    ghost use Rattle.commit_lock.specs.Views.{BookSeen, book_coded, book_spent};

    ghost Value = { BookSeen };

    ghost coded = { book_coded };

    ghost view = { λ _. book_spent };
}
