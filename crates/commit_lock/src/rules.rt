//! The rules of the two tables, and the names of their steps.
ghost use Rattle.std.specs.Prelude.{ℕ, List, []};
ghost use Rattle.commit_lock.specs.Views.{share, turn_spent, book_first, book_spent};
ghost use Rattle.commit_lock.specs.Steps.{took, counted, gave, turn_left, turn_right, turn_both, wrote, told, book_copy, book_both};
ghost use Rattle.commit_lock.specs.Rules.{Turns, Book};
ghost use Rattle.commit_lock.specs.Packs.{FitsPack};

use crate::seat::{BookSeat, Pack};
use crate::views::{BookView, Kept, TurnView};
use atomic_table::{Join, Play, Split, TableRule};
use std::marker::{Brand, PhantomData};
use std::snapshot::Snapshot;

/// What the turn table is told once: which is its book table, and how many parts the lock has.
#[derive(Drop)]
pub struct About {
    pub(crate) book: Snapshot<BookSeat>,
    pub(crate) parts: u32,
}

pub struct TurnRule<V> {
    marker: PhantomData<V>,
}

impl<V: Kept> TableRule<Option<Pack<V>>, TurnView, About> for TurnRule<V> {
    ghost holds = { λ key. Turns key.book.value.table_id key.parts (FitsPack V.base V.hist key.book.value.table_id) };

    ghost first = { λ key. share key.book.value.table_id key.parts 0 };
}

/// Takes the turn where it is free, and else looks.
pub struct Take<V> {
    marker: PhantomData<V>,
}

impl<V: Kept> Play<Option<Pack<V>>, TurnView> for Take<V> {
    ghost then = { λ st m r n. took (FitsPack V.base V.hist) m r n };
}

/// Looks, and is told how large the parts can be.
pub struct Count;

impl<P> Play<Option<P>, TurnView> for Count {
    ghost then = { λ st m r n. counted m n };
}

/// Gives the turn back.
pub struct Give;

impl<P> Play<Option<P>, TurnView> for Give {
    ghost then = { λ st m r n. gave m n };
}

/// One part for a new seat.
pub struct OnePart;

impl Split<TurnView> for OnePart {
    ghost left = { turn_left };

    ghost right = { turn_right };
}

/// The parts of two seats for one.
pub struct Added;

impl Join<TurnView> for Added {
    ghost both = { turn_both };

    ghost spent = { turn_spent };
}

pub struct BookRule<V> {
    marker: PhantomData<V>,
}

impl<V: Kept> TableRule<u8, BookView, Snapshot<V>> for BookRule<V> {
    ghost holds = { λ key. Book (V.base key.value) };

    ghost first = { λ key. book_first (V.base key.value) (V.hist key.value) };
}

/// The list that the pen writes, which the proof of the call picks.
pub(crate) trait Said {
    ghost list: { List ℕ };
}

impl Said for Brand {
    ghost list = { [] };
}

/// Writes with the pen.
pub struct Write<W> {
    marker: PhantomData<W>,
}

impl<S, W: Said> Play<S, BookView> for Write<W> {
    ghost then = { λ st m r n. wrote W.list m n };
}

/// Is told what the seats had seen that were taken in.
pub struct Tell;

impl<S> Play<S, BookView> for Tell {
    ghost then = { λ st m r n. told m n };
}

/// A second seat that has seen as much.
pub struct Twin;

impl Split<BookView> for Twin {
    ghost left = { λ v. v };

    ghost right = { book_copy };
}

/// What two seats have seen for one.
pub struct Joined;

impl Join<BookView> for Joined {
    ghost both = { book_both };

    ghost spent = { book_spent };
}
