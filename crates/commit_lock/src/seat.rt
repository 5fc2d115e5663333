//! The right to take turns, the right to write the history, and the turn itself.
ghost use Rattle.std.specs.Prelude.{◌≡◌, ◌≤◌, [], ◌∷◌, None};
ghost use mathlib.Core.List.{IsPrefix};
ghost use Rattle.commit_lock.specs.Views.{share};
ghost use Rattle.commit_lock.specs.Props.{IsPrefix-prop, TurnSeen-set};

use crate::views::{BookView, TurnView};
use atomic_table::Badge;

/// A seat of the book table. It names no type of value, since the book table has no slots.
pub(crate) type BookSeat = atomic_table::Seat<u8, BookView>;

/// A seat of the turn table.
pub(crate) type TurnSeat<V> = atomic_table::Seat<Option<Pack<V>>, TurnView>;

/// The right to take turns at a lock.
///
/// It has the lock's `base`, which each value of the lock has; `seen`, a history with which each value that it meets
/// begins; and `parts`, its share of the lock, at least 1. The parts of a seat that is dropped are lost, and a lock that
/// lacks parts can't be closed: join the seat into another one.
#[derive(Drop)]
pub struct Seat {
    pub(crate) badge: Badge<TurnView>,
    pub(crate) book: BookSeat,
    pub(crate) parts: u32,
    // The number of turns that had been given back when this seat gave back its last one.
    pub(crate) left: u64,
    ghost some: { 1 ≤ parts },
    ghost live: { book.me.0.live ≡ 1 },
    ghost pens: { book.me.0.pens ≡ 0 },
}

/// The right to write the history of a lock's value. A lock has one, which goes with the value.
///
/// It has the lock's `base`, and as `seen` the history of the value as it was taken.
pub struct Pen {
    pub(crate) seat: BookSeat,
    ghost live: { seat.me.0.live ≡ 1 },
    ghost pens: { seat.me.0.pens ≡ 1 },
}

/// What lies in the slot while the turn is free.
pub struct Pack<V> {
    pub(crate) value: V,
    pub(crate) pen: Pen,
}

/// The turn. While it is held, no other seat has the value.
///
/// The seat has the base of the pen, and a beginning of the history that the pen has. It is not dropped: leave with it.
pub struct Held<V> {
    /// The value. Its base has to stay, and its history may be added to.
    pub value: V,
    /// The seat that entered. While the turn is held it is good for nothing else.
    pub seat: Seat,
    /// The pen, which has the base and the history of the value as it was taken.
    pub pen: Pen,
    pub(crate) slot: TurnSeat<V>,
    ghost based: { seat.book.me.0.base ≡ pen.seat.me.0.base },
    ghost begins: { IsPrefix seat.book.me.0.seen pen.seat.me.0.seen } by { IsPrefix-prop _ _ },
    ghost turn: { slot.me.0 ≡ share seat.book.table_id seat.parts 1 } by { TurnSeen-set _ _ },
    ghost out: { slot.me.1 ≡ (0, None) ∷ [] },
}
