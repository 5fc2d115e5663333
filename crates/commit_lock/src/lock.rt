//! The lock, and the calls that make it, share it out and end it.
ghost use Rattle.std.specs.Prelude.{◌≡◌, ℕ, ◌+◌, ◌^◌, ◌<◌, ◌≤◌, List, [], ◌∷◌, Some, IfOk, IfErr};
ghost use mathlib.Core.List.{IsPrefix};
ghost use Rattle.commit_lock.specs.Views.{share};
ghost use Rattle.commit_lock.specs.Props.{TableId-set};

use crate::rules::{About, Added, BookRule, Count, Joined, OnePart, Tell, TurnRule, Twin};
use crate::seat::{BookSeat, Pack, Pen, Seat, TurnSeat};
use crate::views::{BookView, Kept, TurnView};
use atomic_table::{Refused, Shared, Table};
use std::alloc::Global;
use std::snapshot::Snapshot;
use std::sync::atomic::AtomicU64;

/// The book table, as the seats share it.
type Pages<V> = Shared<u8, BookView, Snapshot<V>, BookRule<V>>;

/// A lock round one value, which seats take in turn. A turn that nobody contends makes no call of the system.
///
/// Nothing is said of progress, fairness or time: not that a seat gets the turn, nor when. It is not dropped: close it.
///
/// The value lies in the one slot of the turn table, beside the pen of the book table. The counters serve waiting
/// alone: they are read and written by plain steps, and no fact rests on them.
pub struct TurnLock<V: Kept + Send> {
    pub(crate) turn: Table<Option<Pack<V>>, TurnView, About, TurnRule<V>, Global>,
    pub(crate) book: Table<u8, BookView, Snapshot<V>, BookRule<V>, Global>,
    // How many turns were given back, how many threads sleep until the turn is free, and how many in `idle`.
    pub(crate) leaves: AtomicU64,
    pub(crate) waiting: AtomicU64,
    pub(crate) idling: AtomicU64,
    ghost words: { (turn.shared.table_id.words ≡ 1) × (turn.shared.table_id.slots ≡ 1) × (book.shared.table_id.words ≡ 1) },
    ghost named: { turn.shared.key.book.value.table_id ≡ book.shared.table_id } by { TableId-set _ _ },
}

// A row of one slot, filled. At want of memory the pack comes back.
fn one_slot<V>(alloc: Global, pack: Pack<V>) -> Result<Vec<Option<Pack<V>>>, Pack<V>>
    ensures ok { IfOk result (λ slots. slots.items ≡ Some pack ∷ []) }
    ensures err { IfErr result (λ back. back ≡ pack) }
{
    let Ok(mut slots) = Vec::with_capacity(alloc, 1) else {
        return Err(pack);
    };
    slots.push_reserved(Some(pack));
    Ok(slots)
}

// The pack of a row of one slot.
fn only_pack<V>(mut slots: Vec<Option<Pack<V>>>) -> Pack<V>
    requires { (pack : _) × (slots.items ≡ Some pack ∷ []) }
    ensures { slots.items ≡ Some result ∷ [] }
{
    let Some(Some(pack)) = slots.pop() else {
        unreachable!()
    };
    slots.destroy_empty();
    pack
}

fn value_of<V>(pack: Pack<V>) -> V
    ensures { result ≡ pack.value }
{
    let Pack { value, pen } = pack;
    let Pen { seat: _ } = pen;
    value
}

// What both seats had seen for the first, and no more.
pub(crate) fn learn<V: Kept>(pages: &Pages<V>, mut book: BookSeat, other: BookSeat) -> BookSeat
    requires word { pages.now.table_id.words ≡ 1 }
    requires own { (book.table_id ≡ pages.now.table_id) × (other.table_id ≡ pages.now.table_id) }
    requires bare { (book.me.1 ≡ []) × (other.me.1 ≡ []) }
    requires live { (book.me.0.live ≡ 1) × (other.me.0.live ≡ 1) × (other.me.0.pens ≡ 0) }
    ensures own { (result.table_id ≡ book.table_id) × (result.me.1 ≡ []) }
    ensures kept { (result.me.0.live ≡ 1) × (result.me.0.pens ≡ book.me.0.pens) }
    ensures base { (result.me.0.base ≡ book.me.0.base) × (result.me.0.base ≡ other.me.0.base) }
    ensures seen { IsPrefix book.me.0.seen result.me.0.seen × IsPrefix other.me.0.seen result.me.0.seen }
    ensures no_more { (last : List ℕ) → IsPrefix book.me.0.seen last → IsPrefix other.me.0.seen last → IsPrefix result.me.0.seen last }
    ensures pen { 0 < book.me.0.pens → result.me.0.seen ≡ book.me.0.seen }
{
    pages.join_seat::<Joined>(&mut book, other);
    pages.load::<Tell>(&mut book, 0);
    book
}

impl<V: Kept + Send> TurnLock<V> {
    ghost use Rattle.commit_lock.specs.Meanings.{base_of, seen_of, parts_of, whole_of, IsOf};

    /// A lock round the value, and one seat with all its parts, which has seen the value's history.
    ///
    /// At want of memory the value comes back.
    pub fn new(alloc: Global, value: V, parts: u32) -> Result<(TurnLock<V>, Seat), V>
        requires { 1 ≤ parts }
        ensures lock { IfOk result (λ r. IsOf r.0 r.1 × (whole_of r.0 ≡ parts)) }
        ensures seat { IfOk result (λ r. (base_of r.1 ≡ V.base value) × (seen_of r.1 ≡ V.hist value) × (parts_of r.1 ≡ parts)) }
        ensures err { IfErr result (λ v. v ≡ value) }
    {
        let key = Snapshot::of(&value);
        let Ok((book, mut own)) = Table::of_words(alloc, &[0], &key) else {
            return Err(value);
        };
        let about = About {
            book: Snapshot::of(&own),
            parts,
        };
        let copy = book.shared.split_seat::<Twin>(&mut own);
        let pack = Pack {
            value,
            pen: Pen { seat: own },
        };
        let slots = match one_slot(alloc, pack) {
            Ok(slots) => slots,
            Err(pack) => return Err(value_of(pack)),
        };
        match Table::new(alloc, &[0], slots, &about) {
            Ok((turn, first)) => {
                let lock = TurnLock {
                    turn,
                    book,
                    leaves: AtomicU64::new(0),
                    waiting: AtomicU64::new(0),
                    idling: AtomicU64::new(0),
                };
                let seat = Seat {
                    badge: first.into_badge(),
                    book: copy,
                    parts,
                    left: 0,
                };
                Ok((lock, seat))
            }
            Err(Refused { slots }) => Err(value_of(only_pack(slots))),
        }
    }

    /// Two seats for one, the second with one of its parts. Both have its base, and have seen what it has.
    pub fn split(&self, seat: Seat) -> (Seat, Seat)
        requires { IsOf self.now seat × (2 ≤ parts_of seat) }
        ensures own { IsOf self.now result.0 × IsOf self.now result.1 }
        ensures parts { (parts_of result.0 + 1 ≡ parts_of seat) × (parts_of result.1 ≡ 1) }
        ensures base { (base_of result.0 ≡ base_of seat) × (base_of result.1 ≡ base_of seat) }
        ensures seen { (seen_of result.0 ≡ seen_of seat) × (seen_of result.1 ≡ seen_of seat) }
    {
        let Seat {
            badge,
            mut book,
            parts,
            left,
        } = seat;
        let mut turn: TurnSeat<V> = badge.into_seat();
        let other = self.turn.shared.split_seat::<OnePart>(&mut turn);
        let copy = self.book.shared.split_seat::<Twin>(&mut book);
        let first = Seat {
            badge: turn.into_badge(),
            book,
            parts: parts - 1,
            left,
        };
        let second = Seat {
            badge: other.into_badge(),
            book: copy,
            parts: 1,
            left,
        };
        (first, second)
    }

    /// One seat for two, with the parts of both. Its history begins with what each of them had seen.
    pub fn join(&self, a: Seat, b: Seat) -> Seat
        requires { IsOf self.now a × IsOf self.now b }
        ensures own { IsOf self.now result }
        ensures parts { parts_of result ≡ parts_of a + parts_of b }
        ensures base { (base_of result ≡ base_of a) × (base_of result ≡ base_of b) }
        ensures seen { IsPrefix (seen_of a) (seen_of result) × IsPrefix (seen_of b) (seen_of result) }
    {
        let Seat {
            badge,
            book,
            parts,
            left,
        } = a;
        let Seat {
            badge: other,
            book: copy,
            parts: more,
            left: _,
        } = b;
        let turn = self.add(badge.into_seat(), other.into_seat());
        Seat {
            badge: turn.into_badge(),
            book: learn(&self.book.shared, book, copy),
            parts: parts + more,
            left,
        }
    }

    /// Ends the lock, and gives the value. Its history begins with what the seat has seen.
    pub fn close(self, seat: Seat) -> V
        requires { IsOf self seat × (parts_of seat ≡ whole_of self) }
        ensures { (V.base result ≡ base_of seat) × IsPrefix (seen_of seat) (V.hist result) }
    {
        let Seat {
            badge,
            book: last,
            parts: _,
            left: _,
        } = seat;
        let TurnLock {
            turn,
            book,
            leaves: _,
            waiting: _,
            idling: _,
        } = self;
        let mut closed = turn.close_with(badge.into_seat());
        let Some(pack) = closed.take(0) else {
            unreachable!()
        };
        closed.free();
        let Pack { value, pen } = pack;
        let Pen { seat: own } = pen;
        let _own = learn(&book.shared, own, last);
        value
    }

    // The parts of both seats for the first.
    fn add(&self, mut turn: TurnSeat<V>, other: TurnSeat<V>) -> TurnSeat<V>
        requires own { (turn.table_id ≡ self.now.turn.shared.table_id) × (other.table_id ≡ self.now.turn.shared.table_id) }
        requires bare { (turn.me.1 ≡ []) × (other.me.1 ≡ []) }
        requires free { (turn.me.0.turn ≡ 0) × (other.me.0.turn ≡ 0) × (1 ≤ turn.me.0.parts) × (1 ≤ other.me.0.parts) }
        ensures own { result.table_id ≡ turn.table_id }
        ensures me { result.me ≡ (share turn.me.0.book (turn.me.0.parts + other.me.0.parts) 0, []) }
        ensures few { turn.me.0.parts + other.me.0.parts < 2 ^ 32 }
    {
        self.turn.shared.join_seat::<Added>(&mut turn, other);
        self.turn.shared.load::<Count>(&mut turn, 0);
        turn
    }
}
