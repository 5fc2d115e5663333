//! Taking the turn, giving it back, and waiting for either.
ghost use Rattle.std.specs.Prelude.{◌≡◌, ℕ, ◌≤◌, [], ◌∷◌, None, Some, MatchBool};
ghost use mathlib.Core.List.{IsPrefix};
ghost use Rattle.commit_lock.specs.Views.{share};
ghost use Rattle.commit_lock.specs.Steps.{HasPack, HasTurn};
ghost use Rattle.commit_lock.specs.Packs.{FitsPack};
ghost use Rattle.commit_lock.specs.Meanings.{base_of, seen_of, parts_of, pen_base, pen_seen, IsOf, IsPenOf, IsHeldOf};

use crate::lock::{TurnLock, learn};
use crate::rules::{Give, Said, Take, Twin, Write};
use crate::seat::{Held, Pack, Pen, Seat, TurnSeat};
use crate::views::Kept;
use atomic_table::Badge;
use std::hint;
use std::marker::Brand;
use std::sync::Wait;
use std::sync::atomic::Ordering::SeqCst;
use std::time::Duration;

// Looks at the word before a thread that wants the turn sleeps.
const LOOKS: u32 = 64;

// The longest sleep of one call of `idle`, in milliseconds.
const LONGEST_IDLE: u64 = 100;

impl<V: Kept + Send> TurnLock<V> {
    /// Takes the turn. It waits while another seat has it.
    ///
    /// The value has the seat's base, and its history begins with what the seat has seen.
    pub fn enter<R: Wait>(&self, rt: &R, seat: Seat) -> Held<V>
        requires { IsOf self.now seat }
        ensures own { IsHeldOf self.now result }
        ensures value { (V.base result.value ≡ base_of seat) × IsPrefix (seen_of seat) (V.hist result.value) }
        ensures pen { (pen_base result.pen ≡ V.base result.value) × (pen_seen result.pen ≡ V.hist result.value) }
        ensures seat { (base_of result.seat ≡ base_of seat) × (seen_of result.seat ≡ seen_of seat) × (parts_of result.seat ≡ parts_of seat) }
    {
        let Seat {
            badge,
            mut book,
            parts,
            left,
        } = seat;
        let turn = self.take_turn(rt, badge.into_seat());
        let (slot, pack) = self.take_out(turn);
        let Pack { value, pen } = pack;
        let Pen { seat: own } = pen;
        let copy = self.book.shared.split_seat::<Twin>(&mut book);
        let own = learn(&self.book.shared, own, copy);
        Held {
            value,
            seat: Seat {
                badge: Badge::blank(),
                book,
                parts,
                left,
            },
            pen: Pen { seat: own },
            slot,
        }
    }

    /// Gives the turn back, and wakes a thread that waits for it.
    ///
    /// The seat that comes back has seen the history that the value has.
    pub fn leave(&self, held: Held<V>) -> Seat
        requires own { IsHeldOf self.now held }
        requires value { (V.base held.value ≡ pen_base held.pen) × IsPrefix (pen_seen held.pen) (V.hist held.value) }
        ensures own { IsOf self.now result }
        ensures seat { (base_of result ≡ base_of held.seat) × (parts_of result ≡ parts_of held.seat) }
        ensures seen { seen_of result ≡ V.hist held.value }
    {
        let Held {
            value,
            seat,
            mut pen,
            slot,
        } = held;
        self.write::<Brand>(&mut pen, &value);
        let Pen { seat: mut own } = pen;
        let copy = self.book.shared.split_seat::<Twin>(&mut own);
        let Seat {
            badge: _,
            book,
            parts,
            left: _,
        } = seat;
        let book = learn(&self.book.shared, book, copy);
        let pack = Pack {
            value,
            pen: Pen { seat: own },
        };
        let turn = self.put_back(slot, pack);
        Seat {
            badge: turn.into_badge(),
            book,
            parts,
            left: self.announce(),
        }
    }

    /// Waits until another seat gives a turn back, or has done so since this seat gave back its last one.
    /// It may come back sooner, and does after a tenth of a second.
    pub fn idle<R: Wait>(&self, rt: &R, seat: Seat) -> Seat
        requires { IsOf self.now seat }
        ensures { result ≡ seat }
    {
        if self.leaves.load(SeqCst) == seat.left {
            self.idling.fetch_add(1, SeqCst);
            let seen = (seat.left & 0xffff_ffff) as u32;
            self.leaves
                .park_timeout(rt, seen, Duration::from_millis(LONGEST_IDLE));
            self.idling.fetch_sub(1, SeqCst);
        }
        seat
    }

    // Tries once to take the turn.
    fn try_turn(&self, turn: &mut TurnSeat<V>) -> bool
        requires own { turn.old.table_id ≡ self.now.turn.shared.table_id }
        requires waits { (turn.old.me.1 ≡ []) × (turn.old.me.0.turn ≡ 0) × (1 ≤ turn.old.me.0.parts) }
        ensures own { turn.new.table_id ≡ turn.old.table_id }
        ensures turn { MatchBool result (HasTurn (FitsPack V.base V.hist) turn.old.me turn.new.me) (turn.new.me ≡ turn.old.me) }
    {
        self.turn.shared.compare_exchange::<Take<V>>(turn, 0, 0, 1) == 0
    }

    // Tries while it is likely that the turn comes soon.
    fn spin_for_turn(&self, turn: &mut TurnSeat<V>) -> bool
        requires own { turn.old.table_id ≡ self.now.turn.shared.table_id }
        requires waits { (turn.old.me.1 ≡ []) × (turn.old.me.0.turn ≡ 0) × (1 ≤ turn.old.me.0.parts) }
        ensures own { turn.new.table_id ≡ turn.old.table_id }
        ensures turn { MatchBool result (HasTurn (FitsPack V.base V.hist) turn.old.me turn.new.me) (turn.new.me ≡ turn.old.me) }
    {
        for _ in 0..LOOKS {
            if self.turn.shared.peek(0) != 0 {
                hint::spin_loop();
                continue;
            }
            if self.try_turn(turn) {
                return true;
            }
        }
        false
    }

    // Takes the turn. While the word says that it is taken, the thread sleeps on it.
    fn take_turn<R: Wait>(&self, rt: &R, mut turn: TurnSeat<V>) -> TurnSeat<V>
        requires own { turn.table_id ≡ self.now.turn.shared.table_id }
        requires waits { (turn.me.1 ≡ []) × (turn.me.0.turn ≡ 0) × (1 ≤ turn.me.0.parts) }
        ensures own { result.table_id ≡ turn.table_id }
        ensures turn { HasTurn (FitsPack V.base V.hist) turn.me result.me }
    {
        if self.spin_for_turn(&mut turn) {
            return turn;
        }
        self.waiting.fetch_add(1, SeqCst);
        for _ in rt.forever() {
            if self.try_turn(&mut turn) {
                self.waiting.fetch_sub(1, SeqCst);
                return turn;
            }
            self.turn.shared.park(rt, 0, 1);
        }
        unreachable!()
    }

    // Takes the value with its pen out of the slot.
    fn take_out(&self, mut turn: TurnSeat<V>) -> (TurnSeat<V>, Pack<V>)
        requires own { turn.table_id ≡ self.now.turn.shared.table_id }
        requires slot { HasPack (FitsPack V.base V.hist) turn.me.0.book turn.me.1 }
        ensures own { result.0.table_id ≡ turn.table_id }
        ensures me { result.0.me ≡ (turn.me.0, (0, None) ∷ []) }
        ensures pack { FitsPack V.base V.hist turn.me.0.book result.1 }
    {
        let Some(pack) = self.turn.shared.exchange(&mut turn, 0, None) else {
            unreachable!()
        };
        (turn, pack)
    }

    // Puts the value with its pen into the slot, and then gives the turn back.
    fn put_back(&self, mut turn: TurnSeat<V>, pack: Pack<V>) -> TurnSeat<V>
        requires own { turn.table_id ≡ self.now.turn.shared.table_id }
        requires turn { (turn.me.1 ≡ (0, None) ∷ []) × (turn.me.0.turn ≡ 1) × (1 ≤ turn.me.0.parts) }
        requires pack { FitsPack V.base V.hist turn.me.0.book pack }
        ensures own { result.table_id ≡ turn.table_id }
        ensures me { result.me ≡ (share turn.me.0.book turn.me.0.parts 0, []) }
    {
        match self.turn.shared.exchange(&mut turn, 0, Some(pack)) {
            None => {}
            Some(_) => unreachable!(),
        }
        self.turn.shared.store::<Give>(&mut turn, 0, 0);
        turn
    }

    // Writes the value's history with the pen.
    fn write<W: Said>(&self, pen: &mut Pen, _value: &V)
        requires own { IsPenOf self.now pen.old }
        requires said { W.list ≡ V.hist _value.now }
        requires more { IsPrefix (pen_seen pen.old) (V.hist _value.now) }
        ensures own { IsPenOf self.now pen.new }
        ensures wrote { (pen_base pen.new ≡ pen_base pen.old) × (pen_seen pen.new ≡ V.hist _value.now) }
    {
        self.book.shared.load::<Write<W>>(&mut pen.seat, 0);
    }

    // Tells of a turn that was given back, and says how many there were. Where nobody waits it is no call of the system.
    fn announce(&self) -> u64 {
        if self.waiting.load(SeqCst) != 0 {
            self.turn.shared.wake_one(0);
        }
        let before = self.leaves.fetch_add(1, SeqCst);
        if self.idling.load(SeqCst) != 0 {
            self.leaves.wake_all();
        }
        before.wrapping_add(1)
    }
}
