//! Workers that take turns at one tally.
ghost use Rattle.std.specs.Prelude.{◌≡◌, ◌≤◌, IfSome};
ghost use Rattle.std.specs.Thread.{IsSync};
ghost use mathlib.Core.List.{IsPrefix};
ghost use Rattle.commit_lock.specs.Meanings.{base_of, parts_of, IsOf};

use crate::tally::Tally;
use commit_lock::{Seat, TurnLock};
use std::alloc::Global;
use std::sync::Wait;
use std::thread::{Threads, join};

/// What a worker remembers of its turns.
#[derive(Drop)]
pub struct Diary {
    number: u32,
    // Where its last number stands.
    place: Option<usize>,
    // The history as it left it last.
    seen: Vec<u32>,
    // Whether each history that it met began with what it had left, as far as it looked.
    in_order: bool,
}

impl Diary {
    fn new(alloc: Global, number: u32) -> Diary {
        Diary {
            number,
            place: None,
            seen: Vec::new(alloc),
            in_order: true,
        }
    }

    // Looks for its last number at its place, and adds the number once more.
    fn take_turn(&mut self, tally: &mut Tally)
        ensures name { tally.new.name ≡ tally.old.name }
        ensures numbers { IsPrefix tally.old.numbers.items tally.new.numbers.items }
    {
        if let Some(place) = self.place {
            self.in_order &= tally.numbers().get(place) == Some(&self.number);
        }
        self.place = Some(tally.numbers().len());
        self.in_order &= tally.add(self.number).is_ok();
    }

    // Copies the whole history.
    fn copy(&mut self, tally: &Tally) {
        self.seen.clear();
        self.in_order &= self.seen.extend_from_slice(tally.numbers()).is_ok();
    }

    /// The diary that saw more, if the history of the one begins that of the other.
    fn join(self, other: Diary) -> Diary {
        let (mut more, less) = if self.seen.len() < other.seen.len() {
            (other, self)
        } else {
            (self, other)
        };
        more.in_order &= less.in_order && more.seen.as_slice().starts_with(less.seen.as_slice());
        more
    }

    /// Whether all was in order, and this history begins with what was seen.
    pub fn agrees_with(&self, tally: &Tally) -> bool {
        self.in_order && tally.numbers().starts_with(self.seen.as_slice())
    }
}

// One turn.
fn turn<R: Wait>(rt: &R, lock: &TurnLock<Tally>, seat: Seat, diary: &mut Diary, last: bool) -> Seat
    requires { IsOf lock.now seat }
    ensures own { IsOf lock.now result }
    ensures same { (base_of result ≡ base_of seat) × (parts_of result ≡ parts_of seat) }
{
    let mut held = lock.enter(rt, seat);
    diary.take_turn(&mut held.value);
    if last {
        diary.copy(&held.value);
    }
    lock.leave(held)
}

// So many turns of one worker, which adds its number.
fn work<R: Wait>(
    rt: &R,
    alloc: Global,
    lock: &TurnLock<Tally>,
    seat: Seat,
    number: u32,
    rounds: u32,
) -> (Seat, Diary)
    requires { IsOf lock.now seat }
    ensures own { IsOf lock.now result.0 }
    ensures same { (base_of result.0 ≡ base_of seat) × (parts_of result.0 ≡ parts_of seat) }
{
    let mut diary = Diary::new(alloc, number);
    let mut seat = seat;
    for round in 1..=rounds {
        seat = turn(rt, lock, seat, &mut diary, round == rounds);
    }
    (seat, diary)
}

// So many workers, each in a thread of its own, where there is one.
fn work_together<R: Threads + Wait + Sync>(
    rt: &R,
    alloc: Global,
    lock: &TurnLock<Tally>,
    seat: Seat,
    workers: u32,
    rounds: u32,
) -> (Seat, Diary)
    requires { IsOf lock.now seat × (1 ≤ workers) × (parts_of seat ≡ workers) }
    ensures own { IsOf lock.now result.0 }
    ensures same { (base_of result.0 ≡ base_of seat) × (parts_of result.0 ≡ parts_of seat) }
{
    if workers == 1 {
        return work(rt, alloc, lock, seat, 1, rounds);
    }
    let (others, own) = lock.split(seat);
    let fewer = workers - 1;
    let ((others, theirs), (own, ours)) = join(
        rt,
        move || -> (Seat, Diary)
            requires { IsSync R.row × IsOf lock.now others × (1 ≤ fewer) × (parts_of others ≡ fewer) }
            ensures { IsOf lock.entry.now result.0 × (base_of result.0 ≡ base_of others) × (parts_of result.0 ≡ parts_of others) }
        { work_together(rt, alloc, lock, others, fewer, rounds) },
        move || -> (Seat, Diary)
            requires { IsOf lock.now own }
            ensures { IsOf lock.entry.now result.0 × (base_of result.0 ≡ base_of own) × (parts_of result.0 ≡ parts_of own) }
        { work(rt, alloc, lock, own, workers, rounds) },
    );
    (lock.join(others, own), theirs.join(ours))
}

/// A tally of that name, to which so many workers, numbered from 1, each added their number so often; and what they saw.
/// None is want of memory.
pub fn tally_of<R: Threads + Wait + Sync>(
    rt: &R,
    alloc: Global,
    name: u64,
    workers: u32,
    rounds: u32,
) -> Option<(Tally, Diary)>
    requires { 1 ≤ workers }
    ensures { IfSome result (λ r. r.0.name ≡ name) }
{
    let tally = Tally::new(alloc, name, 0).ok()?;
    let Ok((lock, seat)) = TurnLock::new(alloc, tally, workers) else {
        return None;
    };
    let (seat, diary) = work_together(rt, alloc, &lock, seat, workers, rounds);
    Some((lock.close(seat), diary))
}
