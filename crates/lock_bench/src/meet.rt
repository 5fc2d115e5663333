//! Two workers that are outside the lock at once, and one that waits for what the other one does.
ghost use Rattle.std.specs.Prelude.{◌≡◌};
ghost use Rattle.commit_lock.specs.Meanings.{base_of, parts_of, IsOf};

use crate::tally::Tally;
use commit_lock::{Seat, TurnLock};
use std::alloc::Global;
use std::sync::Wait;
use std::sync::atomic::AtomicU64;
use std::sync::atomic::Ordering::SeqCst;
use std::thread::{Threads, join};
use std::time::Duration;

// How often a worker at the gate looks whether another one came, a hundredth of a second at a time.
const LOOKS: u32 = 1000;

// How often a worker idles while it waits for a number.
const IDLES: u32 = 300;

/// A place outside the lock, at which workers wait for one another.
#[derive(Drop)]
struct Gate {
    arrived: AtomicU64,
}

impl Gate {
    // Whether two workers are here at once. It waits for ten seconds at most.
    fn pass<R: Wait>(&self, rt: &R) -> bool {
        self.arrived.fetch_add(1, SeqCst);
        self.arrived.wake_all();
        for _ in 0..LOOKS {
            if self.arrived.load(SeqCst) >= 2 {
                return true;
            }
            self.arrived.park_timeout(rt, 1, Duration::from_millis(10));
        }
        false
    }
}

// A worker takes a turn, and passes the gate after it. Whether it met the other one.
fn visit<R: Wait>(rt: &R, lock: &TurnLock<Tally>, seat: Seat, gate: &Gate) -> (Seat, bool)
    requires { IsOf lock.now seat }
    ensures { IsOf lock.now result.0 × (parts_of result.0 ≡ parts_of seat) }
{
    let seat = lock.leave(lock.enter(rt, seat));
    let met = gate.pass(rt);
    (seat, met)
}

/// Whether two workers, each of which passes a gate after its turn, meet at the gate. None is want of memory.
pub fn meets_outside<R: Threads + Wait + Sync>(rt: &R, alloc: Global) -> Option<bool> {
    let tally = Tally::new(alloc, 0, 0).ok()?;
    let Ok((lock, seat)) = TurnLock::new(alloc, tally, 2) else {
        return None;
    };
    let gate = Gate {
        arrived: AtomicU64::new(0),
    };
    let (one, two) = lock.split(seat);
    let within = &lock;
    let place = &gate;
    let ((one, first), (two, second)) = join(
        rt,
        move || -> (Seat, bool)
            requires { IsOf within.now one }
            ensures { IsOf within.entry.now result.0 × (parts_of result.0 ≡ parts_of one) }
        { visit(rt, within, one, place) },
        move || -> (Seat, bool)
            requires { IsOf within.now two }
            ensures { IsOf within.entry.now result.0 × (parts_of result.0 ≡ parts_of two) }
        { visit(rt, within, two, place) },
    );
    let seat = lock.join(one, two);
    let _tally = lock.close(seat);
    Some(first && second)
}

// Idles until the tally has a number. Whether it came to have one.
fn await_number<R: Wait>(rt: &R, lock: &TurnLock<Tally>, seat: Seat) -> (Seat, bool)
    requires { IsOf lock.now seat }
    ensures { IsOf lock.now result.0 × (parts_of result.0 ≡ parts_of seat) }
{
    let mut seat = seat;
    for _ in 0..IDLES {
        let held = lock.enter(rt, seat);
        let found = !held.value.numbers().is_empty();
        seat = lock.leave(held);
        if found {
            return (seat, true);
        }
        seat = lock.idle(rt, seat);
    }
    (seat, false)
}

// Adds a number after a fiftieth of a second. Whether there was memory.
fn add_later<R: Wait>(rt: &R, lock: &TurnLock<Tally>, seat: Seat) -> (Seat, bool)
    requires { IsOf lock.now seat }
    ensures { IsOf lock.now result.0 × (parts_of result.0 ≡ parts_of seat) }
{
    AtomicU64::new(0).park_timeout(rt, 0, Duration::from_millis(20));
    let mut held = lock.enter(rt, seat);
    let added = held.value.add(1).is_ok();
    (lock.leave(held), added)
}

/// Whether a worker that idles between its turns finds what another one added. None is want of memory.
pub fn finds_by_idling<R: Threads + Wait + Sync>(rt: &R, alloc: Global) -> Option<bool> {
    let tally = Tally::new(alloc, 0, 0).ok()?;
    let Ok((lock, seat)) = TurnLock::new(alloc, tally, 2) else {
        return None;
    };
    let (one, two) = lock.split(seat);
    let within = &lock;
    let ((one, found), (two, added)) = join(
        rt,
        move || -> (Seat, bool)
            requires { IsOf within.now one }
            ensures { IsOf within.entry.now result.0 × (parts_of result.0 ≡ parts_of one) }
        { await_number(rt, within, one) },
        move || -> (Seat, bool)
            requires { IsOf within.now two }
            ensures { IsOf within.entry.now result.0 × (parts_of result.0 ≡ parts_of two) }
        { add_later(rt, within, two) },
    );
    let seat = lock.join(two, one);
    let _tally = lock.close(seat);
    Some(found && added)
}
