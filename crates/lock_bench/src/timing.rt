//! How long turns take.
ghost use Rattle.commit_lock.specs.Meanings.{parts_of, IsOf};
ghost use Rattle.std.specs.Prelude.{◌≡◌, ◌<◌, ◌≤◌};

use crate::tally::Tally;
use crate::work;
use commit_lock::{Seat, TurnLock};
use std::alloc::Global;
use std::io;
use std::sync::Wait;
use std::thread::Threads;
use std::time::{Clock, Duration, Instant};

// Turns that nobody contends.
const ALONE: u64 = 1_000_000;

// Turns of all workers together.
const TOGETHER: u32 = 200_000;

const SECOND: u64 = 1_000_000_000;

fn nanoseconds(time: Duration) -> u64 {
    time.as_secs()
        .saturating_mul(SECOND)
        .saturating_add(u64::from(time.subsec_nanos()))
}

// So many turns in which nothing is done.
fn pass_turns<R: Wait>(rt: &R, lock: &TurnLock<Tally>, seat: Seat, turns: u64) -> Seat
    requires { IsOf lock.now seat }
    ensures { IsOf lock.now result × (parts_of result ≡ parts_of seat) }
{
    let mut seat = seat;
    for _ in 0..turns {
        seat = lock.leave(lock.enter(rt, seat));
    }
    seat
}

/// The nanoseconds of one turn that nobody contends, 0 at want of memory.
pub fn one_turn<R: Wait + Clock>(rt: &R, alloc: Global) -> io::Result<u64> {
    let Ok(tally) = Tally::new(alloc, 0, 0) else {
        return Ok(0);
    };
    let start = Instant::now(rt)?;
    let Ok((lock, seat)) = TurnLock::new(alloc, tally, 1) else {
        return Ok(0);
    };
    let seat = pass_turns(rt, &lock, seat, ALONE);
    let _tally = lock.close(seat);
    Ok(nanoseconds(start.elapsed(rt)?) / ALONE)
}

/// The turns of a second, where so many workers add numbers to a tally.
pub fn turns_a_second<R: Threads + Wait + Clock + Sync>(
    rt: &R,
    alloc: Global,
    workers: u32,
) -> io::Result<u64>
    requires { 1 ≤ workers }
{
    let start = Instant::now(rt)?;
    let _ = work::tally_of(rt, alloc, 0, workers, TOGETHER / workers);
    let time = nanoseconds(start.elapsed(rt)?).max(1);
    Ok(u64::from(TOGETHER) * SECOND / time)
}
