//! Takes turns at a lock, in one thread and in several. Without an argument it says whether all went well; with one it
//! says how long it took.
#![tactic(auto)]

#[cfg(test)]
mod lock_tests;
mod meet;
mod tally;
mod timing;
mod work;

use std::alloc::Global;
use std::sync::Wait;
use std::thread::Threads;
use std::time::Clock;
use std::{env, io};

// Turns of each worker.
const ROUNDS: u32 = 1000;

// Whether each of so many workers added its number a thousand times, and each history began with what was seen.
fn adds_up<R: Threads + Wait + Sync>(rt: &R, alloc: Global, workers: u32) -> bool {
    if workers == 0 {
        return false;
    }
    match work::tally_of(rt, alloc, 7, workers, ROUNDS) {
        Some((tally, diary)) => {
            tally.name == 7 && tally.has_each(workers, ROUNDS) && diary.agrees_with(&tally)
        }
        None => false,
    }
}

fn print_times<R: Threads + Wait + Clock + Print + Sync>(rt: &R, alloc: Global) -> io::Result<()> {
    let turn = timing::one_turn(rt, alloc)?;
    println!(rt; "nanoseconds of a turn that nobody contends: {turn}")?;
    for workers in [1, 4, 16] {
        let turns = timing::turns_a_second(rt, alloc, workers)?;
        println!(rt; "turns a second with {workers} workers: {turns}")?;
    }
    Ok(())
}

fn main(rt: HostRuntime) -> io::Result<()> {
    if env::args(&rt)?.count() > 1 {
        return print_times(&rt, rt.alloc());
    }
    println!(rt; "one worker adds up: {}", adds_up(&rt, rt.alloc(), 1))?;
    println!(rt; "four workers add up: {}", adds_up(&rt, rt.alloc(), 4))?;
    let met = meet::meets_outside(&rt, rt.alloc()) == Some(true);
    println!(rt; "two workers meet outside the lock: {met}")?;
    let found = meet::finds_by_idling(&rt, rt.alloc()) == Some(true);
    println!(rt; "a worker that idles finds what another one added: {found}")
}
