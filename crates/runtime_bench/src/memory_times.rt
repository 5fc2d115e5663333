//! How long reads and writes of 8 bytes of guest memory take, with few and with many live places: of 100 of them at most,
//! which the processor's caches hold, and of all.
ghost use Rattle.std.specs.Prelude.{◌≡◌};
ghost use Rattle.fb_base.specs.Shapes.{IsShape};

use fb_base::{Cells, Shape};
use places::{Form, Memory};
use std::alloc::Global;
use std::io;
use std::time::{Clock, Instant};

// How often an access is done.
const ROUNDS: u64 = 10_000_000;

// A step from one number to another that visits the numbers in no order, and all of them where their count is no
// multiple of it.
const STRIDE: u64 = 7_919;

// How many places the caches hold.
const FEW: u64 = 100;

// Places of 64 bytes.
fn shape(alloc: Global) -> Shape
    ensures { IsShape 0 result }
{
    Shape {
        size: 64,
        align: 8,
        cells: Cells::new(alloc),
    }
}

// A memory with so many places, if there is room for them.
fn memory_of(alloc: Global, places: u64) -> Option<Memory> {
    let shape = shape(alloc);
    let mut memory = Memory::new(alloc);
    for _ in 0..places {
        if memory.next() >= 0x4000_0000 {
            return None;
        }
        memory.make(&shape, 1, Form::One).ok()?;
    }
    Some(memory)
}

// How many places are visited, and the step from one's number to the next one's.
#[derive(Clone, Copy)]
struct Visit {
    visited: u64,
    step: u64,
}

// At most so many of all places, evenly spread.
fn spread(places: u64, most: u64) -> Visit {
    let visited = places.min(most).max(1);
    Visit {
        visited,
        step: places / visited,
    }
}

// The address of a word in a place that is visited, by the number of a round.
fn address(round: u64, visit: Visit) -> u64 {
    let one = round.wrapping_mul(STRIDE) % visit.visited.max(1);
    let place = one.wrapping_mul(visit.step) % 0x4000_0000;
    (place + 1) * 0x1_0000_0000 + round % 8 * 8
}

// Writes so many words, each its round.
fn write_words(memory: &mut Memory, visit: Visit, rounds: u64) -> u64 {
    let mut done = 0u64;
    for round in 0..rounds {
        if memory.write(address(round, visit), 8, round).is_some() {
            done = done.wrapping_add(1);
        }
    }
    done
}

// Reads so many words, and adds them.
fn read_words(memory: &Memory, visit: Visit, rounds: u64) -> u64 {
    let mut sum = 0u64;
    for round in 0..rounds {
        if let Some(word) = memory.read(address(round, visit), 8) {
            sum = sum.wrapping_add(word);
        }
    }
    sum
}

// Prints how long a read and a write take.
fn print_visit(rt: &(impl Clock + Print), memory: &mut Memory, visit: Visit) -> io::Result<()> {
    let start = Instant::now(rt)?;
    let written = write_words(memory, visit, ROUNDS);
    let writing = start.elapsed(rt)?.as_nanos() / 10_000;
    let start = Instant::now(rt)?;
    let sum = read_words(memory, visit, ROUNDS);
    let reading = start.elapsed(rt)?.as_nanos() / 10_000;
    let visited = visit.visited;
    println!(rt;
        "  {visited} of them in no order: picoseconds for a read {reading}, for a write {writing} ({written} written, sum {sum})"
    )
}

fn print_times(rt: &(impl Clock + Print), alloc: Global, places: u64) -> io::Result<()> {
    let start = Instant::now(rt)?;
    let Some(mut memory) = memory_of(alloc, places) else {
        return println!(rt; "no memory for {places} places");
    };
    let made = start.elapsed(rt)?.as_nanos() / u128::from(places.max(1));
    println!(rt; "{places} places, {made} nanoseconds to make one")?;
    print_visit(rt, &mut memory, spread(places, FEW))?;
    if places > FEW {
        print_visit(rt, &mut memory, spread(places, places))?;
    }
    Ok(())
}

/// Prints how long accesses take among few places, and among so many, twice and four times as many.
pub fn print_memory(rt: &(impl Clock + Print), alloc: Global) -> io::Result<()> {
    for places in [1, 1_000, 250_000, 500_000, 1_000_000] {
        print_times(rt, alloc, places)?;
    }
    Ok(())
}

/// How many words were written to ten places, and what they add up to. None is want of memory.
pub fn few_words(alloc: Global) -> Option<(u64, u64)> {
    let mut memory = memory_of(alloc, 10)?;
    let all = spread(10, 10);
    let written = write_words(&mut memory, all, 80);
    Some((written, read_words(&memory, all, 80)))
}
