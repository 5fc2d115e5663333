//! How long it takes to join two strings, and to store and release one with few and with many live strings.
ghost use Rattle.std.specs.Prelude.{◌≡◌, IfSome};
ghost use Rattle.fb_base.specs.Shapes.{IsShape};
ghost use Rattle.text_calls.specs.Strings.{AreKept};

use fb_base::{Cells, Shape};
use fb_image::Literals;
use places::{Form, Memory};
use std::alloc::Global;
use std::io;
use std::time::{Clock, Instant};
use str_heap::Heap;
use text_calls::laws::strings_stay;
use text_calls::text_call;

// The numbers of StrDrop, StrCat and StrSpace.
const DROP: u8 = 11;

const CAT: u8 = 14;

const SPACE: u8 = 29;

// The cells of the first place.
const A: u64 = 0x1_0000_0000;

const B: u64 = A + 24;

const C: u64 = A + 48;

// One cell.
fn shape(alloc: Global) -> Option<Shape>
    ensures { IfSome result (IsShape 0) }
{
    let mut cells = Cells::new(alloc);
    cells.add(0).ok()?;
    Some(Shape {
        size: 24,
        align: 8,
        cells,
    })
}

// A memory with a place of three cells that aren't alive, if there is room for it.
fn three_cells(alloc: Global, heap: &Heap) -> Option<Memory>
    ensures { IfSome result (λ mem. AreKept mem heap.now) }
{
    strings_stay();
    let shape = shape(alloc)?;
    let mut mem = Memory::new(alloc);
    match mem.make(&shape, 3, Form::Many) {
        Ok(_) => Some(mem),
        Err(_) => None,
    }
}

// Makes two strings of so many spaces.
fn make_two(mem: &mut Memory, heap: &mut Heap, literals: &Literals, bytes: u64)
    requires { AreKept mem.old heap.old }
    ensures { AreKept mem.new heap.new }
{
    let _ = text_call(mem, heap, SPACE, [A, bytes, 0, 0], literals);
    let _ = text_call(mem, heap, SPACE, [B, bytes, 0, 0], literals);
}

// Joins the two strings so often, and drops what was made. Gives how often it was made.
fn join(mem: &mut Memory, heap: &mut Heap, literals: &Literals, rounds: u64) -> u64
    requires { AreKept mem.old heap.old }
    ensures { AreKept mem.new heap.new }
{
    let mut done = 0u64;
    for _round in 0..rounds {
        if text_call(mem, heap, CAT, [C, A, B, 0], literals).is_ok() {
            done = done.wrapping_add(1);
        }
        let _ = text_call(mem, heap, DROP, [C, 0, 0, 0], literals);
    }
    done
}

// Stores so many strings of 24 bytes, and gives how many were stored.
fn fill(heap: &mut Heap, count: u64) -> u64 {
    let mut done = 0u64;
    for _round in 0..count {
        if heap.store(b"twenty-four bytes of it.").is_ok() {
            done = done.wrapping_add(1);
        }
    }
    done
}

// Stores and releases a string of 16 bytes so often, and gives how often it was stored.
fn store_and_release(heap: &mut Heap, rounds: u64) -> u64 {
    let mut done = 0u64;
    for _round in 0..rounds {
        if let Ok(desc) = heap.store(b"sixteen bytes it") {
            heap.release(desc);
            done = done.wrapping_add(1);
        }
    }
    done
}

fn print_joins(
    rt: &(impl Clock + Print),
    alloc: Global,
    bytes: u64,
    rounds: u64,
) -> io::Result<()> {
    let literals = Literals::new(alloc);
    let mut heap = Heap::new(alloc);
    let Some(mut mem) = three_cells(alloc, &heap) else {
        return println!(rt; "no memory");
    };
    make_two(&mut mem, &mut heap, &literals, bytes);
    let start = Instant::now(rt)?;
    let done = join(&mut mem, &mut heap, &literals, rounds);
    let taken = start.elapsed(rt)?.as_nanos() / u128::from(rounds.max(1));
    println!(rt;
        "strings of {bytes} bytes: {taken} nanoseconds to join two and drop what is made ({done} joined)"
    )
}

fn print_stores(
    rt: &(impl Clock + Print),
    alloc: Global,
    count: u64,
    rounds: u64,
) -> io::Result<()> {
    let mut heap = Heap::new(alloc);
    let live = fill(&mut heap, count);
    let start = Instant::now(rt)?;
    let done = store_and_release(&mut heap, rounds);
    let taken = start.elapsed(rt)?.as_nanos() / u128::from(rounds.max(1));
    println!(rt;
        "{live} live strings: {taken} nanoseconds to store a string of 16 bytes and release it ({done} stored)"
    )
}

/// Prints how long it takes to join strings of few bytes, and of so many, twice and four times as many; and to store one
/// beside few, and beside so many, twice and four times as many.
pub fn print_texts(rt: &(impl Clock + Print), alloc: Global) -> io::Result<()> {
    print_joins(rt, alloc, 16, 1_000_000)?;
    for bytes in [65_536, 131_072, 262_144] {
        print_joins(rt, alloc, bytes, 10_000)?;
    }
    for count in [1, 1_000, 25_000, 50_000, 100_000] {
        print_stores(rt, alloc, count, 1_000_000)?;
    }
    Ok(())
}

/// How often two strings were joined, and one was stored and released beside others. None is want of memory.
pub fn few_strings(alloc: Global) -> Option<(u64, u64)> {
    let literals = Literals::new(alloc);
    let mut heap = Heap::new(alloc);
    let mut mem = three_cells(alloc, &heap)?;
    make_two(&mut mem, &mut heap, &literals, 16);
    let joined = join(&mut mem, &mut heap, &literals, 10);
    let mut other = Heap::new(alloc);
    let live = fill(&mut other, 100);
    let stored = store_and_release(&mut other, live);
    Some((joined, stored))
}
