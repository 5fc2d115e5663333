ghost use Rattle.std.specs.Prelude.{◌≡◌, true, is_some, Some};
ghost use Rattle.places.specs.Memory.{cell_at};
ghost use Rattle.places.specs.Place.{is_alive};
ghost use Rattle.text_calls.specs.declared.outcome.Outcome.TheVariants.{Makes, Sets, Puts, Drops};
ghost use Rattle.text_calls.specs.Strings.{AreKept, AllUsed, strings_of, dead};
ghost use Rattle.text_calls.specs.Outcomes.{IsAlive, Fits};
ghost use Rattle.text_calls.specs.Answers.{Answers};
ghost use Rattle.text_calls.specs.Carrying.{SetsOne};

use crate::outcome::{Outcome, TextErr};
use fb_base::Desc;
use places::{Cell, Memory};
use str_heap::Heap;

// A cell that isn't alive.
const DEAD: Cell = Cell {
    alive: false,
    desc: Desc {
        place: 0,
        length: 0,
        size: 0,
    },
};

// Sets the cell that begins at an address.
#[tactic(auto, using(crate::proofs::Cells::can_set))]
fn set_cell(mem: &mut Memory, a: u64, cell: Cell)
    requires { is_some (cell_at mem.old a) ≡ true }
    ensures { SetsOne mem.old mem.new a cell }
{
    mem.facts();
    match mem.set_cell(a, cell) {
        Some(()) => return,
        None => unreachable!(),
    }
}

// The alive cell that begins at an address.
fn alive_cell(mem: &Memory, a: u64) -> Cell
    requires { is_alive (cell_at mem.now a) ≡ true }
    ensures cell { cell_at mem.now a ≡ Some result }
    ensures alive { result.alive ≡ true }
{
    match mem.cell(a) {
        Some(cell) => cell,
        None => unreachable!(),
    }
}

// Makes a cell alive that isn't, with these bytes.
fn make(mem: &mut Memory, heap: &mut Heap, cell: u64, bytes: &[u8]) -> Result<u64, TextErr>
    requires kept { AreKept mem.old heap.old }
    requires dead { strings_of mem.old heap.old cell ≡ dead }
    ensures kept { AreKept mem.new heap.new }
    ensures used { AllUsed mem.old heap.old → AllUsed mem.new heap.new }
    ensures answers { Answers (Makes cell bytes.now) mem.old heap.old mem.new heap.new result }
{
    let desc = heap.store(bytes)?;
    set_cell(mem, cell, Cell { alive: true, desc });
    Ok(0)
}

// Gives an alive cell these bytes.
fn set(mem: &mut Memory, heap: &mut Heap, cell: u64, bytes: &[u8]) -> Result<u64, TextErr>
    requires kept { AreKept mem.old heap.old }
    requires alive { IsAlive (strings_of mem.old heap.old cell) }
    ensures kept { AreKept mem.new heap.new }
    ensures used { AllUsed mem.old heap.old → AllUsed mem.new heap.new }
    ensures answers { Answers (Sets cell bytes.now) mem.old heap.old mem.new heap.new result }
{
    let old = alive_cell(mem, cell);
    let desc = heap.assign(old.desc, bytes)?;
    set_cell(mem, cell, Cell { alive: true, desc });
    Ok(0)
}

// Sets a byte of an alive cell's string. It takes no memory.
fn put(mem: &Memory, heap: &mut Heap, cell: u64, index: u64, byte: u8) -> Result<u64, TextErr>
    requires kept { AreKept mem.now heap.old }
    requires fits { Fits (strings_of mem.now heap.old) (Puts cell index byte) }
    ensures kept { AreKept mem.now heap.new }
    ensures used { AllUsed mem.now heap.old → AllUsed mem.now heap.new }
    ensures answers { Answers (Puts cell index byte) mem.now heap.old mem.now heap.new result }
{
    let old = alive_cell(mem, cell);
    heap.set_byte(old.desc, index, byte);
    Ok(0)
}

// Makes an alive cell one that isn't, and gives back what its string takes. It takes no memory.
fn drop_string(mem: &mut Memory, heap: &mut Heap, cell: u64) -> Result<u64, TextErr>
    requires kept { AreKept mem.old heap.old }
    requires alive { IsAlive (strings_of mem.old heap.old cell) }
    ensures kept { AreKept mem.new heap.new }
    ensures used { AllUsed mem.old heap.old → AllUsed mem.new heap.new }
    ensures answers { Answers (Drops cell) mem.old heap.old mem.new heap.new result }
{
    let old = alive_cell(mem, cell);
    heap.release(old.desc);
    set_cell(mem, cell, DEAD);
    Ok(0)
}

/// Carries out what a call comes to, and gives its result. After an error all is as before.
pub fn carry_out(mem: &mut Memory, heap: &mut Heap, outcome: Outcome) -> Result<u64, TextErr>
    requires kept { AreKept mem.old heap.old }
    requires fits { Fits (strings_of mem.old heap.old) outcome }
    ensures kept { AreKept mem.new heap.new }
    ensures used { AllUsed mem.old heap.old → AllUsed mem.new heap.new }
    ensures answers { Answers outcome mem.old heap.old mem.new heap.new result }
{
    match outcome {
        Outcome::Trapped(kind) => Err(TextErr::Trap(kind)),
        Outcome::Gives(number) => Ok(number),
        Outcome::Makes { cell, bytes } => make(mem, heap, cell, bytes.bytes()),
        Outcome::Sets { cell, bytes } => set(mem, heap, cell, bytes.bytes()),
        Outcome::Puts { cell, index, byte } => put(mem, heap, cell, index, byte),
        Outcome::Drops { cell } => drop_string(mem, heap, cell),
    }
}
