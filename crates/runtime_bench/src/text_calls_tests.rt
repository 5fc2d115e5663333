//! Each string call and each refusal, and the longest string, as tables of calls.
ghost use Rattle.std.specs.Prelude.{◌≡◌, ◌≤◌, IfOk};
ghost use Rattle.fb_base.specs.Shapes.{IsShape};
ghost use Rattle.text_calls.specs.Strings.{AreKept};

use fb_base::{Cells, NoMemory, Shape, TrapKind};
use fb_image::Literals;
use places::{Form, Memory};
use std::alloc::Global;
use std::process::Abort;
use std::test::Fail;
use str_heap::Heap;
use text_calls::laws::strings_stay;
use text_calls::{TextErr, text_at, text_call};

// A call with its arguments, its answer, and the text of a cell afterwards.
type Row = (u8, [u64; 4], Result<u64, TextErr>, u64, &'static str);

// The cells of a place.
const A: u64 = 0x1_0000_0000;

const B: u64 = A + 24;

const C: u64 = A + 48;

const D: u64 = A + 72;

const E: u64 = A + 96;

// No cell, where a row speaks of none.
const NO: u64 = 0;

// A number below 0, as a word.
const MINUS_ONE: u64 = 0xffff_ffff_ffff_ffff;

const DONE: Result<u64, TextErr> = Ok(0);

const BAD_STRING: Result<u64, TextErr> = Err(TextErr::Trap(TrapKind::BadString));

const BAD_CODE: Result<u64, TextErr> = Err(TextErr::Trap(TrapKind::BadCode));

const STR_INDEX: Result<u64, TextErr> = Err(TextErr::Trap(TrapKind::StrIndex));

const STR_LIMIT: Result<u64, TextErr> = Err(TextErr::Trap(TrapKind::StrLimit));

// Each call and each refusal.
const CALLS: [Row; 71] = [
    (10, [A, 0, 0, 0], DONE, A, ""),
    (10, [A, 0, 0, 0], BAD_STRING, A, ""),
    (10, [A + 8, 0, 0, 0], BAD_STRING, NO, ""),
    (17, [A, 0, 0, 0], DONE, NO, ""),
    (12, [A, 9, 0, 0], BAD_STRING, NO, ""),
    (12, [B, 2, 0, 0], BAD_CODE, NO, ""),
    (12, [B, 0x1_0000_0000, 0, 0], BAD_CODE, NO, ""),
    (12, [B, 0, 0, 0], DONE, B, "abc"),
    (17, [B, 0, 0, 0], Ok(3), NO, ""),
    (17, [C, 0, 0, 0], BAD_STRING, NO, ""),
    (13, [C, D, 0, 0], BAD_STRING, NO, ""),
    (13, [C, B, 0, 0], DONE, C, "abc"),
    (13, [C, B, 0, 0], BAD_STRING, C, "abc"),
    (14, [D, B, C, 0], DONE, D, "abcabc"),
    (14, [D, B, C, 0], BAD_STRING, D, "abcabc"),
    (14, [E, E, C, 0], BAD_STRING, NO, ""),
    (14, [E, C, E, 0], BAD_STRING, NO, ""),
    (14, [E, B, B, 0], DONE, E, "abcabc"),
    (16, [E, D, 0, 0], DONE, NO, ""),
    (16, [B, D, 0, 0], Ok(MINUS_ONE), NO, ""),
    (16, [D, B, 0, 0], Ok(1), NO, ""),
    (15, [C, C, 0, 0], DONE, C, "abc"),
    (15, [C, D, 0, 0], DONE, C, "abcabc"),
    (15, [C, A, 0, 0], DONE, C, ""),
    (11, [E, 0, 0, 0], DONE, E, ""),
    (11, [E, 0, 0, 0], BAD_STRING, D, "abcabc"),
    (15, [E, C, 0, 0], BAD_STRING, NO, ""),
    (15, [C, E, 0, 0], BAD_STRING, C, ""),
    (33, [D, 1, 0x142, 0], DONE, D, "aBcabc"),
    (33, [D, 6, 0, 0], STR_INDEX, D, "aBcabc"),
    (33, [E, 0, 0, 0], BAD_STRING, NO, ""),
    (32, [D, 1, 0, 0], Ok(66), B, "abc"),
    (32, [D, 6, 0, 0], STR_INDEX, NO, ""),
    (32, [A, 0, 0, 0], STR_INDEX, NO, ""),
    (32, [D, MINUS_ONE, 0, 0], STR_INDEX, NO, ""),
    (18, [E, D, 2, 0], DONE, E, "aB"),
    (11, [E, 0, 0, 0], DONE, E, ""),
    (19, [E, D, 4, 0], DONE, E, "cabc"),
    (11, [E, 0, 0, 0], DONE, E, ""),
    (20, [E, D, 2, 3], DONE, E, "Bca"),
    (11, [E, 0, 0, 0], DONE, E, ""),
    (20, [E, D, 5, MINUS_ONE], DONE, E, "bc"),
    (11, [E, 0, 0, 0], DONE, E, ""),
    (21, [E, 0x130, 0, 0], DONE, E, "0"),
    (11, [E, 0, 0, 0], DONE, E, ""),
    (22, [D, 2, 0, 0], Ok(66), NO, ""),
    (22, [D, 7, 0, 0], DONE, NO, ""),
    (23, [E, MINUS_ONE, 0, 0], DONE, E, "-1"),
    (11, [E, 0, 0, 0], DONE, E, ""),
    (24, [E, MINUS_ONE, 0, 0], DONE, E, "18446744073709551615"),
    (25, [E, 0, 0, 0], Ok(MINUS_ONE), NO, ""),
    (11, [E, 0, 0, 0], DONE, E, ""),
    (26, [2, D, B, 0], Ok(4), NO, ""),
    (26, [1, D, A, 0], DONE, NO, ""),
    (26, [1, E, D, 0], BAD_STRING, NO, ""),
    (26, [1, D, E, 0], BAD_STRING, NO, ""),
    (12, [E, 1, 0, 0], DONE, E, " -7Zz "),
    (15, [C, E, 0, 0], DONE, C, " -7Zz "),
    (11, [E, 0, 0, 0], DONE, E, ""),
    (27, [E, C, 0, 0], DONE, E, " -7ZZ "),
    (11, [E, 0, 0, 0], DONE, E, ""),
    (28, [E, C, 0, 0], DONE, E, " -7zz "),
    (11, [E, 0, 0, 0], DONE, E, ""),
    (30, [E, C, 0, 0], DONE, E, "-7Zz "),
    (11, [E, 0, 0, 0], DONE, E, ""),
    (31, [E, C, 0, 0], DONE, E, " -7Zz"),
    (11, [E, 0, 0, 0], DONE, E, ""),
    (29, [E, 3, 0, 0], DONE, E, "   "),
    (11, [E, 0, 0, 0], DONE, C, " -7Zz "),
    (9, [A, 0, 0, 0], BAD_CODE, NO, ""),
    (34, [A, 0, 0, 0], BAD_CODE, NO, ""),
];

// The longest string, and one byte more.
const LONGEST: [Row; 9] = [
    (29, [A, 16_777_217, 0, 0], STR_LIMIT, NO, ""),
    (29, [A, 16_777_216, 0, 0], DONE, NO, ""),
    (17, [A, 0, 0, 0], Ok(16_777_216), NO, ""),
    (29, [B, MINUS_ONE, 0, 0], DONE, B, ""),
    (29, [C, 1, 0, 0], DONE, C, " "),
    (14, [D, A, C, 0], STR_LIMIT, D, ""),
    (14, [D, A, B, 0], DONE, NO, ""),
    (17, [D, 0, 0, 0], Ok(16_777_216), NO, ""),
    (16, [A, D, 0, 0], DONE, NO, ""),
];

// One cell.
fn one_cell(alloc: Global) -> Result<Shape, NoMemory>
    ensures { IfOk result (IsShape 0) }
{
    let mut cells = Cells::new(alloc);
    cells.add(0)?;
    Ok(Shape {
        size: 24,
        align: 8,
        cells,
    })
}

// A memory with a place of five cells, and a heap without strings.
fn five_cells(alloc: Global, heap: &Heap) -> Result<Memory, Fail>
    ensures { IfOk result (λ mem. AreKept mem heap.now) }
{
    strings_stay();
    let shape = one_cell(alloc)?;
    let mut mem = Memory::new(alloc);
    mem.make(&shape, 5, Form::Many)?;
    Ok(mem)
}

// Makes the calls of these rows one after another, and compares.
fn try_rows(rt: &impl Abort, mem: &mut Memory, heap: &mut Heap, literals: &Literals, rows: &[Row])
    requires { AreKept mem.old heap.old }
    ensures { AreKept mem.new heap.new }
{
    for row in rows {
        let (number, args, answer, cell, bytes) = *row;
        assert_eq!(rt; text_call(mem, heap, number, args, literals), answer);
        match text_at(mem, heap, cell) {
            Some(found) => assert_eq!(rt; found, bytes.as_bytes()),
            None => assert!(rt; bytes.is_empty()),
        }
    }
}

#[test]
fn each_call_answers(rt: HostRuntime) -> Result<(), Fail> {
    let alloc: Global = rt.alloc();
    let mut literals = Literals::new(alloc);
    literals.add(b"abc")?;
    literals.add(b" -7Zz ")?;
    let mut heap = Heap::new(alloc);
    let mut mem = five_cells(alloc, &heap)?;
    try_rows(&rt, &mut mem, &mut heap, &literals, &CALLS);
    Ok(())
}

#[test]
fn the_longest_string(rt: HostRuntime) -> Result<(), Fail> {
    let alloc: Global = rt.alloc();
    let literals = Literals::new(alloc);
    let mut heap = Heap::new(alloc);
    let mut mem = five_cells(alloc, &heap)?;
    try_rows(&rt, &mut mem, &mut heap, &literals, &LONGEST);
    Ok(())
}
