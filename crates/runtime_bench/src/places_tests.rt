//! Each call of guest memory and each refusal, as one table a memory.
ghost use Rattle.std.specs.Prelude.{◌≡◌, ◌≤◌, IfOk};
ghost use Rattle.fb_base.specs.Shapes.{IsShape};

use fb_base::{Cells, Desc, NoMemory, Shape};
use places::{Cell, Form, MakeErr, Memory};
use std::alloc::Global;
use std::process::Abort;
use std::test::Fail;

// A call, with its address first.
#[derive(Clone, Copy)]
enum Act {
    Make(u64, Form),
    FreeScope(u64),
    BeginFree(u64, Form),
    Free(u64),
    Close(u64, u64),
    Live(u64, u64),
    Read(u64, u8),
    Write(u64, u8, u64),
    Cell(u64),
    SetCell(u64, bool),
    AliveCell(u64, u64),
}

use Act::{AliveCell, BeginFree, Close, Free, FreeScope, Live, Make, Read, SetCell, Write};
use Form::{Many, One, Scope};

// The first addresses of the first places.
const A: u64 = 0x1_0000_0000;

const B: u64 = 0x2_0000_0000;

const C: u64 = 0x3_0000_0000;

const D: u64 = 0x4_0000_0000;

// Bytes without cells.
fn plain(alloc: Global, size: u64) -> Shape
    requires { size ≤ 16777216 }
    ensures { IsShape 0 result }
{
    Shape {
        size,
        align: 1,
        cells: Cells::new(alloc),
    }
}

// Eight bytes, a cell, and eight bytes.
fn with_cell(alloc: Global) -> Result<Shape, NoMemory>
    ensures { IfOk result (IsShape 0) }
{
    let mut cells = Cells::new(alloc);
    cells.add(8)?;
    Ok(Shape {
        size: 40,
        align: 8,
        cells,
    })
}

fn cell(alive: bool) -> Cell {
    Cell {
        alive,
        desc: Desc {
            place: 7,
            length: 8,
            size: 9,
        },
    }
}

// A call that was done and has no answer gives 0; one that was refused, nothing.
fn done(is_done: bool) -> Option<u64> {
    if is_done { Some(0) } else { None }
}

// The same of a call with a test before it; 999 where they say different things.
fn told(can: bool, is_done: bool) -> Option<u64> {
    if can == is_done {
        done(is_done)
    } else {
        Some(999)
    }
}

// What a call answers.
fn answer(memory: &mut Memory, shape: &Shape, act: Act) -> Option<u64>
    requires { IsShape 0 shape.now }
{
    match act {
        Make(count, form) => {
            if count == 0 || memory.next() >= 0x4000_0000 {
                return None;
            }
            memory.make(shape, count, form).ok()
        }
        FreeScope(addr) => told(memory.can_free_scope(addr), memory.free_scope(addr).is_ok()),
        BeginFree(addr, form) => memory.begin_free(addr, shape, form).ok(),
        Free(addr) => told(memory.can_free(addr), memory.free(addr).is_ok()),
        Close(addr, len) => told(memory.can_close(addr, len), memory.close(addr, len).is_ok()),
        Live(addr, len) => done(memory.live(addr, len)),
        Read(addr, width) => match width {
            1 | 2 | 4 | 8 => memory.read(addr, width),
            _ => None,
        },
        Write(addr, width, value) => match width {
            1 | 2 | 4 | 8 => done(memory.write(addr, width, value).is_some()),
            _ => None,
        },
        Act::Cell(addr) => match memory.cell(addr) {
            Some(cell) => Some((cell.alive as u64 * 10).saturating_add(cell.desc.length)),
            None => None,
        },
        SetCell(addr, alive) => done(memory.set_cell(addr, cell(alive)).is_some()),
        AliveCell(addr, from) => memory.alive_cell(addr, from),
    }
}

fn check(rt: &impl Abort, alloc: Global, shape: &Shape, table: &[(Act, Option<u64>)])
    requires { IsShape 0 shape.now }
{
    let mut memory = Memory::new(alloc);
    let mut row = 0u64;
    for (act, expected) in table {
        row = row.saturating_add(1);
        assert_eq!(rt; answer(&mut memory, shape, *act), *expected, "row {row}");
    }
}

#[test]
fn bytes_and_cells(rt: HostRuntime) -> Result<(), Fail> {
    let shape = with_cell(rt.alloc())?;
    check(
        &rt,
        rt.alloc(),
        &shape,
        &[
            (Read(A, 1), None),
            (Make(2, Scope), Some(A)),
            (Write(A, 8, 0x0102_0304_0506_0708), Some(0)),
            (Read(A + 4, 4), Some(0x0102_0304)),
            (Read(A + 1, 2), Some(0x0607)),
            (Write(A + 2, 2, 0x1_abcd), Some(0)),
            (Read(A, 8), Some(0x0102_0304_abcd_0708)),
            (Read(A + 7, 1), Some(1)),
            // an access that a cell stands in, and one across the place's end
            (Read(A + 1, 8), None),
            (Write(A + 31, 1, 5), None),
            (Read(A + 73, 8), None),
            (Write(A + 79, 2, 1), None),
            (Read(A + 79, 1), Some(0)),
            (Read(A - 1, 2), None),
            // across the last byte of all
            (Read(u64::MAX, 2), None),
            (Write(u64::MAX - 3, 8, 1), None),
            (Live(u64::MAX, 2), None),
            (Live(A, u64::MAX), None),
            (Live(A, 80), Some(0)),
            (Live(A, 81), None),
            (Live(5, 0), Some(0)),
            (Act::Cell(A + 8), Some(0)),
            (Act::Cell(A + 9), None),
            (SetCell(A + 9, true), None),
            (AliveCell(A, 0), None),
            (SetCell(A + 48, true), Some(0)),
            (Act::Cell(A + 48), Some(18)),
            (AliveCell(A, 48), Some(A + 48)),
            (AliveCell(A, 49), None),
            (AliveCell(A + 8, 0), None),
            (SetCell(A + 8, true), Some(0)),
            (AliveCell(A, 0), Some(A + 8)),
            (SetCell(A + 8, false), Some(0)),
            (AliveCell(A, 0), Some(A + 48)),
            // an alive cell isn't closed, a dead one is
            (Close(A + 40, 40), None),
            (Read(A + 40, 8), Some(0)),
            (Close(A + 32, 8), Some(0)),
            (Read(A + 39, 1), None),
            (Live(A + 39, 1), None),
            (Close(A + 79, 2), None),
            (Close(A - 1, 2), None),
            (Close(A, u64::MAX), None),
            (Close(B, 0), Some(0)),
            (Close(A + 8, 24), Some(0)),
            (Live(A + 31, 1), None),
            (Act::Cell(A + 8), Some(8)),
        ],
    );
    Ok(())
}

#[test]
fn places_are_freed_once(rt: HostRuntime) -> Result<(), Fail> {
    let shape = with_cell(rt.alloc())?;
    check(
        &rt,
        rt.alloc(),
        &shape,
        &[
            (Make(1, Scope), Some(A)),
            (Make(1, One), Some(B)),
            (Make(3, Many), Some(C)),
            (BeginFree(B, Many), None),
            (BeginFree(B + 8, One), None),
            (Free(B), None),
            (FreeScope(B), None),
            (BeginFree(B, One), Some(1)),
            (BeginFree(B, One), None),
            (Read(B, 8), Some(0)),
            (Free(B), Some(0)),
            (Free(B), None),
            (BeginFree(B, One), None),
            (Read(B, 1), None),
            (Live(B, 1), None),
            (SetCell(B + 8, true), None),
            (BeginFree(C, Many), Some(3)),
            (FreeScope(A + 8), None),
            (FreeScope(A), Some(0)),
            (FreeScope(A), None),
            (Read(A, 1), None),
            (Free(C), Some(0)),
            (Free(D), None),
            (Make(1, One), Some(D)),
            (FreeScope(u64::MAX), None),
        ],
    );
    Ok(())
}

#[test]
fn another_shape_is_not_freed(rt: HostRuntime) -> Result<(), Fail> {
    let shape = with_cell(rt.alloc())?;
    let forty = plain(rt.alloc(), 40);
    let mut memory = Memory::new(rt.alloc());
    assert_eq!(rt; answer(&mut memory, &shape, Make(1, One)), Some(A));
    assert_eq!(rt; answer(&mut memory, &forty, Make(1, One)), Some(B));
    assert_eq!(rt; answer(&mut memory, &forty, BeginFree(A, One)), None);
    assert_eq!(rt; answer(&mut memory, &shape, BeginFree(B, One)), None);
    let same = with_cell(rt.alloc())?;
    assert_eq!(rt; answer(&mut memory, &same, BeginFree(A, One)), Some(1));
    memory.facts();
    Ok(())
}

#[test]
fn a_place_may_have_no_bytes(rt: HostRuntime) -> Result<(), Fail> {
    let shape = plain(rt.alloc(), 0);
    check(
        &rt,
        rt.alloc(),
        &shape,
        &[
            (Make(1, Scope), Some(A)),
            (Read(A, 1), None),
            (Live(A, 0), Some(0)),
            (Close(A, 1), None),
            (Act::Cell(A), None),
            (AliveCell(A, 0), None),
            (Make(u64::MAX, Many), Some(B)),
            (BeginFree(B, Many), Some(u64::MAX)),
            (FreeScope(A), Some(0)),
        ],
    );
    Ok(())
}

#[test]
fn live_places_keep_the_limit(rt: HostRuntime) -> Result<(), Fail> {
    let large = plain(rt.alloc(), 16_777_216);
    let byte = plain(rt.alloc(), 1);
    let mut memory = Memory::new(rt.alloc());
    assert_eq!(rt; memory.make(&large, 5, One), Err(MakeErr::PlaceLimit));
    assert_eq!(rt;
        answer(&mut memory, &large, Make(0x1000_0000_0000, One)),
        None
    );
    assert_eq!(rt; answer(&mut memory, &large, Make(4, Many)), Some(A));
    assert_eq!(rt; answer(&mut memory, &byte, Make(1, One)), None);
    assert_eq!(rt; answer(&mut memory, &large, BeginFree(A, Many)), Some(4));
    assert_eq!(rt; answer(&mut memory, &byte, Make(1, One)), None);
    assert_eq!(rt; answer(&mut memory, &large, Free(A)), Some(0));
    assert_eq!(rt; answer(&mut memory, &byte, Make(1, One)), Some(B));
    Ok(())
}
