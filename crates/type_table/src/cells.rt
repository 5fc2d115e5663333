ghost use Rattle.std.specs.Prelude.{◌≡◌, ◌+◌, ◌*◌, ◌++◌, IfOk, OnOk};
ghost use Rattle.type_table.specs.Layouts.{measured};
ghost use Rattle.type_table.specs.Offsets.{size_of};
ghost use Rattle.type_table.specs.Cells.{repeated, value_cells, fields_cells, cells, type_cells};

use crate::layout::{Measure, put};
use crate::measure::{first_measure, last, measured};
use crate::offset::offset;
use crate::row::{Field, Row};
use fb_ast::Ty;
use fb_base::{Cells, NoMemory};
use std::alloc::Global;

// A sum of offsets. One above 2^64 counts as want of memory: no place has so many bytes.
fn sum(a: u64, b: u64) -> Result<u64, NoMemory>
    ensures { IfOk result (λ c. c ≡ a + b) }
{
    match a.checked_add(b) {
        Some(c) => Ok(c),
        None => Err(NoMemory),
    }
}

// The offset of an element.
fn element(at: u64, number: u64, size: u64) -> Result<u64, NoMemory>
    ensures { IfOk result (λ offset. offset ≡ at + number * size) }
{
    match number.checked_mul(size) {
        Some(before) => sum(at, before),
        None => Err(NoMemory),
    }
}

// How many bytes a type has.
pub fn size(measure: Measure) -> u64
    ensures { result ≡ size_of measure }
{
    match measure {
        Measure::Fits(layout) => layout.size as u64,
        Measure::Waits | Measure::Big => 0,
    }
}

// The cells of a value of a type at an offset, behind those that are there.
#[cycle(cells)]
fn put_value(
    rows: &[Row],
    known: &[Measure],
    depth: usize,
    ty: &Ty,
    at: u64,
    found: &mut Vec<u64>,
) -> Result<(), NoMemory>
    ensures { OnOk result (found.new.items ≡ found.old.items ++ value_cells (cells rows.now known.now depth) ty.now at) }
{
    match ty {
        Ty::Str => {
            found.push(at)?;
            Ok(())
        },
        Ty::Obj(number) => put_type(rows, known, depth, *number as usize, at, found),
        Ty::Num(_) | Ty::Ptr(_) | Ty::AnyPtr => Ok(()),
    }
}

// The cells of so many values of a type. Where the first one has none, none has, and the others aren't looked at.
#[cycle(cells)]
fn put_values(
    rows: &[Row],
    known: &[Measure],
    depth: usize,
    ty: &Ty,
    at: u64,
    count: u64,
    found: &mut Vec<u64>,
) -> Result<(), NoMemory>
    ensures { OnOk result (found.new.items ≡ found.old.items ++ repeated (value_cells (cells rows.now known.now depth) ty.now) (size_of (measured known.now ty.now)) at count) }
{
    let bytes = size(measured(known, ty));
    let before = found.len();
    for i in 0..count {
        let place = element(at, i, bytes)?;
        put_value(rows, known, depth, ty, place, found)?;
        if found.len() == before {
            return Ok(());
        }
    }
    Ok(())
}

// The cells of fields, behind what comes before.
#[cycle(cells)]
fn put_fields(
    rows: &[Row],
    known: &[Measure],
    depth: usize,
    first: Measure,
    fields: &[Field],
    base: u64,
    found: &mut Vec<u64>,
) -> Result<(), NoMemory>
    ensures { OnOk result (found.new.items ≡ found.old.items ++ fields_cells known.now (cells rows.now known.now depth) base first fields.now) }
{
    let mut before = first;
    for field in fields {
        let part = measured(known, &field.ty);
        let place = sum(base, offset(before, part))?;
        let end = last(field.range);
        let count = sum(end, 1)?;
        put_values(rows, known, depth, &field.ty, place, count, found)?;
        before = put(before, end, part);
    }
    Ok(())
}

// The cells of a value of the Type of this number.
#[cycle(cells)]
fn put_type(
    rows: &[Row],
    known: &[Measure],
    depth: usize,
    number: usize,
    at: u64,
    found: &mut Vec<u64>,
) -> Result<(), NoMemory>
    ensures { OnOk result (found.new.items ≡ found.old.items ++ cells rows.now known.now depth number at) }
{
    if depth == 0 || number >= rows.len() {
        return Ok(());
    }
    let row = &rows[number];
    let fields = row.fields.as_slice();
    put_fields(
        rows,
        known,
        depth - 1,
        first_measure(row),
        fields,
        at,
        found,
    )
}

// Offsets that rise, as cells. Those of a place do; that they don't counts as want of memory.
fn rising(alloc: Global, offsets: &[u64]) -> Result<Cells, NoMemory>
    ensures { IfOk result (λ cells. cells ≡ offsets.now) }
{
    let mut cells = Cells::new(alloc);
    let mut next = 0;
    for offset in offsets {
        if *offset < next {
            return Err(NoMemory);
        }
        cells.add(*offset)?;
        next = sum(*offset, 1)?;
    }
    Ok(cells)
}

/// The string cells of a value of a type.
pub fn type_cells(
    alloc: Global,
    rows: &[Row],
    known: &[Measure],
    ty: &Ty,
) -> Result<Cells, NoMemory>
    ensures { IfOk result (λ found. found ≡ type_cells rows.now known.now ty.now) }
{
    let mut found = Vec::new(alloc);
    put_value(rows, known, rows.len(), ty, 0, &mut found)?;
    rising(alloc, found.as_slice())
}
