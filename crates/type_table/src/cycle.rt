ghost use Rattle.std.specs.Prelude.{◌≡◌, true, false, map, IfOk, IsTrue, length};
ghost use Rattle.type_table.specs.Cycles.{
  marked_at,
  leads,
  row_leads,
  led,
  in_itself,
  label_at,
  type_below,
  fields_below,
  labels_fall,
};

use crate::row::{Field, Row};
use fb_ast::Ty;
use fb_base::NoMemory;
use std::alloc::Global;

// Whether the Type of a number is marked.
fn marked_at(marks: &[bool], number: u32) -> bool
    ensures { result ≡ marked_at marks.now number }
{
    let number = number as usize;
    if number < marks.len() {
        marks[number]
    } else {
        false
    }
}

// Whether a type is the Type of this number, or one that is marked.
fn leads(target: u32, marks: &[bool], ty: &Ty) -> bool
    ensures { result ≡ leads target marks.now ty.now }
{
    match ty {
        Ty::Obj(number) => *number == target || marked_at(marks, *number),
        Ty::Num(_) | Ty::Str | Ty::Ptr(_) | Ty::AnyPtr => false,
    }
}

// Whether a field of a Type is of the Type of this number, or of one that is marked.
fn row_leads(target: u32, marks: &[bool], row: &Row) -> bool
    ensures { result ≡ row_leads target marks.now row.now }
{
    let fields = row.fields.as_slice();
    for field in fields {
        if leads(target, marks, &field.ty) {
            return true;
        }
    }
    false
}

// Which Types have the Type of this number in them, a step further than the marks say.
fn further(alloc: Global, target: u32, marks: &[bool], rows: &[Row]) -> Result<Vec<bool>, NoMemory>
    ensures { IfOk result (λ next. next.items ≡ map (row_leads target marks.now) rows.now) }
{
    Ok(
        rows.iter()
            .map(|row| row_leads(target, marks, row))
            .collect(alloc)?,
    )
}

// Whether the Type of a number contains itself, by rounds.
fn in_rounds(alloc: Global, rows: &[Row], target: u32) -> Result<bool, NoMemory>
    ensures { IfOk result (λ holds. holds ≡ in_itself rows.now target) }
{
    let mut marks = Vec::new(alloc);
    for _turn in 0..rows.len() {
        marks = further(alloc, target, marks.as_slice(), rows)?;
    }
    Ok(marked_at(marks.as_slice(), target))
}

fn label_at(labels: &[usize], number: usize) -> usize
    ensures { result ≡ label_at labels.now number }
{
    if number < labels.len() {
        labels[number]
    } else {
        0
    }
}

fn type_below(labels: &[usize], most: usize, ty: &Ty) -> bool
    ensures { result ≡ type_below labels.now most ty.now }
{
    match ty {
        Ty::Obj(number) => {
            if most < label_at(labels, *number as usize) {
                false
            } else {
                true
            }
        },
        Ty::Num(_) | Ty::Str | Ty::Ptr(_) | Ty::AnyPtr => true,
    }
}

// Whether the Types in fields have labels of at most so much.
fn fields_below(labels: &[usize], most: usize, fields: &[Field]) -> bool
    ensures { result ≡ fields_below labels.now most fields.now }
{
    for field in fields {
        if !type_below(labels, most, &field.ty) {
            return false;
        }
    }
    true
}

/// Whether no Type has one with a greater label in it.
pub fn labels_fall(labels: &[usize], rows: &[Row]) -> bool
    ensures { result ≡ labels_fall labels.now 0 rows.now }
{
    for i in 0..rows.len() {
        if !fields_below(labels, label_at(labels, i), rows[i].fields.as_slice()) {
            return false;
        }
    }
    true
}

// Whether the labels tell that the Type of a number doesn't contain itself.
fn is_above(labels: &[usize], number: u32, rows: &[Row]) -> bool
    ensures { IsTrue result → labels_fall labels.now 0 rows.now ≡ true → in_itself rows.now number ≡ false }
{
    let place = number as usize;
    if place >= rows.len() {
        return false;
    }
    let label = label_at(labels, place);
    if label == 0 {
        return false;
    }
    fields_below(labels, label - 1, rows[place].fields.as_slice())
}

/// Whether the Type of a number contains itself. Labels that fall spare the search.
pub fn in_itself(
    alloc: Global,
    rows: &[Row],
    labels: &[usize],
    fall: bool,
    target: u32,
) -> Result<bool, NoMemory>
    requires { fall ≡ labels_fall labels.now 0 rows.now }
    ensures { IfOk result (λ holds. holds ≡ in_itself rows.now target) }
{
    if fall && is_above(labels, target, rows) {
        return Ok(false);
    }
    in_rounds(alloc, rows, target)
}
