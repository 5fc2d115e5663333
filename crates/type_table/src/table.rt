ghost use Rattle.std.specs.Prelude.{◌≡◌, IfOk};
ghost use Rattle.type_table.specs.Cells.{shape_of};
ghost use Rattle.type_table.specs.Cycles.{labels_fall};
ghost use Rattle.type_table.specs.Layouts.{measured};
ghost use Rattle.type_table.specs.Offsets.{size_of, align_of, lives_of, field_offset};
ghost use Rattle.type_table.specs.Tables.{
  measure_fault,
  row_fault,
  first_fault,
  rows_of,
  Answers,
  row_number,
  in_32_bits,
  number_of,
};

use crate::cells::type_cells;
use crate::cycle::{in_itself, labels_fall};
use crate::labels::labels;
use crate::layout::{Measure, bytes};
use crate::measure::{measure_at, measured};
use crate::offset::field_offset;
use crate::plan::Laid;
use crate::row::Row;
use crate::walk::{Walk, type_names, walked};
use fb_ast::{Tree, Ty};
use fb_base::{Fault, FaultKind, NoMemory, Sequence, Shape, Span};
use sqlite_items::Items;
use std::alloc::Global;

/// The Types of a module in the order of the text, by which they are numbered from 0, and the layout of each.
#[derive(Drop)]
pub struct Table {
    pub rows: Sequence<Row>,
    pub known: Items<Measure>,
}

/// Why there is no table.
#[derive(Clone, Copy, Debug, PartialEq, Eq)]
pub enum TypeErr {
    /// Want of memory.
    NoMemory,
    /// The first fault of the Types in the order of the text.
    Fault(Fault),
}

impl From<NoMemory> for TypeErr {
    ghost use Rattle.type_table.specs.declared.table.TypeErr.TheVariants.{NoMemory as WantOfMemory};

    ghost from_gives = { λ _ e. e ≡ WantOfMemory };

    fn from(_: NoMemory) -> TypeErr {
        TypeErr::NoMemory
    }
}

// The fault of a Type's layout, which stands at its name.
fn measure_fault(
    alloc: Global,
    rows: &[Row],
    labels: &[usize],
    fall: bool,
    number: u32,
    measure: Measure,
    at: Span,
) -> Result<Option<Fault>, NoMemory>
    requires { fall ≡ labels_fall labels.now 0 rows.now }
    ensures { IfOk result (λ fault. fault ≡ measure_fault rows.now number measure at) }
{
    match measure {
        Measure::Fits(_) => Ok(None),
        Measure::Big => Ok(Some(Fault {
            kind: FaultKind::BigPlace,
            at,
        })),
        Measure::Waits => {
            if in_itself(alloc, rows, labels, fall, number)? {
                Ok(Some(Fault {
                    kind: FaultKind::TypeCycle,
                    at,
                }))
            } else {
                Ok(None)
            }
        },
    }
}

// The first fault of a Type, which has this number.
fn row_fault(
    alloc: Global,
    rows: &[Row],
    known: &[Measure],
    labels: &[usize],
    fall: bool,
    number: usize,
    row: &Row,
) -> Result<Option<Fault>, NoMemory>
    requires { fall ≡ labels_fall labels.now 0 rows.now }
    ensures { IfOk result (λ fault. fault ≡ row_fault rows.now known.now number row.now) }
{
    if number > 0xffff_ffff {
        return Err(NoMemory);
    }
    if row.twice {
        return Ok(Some(Fault {
            kind: FaultKind::Twice,
            at: row.name.at,
        }));
    }
    let measure = measure_at(known, number);
    match measure_fault(
        alloc,
        rows,
        labels,
        fall,
        number as u32,
        measure,
        row.name.at,
    )? {
        Some(fault) => Ok(Some(fault)),
        None => Ok(row.fault),
    }
}

// The first fault of all Types.
fn first_fault(alloc: Global, rows: &[Row], known: &[Measure]) -> Result<Option<Fault>, NoMemory>
    ensures { IfOk result (λ fault. fault ≡ first_fault rows.now known.now 0 rows.now) }
{
    let labels = labels(alloc, rows)?;
    let fall = labels_fall(labels.as_slice(), rows);
    for i in 0..rows.len() {
        if let Some(fault) = row_fault(alloc, rows, known, labels.as_slice(), fall, i, &rows[i])? {
            return Ok(Some(fault));
        }
    }
    Ok(None)
}

/// The table of a module's Types, or the first fault among them in the order of the text (FreeBASIC Manual, Type).
///
/// A fault at a Type's name goes before those of its members: Twice where a thing before has the name, TypeCycle where the
/// Type contains itself, BigPlace where it has more than 16,777,216 bytes. In its members a fault is Twice where a field
/// has the name of a member before or a procedure that of a field before; Unknown at a name that isn't visible; NotAType
/// at a name that is no Type's and at Any without Ptr; BadBounds at the first token of a bound that has no value, and of
/// the lower bound where it is above the upper one.
pub fn of(alloc: Global, tree: &Tree) -> Result<Table, TypeErr>
    ensures { Answers (rows_of tree.now.items) result }
{
    let items = tree.items.as_slice();
    let types = type_names(alloc, items)?;
    let walk = walked(alloc, types.as_slice(), items)?;
    let Walk {
        entries: _entries,
        rows,
    } = walk;
    let Laid { rows, known } = rows.laid();
    match first_fault(alloc, rows.as_slice(), known.as_slice())? {
        Some(fault) => Err(TypeErr::Fault(fault)),
        None => Ok(of_rows(rows, known)),
    }
}

// The table of Types that are laid out so.
fn of_rows(rows: Sequence<Row>, known: Vec<Measure>) -> Table
    ensures { result ≡ record { rows = rows; known = known.items } }
{
    Table {
        rows,
        known: Items::from_vec(known),
    }
}

// The number of the first Type of a name.
fn row_number(rows: &[Row], name: &[u8]) -> Option<usize>
    ensures { result ≡ row_number rows.now name.now }
{
    rows.iter().position(|row| row.name.text.bytes() == name)
}

// A number that has 32 bits.
fn in_32_bits(number: Option<usize>) -> Option<u32>
    ensures { result ≡ in_32_bits number }
{
    match number {
        None => None,
        Some(number) => {
            if number > 0xffff_ffff {
                None
            } else {
                Some(number as u32)
            }
        },
    }
}

impl Table {
    /// How many bytes a value of a type has: 24 for a String, 8 for a pointer. 0 for a number that is no Type's.
    pub fn size(&self, ty: &Ty) -> u64
        ensures { result ≡ size_of (measured self.now.known ty.now) }
    {
        match measured(self.known.as_slice(), ty) {
            Measure::Fits(layout) => layout.size as u64,
            Measure::Waits | Measure::Big => 0,
        }
    }

    /// The alignment of a type in bytes: 1, 2, 4 or 8. 1 for a number that is no Type's.
    pub fn align(&self, ty: &Ty) -> u64
        ensures { result ≡ align_of (measured self.now.known ty.now) }
    {
        match measured(self.known.as_slice(), ty) {
            Measure::Fits(layout) => bytes(layout.align),
            Measure::Waits | Measure::Big => 1,
        }
    }

    /// Whether a type is String, or a Type with a constructor, a destructor, or a field that is a String or has lives.
    pub fn lives(&self, ty: &Ty) -> bool
        ensures { result ≡ lives_of (measured self.now.known ty.now) }
    {
        match measured(self.known.as_slice(), ty) {
            Measure::Fits(layout) => layout.lives,
            Measure::Waits | Measure::Big => false,
        }
    }

    /// The number of the Type of this name, in lower case: Types are counted from 0 in the order of the text. None where
    /// there is none.
    pub fn number_of(&self, name: &[u8]) -> Option<u32>
        ensures { result ≡ number_of self.now.rows name.now }
    {
        in_32_bits(row_number(self.rows.as_slice(), name))
    }

    /// At which byte a field begins within a value of the Type of a number. The fields are counted from 0 in the order of
    /// the text. None where there is no such Type, or it has no such field.
    pub fn offset(&self, number: u32, field: usize) -> Option<u64>
        ensures { result ≡ field_offset self.now.rows self.now.known number field }
    {
        field_offset(
            self.rows.as_slice(),
            self.known.as_slice(),
            number as usize,
            field,
        )
    }

    /// The shape of a place for a value of a type: its size, its alignment, and where its string cells begin, rising.
    /// The error is want of memory.
    pub fn shape(&self, alloc: Global, ty: &Ty) -> Result<Shape, NoMemory>
        ensures { IfOk result (λ shape. shape ≡ shape_of self.now.rows self.now.known ty.now) }
    {
        Ok(Shape {
            size: self.size(ty),
            align: self.align(ty),
            cells: type_cells(alloc, self.rows.as_slice(), self.known.as_slice(), ty)?,
        })
    }
}
