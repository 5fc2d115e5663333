//! Laws on the layout of Types, each on a function with an empty body.
ghost use Rattle.std.specs.Prelude.{◌≡◌, ◌<◌, ℕ, List, Some, None, true, length, slice_get};
ghost use Rattle.fb_ast.specs.declared.part.Item.{Item};
ghost use Rattle.fb_ast.specs.declared.ty.Ty.{Ty};
ghost use Rattle.type_table.specs.declared.layout.Align.{Align};
ghost use Rattle.type_table.specs.declared.layout.Layout.{Layout};
ghost use Rattle.type_table.specs.declared.layout.Measure.{Measure};
ghost use Rattle.type_table.specs.declared.layout.Measure.TheVariants.{Fits, Waits};
ghost use Rattle.type_table.specs.declared.row.Row.{Row};
ghost use Rattle.type_table.specs.Cells.{CellsLieInOrder, type_cells};
ghost use Rattle.type_table.specs.Cycles.{Contains, HasField, in_itself};
ghost use Rattle.type_table.specs.Layouts.{
  known_of,
  measure_at,
  measured,
  measures,
  round_up,
  type_measure,
};
ghost use Rattle.type_table.specs.Offsets.{IsNext, IsWhole};
ghost use Rattle.type_table.specs.Tables.{IsLaidOut, fault_of, rows_of};

/// Rounding up gives the first multiple of the alignment.
pub fn next_multiples()
    ensures { (align : Align) (n : ℕ) → IsNext align n (round_up align n) }
{}

/// In a Type that is laid out each field begins at a multiple of its alignment, and behind the field before it; the last
/// one ends within the Type's size, which is a multiple of the Type's alignment and at most 16,777,216.
pub fn fields_lie_in_order()
    ensures { (known : List Measure) (row : Row) (layout : Layout) → type_measure known row ≡ Fits layout → IsWhole known row layout }
{}

/// The string cells of a value of a type that is laid out lie within it, each at a multiple of 8, and none overlaps the one
/// before it.
pub fn cells_lie_within()
    ensures { (rows : List Row) (ty : Ty) (layout : Layout) → measured (known_of rows) ty ≡ Fits layout → CellsLieInOrder 0 (type_cells rows (known_of rows) ty) layout.size }
{}

/// Where the Types of a module have no fault each of them is laid out.
pub fn all_laid_out()
    ensures { (items : List Item) (number : ℕ) → fault_of (rows_of items) ≡ None → number < length (rows_of items) → IsLaidOut (measure_at (known_of (rows_of items)) number) }
{}

/// A field of a module's Type that is of a Type is of one of the module's.
pub fn fields_are_of_types()
    ensures { (items : List Item) (number part : ℕ) (row : Row) → slice_get (rows_of items) number ≡ Some row → HasField row.fields part → part < length (rows_of items) }
{}

/// A Type that is found to contain itself does: it has a field without a fault of its own that is of itself, or of a Type
/// that contains it. So nothing else is a cause of TypeCycle.
pub fn circles_are_there()
    ensures { (rows : List Row) (number : ℕ) → in_itself rows number ≡ true → Contains rows number number }
{}

/// A Type that contains itself through fields without a fault of their own is found.
pub fn circles_are_found()
    ensures { (rows : List Row) (number : ℕ) → Contains rows number number → in_itself rows number ≡ true }
{}

/// A Type that contains itself through such fields is never laid out.
pub fn circles_have_no_layout()
    ensures { (rows : List Row) (n number : ℕ) → Contains rows number number → measure_at (measures rows n) number ≡ Waits }
{}
