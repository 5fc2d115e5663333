ghost use Rattle.std.specs.Prelude.{◌≡◌};
ghost use Rattle.type_table.specs.Layouts.{
  last_of,
  measure_at,
  measured,
  first_measure,
  put_fields,
  type_measure,
};

use crate::layout::{Align, Layout, Measure, closed, kind_layout, put};
use crate::row::{Range, Row};
use fb_ast::Ty;
use word64::sub;

const POINTER: Layout = Layout {
    size: 8,
    align: Align::Eight,
    lives: false,
};

const STRING: Layout = Layout {
    size: 24,
    align: Align::Eight,
    lives: true,
};

/// The number of an array's last element, counted from 0; 0 for a single value.
pub fn last(range: Option<Range>) -> u64
    ensures { result ≡ last_of range }
{
    match range {
        None => 0,
        Some(range) => sub(range.high, range.low),
    }
}

/// What is known of the Type of a number.
pub fn measure_at(known: &[Measure], number: usize) -> Measure
    ensures { result ≡ measure_at known.now number }
{
    if number < known.len() {
        known[number]
    } else {
        Measure::Waits
    }
}

/// What is known of a type, by what is known of each Type.
pub fn measured(known: &[Measure], ty: &Ty) -> Measure
    ensures { result ≡ measured known.now ty.now }
{
    match ty {
        Ty::Num(kind) => Measure::Fits(kind_layout(*kind)),
        Ty::Str => Measure::Fits(STRING),
        Ty::Obj(number) => measure_at(known, *number as usize),
        Ty::Ptr(_) | Ty::AnyPtr => Measure::Fits(POINTER),
    }
}

/// What is known of a Type before its first field.
pub fn first_measure(row: &Row) -> Measure
    ensures { result ≡ first_measure row.now }
{
    match row.fault {
        Some(_) => Measure::Waits,
        None => Measure::Fits(Layout {
            size: 0,
            align: Align::One,
            lives: row.own,
        }),
    }
}

/// What is known of a Type, by what is known of each Type.
pub fn type_measure(known: &[Measure], row: &Row) -> Measure
    ensures { result ≡ type_measure known.now row.now }
{
    let mut measure = first_measure(row);
    let fields = row.fields.as_slice();
    for field in fields {
        measure = put(measure, last(field.range), measured(known, &field.ty));
    }
    closed(measure)
}
