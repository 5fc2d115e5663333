ghost use Rattle.std.specs.Prelude.{◌≡◌, Some};
ghost use Rattle.type_table.specs.Offsets.{offset_of, row_offset, field_offset};

use crate::layout::{Measure, put, round_up};
use crate::measure::{first_measure, last, measured};
use crate::row::Row;

/// The offset of a field behind what comes before.
pub fn offset(before: Measure, part: Measure) -> u64
    ensures { result ≡ offset_of before part }
{
    match before {
        Measure::Fits(before) => match part {
            Measure::Fits(part) => round_up(part.align, before.size as u64),
            Measure::Waits | Measure::Big => 0,
        },
        Measure::Waits | Measure::Big => 0,
    }
}

// The offset of a Type's field of this number.
fn row_offset(known: &[Measure], row: &Row, field: usize) -> Option<u64>
    ensures { result ≡ row_offset known.now field (Some row.now) }
{
    let mut left = field;
    let mut before = first_measure(row);
    let fields = row.fields.as_slice();
    for one in fields {
        let part = measured(known, &one.ty);
        if left == 0 {
            return Some(offset(before, part));
        }
        left -= 1;
        before = put(before, last(one.range), part);
    }
    None
}

/// The offset of a field of the Type of a number.
pub fn field_offset(rows: &[Row], known: &[Measure], number: usize, field: usize) -> Option<u64>
    ensures { result ≡ field_offset rows.now known.now number field }
{
    if number < rows.len() {
        row_offset(known, &rows[number], field)
    } else {
        None
    }
}
