ghost use Rattle.std.specs.Prelude.{◌≡◌, ◌+◌, ◌*◌, ◌≤◌, ◌<◌, ◌^◌};
ghost use Rattle.type_table.specs.Layouts.{
  bytes_of,
  round_up,
  larger,
  kind_align,
  kind_layout,
  end_of,
  with_part,
  put,
  closed,
};

use word64::Kind;

/// How many bytes a Type or a place has at most.
pub const GREATEST: u64 = 16_777_216;

/// An alignment: the number of bytes of which a value's address is a multiple.
#[derive(Clone, Copy)]
pub enum Align {
    One,
    Two,
    Four,
    Eight,
}

/// How the values of a type lie in memory: their size and alignment in bytes, and whether there is a String in them, or
/// an object that a constructor makes or a destructor ends.
#[derive(Clone, Copy)]
pub struct Layout {
    pub size: u32,
    pub align: Align,
    pub lives: bool,
}

/// What is known of a type's layout.
#[derive(Clone, Copy)]
pub enum Measure {
    /// Nothing yet: a Type in it isn't laid out.
    Waits,
    /// It has more than 16,777,216 bytes.
    Big,
    /// The layout.
    Fits(Layout),
}

/// How many bytes an alignment is.
pub fn bytes(align: Align) -> u64
    ensures { result ≡ bytes_of align }
{
    match align {
        Align::One => 1,
        Align::Two => 2,
        Align::Four => 4,
        Align::Eight => 8,
    }
}

/// The first multiple of an alignment from an offset on.
pub fn round_up(align: Align, n: u64) -> u64
    requires { n < 2 ^ 33 }
    ensures is { result ≡ round_up align n }
    ensures near { result ≤ n + 7 }
{
    match align {
        Align::One => n,
        Align::Two => (n + 1) / 2 * 2,
        Align::Four => (n + 3) / 4 * 4,
        Align::Eight => (n + 7) / 8 * 8,
    }
}

// The larger one of two alignments.
fn larger(one: Align, other: Align) -> Align
    ensures { result ≡ larger one other }
{
    if bytes(one) < bytes(other) {
        other
    } else {
        one
    }
}

/// The alignment of a whole number or Boolean, which is its size.
pub fn kind_align(kind: Kind) -> Align
    ensures { result ≡ kind_align kind }
{
    match kind {
        Kind::Byte | Kind::UByte | Kind::Boolean => Align::One,
        Kind::Short | Kind::UShort => Align::Two,
        Kind::Long | Kind::ULong => Align::Four,
        Kind::Integer | Kind::UInteger | Kind::LongInt | Kind::ULongInt => Align::Eight,
    }
}

/// The layout of a whole number or Boolean (FreeBASIC Manual, Standard Data Types).
pub fn kind_layout(kind: Kind) -> Layout
    ensures { result ≡ kind_layout kind }
{
    let align = kind_align(kind);
    Layout {
        size: bytes(align) as u32,
        align,
        lives: false,
    }
}

// The product of two numbers of 32 bits.
fn product(a: u32, b: u32) -> u64
    ensures is { result ≡ a * b }
    ensures small { b ≤ 16777217 → result < 2 ^ 57 }
{
    a as u64 * b as u64
}

// Behind what comes before, a row of elements that ends with this number, counted from 0.
fn with_part(before: Layout, last: u64, part: Layout) -> Measure
    ensures { result ≡ with_part before last part }
{
    if last > 16_777_216 {
        return Measure::Big;
    }
    let at = round_up(part.align, before.size as u64);
    let end = at + product(part.size, last as u32 + 1);
    if end > 16_777_216 {
        Measure::Big
    } else {
        Measure::Fits(Layout {
            size: end as u32,
            align: larger(before.align, part.align),
            lives: before.lives || part.lives,
        })
    }
}

/// What is known of a Type up to a field, from what is known up to the field before it, by the number of the field's
/// last element and what is known of its type.
pub fn put(before: Measure, last: u64, part: Measure) -> Measure
    ensures { result ≡ put before last part }
{
    match before {
        Measure::Waits => Measure::Waits,
        Measure::Big => match part {
            Measure::Waits => Measure::Waits,
            Measure::Big | Measure::Fits(_) => Measure::Big,
        },
        Measure::Fits(l) => match part {
            Measure::Waits => Measure::Waits,
            Measure::Big => Measure::Big,
            Measure::Fits(p) => with_part(l, last, p),
        },
    }
}

/// The measure of a Type from that of all its fields: the size is rounded up to the alignment.
pub fn closed(measure: Measure) -> Measure
    ensures { result ≡ closed measure }
{
    match measure {
        Measure::Waits => Measure::Waits,
        Measure::Big => Measure::Big,
        Measure::Fits(l) => {
            let size = round_up(l.align, l.size as u64);
            if size > 16_777_216 {
                Measure::Big
            } else {
                Measure::Fits(Layout {
                    size: size as u32,
                    align: l.align,
                    lives: l.lives,
                })
            }
        },
    }
}
