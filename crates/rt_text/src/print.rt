ghost use Rattle.std.specs.Prelude.{◌≡◌, ◌+◌, ◌<◌, ◌≤◌, ◌^◌, ◌++◌, ◌∷◌, [], length, replicate, IfOk};
ghost use Rattle.rt_text.specs.Print.{FitsColumn, printed, column_after};

use fb_base::{NoMemory, Text};
use memchr::memrchr;
use std::alloc::Global;
use text_functions::{signed_behind, unsigned_text};

/// What Print writes at once: a value, or what a comma or the line's end stands for.
#[derive(Debug, Drop)]
pub enum Item {
    /// A number of a signed type, as a 64-bit word.
    Signed(u64),
    /// A number of an unsigned type.
    Unsigned(u64),
    /// A Boolean.
    Truth(bool),
    /// A String.
    Bytes(Text),
    /// A comma: spaces up to the next column that 14 divides.
    Tab,
    /// The line's end.
    Line,
}

/// The bytes that Print writes for an item at a column, and the column after them (FreeBASIC Manual, Print). The column
/// is the number of bytes since the last byte 10; it is at most 2^62, and so is a String's length. The error is want of
/// memory.
pub fn item_bytes(alloc: Global, column: u64, item: Item) -> Result<(Text, u64), NoMemory>
    requires column { column ≤ 2 ^ 62 }
    requires fits { FitsColumn item }
    ensures bytes { IfOk result (λ answer. answer.0 ≡ printed column item) }
    ensures column { IfOk result (λ answer. answer.1 ≡ column_after column (printed column item)) }
{
    let text = printed(alloc, column, item)?;
    let after = column_after(column, text.bytes());
    Ok((text, after))
}

// The bytes of an item.
fn printed(alloc: Global, column: u64, item: Item) -> Result<Text, NoMemory>
    requires fits { FitsColumn item }
    ensures bytes { IfOk result (λ text. text ≡ printed column item) }
    ensures short { IfOk result (λ text. length text ≤ 2 ^ 62) }
{
    match item {
        Item::Signed(word) => signed_behind(alloc, b" ", word),
        Item::Unsigned(word) => unsigned_text(alloc, word),
        Item::Truth(true) => Text::of(alloc, b"true"),
        Item::Truth(false) => Text::of(alloc, b"false"),
        Item::Bytes(text) => Ok(text),
        Item::Tab => Text::of(alloc, spaces(14 - (column % 14) as usize)),
        Item::Line => Text::of(alloc, b"\n"),
    }
}

// So many spaces, at most 14.
fn spaces(count: usize) -> &'static [u8]
    requires { count ≤ 14 }
    ensures { result.now ≡ replicate count 32 }
{
    &b"              "[..count]
}

// The column after these bytes.
fn column_after(column: u64, bytes: &[u8]) -> u64
    requires { column + length bytes.now < 2 ^ 64 }
    ensures { result ≡ column_after column bytes.now }
{
    match memrchr(b'\n', bytes) {
        Some(last) => (bytes.len() - 1 - last) as u64,
        None => column + bytes.len() as u64,
    }
}
