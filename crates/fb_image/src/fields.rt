//! The fields of an image's bytes. Each reader gives what stands at the front, and the bytes after it.

ghost use Rattle.std.specs.Prelude.{◌≡◌, ◌<◌, ◌≤◌, ◌==◌, ℕ, nat_lt, length, IfOk};
ghost use Rattle.fb_image.specs.Answers.{Gives};
ghost use Rattle.fb_image.specs.Reading.{word_at, word_such, entry_at, cell_at, fits_size, fits_align, fits_index, literal_at, line_at, some_at, counts_at, header_at};
ghost use Rattle.fb_base.specs.declared.ending.ImageWhy.TheVariants.{ShapeRule, LineRule};
ghost use Rattle.fb_image.specs.declared.fault.ReadErr.TheVariants.{At};

use crate::fault::ReadErr;
use fb_base::{ImageWhy, LineAt};

/// Shapes and literals have at most so many bytes.
pub const LARGEST: u32 = 16_777_216;

/// The bytes of a string cell.
pub const CELL: u64 = 24;

/// The number that the bytes FBRV spell.
const MAGIC: u32 = 0x5652_4246;

/// How many of each part there are.
#[derive(Clone, Copy)]
pub struct Counts {
    pub code: u32,
    pub entries: u32,
    pub shapes: u32,
    pub literals: u32,
    pub lines: u32,
}

/// The fault of a field that breaks a rule; the bytes begin at its first one.
fn broken(why: ImageWhy, bytes: &[u8]) -> ReadErr
    ensures { result ≡ At (length bytes.now) why }
{
    ReadErr::At {
        left: bytes.len(),
        why,
    }
}

/// A number.
#[tactic(auto, unfolding(crate::specs::Reading::word_at))]
pub fn word(bytes: &[u8]) -> Result<(u32, &[u8]), ReadErr>
    ensures { Gives (λ x. (x.0, x.1.now)) result (word_at bytes.now) }
{
    if bytes.len() < 4 {
        return Err(ReadErr::At {
            left: 0,
            why: ImageWhy::Short,
        });
    }
    let (front, rest) = bytes.split_at(4);
    let number = u32::from_le_bytes([front[0], front[1], front[2], front[3]]);
    Ok((number, rest))
}

/// A procedure's first word, which is one of so many.
pub fn entry(words: u32, bytes: &[u8]) -> Result<(u32, &[u8]), ReadErr>
    ensures { (low : ℕ) → Gives (λ x. (x.0, x.1.now)) result (entry_at words low bytes.now) }
{
    let (index, rest) = word(bytes)?;
    if index >= words {
        return Err(broken(ImageWhy::Entry, bytes));
    }
    Ok((index, rest))
}

/// The size of a shape of at least so many bytes.
pub fn size(least: u32, bytes: &[u8]) -> Result<(u32, &[u8]), ReadErr>
    ensures { Gives (λ x. (x.0, x.1.now)) result (word_such (fits_size least) ShapeRule bytes.now) }
{
    let (size, rest) = word(bytes)?;
    if size < least || size > LARGEST {
        return Err(broken(ImageWhy::ShapeRule, bytes));
    }
    Ok((size, rest))
}

/// An alignment, which divides the size.
pub fn align(size: u32, bytes: &[u8]) -> Result<(u32, &[u8]), ReadErr>
    ensures { Gives (λ x. (x.0, x.1.now)) result (word_such (fits_align size) ShapeRule bytes.now) }
{
    let (align, rest) = word(bytes)?;
    if !matches!(align, 1 | 2 | 4 | 8) || size % align != 0 {
        return Err(broken(ImageWhy::ShapeRule, bytes));
    }
    Ok((align, rest))
}

/// The offset of a string cell, which ends within the size and doesn't begin below a number.
pub fn cell(size: u32, low: u64, bytes: &[u8]) -> Result<(u64, &[u8]), ReadErr>
    ensures read { Gives (λ x. (x.0, x.1.now)) result (cell_at size low bytes.now) }
    ensures above { IfOk result (λ x. low ≤ x.0) }
{
    let (offset, rest) = word(bytes)?;
    let offset = u64::from(offset);
    if offset < low || offset % 8 != 0 || offset + CELL > u64::from(size) {
        return Err(broken(ImageWhy::ShapeRule, bytes));
    }
    Ok((offset, rest))
}

/// The bytes of a literal.
#[tactic(auto, unfolding(crate::specs::Reading::literal_at))]
pub fn literal(bytes: &[u8]) -> Result<(&[u8], &[u8]), ReadErr>
    ensures read { (low : ℕ) → Gives (λ x. (x.0.now, x.1.now)) result (literal_at low bytes.now) }
    ensures short { IfOk result (λ x. length x.0.now ≤ 16777216) }
{
    let (len, rest) = word(bytes)?;
    if len > LARGEST {
        return Err(broken(ImageWhy::LiteralRule, bytes));
    }
    let len = len as usize;
    if rest.len() < len {
        return Err(ReadErr::At {
            left: 0,
            why: ImageWhy::Short,
        });
    }
    let (text, rest) = rest.split_at(len);
    Ok((text, rest))
}

/// The index of a line among so many code words: 0 where low is 0, as for the first, and else at least low.
fn index(words: u32, low: u64, bytes: &[u8]) -> Result<(u32, &[u8]), ReadErr>
    ensures { Gives (λ x. (x.0, x.1.now)) result (word_such (fits_index words low) LineRule bytes.now) }
{
    let (index, rest) = word(bytes)?;
    if u64::from(index) < low || index >= words || (low == 0 && index != 0) {
        return Err(broken(ImageWhy::LineRule, bytes));
    }
    Ok((index, rest))
}

/// The number of a line, which are counted from 1.
fn number(bytes: &[u8]) -> Result<(u32, &[u8]), ReadErr>
    ensures { Gives (λ x. (x.0, x.1.now)) result (word_such (nat_lt 0) LineRule bytes.now) }
{
    let (number, rest) = word(bytes)?;
    if number == 0 {
        return Err(broken(ImageWhy::LineRule, bytes));
    }
    Ok((number, rest))
}

/// A line, with its index as above.
#[tactic(auto, unfolding(crate::specs::Reading::line_at))]
pub fn line(words: u32, low: u64, bytes: &[u8]) -> Result<(LineAt, &[u8]), ReadErr>
    ensures read { Gives (λ x. (x.0, x.1.now)) result (line_at words low bytes.now) }
    ensures within { IfOk result (λ x. x.0.index < words) }
{
    let (index, rest) = index(words, low, bytes)?;
    let (line, rest) = number(rest)?;
    Ok((LineAt { index, line }, rest))
}

/// A count of at least one.
fn some(bytes: &[u8]) -> Result<(u32, &[u8]), ReadErr>
    ensures { Gives (λ x. (x.0, x.1.now)) result (some_at bytes.now) }
{
    let (count, rest) = word(bytes)?;
    if count == 0 {
        return Err(broken(ImageWhy::Count, bytes));
    }
    Ok((count, rest))
}

#[tactic(auto, unfolding(crate::specs::Reading::counts_at))]
fn all_counts(bytes: &[u8]) -> Result<(Counts, &[u8]), ReadErr>
    ensures { Gives (λ x. (x.0, x.1.now)) result (counts_at bytes.now) }
{
    let (code, rest) = some(bytes)?;
    let (entries, rest) = some(rest)?;
    let (shapes, rest) = some(rest)?;
    let (literals, rest) = word(rest)?;
    let (lines, rest) = some(rest)?;
    let counts = Counts {
        code,
        entries,
        shapes,
        literals,
        lines,
    };
    Ok((counts, rest))
}

/// A word that has to be this number.
fn constant(expected: u32, why: ImageWhy, bytes: &[u8]) -> Result<(u32, &[u8]), ReadErr>
    ensures { Gives (λ x. (x.0, x.1.now)) result (word_such (λ n. n == expected) why bytes.now) }
{
    let (number, rest) = word(bytes)?;
    if number != expected {
        return Err(broken(why, bytes));
    }
    Ok((number, rest))
}

/// The magic bytes, the version and the counts.
#[tactic(auto, unfolding(crate::specs::Reading::header_at))]
pub fn header(bytes: &[u8]) -> Result<(Counts, &[u8]), ReadErr>
    ensures { Gives (λ x. (x.0, x.1.now)) result (header_at bytes.now) }
{
    let (_, rest) = constant(MAGIC, ImageWhy::Magic, bytes)?;
    let (_, rest) = constant(1, ImageWhy::Version, rest)?;
    all_counts(rest)
}
