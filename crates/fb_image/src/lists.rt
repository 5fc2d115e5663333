//! The lists of an image's bytes. Each reader gives what stands at the front, and the bytes after it.

ghost use Rattle.std.specs.Prelude.{◌≡◌};
ghost use Rattle.fb_image.specs.Answers.{Gives};
ghost use Rattle.fb_image.specs.Format.{after_cell, after_shape, after_line};
ghost use Rattle.fb_image.specs.Reading.{many_at, no_more, code_at, entry_at, cell_at, shape_at, literal_at, line_at};

use crate::fault::ReadErr;
use crate::fields::{CELL, align, cell, entry, line, literal, size, word};
use crate::image::{CodeWords, Entries, Shapes};
use crate::literals::Literals;
use fb_base::{Cells, Lines, Sequence, Shape};
use std::alloc::Global;

/// So many code words.
pub fn code_of(alloc: Global, count: u32, bytes: &[u8]) -> Result<(CodeWords, &[u8]), ReadErr>
    ensures { Gives (λ x. (x.0, x.1.now)) result (many_at code_at no_more 0 count bytes.now) }
{
    let mut code = Sequence::new(alloc);
    let mut rest = bytes;
    for _ in 0..count {
        let (next, after) = word(rest)?;
        code.add(next)?;
        rest = after;
    }
    Ok((code, rest))
}

/// The first words of so many procedures, among so many code words.
pub fn entries_of(
    alloc: Global,
    words: u32,
    count: u32,
    bytes: &[u8],
) -> Result<(Entries, &[u8]), ReadErr>
    ensures { Gives (λ x. (x.0, x.1.now)) result (many_at (entry_at words) no_more 0 count bytes.now) }
{
    let mut entries = Sequence::new(alloc);
    let mut rest = bytes;
    for _ in 0..count {
        let (next, after) = entry(words, rest)?;
        entries.add(next)?;
        rest = after;
    }
    Ok((entries, rest))
}

fn cells_of(alloc: Global, size: u32, count: u32, bytes: &[u8]) -> Result<(Cells, &[u8]), ReadErr>
    ensures { Gives (λ x. (x.0, x.1.now)) result (many_at (cell_at size) after_cell 0 count bytes.now) }
{
    let mut cells = Cells::new(alloc);
    let mut low = 0;
    let mut rest = bytes;
    for _ in 0..count {
        let (next, after) = cell(size, low, rest)?;
        cells.add(next)?;
        low = next + CELL;
        rest = after;
    }
    Ok((cells, rest))
}

/// A shape of at least so many bytes.
#[tactic(auto, unfolding(crate::specs::Reading::shape_at))]
fn shape_of(alloc: Global, least: u32, bytes: &[u8]) -> Result<(Shape, &[u8]), ReadErr>
    ensures { Gives (λ x. (x.0, x.1.now)) result (shape_at least bytes.now) }
{
    let (size, rest) = size(least, bytes)?;
    let (align, rest) = align(size, rest)?;
    let (count, rest) = word(rest)?;
    let (cells, rest) = cells_of(alloc, size, count, rest)?;
    let shape = Shape {
        size: u64::from(size),
        align: u64::from(align),
        cells,
    };
    Ok((shape, rest))
}

/// So many shapes, of which the first may have no bytes.
pub fn shapes_of(alloc: Global, count: u32, bytes: &[u8]) -> Result<(Shapes, &[u8]), ReadErr>
    ensures { Gives (λ x. (x.0, x.1.now)) result (many_at shape_at after_shape 0 count bytes.now) }
{
    let mut shapes = Sequence::new(alloc);
    let mut least = 0;
    let mut rest = bytes;
    for _ in 0..count {
        let (next, after) = shape_of(alloc, least, rest)?;
        shapes.add(next)?;
        least = 1;
        rest = after;
    }
    Ok((shapes, rest))
}

/// So many literals.
pub fn literals_of(alloc: Global, count: u32, bytes: &[u8]) -> Result<(Literals, &[u8]), ReadErr>
    ensures { Gives (λ x. (x.0, x.1.now)) result (many_at literal_at no_more 0 count bytes.now) }
{
    // A literal takes at least the four bytes of its length, so that there are no more than this.
    let most = (bytes.len() / 4).min(count as usize);
    let mut literals = Literals::with_room(alloc, most)?;
    let mut rest = bytes;
    for _ in 0..count {
        let (next, after) = literal(rest)?;
        literals.add(next)?;
        rest = after;
    }
    Ok((literals, rest))
}

/// So many lines, among so many code words.
pub fn lines_of(
    alloc: Global,
    words: u32,
    count: u32,
    bytes: &[u8],
) -> Result<(Lines, &[u8]), ReadErr>
    ensures { Gives (λ x. (x.0, x.1.now)) result (many_at (line_at words) after_line 0 count bytes.now) }
{
    let mut lines = Sequence::new(alloc);
    let mut low = 0;
    let mut rest = bytes;
    for _ in 0..count {
        let (next, after) = line(words, low, rest)?;
        lines.add(next)?;
        low = u64::from(next.index) + 1;
        rest = after;
    }
    Ok((lines, rest))
}
