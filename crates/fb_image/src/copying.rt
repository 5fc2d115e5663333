//! Copies of the parts of an image.

ghost use Rattle.std.specs.Prelude.{◌≡◌, IfOk};

use fb_base::{Cells, LineAt, Lines, NoMemory, Sequence, Shape};
use std::alloc::Global;

/// Equal words.
pub fn copy_words(alloc: Global, words: &Sequence<u32>) -> Result<Sequence<u32>, NoMemory>
    ensures { IfOk result (λ copy. copy ≡ words.now) }
{
    let mut copy = Sequence::new(alloc);
    for word in words.as_slice() {
        copy.add(*word)?;
    }
    Ok(copy)
}

/// Equal lines.
pub fn copy_lines(alloc: Global, lines: &Lines) -> Result<Lines, NoMemory>
    ensures { IfOk result (λ copy. copy ≡ lines.now) }
{
    let mut copy = Sequence::new(alloc);
    for line in lines.as_slice() {
        copy.add(*line)?;
    }
    Ok(copy)
}

fn copy_cells(alloc: Global, cells: &Cells) -> Result<Cells, NoMemory>
    ensures { IfOk result (λ copy. copy ≡ cells.now) }
{
    let mut copy = Cells::new(alloc);
    for offset in cells.as_slice() {
        copy.add(*offset)?;
    }
    Ok(copy)
}

fn copy_shape(alloc: Global, shape: &Shape) -> Result<Shape, NoMemory>
    ensures { IfOk result (λ copy. copy ≡ shape.now) }
{
    Ok(Shape {
        size: shape.size,
        align: shape.align,
        cells: copy_cells(alloc, &shape.cells)?,
    })
}

/// Equal shapes.
pub fn copy_shapes(alloc: Global, shapes: &Sequence<Shape>) -> Result<Sequence<Shape>, NoMemory>
    ensures { IfOk result (λ copy. copy ≡ shapes.now) }
{
    let mut copy = Sequence::new(alloc);
    for shape in shapes.as_slice() {
        copy.add(copy_shape(alloc, shape)?)?;
    }
    Ok(copy)
}
