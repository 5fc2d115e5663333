//! The image of a program.

ghost use Rattle.std.specs.Prelude.{◌≡◌, ◌≤◌, ◌<◌, ◌^◌, ◌∷◌, [], length, IfOk};
ghost use Rattle.rv_select.specs.Image.{words_of, lines_from, no_shape, parts_of};
ghost use Rattle.rv_select.specs.Layout.{Fits};

use crate::layout::selected_code;
use crate::lined::LinedInst;
use fb_base::{Cells, LineAt, Lines, NoMemory, Sequence, Shape};
use fb_image::{CodeWords, Image, ImageParts, Literals, Shapes, build};
use mid_code::MidProgram;
use rv_isa::encode;
use std::alloc::Global;

/// Code of this many words or more can't be addressed.
const WORDS: u64 = 0x4000_0000;

/// The words of instructions.
fn code_words(alloc: Global, code: &[LinedInst]) -> Result<CodeWords, NoMemory>
    ensures { IfOk result (λ words. words ≡ words_of code.now) }
{
    let mut words = Sequence::new(alloc);
    for one in code {
        words.add(encode(one.inst))?;
    }
    Ok(words)
}

/// Where the line changes.
fn code_lines(alloc: Global, code: &[LinedInst]) -> Result<Lines, NoMemory>
    requires { length code.now < 2 ^ 30 }
    ensures { IfOk result (λ lines. lines ≡ lines_from 0 0 code.now) }
{
    let mut lines = Sequence::new(alloc);
    let mut before = 0;
    let mut index = 0;
    for one in code {
        let line = one.line.max(1);
        if line != before {
            lines.add(LineAt { index, line })?;
            before = line;
        }
        index += 1;
    }
    Ok(lines)
}

/// The shape of the place that all threads share, which has no bytes.
fn shared_shape(alloc: Global) -> Result<Shapes, NoMemory>
    ensures { IfOk result (λ shapes. shapes ≡ no_shape ∷ []) }
{
    let mut shapes = Sequence::new(alloc);
    shapes.add(Shape {
        size: 0,
        align: 1,
        cells: Cells::new(alloc),
    })?;
    Ok(shapes)
}

/// The image of a program that has a main module: its code by RV64IM, where its procedures begin, and its lines
/// (RISC-V Instruction Set Manual, volume I). `selection` says that it keeps what the program does.
///
/// The error is want of memory. It counts code that can't be addressed: a jump over 2^18 code words or more, 2^30 code
/// words or more, and a procedure with more than 262,112 registers.
pub fn select(alloc: Global, program: &MidProgram) -> Result<Image, NoMemory>
    requires { 1 ≤ length program.now.procs }
    ensures image { IfOk result (λ image. image ≡ parts_of program.now.procs) }
    ensures fits { IfOk result (λ image. Fits program.now.procs) }
{
    let selected = selected_code(alloc, program.procs.as_slice())?;
    let code = selected.code.as_slice();
    if code.len() as u64 >= WORDS {
        return Err(NoMemory);
    }
    Ok(build(ImageParts {
        code: code_words(alloc, code)?,
        shapes: shared_shape(alloc)?,
        literals: Literals::new(alloc),
        lines: code_lines(alloc, code)?,
        entries: selected.entries,
    }))
}
