ghost use Rattle.std.specs.Prelude.{◌≡◌, IfErr, IfOk};
ghost use Rattle.fb_top.specs.Compiling.{IsCompiled, IsRefusal};

use fb_base::{Fault, FaultKind, NoMemory, Span};
use fb_image::Image;
use first_language::read_program;
use first_lowering::lower;
use rv_select::select;
use std::alloc::Global;

/// Why there is no code.
#[derive(Debug, Drop)]
pub enum CompileErr {
    /// Memory ran out.
    NoMemory,
    /// The text isn't one of the language; its first fault.
    Fault(Fault),
}

impl From<NoMemory> for CompileErr {
    ghost use Rattle.std.specs.Prelude.{◌≡◌};
    ghost use Rattle.fb_top.specs.declared.compiler.CompileErr.TheVariants as errors;

    ghost from_gives = { λ _ e. e ≡ errors.NoMemory };

    fn from(_: NoMemory) -> CompileErr {
        CompileErr::NoMemory
    }
}

/// Compiles a text of the small language: reads it, brings it down to middle code, and selects instructions of RV64IM.
///
/// The code computes at run time; nothing is computed here but constants' instructions. `Fault` is OutOfProfile at 1:1,
/// exactly where the text isn't one of the language. Code that is too long for its jumps counts as want of memory.
pub fn compile(alloc: Global, text: &[u8]) -> Result<Image, CompileErr>
    ensures compiled { IfOk result (λ image. IsCompiled text.now image) }
    ensures refused { IfErr result (λ err. IsRefusal text.now err) }
{
    match read_program(alloc, text)? {
        None => Err(CompileErr::Fault(Fault {
            kind: FaultKind::OutOfProfile,
            at: Span { line: 1, col: 1 },
        })),
        Some(program) => Ok(select(alloc, &lower(alloc, &program)?)?),
    }
}
