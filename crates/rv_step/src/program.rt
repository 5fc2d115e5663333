ghost use Rattle.std.specs.Prelude.{◌≡◌, ◌+◌, ◌/◌, ◌%◌, ◌^◌, ◌<◌, ◌==◌, if◌then◌else◌, None, IfOk, IfSome, IsSome, map, slice_get, option_and_then};
ghost use Rattle.rv_isa.specs.Encoding.{inst_of, IsInst};

use fb_base::NoMemory;
use fb_image::Image;
use rv_isa::{Inst, decode};
use std::alloc::Global;
use std::marker::Model;

/// An image made ready to run: each of its code words is decoded once, so that a step indexes a list of instructions.
/// Contracts see the image's parts.
#[derive(Debug, Drop)]
pub struct Program {
    image: Image,
    insts: Vec<Option<Inst>>,
}

impl Model for Program {
    ghost use Rattle.fb_image.specs.declared.image.ImageParts.{ImageParts};

    ghost Value = { ImageParts };

    ghost use Rattle.rv_step.specs.Program.{IsDecoded};

    ghost view = { λ program. program.image };

    ghost invariant = { λ program. IsDecoded program.image program.insts.items };
}

// The instruction of each word, where it has one.
fn decoded(alloc: Global, code: &[u32]) -> Result<Vec<Option<Inst>>, NoMemory>
    ensures { IfOk result (λ insts. insts.items ≡ map inst_of code.now) }
{
    let mut insts = Vec::with_capacity(alloc, code.len())?;
    for word in code {
        insts.push(decode(*word))?;
    }
    Ok(insts)
}

impl Program {
    /// An image made ready to run. The error is want of memory.
    pub fn new(alloc: Global, image: Image) -> Result<Program, NoMemory>
        ensures { IfOk result (λ program. program ≡ image) }
    {
        let insts = decoded(alloc, image.code())?;
        Ok(Program { image, insts })
    }

    /// The image.
    pub fn image(&self) -> &Image
        ensures { result.now ≡ self.now }
    {
        &self.image
    }

    /// The instruction at an address, if one of the code words is there and has one.
    #[inline(always)]
    pub(crate) fn fetch(&self, pc: u64) -> Option<Inst>
        ensures value { (if pc % 4 == 0 then option_and_then inst_of (slice_get self.now.code (pc / 4)) else None) ≡ result }
        ensures ranges { IfSome result (λ i. IsInst i) }
        ensures within { IsSome result → pc + 4 < 2 ^ 64 }
    {
        if pc % 4 != 0 {
            return None;
        }
        match self.insts.get((pc / 4) as usize) {
            Some(inst) => *inst,
            None => None,
        }
    }
}
