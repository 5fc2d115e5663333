//! Images out of bytes.

ghost use Rattle.std.specs.Prelude.{◌≡◌, ◌-◌, ◌<◌, ◌^◌, length, IfOk, MatchResult};
ghost use Rattle.fb_image.specs.Answers.{Gives, Reads, image_of};
ghost use Rattle.fb_image.specs.declared.fault.ImageErr.TheVariants.{NoMemory};
ghost use Rattle.fb_image.specs.declared.image.ImageParts.{ImageParts};
ghost use Rattle.fb_image.specs.Format.{IsImage};
ghost use Rattle.fb_image.specs.Reading.{lists_at, parts_of};
ghost use Rattle.fb_image.specs.Spelling.{spelling};

use crate::fault::{ImageErr, ReadErr};
use crate::fields::{Counts, header};
use crate::image::{Image, ImageParts, build};
use crate::lists::{code_of, entries_of, lines_of, literals_of, shapes_of};
use fb_base::ImageWhy;
use std::alloc::Global;

#[tactic(auto, unfolding(crate::specs::Reading::lists_at))]
fn lists_of(alloc: Global, counts: Counts, bytes: &[u8]) -> Result<(ImageParts, &[u8]), ReadErr>
    ensures { Gives (λ x. (x.0, x.1.now)) result (lists_at counts bytes.now) }
{
    let (code, rest) = code_of(alloc, counts.code, bytes)?;
    let (entries, rest) = entries_of(alloc, counts.code, counts.entries, rest)?;
    let (shapes, rest) = shapes_of(alloc, counts.shapes, rest)?;
    let (literals, rest) = literals_of(alloc, counts.literals, rest)?;
    let (lines, rest) = lines_of(alloc, counts.code, counts.lines, rest)?;
    let parts = ImageParts {
        code,
        entries,
        shapes,
        literals,
        lines,
    };
    Ok((parts, rest))
}

/// The parts of an image that are all of the bytes.
#[tactic(auto, unfolding(crate::specs::Reading::parts_of))]
fn parts(alloc: Global, bytes: &[u8]) -> Result<ImageParts, ReadErr>
    ensures { Gives (λ parts. parts) result (parts_of bytes.now) }
{
    let (counts, rest) = header(bytes)?;
    let (parts, rest) = lists_of(alloc, counts, rest)?;
    if !rest.is_empty() {
        return Err(ReadErr::At {
            left: rest.len(),
            why: ImageWhy::Extra,
        });
    }
    Ok(parts)
}

fn image_in(alloc: Global, bytes: &[u8]) -> Result<Image, ImageErr>
    requires { length bytes.now < 2 ^ 32 - 1 }
    ensures { Reads result (image_of bytes.now) }
{
    match parts(alloc, bytes) {
        Ok(parts) => Ok(build(parts)),
        Err(ReadErr::NoMemory) => Err(ImageErr::NoMemory),
        Err(ReadErr::At { left, why }) => Err(ImageErr::At {
            at: bytes.len().saturating_sub(left) as u32,
            why,
        }),
    }
}

/// The image that the bytes spell.
///
/// The fields are read in order, and the error is the first fault: a field that is cut off is `Short` at the end,
/// a field that breaks a rule has the rule's reason at its first byte, and bytes after the last field are `Extra`
/// at the first. Memory is taken for what is there, whatever the counts say. The other error is want of memory.
pub fn read(alloc: Global, bytes: &[u8]) -> Result<Image, ImageErr>
    requires { length bytes.now < 2 ^ 32 - 1 }
    // What is read is spelt so.
    ensures found { IfOk result (λ image. IsImage image × (bytes.now ≡ spelling image)) }
    // What is spelt so is read, unless memory runs out.
    ensures only { (p : ImageParts) → IsImage p → bytes.now ≡ spelling p → MatchResult result (λ image. image ≡ p) (λ e. e ≡ NoMemory) }
    // Which fault it is, and where it stands.
    ensures exact { Reads result (image_of bytes.now) }
{
    image_in(alloc, bytes)
}
