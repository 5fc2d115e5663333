//! The bytes of an image.

ghost use Rattle.std.specs.Prelude.{◌≡◌, ◌++◌, OnOk, IfOk, Ok};
ghost use Rattle.std.specs.List.{All, flat_map};
ghost use Rattle.fb_base.specs.declared.shape.Shape.{Shape};
ghost use Rattle.fb_image.specs.Answers.{image_of};
ghost use Rattle.fb_image.specs.Format.{IsImage, IsWord, HasWords};
ghost use Rattle.fb_image.specs.Texts.{IsLiteral};
ghost use Rattle.fb_image.specs.Spelling.{word, shape, literal, line, magic, version, counts, lists, spelling};

use crate::image::Image;
use fb_base::{LineAt, NoMemory, Shape, Text};
use std::alloc::Global;

#[tactic(auto, unfolding(crate::specs::Spelling::word))]
fn put_word(out: &mut Vec<u8>, number: u32) -> Result<(), NoMemory>
    ensures { OnOk result (out.new.items ≡ out.old.items ++ word number) }
{
    out.extend_from_slice(&number.to_le_bytes())?;
    Ok(())
}

fn put_words(out: &mut Vec<u8>, numbers: &[u32]) -> Result<(), NoMemory>
    ensures { OnOk result (out.new.items ≡ out.old.items ++ flat_map word numbers.now) }
{
    for number in numbers {
        put_word(out, *number)?;
    }
    Ok(())
}

fn put_cells(out: &mut Vec<u8>, cells: &[u64]) -> Result<(), NoMemory>
    requires { All IsWord cells.now }
    ensures { OnOk result (out.new.items ≡ out.old.items ++ flat_map word cells.now) }
{
    for cell in cells {
        put_word(out, *cell as u32)?;
    }
    Ok(())
}

#[tactic(auto, using(std::proofs::lemmas::List::append_assoc))]
fn put_shape(out: &mut Vec<u8>, s: &Shape) -> Result<(), NoMemory>
    requires { HasWords s.now }
    ensures { OnOk result (out.new.items ≡ out.old.items ++ shape s.now) }
{
    put_word(out, s.size as u32)?;
    put_word(out, s.align as u32)?;
    put_word(out, s.cells.len() as u32)?;
    put_cells(out, s.cells.as_slice())
}

fn put_shapes(out: &mut Vec<u8>, shapes: &[Shape]) -> Result<(), NoMemory>
    requires { All HasWords shapes.now }
    ensures { OnOk result (out.new.items ≡ out.old.items ++ flat_map shape shapes.now) }
{
    for s in shapes {
        put_shape(out, s)?;
    }
    Ok(())
}

fn put_literals(out: &mut Vec<u8>, texts: &[Text]) -> Result<(), NoMemory>
    requires { All IsLiteral texts.now }
    ensures { OnOk result (out.new.items ≡ out.old.items ++ flat_map literal texts.now) }
{
    for text in texts {
        let bytes = text.bytes();
        put_word(out, bytes.len() as u32)?;
        out.extend_from_slice(bytes)?;
    }
    Ok(())
}

fn put_lines(out: &mut Vec<u8>, lines: &[LineAt]) -> Result<(), NoMemory>
    ensures { OnOk result (out.new.items ≡ out.old.items ++ flat_map line lines.now) }
{
    for at in lines {
        put_word(out, at.index)?;
        put_word(out, at.line)?;
    }
    Ok(())
}

// The bytes FBRV, and version 1 in four bytes.
#[tactic(auto, unfolding(crate::specs::Spelling::magic, crate::specs::Spelling::version))]
fn put_version(out: &mut Vec<u8>) -> Result<(), NoMemory>
    ensures { OnOk result (out.new.items ≡ out.old.items ++ (magic ++ version)) }
{
    out.extend_from_slice(b"FBRV")?;
    out.extend_from_slice(&[1, 0, 0, 0])?;
    Ok(())
}

#[tactic(auto, using(std::proofs::lemmas::List::append_assoc))]
fn put_counts(out: &mut Vec<u8>, image: &Image) -> Result<(), NoMemory>
    ensures rules { IsImage image.now }
    ensures put { OnOk result (out.new.items ≡ out.old.items ++ counts image.now) }
{
    put_word(out, image.code().len() as u32)?;
    put_word(out, image.entries().len() as u32)?;
    put_word(out, image.shapes().len() as u32)?;
    put_word(out, image.literals().len())?;
    put_word(out, image.lines().len() as u32)?;
    Ok(())
}

#[tactic(auto, using(std::proofs::lemmas::List::append_assoc))]
fn put_lists(out: &mut Vec<u8>, image: &Image) -> Result<(), NoMemory>
    ensures { OnOk result (out.new.items ≡ out.old.items ++ lists image.now) }
{
    put_words(out, image.code())?;
    put_words(out, image.entries())?;
    put_shapes(out, image.shapes())?;
    put_literals(out, image.literals().texts())?;
    put_lines(out, image.lines().as_slice())
}

#[tactic(auto, using(std::proofs::lemmas::List::append_assoc))]
fn spell(alloc: Global, image: &Image) -> Result<Text, NoMemory>
    ensures rules { OnOk result (IsImage image.now) }
    ensures spelt { IfOk result (λ text. text ≡ spelling image.now) }
{
    let mut out = Vec::new(alloc);
    put_version(&mut out)?;
    put_counts(&mut out, image)?;
    put_lists(&mut out, image)?;
    Ok(Text::from_vec(out))
}

/// The one spelling of an image. The error is want of memory.
pub fn write(alloc: Global, image: &Image) -> Result<Text, NoMemory>
    ensures spelt { IfOk result (λ text. text ≡ spelling image.now) }
    // Reading it again gives the image.
    ensures again { IfOk result (λ text. image_of text ≡ Ok image.now) }
{
    spell(alloc, image)
}
