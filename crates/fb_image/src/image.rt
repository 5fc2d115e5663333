ghost use Rattle.std.specs.Prelude.{◌≡◌, ◌≤◌, [], ◌∷◌, length, slice_get, option_map, option_copied, IfOk};
ghost use Rattle.std.specs.List.{All, AllByRecursion};
ghost use Rattle.fb_base.specs.declared.shape.LineAt.{LineAt};
ghost use Rattle.fb_image.specs.Format.{IsImage, IsWord, KeepsRules};
ghost use Rattle.fb_image.specs.Lines.{line_of};

use crate::copying::{copy_lines, copy_shapes, copy_words};
use crate::literals::Literals;
use fb_base::{LineAt, Lines, NoMemory, Sequence, Shape};
use std::alloc::Global;
use std::marker::Model;

/// The instruction words of a program.
pub type CodeWords = Sequence<u32>;

/// The index of each procedure's first code word.
pub type Entries = Sequence<u32>;

/// The shapes of a program's places.
pub type Shapes = Sequence<Shape>;

/// The parts of an image.
#[derive(Debug, Drop)]
pub struct ImageParts {
    pub code: CodeWords,
    pub entries: Entries,
    pub shapes: Shapes,
    pub literals: Literals,
    pub lines: Lines,
}

/// A compiled program, which keeps the rules of the format. Contracts see its parts.
///
/// There is at least one code word, procedure, shape and line, and fewer than 2^32 of each and of literals.
/// Each procedure begins below the number of code words, and procedure 0 is the main module.
/// A shape has an alignment of 1, 2, 4 or 8 that divides its size, a size of at most 16,777,216 bytes, above 0
/// for each but shape 0, and cells of 24 bytes at multiples of 8 that stand apart and within the size.
/// The first line stands with code word 0, and the others with rising code words.
#[derive(Debug, Drop)]
pub struct Image {
    parts: ImageParts,
}

impl Model for Image {
    ghost use Rattle.fb_image.specs.declared.image.ImageParts.{ImageParts};

    ghost Value = { ImageParts };

    ghost use Rattle.fb_image.specs.Format.{IsImage};

    ghost view = { λ image. image.parts };

    ghost invariant = { λ image. IsImage image.parts };
}

// A number of 32 bits is below 2^32.
fn is_word(number: u32)
    ensures { IsWord number }
{}

// Code words are below 2^32, as their type says.
fn are_words(words: &[u32])
    ensures { AllByRecursion IsWord words.now }
{}

// So are the numbers of lines.
fn have_words(lines: &[LineAt])
    ensures { All (λ (l : LineAt). IsWord l.line) lines.now }
{
    for at in lines {
        is_word(at.line);
    }
}

/// The image of these parts. It takes no memory.
///
/// The caller makes sure of the rules that the types of the parts don't keep by themselves.
pub fn build(parts: ImageParts) -> Image
    requires { KeepsRules parts }
    ensures { result ≡ parts }
{
    // What the types keep by themselves.
    are_words(parts.code.as_slice());
    have_words(parts.lines.as_slice());
    parts.literals.are_kept();
    Image { parts }
}

impl Image {
    /// The literals.
    pub fn literals(&self) -> &Literals
        ensures { result.now ≡ self.now.literals }
    {
        &self.parts.literals
    }

    /// The instruction words.
    pub fn code(&self) -> &[u32]
        ensures words { result.now ≡ self.now.code }
        ensures rules { IsImage self.now }
    {
        self.parts.code.as_slice()
    }

    /// The index of each procedure's first code word.
    pub(crate) fn entries(&self) -> &[u32]
        ensures { result.now ≡ self.now.entries }
    {
        self.parts.entries.as_slice()
    }

    /// The shapes.
    pub(crate) fn shapes(&self) -> &[Shape]
        ensures { result.now ≡ self.now.shapes }
    {
        self.parts.shapes.as_slice()
    }

    /// The index of a procedure's first code word. None exactly where its number isn't below the count.
    pub fn entry(&self, proc: u32) -> Option<u32>
        ensures { result ≡ slice_get self.now.entries proc }
    {
        self.parts.entries.as_slice().get(proc as usize).copied()
    }

    /// A shape. None exactly where its number isn't below the count.
    pub fn shape(&self, k: u32) -> Option<&Shape>
        ensures { option_copied result ≡ slice_get self.now.shapes k }
    {
        self.parts.shapes.as_slice().get(k as usize)
    }

    /// The bytes of a literal. None exactly where its number isn't below the count.
    pub fn literal(&self, k: u32) -> Option<&[u8]>
        ensures { option_map (λ bytes. bytes.now) result ≡ slice_get self.now.literals k }
    {
        self.parts.literals.get(k)
    }

    /// The lines of the code words: from the index of an entry on, they belong to its line.
    pub fn lines(&self) -> &Lines
        ensures { result.now ≡ self.now.lines }
    {
        &self.parts.lines
    }

    /// The line of a code word: the one that stands with the last index that isn't above the given one.
    pub fn line_of(&self, index: u32) -> u32
        ensures { result ≡ line_of self.now.lines index }
    {
        let lines = self.parts.lines.as_slice();
        let after = lines.partition_point(|l| l.index <= index);
        lines[after - 1].line
    }

    /// An equal image. The error is want of memory.
    pub fn copy(&self, alloc: Global) -> Result<Image, NoMemory>
        ensures { IfOk result (λ image. image ≡ self.now) }
    {
        Ok(Image {
            parts: ImageParts {
                code: copy_words(alloc, &self.parts.code)?,
                entries: copy_words(alloc, &self.parts.entries)?,
                shapes: copy_shapes(alloc, &self.parts.shapes)?,
                literals: self.parts.literals.copy(alloc)?,
                lines: copy_lines(alloc, &self.parts.lines)?,
            },
        })
    }
}
