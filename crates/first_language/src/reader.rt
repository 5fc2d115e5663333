//! A program's text.
ghost use Rattle.std.specs.Prelude.{◌≡◌, ℕ, List, Some, IfOk, IfSome, option_map};
ghost use Rattle.first_language.specs.Tree.{Program as Meant, program_of};
ghost use Rattle.first_language.specs.Grammar.{IsProgram};
ghost use Rattle.first_language.specs.Sound.{IsSound};
ghost use Rattle.first_language.specs.Texts.{ComesOf};

use crate::front::{Front, front_of};
use crate::statements::{finished, start, with_tokens};
use crate::tree::Program;
use fb_base::NoMemory;
use std::alloc::Global;

// The program of a text, line by line.
fn read_text(alloc: Global, text: &[u8]) -> Result<Option<Program>, NoMemory>
    ensures { IfOk result (λ found. ComesOf text.now (option_map program_of found)) }
{
    let mut progress = start(alloc);
    let mut line = Vec::new(alloc);
    let mut rest = text;
    while !rest.is_empty() {
        match front_of(alloc, rest)? {
            Front::Refused => return Ok(None),
            Front::White => {
                let (_, after) = rest.split_at(1);
                rest = after;
            }
            Front::Newline => {
                match with_tokens(alloc, progress, line.as_slice())? {
                    Some(next) => progress = next,
                    None => return Ok(None),
                }
                line = Vec::new(alloc);
                let (_, after) = rest.split_at(1);
                rest = after;
            }
            Front::Token(token, n) => {
                line.push(token)?;
                let (_, after) = rest.split_at(n);
                rest = after;
            }
        }
    }
    match with_tokens(alloc, progress, line.as_slice())? {
        Some(last) => Ok(finished(last)),
        None => Ok(None),
    }
}

/// The program of a text; none where it isn't a text of the language.
///
/// The text is taken in one walk from its beginning, and no call goes deeper than its expressions and statements may be.
/// The error is want of memory.
pub fn read_program(alloc: Global, text: &[u8]) -> Result<Option<Program>, NoMemory>
    // What is read is a text of the language, with this program.
    ensures found { IfOk result (λ found. IfSome found (λ program. IsProgram text.now (program_of program))) }
    // A text of the language is read, as its program.
    ensures only { IfOk result (λ found. (program : Meant) → IsProgram text.now program → option_map program_of found ≡ Some program) }
{
    read_text(alloc, text)
}

/// Each program of a text names declared variables alone, has literals below 2^63, expressions and statements at most 200
/// deep, and lines of the text.
pub fn programs_are_sound()
    ensures { (text : List ℕ) (program : Meant) → IsProgram text program → IsSound program }
{}
