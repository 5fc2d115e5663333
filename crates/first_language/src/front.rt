//! What stands at the front of a text.
ghost use Rattle.std.specs.Prelude.{◌≡◌, ◌≤◌, length, IfOk};
ghost use Rattle.first_language.specs.Fronts.{front_with, front_of, Within};

use crate::token::{Token, token_of};
use fb_base::NoMemory;
use fb_lexer::{Before, Piece, piece_of};
use std::alloc::Global;

/// What stands at the front of a text.
#[derive(Debug, Drop)]
pub enum Front {
    /// Nothing of the language.
    Refused,
    /// One byte of white space.
    White,
    /// A byte 10.
    Newline,
    /// A token, with its length in bytes.
    Token(Token, usize),
}

// What a piece is in the small language.
fn front_with(piece: Piece) -> Front
    ensures { result ≡ front_with piece }
{
    match piece {
        Piece::Blank => Front::White,
        Piece::LineEnd => Front::Newline,
        Piece::Token(kind, n) => match token_of(kind) {
            Some(token) => Front::Token(token, n),
            None => Front::Refused,
        },
        _ => Front::Refused,
    }
}

/// What stands at the front of a text that isn't empty. The error is want of memory.
pub fn front_of(alloc: Global, text: &[u8]) -> Result<Front, NoMemory>
    ensures value { IfOk result (λ front. front ≡ front_of text.now) }
    ensures within { IfOk result (λ front. Within (length text.now) front) }
{
    if let [b'&', ..] = text {
        return Ok(Front::Refused);
    }
    Ok(front_with(piece_of(alloc, Before::Other, text)?))
}
