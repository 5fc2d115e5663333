//! What stands at the front of a text.
ghost use Rattle.std.specs.Prelude.{◌≡◌, ◌<◌, ◌≤◌, ◌+◌, ◌^◌, ◌∷◌, length, IfOk};
ghost use Rattle.fb_lexer.specs.Pieces.{begun, placed, piece_of};
ghost use Rattle.fb_lexer.specs.Lengths.{Stands};

use crate::comment::{line_length, slash};
use crate::letters::{begins_name, is_blank};
use crate::literal::literal;
use crate::mark::{ampersand, mark};
use crate::name::name;
use crate::number::number;
use crate::piece::{Before, Piece};
use fb_base::{FaultKind, NoMemory};
use std::alloc::Global;

// What begins with the first byte of a text, which others follow.
#[tactic(auto, unfolding(crate::specs::Pieces::begun))]
fn begun(alloc: Global, b: u8, rest: &[u8], bytes: &[u8]) -> Result<Piece, NoMemory>
    requires short { length bytes.now < 2 ^ 63 }
    requires whole { bytes.now ≡ b ∷ rest.now }
    ensures value { IfOk result (λ piece. piece ≡ begun b rest.now) }
    ensures within { IfOk result (λ piece. Stands (1 + length rest.now) piece) }
{
    if is_blank(b) {
        return Ok(Piece::Blank);
    }
    if b == b'\n' {
        return Ok(Piece::LineEnd);
    }
    if b == b'\'' {
        return Ok(Piece::Comment(1 + line_length(rest)));
    }
    if b == b'/' {
        return Ok(slash(rest));
    }
    if b == b'"' {
        return literal(alloc, rest);
    }
    if b.is_ascii_digit() {
        return Ok(number(10, 0, bytes));
    }
    if begins_name(b) {
        return name(alloc, bytes);
    }
    if b == b'&' {
        return Ok(ampersand(rest));
    }
    Ok(mark(b, rest))
}

// What a piece is after what stands before it.
fn placed(before: Before, piece: Piece) -> Piece
    ensures { result ≡ placed before piece }
{
    match (before, piece) {
        (Before::Join, Piece::Token(_, _) | Piece::Join) => Piece::Fault(FaultKind::BadByte),
        (Before::Join, Piece::Fault(FaultKind::OpenComment)) => {
            Piece::Fault(FaultKind::OpenComment)
        }
        (Before::Join, Piece::Fault(_)) => Piece::Fault(FaultKind::BadByte),
        (Before::Other, Piece::Join) => Piece::Fault(FaultKind::BadByte),
        (_, piece) => piece,
    }
}

/// The piece at the front of a text that isn't empty. The error is want of memory.
pub fn piece_of(alloc: Global, before: Before, bytes: &[u8]) -> Result<Piece, NoMemory>
    requires short { length bytes.now < 2 ^ 63 }
    ensures value { IfOk result (λ piece. piece ≡ piece_of before bytes.now) }
    ensures within { IfOk result (λ piece. Stands (length bytes.now) piece) }
{
    let Some((b, rest)) = bytes.split_first() else {
        return Ok(Piece::Fault(FaultKind::BadByte));
    };
    Ok(placed(before, begun(alloc, *b, rest, bytes)?))
}
