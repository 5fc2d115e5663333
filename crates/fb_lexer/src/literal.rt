//! String literals.
ghost use Rattle.std.specs.Prelude.{◌≡◌, ◌<◌, ◌≤◌, ◌+◌, ◌^◌, length, IfOk, IfSome};
ghost use Rattle.fb_lexer.specs.Pieces.{rest_of_literal, literal_of};
ghost use Rattle.fb_lexer.specs.Lengths.{Stands};

use crate::piece::Piece;
use crate::token::TokenKind;
use fb_base::{FaultKind, NoMemory, Text};
use std::alloc::Global;

// The text of a literal, from the byte after its first quote on, and how many bytes stand up to its end.
fn rest_of_literal(alloc: Global, mut bytes: &[u8]) -> Result<Option<(Text, usize)>, NoMemory>
    requires { length bytes.now < 2 ^ 63 }
    ensures value { IfOk result (λ rest. rest ≡ rest_of_literal bytes.entry.now) }
    ensures within { IfOk result (λ rest. IfSome rest (λ r. r.1 ≤ length bytes.entry.now)) }
{
    let mut text = Vec::new(alloc);
    let mut n = 0;
    while let Some((b, rest)) = bytes.split_first() {
        if *b == b'\n' {
            return Ok(None);
        }
        if *b != b'"' {
            text.push(*b)?;
            n += 1;
            bytes = rest;
            continue;
        }
        let Some((c, more)) = rest.split_first() else {
            return Ok(Some((Text::from_vec(text), n + 1)));
        };
        if *c != b'"' {
            return Ok(Some((Text::from_vec(text), n + 1)));
        }
        text.push(b'"')?;
        n += 2;
        bytes = more;
    }
    Ok(None)
}

/// The piece that begins with a quote, which these bytes follow.
pub fn literal(alloc: Global, bytes: &[u8]) -> Result<Piece, NoMemory>
    requires { length bytes.now < 2 ^ 63 }
    ensures value { IfOk result (λ piece. piece ≡ literal_of (rest_of_literal bytes.now)) }
    ensures within { IfOk result (λ piece. Stands (1 + length bytes.now) piece) }
{
    Ok(match rest_of_literal(alloc, bytes)? {
        Some((text, n)) => Piece::Token(TokenKind::Str(text), 1 + n),
        None => Piece::Fault(FaultKind::OpenText),
    })
}
