//! Names and reserved words.
ghost use Rattle.std.specs.Prelude.{◌≡◌, ◌<◌, ◌≤◌, ◌+◌, ◌^◌, length, map, take, drop, IfOk};
ghost use Rattle.std.specs.List.{prefix_len};
ghost use Rattle.fb_lexer.specs.Letters.{is_in_name, lower};
ghost use Rattle.fb_lexer.specs.Pieces.{line_length, named, name};
ghost use Rattle.fb_lexer.specs.declared.piece.Piece.TheVariants.{Comment, Token};
ghost use Rattle.fb_lexer.specs.declared.token.TokenKind.TheVariants.{Word as Reserved};
ghost use Rattle.fb_lexer.specs.declared.word.Word.TheVariants.{KwRem};
ghost use Rattle.fb_lexer.specs.Lengths.{Stands};

use crate::comment::{front_byte, line_length};
use crate::letters::is_in_name;
use crate::piece::Piece;
use crate::token::TokenKind;
use crate::word::{Word, word_of};
use fb_base::{NoMemory, Text};
use std::alloc::Global;

// How many bytes of a name stand at the front.
fn name_length(bytes: &[u8]) -> usize
    ensures value { result ≡ prefix_len is_in_name bytes.now }
    ensures within { result ≤ length bytes.now }
{
    let mut n = 0;
    while n < bytes.len() && is_in_name(bytes[n]) {
        n += 1;
    }
    n
}

// The text of a name: its bytes in lower case.
fn lowered(alloc: Global, bytes: &[u8]) -> Result<Text, NoMemory>
    ensures { IfOk result (λ text. text ≡ map lower bytes.now) }
{
    Ok(Text::from_vec(bytes.to_ascii_lowercase(alloc)?))
}

// The piece of a reserved word that takes so many bytes, which these follow.
fn reserved(word: Word, n: usize, rest: &[u8]) -> Piece
    requires some { 1 ≤ n }
    requires short { n + length rest.now < 2 ^ 64 }
    ensures rem { word ≡ KwRem → result ≡ Comment (n + line_length rest.now) }
    ensures token { (word ≡ KwRem → ⊥) → result ≡ Token (Reserved word) n }
    ensures within { Stands (n + length rest.now) result }
{
    match word {
        Word::KwRem => Piece::Comment(n + line_length(rest)),
        _ => Piece::Token(TokenKind::Word(word), n),
    }
}

// The piece of a name or reserved word, which the other bytes follow. A reserved word is looked up where it stands; only
// a name is copied.
fn named(alloc: Global, front: &[u8], rest: &[u8]) -> Result<Piece, NoMemory>
    requires some { 1 ≤ length front.now }
    requires short { length front.now + length rest.now < 2 ^ 64 }
    ensures value { IfOk result (λ piece. piece ≡ named (map lower front.now) (length front.now) rest.now) }
    ensures within { IfOk result (λ piece. Stands (length front.now + length rest.now) piece) }
{
    let n = front.len();
    match word_of(front) {
        Some(word) => Ok(reserved(word, n, rest)),
        None => Ok(Piece::Token(TokenKind::Name(lowered(alloc, front)?), n)),
    }
}

/// The piece that begins with a letter or an underscore.
pub fn name(alloc: Global, bytes: &[u8]) -> Result<Piece, NoMemory>
    requires some { 1 ≤ prefix_len is_in_name bytes.now }
    requires short { length bytes.now < 2 ^ 63 }
    ensures value { IfOk result (λ piece. piece ≡ name (prefix_len is_in_name bytes.now) bytes.now) }
    ensures within { IfOk result (λ piece. Stands (length bytes.now) piece) }
{
    let n = name_length(bytes);
    if n == 1 && front_byte(bytes) == b'_' {
        return Ok(Piece::Join);
    }
    let (front, rest) = bytes.split_at(n);
    named(alloc, front, rest)
}
