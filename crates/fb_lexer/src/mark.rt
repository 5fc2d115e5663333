//! Marks.
ghost use Rattle.std.specs.Prelude.{◌≡◌, ◌<◌, ◌≤◌, ◌+◌, ◌^◌, length};
ghost use Rattle.fb_lexer.specs.Pieces.{front_byte, with_equal, less, minus, single, mark_of, base_of, ampersand};
ghost use Rattle.fb_lexer.specs.Lengths.{Stands};
ghost use Rattle.fb_lexer.specs.Marks.{IsShort};

use crate::comment::front_byte;
use crate::letters::{digit_value, lower};
use crate::number::number;
use crate::piece::Piece;
use crate::token::{Mark, TokenKind};
use fb_base::FaultKind;

// A mark that is longer where an equal sign follows.
fn with_equal(next: u8, longer: Mark, shorter: Mark) -> Piece
    ensures value { result ≡ with_equal next longer shorter }
    ensures within { IsShort next result }
{
    if next == b'=' {
        Piece::Token(TokenKind::Mark(longer), 2)
    } else {
        Piece::Token(TokenKind::Mark(shorter), 1)
    }
}

fn less(next: u8) -> Piece
    ensures value { result ≡ less next }
    ensures within { IsShort next result }
{
    if next == b'>' {
        Piece::Token(TokenKind::Mark(Mark::NotEqual), 2)
    } else {
        with_equal(next, Mark::LessEqual, Mark::Less)
    }
}

fn minus(next: u8) -> Piece
    ensures value { result ≡ minus next }
    ensures within { IsShort next result }
{
    if next == b'>' {
        Piece::Token(TokenKind::Mark(Mark::Arrow), 2)
    } else {
        with_equal(next, Mark::MinusEqual, Mark::Minus)
    }
}

// A mark of one byte.
fn single(b: u8) -> Piece
    ensures value { result ≡ single b }
    ensures within { Stands 1 result }
{
    let kind = match b {
        b'=' => TokenKind::Mark(Mark::Equal),
        b'(' => TokenKind::Mark(Mark::Open),
        b')' => TokenKind::Mark(Mark::Close),
        b'[' => TokenKind::Mark(Mark::OpenBracket),
        b']' => TokenKind::Mark(Mark::CloseBracket),
        b',' => TokenKind::Mark(Mark::Comma),
        b';' => TokenKind::Mark(Mark::Semicolon),
        b'.' => TokenKind::Mark(Mark::Dot),
        b'@' => TokenKind::Mark(Mark::At),
        b':' => TokenKind::Colon,
        _ => return Piece::Fault(FaultKind::BadByte),
    };
    Piece::Token(kind, 1)
}

// The mark that begins with a byte, which the next one follows.
fn mark_of(b: u8, next: u8) -> Piece
    ensures value { result ≡ mark_of b next }
    ensures within { IsShort next result }
{
    match b {
        b'+' => with_equal(next, Mark::PlusEqual, Mark::Plus),
        b'-' => minus(next),
        b'*' => with_equal(next, Mark::StarEqual, Mark::Star),
        b'\\' => with_equal(next, Mark::BackslashEqual, Mark::Backslash),
        b'<' => less(next),
        b'>' => with_equal(next, Mark::GreaterEqual, Mark::Greater),
        _ => single(b),
    }
}

/// The mark that begins with a byte, which these follow.
pub fn mark(b: u8, bytes: &[u8]) -> Piece
    ensures value { result ≡ mark_of b (front_byte bytes.now) }
    ensures within { Stands (1 + length bytes.now) result }
{
    mark_of(b, front_byte(bytes))
}

// The base that a letter after & names, and 0 for every other byte.
fn base_of(b: u8) -> u8
    ensures { result ≡ base_of b }
{
    match b {
        b'h' => 16,
        b'o' => 8,
        b'b' => 2,
        _ => 0,
    }
}

/// The piece that begins with an &, which these bytes follow.
pub fn ampersand(bytes: &[u8]) -> Piece
    requires { length bytes.now < 2 ^ 63 }
    ensures value { result ≡ ampersand bytes.now }
    ensures within { Stands (1 + length bytes.now) result }
{
    let base = base_of(lower(front_byte(bytes)));
    if let [_, digits @ ..] = bytes
        && digit_value(front_byte(digits)) < base
    {
        return number(base, 2, digits);
    }
    with_equal(front_byte(bytes), Mark::AmpersandEqual, Mark::Ampersand)
}
