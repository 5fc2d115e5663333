//! Comments, and what is left of a line.
ghost use Rattle.std.specs.Prelude.{◌≡◌, ◌<◌, ◌≤◌, ◌+◌, ◌^◌, length, IfSome};
ghost use Rattle.fb_lexer.specs.Pieces.{line_length, closes, opens, rest_of_comment, slash, front_byte};
ghost use Rattle.fb_lexer.specs.Lengths.{Stands};

use crate::piece::Piece;
use fb_base::FaultKind;

/// The first byte, and 0 where there is none.
pub fn front_byte(bytes: &[u8]) -> u8
    ensures { result ≡ front_byte bytes.now }
{
    if let [b, ..] = bytes { *b } else { 0 }
}

/// How many bytes the line still has.
pub fn line_length(bytes: &[u8]) -> usize
    ensures value { result ≡ line_length bytes.now }
    ensures within { result ≤ length bytes.now }
{
    let mut n = 0;
    while n < bytes.len() && bytes[n] != b'\n' {
        n += 1;
    }
    n
}

// Whether two bytes end a comment.
fn closes(b: u8, c: u8) -> bool
    ensures { result ≡ closes b c }
{
    b == b'\'' && c == b'/'
}

// Whether two bytes begin a comment.
fn opens(b: u8, c: u8) -> bool
    ensures { result ≡ opens b c }
{
    b == b'/' && c == b'\''
}

// How many bytes the comment takes whose first two these bytes follow.
fn rest_of_comment(mut bytes: &[u8]) -> Option<usize>
    requires { length bytes.now < 2 ^ 63 }
    ensures value { result ≡ rest_of_comment 1 2 bytes.entry.now }
    ensures within { IfSome result (λ n. (1 ≤ n) × (n ≤ 2 + length bytes.entry.now)) }
{
    let mut depth = 1u64;
    let mut n = 2;
    while let Some((b, rest)) = bytes.split_first() {
        let Some((c, more)) = rest.split_first() else {
            return None;
        };
        if closes(*b, *c) {
            if depth == 1 {
                return Some(n + 2);
            }
            depth -= 1;
            n += 2;
            bytes = more;
            continue;
        }
        if opens(*b, *c) {
            depth += 1;
            n += 2;
            bytes = more;
            continue;
        }
        n += 1;
        bytes = rest;
    }
    None
}

/// The piece that begins with a slash, which these bytes follow.
pub fn slash(bytes: &[u8]) -> Piece
    requires { length bytes.now < 2 ^ 63 }
    ensures value { result ≡ slash bytes.now }
    ensures within { Stands (1 + length bytes.now) result }
{
    let [b'\'', rest @ ..] = bytes else {
        return Piece::Fault(FaultKind::BadByte);
    };
    match rest_of_comment(rest) {
        Some(n) => Piece::Comment(n),
        None => Piece::Fault(FaultKind::OpenComment),
    }
}
