//! From one piece of a text to the next.
ghost use Rattle.std.specs.Prelude.{◌≡◌, ◌<◌, ◌≤◌, ◌+◌, ◌^◌, ◌==◌, length, count_by};
ghost use Rattle.fb_lexer.specs.Lengths.{length_of};
ghost use Rattle.fb_lexer.specs.Rows.{place_after, place_behind, before_next, ends_line, line_end, token_of, past};

use crate::piece::{Before, Piece, Situation};
use crate::token::{Token, TokenKind};
use fb_base::Span;

// The place after a byte.
fn place_after(at: Span, b: u8) -> Span
    requires line { at.line + 1 < 2 ^ 32 }
    requires col { at.col + 1 < 2 ^ 32 }
    ensures { result ≡ place_after at b }
{
    if b == b'\n' {
        Span {
            line: at.line + 1,
            col: 1,
        }
    } else {
        Span {
            line: at.line,
            col: at.col + 1,
        }
    }
}

// The place behind these bytes.
fn place_behind(at: Span, bytes: &[u8]) -> Span
    requires line { at.line + length bytes.now < 2 ^ 32 }
    requires col { at.col + length bytes.now < 2 ^ 32 }
    requires some { 1 ≤ at.col }
    ensures value { result ≡ place_behind at bytes.now }
    ensures line { result.line ≡ at.line + count_by (λ b. b == 10) bytes.now }
    ensures col { result.col ≤ at.col + length bytes.now }
    ensures some { 1 ≤ result.col }
{
    let mut place = at;
    for b in bytes {
        place = place_after(place, *b);
    }
    place
}

/// How many bytes a piece takes.
pub fn length_of(piece: &Piece) -> usize
    ensures { result ≡ length_of piece.now }
{
    match piece {
        Piece::Blank | Piece::Join | Piece::LineEnd => 1,
        Piece::Comment(n) => *n,
        Piece::Token(_, n) => *n,
        Piece::Fault(_) => 0,
    }
}

// What stands before the place behind a piece.
fn before_next(before: Before, piece: &Piece) -> Before
    ensures { result ≡ before_next before piece.now }
{
    match (before, piece) {
        (Before::Join, Piece::Blank | Piece::Comment(_)) => Before::Join,
        (_, Piece::Blank | Piece::LineEnd) => Before::White,
        (_, Piece::Comment(_) | Piece::Token(_, _)) => Before::Other,
        (_, Piece::Join) => Before::Join,
        (before, Piece::Fault(_)) => before,
    }
}

// Whether the last token up to behind a piece is a line end.
fn ends_line(before: Before, ended: bool, piece: &Piece) -> bool
    ensures { result ≡ ends_line before ended piece.now }
{
    match (before, piece) {
        (Before::Join, Piece::LineEnd) => ended,
        (_, Piece::LineEnd) => true,
        (_, Piece::Token(_, _)) => false,
        (_, _) => ended,
    }
}

/// Where a text goes on behind a piece that takes these bytes.
pub fn past(now: Situation, piece: &Piece, front: &[u8]) -> Situation
    requires line { now.at.line + length front.now < 2 ^ 32 }
    requires col { now.at.col + length front.now < 2 ^ 32 }
    requires some { 1 ≤ now.at.col }
    ensures value { result ≡ past now piece.now front.now }
    ensures line { result.at.line ≡ now.at.line + count_by (λ b. b == 10) front.now }
    ensures col { result.at.col ≤ now.at.col + length front.now }
    ensures some { 1 ≤ result.at.col }
{
    Situation {
        before: before_next(now.before, piece),
        ended: ends_line(now.before, now.ended, piece),
        at: place_behind(now.at, front),
    }
}

// The token of a line end.
fn line_end(before: Before, ended: bool, at: Span) -> Option<Token>
    ensures { result ≡ line_end before ended at }
{
    match (before, ended) {
        (Before::Join, _) | (_, true) => None,
        (_, false) => Some(Token {
            kind: TokenKind::LineEnd,
            at,
        }),
    }
}

/// The token that a piece is.
pub fn token_of(now: Situation, piece: Piece) -> Option<Token>
    ensures { result ≡ token_of now piece }
{
    match piece {
        Piece::LineEnd => line_end(now.before, now.ended, now.at),
        Piece::Token(kind, _) => Some(Token { kind, at: now.at }),
        _ => None,
    }
}
