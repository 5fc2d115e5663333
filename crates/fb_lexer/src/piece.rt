use crate::token::TokenKind;
use fb_base::{FaultKind, Span};

/// What stands before a place of a text.
#[derive(Clone, Copy, Debug, PartialEq, Eq)]
pub enum Before {
    /// White space, or nothing of the line.
    White,
    /// A `_` that joins the next line, and after it only white space and comments.
    Join,
    /// A token or a comment.
    Other,
}

/// What stands at the front of a text; the numbers are lengths in bytes.
#[derive(Debug, Drop)]
pub enum Piece {
    /// One byte of white space within a line.
    Blank,
    /// A comment.
    Comment(usize),
    /// A `_` alone.
    Join,
    /// A byte 10.
    LineEnd,
    /// A token that is no line end.
    Token(TokenKind, usize),
    /// None of these.
    Fault(FaultKind),
}

/// Where a text is read.
#[derive(Clone, Copy, Debug)]
pub struct Situation {
    /// What stands before this place.
    pub before: Before,
    /// Whether the last token is a line end.
    pub ended: bool,
    /// The place.
    pub at: Span,
}
