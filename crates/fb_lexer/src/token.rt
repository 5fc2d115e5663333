use crate::word::Word;
use fb_base::{Span, Text};

/// A mark of one or two bytes.
#[derive(Clone, Copy, Debug, PartialEq, Eq)]
pub enum Mark {
    /// `+`
    Plus,
    /// `-`
    Minus,
    /// `*`
    Star,
    /// `\`
    Backslash,
    /// `&`
    Ampersand,
    /// `=`
    Equal,
    /// `<>`
    NotEqual,
    /// `<`
    Less,
    /// `<=`
    LessEqual,
    /// `>`
    Greater,
    /// `>=`
    GreaterEqual,
    /// `(`
    Open,
    /// `)`
    Close,
    /// `[`
    OpenBracket,
    /// `]`
    CloseBracket,
    /// `,`
    Comma,
    /// `;`
    Semicolon,
    /// `.`
    Dot,
    /// `->`
    Arrow,
    /// `@`
    At,
    /// `+=`
    PlusEqual,
    /// `-=`
    MinusEqual,
    /// `*=`
    StarEqual,
    /// `\=`
    BackslashEqual,
    /// `&=`
    AmpersandEqual,
}

/// What a token is.
#[derive(Debug, Drop)]
pub enum TokenKind {
    /// A name that is no reserved word, in lower case.
    Name(Text),
    /// A reserved word.
    Word(Word),
    /// A number.
    Number(u64),
    /// A string literal: its text without the quotes around it, and with one quote for each two inside.
    Str(Text),
    /// A mark.
    Mark(Mark),
    /// A `:`.
    Colon,
    /// One line end, or several in a row.
    LineEnd,
}

/// A token, and the place of its first byte.
#[derive(Debug, Drop)]
pub struct Token {
    pub kind: TokenKind,
    pub at: Span,
}
