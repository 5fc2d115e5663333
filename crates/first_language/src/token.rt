//! What the tokens of FreeBASIC text are in the small language.
ghost use Rattle.std.specs.Prelude.{◌≡◌};
ghost use Rattle.first_language.specs.Tokens.{sign_of, word_token, token_of};

use crate::tree::Operator;
use fb_base::Text;
use fb_lexer::{Mark, TokenKind, Word};

/// A token of the small language.
#[derive(Debug, Drop)]
pub enum Token {
    /// A decimal number.
    Number(u64),
    /// A name that is no reserved word, in lower case.
    Name(Text),
    /// An operator. The sign `=` of an assignment is the operator `Same`.
    Sign(Operator),
    Open,
    Close,
    Dim,
    As,
    Integer,
    Print,
    If,
    Then,
    End,
    While,
    Wend,
}

// What a mark is in the small language.
fn mark_token(mark: Mark) -> Option<Token>
    ensures { result ≡ sign_of mark }
{
    match mark {
        Mark::Star => Some(Token::Sign(Operator::Times)),
        Mark::Backslash => Some(Token::Sign(Operator::Quotient)),
        Mark::Plus => Some(Token::Sign(Operator::Plus)),
        Mark::Minus => Some(Token::Sign(Operator::Minus)),
        Mark::Equal => Some(Token::Sign(Operator::Same)),
        Mark::NotEqual => Some(Token::Sign(Operator::Other)),
        Mark::Less => Some(Token::Sign(Operator::Less)),
        Mark::LessEqual => Some(Token::Sign(Operator::AtMost)),
        Mark::Greater => Some(Token::Sign(Operator::More)),
        Mark::GreaterEqual => Some(Token::Sign(Operator::AtLeast)),
        Mark::Open => Some(Token::Open),
        Mark::Close => Some(Token::Close),
        _ => None,
    }
}

// What a reserved word is in the small language.
fn word_token(word: Word) -> Option<Token>
    ensures { result ≡ word_token word }
{
    match word {
        Word::KwMod => Some(Token::Sign(Operator::Remainder)),
        Word::KwDim => Some(Token::Dim),
        Word::KwAs => Some(Token::As),
        Word::KwInteger => Some(Token::Integer),
        Word::KwPrint => Some(Token::Print),
        Word::KwIf => Some(Token::If),
        Word::KwThen => Some(Token::Then),
        Word::KwEnd => Some(Token::End),
        Word::KwWhile => Some(Token::While),
        Word::KwWend => Some(Token::Wend),
        _ => None,
    }
}

/// What a token is in the small language, if it is one of it.
pub fn token_of(kind: TokenKind) -> Option<Token>
    ensures { result ≡ token_of kind }
{
    match kind {
        TokenKind::Name(name) => Some(Token::Name(name)),
        TokenKind::Word(word) => word_token(word),
        TokenKind::Number(value) => Some(Token::Number(value)),
        TokenKind::Mark(mark) => mark_token(mark),
        _ => None,
    }
}
