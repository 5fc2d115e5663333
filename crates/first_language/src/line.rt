//! What a line says.
ghost use Rattle.std.specs.Prelude.{◌≡◌, ◌≤◌, length, IfOk, option_map};
ghost use Rattle.first_language.specs.Reading.{assignment, before_then, condition, declaration, is_then, line_of};
ghost use Rattle.first_language.specs.Kept.{said_of};

use crate::expression::{expression_of, place_of};
use crate::token::Token;
use crate::tree::{Expr, Operator, Stmt};
use fb_base::{NoMemory, Text};
use std::alloc::Global;

/// What a line says.
#[derive(Debug, Drop)]
pub enum Line {
    /// White space alone.
    Nothing,
    /// `Dim NAME As Integer`.
    Declares(Text),
    /// `Dim NAME As Integer = expr`.
    DeclaresWith(Text, Expr),
    /// A statement on this line alone.
    Does(Stmt),
    /// `If expr Then`.
    OpensIf(Expr),
    /// `End If`.
    ClosesIf,
    /// `While expr`.
    OpensWhile(Expr),
    /// `Wend`.
    ClosesWhile,
}

/// A declaration, behind `Dim`.
fn declaration(alloc: Global, names: &[Text], tokens: &[Token]) -> Result<Option<Line>, NoMemory>
    ensures { IfOk result (λ line. option_map said_of line ≡ declaration names.now tokens.now) }
{
    match tokens {
        [Token::Name(name), Token::As, Token::Integer] => {
            Ok(Some(Line::Declares(Text::of(alloc, name.bytes())?)))
        }
        [
            Token::Name(name),
            Token::As,
            Token::Integer,
            Token::Sign(Operator::Same),
            value @ ..,
        ] => {
            let name = Text::of(alloc, name.bytes())?;
            match expression_of(alloc, names, value)? {
                Some(value) => Ok(Some(Line::DeclaresWith(name, value))),
                None => Ok(None),
            }
        }
        _ => Ok(None),
    }
}

/// An assignment, behind the name at its beginning.
fn assignment(
    alloc: Global,
    names: &[Text],
    number: u64,
    name: &[u8],
    tokens: &[Token],
) -> Result<Option<Line>, NoMemory>
    ensures { IfOk result (λ line. option_map said_of line ≡ assignment names.now number name.now tokens.now) }
{
    match tokens {
        [Token::Sign(Operator::Same), value @ ..] => match place_of(names, name) {
            Some(place) => match expression_of(alloc, names, value)? {
                Some(value) => Ok(Some(Line::Does(Stmt::Assign(place as u64, value, number)))),
                None => Ok(None),
            },
            None => Ok(None),
        },
        _ => Ok(None),
    }
}

/// Whether a token is `Then`.
fn is_then(token: &Token) -> bool
    ensures { result ≡ is_then token.now }
{
    matches!(token, Token::Then)
}

/// The tokens before a `Then` at their end.
#[tactic(auto, using(crate::proofs::Lines::before_last))]
fn before_then(tokens: &[Token]) -> Option<&[Token]>
    ensures { option_map (λ front. front.now) result ≡ before_then tokens.now }
{
    match tokens.split_last() {
        Some((last, front)) => { if is_then(last) { Some(front) } else { None } }
        None => None,
    }
}

/// What is behind `If`.
fn condition(alloc: Global, names: &[Text], tokens: &[Token]) -> Result<Option<Line>, NoMemory>
    ensures { IfOk result (λ line. option_map said_of line ≡ condition names.now tokens.now) }
{
    match before_then(tokens) {
        Some(front) => match expression_of(alloc, names, front)? {
            Some(test) => Ok(Some(Line::OpensIf(test))),
            None => Ok(None),
        },
        None => Ok(None),
    }
}

/// What the tokens of a line say, where these names are declared; none where they are no line of the language.
///
/// The error is want of memory.
pub fn line_of(
    alloc: Global,
    names: &[Text],
    number: u64,
    tokens: &[Token],
) -> Result<Option<Line>, NoMemory>
    ensures { IfOk result (λ line. option_map said_of line ≡ line_of names.now number tokens.now) }
{
    match tokens {
        [] => Ok(Some(Line::Nothing)),
        [Token::Dim, rest @ ..] => declaration(alloc, names, rest),
        [Token::Name(name), rest @ ..] => assignment(alloc, names, number, name.bytes(), rest),
        [Token::Print, rest @ ..] => match expression_of(alloc, names, rest)? {
            Some(value) => Ok(Some(Line::Does(Stmt::Print(value, number)))),
            None => Ok(None),
        },
        [Token::If, rest @ ..] => condition(alloc, names, rest),
        [Token::End, Token::If] => Ok(Some(Line::ClosesIf)),
        [Token::While, rest @ ..] => match expression_of(alloc, names, rest)? {
            Some(test) => Ok(Some(Line::OpensWhile(test))),
            None => Ok(None),
        },
        [Token::Wend] => Ok(Some(Line::ClosesWhile)),
        _ => Ok(None),
    }
}
