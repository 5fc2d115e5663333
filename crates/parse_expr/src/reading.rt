ghost use Rattle.std.specs.Prelude.{◌≡◌, ◌≤◌, length, IfOk, IfErr};
ghost use Rattle.parse_expr.specs.Expr as spec;
ghost use Rattle.parse_expr.specs.Expr.{Answers, expr_at};
ghost use Rattle.parse_expr.specs.Faults.{Fails, Longest};

use crate::cursor::Cursor;
use crate::error::{ParseErr, ReadErr};
use crate::grammar::expr_in;
use fb_ast::Expr;
use fb_base::{Fault, Span};
use fb_lexer::Tokens;
use std::alloc::Global;

/// How deep an expression may be.
const MOST: usize = 200;

// The place of the last token.
fn last_place(tokens: &Tokens) -> Span
    ensures { result ≡ spec.last_place tokens.now.items }
{
    if tokens.is_empty() {
        Span { line: 1, col: 1 }
    } else {
        tokens.at(tokens.len() - 1).at
    }
}

/// The error of tokens that are not read on: a fault stands at the next token, or at the last one where none is left.
pub fn error_of(tokens: &Tokens, stop: ReadErr, cursor: &Cursor<'_>) -> ParseErr
    ensures { result ≡ spec.error_of tokens.now.items stop cursor.now }
{
    let ReadErr::Fault(kind) = stop else {
        return ParseErr::NoMemory;
    };
    let at = match cursor.peek() {
        Some(token) => token.at,
        None => last_place(tokens),
    };
    ParseErr::Fault(Fault { kind, at })
}

// What the reading function answers.
fn read(alloc: Global, tokens: &Tokens, at: usize) -> Result<(Expr, usize), ParseErr>
    requires { at ≤ length tokens.now.items }
    ensures { Answers (expr_at tokens.now.items at) result }
{
    let mut cursor = Cursor::new(tokens, at);
    match expr_in(alloc, &mut cursor, MOST, 1) {
        Ok((tree, _)) => Ok((tree, tokens.len() - cursor.left())),
        Err(stop) => Err(error_of(tokens, stop, &cursor)),
    }
}

/// The longest expression from a place of the tokens on, and the place behind it (FreeBASIC Manual, Operators).
///
/// The fault is the first by the grammar: it stands at the first token up to which no expression agrees with the tokens.
/// It is `OutOfProfile` at a word that this profile doesn't have, where an operand or a type may begin, `DeepNesting`
/// where the tokens up to it begin an expression, but only one deeper than 200, and else `Expected`. Where the tokens end
/// too early it is `Expected` at the last one, or at 1:1 where there is none. Behind a whole expression it is
/// `DeepNesting` alone.
#[tactic(auto, using(crate::proofs::FirstFault::longest_if, crate::proofs::FirstFault::fails_if))]
pub fn expr(alloc: Global, tokens: &Tokens, at: usize) -> Result<(Expr, usize), ParseErr>
    requires { at ≤ length tokens.now.items }
    ensures reads { Answers (expr_at tokens.now.items at) result }
    ensures tree { IfOk result (λ x. Longest tokens.now.items at x.1 x.0) }
    ensures first { IfErr result (λ e. Fails tokens.now.items at e) }
{
    read(alloc, tokens, at)
}
