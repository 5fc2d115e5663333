//! The tokens of a text from a place on.
ghost use Rattle.std.specs.Prelude.{◌≡◌, ◌≤◌, ◌+◌, ◌-◌, length, List, drop, slice_get};
ghost use Rattle.std.specs.Option.{option_copied};
ghost use Rattle.parse_expr.specs.Reading as spec;
ghost use Rattle.parse_expr.specs.Reading.{Reads};

use crate::error::ReadErr;
use crate::kinds::is_refused;
use fb_base::FaultKind;
use fb_lexer::{Mark, Token, TokenKind, Tokens, Word};
use std::marker::Model;

/// The tokens of a text from a place on, which contracts see as their list.
#[derive(Drop)]
pub struct Cursor<'a> {
    tokens: &'a Tokens,
    at: usize,
}

impl<'a> Model for Cursor<'a> {
    ghost use Rattle.std.specs.Prelude.{List, drop, length, ◌≤◌};
    ghost use Rattle.fb_lexer.specs.declared.token.Token.{Token};

    ghost Value = { List Token };

    ghost view = { λ c. drop c.at c.tokens.now.items };

    ghost invariant = { λ c. c.at ≤ length c.tokens.now.items };
}

impl<'a> Cursor<'a> {
    /// The tokens from a place on.
    pub fn new(tokens: &'a Tokens, at: usize) -> Cursor<'a>
        requires { at ≤ length tokens.now.items }
        ensures { result ≡ drop at tokens.now.items }
    {
        Cursor { tokens, at }
    }

    /// How many tokens are left.
    pub fn left(&self) -> usize
        ensures value { result ≡ length self.now }
        ensures most { result ≤ 65536 }
    {
        self.tokens.len() - self.at
    }

    /// The next token.
    #[tactic(auto, using(crate::proofs::Cursors::first_some, crate::proofs::Cursors::first_none))]
    pub fn peek(&self) -> Option<&'a Token>
        ensures { option_copied result ≡ spec.first self.now }
    {
        if self.at < self.tokens.len() {
            Some(self.tokens.at(self.at))
        } else {
            None
        }
    }

    /// The same tokens once more, to come back to.
    pub fn copy(&self) -> Cursor<'a>
        ensures { result ≡ self.now }
    {
        Cursor {
            tokens: self.tokens,
            at: self.at,
        }
    }

    /// The token so many places behind the next one.
    #[tactic(auto, using(crate::proofs::Cursors::get_some, crate::proofs::Cursors::get_none))]
    pub fn get(&self, i: usize) -> Option<&'a Token>
        ensures { option_copied result ≡ slice_get self.now i }
    {
        if i < self.tokens.len() - self.at {
            Some(self.tokens.at(self.at + i))
        } else {
            None
        }
    }

    /// Takes the next token, if there is one.
    #[tactic(auto, using(crate::proofs::Cursors::next_some, crate::proofs::Cursors::next_none))]
    pub fn take(&mut self)
        ensures { self.new ≡ spec.next self.old }
    {
        if self.at < self.tokens.len() {
            self.at += 1;
        }
    }

    /// Whether a mark comes next.
    #[tactic(auto, unfolding(crate::specs::Reading::sees))]
    pub fn sees(&self, mark: Mark) -> bool
        ensures { result ≡ spec.sees mark self.now }
    {
        match self.peek() {
            Some(token) => is_mark(mark, &token.kind),
            None => false,
        }
    }

    /// Whether a reserved word comes next.
    #[tactic(auto, unfolding(crate::specs::Reading::sees_word))]
    pub fn sees_word(&self, word: Word) -> bool
        ensures { result ≡ spec.sees_word word self.now }
    {
        match self.peek() {
            Some(token) => is_word(word, &token.kind),
            None => false,
        }
    }

    /// Takes a mark, which has to come next.
    #[tactic(auto, unfolding(crate::specs::Reading::expect))]
    pub fn expect(&mut self, mark: Mark) -> Result<(), ReadErr>
        ensures { Reads (spec.expect mark self.old) result self.new }
    {
        if self.sees(mark) {
            self.take();
            Ok(())
        } else {
            Err(ReadErr::Fault(FaultKind::Expected))
        }
    }

    /// Takes a reserved word, which has to come next.
    #[tactic(auto, unfolding(crate::specs::Reading::expect_word))]
    pub fn expect_word(&mut self, word: Word) -> Result<(), ReadErr>
        ensures { Reads (spec.expect_word word self.old) result self.new }
    {
        if self.sees_word(word) {
            self.take();
            Ok(())
        } else {
            Err(ReadErr::Fault(FaultKind::Expected))
        }
    }

    /// Why no operand, type, field or statement begins with the next token, where one may.
    #[tactic(auto, unfolding(crate::specs::Reading::refusal))]
    pub fn refusal(&self) -> FaultKind
        ensures { result ≡ spec.refusal self.now }
    {
        match self.peek() {
            Some(token) => refusal_by(&token.kind),
            None => FaultKind::Expected,
        }
    }

    /// That refusal as an error.
    pub fn refuse(&self) -> ReadErr
        ensures { result ≡ ReadErr.Fault (spec.refusal self.now) }
    {
        ReadErr::Fault(self.refusal())
    }
}

#[tactic(auto, unfolding(crate::specs::Reading::same_mark))]
fn is_mark(mark: Mark, kind: &TokenKind) -> bool
    ensures { result ≡ spec.is_mark mark kind.now }
{
    match kind {
        TokenKind::Mark(found) => *found == mark,
        _ => false,
    }
}

#[tactic(auto, unfolding(crate::specs::Reading::same_word))]
fn is_word(word: Word, kind: &TokenKind) -> bool
    ensures { result ≡ spec.is_word word kind.now }
{
    match kind {
        TokenKind::Word(found) => *found == word,
        _ => false,
    }
}

fn refusal_by(kind: &TokenKind) -> FaultKind
    ensures { result ≡ spec.refusal_by kind.now }
{
    match kind {
        TokenKind::Word(word) => {
            if is_refused(*word) {
                FaultKind::OutOfProfile
            } else {
                FaultKind::Expected
            }
        }
        _ => FaultKind::Expected,
    }
}
