//! A text's tokens.
ghost use Rattle.std.specs.Prelude.{ℕ, List, ◌∷◌, Option, ◌≡◌, ◌<◌, ◌≤◌, ◌+◌, ◌-◌, ◌^◌, length, slice_get, Some, ◌==◌};
ghost use Rattle.fb_lexer.specs.Rows.{Kept, Lexed, Row, Tells, start};
ghost use Rattle.fb_lexer.specs.Grammar.{Begins};
ghost use Rattle.fb_lexer.specs.Pieces.{Reads, piece_of};
ghost use Rattle.fb_lexer.specs.declared.piece.Before.{Before};
ghost use Rattle.fb_lexer.specs.declared.piece.Piece.{Piece};
ghost use Rattle.fb_base.specs.declared.fault.Fault.{Fault};
ghost use Rattle.fb_lexer.specs.declared.token.Token.{Token};

use crate::front::piece_of;
use crate::piece::{Before, Piece, Situation};
use crate::row::{length_of, past, token_of};
use crate::token::Token;
use fb_base::{Fault, FaultKind, NoMemory, Span};
use std::alloc::Global;
use std::marker::Model;

/// The greatest number of tokens of a text.
const MOST: usize = 65_536;

/// Why a text has no tokens.
#[derive(Clone, Copy, Debug, PartialEq, Eq)]
pub enum LexErr {
    /// Want of memory.
    NoMemory,
    /// The text's first fault.
    Fault(Fault),
}

impl From<NoMemory> for LexErr {
    ghost use Rattle.fb_lexer.specs.declared.lexing.LexErr.TheVariants.{NoMemory as WantOfMemory};

    ghost from_gives = { λ _ e. e ≡ WantOfMemory };

    fn from(_: NoMemory) -> LexErr {
        LexErr::NoMemory
    }
}

/// The tokens of a text, at most 65,536 of them. `lex` alone makes them.
///
/// Contracts see the list as `items`, and beside it `last_line`, the number of the text's last line.
#[derive(Debug, Drop)]
pub struct Tokens {
    tokens: Vec<Token>,
    last: u32,
}

impl Model for Tokens {
    ghost use Rattle.std.specs.Prelude.{length, ◌≤◌};
    ghost use Rattle.fb_lexer.specs.TokenList.{TokenList};

    ghost Value = { TokenList };

    ghost view = { λ t. record { items = t.tokens.items; last_line = t.last } };

    ghost invariant = { λ t. length t.tokens.items ≤ 65536 };
}

impl Tokens {
    /// How many tokens there are.
    pub fn len(&self) -> usize
        ensures value { result ≡ length self.now.items }
        ensures most { result ≤ 65536 }
    {
        self.tokens.len()
    }

    /// Whether there are none.
    pub fn is_empty(&self) -> bool
        ensures { result ≡ (length self.now.items == 0) }
    {
        self.tokens.is_empty()
    }

    /// The token at a place.
    pub fn at(&self, i: usize) -> &Token
        requires { i < length self.now.items }
        ensures { slice_get self.now.items i ≡ Some result.now }
    {
        &self.tokens[i]
    }

    /// The number of the text's last line: one more than it has bytes 10.
    pub fn last_line(&self) -> u32
        ensures { result ≡ self.now.last_line }
    {
        self.last
    }
}

// Puts a token last, if there is one. A fault is that there are too many.
fn keep(tokens: &mut Vec<Token>, token: Option<Token>) -> Result<(), LexErr>
    requires { length tokens.old.items ≤ 65536 }
    ensures { Kept tokens.old.items tokens.new.items token result }
{
    let Some(token) = token else {
        return Ok(());
    };
    if tokens.len() == MOST {
        return Err(LexErr::Fault(Fault {
            kind: FaultKind::TooManyTokens,
            at: token.at,
        }));
    }
    match tokens.push(token) {
        Ok(()) => Ok(()),
        Err(_) => Err(LexErr::NoMemory),
    }
}

// The tokens of a text, piece by piece.
fn tokens_of(alloc: Global, text: &[u8]) -> Result<Tokens, LexErr>
    requires { length text.now < 2 ^ 32 - 1 }
    ensures { Lexed Reads text.now result }
{
    let mut tokens = Vec::new(alloc);
    let mut rest = text;
    let mut now = Situation {
        before: Before::White,
        ended: false,
        at: Span { line: 1, col: 1 },
    };
    while !rest.is_empty() {
        let piece = piece_of(alloc, now.before, rest)?;
        if let Piece::Fault(kind) = piece {
            return Err(LexErr::Fault(Fault { kind, at: now.at }));
        }
        let (front, after) = rest.split_at(length_of(&piece));
        let next = past(now, &piece, front);
        keep(&mut tokens, token_of(now, piece))?;
        now = next;
        rest = after;
    }
    Ok(Tokens {
        tokens,
        last: now.at.line,
    })
}

/// The tokens of a text, in order, each at the place of its first byte. The text has fewer than 2^32 - 1 bytes.
///
/// White space, comments and joins stand between tokens, at each place the longest token is taken, and line ends in a
/// row are one token, at the first of them. The fault is the first in the text: `BadByte` where nothing begins,
/// `OpenText` and `OpenComment` where a string literal or a comment begins that isn't closed, `BigNumber` where a number
/// above 2^64 - 1 begins, and `TooManyTokens` at the 65,537th token.
pub fn lex(alloc: Global, text: &[u8]) -> Result<Tokens, LexErr>
    requires { length text.now < 2 ^ 32 - 1 }
    // The text is a row of pieces whose tokens these are, or whose first fault this is.
    ensures exact { Lexed Begins text.now result }
    // No other row is one of the text.
    ensures only { (tokens : List Token) (fault : Option Fault) → Row Begins start text.now tokens fault → Tells tokens fault result }
{
    tokens_of(alloc, text)
}

/// Each text is one row of pieces: there is one, and two of one text have the same tokens and the same fault.
pub fn one_row()
    ensures some { (text : List ℕ) → (tokens : List Token) × (fault : Option Fault) × Row Begins start text tokens fault }
    ensures unique { (text : List ℕ) (tokens others : List Token) (fault other : Option Fault) → Row Begins start text tokens fault → Row Begins start text others other → (tokens ≡ others) × (fault ≡ other) }
{}

/// The piece that begins at a place is the one that a reading of the bytes gives, which is a function.
pub fn one_piece()
    ensures begins { (before : Before) (b : ℕ) (bytes : List ℕ) (piece : Piece) → piece_of before (b ∷ bytes) ≡ piece → Begins before (b ∷ bytes) piece }
    ensures only { (before : Before) (b : ℕ) (bytes : List ℕ) (piece : Piece) → Begins before (b ∷ bytes) piece → piece_of before (b ∷ bytes) ≡ piece }
{}
