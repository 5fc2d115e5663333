//! The steps that statements are read by.
ghost use Rattle.std.specs.Prelude.{◌≡◌, ◌≤◌, ◌-◌};
ghost use Rattle.parse_expr.specs.Reading.{Reads, first};
ghost use Rattle.parse_parts.specs.Steps as spec;
ghost use Rattle.parse_parts.specs.Steps.{Turns};

use crate::kinds::{InLine, is_sep};
use fb_ast::{Expr, Name, TypeName};
use fb_base::{FaultKind, Span};
use fb_lexer::{Mark, TokenKind, Word};
use parse_expr::{Cursor, ReadErr, begins_expr, expr_in, name, type_name};
use sqlite_items::Items;
use std::alloc::Global;

/// How deep an expression may be.
const MOST: usize = 200;

/// The level of an expression between parentheses, commas or brackets.
const WHOLE: u8 = 1;

/// The level of an operand with what goes on behind it.
const OPERAND: u8 = 14;

const ORIGIN: Span = Span { line: 1, col: 1 };

/// That something else has to come next.
pub const EXPECTED: ReadErr = ReadErr::Fault(FaultKind::Expected);

/// The place of the next token.
#[tactic(auto, unfolding(crate::specs::Steps::place_at))]
pub fn place_at(cursor: &Cursor<'_>) -> Span
    ensures { result ≡ spec.place_at cursor.now }
{
    match cursor.peek() {
        Some(token) => token.at,
        None => ORIGIN,
    }
}

/// The place of the last token before those that are left.
#[tactic(auto, unfolding(crate::specs::Steps::last_before))]
pub fn last_before(before: &Cursor<'_>, cursor: &Cursor<'_>) -> Span
    ensures { result ≡ spec.last_before before.now cursor.now }
{
    let taken = before.left().saturating_sub(cursor.left());
    match before.get(taken.saturating_sub(1)) {
        Some(token) => token.at,
        None => ORIGIN,
    }
}

fn weight_of(kind: &TokenKind) -> usize
    ensures value { result ≡ spec.weight_of kind.now }
    ensures most { result ≤ 1 }
{
    match kind {
        TokenKind::Colon | TokenKind::LineEnd => 0,
        _ => 1,
    }
}

fn weight_next(cursor: &Cursor<'_>) -> usize
    ensures value { result ≡ spec.weight_at (first cursor.now) }
    ensures most { result ≤ 1 }
{
    match cursor.peek() {
        Some(token) => weight_of(&token.kind),
        None => 0,
    }
}

// How many of so many tokens, each of which is taken, are neither line ends nor colons.
fn words(cursor: &mut Cursor<'_>, count: usize) -> usize
    ensures value { result ≡ spec.words count cursor.old }
    ensures most { result ≤ count }
{
    let mut found = 0;
    for _turn in 0..count {
        found += weight_next(cursor);
        cursor.take();
    }
    found
}

/// How many tokens before those that are left are neither line ends nor colons: at most 65536.
#[tactic(auto, unfolding(crate::specs::Steps::words_before))]
pub fn words_before(before: &Cursor<'_>, cursor: &Cursor<'_>) -> usize
    ensures value { result ≡ spec.words_before before.now cursor.now }
    ensures most { result ≤ 65536 }
{
    let taken = before.left().saturating_sub(cursor.left());
    words(&mut before.copy(), taken)
}

fn kind_or(kind: FaultKind, other: FaultKind) -> FaultKind
    ensures { result ≡ spec.kind_or kind other }
{
    match other {
        FaultKind::OutOfProfile => FaultKind::OutOfProfile,
        _ => kind,
    }
}

/// What is wrong with a token that begins no statement where one may begin: a word that the profile doesn't have, or else
/// this. A text that ends too early is something else.
#[tactic(auto, unfolding(crate::specs::Steps::astray))]
pub fn astray(cursor: &Cursor<'_>, kind: FaultKind) -> FaultKind
    ensures { result ≡ spec.astray kind cursor.now }
{
    match cursor.peek() {
        Some(_) => kind_or(kind, cursor.refusal()),
        None => FaultKind::Expected,
    }
}

/// What is wrong with a token where the end of a statement would do.
#[tactic(auto, unfolding(crate::specs::Steps::extra))]
pub fn extra(cursor: &Cursor<'_>) -> FaultKind
    ensures { result ≡ spec.extra cursor.now }
{
    match cursor.peek() {
        Some(_) => FaultKind::ExtraText,
        None => FaultKind::Expected,
    }
}

/// Whether the end of a statement comes next.
#[tactic(auto, unfolding(crate::specs::Steps::sees_sep))]
pub fn sees_sep(cursor: &Cursor<'_>, line: InLine) -> bool
    ensures { result ≡ spec.sees_sep line cursor.now }
{
    match cursor.peek() {
        Some(token) => is_sep(line, &token.kind),
        None => false,
    }
}

/// Takes the end of a statement, which has to come next.
#[tactic(auto, unfolding(crate::specs::Steps::sep))]
pub fn sep(cursor: &mut Cursor<'_>, line: InLine) -> Result<(), ReadErr>
    ensures { Reads (spec.sep line cursor.old) result cursor.new }
{
    if sees_sep(cursor, line) {
        cursor.take();
        Ok(())
    } else {
        Err(ReadErr::Fault(extra(cursor)))
    }
}

/// An expression.
#[tactic(auto, unfolding(crate::specs::Steps::whole))]
#[inline(never)]
pub fn whole(alloc: Global, cursor: &mut Cursor<'_>) -> Result<Expr, ReadErr>
    ensures { Reads (spec.whole 200 cursor.old) result cursor.new }
{
    let (tree, _) = expr_in(alloc, cursor, MOST, WHOLE)?;
    Ok(tree)
}

/// An expression with nothing before it but `*`.
#[tactic(auto, unfolding(crate::specs::Steps::place))]
pub fn place(alloc: Global, cursor: &mut Cursor<'_>) -> Result<Expr, ReadErr>
    ensures { Reads (spec.place 200 cursor.old) result cursor.new }
{
    if cursor.sees(Mark::At) {
        return Err(EXPECTED);
    }
    if cursor.sees(Mark::Minus) {
        return Err(EXPECTED);
    }
    let (tree, _) = expr_in(alloc, cursor, MOST, OPERAND)?;
    Ok(tree)
}

/// Whether an expression begins with the next token.
#[tactic(auto, unfolding(crate::specs::Steps::sees_value))]
pub fn sees_value(cursor: &Cursor<'_>) -> bool
    ensures { result ≡ spec.sees_value cursor.now }
{
    begins_expr(cursor)
}

/// Passes by a token that begins no expression, where one may begin.
#[tactic(auto, unfolding(crate::specs::Steps::no_value))]
pub fn no_value(cursor: &Cursor<'_>) -> Result<(), ReadErr>
    ensures { Reads (spec.no_value cursor.now) result cursor.now }
{
    match cursor.refusal() {
        FaultKind::OutOfProfile => Err(ReadErr::Fault(FaultKind::OutOfProfile)),
        _ => Ok(()),
    }
}

/// An expression, if one begins.
#[tactic(auto, unfolding(crate::specs::Steps::any_value))]
#[inline(never)]
pub fn any_value(alloc: Global, cursor: &mut Cursor<'_>) -> Result<Option<Expr>, ReadErr>
    ensures { Reads (spec.any_value 200 cursor.old) result cursor.new }
{
    if sees_value(cursor) {
        let value = whole(alloc, cursor)?;
        return Ok(Some(value));
    }
    no_value(cursor)?;
    Ok(None)
}

/// An expression behind this word, if it comes next.
#[tactic(auto, unfolding(crate::specs::Steps::value_behind))]
#[inline(never)]
pub fn value_behind(
    alloc: Global,
    cursor: &mut Cursor<'_>,
    word: Word,
) -> Result<Option<Expr>, ReadErr>
    ensures { Reads (spec.value_behind 200 word cursor.old) result cursor.new }
{
    if cursor.sees_word(word) {
        cursor.take();
        let value = whole(alloc, cursor)?;
        return Ok(Some(value));
    }
    Ok(None)
}

/// `=` and a value, if it comes next.
#[tactic(auto, unfolding(crate::specs::Steps::initial))]
pub fn initial(alloc: Global, cursor: &mut Cursor<'_>) -> Result<Option<Expr>, ReadErr>
    ensures { Reads (spec.initial 200 cursor.old) result cursor.new }
{
    if cursor.sees(Mark::Equal) {
        cursor.take();
        let value = whole(alloc, cursor)?;
        return Ok(Some(value));
    }
    Ok(None)
}

fn is_name(kind: &TokenKind) -> bool
    ensures { result ≡ spec.is_name kind.now }
{
    match kind {
        TokenKind::Name(_) => true,
        _ => false,
    }
}

/// Whether a name comes next.
#[tactic(auto, unfolding(crate::specs::Steps::sees_name))]
pub fn sees_name(cursor: &Cursor<'_>) -> bool
    ensures { result ≡ spec.sees_name cursor.now }
{
    match cursor.peek() {
        Some(token) => is_name(&token.kind),
        None => false,
    }
}

/// A name, if it comes next.
#[tactic(auto, unfolding(crate::specs::Steps::any_name))]
pub fn any_name(alloc: Global, cursor: &mut Cursor<'_>) -> Result<Option<Name>, ReadErr>
    ensures { Reads (spec.any_name cursor.old) result cursor.new }
{
    if sees_name(cursor) {
        let found = name(alloc, cursor)?;
        return Ok(Some(found));
    }
    Ok(None)
}

/// As and a type, if it comes next.
#[tactic(auto, unfolding(crate::specs::Steps::any_type))]
pub fn any_type(alloc: Global, cursor: &mut Cursor<'_>) -> Result<Option<TypeName>, ReadErr>
    ensures { Reads (spec.any_type cursor.old) result cursor.new }
{
    if cursor.sees_word(Word::KwAs) {
        cursor.take();
        let ty = type_name(alloc, cursor)?;
        return Ok(Some(ty));
    }
    Ok(None)
}
