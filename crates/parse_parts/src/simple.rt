//! Statements without statements inside.
ghost use Rattle.std.specs.Prelude.{◌≡◌, ⊤};
ghost use Rattle.parse_expr.specs.Reading.{Reads, first, holds};
ghost use Rattle.parse_parts.specs.Steps.{Turns};
ghost use Rattle.parse_parts.specs.Simple as spec;

use crate::kinds::{assignment_of, continue_of, exit_of};
use crate::steps::{EXPECTED, any_value, no_value, place, place_at, sees_name, sees_value, whole};
use crate::turns::{Turning, all_of, comma_behind};
use fb_ast::{Assignment, CallWord, End, Expr, Name, Printed, Stmt};
use fb_base::Span;
use fb_lexer::{Mark, TokenKind, Word};
use parse_expr::{Cursor, ReadErr, name};
use sqlite_items::Items;
use std::alloc::Global;

fn with_place(at: Span, which: Option<Assignment>) -> Option<(Assignment, Span)>
    ensures { result ≡ spec.with_place at which }
{
    match which {
        Some(which) => Some((which, at)),
        None => None,
    }
}

// The mark of an assignment, if it comes next, and its place.
fn assignment_at(cursor: &Cursor<'_>) -> Option<(Assignment, Span)>
    ensures { result ≡ spec.assignment_at (first cursor.now) }
{
    match cursor.peek() {
        Some(token) => with_place(token.at, assignment_of(&token.kind)),
        None => None,
    }
}

// From the mark on.
#[tactic(auto, unfolding(crate::specs::Simple::assign))]
fn assign(
    alloc: Global,
    cursor: &mut Cursor<'_>,
    at: Span,
    left: Expr,
    mark: (Assignment, Span),
) -> Result<Stmt, ReadErr>
    ensures { Reads (spec.assign 200 at left mark.0 mark.1 cursor.old) result cursor.new }
{
    cursor.take();
    let value = whole(alloc, cursor)?;
    let (which, mark_at) = mark;
    Ok(Stmt::Assign(at, left, which, mark_at, value))
}

// What is no call has to be assigned to.
#[tactic(auto, unfolding(crate::specs::Simple::must_assign))]
fn must_assign(
    alloc: Global,
    cursor: &mut Cursor<'_>,
    at: Span,
    left: Expr,
) -> Result<Stmt, ReadErr>
    ensures { Reads (spec.must_assign 200 at left cursor.old) result cursor.new }
{
    match assignment_at(cursor) {
        Some(mark) => assign(alloc, cursor, at, left, mark),
        None => Err(EXPECTED),
    }
}

#[tactic(auto, unfolding(crate::specs::Simple::may_assign))]
fn may_assign(alloc: Global, cursor: &mut Cursor<'_>, at: Span, left: Expr) -> Result<Stmt, ReadErr>
    ensures { Reads (spec.may_assign 200 at left cursor.old) result cursor.new }
{
    match assignment_at(cursor) {
        Some(mark) => assign(alloc, cursor, at, left, mark),
        None => Ok(Stmt::Call(at, left)),
    }
}

struct ValueTurns;

impl Turning<Items<Expr>> for ValueTurns {
    ghost ready = { λ _. ⊤ };

    ghost turned = { λ _. spec.value_turn 200 };

    #[tactic(auto, unfolding(crate::specs::Simple::value_turn))]
    fn turn(
        &self,
        alloc: Global,
        cursor: &mut Cursor<'_>,
        found: &mut Items<Expr>,
    ) -> Result<bool, ReadErr> {
        let one = whole(alloc, cursor)?;
        comma_behind(cursor, found, one)
    }
}

#[tactic(auto, unfolding(crate::specs::Simple::values))]
fn values(alloc: Global, cursor: &mut Cursor<'_>) -> Result<Items<Expr>, ReadErr>
    ensures { Reads (spec.values 200 cursor.old) result cursor.new }
{
    all_of(alloc, cursor, &ValueTurns, Items::new(alloc))
}

// Arguments without parentheses, perhaps none.
#[tactic(auto, unfolding(crate::specs::Simple::arguments))]
fn arguments(alloc: Global, cursor: &mut Cursor<'_>) -> Result<Items<Expr>, ReadErr>
    ensures { Reads (spec.arguments 200 cursor.old) result cursor.new }
{
    if sees_value(cursor) {
        return values(alloc, cursor);
    }
    no_value(cursor)?;
    Ok(Items::new(alloc))
}

#[tactic(auto, unfolding(crate::specs::Simple::call_name))]
fn call_name(
    alloc: Global,
    cursor: &mut Cursor<'_>,
    at: Span,
    callee: Name,
) -> Result<Stmt, ReadErr>
    ensures { Reads (spec.call_name 200 at callee cursor.old) result cursor.new }
{
    let all = arguments(alloc, cursor)?;
    Ok(Stmt::CallName(at, callee, all))
}

// Behind a name with which nothing goes on.
#[tactic(auto, unfolding(crate::specs::Simple::named))]
fn named(alloc: Global, cursor: &mut Cursor<'_>, at: Span, found: Name) -> Result<Stmt, ReadErr>
    ensures { Reads (spec.named 200 at found cursor.old) result cursor.new }
{
    match assignment_at(cursor) {
        Some(mark) => assign(alloc, cursor, at, Expr::Name(found.at, found.text), mark),
        None => call_name(alloc, cursor, at, found),
    }
}

fn is_call(tree: &Expr) -> bool
    ensures { result ≡ spec.is_call tree.now }
{
    match tree {
        Expr::Call(..) | Expr::CallWord(..) => true,
        _ => false,
    }
}

#[tactic(auto, unfolding(crate::specs::Simple::headed))]
fn headed(alloc: Global, cursor: &mut Cursor<'_>, at: Span, head: Expr) -> Result<Stmt, ReadErr>
    ensures { Reads (spec.headed 200 at head cursor.old) result cursor.new }
{
    if is_call(&head) {
        return may_assign(alloc, cursor, at, head);
    }
    must_assign(alloc, cursor, at, head)
}

// A mark that goes on with a name.
fn goes_on(kind: &TokenKind) -> bool
    ensures { result ≡ spec.goes_on kind.now }
{
    match kind {
        TokenKind::Mark(Mark::Open) => true,
        TokenKind::Mark(Mark::OpenBracket) => true,
        TokenKind::Mark(Mark::Dot) => true,
        TokenKind::Mark(Mark::Arrow) => true,
        _ => false,
    }
}

fn sees_more(cursor: &Cursor<'_>) -> bool
    ensures { result ≡ holds spec.goes_on (first cursor.now) }
{
    match cursor.peek() {
        Some(token) => goes_on(&token.kind),
        None => false,
    }
}

// Whether a name comes next, and nothing goes on with it.
#[tactic(auto, unfolding(crate::specs::Simple::sees_bare))]
fn sees_bare(cursor: &Cursor<'_>) -> bool
    ensures { result ≡ spec.sees_bare cursor.now }
{
    if !sees_name(cursor) {
        return false;
    }
    let mut behind = cursor.copy();
    behind.take();
    !sees_more(&behind)
}

/// A statement that begins with an operand, which comes next: an assignment or a call.
#[tactic(auto, unfolding(crate::specs::Simple::valued))]
#[inline(never)]
pub fn valued(alloc: Global, cursor: &mut Cursor<'_>, at: Span) -> Result<Stmt, ReadErr>
    ensures { Reads (spec.valued 200 at cursor.old) result cursor.new }
{
    if sees_bare(cursor) {
        let found = name(alloc, cursor)?;
        return named(alloc, cursor, at, found);
    }
    let head = place(alloc, cursor)?;
    headed(alloc, cursor, at, head)
}

fn sees_open_behind(cursor: &Cursor<'_>) -> bool
    ensures { result ≡ spec.sees_open_behind cursor.now }
{
    let mut behind = cursor.copy();
    behind.take();
    behind.sees(Mark::Open)
}

/// A word that is called and gives nothing, which comes next, with parentheses or without (FreeBASIC Manual, Threads,
/// Sleep).
#[tactic(auto, unfolding(crate::specs::Simple::called))]
#[inline(never)]
pub fn called(
    alloc: Global,
    cursor: &mut Cursor<'_>,
    at: Span,
    word: CallWord,
) -> Result<Stmt, ReadErr>
    ensures { Reads (spec.called 200 at word cursor.old) result cursor.new }
{
    if sees_open_behind(cursor) {
        return valued(alloc, cursor, at);
    }
    cursor.take();
    let all = arguments(alloc, cursor)?;
    Ok(Stmt::CallWord(at, word, all))
}

/// `Function = e`, where Function comes next.
#[tactic(auto, unfolding(crate::specs::Simple::result_))]
#[inline(never)]
pub fn result_(alloc: Global, cursor: &mut Cursor<'_>, at: Span) -> Result<Stmt, ReadErr>
    ensures { Reads (spec.result_ 200 at cursor.old) result cursor.new }
{
    cursor.take();
    cursor.expect(Mark::Equal)?;
    let value = whole(alloc, cursor)?;
    Ok(Stmt::Result(at, value))
}

// Whether what stands between two values of Print comes next.
#[tactic(auto, unfolding(crate::specs::Simple::sees_between))]
fn sees_between(cursor: &Cursor<'_>) -> bool
    ensures { result ≡ spec.sees_between cursor.now }
{
    if cursor.sees(Mark::Semicolon) {
        return true;
    }
    cursor.sees(Mark::Comma)
}

// Behind an expression only what stands between goes on.
#[tactic(auto, unfolding(crate::specs::Simple::printed_value))]
fn printed_value(
    cursor: &mut Cursor<'_>,
    found: &mut Items<Printed>,
    value: Expr,
) -> Result<bool, ReadErr>
    ensures { Turns (spec.printed_value found.old value cursor.old) found.new result cursor.new }
{
    found.push(Printed::Expr(value))?;
    Ok(sees_between(cursor))
}

struct PrintedTurns;

impl Turning<Items<Printed>> for PrintedTurns {
    ghost ready = { λ _. ⊤ };

    ghost turned = { λ _. spec.print_turn 200 };

    #[tactic(auto, unfolding(crate::specs::Simple::print_turn))]
    fn turn(
        &self,
        alloc: Global,
        cursor: &mut Cursor<'_>,
        found: &mut Items<Printed>,
    ) -> Result<bool, ReadErr> {
        if cursor.sees(Mark::Semicolon) {
            found.push(Printed::Semicolon(place_at(cursor)))?;
            cursor.take();
            return Ok(true);
        }
        if cursor.sees(Mark::Comma) {
            found.push(Printed::Comma(place_at(cursor)))?;
            cursor.take();
            return Ok(true);
        }
        if sees_value(cursor) {
            let value = whole(alloc, cursor)?;
            return printed_value(cursor, found, value);
        }
        no_value(cursor)?;
        Ok(false)
    }
}

#[tactic(auto, unfolding(crate::specs::Simple::all_printed))]
fn all_printed(alloc: Global, cursor: &mut Cursor<'_>) -> Result<Items<Printed>, ReadErr>
    ensures { Reads (spec.all_printed 200 cursor.old) result cursor.new }
{
    all_of(alloc, cursor, &PrintedTurns, Items::new(alloc))
}

/// Print, which comes next (FreeBASIC Manual, Print).
#[tactic(auto, unfolding(crate::specs::Simple::print))]
#[inline(never)]
pub fn print(alloc: Global, cursor: &mut Cursor<'_>, at: Span) -> Result<Stmt, ReadErr>
    ensures { Reads (spec.print 200 at cursor.old) result cursor.new }
{
    cursor.take();
    let all = all_printed(alloc, cursor)?;
    Ok(Stmt::Print(at, all))
}

/// `Line Input`, where Line comes next (FreeBASIC Manual, Line Input).
#[tactic(auto, unfolding(crate::specs::Simple::line_input))]
#[inline(never)]
pub fn line_input(alloc: Global, cursor: &mut Cursor<'_>, at: Span) -> Result<Stmt, ReadErr>
    ensures { Reads (spec.line_input 200 at cursor.old) result cursor.new }
{
    cursor.take();
    cursor.expect_word(Word::KwInput)?;
    let target = place(alloc, cursor)?;
    Ok(Stmt::LineInput(at, target))
}

fn exit_at(cursor: &Cursor<'_>) -> Option<End>
    ensures { result ≡ spec.exit_at (first cursor.now) }
{
    match cursor.peek() {
        Some(token) => exit_of(&token.kind),
        None => None,
    }
}

/// Exit, which comes next (FreeBASIC Manual, Exit).
#[tactic(auto, unfolding(crate::specs::Simple::exit))]
#[inline(never)]
pub fn exit(cursor: &mut Cursor<'_>, at: Span) -> Result<Stmt, ReadErr>
    ensures { Reads (spec.exit at cursor.old) result cursor.new }
{
    cursor.take();
    match exit_at(cursor) {
        Some(which) => {
            cursor.take();
            Ok(Stmt::Exit(at, which))
        }
        None => Err(EXPECTED),
    }
}

fn continue_at(cursor: &Cursor<'_>) -> Option<End>
    ensures { result ≡ spec.continue_at (first cursor.now) }
{
    match cursor.peek() {
        Some(token) => continue_of(&token.kind),
        None => None,
    }
}

/// Continue, which comes next (FreeBASIC Manual, Continue).
#[tactic(auto, unfolding(crate::specs::Simple::continue_))]
#[inline(never)]
pub fn continue_(cursor: &mut Cursor<'_>, at: Span) -> Result<Stmt, ReadErr>
    ensures { Reads (spec.continue_ at cursor.old) result cursor.new }
{
    cursor.take();
    match continue_at(cursor) {
        Some(which) => {
            cursor.take();
            Ok(Stmt::Continue(at, which))
        }
        None => Err(EXPECTED),
    }
}

/// Return, which comes next, and a value, if one follows (FreeBASIC Manual, Return).
#[tactic(auto, unfolding(crate::specs::Simple::return_))]
#[inline(never)]
pub fn return_(alloc: Global, cursor: &mut Cursor<'_>, at: Span) -> Result<Stmt, ReadErr>
    ensures { Reads (spec.return_ 200 at cursor.old) result cursor.new }
{
    cursor.take();
    let value = any_value(alloc, cursor)?;
    Ok(Stmt::Return(at, value))
}

#[tactic(auto, unfolding(crate::specs::Simple::brackets))]
fn brackets(cursor: &mut Cursor<'_>) -> Result<bool, ReadErr>
    ensures { Reads (spec.brackets cursor.old) result cursor.new }
{
    if cursor.sees(Mark::OpenBracket) {
        cursor.take();
        cursor.expect(Mark::CloseBracket)?;
        return Ok(true);
    }
    Ok(false)
}

/// Delete, which comes next (FreeBASIC Manual, Delete).
#[tactic(auto, unfolding(crate::specs::Simple::delete))]
#[inline(never)]
pub fn delete(alloc: Global, cursor: &mut Cursor<'_>, at: Span) -> Result<Stmt, ReadErr>
    ensures { Reads (spec.delete 200 at cursor.old) result cursor.new }
{
    cursor.take();
    let all = brackets(cursor)?;
    let pointer = whole(alloc, cursor)?;
    Ok(Stmt::Delete(at, all, pointer))
}

/// End as a statement, which comes next, and a value, if one follows (FreeBASIC Manual, End (Statement)).
#[tactic(auto, unfolding(crate::specs::Simple::end_))]
#[inline(never)]
pub fn end_(alloc: Global, cursor: &mut Cursor<'_>, at: Span) -> Result<Stmt, ReadErr>
    ensures { Reads (spec.end_ 200 at cursor.old) result cursor.new }
{
    cursor.take();
    let value = any_value(alloc, cursor)?;
    Ok(Stmt::End(at, value))
}
