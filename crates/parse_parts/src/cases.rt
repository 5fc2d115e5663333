//! The tests of a Do, and what the branches of a Select are chosen by.
ghost use Rattle.std.specs.Prelude.{◌≡◌, ⊤};
ghost use Rattle.parse_expr.specs.Reading.{Reads, first};
ghost use Rattle.parse_parts.specs.Cases as spec;

use crate::kinds::{comparison_of, until_of};
use crate::steps::{EXPECTED, place_at, whole};
use crate::turns::{Turning, all_of, comma_behind};
use fb_ast::{Case, Cases, Comparison, Expr, Test, Until};
use fb_base::Span;
use fb_lexer::Word;
use parse_expr::{Cursor, ReadErr};
use sqlite_items::Items;
use std::alloc::Global;

fn until_at(cursor: &Cursor<'_>) -> Option<Until>
    ensures { result ≡ spec.until_at (first cursor.now) }
{
    match cursor.peek() {
        Some(token) => until_of(&token.kind),
        None => None,
    }
}

fn test_by(
    alloc: Global,
    cursor: &mut Cursor<'_>,
    at: Span,
    word: Option<Until>,
) -> Result<Option<Test>, ReadErr>
    ensures { Reads (spec.test_by 200 at word cursor.old) result cursor.new }
{
    match word {
        Some(word) => {
            cursor.take();
            let condition = whole(alloc, cursor)?;
            Ok(Some(Test {
                at,
                word,
                condition,
            }))
        }
        None => Ok(None),
    }
}

/// While or Until and a condition, if they come next.
#[tactic(auto, unfolding(crate::specs::Cases::any_test))]
#[inline(never)]
pub fn any_test(alloc: Global, cursor: &mut Cursor<'_>) -> Result<Option<Test>, ReadErr>
    ensures { Reads (spec.any_test 200 cursor.old) result cursor.new }
{
    test_by(alloc, cursor, place_at(cursor), until_at(cursor))
}

/// The test behind Loop, if it comes next and none stands behind Do.
#[tactic(auto, unfolding(crate::specs::Cases::last_test))]
#[inline(never)]
pub fn last_test(
    alloc: Global,
    cursor: &mut Cursor<'_>,
    tested: bool,
) -> Result<Option<Test>, ReadErr>
    ensures { Reads (spec.last_test 200 tested cursor.old) result cursor.new }
{
    if tested {
        return Ok(None);
    }
    any_test(alloc, cursor)
}

fn comparison_at(cursor: &Cursor<'_>) -> Option<Comparison>
    ensures { result ≡ spec.comparison_at (first cursor.now) }
{
    match cursor.peek() {
        Some(token) => comparison_of(&token.kind),
        None => None,
    }
}

// Behind Is.
#[tactic(auto, unfolding(crate::specs::Cases::is_case))]
fn is_case(alloc: Global, cursor: &mut Cursor<'_>, at: Span) -> Result<Case, ReadErr>
    ensures { Reads (spec.is_case 200 at cursor.old) result cursor.new }
{
    match comparison_at(cursor) {
        Some(which) => {
            cursor.take();
            let value = whole(alloc, cursor)?;
            Ok(Case::Is(at, which, value))
        }
        None => Err(EXPECTED),
    }
}

// Behind the first expression.
#[tactic(auto, unfolding(crate::specs::Cases::case_from))]
fn case_from(alloc: Global, cursor: &mut Cursor<'_>, low: Expr) -> Result<Case, ReadErr>
    ensures { Reads (spec.case_from 200 low cursor.old) result cursor.new }
{
    if cursor.sees_word(Word::KwTo) {
        cursor.take();
        let high = whole(alloc, cursor)?;
        return Ok(Case::Range(low, high));
    }
    Ok(Case::Value(low))
}

#[tactic(auto, unfolding(crate::specs::Cases::one_case))]
fn one_case(alloc: Global, cursor: &mut Cursor<'_>) -> Result<Case, ReadErr>
    ensures { Reads (spec.one_case 200 cursor.old) result cursor.new }
{
    if cursor.sees_word(Word::KwIs) {
        let at = place_at(cursor);
        cursor.take();
        return is_case(alloc, cursor, at);
    }
    let low = whole(alloc, cursor)?;
    case_from(alloc, cursor, low)
}

struct CaseTurns;

impl Turning<Items<Case>> for CaseTurns {
    ghost ready = { λ _. ⊤ };

    ghost turned = { λ _. spec.case_turn 200 };

    #[tactic(auto, unfolding(crate::specs::Cases::case_turn))]
    fn turn(
        &self,
        alloc: Global,
        cursor: &mut Cursor<'_>,
        found: &mut Items<Case>,
    ) -> Result<bool, ReadErr> {
        let one = one_case(alloc, cursor)?;
        comma_behind(cursor, found, one)
    }
}

#[tactic(auto, unfolding(crate::specs::Cases::case_list))]
fn case_list(alloc: Global, cursor: &mut Cursor<'_>) -> Result<Items<Case>, ReadErr>
    ensures { Reads (spec.case_list 200 cursor.old) result cursor.new }
{
    all_of(alloc, cursor, &CaseTurns, Items::new(alloc))
}

/// What a branch of a Select is chosen by, behind Case (FreeBASIC Manual, Select Case).
#[tactic(auto, unfolding(crate::specs::Cases::cases_))]
#[inline(never)]
pub fn cases_(alloc: Global, cursor: &mut Cursor<'_>) -> Result<Cases, ReadErr>
    ensures { Reads (spec.cases_ 200 cursor.old) result cursor.new }
{
    if cursor.sees_word(Word::KwElse) {
        cursor.take();
        return Ok(Cases::Else);
    }
    let all = case_list(alloc, cursor)?;
    Ok(Cases::List(all))
}
