//! Types and their members.
ghost use Rattle.std.specs.Prelude.{◌≡◌, ⊤};
ghost use Rattle.parse_expr.specs.Reading.{Reads};
ghost use Rattle.parse_parts.specs.Members as spec;
ghost use Rattle.parse_parts.specs.Steps.{Turns};

use crate::heads::{any_params, declared_head, no_params, one_param};
use crate::kinds::InLine;
use crate::steps::{EXPECTED, place_at, sees_name, sep};
use crate::turns::{Turning, all_of};
use crate::variables::any_bounds;
use fb_ast::{Item, Member};
use fb_base::Span;
use fb_lexer::Word;
use parse_expr::{Cursor, ReadErr, name, type_name};
use sqlite_items::Items;
use std::alloc::Global;

#[tactic(auto, unfolding(crate::specs::Members::field))]
fn field(alloc: Global, cursor: &mut Cursor<'_>) -> Result<Member, ReadErr>
    ensures { Reads (spec.field 200 cursor.old) result cursor.new }
{
    let name = name(alloc, cursor)?;
    let bounds = any_bounds(alloc, cursor)?;
    cursor.expect_word(Word::KwAs)?;
    let ty = type_name(alloc, cursor)?;
    Ok(Member::Field(name, bounds, ty))
}

// Behind Declare Operator.
#[tactic(auto, unfolding(crate::specs::Members::let_member))]
fn let_member(alloc: Global, cursor: &mut Cursor<'_>, at: Span) -> Result<Member, ReadErr>
    ensures { Reads (spec.let_member at cursor.old) result cursor.new }
{
    let let_at = place_at(cursor);
    cursor.expect_word(Word::KwLet)?;
    let value = one_param(alloc, cursor, true)?;
    Ok(Member::Let(at, let_at, value))
}

#[tactic(auto, unfolding(crate::specs::Members::constructor_member))]
fn constructor_member(alloc: Global, cursor: &mut Cursor<'_>, at: Span) -> Result<Member, ReadErr>
    ensures { Reads (spec.constructor_member at cursor.old) result cursor.new }
{
    let word_at = place_at(cursor);
    cursor.take();
    let all = any_params(alloc, cursor, true)?;
    Ok(Member::Constructor(at, word_at, all))
}

#[tactic(auto, unfolding(crate::specs::Members::destructor_member))]
fn destructor_member(cursor: &mut Cursor<'_>, at: Span) -> Result<Member, ReadErr>
    ensures { Reads (spec.destructor_member at cursor.old) result cursor.new }
{
    let word_at = place_at(cursor);
    cursor.take();
    no_params(cursor)?;
    Ok(Member::Destructor(at, word_at))
}

#[tactic(auto, unfolding(crate::specs::Members::head_member))]
fn head_member(alloc: Global, cursor: &mut Cursor<'_>, at: Span) -> Result<Member, ReadErr>
    ensures { Reads (spec.head_member at cursor.old) result cursor.new }
{
    let head = declared_head(alloc, cursor)?;
    Ok(Member::Declare(at, head))
}

// Behind Declare in a Type.
#[tactic(auto, unfolding(crate::specs::Members::declared_member))]
fn declared_member(alloc: Global, cursor: &mut Cursor<'_>, at: Span) -> Result<Member, ReadErr>
    ensures { Reads (spec.declared_member at cursor.old) result cursor.new }
{
    if cursor.sees_word(Word::KwConstructor) {
        return constructor_member(alloc, cursor, at);
    }
    if cursor.sees_word(Word::KwDestructor) {
        return destructor_member(cursor, at);
    }
    if cursor.sees_word(Word::KwOperator) {
        cursor.take();
        return let_member(alloc, cursor, at);
    }
    head_member(alloc, cursor, at)
}

// A field or a Declare.
#[tactic(auto, unfolding(crate::specs::Members::one_member))]
fn one_member(alloc: Global, cursor: &mut Cursor<'_>) -> Result<Member, ReadErr>
    ensures { Reads (spec.one_member 200 cursor.old) result cursor.new }
{
    if cursor.sees_word(Word::KwDeclare) {
        let at = place_at(cursor);
        cursor.take();
        return declared_member(alloc, cursor, at);
    }
    if sees_name(cursor) {
        return field(alloc, cursor);
    }
    Err(cursor.refuse())
}

// The end of a member, which is one more then.
#[tactic(auto, unfolding(crate::specs::Members::ended_member))]
fn ended_member(
    cursor: &mut Cursor<'_>,
    found: &mut Items<Member>,
    one: Member,
) -> Result<bool, ReadErr>
    ensures { Turns (spec.ended_member found.old one cursor.old) found.new result cursor.new }
{
    sep(cursor, InLine::Free)?;
    found.push(one)?;
    Ok(true)
}

fn is_field(member: &Member) -> bool
    ensures { result ≡ spec.is_field member.now }
{
    match member {
        Member::Field(..) => true,
        _ => false,
    }
}

fn has_field(members: &[Member]) -> bool
    ensures { result ≡ spec.has_field members.now }
{
    for member in members {
        if is_field(member) {
            return true;
        }
    }
    false
}

// One more member, if the Type doesn't end: it has a field at least.
struct MemberTurns;

impl Turning<Items<Member>> for MemberTurns {
    ghost ready = { λ _. ⊤ };

    ghost turned = { λ _. spec.member_turn 200 };

    #[tactic(auto, unfolding(crate::specs::Members::member_turn))]
    fn turn(
        &self,
        alloc: Global,
        cursor: &mut Cursor<'_>,
        found: &mut Items<Member>,
    ) -> Result<bool, ReadErr> {
        if cursor.sees_word(Word::KwEnd) {
            if has_field(found.as_slice()) {
                return Ok(false);
            }
            return Err(EXPECTED);
        }
        let one = one_member(alloc, cursor)?;
        ended_member(cursor, found, one)
    }
}

#[tactic(auto, unfolding(crate::specs::Members::members, crate::specs::Steps::repeat))]
fn members(alloc: Global, cursor: &mut Cursor<'_>) -> Result<Items<Member>, ReadErr>
    ensures { Reads (spec.members 200 cursor.old) result cursor.new }
{
    all_of(alloc, cursor, &MemberTurns, Items::new(alloc))
}

/// A Type from its word on up to the word behind its End.
#[tactic(auto, unfolding(crate::specs::Members::type_def))]
pub fn type_def(alloc: Global, cursor: &mut Cursor<'_>) -> Result<Item, ReadErr>
    ensures { Reads (spec.type_def 200 cursor.old) result cursor.new }
{
    let at = place_at(cursor);
    cursor.take();
    let name = name(alloc, cursor)?;
    sep(cursor, InLine::Free)?;
    let all = members(alloc, cursor)?;
    cursor.expect_word(Word::KwEnd)?;
    cursor.expect_word(Word::KwType)?;
    Ok(Item::Type(at, name, all))
}
