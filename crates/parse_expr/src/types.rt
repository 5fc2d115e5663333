//! Types and names as they are written.
ghost use Rattle.std.specs.Prelude.{◌≡◌, ◌+◌, length, IfOk};
ghost use Rattle.parse_expr.specs.Reading.{Reads, first};
ghost use Rattle.parse_expr.specs.Types as spec;
ghost use Rattle.parse_expr.specs.Words as words;

use crate::cursor::Cursor;
use crate::error::ReadErr;
use crate::kinds::{base_word, is_pointer};
use fb_ast::{Base, Name, TypeName};
use fb_base::{FaultKind, NoMemory, Text};
use fb_lexer::TokenKind;
use std::alloc::Global;

/// An own copy of a text.
pub fn copied(alloc: Global, text: &Text) -> Result<Text, NoMemory>
    ensures { IfOk result (λ copy. copy ≡ text.now) }
{
    Text::of(alloc, text.bytes())
}

#[tactic(auto, unfolding(crate::specs::Types::sees_pointer))]
fn sees_pointer(cursor: &Cursor<'_>) -> bool
    ensures { result ≡ spec.sees_pointer cursor.now }
{
    match cursor.peek() {
        Some(token) => is_pointer(&token.kind),
        None => false,
    }
}

// How often Ptr or Pointer comes next, each of which is taken.
#[tactic(auto, using(crate::proofs::Pointers::one_behind, crate::proofs::Pointers::one_shorter, crate::proofs::Pointers::none_behind, crate::proofs::Pointers::count_pointers))]
fn pointers(cursor: &mut Cursor<'_>) -> usize
    ensures count { result ≡ spec.pointers cursor.old }
    ensures behind { cursor.new ≡ spec.behind_pointers cursor.old }
{
    let before = cursor.left();
    while sees_pointer(cursor) {
        cursor.take();
    }
    before - cursor.left()
}

// What a type begins with, if one begins with a token of this kind.
fn base_of(alloc: Global, kind: &TokenKind) -> Result<Option<Base>, NoMemory>
    ensures { IfOk result (λ base. base ≡ words.base_of kind.now) }
{
    match kind {
        TokenKind::Name(text) => Ok(Some(Base::Name(copied(alloc, text)?))),
        TokenKind::Word(word) => Ok(base_word(*word)),
        _ => Ok(None),
    }
}

/// A type: its word or name, and Ptr or Pointer behind it.
#[tactic(auto, unfolding(crate::specs::Types::type_name))]
pub fn type_name(alloc: Global, cursor: &mut Cursor<'_>) -> Result<TypeName, ReadErr>
    ensures { Reads (spec.type_name cursor.old) result cursor.new }
{
    let Some(token) = cursor.peek() else {
        return Err(cursor.refuse());
    };
    let Some(base) = base_of(alloc, &token.kind)? else {
        return Err(cursor.refuse());
    };
    cursor.take();
    let pointers = pointers(cursor);
    Ok(TypeName {
        at: token.at,
        base,
        pointers,
    })
}

/// A name.
#[tactic(auto, unfolding(crate::specs::Types::name))]
pub fn name(alloc: Global, cursor: &mut Cursor<'_>) -> Result<Name, ReadErr>
    ensures { Reads (spec.name cursor.old) result cursor.new }
{
    let Some(token) = cursor.peek() else {
        return Err(ReadErr::Fault(FaultKind::Expected));
    };
    match &token.kind {
        TokenKind::Name(text) => {
            let text = copied(alloc, text)?;
            cursor.take();
            Ok(Name { at: token.at, text })
        }
        _ => Err(ReadErr::Fault(FaultKind::Expected)),
    }
}
