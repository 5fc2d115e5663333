//! Procedures with their bodies.
ghost use Rattle.std.specs.Prelude.{◌≤◌};
ghost use Rattle.parse_expr.specs.Reading.{Reads};
ghost use Rattle.parse_stmt.specs.Procedures as spec;

use crate::nest::Nest;
use crate::statements::stmt;
use fb_ast::{Block, Item, Procedure, ProcedureKind};
use parse_expr::{Cursor, ReadErr};
use parse_parts::{Closer, InLine, Level, ProcedureWord, opened, place_at, sep, words_before};
use std::alloc::Global;

// The statements of a procedure, each at most so deep.
#[tactic(auto, unfolding(crate::specs::Procedures::statements))]
fn statements(
    alloc: Global,
    cursor: &mut Cursor<'_>,
    room: usize,
    closer: Closer,
) -> Result<Block, ReadErr>
    requires { room ≤ 199 }
    ensures { Reads (spec.statements 200 room closer cursor.old) result cursor.new }
{
    Nest {
        alloc,
        room,
        inner: stmt,
    }
    .body(cursor, Level::Procedure, InLine::Free, closer)
}

// Behind the head, up to the word behind End.
#[tactic(auto, unfolding(crate::specs::Procedures::procedure_body))]
fn procedure_body(
    alloc: Global,
    cursor: &mut Cursor<'_>,
    room: usize,
    closer: Closer,
) -> Result<Block, ReadErr>
    requires { room ≤ 199 }
    ensures { Reads (spec.procedure_body 200 room closer cursor.old) result cursor.new }
{
    sep(cursor, InLine::Free)?;
    let body = statements(alloc, cursor, room, closer)?;
    cursor.take();
    cursor.take();
    Ok(body)
}

#[tactic(auto, unfolding(crate::specs::Procedures::procedure_parts))]
fn procedure_parts(
    alloc: Global,
    cursor: &mut Cursor<'_>,
    room: usize,
    word: ProcedureWord,
) -> Result<(ProcedureKind, Block), ReadErr>
    requires { room ≤ 199 }
    ensures { Reads (spec.procedure_parts 200 room word cursor.old) result cursor.new }
{
    let at = place_at(cursor);
    cursor.take();
    let (kind, closer) = opened(alloc, cursor, word, at)?;
    let body = procedure_body(alloc, cursor, room, closer)?;
    Ok((kind, body))
}

/// A procedure from its first word, which comes next, up to the word behind its End (FreeBASIC Manual, Sub, Function).
/// Each of its statements is at most so deep, at most 199.
#[tactic(auto, unfolding(crate::specs::Procedures::procedure))]
#[inline(never)]
pub fn procedure(
    alloc: Global,
    cursor: &mut Cursor<'_>,
    room: usize,
    word: ProcedureWord,
) -> Result<Item, ReadErr>
    requires { room ≤ 199 }
    ensures { Reads (spec.procedure 200 room word cursor.old) result cursor.new }
{
    let before = cursor.copy();
    let (kind, body) = procedure_parts(alloc, cursor, room, word)?;
    let tokens = words_before(&before, cursor);
    Ok(Item::Procedure(Procedure { kind, body, tokens }))
}
