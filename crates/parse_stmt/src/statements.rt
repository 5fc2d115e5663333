//! Statements by their first tokens, at most so deep.
ghost use Rattle.std.specs.Prelude.{◌≡◌, ◌≤◌, Err};
ghost use Rattle.parse_expr.specs.Reading.{Reads};
ghost use Rattle.parse_stmt.specs.Blocks as spec;
ghost use Rattle.parse_stmt.specs.Nests.{Nests};

use crate::nest::Nest;
use fb_ast::Stmt;
use fb_base::{FaultKind, Span};
use parse_expr::{Cursor, ReadErr};
use parse_parts::{
    EXPECTED, Lead, Spot, astray, called, constant, continue_, delete, dim, end_, exit, lead_of,
    level_within, line_input, line_within, print, result_, return_, static_, valued,
};
use std::alloc::Global;

impl<F: Fn(Global, &mut Cursor<'_>, usize, Spot) -> Result<Stmt, ReadErr>> Nest<F> {
    // A statement from its first token on, by what that is.
    fn led(
        &self,
        cursor: &mut Cursor<'_>,
        at: Span,
        spot: Spot,
        lead: Lead,
    ) -> Result<Stmt, ReadErr>
        requires { Nests self.now.room (F.pre self.now.inner) (F.post self.now.inner) }
        ensures { Reads (spec.led 200 (spec.stmt 200 self.now.room) self.now.room at spot lead cursor.old) result cursor.new }
    {
        let level = level_within(spot.level);
        let line = line_within(spot.line);
        match lead {
            Lead::Dim => dim(self.alloc, cursor, at, spot.level),
            Lead::Static => static_(self.alloc, cursor, at),
            Lead::Const => constant(self.alloc, cursor, at),
            Lead::Function => result_(self.alloc, cursor, at),
            Lead::Print => print(self.alloc, cursor, at),
            Lead::Line => line_input(self.alloc, cursor, at),
            Lead::If => self.if_(cursor, at, spot.level, spot.line),
            Lead::For => self.for_(cursor, at, level, line),
            Lead::While => self.while_(cursor, at, level, line),
            Lead::Do => self.do_(cursor, at, level, line),
            Lead::Select => self.select(cursor, at, level, line),
            Lead::Scope => self.scope(cursor, at, level, line),
            Lead::Exit => exit(cursor, at),
            Lead::Continue => continue_(cursor, at),
            Lead::Return => return_(self.alloc, cursor, at),
            Lead::Delete => delete(self.alloc, cursor, at),
            Lead::End => end_(self.alloc, cursor, at),
            Lead::Call(word) => called(self.alloc, cursor, at, word),
            Lead::Value => valued(self.alloc, cursor, at),
            Lead::Nothing => Err(ReadErr::Fault(astray(cursor, spot.other))),
        }
    }

    // A statement whose statements inside are at most so deep.
    #[tactic(auto, unfolding(crate::specs::Blocks::statement))]
    fn statement(&self, cursor: &mut Cursor<'_>, spot: Spot) -> Result<Stmt, ReadErr>
        requires { Nests self.now.room (F.pre self.now.inner) (F.post self.now.inner) }
        ensures { Reads (spec.statement 200 (spec.stmt 200 self.now.room) self.now.room spot cursor.old) result cursor.new }
    {
        match cursor.peek() {
            Some(token) => self.led(cursor, token.at, spot, lead_of(spot.level, &token.kind)),
            None => Err(EXPECTED),
        }
    }
}

fn deep_by(cursor: &Cursor<'_>, spot: Spot, lead: Lead) -> FaultKind
    ensures { result ≡ spec.deep_by spot cursor.now lead }
{
    match lead {
        Lead::Nothing => astray(cursor, spot.other),
        _ => FaultKind::DeepNesting,
    }
}

/// Where no statement can be deep enough: what is wrong with the next token.
#[tactic(auto, unfolding(crate::specs::Blocks::no_room))]
pub fn no_room(cursor: &Cursor<'_>, spot: Spot) -> ReadErr
    ensures { spec.no_room spot cursor.now ≡ Err (result, cursor.now) }
{
    match cursor.peek() {
        Some(token) => ReadErr::Fault(deep_by(cursor, spot, lead_of(spot.level, &token.kind))),
        None => EXPECTED,
    }
}

/// A statement that is at most so deep, at most 200, from the next token on.
pub fn stmt(
    alloc: Global,
    cursor: &mut Cursor<'_>,
    room: usize,
    spot: Spot,
) -> Result<Stmt, ReadErr>
    requires { room ≤ 200 }
    ensures { Reads (spec.stmt 200 room spot cursor.old) result cursor.new }
{
    if room == 0 {
        return Err(no_room(cursor, spot));
    }
    Nest {
        alloc,
        room: room - 1,
        inner: stmt,
    }
    .statement(cursor, spot)
}
