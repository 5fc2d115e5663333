//! If on one line.
ghost use Rattle.std.specs.Prelude.{◌≡◌};
ghost use Rattle.parse_expr.specs.Reading.{Reads};
ghost use Rattle.parse_stmt.specs.Blocks as spec;
ghost use Rattle.parse_stmt.specs.Nests.{Nests};

use crate::nest::Nest;
use fb_ast::{Block, Expr, Stmt};
use fb_base::{FaultKind, Span};
use fb_lexer::Word;
use parse_expr::{Cursor, ReadErr, room_for_one};
use parse_parts::{InLine, Level, Spot, Turning, all_of, extra, last_before, place_at, sees_sep};
use sqlite_items::Items;
use std::alloc::Global;

// Behind a colon one more statement.
#[derive(Drop)]
struct SeriesTurns<'a, F> {
    nest: &'a Nest<F>,
    level: Level,
}

impl<'a, F: Fn(Global, &mut Cursor<'_>, usize, Spot) -> Result<Stmt, ReadErr>> Turning<Items<Stmt>>
    for SeriesTurns<'a, F> {
    ghost ready = { λ t. Nests t.nest.now.room (F.pre t.nest.now.inner) (F.post t.nest.now.inner) };

    ghost turned = { λ t. spec.series_turn 200 (spec.stmt 200 t.nest.now.room) t.nest.now.room t.level };

    #[tactic(auto, unfolding(crate::specs::Blocks::series_turn))]
    fn turn(
        &self,
        _alloc: Global,
        cursor: &mut Cursor<'_>,
        found: &mut Items<Stmt>,
    ) -> Result<bool, ReadErr> {
        if sees_sep(cursor, InLine::Series) {
            cursor.take();
            let other = FaultKind::Expected;
            let line = InLine::Series;
            let level = self.level;
            let one = self.nest.inner(cursor, Spot { level, line, other })?;
            found.push(one)?;
            return Ok(true);
        }
        Ok(false)
    }
}

impl<F: Fn(Global, &mut Cursor<'_>, usize, Spot) -> Result<Stmt, ReadErr>> Nest<F> {
    #[tactic(auto, unfolding(crate::specs::Blocks::series_from))]
    #[inline(never)]
    fn series_from(
        &self,
        cursor: &mut Cursor<'_>,
        level: Level,
        one: Stmt,
    ) -> Result<Items<Stmt>, ReadErr>
        requires { Nests self.now.room (F.pre self.now.inner) (F.post self.now.inner) }
        ensures { Reads (spec.series_from 200 (spec.stmt 200 self.now.room) self.now.room level one cursor.old) result cursor.new }
    {
        let mut found = room_for_one(self.alloc)?;
        found.push(one)?;
        let turn = SeriesTurns { nest: self, level };
        all_of(self.alloc, cursor, &turn, found)
    }

    // Statements with colons between, up to the line's end or Else.
    #[tactic(auto, unfolding(crate::specs::Blocks::series))]
    fn series(
        &self,
        cursor: &mut Cursor<'_>,
        level: Level,
        other: FaultKind,
    ) -> Result<Items<Stmt>, ReadErr>
        requires { Nests self.now.room (F.pre self.now.inner) (F.post self.now.inner) }
        ensures { Reads (spec.series 200 (spec.stmt 200 self.now.room) self.now.room level other cursor.old) result cursor.new }
    {
        let line = InLine::Series;
        let one = self.inner(cursor, Spot { level, line, other })?;
        self.series_from(cursor, level, one)
    }

    // The place that ends what is done then: that of the Else, or of the last token.
    #[tactic(auto, unfolding(crate::specs::Blocks::series_end))]
    fn series_end(&self, before: &Cursor<'_>, cursor: &Cursor<'_>) -> Span
        ensures { result ≡ spec.series_end 200 (spec.stmt 200 self.now.room) self.now.room before.now cursor.now }
    {
        if cursor.sees_word(Word::KwElse) {
            return place_at(cursor);
        }
        last_before(before, cursor)
    }

    #[tactic(auto, unfolding(crate::specs::Blocks::series_then))]
    #[inline(never)]
    fn series_then(&self, cursor: &mut Cursor<'_>, level: Level) -> Result<Block, ReadErr>
        requires { Nests self.now.room (F.pre self.now.inner) (F.post self.now.inner) }
        ensures { Reads (spec.series_then 200 (spec.stmt 200 self.now.room) self.now.room level cursor.old) result cursor.new }
    {
        let before = cursor.copy();
        let stmts = self.series(cursor, level, FaultKind::ExtraText)?;
        let end = self.series_end(&before, cursor);
        Ok(Block { stmts, end })
    }

    #[tactic(auto, unfolding(crate::specs::Blocks::series_else))]
    #[inline(never)]
    fn series_else(&self, cursor: &mut Cursor<'_>, level: Level) -> Result<Block, ReadErr>
        requires { Nests self.now.room (F.pre self.now.inner) (F.post self.now.inner) }
        ensures { Reads (spec.series_else 200 (spec.stmt 200 self.now.room) self.now.room level cursor.old) result cursor.new }
    {
        let before = cursor.copy();
        let stmts = self.series(cursor, level, FaultKind::Expected)?;
        let end = last_before(&before, cursor);
        Ok(Block { stmts, end })
    }

    #[tactic(auto, unfolding(crate::specs::Blocks::series_other))]
    fn series_other(
        &self,
        cursor: &mut Cursor<'_>,
        level: Level,
    ) -> Result<Option<(Span, Block)>, ReadErr>
        requires { Nests self.now.room (F.pre self.now.inner) (F.post self.now.inner) }
        ensures { Reads (spec.series_other 200 (spec.stmt 200 self.now.room) self.now.room level cursor.old) result cursor.new }
    {
        if cursor.sees_word(Word::KwElse) {
            let at = place_at(cursor);
            cursor.take();
            let other = self.series_else(cursor, level)?;
            return Ok(Some((at, other)));
        }
        Ok(None)
    }

    // Behind Then on the same line: what is done then, and what is done else.
    #[tactic(auto, unfolding(crate::specs::Blocks::if_series))]
    #[inline(never)]
    fn if_series(
        &self,
        cursor: &mut Cursor<'_>,
        at: Span,
        condition: Expr,
        level: Level,
    ) -> Result<Stmt, ReadErr>
        requires { Nests self.now.room (F.pre self.now.inner) (F.post self.now.inner) }
        ensures { Reads (spec.if_series 200 (spec.stmt 200 self.now.room) self.now.room at condition level cursor.old) result cursor.new }
    {
        let one = self.series_then(cursor, level)?;
        let other = self.series_other(cursor, level)?;
        Ok(Stmt::IfLine(at, condition, one, other))
    }

    /// Behind Then on the same line. In a block that is part of a one-line If no one-line If stands.
    pub fn if_by(
        &self,
        cursor: &mut Cursor<'_>,
        line: InLine,
        at: Span,
        condition: Expr,
        level: Level,
    ) -> Result<Stmt, ReadErr>
        requires { Nests self.now.room (F.pre self.now.inner) (F.post self.now.inner) }
        ensures { Reads (spec.if_by 200 (spec.stmt 200 self.now.room) self.now.room line at condition level cursor.old) result cursor.new }
    {
        match line {
            InLine::Free | InLine::Series => self.if_series(cursor, at, condition, level),
            InLine::Inner => Err(ReadErr::Fault(extra(cursor))),
        }
    }
}
