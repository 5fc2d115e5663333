//! If.
ghost use Rattle.std.specs.Prelude.{◌≡◌};
ghost use Rattle.parse_expr.specs.Reading.{Reads};
ghost use Rattle.parse_stmt.specs.Blocks as spec;
ghost use Rattle.parse_stmt.specs.Nests.{Nests};

use crate::nest::{Nest, end_of};
use fb_ast::{Block, Branch, Expr, Stmt};
use fb_base::Span;
use fb_lexer::Word;
use parse_expr::{Cursor, ReadErr};
use parse_parts::{
    Closer, InLine, Level, Spot, Turning, all_of, level_within, line_within, place_at, sees_sep,
    sep, whole,
};
use sqlite_items::Items;
use std::alloc::Global;

// One more branch behind ElseIf.
#[derive(Drop)]
struct BranchTurns<'a, F> {
    nest: &'a Nest<F>,
    level: Level,
    line: InLine,
}

impl<'a, F: Fn(Global, &mut Cursor<'_>, usize, Spot) -> Result<Stmt, ReadErr>> Turning<
    Items<Branch>,
> for BranchTurns<'a, F> {
    ghost ready = { λ t. Nests t.nest.now.room (F.pre t.nest.now.inner) (F.post t.nest.now.inner) };

    ghost turned = { λ t. spec.branch_turn 200 (spec.stmt 200 t.nest.now.room) t.nest.now.room t.level t.line };

    #[tactic(auto, unfolding(crate::specs::Blocks::branch_turn))]
    fn turn(
        &self,
        _alloc: Global,
        cursor: &mut Cursor<'_>,
        found: &mut Items<Branch>,
    ) -> Result<bool, ReadErr> {
        if cursor.sees_word(Word::KwElseIf) {
            let at = place_at(cursor);
            cursor.take();
            let one = self.nest.else_if(cursor, at, self.level, self.line)?;
            found.push(one)?;
            return Ok(true);
        }
        Ok(false)
    }
}

impl<F: Fn(Global, &mut Cursor<'_>, usize, Spot) -> Result<Stmt, ReadErr>> Nest<F> {
    #[tactic(auto, unfolding(crate::specs::Blocks::branch))]
    #[inline(never)]
    fn branch(
        &self,
        cursor: &mut Cursor<'_>,
        at: Span,
        condition: Expr,
        level: Level,
        line: InLine,
    ) -> Result<Branch, ReadErr>
        requires { Nests self.now.room (F.pre self.now.inner) (F.post self.now.inner) }
        ensures { Reads (spec.branch 200 (spec.stmt 200 self.now.room) self.now.room at condition level line cursor.old) result cursor.new }
    {
        let body = self.body(cursor, level, line, Closer::Branches)?;
        Ok(Branch {
            at,
            condition,
            body,
        })
    }

    // Behind ElseIf.
    #[tactic(auto, unfolding(crate::specs::Blocks::else_if))]
    #[inline(never)]
    fn else_if(
        &self,
        cursor: &mut Cursor<'_>,
        at: Span,
        level: Level,
        line: InLine,
    ) -> Result<Branch, ReadErr>
        requires { Nests self.now.room (F.pre self.now.inner) (F.post self.now.inner) }
        ensures { Reads (spec.else_if 200 (spec.stmt 200 self.now.room) self.now.room at level line cursor.old) result cursor.new }
    {
        let condition = whole(self.alloc, cursor)?;
        cursor.expect_word(Word::KwThen)?;
        sep(cursor, line)?;
        self.branch(cursor, at, condition, level, line)
    }

    #[tactic(auto, unfolding(crate::specs::Blocks::branches))]
    #[inline(never)]
    fn branches(
        &self,
        cursor: &mut Cursor<'_>,
        level: Level,
        line: InLine,
        one: Branch,
    ) -> Result<Items<Branch>, ReadErr>
        requires { Nests self.now.room (F.pre self.now.inner) (F.post self.now.inner) }
        ensures { Reads (spec.branches 200 (spec.stmt 200 self.now.room) self.now.room level line one cursor.old) result cursor.new }
    {
        let mut found = Items::new(self.alloc);
        found.push(one)?;
        let turn = BranchTurns {
            nest: self,
            level,
            line,
        };
        all_of(self.alloc, cursor, &turn, found)
    }

    // Behind Else.
    #[tactic(auto, unfolding(crate::specs::Blocks::else_body))]
    fn else_body(
        &self,
        cursor: &mut Cursor<'_>,
        level: Level,
        line: InLine,
    ) -> Result<Block, ReadErr>
        requires { Nests self.now.room (F.pre self.now.inner) (F.post self.now.inner) }
        ensures { Reads (spec.else_body 200 (spec.stmt 200 self.now.room) self.now.room level line cursor.old) result cursor.new }
    {
        sep(cursor, line)?;
        self.body(cursor, level, line, Closer::Else)
    }

    #[tactic(auto, unfolding(crate::specs::Blocks::any_else))]
    #[inline(never)]
    fn any_else(
        &self,
        cursor: &mut Cursor<'_>,
        level: Level,
        line: InLine,
    ) -> Result<Option<(Span, Block)>, ReadErr>
        requires { Nests self.now.room (F.pre self.now.inner) (F.post self.now.inner) }
        ensures { Reads (spec.any_else 200 (spec.stmt 200 self.now.room) self.now.room level line cursor.old) result cursor.new }
    {
        if cursor.sees_word(Word::KwElse) {
            let at = place_at(cursor);
            cursor.take();
            let other = self.else_body(cursor, level, line)?;
            return Ok(Some((at, other)));
        }
        Ok(None)
    }

    // Behind Then and the end of a statement: the branches, the Else and `End If`.
    #[tactic(auto, unfolding(crate::specs::Blocks::if_block))]
    #[inline(never)]
    fn if_block(
        &self,
        cursor: &mut Cursor<'_>,
        at: Span,
        condition: Expr,
        level: Level,
        line: InLine,
    ) -> Result<Stmt, ReadErr>
        requires { Nests self.now.room (F.pre self.now.inner) (F.post self.now.inner) }
        ensures { Reads (spec.if_block 200 (spec.stmt 200 self.now.room) self.now.room at condition level line cursor.old) result cursor.new }
    {
        let one = self.branch(cursor, at, condition, level, line)?;
        let all = self.branches(cursor, level, line, one)?;
        let other = self.any_else(cursor, level, line)?;
        let end = end_of(cursor, Word::KwIf)?;
        Ok(Stmt::If(at, all, other, end))
    }

    // Behind Then.
    #[tactic(auto, unfolding(crate::specs::Blocks::if_behind))]
    fn if_behind(
        &self,
        cursor: &mut Cursor<'_>,
        at: Span,
        condition: Expr,
        level: Level,
        line: InLine,
    ) -> Result<Stmt, ReadErr>
        requires { Nests self.now.room (F.pre self.now.inner) (F.post self.now.inner) }
        ensures { Reads (spec.if_behind 200 (spec.stmt 200 self.now.room) self.now.room at condition level line cursor.old) result cursor.new }
    {
        if sees_sep(cursor, line) {
            cursor.take();
            return self.if_block(
                cursor,
                at,
                condition,
                level_within(level),
                line_within(line),
            );
        }
        self.if_by(cursor, line, at, condition, level_within(level))
    }

    /// If, which comes next (FreeBASIC Manual, If...Then).
    #[tactic(auto, unfolding(crate::specs::Blocks::if_))]
    #[inline(never)]
    pub fn if_(
        &self,
        cursor: &mut Cursor<'_>,
        at: Span,
        level: Level,
        line: InLine,
    ) -> Result<Stmt, ReadErr>
        requires { Nests self.now.room (F.pre self.now.inner) (F.post self.now.inner) }
        ensures { Reads (spec.if_ 200 (spec.stmt 200 self.now.room) self.now.room at level line cursor.old) result cursor.new }
    {
        cursor.take();
        let condition = whole(self.alloc, cursor)?;
        cursor.expect_word(Word::KwThen)?;
        self.if_behind(cursor, at, condition, level, line)
    }
}
