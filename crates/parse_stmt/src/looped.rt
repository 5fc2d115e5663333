//! For, While, Do, Select and Scope.
ghost use Rattle.std.specs.Prelude.{◌≡◌};
ghost use Rattle.parse_expr.specs.Reading.{Reads};
ghost use Rattle.parse_stmt.specs.Blocks as spec;
ghost use Rattle.parse_stmt.specs.Nests.{Nests};

use crate::nest::{Nest, end_of};
use fb_ast::{Block, CaseBranch, Expr, Name, Stmt, TypeName};
use fb_base::Span;
use fb_lexer::{Mark, Word};
use parse_expr::{Cursor, ReadErr, name};
use parse_parts::{
    Closer, InLine, Level, Spot, Turning, all_of, any_name, any_test, any_type, cases_, last_test,
    place_at, sep, value_behind, whole,
};
use sqlite_items::Items;
use std::alloc::Global;

// One more branch behind Case.
#[derive(Drop)]
struct CaseBranchTurns<'a, F> {
    nest: &'a Nest<F>,
    level: Level,
    line: InLine,
}

impl<'a, F: Fn(Global, &mut Cursor<'_>, usize, Spot) -> Result<Stmt, ReadErr>> Turning<
    Items<CaseBranch>,
> for CaseBranchTurns<'a, F> {
    ghost ready = { λ t. Nests t.nest.now.room (F.pre t.nest.now.inner) (F.post t.nest.now.inner) };

    ghost turned = { λ t. spec.select_turn 200 (spec.stmt 200 t.nest.now.room) t.nest.now.room t.level t.line };

    #[tactic(auto, unfolding(crate::specs::Blocks::select_turn))]
    fn turn(
        &self,
        _alloc: Global,
        cursor: &mut Cursor<'_>,
        found: &mut Items<CaseBranch>,
    ) -> Result<bool, ReadErr> {
        if cursor.sees_word(Word::KwCase) {
            let at = place_at(cursor);
            cursor.take();
            let one = self.nest.case_branch(cursor, at, self.level, self.line)?;
            found.push(one)?;
            return Ok(true);
        }
        Ok(false)
    }
}

impl<F: Fn(Global, &mut Cursor<'_>, usize, Spot) -> Result<Stmt, ReadErr>> Nest<F> {
    // Start, end and step of a For.
    #[tactic(auto, unfolding(crate::specs::Blocks::range))]
    fn range(&self, cursor: &mut Cursor<'_>) -> Result<(Expr, Expr, Option<Expr>), ReadErr>
        ensures { Reads (spec.range 200 (spec.stmt 200 self.now.room) self.now.room cursor.old) result cursor.new }
    {
        let start = whole(self.alloc, cursor)?;
        cursor.expect_word(Word::KwTo)?;
        let end = whole(self.alloc, cursor)?;
        let step = value_behind(self.alloc, cursor, Word::KwStep)?;
        Ok((start, end, step))
    }

    // The counter of a For, its type if it is written, and its values.
    #[tactic(auto, unfolding(crate::specs::Blocks::for_head))]
    #[inline(never)]
    fn for_head(
        &self,
        cursor: &mut Cursor<'_>,
    ) -> Result<(Name, Option<TypeName>, (Expr, Expr, Option<Expr>)), ReadErr>
        ensures { Reads (spec.for_head 200 (spec.stmt 200 self.now.room) self.now.room cursor.old) result cursor.new }
    {
        let name = name(self.alloc, cursor)?;
        let ty = any_type(self.alloc, cursor)?;
        cursor.expect(Mark::Equal)?;
        let values = self.range(cursor)?;
        Ok((name, ty, values))
    }

    // The body of a For, and the name behind Next.
    #[tactic(auto, unfolding(crate::specs::Blocks::for_tail))]
    #[inline(never)]
    fn for_tail(
        &self,
        cursor: &mut Cursor<'_>,
        level: Level,
        line: InLine,
    ) -> Result<(Block, Option<Name>), ReadErr>
        requires { Nests self.now.room (F.pre self.now.inner) (F.post self.now.inner) }
        ensures { Reads (spec.for_tail 200 (spec.stmt 200 self.now.room) self.now.room level line cursor.old) result cursor.new }
    {
        sep(cursor, line)?;
        let body = self.body(cursor, level, line, Closer::Next)?;
        cursor.take();
        let last = any_name(self.alloc, cursor)?;
        Ok((body, last))
    }

    /// For, which comes next (FreeBASIC Manual, For...Next).
    #[tactic(auto, unfolding(crate::specs::Blocks::for_))]
    #[inline(never)]
    pub fn for_(
        &self,
        cursor: &mut Cursor<'_>,
        at: Span,
        level: Level,
        line: InLine,
    ) -> Result<Stmt, ReadErr>
        requires { Nests self.now.room (F.pre self.now.inner) (F.post self.now.inner) }
        ensures { Reads (spec.for_ 200 (spec.stmt 200 self.now.room) self.now.room at level line cursor.old) result cursor.new }
    {
        cursor.take();
        let (name, ty, (start, end, step)) = self.for_head(cursor)?;
        let (body, last) = self.for_tail(cursor, level, line)?;
        Ok(Stmt::For(at, name, ty, start, end, step, body, last))
    }

    /// While, which comes next (FreeBASIC Manual, While...Wend).
    #[tactic(auto, unfolding(crate::specs::Blocks::while_))]
    #[inline(never)]
    pub fn while_(
        &self,
        cursor: &mut Cursor<'_>,
        at: Span,
        level: Level,
        line: InLine,
    ) -> Result<Stmt, ReadErr>
        requires { Nests self.now.room (F.pre self.now.inner) (F.post self.now.inner) }
        ensures { Reads (spec.while_ 200 (spec.stmt 200 self.now.room) self.now.room at level line cursor.old) result cursor.new }
    {
        cursor.take();
        let condition = whole(self.alloc, cursor)?;
        sep(cursor, line)?;
        let body = self.body(cursor, level, line, Closer::Wend)?;
        cursor.take();
        Ok(Stmt::While(at, condition, body))
    }

    /// Do, which comes next (FreeBASIC Manual, Do...Loop).
    #[tactic(auto, unfolding(crate::specs::Blocks::do_))]
    #[inline(never)]
    pub fn do_(
        &self,
        cursor: &mut Cursor<'_>,
        at: Span,
        level: Level,
        line: InLine,
    ) -> Result<Stmt, ReadErr>
        requires { Nests self.now.room (F.pre self.now.inner) (F.post self.now.inner) }
        ensures { Reads (spec.do_ 200 (spec.stmt 200 self.now.room) self.now.room at level line cursor.old) result cursor.new }
    {
        cursor.take();
        let test = any_test(self.alloc, cursor)?;
        sep(cursor, line)?;
        let body = self.body(cursor, level, line, Closer::Loop)?;
        cursor.take();
        let last = last_test(self.alloc, cursor, test.is_some())?;
        Ok(Stmt::Do(at, test, body, last))
    }

    // Behind Case.
    #[tactic(auto, unfolding(crate::specs::Blocks::case_branch))]
    #[inline(never)]
    fn case_branch(
        &self,
        cursor: &mut Cursor<'_>,
        at: Span,
        level: Level,
        line: InLine,
    ) -> Result<CaseBranch, ReadErr>
        requires { Nests self.now.room (F.pre self.now.inner) (F.post self.now.inner) }
        ensures { Reads (spec.case_branch 200 (spec.stmt 200 self.now.room) self.now.room at level line cursor.old) result cursor.new }
    {
        let cases = cases_(self.alloc, cursor)?;
        sep(cursor, line)?;
        let body = self.body(cursor, level, line, Closer::Cases)?;
        Ok(CaseBranch { at, cases, body })
    }

    #[tactic(auto, unfolding(crate::specs::Blocks::case_branches))]
    fn case_branches(
        &self,
        cursor: &mut Cursor<'_>,
        level: Level,
        line: InLine,
    ) -> Result<Items<CaseBranch>, ReadErr>
        requires { Nests self.now.room (F.pre self.now.inner) (F.post self.now.inner) }
        ensures { Reads (spec.case_branches 200 (spec.stmt 200 self.now.room) self.now.room level line cursor.old) result cursor.new }
    {
        let turn = CaseBranchTurns {
            nest: self,
            level,
            line,
        };
        all_of(self.alloc, cursor, &turn, Items::new(self.alloc))
    }

    /// Select Case, where Select comes next (FreeBASIC Manual, Select Case).
    #[tactic(auto, unfolding(crate::specs::Blocks::select))]
    #[inline(never)]
    pub fn select(
        &self,
        cursor: &mut Cursor<'_>,
        at: Span,
        level: Level,
        line: InLine,
    ) -> Result<Stmt, ReadErr>
        requires { Nests self.now.room (F.pre self.now.inner) (F.post self.now.inner) }
        ensures { Reads (spec.select 200 (spec.stmt 200 self.now.room) self.now.room at level line cursor.old) result cursor.new }
    {
        cursor.take();
        cursor.expect_word(Word::KwCase)?;
        let value = whole(self.alloc, cursor)?;
        sep(cursor, line)?;
        let all = self.case_branches(cursor, level, line)?;
        let end = end_of(cursor, Word::KwSelect)?;
        Ok(Stmt::Select(at, value, all, end))
    }

    /// Scope, which comes next (FreeBASIC Manual, Scope).
    #[tactic(auto, unfolding(crate::specs::Blocks::scope))]
    #[inline(never)]
    pub fn scope(
        &self,
        cursor: &mut Cursor<'_>,
        at: Span,
        level: Level,
        line: InLine,
    ) -> Result<Stmt, ReadErr>
        requires { Nests self.now.room (F.pre self.now.inner) (F.post self.now.inner) }
        ensures { Reads (spec.scope 200 (spec.stmt 200 self.now.room) self.now.room at level line cursor.old) result cursor.new }
    {
        cursor.take();
        sep(cursor, line)?;
        let body = self.body(cursor, level, line, Closer::Scope)?;
        end_of(cursor, Word::KwScope)?;
        Ok(Stmt::Scope(at, body))
    }
}
