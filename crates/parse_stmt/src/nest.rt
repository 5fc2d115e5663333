//! Blocks of statements. The reader of the statements inside is a parameter, so that each production is proved by itself.
ghost use Rattle.std.specs.Prelude.{◌≡◌, Err};
ghost use Rattle.parse_expr.specs.Reading.{Reads};
ghost use Rattle.parse_parts.specs.Steps.{Turns};
ghost use Rattle.parse_stmt.specs.Blocks as spec;
ghost use Rattle.parse_stmt.specs.Nests.{Nests};

use fb_ast::{Block, Stmt};
use fb_base::{FaultKind, Span};
use fb_lexer::Word;
use parse_expr::{Cursor, ReadErr};
use parse_parts::{
    Closer, InLine, Level, Spot, Turning, all_of, astray, ends_with_end, place_at, sees_sep,
    sees_value, sep,
};
use sqlite_items::Items;
use std::alloc::Global;

/// What reads statements with statements inside.
#[derive(Clone, Copy)]
pub struct Nest<F> {
    pub alloc: Global,
    /// How deep a statement inside may be.
    pub room: usize,
    pub inner: F,
}

// Whether End and this word come next.
#[tactic(auto, unfolding(crate::specs::Blocks::sees_end))]
fn sees_end(cursor: &Cursor<'_>, word: Word) -> bool
    ensures { result ≡ spec.sees_end word cursor.now }
{
    if !cursor.sees_word(Word::KwEnd) {
        return false;
    }
    let mut behind = cursor.copy();
    behind.take();
    behind.sees_word(word)
}

// Whether what ends a block comes next.
fn closed(cursor: &Cursor<'_>, closer: Closer) -> bool
    ensures { result ≡ spec.closed closer cursor.now }
{
    match closer {
        Closer::Next => cursor.sees_word(Word::KwNext),
        Closer::Wend => cursor.sees_word(Word::KwWend),
        Closer::Loop => cursor.sees_word(Word::KwLoop),
        Closer::Scope => sees_end(cursor, Word::KwScope),
        Closer::Cases => cursor.sees_word(Word::KwCase) || sees_end(cursor, Word::KwSelect),
        Closer::Branches => {
            cursor.sees_word(Word::KwElseIf)
                || cursor.sees_word(Word::KwElse)
                || sees_end(cursor, Word::KwIf)
        }
        Closer::Else => sees_end(cursor, Word::KwIf),
        Closer::Sub => sees_end(cursor, Word::KwSub),
        Closer::Function => sees_end(cursor, Word::KwFunction),
        Closer::Constructor => sees_end(cursor, Word::KwConstructor),
        Closer::Destructor => sees_end(cursor, Word::KwDestructor),
        Closer::Operator => sees_end(cursor, Word::KwOperator),
    }
}

// What is wrong behind an End that may not begin a statement, since no statement can be deep enough, but may end the
// block: only what would make it a statement is forbidden by the depth.
#[tactic(auto, unfolding(crate::specs::Blocks::behind_end))]
fn behind_end(cursor: &Cursor<'_>, line: InLine) -> FaultKind
    ensures { result ≡ spec.behind_end line cursor.now }
{
    if sees_value(cursor) {
        return astray(cursor, FaultKind::DeepNesting);
    }
    if sees_sep(cursor, line) {
        return astray(cursor, FaultKind::DeepNesting);
    }
    astray(cursor, FaultKind::Expected)
}

#[tactic(auto, unfolding(crate::specs::Blocks::deep_end))]
fn deep_end(cursor: &mut Cursor<'_>, line: InLine) -> ReadErr
    ensures { spec.deep_end line cursor.old ≡ Err (result, cursor.new) }
{
    cursor.take();
    ReadErr::Fault(behind_end(cursor, line))
}

/// End and this word, and the place of End.
#[tactic(auto, unfolding(crate::specs::Blocks::end_of))]
pub fn end_of(cursor: &mut Cursor<'_>, word: Word) -> Result<Span, ReadErr>
    ensures { Reads (spec.end_of word cursor.old) result cursor.new }
{
    let at = place_at(cursor);
    cursor.expect_word(Word::KwEnd)?;
    cursor.expect_word(word)?;
    Ok(at)
}

// A statement of a block, or the end of one.
#[derive(Drop)]
struct StmtTurns<'a, F> {
    nest: &'a Nest<F>,
    level: Level,
    line: InLine,
    closer: Closer,
}

impl<'a, F: Fn(Global, &mut Cursor<'_>, usize, Spot) -> Result<Stmt, ReadErr>> Turning<Items<Stmt>>
    for StmtTurns<'a, F> {
    ghost ready = { λ t. Nests t.nest.now.room (F.pre t.nest.now.inner) (F.post t.nest.now.inner) };

    ghost turned = { λ t. spec.block_turn 200 (spec.stmt 200 t.nest.now.room) t.nest.now.room t.level t.line t.closer };

    #[tactic(auto, unfolding(crate::specs::Blocks::block_turn))]
    fn turn(
        &self,
        _alloc: Global,
        cursor: &mut Cursor<'_>,
        found: &mut Items<Stmt>,
    ) -> Result<bool, ReadErr> {
        if sees_sep(cursor, self.line) {
            cursor.take();
            return Ok(true);
        }
        if closed(cursor, self.closer) {
            return Ok(false);
        }
        let one = self
            .nest
            .block_stmt(cursor, self.level, self.line, self.closer)?;
        self.nest.ended(cursor, self.line, one, found)
    }
}

impl<F: Fn(Global, &mut Cursor<'_>, usize, Spot) -> Result<Stmt, ReadErr>> Nest<F> {
    /// A statement inside.
    pub fn inner(&self, cursor: &mut Cursor<'_>, spot: Spot) -> Result<Stmt, ReadErr>
        requires { Nests self.now.room (F.pre self.now.inner) (F.post self.now.inner) }
        ensures { Reads (spec.stmt 200 self.now.room spot cursor.old) result cursor.new }
    {
        (self.inner)(self.alloc, cursor, self.room, spot)
    }

    // Whether End comes next, which can't begin a statement, since none can be deep enough.
    #[tactic(auto, unfolding(crate::specs::Blocks::end_is_deep))]
    fn end_is_deep(&self, cursor: &Cursor<'_>, closer: Closer) -> bool
        ensures { result ≡ spec.end_is_deep 200 (spec.stmt 200 self.now.room) self.now.room closer cursor.now }
    {
        if self.room == 0 {
            if ends_with_end(closer) {
                return cursor.sees_word(Word::KwEnd);
            }
            return false;
        }
        false
    }

    #[tactic(auto, unfolding(crate::specs::Blocks::block_stmt))]
    fn block_stmt(
        &self,
        cursor: &mut Cursor<'_>,
        level: Level,
        line: InLine,
        closer: Closer,
    ) -> Result<Stmt, ReadErr>
        requires { Nests self.now.room (F.pre self.now.inner) (F.post self.now.inner) }
        ensures { Reads (spec.block_stmt 200 (spec.stmt 200 self.now.room) self.now.room level line closer cursor.old) result cursor.new }
    {
        if self.end_is_deep(cursor, closer) {
            return Err(deep_end(cursor, line));
        }
        let other = FaultKind::ExtraText;
        self.inner(cursor, Spot { level, line, other })
    }

    // Behind a statement of a block.
    #[tactic(auto, unfolding(crate::specs::Blocks::ended))]
    fn ended(
        &self,
        cursor: &mut Cursor<'_>,
        line: InLine,
        one: Stmt,
        found: &mut Items<Stmt>,
    ) -> Result<bool, ReadErr>
        ensures { Turns (spec.ended 200 (spec.stmt 200 self.now.room) self.now.room line found.old one cursor.old) found.new result cursor.new }
    {
        sep(cursor, line)?;
        found.push(one)?;
        Ok(true)
    }

    #[tactic(auto, unfolding(crate::specs::Blocks::block))]
    fn block(
        &self,
        cursor: &mut Cursor<'_>,
        level: Level,
        line: InLine,
        closer: Closer,
    ) -> Result<Items<Stmt>, ReadErr>
        requires { Nests self.now.room (F.pre self.now.inner) (F.post self.now.inner) }
        ensures { Reads (spec.block 200 (spec.stmt 200 self.now.room) self.now.room level line closer cursor.old) result cursor.new }
    {
        let turn = StmtTurns {
            nest: self,
            level,
            line,
            closer,
        };
        all_of(self.alloc, cursor, &turn, Items::new(self.alloc))
    }

    /// A block, and the place of what ends it, which comes next.
    #[tactic(auto, unfolding(crate::specs::Blocks::body))]
    pub fn body(
        &self,
        cursor: &mut Cursor<'_>,
        level: Level,
        line: InLine,
        closer: Closer,
    ) -> Result<Block, ReadErr>
        requires { Nests self.now.room (F.pre self.now.inner) (F.post self.now.inner) }
        ensures { Reads (spec.body 200 (spec.stmt 200 self.now.room) self.now.room level line closer cursor.old) result cursor.new }
    {
        let stmts = self.block(cursor, level, line, closer)?;
        let end = place_at(cursor);
        Ok(Block { stmts, end })
    }
}
