//! The productions of expressions. Each takes the reader of part expressions as a parameter, so that it is proved by
//! itself.
ghost use Rattle.std.specs.Prelude.{◌≡◌, ◌≤◌, ◌+◌, [], length, IfOk};
ghost use Rattle.parse_expr.specs.Reading.{Reads, first};
ghost use Rattle.parse_expr.specs.Expr as spec;
ghost use Rattle.parse_expr.specs.Productions as productions;
ghost use Rattle.parse_expr.specs.Nests.{Nests};

use crate::cursor::Cursor;
use crate::error::ReadErr;
use crate::kinds::{OperandWord, Operator, Suffix, binary_of, operand_word, prefix_of, suffix_of};
use crate::lists::room_for_one;
use crate::types::{copied, name, type_name};
use fb_ast::{CallWord, Expr, TypeName, Unary};
use fb_base::{FaultKind, Span};
use fb_lexer::{Mark, Token, TokenKind};
use sqlite_items::{Boxed, Items};
use std::alloc::Global;

/// The level of an expression between parentheses, commas or brackets.
const WHOLE: u8 = 1;

const TOO_DEEP: ReadErr = ReadErr::Fault(FaultKind::DeepNesting);

#[derive(Clone, Copy)]
pub struct Grammar<F> {
    pub alloc: Global,
    /// How deep a part expression may be.
    pub room: usize,
    pub inner: F,
}

fn suffix_at(cursor: &Cursor<'_>) -> Option<Suffix>
    ensures { result ≡ spec.suffix_at (first cursor.now) }
{
    match cursor.peek() {
        Some(token) => suffix_of(&token.kind),
        None => None,
    }
}

fn operator_at(cursor: &Cursor<'_>, least: u8) -> Option<Operator>
    ensures { result ≡ spec.operator_at least (first cursor.now) }
{
    let token = cursor.peek()?;
    match binary_of(&token.kind) {
        Some((which, level)) if level >= least => Some(Operator {
            which,
            level,
            at: token.at,
        }),
        _ => None,
    }
}

impl<F: Fn(Global, &mut Cursor<'_>, usize, u8) -> Result<(Expr, usize), ReadErr>> Grammar<F> {
    fn inner(&self, cursor: &mut Cursor<'_>, least: u8) -> Result<(Expr, usize), ReadErr>
        requires { Nests self.now.room (F.pre self.now.inner) (F.post self.now.inner) }
        ensures reads { Reads (spec.expr self.now.room least cursor.old) result cursor.new }
        ensures within { IfOk result (λ x. x.1 ≤ self.now.room) }
    {
        (self.inner)(self.alloc, cursor, self.room, least)
    }

    // A part expression, and the greatest depth with it.
    #[tactic(auto, unfolding(crate::specs::Expr::part_in))]
    fn part(&self, cursor: &mut Cursor<'_>, deepest: usize) -> Result<(Expr, usize), ReadErr>
        requires nests { Nests self.now.room (F.pre self.now.inner) (F.post self.now.inner) }
        requires deep { deepest ≤ self.now.room }
        ensures reads { Reads (spec.part_in (spec.expr self.now.room) self.now.room deepest cursor.old) result cursor.new }
        ensures within { IfOk result (λ x. x.1 ≤ self.now.room) }
    {
        let (tree, depth) = self.inner(cursor, WHOLE)?;
        Ok((tree, deepest.max(depth)))
    }

    // Expressions with commas between, up to the closing parenthesis, of which there is at least one.
    #[tactic(auto, unfolding(crate::specs::Expr::arguments_from))]
    #[inline(never)]
    fn some_arguments(
        &self,
        cursor: &mut Cursor<'_>,
        deepest: usize,
    ) -> Result<(Items<Expr>, usize), ReadErr>
        requires nests { Nests self.now.room (F.pre self.now.inner) (F.post self.now.inner) }
        requires deep { deepest ≤ self.now.room }
        ensures reads { Reads (spec.arguments_from (spec.expr self.now.room) self.now.room (length cursor.old) [] deepest cursor.old) result cursor.new }
        ensures within { IfOk result (λ x. x.1 ≤ self.now.room) }
    {
        let mut found = room_for_one(self.alloc)?;
        let mut deepest = deepest;
        for _turn in 0..cursor.left() {
            let (tree, depth) = self.part(cursor, deepest)?;
            found.push(tree)?;
            deepest = depth;
            if !cursor.sees(Mark::Comma) {
                cursor.expect(Mark::Close)?;
                return Ok((found, deepest));
            }
            cursor.take();
        }
        Err(cursor.refuse())
    }

    #[tactic(auto, unfolding(crate::specs::Expr::arguments_in))]
    fn arguments(
        &self,
        cursor: &mut Cursor<'_>,
        deepest: usize,
    ) -> Result<(Items<Expr>, usize), ReadErr>
        requires nests { Nests self.now.room (F.pre self.now.inner) (F.post self.now.inner) }
        requires deep { deepest ≤ self.now.room }
        ensures reads { Reads (spec.arguments_in (spec.expr self.now.room) self.now.room deepest cursor.old) result cursor.new }
        ensures within { IfOk result (λ x. x.1 ≤ self.now.room) }
    {
        if cursor.sees(Mark::Close) {
            cursor.take();
            return Ok((Items::new(self.alloc), deepest));
        }
        self.some_arguments(cursor, deepest)
    }

    #[inline(never)]
    fn parenthesized(&self, cursor: &mut Cursor<'_>, at: Span) -> Result<(Expr, usize), ReadErr>
        requires { Nests self.now.room (F.pre self.now.inner) (F.post self.now.inner) }
        ensures reads { Reads (spec.read_production (spec.expr self.now.room) self.now.room 0 (productions.paren_production at) cursor.old) result cursor.new }
        ensures within { IfOk result (λ x. x.1 ≤ self.now.room + 1) }
    {
        let (inner, depth) = self.part(cursor, 0)?;
        cursor.expect(Mark::Close)?;
        Ok((Expr::Paren(at, Boxed::new(self.alloc, inner)?), depth + 1))
    }

    #[inline(never)]
    fn new_array(
        &self,
        cursor: &mut Cursor<'_>,
        at: Span,
        ty: TypeName,
    ) -> Result<(Expr, usize), ReadErr>
        requires { Nests self.now.room (F.pre self.now.inner) (F.post self.now.inner) }
        ensures reads { Reads (spec.read_production (spec.expr self.now.room) self.now.room 0 (productions.new_array_production at ty) cursor.old) result cursor.new }
        ensures within { IfOk result (λ x. x.1 ≤ self.now.room + 1) }
    {
        let (count, depth) = self.part(cursor, 0)?;
        cursor.expect(Mark::CloseBracket)?;
        let count = Boxed::new(self.alloc, count)?;
        Ok((Expr::NewArray(at, ty, count), depth + 1))
    }

    // What New makes. Parentheses and brackets right behind its type belong to it.
    #[inline(never)]
    fn new_(&self, cursor: &mut Cursor<'_>, at: Span) -> Result<(Expr, usize), ReadErr>
        requires { Nests self.now.room (F.pre self.now.inner) (F.post self.now.inner) }
        ensures reads { Reads (spec.read_production (spec.expr self.now.room) self.now.room 0 (productions.new_production at) cursor.old) result cursor.new }
        ensures within { IfOk result (λ x. x.1 ≤ self.now.room + 1) }
    {
        let ty = type_name(self.alloc, cursor)?;
        if cursor.sees(Mark::Open) {
            cursor.take();
            let (all, depth) = self.arguments(cursor, 0)?;
            return Ok((Expr::NewWith(at, ty, all), depth + 1));
        }
        if cursor.sees(Mark::OpenBracket) {
            if self.room == 0 {
                return Err(TOO_DEEP);
            }
            cursor.take();
            return self.new_array(cursor, at, ty);
        }
        Ok((Expr::New(at, ty), 1))
    }

    #[inline(never)]
    fn cast(&self, cursor: &mut Cursor<'_>, at: Span) -> Result<(Expr, usize), ReadErr>
        requires { Nests self.now.room (F.pre self.now.inner) (F.post self.now.inner) }
        ensures reads { Reads (spec.read_production (spec.expr self.now.room) self.now.room 0 (productions.cast_production at) cursor.old) result cursor.new }
        ensures within { IfOk result (λ x. x.1 ≤ self.now.room + 1) }
    {
        cursor.expect(Mark::Open)?;
        let ty = type_name(self.alloc, cursor)?;
        cursor.expect(Mark::Comma)?;
        let (value, depth) = self.part(cursor, 0)?;
        cursor.expect(Mark::Close)?;
        let value = Boxed::new(self.alloc, value)?;
        Ok((Expr::Cast(at, ty, value), depth + 1))
    }

    #[inline(never)]
    fn cptr(&self, cursor: &mut Cursor<'_>, at: Span) -> Result<(Expr, usize), ReadErr>
        requires { Nests self.now.room (F.pre self.now.inner) (F.post self.now.inner) }
        ensures reads { Reads (spec.read_production (spec.expr self.now.room) self.now.room 0 (productions.cptr_production at) cursor.old) result cursor.new }
        ensures within { IfOk result (λ x. x.1 ≤ self.now.room + 1) }
    {
        cursor.expect(Mark::Open)?;
        let ty = type_name(self.alloc, cursor)?;
        cursor.expect(Mark::Comma)?;
        let (value, depth) = self.part(cursor, 0)?;
        cursor.expect(Mark::Close)?;
        let value = Boxed::new(self.alloc, value)?;
        Ok((Expr::CPtr(at, ty, value), depth + 1))
    }

    #[inline(never)]
    fn size_of(&self, cursor: &mut Cursor<'_>, at: Span) -> Result<(Expr, usize), ReadErr>
        ensures reads { Reads (spec.read_production (spec.expr self.now.room) self.now.room 0 (productions.size_production at) cursor.old) result cursor.new }
        ensures within { IfOk result (λ x. x.1 ≤ self.now.room + 1) }
    {
        cursor.expect(Mark::Open)?;
        let ty = type_name(self.alloc, cursor)?;
        cursor.expect(Mark::Close)?;
        Ok((Expr::SizeOf(at, ty), 1))
    }

    #[inline(never)]
    fn iif(&self, cursor: &mut Cursor<'_>, at: Span) -> Result<(Expr, usize), ReadErr>
        requires { Nests self.now.room (F.pre self.now.inner) (F.post self.now.inner) }
        ensures reads { Reads (spec.read_production (spec.expr self.now.room) self.now.room 0 (productions.iif_production at) cursor.old) result cursor.new }
        ensures within { IfOk result (λ x. x.1 ≤ self.now.room + 1) }
    {
        cursor.expect(Mark::Open)?;
        let (condition, deepest) = self.part(cursor, 0)?;
        cursor.expect(Mark::Comma)?;
        let (one, deepest) = self.part(cursor, deepest)?;
        cursor.expect(Mark::Comma)?;
        let (other, deepest) = self.part(cursor, deepest)?;
        cursor.expect(Mark::Close)?;
        let condition = Boxed::new(self.alloc, condition)?;
        let one = Boxed::new(self.alloc, one)?;
        let other = Boxed::new(self.alloc, other)?;
        Ok((Expr::IIf(at, condition, one, other), deepest + 1))
    }

    #[inline(never)]
    fn call_word(
        &self,
        cursor: &mut Cursor<'_>,
        at: Span,
        word: CallWord,
    ) -> Result<(Expr, usize), ReadErr>
        requires { Nests self.now.room (F.pre self.now.inner) (F.post self.now.inner) }
        ensures reads { Reads (spec.read_production (spec.expr self.now.room) self.now.room 0 (productions.call_word_production at word) cursor.old) result cursor.new }
        ensures within { IfOk result (λ x. x.1 ≤ self.now.room + 1) }
    {
        cursor.expect(Mark::Open)?;
        let (all, depth) = self.arguments(cursor, 0)?;
        Ok((Expr::CallWord(at, word, all), depth + 1))
    }

    // The production that a reserved word begins.
    fn word(
        &self,
        cursor: &mut Cursor<'_>,
        at: Span,
        word: OperandWord,
    ) -> Result<(Expr, usize), ReadErr>
        requires { Nests self.now.room (F.pre self.now.inner) (F.post self.now.inner) }
        ensures reads { Reads (spec.started (spec.expr self.now.room) self.now.room (productions.word_start at word) cursor.old) result cursor.new }
        ensures within { IfOk result (λ x. x.1 ≤ self.now.room + 1) }
    {
        match word {
            OperandWord::True => {
                cursor.take();
                Ok((Expr::True(at), 1))
            }
            OperandWord::False => {
                cursor.take();
                Ok((Expr::False(at), 1))
            }
            OperandWord::This => {
                cursor.take();
                Ok((Expr::This(at), 1))
            }
            OperandWord::New => {
                cursor.take();
                self.new_(cursor, at)
            }
            OperandWord::Cast => {
                if self.room == 0 {
                    return Err(TOO_DEEP);
                }
                cursor.take();
                self.cast(cursor, at)
            }
            OperandWord::CPtr => {
                if self.room == 0 {
                    return Err(TOO_DEEP);
                }
                cursor.take();
                self.cptr(cursor, at)
            }
            OperandWord::SizeOf => {
                cursor.take();
                self.size_of(cursor, at)
            }
            OperandWord::IIf => {
                if self.room == 0 {
                    return Err(TOO_DEEP);
                }
                cursor.take();
                self.iif(cursor, at)
            }
            OperandWord::Call(word) => {
                cursor.take();
                self.call_word(cursor, at, word)
            }
            OperandWord::Nothing => Err(cursor.refuse()),
        }
    }

    // The production that a mark begins.
    fn mark(&self, cursor: &mut Cursor<'_>, at: Span, mark: Mark) -> Result<(Expr, usize), ReadErr>
        requires { Nests self.now.room (F.pre self.now.inner) (F.post self.now.inner) }
        ensures reads { Reads (spec.started (spec.expr self.now.room) self.now.room (productions.mark_start at mark) cursor.old) result cursor.new }
        ensures within { IfOk result (λ x. x.1 ≤ self.now.room + 1) }
    {
        match mark {
            Mark::Open => {
                if self.room == 0 {
                    return Err(TOO_DEEP);
                }
                cursor.take();
                self.parenthesized(cursor, at)
            }
            _ => Err(cursor.refuse()),
        }
    }

    // An operand without what goes on behind it, where its first token comes next.
    #[tactic(auto, unfolding(crate::specs::Expr::primary))]
    fn primary(&self, cursor: &mut Cursor<'_>, token: &Token) -> Result<(Expr, usize), ReadErr>
        requires { Nests self.now.room (F.pre self.now.inner) (F.post self.now.inner) }
        ensures reads { Reads (spec.primary (spec.expr self.now.room) self.now.room token.now cursor.old) result cursor.new }
        ensures within { IfOk result (λ x. x.1 ≤ self.now.room + 1) }
    {
        match &token.kind {
            TokenKind::Number(value) => {
                cursor.take();
                Ok((Expr::Number(token.at, *value), 1))
            }
            TokenKind::Str(text) => {
                cursor.take();
                Ok((Expr::Str(token.at, copied(self.alloc, text)?), 1))
            }
            TokenKind::Name(text) => {
                cursor.take();
                Ok((Expr::Name(token.at, copied(self.alloc, text)?), 1))
            }
            TokenKind::Mark(mark) => self.mark(cursor, token.at, *mark),
            TokenKind::Word(word) => self.word(cursor, token.at, operand_word(*word)),
            TokenKind::Colon | TokenKind::LineEnd => Err(cursor.refuse()),
        }
    }

    // The arguments of what is called or indexed with parentheses, behind the opening one.
    #[inline(never)]
    fn call(
        &self,
        cursor: &mut Cursor<'_>,
        left: Expr,
        depth: usize,
    ) -> Result<(Expr, usize), ReadErr>
        requires nests { Nests self.now.room (F.pre self.now.inner) (F.post self.now.inner) }
        requires deep { depth ≤ self.now.room }
        ensures reads { Reads (spec.read_production (spec.expr self.now.room) self.now.room depth (productions.call_production left) cursor.old) result cursor.new }
        ensures within { IfOk result (λ x. x.1 ≤ self.now.room + 1) }
    {
        let at = left.at();
        let (all, deepest) = self.arguments(cursor, depth)?;
        let left = Boxed::new(self.alloc, left)?;
        Ok((Expr::Call(at, left, all), deepest + 1))
    }

    // An index and its closing bracket.
    #[inline(never)]
    fn index(
        &self,
        cursor: &mut Cursor<'_>,
        left: Expr,
        depth: usize,
    ) -> Result<(Expr, usize), ReadErr>
        requires nests { Nests self.now.room (F.pre self.now.inner) (F.post self.now.inner) }
        requires deep { depth ≤ self.now.room }
        ensures reads { Reads (spec.read_production (spec.expr self.now.room) self.now.room depth (productions.index_production left) cursor.old) result cursor.new }
        ensures within { IfOk result (λ x. x.1 ≤ self.now.room + 1) }
    {
        let at = left.at();
        let (index, deepest) = self.part(cursor, depth)?;
        cursor.expect(Mark::CloseBracket)?;
        let left = Boxed::new(self.alloc, left)?;
        let index = Boxed::new(self.alloc, index)?;
        Ok((Expr::Index(at, left, index), deepest + 1))
    }

    // The name of a member.
    #[inline(never)]
    fn field(
        &self,
        cursor: &mut Cursor<'_>,
        left: Expr,
        depth: usize,
    ) -> Result<(Expr, usize), ReadErr>
        requires nests { Nests self.now.room (F.pre self.now.inner) (F.post self.now.inner) }
        requires deep { depth ≤ self.now.room }
        ensures reads { Reads (spec.read_production (spec.expr self.now.room) self.now.room depth (productions.field_production left) cursor.old) result cursor.new }
        ensures within { IfOk result (λ x. x.1 ≤ self.now.room + 1) }
    {
        let at = left.at();
        let name = name(self.alloc, cursor)?;
        let left = Boxed::new(self.alloc, left)?;
        Ok((Expr::Field(at, left, name), depth + 1))
    }

    // The name of a member of what a pointer points to.
    #[inline(never)]
    fn arrow(
        &self,
        cursor: &mut Cursor<'_>,
        left: Expr,
        depth: usize,
    ) -> Result<(Expr, usize), ReadErr>
        requires nests { Nests self.now.room (F.pre self.now.inner) (F.post self.now.inner) }
        requires deep { depth ≤ self.now.room }
        ensures reads { Reads (spec.read_production (spec.expr self.now.room) self.now.room depth (productions.arrow_production left) cursor.old) result cursor.new }
        ensures within { IfOk result (λ x. x.1 ≤ self.now.room + 1) }
    {
        let at = left.at();
        let name = name(self.alloc, cursor)?;
        let left = Boxed::new(self.alloc, left)?;
        Ok((Expr::Arrow(at, left, name), depth + 1))
    }

    // What goes on with an expression, behind its mark.
    fn behind(
        &self,
        cursor: &mut Cursor<'_>,
        left: Expr,
        depth: usize,
        suffix: Suffix,
    ) -> Result<(Expr, usize), ReadErr>
        requires nests { Nests self.now.room (F.pre self.now.inner) (F.post self.now.inner) }
        requires deep { depth ≤ self.now.room }
        ensures reads { Reads (spec.read_production (spec.expr self.now.room) self.now.room depth (productions.suffix_production left suffix) cursor.old) result cursor.new }
        ensures within { IfOk result (λ x. x.1 ≤ self.now.room + 1) }
    {
        match suffix {
            Suffix::Call => self.call(cursor, left, depth),
            Suffix::Index => self.index(cursor, left, depth),
            Suffix::Field => self.field(cursor, left, depth),
            Suffix::Arrow => self.arrow(cursor, left, depth),
        }
    }

    fn suffixed(
        &self,
        cursor: &mut Cursor<'_>,
        left: (Expr, usize),
        suffix: Suffix,
    ) -> Result<(Expr, usize), ReadErr>
        requires { Nests self.now.room (F.pre self.now.inner) (F.post self.now.inner) }
        ensures reads { Reads (spec.suffixed (spec.expr self.now.room) self.now.room left suffix cursor.old) result cursor.new }
        ensures within { IfOk result (λ x. x.1 ≤ self.now.room + 1) }
    {
        let (tree, depth) = left;
        if depth > self.room {
            return Err(TOO_DEEP);
        }
        cursor.take();
        self.behind(cursor, tree, depth, suffix)
    }

    #[tactic(auto, unfolding(crate::specs::Expr::suffixes))]
    fn suffixes(
        &self,
        cursor: &mut Cursor<'_>,
        first: (Expr, usize),
    ) -> Result<(Expr, usize), ReadErr>
        requires nests { Nests self.now.room (F.pre self.now.inner) (F.post self.now.inner) }
        requires deep { first.1 ≤ self.now.room + 1 }
        ensures reads { Reads (spec.suffixes (spec.expr self.now.room) self.now.room first cursor.old) result cursor.new }
        ensures within { IfOk result (λ x. x.1 ≤ self.now.room + 1) }
    {
        let mut left = first;
        for _turn in 0..cursor.left() {
            let Some(suffix) = suffix_at(cursor) else {
                return Ok(left);
            };
            left = self.suffixed(cursor, left, suffix)?;
        }
        Ok(left)
    }

    // An operator before its operand, which comes next.
    #[tactic(auto, unfolding(crate::specs::Expr::prefixed))]
    #[inline(never)]
    fn prefixed(
        &self,
        cursor: &mut Cursor<'_>,
        at: Span,
        operator: Unary,
        level: u8,
    ) -> Result<(Expr, usize), ReadErr>
        requires { Nests self.now.room (F.pre self.now.inner) (F.post self.now.inner) }
        ensures reads { Reads (spec.prefixed (spec.expr self.now.room) self.now.room at operator level cursor.old) result cursor.new }
        ensures within { IfOk result (λ x. x.1 ≤ self.now.room + 1) }
    {
        if self.room == 0 {
            return Err(TOO_DEEP);
        }
        cursor.take();
        let (operand, depth) = self.inner(cursor, level)?;
        let operand = Boxed::new(self.alloc, operand)?;
        Ok((Expr::Unary(at, operator, operand), depth + 1))
    }

    #[tactic(auto, unfolding(crate::specs::Expr::operand))]
    fn operand(&self, cursor: &mut Cursor<'_>, least: u8) -> Result<(Expr, usize), ReadErr>
        requires { Nests self.now.room (F.pre self.now.inner) (F.post self.now.inner) }
        ensures reads { Reads (spec.operand (spec.expr self.now.room) self.now.room least cursor.old) result cursor.new }
        ensures within { IfOk result (λ x. x.1 ≤ self.now.room + 1) }
    {
        let Some(token) = cursor.peek() else {
            return Err(cursor.refuse());
        };
        match prefix_of(&token.kind) {
            Some((operator, level)) => {
                if level < least {
                    return Err(cursor.refuse());
                }
                self.prefixed(cursor, token.at, operator, level)
            }
            None => {
                let first = self.primary(cursor, token)?;
                self.suffixes(cursor, first)
            }
        }
    }

    // An operator, which comes next, and what is on its right.
    #[tactic(auto, unfolding(crate::specs::Expr::operated))]
    #[inline(never)]
    fn operated(
        &self,
        cursor: &mut Cursor<'_>,
        left: (Expr, usize),
        operator: Operator,
    ) -> Result<(Expr, usize), ReadErr>
        requires nests { Nests self.now.room (F.pre self.now.inner) (F.post self.now.inner) }
        requires level { operator.level ≤ 13 }
        ensures reads { Reads (spec.operated (spec.expr self.now.room) self.now.room left operator cursor.old) result cursor.new }
        ensures within { IfOk result (λ x. x.1 ≤ self.now.room + 1) }
    {
        let (left, depth) = left;
        if depth > self.room {
            return Err(TOO_DEEP);
        }
        cursor.take();
        let (right, other) = self.inner(cursor, operator.level + 1)?;
        let at = left.at();
        let left = Boxed::new(self.alloc, left)?;
        let right = Boxed::new(self.alloc, right)?;
        Ok((
            Expr::Binary(at, left, operator.which, operator.at, right),
            depth.max(other) + 1,
        ))
    }

    // Operators of at least this level, which group from the left.
    #[tactic(auto, unfolding(crate::specs::Expr::climb))]
    fn climb(
        &self,
        cursor: &mut Cursor<'_>,
        least: u8,
        first: (Expr, usize),
    ) -> Result<(Expr, usize), ReadErr>
        requires nests { Nests self.now.room (F.pre self.now.inner) (F.post self.now.inner) }
        requires deep { first.1 ≤ self.now.room + 1 }
        ensures reads { Reads (spec.climb (spec.expr self.now.room) self.now.room least first cursor.old) result cursor.new }
        ensures within { IfOk result (λ x. x.1 ≤ self.now.room + 1) }
    {
        let mut left = first;
        for _turn in 0..cursor.left() {
            let Some(operator) = operator_at(cursor, least) else {
                return Ok(left);
            };
            left = self.operated(cursor, left, operator)?;
        }
        Ok(left)
    }

    #[tactic(auto, unfolding(crate::specs::Expr::level))]
    fn level(&self, cursor: &mut Cursor<'_>, least: u8) -> Result<(Expr, usize), ReadErr>
        requires { Nests self.now.room (F.pre self.now.inner) (F.post self.now.inner) }
        ensures reads { Reads (spec.level (spec.expr self.now.room) self.now.room least cursor.old) result cursor.new }
        ensures within { IfOk result (λ x. x.1 ≤ self.now.room + 1) }
    {
        let first = self.operand(cursor, least)?;
        self.climb(cursor, least, first)
    }
}

// Whether an operand begins with a token of this kind, operators before one aside.
fn begins_operand(kind: &TokenKind) -> bool
    ensures { result ≡ productions.begins_operand kind.now }
{
    match kind {
        TokenKind::Number(_) | TokenKind::Str(_) | TokenKind::Name(_) => true,
        TokenKind::Mark(mark) => *mark == Mark::Open,
        TokenKind::Word(word) => operand_word(*word) != OperandWord::Nothing,
        TokenKind::Colon | TokenKind::LineEnd => false,
    }
}

// Whether a token begins an expression of at least this level.
fn begins(token: &Token, least: u8) -> bool
    ensures { result ≡ spec.begins least (Some token.now) }
{
    match prefix_of(&token.kind) {
        Some((_, level)) => least <= level,
        None => begins_operand(&token.kind),
    }
}

/// Whether an expression begins with the next token.
pub fn begins_expr(cursor: &Cursor<'_>) -> bool
    ensures { result ≡ spec.begins 1 (first cursor.now) }
{
    match cursor.peek() {
        Some(token) => begins(token, WHOLE),
        None => false,
    }
}

// Where no expression can be deep enough: what is wrong with the next token.
#[tactic(auto, unfolding(crate::specs::Expr::no_room))]
fn no_room(cursor: &Cursor<'_>, least: u8) -> ReadErr
    ensures { spec.no_room least cursor.now ≡ Err (result, cursor.now) }
{
    match cursor.peek() {
        Some(token) if begins(token, least) => TOO_DEEP,
        _ => cursor.refuse(),
    }
}

/// An expression that is at most so deep, at most 200, whose operators outside parentheses are of at least this level,
/// from the next token on; and how deep it is.
pub fn expr_in(
    alloc: Global,
    cursor: &mut Cursor<'_>,
    room: usize,
    least: u8,
) -> Result<(Expr, usize), ReadErr>
    requires { room ≤ 200 }
    ensures reads { Reads (spec.expr room least cursor.old) result cursor.new }
    ensures within { IfOk result (λ x. x.1 ≤ room) }
{
    if room == 0 {
        return Err(no_room(cursor, least));
    }
    Grammar {
        alloc,
        room: room - 1,
        inner: expr_in,
    }
    .level(cursor, least)
}
