//! Dim, Static and Const.
ghost use Rattle.std.specs.Prelude.{◌≡◌, ⊤};
ghost use Rattle.parse_expr.specs.Reading.{Reads};
ghost use Rattle.parse_parts.specs.Variables as spec;

use crate::kinds::Level;
use crate::steps::{any_type, initial, whole};
use crate::turns::{Turning, all_of, comma_behind};
use fb_ast::{Bounds, Expr, Listed, Name, Stmt, Storage, Var};
use fb_base::Span;
use fb_lexer::{Mark, Word};
use parse_expr::{Cursor, ReadErr, name, type_name};
use sqlite_items::Items;
use std::alloc::Global;

#[tactic(auto, unfolding(crate::specs::Variables::bounds_from))]
fn bounds_from(alloc: Global, cursor: &mut Cursor<'_>, one: Expr) -> Result<Bounds, ReadErr>
    ensures { Reads (spec.bounds_from 200 one cursor.old) result cursor.new }
{
    if cursor.sees_word(Word::KwTo) {
        cursor.take();
        let high = whole(alloc, cursor)?;
        return Ok(Bounds {
            low: Some(one),
            high,
        });
    }
    Ok(Bounds {
        low: None,
        high: one,
    })
}

#[tactic(auto, unfolding(crate::specs::Variables::bounds))]
fn bounds(alloc: Global, cursor: &mut Cursor<'_>) -> Result<Bounds, ReadErr>
    ensures { Reads (spec.bounds 200 cursor.old) result cursor.new }
{
    let one = whole(alloc, cursor)?;
    let all = bounds_from(alloc, cursor, one)?;
    cursor.expect(Mark::Close)?;
    Ok(all)
}

/// The bounds of an array in parentheses, if they come next.
#[tactic(auto, unfolding(crate::specs::Variables::any_bounds))]
pub fn any_bounds(alloc: Global, cursor: &mut Cursor<'_>) -> Result<Option<Bounds>, ReadErr>
    ensures { Reads (spec.any_bounds 200 cursor.old) result cursor.new }
{
    if cursor.sees(Mark::Open) {
        cursor.take();
        let all = bounds(alloc, cursor)?;
        return Ok(Some(all));
    }
    Ok(None)
}

// Behind a variable's name and bounds.
#[tactic(auto, unfolding(crate::specs::Variables::var_behind))]
fn var_behind(
    alloc: Global,
    cursor: &mut Cursor<'_>,
    name: Name,
    bounds: Option<Bounds>,
) -> Result<Var, ReadErr>
    ensures { Reads (spec.var_behind 200 name bounds cursor.old) result cursor.new }
{
    cursor.expect_word(Word::KwAs)?;
    let ty = type_name(alloc, cursor)?;
    let init = initial(alloc, cursor)?;
    Ok(Var {
        name,
        bounds,
        ty,
        init,
    })
}

#[tactic(auto, unfolding(crate::specs::Variables::var))]
fn var(alloc: Global, cursor: &mut Cursor<'_>) -> Result<Var, ReadErr>
    ensures { Reads (spec.var 200 cursor.old) result cursor.new }
{
    let name = name(alloc, cursor)?;
    let bounds = any_bounds(alloc, cursor)?;
    var_behind(alloc, cursor, name, bounds)
}

struct VarTurns;

impl Turning<Items<Var>> for VarTurns {
    ghost ready = { λ _. ⊤ };

    ghost turned = { λ _. spec.var_turn 200 };

    #[tactic(auto, unfolding(crate::specs::Variables::var_turn))]
    fn turn(
        &self,
        alloc: Global,
        cursor: &mut Cursor<'_>,
        found: &mut Items<Var>,
    ) -> Result<bool, ReadErr> {
        let one = var(alloc, cursor)?;
        comma_behind(cursor, found, one)
    }
}

#[tactic(auto, unfolding(crate::specs::Variables::vars))]
fn vars(alloc: Global, cursor: &mut Cursor<'_>) -> Result<Items<Var>, ReadErr>
    ensures { Reads (spec.vars 200 cursor.old) result cursor.new }
{
    all_of(alloc, cursor, &VarTurns, Items::new(alloc))
}

#[tactic(auto, unfolding(crate::specs::Variables::listed))]
fn listed(alloc: Global, cursor: &mut Cursor<'_>) -> Result<Listed, ReadErr>
    ensures { Reads (spec.listed 200 cursor.old) result cursor.new }
{
    let name = name(alloc, cursor)?;
    let bounds = any_bounds(alloc, cursor)?;
    let init = initial(alloc, cursor)?;
    Ok(Listed { name, bounds, init })
}

struct ListedTurns;

impl Turning<Items<Listed>> for ListedTurns {
    ghost ready = { λ _. ⊤ };

    ghost turned = { λ _. spec.listed_turn 200 };

    #[tactic(auto, unfolding(crate::specs::Variables::listed_turn))]
    fn turn(
        &self,
        alloc: Global,
        cursor: &mut Cursor<'_>,
        found: &mut Items<Listed>,
    ) -> Result<bool, ReadErr> {
        let one = listed(alloc, cursor)?;
        comma_behind(cursor, found, one)
    }
}

#[tactic(auto, unfolding(crate::specs::Variables::all_listed))]
fn all_listed(alloc: Global, cursor: &mut Cursor<'_>) -> Result<Items<Listed>, ReadErr>
    ensures { Reads (spec.all_listed 200 cursor.old) result cursor.new }
{
    all_of(alloc, cursor, &ListedTurns, Items::new(alloc))
}

// Behind As.
#[tactic(auto, unfolding(crate::specs::Variables::dim_as))]
fn dim_as(
    alloc: Global,
    cursor: &mut Cursor<'_>,
    at: Span,
    storage: Storage,
) -> Result<Stmt, ReadErr>
    ensures { Reads (spec.dim_as 200 at storage cursor.old) result cursor.new }
{
    let ty = type_name(alloc, cursor)?;
    let all = all_listed(alloc, cursor)?;
    Ok(Stmt::DimAs(at, storage, ty, all))
}

#[tactic(auto, unfolding(crate::specs::Variables::dim_vars))]
fn dim_vars(
    alloc: Global,
    cursor: &mut Cursor<'_>,
    at: Span,
    storage: Storage,
) -> Result<Stmt, ReadErr>
    ensures { Reads (spec.dim_vars 200 at storage cursor.old) result cursor.new }
{
    let all = vars(alloc, cursor)?;
    Ok(Stmt::Dim(at, storage, all))
}

// Behind Dim, Dim Shared or Static.
#[tactic(auto, unfolding(crate::specs::Variables::dim_behind))]
fn dim_behind(
    alloc: Global,
    cursor: &mut Cursor<'_>,
    at: Span,
    storage: Storage,
) -> Result<Stmt, ReadErr>
    ensures { Reads (spec.dim_behind 200 at storage cursor.old) result cursor.new }
{
    if cursor.sees_word(Word::KwAs) {
        cursor.take();
        return dim_as(alloc, cursor, at, storage);
    }
    dim_vars(alloc, cursor, at, storage)
}

fn may_share(level: Level) -> bool
    ensures { result ≡ spec.may_share level }
{
    match level {
        Level::Module => true,
        Level::Main | Level::Procedure => false,
    }
}

fn dim_by(alloc: Global, cursor: &mut Cursor<'_>, shares: bool, at: Span) -> Result<Stmt, ReadErr>
    ensures { Reads (spec.dim_by 200 shares at cursor.old) result cursor.new }
{
    if !shares {
        return dim_behind(alloc, cursor, at, Storage::Scope);
    }
    if cursor.sees_word(Word::KwShared) {
        cursor.take();
        return dim_behind(alloc, cursor, at, Storage::Shared);
    }
    dim_behind(alloc, cursor, at, Storage::Scope)
}

/// Dim, which comes next (FreeBASIC Manual, Dim). Shared may stand behind it at the module's level alone.
#[tactic(auto, unfolding(crate::specs::Variables::dim))]
#[inline(never)]
pub fn dim(alloc: Global, cursor: &mut Cursor<'_>, at: Span, level: Level) -> Result<Stmt, ReadErr>
    ensures { Reads (spec.dim 200 at level cursor.old) result cursor.new }
{
    cursor.take();
    dim_by(alloc, cursor, may_share(level), at)
}

/// Static, which comes next (FreeBASIC Manual, Static).
#[tactic(auto, unfolding(crate::specs::Variables::static_))]
#[inline(never)]
pub fn static_(alloc: Global, cursor: &mut Cursor<'_>, at: Span) -> Result<Stmt, ReadErr>
    ensures { Reads (spec.static_ 200 at cursor.old) result cursor.new }
{
    cursor.take();
    dim_behind(alloc, cursor, at, Storage::Static)
}

/// Const, which comes next (FreeBASIC Manual, Const).
#[tactic(auto, unfolding(crate::specs::Variables::constant))]
#[inline(never)]
pub fn constant(alloc: Global, cursor: &mut Cursor<'_>, at: Span) -> Result<Stmt, ReadErr>
    ensures { Reads (spec.constant 200 at cursor.old) result cursor.new }
{
    cursor.take();
    let name = name(alloc, cursor)?;
    let ty = any_type(alloc, cursor)?;
    cursor.expect(Mark::Equal)?;
    let value = whole(alloc, cursor)?;
    Ok(Stmt::Const(at, name, ty, value))
}
