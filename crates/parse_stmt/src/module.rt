//! What a module is made of, up to the end of the text.
ghost use Rattle.std.specs.Prelude.{◌≡◌, ◌≤◌, ◌+◌, IfOk};
ghost use Rattle.parse_expr.specs.Reading.{Reads, first};
ghost use Rattle.parse_stmt.specs.Module as spec;
ghost use Rattle.parse_parts.specs.Steps.{Turns};

use crate::defined::procedure;
use crate::statements::stmt;
use fb_ast::{Item, Stmt};
use fb_base::FaultKind;
use fb_lexer::{Mark, Word};
use parse_expr::{Cursor, ReadErr};
use parse_parts::{
    InLine, Level, ProcedureWord, Spot, declared, place_at, sees_sep, sep, type_def, words_before,
};
use sqlite_items::Items;
use std::alloc::Global;

/// How deep a statement in a procedure may be: the procedure is one deeper.
const ROOM: usize = 199;

/// What there is of a module by now, and how many tokens its statements have.
#[derive(Debug, Drop)]
pub struct Found {
    pub items: Items<Item>,
    pub tokens: usize,
}

// Declare, which comes next.
#[tactic(auto, unfolding(crate::specs::Module::declare))]
#[inline(never)]
fn declare(alloc: Global, cursor: &mut Cursor<'_>) -> Result<Item, ReadErr>
    ensures { Reads (spec.declare cursor.old) result cursor.new }
{
    let at = place_at(cursor);
    cursor.take();
    declared(alloc, cursor, at)
}

// The end of what stands at the module's level, which the end of the text is, too.
fn ended(cursor: &mut Cursor<'_>) -> Result<(), ReadErr>
    ensures { Reads (spec.ended_by (first cursor.old) cursor.old) result cursor.new }
{
    match cursor.peek() {
        Some(_) => sep(cursor, InLine::Free),
        None => Ok(()),
    }
}

#[tactic(auto, unfolding(crate::specs::Module::ended_item))]
fn ended_item(cursor: &mut Cursor<'_>, found: &mut Found, one: Item) -> Result<bool, ReadErr>
    ensures turns { Turns (spec.ended_item found.old one cursor.old) found.new result cursor.new }
    ensures few { found.new.tokens ≤ found.old.tokens + 65536 }
{
    ended(cursor)?;
    found.items.push(one)?;
    Ok(true)
}

// A statement of the main module, and how many tokens it has.
#[tactic(auto, unfolding(crate::specs::Module::main_stmt))]
#[inline(never)]
fn main_stmt(alloc: Global, cursor: &mut Cursor<'_>) -> Result<(Stmt, usize), ReadErr>
    ensures reads { Reads (spec.main_stmt 200 199 cursor.old) result cursor.new }
    ensures few { IfOk result (λ x. x.1 ≤ 65536) }
{
    let before = cursor.copy();
    let spot = Spot {
        level: Level::Module,
        line: InLine::Free,
        other: FaultKind::ExtraText,
    };
    let one = stmt(alloc, cursor, ROOM + 1, spot)?;
    Ok((one, words_before(&before, cursor)))
}

#[tactic(auto, unfolding(crate::specs::Module::ended_stmt))]
fn ended_stmt(
    cursor: &mut Cursor<'_>,
    found: &mut Found,
    one: Stmt,
    tokens: usize,
) -> Result<bool, ReadErr>
    requires room { found.old.tokens ≤ 4294967296 }
    requires few { tokens ≤ 65536 }
    ensures turns { Turns (spec.ended_stmt found.old (one, tokens) cursor.old) found.new result cursor.new }
    ensures few { found.new.tokens ≤ found.old.tokens + 65536 }
{
    ended(cursor)?;
    found.items.push(Item::Stmt(one))?;
    found.tokens += tokens;
    Ok(true)
}

// Function begins a procedure, unless `=` stands behind it.
#[tactic(auto, unfolding(crate::specs::Module::function_begins))]
fn function_begins(cursor: &Cursor<'_>) -> bool
    ensures { result ≡ spec.function_begins cursor.now }
{
    if !cursor.sees_word(Word::KwFunction) {
        return false;
    }
    let mut behind = cursor.copy();
    behind.take();
    !behind.sees(Mark::Equal)
}

// The word that a procedure begins with, if one comes next.
#[tactic(auto, unfolding(crate::specs::Module::procedure_word))]
fn procedure_word(cursor: &Cursor<'_>) -> Option<ProcedureWord>
    ensures { result ≡ spec.procedure_word cursor.now }
{
    if cursor.sees_word(Word::KwSub) {
        return Some(ProcedureWord::Sub);
    }
    if function_begins(cursor) {
        return Some(ProcedureWord::Function);
    }
    if cursor.sees_word(Word::KwConstructor) {
        return Some(ProcedureWord::Constructor);
    }
    if cursor.sees_word(Word::KwDestructor) {
        return Some(ProcedureWord::Destructor);
    }
    if cursor.sees_word(Word::KwOperator) {
        return Some(ProcedureWord::Operator);
    }
    None
}

// A procedure or a statement.
fn item_by(
    alloc: Global,
    cursor: &mut Cursor<'_>,
    found: &mut Found,
    word: Option<ProcedureWord>,
) -> Result<bool, ReadErr>
    requires { found.old.tokens ≤ 4294967296 }
    ensures turns { Turns (spec.item_by 200 199 found.old word cursor.old) found.new result cursor.new }
    ensures few { found.new.tokens ≤ found.old.tokens + 65536 }
{
    match word {
        Some(word) => {
            let one = procedure(alloc, cursor, ROOM, word)?;
            ended_item(cursor, found, one)
        }
        None => {
            let (one, tokens) = main_stmt(alloc, cursor)?;
            ended_stmt(cursor, found, one, tokens)
        }
    }
}

#[tactic(auto, unfolding(crate::specs::Module::one_item))]
fn one_item(alloc: Global, cursor: &mut Cursor<'_>, found: &mut Found) -> Result<bool, ReadErr>
    requires { found.old.tokens ≤ 4294967296 }
    ensures turns { Turns (spec.one_item 200 199 found.old cursor.old) found.new result cursor.new }
    ensures few { found.new.tokens ≤ found.old.tokens + 65536 }
{
    if cursor.sees_word(Word::KwDeclare) {
        let one = declare(alloc, cursor)?;
        return ended_item(cursor, found, one);
    }
    if cursor.sees_word(Word::KwType) {
        let one = type_def(alloc, cursor)?;
        return ended_item(cursor, found, one);
    }
    let word = procedure_word(cursor);
    item_by(alloc, cursor, found, word)
}

#[tactic(auto, unfolding(crate::specs::Module::more_items))]
fn more_items(alloc: Global, cursor: &mut Cursor<'_>, found: &mut Found) -> Result<bool, ReadErr>
    requires { found.old.tokens ≤ 4294967296 }
    ensures turns { Turns (spec.more_items 200 199 found.old cursor.old) found.new result cursor.new }
    ensures few { found.new.tokens ≤ found.old.tokens + 65536 }
{
    if sees_sep(cursor, InLine::Free) {
        cursor.take();
        return Ok(true);
    }
    one_item(alloc, cursor, found)
}

// What stands next at the module's level, if the text doesn't end.
#[tactic(auto, unfolding(crate::specs::Module::item_turn))]
fn item_turn(alloc: Global, cursor: &mut Cursor<'_>, found: &mut Found) -> Result<bool, ReadErr>
    requires { found.old.tokens ≤ 4294967296 }
    ensures turns { Turns (spec.item_turn 200 199 found.old cursor.old) found.new result cursor.new }
    ensures few { found.new.tokens ≤ found.old.tokens + 65536 }
{
    match cursor.peek() {
        Some(_) => more_items(alloc, cursor, found),
        None => Ok(false),
    }
}

/// What a module is made of, up to the end of its text, and how many tokens its statements have.
#[tactic(auto, unfolding(crate::specs::Module::module_))]
pub fn module_(alloc: Global, cursor: &mut Cursor<'_>) -> Result<Found, ReadErr>
    ensures { Reads (spec.module_ 200 199 cursor.old) result cursor.new }
{
    let mut found = Found {
        items: Items::new(alloc),
        tokens: 0,
    };
    for _turn in 0..cursor.left() + 1 {
        let more = item_turn(alloc, cursor, &mut found)?;
        if !more {
            return Ok(found);
        }
    }
    Err(cursor.refuse())
}
