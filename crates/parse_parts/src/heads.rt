//! Heads, Declares and procedures.
ghost use Rattle.std.specs.Prelude.{◌≡◌, [], Ok, ⊤};
ghost use Rattle.parse_expr.specs.Reading.{Reads, first};
ghost use Rattle.parse_parts.specs.Heads as spec;

use crate::kinds::{Closer, ProcedureWord, operator_of};
use crate::steps::{any_name, any_type, place_at, sees_name};
use crate::turns::{Turning, all_of, comma_behind};
use fb_ast::{Binary, Head, Item, Mode, Name, Param, ProcedureKind};
use fb_base::{FaultKind, Span};
use fb_lexer::{Mark, Word};
use parse_expr::{Cursor, ReadErr, name, type_name};
use sqlite_items::Items;
use std::alloc::Global;

// ---- parameters

#[tactic(auto, unfolding(crate::specs::Heads::any_mode))]
fn any_mode(cursor: &mut Cursor<'_>) -> Option<Mode>
    ensures { spec.any_mode cursor.old ≡ Ok (result, cursor.new) }
{
    if cursor.sees_word(Word::KwByVal) {
        cursor.take();
        return Some(Mode::ByVal);
    }
    if cursor.sees_word(Word::KwByRef) {
        cursor.take();
        return Some(Mode::ByRef);
    }
    None
}

// A parameter's name, which may be missing only in a Declare and in a Type.
fn param_name(
    alloc: Global,
    cursor: &mut Cursor<'_>,
    nameless: bool,
) -> Result<Option<Name>, ReadErr>
    ensures { Reads (spec.param_name nameless cursor.old) result cursor.new }
{
    if nameless {
        any_name(alloc, cursor)
    } else {
        Ok(Some(name(alloc, cursor)?))
    }
}

#[tactic(auto, unfolding(crate::specs::Heads::param))]
fn param(alloc: Global, cursor: &mut Cursor<'_>, nameless: bool) -> Result<Param, ReadErr>
    ensures { Reads (spec.param nameless cursor.old) result cursor.new }
{
    let at = place_at(cursor);
    let mode = any_mode(cursor);
    let name = param_name(alloc, cursor, nameless)?;
    cursor.expect_word(Word::KwAs)?;
    let ty = type_name(alloc, cursor)?;
    Ok(Param { at, mode, name, ty })
}

#[derive(Drop)]
struct ParamTurns {
    nameless: bool,
}

impl Turning<Items<Param>> for ParamTurns {
    ghost ready = { λ _. ⊤ };

    ghost turned = { λ p. spec.param_turn p.nameless };

    #[tactic(auto, unfolding(crate::specs::Heads::param_turn))]
    fn turn(
        &self,
        alloc: Global,
        cursor: &mut Cursor<'_>,
        found: &mut Items<Param>,
    ) -> Result<bool, ReadErr> {
        let one = param(alloc, cursor, self.nameless)?;
        comma_behind(cursor, found, one)
    }
}

#[tactic(auto, unfolding(crate::specs::Heads::param_list, crate::specs::Steps::repeat))]
fn param_list(
    alloc: Global,
    cursor: &mut Cursor<'_>,
    nameless: bool,
) -> Result<Items<Param>, ReadErr>
    ensures { Reads (spec.param_list nameless cursor.old) result cursor.new }
{
    all_of(alloc, cursor, &ParamTurns { nameless }, Items::new(alloc))
}

// Parameters and the closing parenthesis.
#[tactic(auto, unfolding(crate::specs::Heads::some_params))]
fn some_params(
    alloc: Global,
    cursor: &mut Cursor<'_>,
    nameless: bool,
) -> Result<Items<Param>, ReadErr>
    ensures { Reads (spec.some_params nameless cursor.old) result cursor.new }
{
    let all = param_list(alloc, cursor, nameless)?;
    cursor.expect(Mark::Close)?;
    Ok(all)
}

// Behind the opening parenthesis.
#[tactic(auto, unfolding(crate::specs::Heads::params_behind))]
fn params_behind(
    alloc: Global,
    cursor: &mut Cursor<'_>,
    nameless: bool,
) -> Result<Items<Param>, ReadErr>
    ensures { Reads (spec.params_behind nameless cursor.old) result cursor.new }
{
    if cursor.sees(Mark::Close) {
        cursor.take();
        return Ok(Items::new(alloc));
    }
    some_params(alloc, cursor, nameless)
}

// Parameters in parentheses, if those come next.
#[tactic(auto, unfolding(crate::specs::Heads::any_params))]
pub fn any_params(
    alloc: Global,
    cursor: &mut Cursor<'_>,
    nameless: bool,
) -> Result<Items<Param>, ReadErr>
    ensures { Reads (spec.any_params nameless cursor.old) result cursor.new }
{
    if cursor.sees(Mark::Open) {
        cursor.take();
        return params_behind(alloc, cursor, nameless);
    }
    Ok(Items::new(alloc))
}

// One parameter in parentheses.
#[tactic(auto, unfolding(crate::specs::Heads::one_param))]
pub fn one_param(alloc: Global, cursor: &mut Cursor<'_>, nameless: bool) -> Result<Param, ReadErr>
    ensures { Reads (spec.one_param nameless cursor.old) result cursor.new }
{
    cursor.expect(Mark::Open)?;
    let one = param(alloc, cursor, nameless)?;
    cursor.expect(Mark::Close)?;
    Ok(one)
}

// Empty parentheses, if they come next.
#[tactic(auto, unfolding(crate::specs::Heads::no_params))]
pub fn no_params(cursor: &mut Cursor<'_>) -> Result<(), ReadErr>
    ensures { Reads (spec.no_params cursor.old) result cursor.new }
{
    if cursor.sees(Mark::Open) {
        cursor.take();
        return cursor.expect(Mark::Close);
    }
    Ok(())
}

// ---- heads

#[tactic(auto, unfolding(crate::specs::Heads::overload))]
fn overload(cursor: &mut Cursor<'_>) -> bool
    ensures { spec.overload cursor.old ≡ Ok (result, cursor.new) }
{
    if cursor.sees_word(Word::KwOverload) {
        cursor.take();
        return true;
    }
    false
}

// Behind Sub and its name.
#[tactic(auto, unfolding(crate::specs::Heads::sub_head))]
fn sub_head(
    alloc: Global,
    cursor: &mut Cursor<'_>,
    at: Span,
    name: Name,
    nameless: bool,
) -> Result<Head, ReadErr>
    ensures { Reads (spec.sub_head at name nameless cursor.old) result cursor.new }
{
    let more = overload(cursor);
    let all = any_params(alloc, cursor, nameless)?;
    Ok(Head::Sub(at, name, more, all))
}

// Behind Function and its name.
#[tactic(auto, unfolding(crate::specs::Heads::function_head))]
fn function_head(
    alloc: Global,
    cursor: &mut Cursor<'_>,
    at: Span,
    name: Name,
    nameless: bool,
) -> Result<Head, ReadErr>
    ensures { Reads (spec.function_head at name nameless cursor.old) result cursor.new }
{
    let more = overload(cursor);
    let all = any_params(alloc, cursor, nameless)?;
    cursor.expect_word(Word::KwAs)?;
    let ty = type_name(alloc, cursor)?;
    Ok(Head::Function(at, name, more, all, ty))
}

// The head of a Declare, which has no body.
#[tactic(auto, unfolding(crate::specs::Heads::declared_head))]
pub fn declared_head(alloc: Global, cursor: &mut Cursor<'_>) -> Result<Head, ReadErr>
    ensures { Reads (spec.declared_head cursor.old) result cursor.new }
{
    let at = place_at(cursor);
    if cursor.sees_word(Word::KwSub) {
        cursor.take();
        let name = name(alloc, cursor)?;
        return sub_head(alloc, cursor, at, name, true);
    }
    cursor.expect_word(Word::KwFunction)?;
    let name = name(alloc, cursor)?;
    function_head(alloc, cursor, at, name, true)
}

fn operator_at(cursor: &Cursor<'_>) -> Option<Binary>
    ensures { result ≡ spec.operator_at (first cursor.now) }
{
    match cursor.peek() {
        Some(token) => operator_of(&token.kind),
        None => None,
    }
}

// The mark of an operator that a text may declare.
#[tactic(auto, unfolding(crate::specs::Heads::operator_mark))]
fn operator_mark(cursor: &mut Cursor<'_>) -> Result<Binary, ReadErr>
    ensures { Reads (spec.operator_mark cursor.old) result cursor.new }
{
    match operator_at(cursor) {
        Some(which) => {
            cursor.take();
            Ok(which)
        }
        None => Err(ReadErr::Fault(FaultKind::Expected)),
    }
}

// Behind Declare Operator.
#[tactic(auto, unfolding(crate::specs::Heads::declared_operator))]
fn declared_operator(alloc: Global, cursor: &mut Cursor<'_>, at: Span) -> Result<Item, ReadErr>
    ensures { Reads (spec.declared_operator at cursor.old) result cursor.new }
{
    let mark_at = place_at(cursor);
    let which = operator_mark(cursor)?;
    cursor.expect(Mark::Open)?;
    let all = some_params(alloc, cursor, true)?;
    cursor.expect_word(Word::KwAs)?;
    let ty = type_name(alloc, cursor)?;
    Ok(Item::DeclareOperator(at, which, mark_at, all, ty))
}

// Behind Declare.
#[tactic(auto, unfolding(crate::specs::Heads::declared))]
pub fn declared(alloc: Global, cursor: &mut Cursor<'_>, at: Span) -> Result<Item, ReadErr>
    ensures { Reads (spec.declared at cursor.old) result cursor.new }
{
    if cursor.sees_word(Word::KwOperator) {
        cursor.take();
        return declared_operator(alloc, cursor, at);
    }
    let head = declared_head(alloc, cursor)?;
    Ok(Item::Declare(at, head))
}

// ---- procedures

// Behind Sub, a Type's name and the dot.
#[tactic(auto, unfolding(crate::specs::Heads::member_sub))]
fn member_sub(
    alloc: Global,
    cursor: &mut Cursor<'_>,
    at: Span,
    ty: Name,
) -> Result<(ProcedureKind, Closer), ReadErr>
    ensures { Reads (spec.member_sub at ty cursor.old) result cursor.new }
{
    let name = name(alloc, cursor)?;
    let all = any_params(alloc, cursor, false)?;
    let result = any_type(alloc, cursor)?;
    let kind = ProcedureKind::MemberSub(at, ty, name, all, result);
    Ok((kind, Closer::Sub))
}

#[tactic(auto, unfolding(crate::specs::Heads::member_function))]
fn member_function(
    alloc: Global,
    cursor: &mut Cursor<'_>,
    at: Span,
    ty: Name,
) -> Result<(ProcedureKind, Closer), ReadErr>
    ensures { Reads (spec.member_function at ty cursor.old) result cursor.new }
{
    let name = name(alloc, cursor)?;
    let all = any_params(alloc, cursor, false)?;
    let result = any_type(alloc, cursor)?;
    let kind = ProcedureKind::MemberFunction(at, ty, name, all, result);
    Ok((kind, Closer::Function))
}

// Behind Sub and its name.
#[tactic(auto, unfolding(crate::specs::Heads::sub_behind, crate::specs::Heads::module_sub))]
fn sub_behind(
    alloc: Global,
    cursor: &mut Cursor<'_>,
    at: Span,
    name: Name,
) -> Result<(ProcedureKind, Closer), ReadErr>
    ensures { Reads (spec.sub_behind at name cursor.old) result cursor.new }
{
    if cursor.sees(Mark::Dot) {
        cursor.take();
        return member_sub(alloc, cursor, at, name);
    }
    let head = sub_head(alloc, cursor, at, name, false)?;
    Ok((ProcedureKind::Module(head), Closer::Sub))
}

// Behind Function and its name.
#[tactic(auto, unfolding(crate::specs::Heads::function_behind, crate::specs::Heads::module_function))]
fn function_behind(
    alloc: Global,
    cursor: &mut Cursor<'_>,
    at: Span,
    name: Name,
) -> Result<(ProcedureKind, Closer), ReadErr>
    ensures { Reads (spec.function_behind at name cursor.old) result cursor.new }
{
    if cursor.sees(Mark::Dot) {
        cursor.take();
        return member_function(alloc, cursor, at, name);
    }
    let head = function_head(alloc, cursor, at, name, false)?;
    Ok((ProcedureKind::Module(head), Closer::Function))
}

#[tactic(auto, unfolding(crate::specs::Heads::sub_opened))]
fn sub_opened(
    alloc: Global,
    cursor: &mut Cursor<'_>,
    at: Span,
) -> Result<(ProcedureKind, Closer), ReadErr>
    ensures { Reads (spec.sub_opened at cursor.old) result cursor.new }
{
    let name = name(alloc, cursor)?;
    sub_behind(alloc, cursor, at, name)
}

#[tactic(auto, unfolding(crate::specs::Heads::function_opened))]
fn function_opened(
    alloc: Global,
    cursor: &mut Cursor<'_>,
    at: Span,
) -> Result<(ProcedureKind, Closer), ReadErr>
    ensures { Reads (spec.function_opened at cursor.old) result cursor.new }
{
    let name = name(alloc, cursor)?;
    function_behind(alloc, cursor, at, name)
}

#[tactic(auto, unfolding(crate::specs::Heads::constructor))]
fn constructor(
    alloc: Global,
    cursor: &mut Cursor<'_>,
    at: Span,
) -> Result<(ProcedureKind, Closer), ReadErr>
    ensures { Reads (spec.constructor at cursor.old) result cursor.new }
{
    let name = name(alloc, cursor)?;
    let all = any_params(alloc, cursor, false)?;
    Ok((
        ProcedureKind::Constructor(at, name, all),
        Closer::Constructor,
    ))
}

#[tactic(auto, unfolding(crate::specs::Heads::destructor))]
fn destructor(
    alloc: Global,
    cursor: &mut Cursor<'_>,
    at: Span,
) -> Result<(ProcedureKind, Closer), ReadErr>
    ensures { Reads (spec.destructor at cursor.old) result cursor.new }
{
    let name = name(alloc, cursor)?;
    no_params(cursor)?;
    Ok((ProcedureKind::Destructor(at, name), Closer::Destructor))
}

// Behind Operator, where a Type's name comes next.
#[tactic(auto, unfolding(crate::specs::Heads::let_operator))]
fn let_operator(
    alloc: Global,
    cursor: &mut Cursor<'_>,
    at: Span,
) -> Result<(ProcedureKind, Closer), ReadErr>
    ensures { Reads (spec.let_operator at cursor.old) result cursor.new }
{
    let name = name(alloc, cursor)?;
    cursor.expect(Mark::Dot)?;
    let let_at = place_at(cursor);
    cursor.expect_word(Word::KwLet)?;
    let value = one_param(alloc, cursor, false)?;
    let kind = ProcedureKind::Let(at, name, let_at, value);
    Ok((kind, Closer::Operator))
}

#[tactic(auto, unfolding(crate::specs::Heads::two_params))]
fn two_params(alloc: Global, cursor: &mut Cursor<'_>) -> Result<(Param, Param), ReadErr>
    ensures { Reads (spec.two_params cursor.old) result cursor.new }
{
    cursor.expect(Mark::Open)?;
    let one = param(alloc, cursor, false)?;
    cursor.expect(Mark::Comma)?;
    let other = param(alloc, cursor, false)?;
    cursor.expect(Mark::Close)?;
    Ok((one, other))
}

// Behind Operator, where a mark comes next.
#[tactic(auto, unfolding(crate::specs::Heads::mark_operator))]
fn mark_operator(
    alloc: Global,
    cursor: &mut Cursor<'_>,
    at: Span,
) -> Result<(ProcedureKind, Closer), ReadErr>
    ensures { Reads (spec.mark_operator at cursor.old) result cursor.new }
{
    let mark_at = place_at(cursor);
    let which = operator_mark(cursor)?;
    let (one, other) = two_params(alloc, cursor)?;
    cursor.expect_word(Word::KwAs)?;
    let ty = type_name(alloc, cursor)?;
    let kind = ProcedureKind::Operator(at, which, mark_at, one, other, ty);
    Ok((kind, Closer::Operator))
}

#[tactic(auto, unfolding(crate::specs::Heads::operator_behind))]
fn operator_behind(
    alloc: Global,
    cursor: &mut Cursor<'_>,
    at: Span,
) -> Result<(ProcedureKind, Closer), ReadErr>
    ensures { Reads (spec.operator_behind at cursor.old) result cursor.new }
{
    if sees_name(cursor) {
        return let_operator(alloc, cursor, at);
    }
    mark_operator(alloc, cursor, at)
}

/// A procedure's head by its first word, which has been taken, and what ends its body.
pub fn opened(
    alloc: Global,
    cursor: &mut Cursor<'_>,
    word: ProcedureWord,
    at: Span,
) -> Result<(ProcedureKind, Closer), ReadErr>
    ensures { Reads (spec.opened word at cursor.old) result cursor.new }
{
    match word {
        ProcedureWord::Sub => sub_opened(alloc, cursor, at),
        ProcedureWord::Function => function_opened(alloc, cursor, at),
        ProcedureWord::Constructor => constructor(alloc, cursor, at),
        ProcedureWord::Destructor => destructor(alloc, cursor, at),
        ProcedureWord::Operator => operator_behind(alloc, cursor, at),
    }
}
