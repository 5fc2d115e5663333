use fb_ast::{Base, Binary, Bounds, Expr, Item, Member, Name, Tree, Ty, TypeName, Unary};
use fb_base::{FaultKind, NoMemory, Span, Text};
use sqlite_items::{Boxed, Items};
use std::alloc::Global;
use std::process::Abort;
use std::test::Fail;
use type_table::{Table, TypeErr, of};
use word64::Kind;

// The columns of a member's name, of its bounds and of its type; each member has a line of its own.
const AT_NAME: u32 = 1;

const AT_LOW: u32 = 2;

const AT_HIGH: u32 = 3;

const AT_TYPE: u32 = 4;

#[derive(Clone, Copy)]
enum Bound {
    Number(u64),
    Minus(u64),
    // one divided by zero
    ByZero,
}

use Bound::{ByZero, Minus, Number};

// A written type.
#[derive(Clone, Copy)]
enum Said<'a> {
    Word(Kind),
    Str,
    Any,
    Of(&'a [u8]),
    PtrTo(&'a [u8]),
}

use Said::{Any, Of, PtrTo, Str, Word};

// A field: its line, its name, its bounds and its type.
#[derive(Clone, Copy)]
struct Line<'a>(u32, &'a [u8], Option<(Bound, Bound)>, Said<'a>);

// A Type: its line, its name and its fields.
#[derive(Clone, Copy)]
struct Lines<'a>(u32, &'a [u8], &'a [Line<'a>]);

fn named(alloc: Global, line: u32, text: &[u8]) -> Result<Name, NoMemory> {
    Ok(Name {
        at: Span { line, col: AT_NAME },
        text: Text::of(alloc, text)?,
    })
}

fn edge(alloc: Global, at: Span, bound: Bound) -> Result<Expr, NoMemory> {
    match bound {
        Number(n) => Ok(Expr::Number(at, n)),
        Minus(n) => Ok(Expr::Unary(at, Unary::Minus, Boxed::new(alloc, Expr::Number(at, n))?)),
        ByZero => Ok(Expr::Binary(
            at,
            Boxed::new(alloc, Expr::Number(at, 1))?,
            Binary::Divide,
            at,
            Boxed::new(alloc, Expr::Number(at, 0))?,
        )),
    }
}

fn between(
    alloc: Global,
    line: u32,
    range: Option<(Bound, Bound)>,
) -> Result<Option<Bounds>, NoMemory> {
    match range {
        None => Ok(None),
        Some((low, high)) => Ok(Some(Bounds {
            low: Some(edge(alloc, Span { line, col: AT_LOW }, low)?),
            high: edge(alloc, Span { line, col: AT_HIGH }, high)?,
        })),
    }
}

fn written(alloc: Global, line: u32, said: Said<'_>) -> Result<TypeName, NoMemory> {
    let (base, pointers) = match said {
        Word(kind) => (Base::Num(kind), 0),
        Str => (Base::Str, 0),
        Any => (Base::Any, 0),
        Of(text) => (Base::Name(Text::of(alloc, text)?), 0),
        PtrTo(text) => (Base::Name(Text::of(alloc, text)?), 1),
    };
    Ok(TypeName {
        at: Span { line, col: AT_TYPE },
        base,
        pointers,
    })
}

fn field(alloc: Global, one: Line<'_>) -> Result<Member, NoMemory> {
    let Line(line, text, range, said) = one;
    Ok(Member::Field(
        named(alloc, line, text)?,
        between(alloc, line, range)?,
        written(alloc, line, said)?,
    ))
}

fn one_type(alloc: Global, one: Lines<'_>) -> Result<Item, NoMemory> {
    let Lines(line, text, fields) = one;
    let mut members = Items::new(alloc);
    for each in fields {
        members.push(field(alloc, *each)?)?;
    }
    Ok(Item::Type(
        Span { line, col: AT_NAME },
        named(alloc, line, text)?,
        members,
    ))
}

fn module(items: Items<Item>) -> Tree {
    Tree {
        items,
        tokens: 0,
        last_line: 1,
    }
}

// What is wanted of a Type: where its last field begins, its size, its alignment, whether it has lives, and its string
// cells.
#[derive(Clone, Copy)]
struct Wanted<'a>(u64, u64, u64, bool, &'a [u64]);

fn lies_so(
    rt: &impl Abort,
    alloc: Global,
    table: &Table,
    one: Lines<'_>,
    wanted: Wanted<'_>,
) -> Result<(), Fail> {
    let Lines(line, name, fields) = one;
    let number = table.number_of(name).unwrap_or(u32::MAX);
    let last = fields.len().saturating_sub(1);
    let ty = Ty::Obj(number);
    let shape = table.shape(alloc, &ty)?;
    let Wanted(offset, size, align, lives, cells) = wanted;
    assert!(rt;
        table.offset(number, last) == Some(offset),
        "last field on line {line}"
    );
    assert_eq!(rt; shape.size, size, "size on line {line}");
    assert_eq!(rt; shape.align, align, "alignment on line {line}");
    assert_eq!(rt; table.lives(&ty), lives, "lives on line {line}");
    assert_eq!(rt; shape.cells.as_slice(), cells, "cells on line {line}");
    Ok(())
}

const BYTE: Said<'static> = Word(Kind::Byte);

const LONG: Said<'static> = Word(Kind::Long);

// Types with what is wanted of them.
fn lie_so(rt: &impl Abort, alloc: Global, types: &[(Lines<'_>, Wanted<'_>)]) -> Result<(), Fail> {
    let mut items = Items::new(alloc);
    for (one, _wanted) in types {
        items.push(one_type(alloc, *one)?)?;
    }
    let table = of(alloc, &module(items))?;
    for (one, wanted) in types {
        lies_so(rt, alloc, &table, *one, *wanted)?;
    }
    Ok(())
}

#[test]
fn fields_at_their_alignment(rt: HostRuntime) -> Result<(), Fail> {
    let integer = Word(Kind::Integer);
    let short = Word(Kind::Short);
    lie_so(
        &rt,
        rt.alloc(),
        &[
            (
                Lines(
                    1,
                    b"mixed",
                    &[
                        Line(2, b"a", None, BYTE),
                        Line(3, b"b", None, integer),
                        Line(4, b"c", None, BYTE),
                    ],
                ),
                Wanted(16, 24, 8, false, &[]),
            ),
            (
                Lines(
                    5,
                    b"small",
                    &[
                        Line(6, b"a", None, short),
                        Line(7, b"b", None, LONG),
                        Line(8, b"c", None, BYTE),
                    ],
                ),
                Wanted(8, 12, 4, false, &[]),
            ),
            // before the Type that it contains
            (
                Lines(
                    9,
                    b"early",
                    &[
                        Line(10, b"a", None, BYTE),
                        Line(11, b"l", None, Of(b"late")),
                    ],
                ),
                Wanted(2, 4, 2, false, &[]),
            ),
            (
                Lines(12, b"late", &[Line(13, b"a", None, short)]),
                Wanted(0, 2, 2, false, &[]),
            ),
        ],
    )
}

#[test]
fn arrays_and_pointers(rt: HostRuntime) -> Result<(), Fail> {
    let around = Some((Minus(1), Number(1)));
    let greatest = Some((Number(0), Number(16777215)));
    lie_so(
        &rt,
        rt.alloc(),
        &[
            (
                Lines(1, b"around", &[Line(2, b"a", around, LONG)]),
                Wanted(0, 12, 4, false, &[]),
            ),
            (
                Lines(3, b"list", &[Line(4, b"next", None, PtrTo(b"list"))]),
                Wanted(0, 8, 8, false, &[]),
            ),
            (
                Lines(5, b"greatest", &[Line(6, b"a", greatest, BYTE)]),
                Wanted(0, 16777216, 1, false, &[]),
            ),
        ],
    )
}

#[test]
fn strings_in_types(rt: HostRuntime) -> Result<(), Fail> {
    let three = Some((Number(0), Number(2)));
    let two = Some((Number(0), Number(1)));
    lie_so(
        &rt,
        rt.alloc(),
        &[
            (
                Lines(
                    1,
                    b"named",
                    &[Line(2, b"a", None, BYTE), Line(3, b"s", None, Str)],
                ),
                Wanted(8, 32, 8, true, &[8]),
            ),
            (
                Lines(
                    4,
                    b"three",
                    &[Line(5, b"a", None, BYTE), Line(6, b"s", three, Str)],
                ),
                Wanted(8, 80, 8, true, &[8, 32, 56]),
            ),
            (
                Lines(7, b"outer", &[Line(8, b"n", two, Of(b"named"))]),
                Wanted(0, 64, 8, true, &[8, 40]),
            ),
            (
                Lines(
                    9,
                    b"behind",
                    &[Line(10, b"s", None, Str), Line(11, b"a", None, BYTE)],
                ),
                Wanted(24, 32, 8, true, &[0]),
            ),
        ],
    )
}

// The kind and the place of the first fault of a module's Types.
fn fault_of(alloc: Global, types: Items<Item>) -> Result<Option<(FaultKind, u32, u32)>, NoMemory> {
    match of(alloc, &module(types)) {
        Ok(_) => Ok(None),
        Err(TypeErr::NoMemory) => Err(NoMemory),
        Err(TypeErr::Fault(fault)) => Ok(Some((fault.kind, fault.at.line, fault.at.col))),
    }
}

// Types with a first fault of this kind at this place.
fn at_fault(
    rt: &impl Abort,
    alloc: Global,
    place: (FaultKind, u32, u32),
    types: Items<Item>,
) -> Result<(), Fail> {
    let found = fault_of(alloc, types)?;
    assert!(rt; found == Some(place));
    Ok(())
}

// A Type of one field, on the next line.
fn around(
    alloc: Global,
    line: u32,
    text: &[u8],
    range: Option<(Bound, Bound)>,
    said: Said<'_>,
) -> Result<Item, NoMemory> {
    let only = Line(line.saturating_add(1), b"a", range, said);
    one_type(alloc, Lines(line, text, &[only]))
}

// A Type of one field alone has a first fault of this kind at this place.
fn alone_at_fault(
    rt: &impl Abort,
    alloc: Global,
    place: (FaultKind, u32, u32),
    range: Option<(Bound, Bound)>,
    said: Said<'_>,
) -> Result<(), Fail> {
    let mut types = Items::new(alloc);
    types.push(around(alloc, 1, b"t", range, said)?)?;
    at_fault(rt, alloc, place, types)
}

#[test]
fn one_field_at_fault(rt: HostRuntime) -> Result<(), Fail> {
    let alloc = rt.alloc();
    let unknown = (FaultKind::Unknown, 2, AT_TYPE);
    alone_at_fault(&rt, alloc, unknown, None, Of(b"u"))?;
    let no_type = (FaultKind::NotAType, 2, AT_TYPE);
    alone_at_fault(&rt, alloc, no_type, None, Any)?;
    let turned = Some((Number(1), Minus(1)));
    let low = (FaultKind::BadBounds, 2, AT_LOW);
    alone_at_fault(&rt, alloc, low, turned, BYTE)?;
    let divided = Some((Number(1), ByZero));
    let high = (FaultKind::BadBounds, 2, AT_HIGH);
    alone_at_fault(&rt, alloc, high, divided, BYTE)?;
    let large = Some((Number(0), Number(16777216)));
    let big = (FaultKind::BigPlace, 1, AT_NAME);
    alone_at_fault(&rt, alloc, big, large, BYTE)?;
    let single = Some((Number(1), Number(1)));
    let circle = (FaultKind::TypeCycle, 1, AT_NAME);
    alone_at_fault(&rt, alloc, circle, single, Of(b"t"))
}

#[test]
fn second_names(rt: HostRuntime) -> Result<(), Fail> {
    let alloc = rt.alloc();
    let twice = (FaultKind::Twice, 3, AT_NAME);
    let mut types = Items::new(alloc);
    types.push(around(alloc, 1, b"t", None, BYTE)?)?;
    types.push(around(alloc, 3, b"t", None, BYTE)?)?;
    at_fault(&rt, alloc, twice, types)?;
    let mut members = Items::new(alloc);
    members.push(field(alloc, Line(2, b"a", None, BYTE))?)?;
    members.push(field(alloc, Line(3, b"a", None, LONG))?)?;
    let at = Span {
        line: 1,
        col: AT_NAME,
    };
    let mut types = Items::new(alloc);
    types.push(Item::Type(at, named(alloc, 1, b"t")?, members))?;
    at_fault(&rt, alloc, twice, types)
}

// Of three Types the first one in the text that contains itself has the fault, and not one before that contains it.
#[test]
fn a_circle_of_three(rt: HostRuntime) -> Result<(), Fail> {
    let alloc = rt.alloc();
    let mut types = Items::new(alloc);
    types.push(around(alloc, 1, b"before", None, Of(b"t"))?)?;
    types.push(around(alloc, 3, b"t", None, Of(b"u"))?)?;
    types.push(around(alloc, 5, b"u", None, Of(b"v"))?)?;
    types.push(around(alloc, 7, b"v", None, Of(b"t"))?)?;
    at_fault(&rt, alloc, (FaultKind::TypeCycle, 3, AT_NAME), types)
}

#[test]
fn a_module_without_types(rt: HostRuntime) -> Result<(), Fail> {
    let alloc = rt.alloc();
    let table = of(alloc, &module(Items::new(alloc)))?;
    let long = Ty::Num(Kind::Long);
    assert_eq!(rt; table.size(&long), 4);
    let string = Ty::Str;
    assert_eq!(rt; table.align(&string), 8);
    assert!(rt; table.lives(&string));
    let shape = table.shape(alloc, &string)?;
    assert_eq!(rt; shape.cells.len(), 1);
    Ok(())
}
