use fb_ast::{Binary, Expr, Ty};
use fb_base::{Span, Text};
use sqlite_items::{Boxed, Items};
use std::alloc::AllocError;
use std::test::Fail;
use word64::Kind;

const FIRST: Span = Span { line: 3, col: 7 };

const OTHER: Span = Span { line: 4, col: 1 };

#[test]
fn copies_types(rt: HostRuntime) -> Result<(), Fail> {
    let alloc = rt.alloc();
    let inner = Ty::Ptr(Boxed::new(alloc, Ty::Num(Kind::UByte))?);
    let pointer = Ty::Ptr(Boxed::new(alloc, inner)?);
    for (ty, shown) in [
        (
            pointer,
            "Some(Ptr(Boxed { inner: Ptr(Boxed { inner: Num(UByte) }) }))",
        ),
        (Ty::Str, "Some(Str)"),
        (Ty::Obj(7), "Some(Obj(7))"),
        (Ty::AnyPtr, "Some(AnyPtr)"),
    ] {
        let copy = ty.copy(alloc).ok();
        let found = format!(in alloc; "{copy:?}")?;
        assert_eq!(rt; found.as_str(), shown);
    }
    Ok(())
}

#[test]
fn begins_at_the_first_part(rt: HostRuntime) -> Result<(), Fail> {
    let alloc = rt.alloc();
    let Ok(text) = Text::of(alloc, b"a") else {
        return Err(AllocError.into());
    };
    let left = Expr::Name(FIRST, text);
    assert_eq!(rt; left.at(), FIRST);
    let call = Expr::Call(FIRST, Boxed::new(alloc, left)?, Items::new(alloc));
    assert_eq!(rt; call.at(), FIRST);
    let right = Expr::True(OTHER);
    assert_eq!(rt; right.at(), OTHER);
    let sum = Expr::Binary(
        FIRST,
        Boxed::new(alloc, call)?,
        Binary::Add,
        OTHER,
        Boxed::new(alloc, right)?,
    );
    assert_eq!(rt; sum.at(), FIRST);
    Ok(())
}
