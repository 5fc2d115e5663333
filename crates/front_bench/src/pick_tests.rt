use fb_ast::Ty;
use fb_base::{NoMemory, Sequence};
use overload_pick::{Arg, Param, Pick, Sig, pick};
use sqlite_items::Boxed;
use std::alloc::Global;
use std::test::Fail;
use word64::Kind;

// A type of the tables.
#[derive(Clone, Copy)]
enum T {
    Num(Kind),
    Str,
    Obj(u32),
    // a pointer to a number
    To(Kind),
    // a pointer to a pointer to a number
    ToTo(Kind),
    Any,
    // the literal 0, as an argument
    Zero,
}

use T::{Any, Num, Obj, Str, To, ToTo, Zero};

fn ty(alloc: Global, shape: T) -> Result<Ty, NoMemory> {
    match shape {
        Num(kind) => Ok(Ty::Num(kind)),
        Str => Ok(Ty::Str),
        Obj(number) => Ok(Ty::Obj(number)),
        To(kind) => Ok(Ty::Ptr(Boxed::new(alloc, Ty::Num(kind))?)),
        ToTo(kind) => {
            let target = Ty::Ptr(Boxed::new(alloc, Ty::Num(kind))?);
            Ok(Ty::Ptr(Boxed::new(alloc, target)?))
        },
        Any => Ok(Ty::AnyPtr),
        Zero => Ok(Ty::Num(Kind::Integer)),
    }
}

fn arg(alloc: Global, shape: T) -> Result<Arg, NoMemory> {
    let zero = match shape {
        Zero => true,
        _ => false,
    };
    Ok(Arg {
        ty: ty(alloc, shape)?,
        zero,
    })
}

fn sig(alloc: Global, shapes: [T; 2]) -> Result<Sig, NoMemory> {
    let mut params = Sequence::new(alloc);
    for shape in shapes {
        params.add(Param {
            ty: ty(alloc, shape)?,
            by_ref: false,
        })?;
    }
    Ok(params)
}

// The choice among three candidates with two parameters each.
fn picked(alloc: Global, a: [T; 2], b: [T; 2], c: [T; 2], args: [T; 2]) -> Result<Pick, NoMemory> {
    let cands = [sig(alloc, a)?, sig(alloc, b)?, sig(alloc, c)?];
    let [x, y] = args;
    let args = [arg(alloc, x)?, arg(alloc, y)?];
    Ok(pick(&cands, &args))
}

#[test]
fn picks_of_two_arguments(rt: HostRuntime) -> Result<(), Fail> {
    let alloc = rt.alloc();
    let int = Num(Kind::Integer);
    let long = Num(Kind::LongInt);
    let short = Num(Kind::Short);
    for (a, b, c, args, want) in [
        // f(x, y) with two that tie: each converts one argument
        (
            [int, long],
            [long, int],
            [Str, Str],
            [int, int],
            Pick::Tie(0, 1),
        ),
        (
            [Str, Str],
            [int, long],
            [long, int],
            [int, int],
            Pick::Tie(1, 2),
        ),
        (
            [long, int],
            [Str, Str],
            [int, long],
            [int, int],
            Pick::Tie(0, 2),
        ),
        (
            [int, long],
            [long, int],
            [int, int],
            [int, int],
            Pick::One(2),
        ),
        (
            [int, int],
            [int, long],
            [long, int],
            [int, int],
            Pick::One(0),
        ),
        (
            [long, long],
            [int, int],
            [long, long],
            [short, short],
            Pick::Tie(0, 1),
        ),
        (
            [Any, int],
            [To(Kind::Byte), long],
            [Any, long],
            [To(Kind::Byte), int],
            Pick::One(0),
        ),
        (
            [Any, Any],
            [Str, int],
            [int, Str],
            [Zero, Zero],
            Pick::One(0),
        ),
        ([Str, int], [int, Str], [Str, Str], [int, int], Pick::Nobody),
    ] {
        let found = picked(alloc, a, b, c, args)?;
        assert!(rt; found == want);
    }
    Ok(())
}

#[test]
fn the_number_of_parameters_has_to_agree(rt: HostRuntime) -> Result<(), Fail> {
    let alloc = rt.alloc();
    let two = [Num(Kind::Byte), Num(Kind::Byte)];
    let cands = [sig(alloc, two)?, Sequence::new(alloc)];
    let none: [Arg; 0] = [];
    let one = [arg(alloc, Num(Kind::Byte))?];
    assert!(rt; pick(&cands, &none) == Pick::One(1));
    assert!(rt; pick(&cands, &one) == Pick::Nobody);
    Ok(())
}
