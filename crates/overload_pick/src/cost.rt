ghost use Rattle.std.specs.Prelude.{◌≡◌, ℕ, ◌≤◌, ◌*◌, length, OnOk, IfSome};
ghost use Rattle.word64.specs.Kinds.{width_of, has_sign};
ghost use Rattle.overload_pick.specs.Types.{type_of, same_type, number_of};
ghost use Rattle.overload_pick.specs.Costs.{is_whole, widens, conversion, cost_of, sum_of};

use crate::sig::{Arg, Param};
use fb_ast::Ty;
use word64::Kind;

// The number of a kind in the order of the table.
fn number(kind: Kind) -> u8
    ensures { result ≡ number_of kind }
{
    match kind {
        Kind::Byte => 0,
        Kind::UByte => 1,
        Kind::Short => 2,
        Kind::UShort => 3,
        Kind::Long => 4,
        Kind::ULong => 5,
        Kind::Integer => 6,
        Kind::UInteger => 7,
        Kind::LongInt => 8,
        Kind::ULongInt => 9,
        Kind::Boolean => 10,
    }
}

// How many bytes a kind has.
fn width(kind: Kind) -> u8
    ensures { result ≡ width_of kind }
{
    match kind {
        Kind::Byte | Kind::UByte | Kind::Boolean => 1,
        Kind::Short | Kind::UShort => 2,
        Kind::Long | Kind::ULong => 4,
        Kind::Integer | Kind::UInteger | Kind::LongInt | Kind::ULongInt => 8,
    }
}

// Whether a kind has negative values.
fn signed(kind: Kind) -> bool
    ensures { result ≡ has_sign kind }
{
    match kind {
        Kind::UByte | Kind::UShort | Kind::ULong | Kind::UInteger | Kind::ULongInt => false,
        Kind::Byte | Kind::Short | Kind::Long | Kind::Integer | Kind::LongInt | Kind::Boolean =>
            true,
    }
}

// Whether a kind is a whole number.
fn whole(kind: Kind) -> bool
    ensures { result ≡ is_whole kind }
{
    match kind {
        Kind::Boolean => false,
        Kind::Byte
        | Kind::UByte
        | Kind::Short
        | Kind::UShort
        | Kind::Long
        | Kind::ULong
        | Kind::Integer
        | Kind::UInteger
        | Kind::LongInt
        | Kind::ULongInt => true,
    }
}

// Whether the second is a wider whole-number type of the same sign than the first.
fn is_wider(one: Kind, other: Kind) -> bool
    ensures { result ≡ widens one other }
{
    whole(one) && whole(other) && signed(one) == signed(other) && width(one) < width(other)
}

// Whether two types are the same.
fn same(one: &Ty, other: &Ty) -> bool
    ensures { result ≡ same_type (type_of one.now) (type_of other.now) }
{
    match one {
        Ty::Num(k) => match other {
            Ty::Num(l) => number(*k) == number(*l),
            Ty::Str | Ty::Obj(_) | Ty::Ptr(_) | Ty::AnyPtr => false,
        },
        Ty::Str => match other {
            Ty::Str => true,
            Ty::Num(_) | Ty::Obj(_) | Ty::Ptr(_) | Ty::AnyPtr => false,
        },
        Ty::Obj(m) => match other {
            Ty::Obj(n) => *m == *n,
            Ty::Num(_) | Ty::Str | Ty::Ptr(_) | Ty::AnyPtr => false,
        },
        Ty::Ptr(s) => match other {
            Ty::Ptr(t) => same(s.get(), t.get()),
            Ty::Num(_) | Ty::Str | Ty::Obj(_) | Ty::AnyPtr => false,
        },
        Ty::AnyPtr => match other {
            Ty::AnyPtr => true,
            Ty::Num(_) | Ty::Str | Ty::Obj(_) | Ty::Ptr(_) => false,
        },
    }
}

// What an implicit conversion to another type costs.
fn converted(zero: bool, one: &Ty, other: &Ty) -> Option<u64>
    ensures is { result ≡ conversion zero (type_of one.now) (type_of other.now) }
    ensures small { IfSome result (λ c. c ≤ 2) }
{
    match one {
        Ty::Num(k) => match other {
            Ty::Num(l) => { if is_wider(*k, *l) { Some(1) } else { Some(2) } }
            Ty::Ptr(_) | Ty::AnyPtr => { if zero { Some(2) } else { None } }
            Ty::Str | Ty::Obj(_) => None,
        },
        Ty::Ptr(_) => match other {
            Ty::AnyPtr => Some(1),
            Ty::Num(_) | Ty::Str | Ty::Obj(_) | Ty::Ptr(_) => None,
        },
        Ty::AnyPtr => match other {
            Ty::Ptr(_) => Some(2),
            Ty::Num(_) | Ty::Str | Ty::Obj(_) | Ty::AnyPtr => None,
        },
        Ty::Str | Ty::Obj(_) => None,
    }
}

// What it costs to give an argument to a parameter; None where it doesn't fit.
fn cost(arg: &Arg, param: &Param) -> Option<u64>
    ensures is { result ≡ cost_of arg.now param.now }
    ensures small { IfSome result (λ c. c ≤ 2) }
{
    if same(&arg.ty, &param.ty) {
        Some(0)
    } else {
        converted(arg.zero, &arg.ty, &param.ty)
    }
}

/// The sum of a candidate's costs; None where it doesn't fit.
pub fn sum(args: &[Arg], params: &[Param]) -> Option<u64>
    ensures { result ≡ sum_of args.now params.now }
{
    if args.len() != params.len() {
        return None;
    }
    let mut total = 0;
    for i in 0..args.len() {
        match cost(&args[i], &params[i]) {
            Some(one) => total += one,
            None => return None,
        }
    }
    Some(total)
}
