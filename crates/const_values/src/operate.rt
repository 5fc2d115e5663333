ghost use Rattle.std.specs.Prelude.{◌≡◌, ℕ, ◌-◌, ◌^◌};
ghost use Rattle.word64.specs.Kinds.{has_sign};
ghost use Rattle.const_values.specs.Operators.{
  is_wide,
  same_kind,
  common,
  merged,
  truth,
  quotient,
  remainder,
  less,
  shifted,
  word_of,
  kind_of,
  operated,
};
ghost use Rattle.const_values.specs.Values.{
  after,
  literal,
  between,
  choice,
  converted,
  unary,
  cast,
  written_kind,
  converted_to,
};

use crate::outcome::{Constant, Outcome};
use fb_ast::{Base, Binary, TypeName, Unary};
use word64::{
    Kind, add, div_s, div_u, less_s, less_u, mul, narrow, rem_s, rem_u, shl, shr_s, shr_u, sub,
};

// Whether arithmetic with a type is unsigned.
fn is_wide(kind: Kind) -> bool
    ensures { result ≡ is_wide kind }
{
    match kind {
        Kind::UInteger | Kind::ULongInt => true,
        Kind::Byte
        | Kind::UByte
        | Kind::Short
        | Kind::UShort
        | Kind::Long
        | Kind::ULong
        | Kind::Integer
        | Kind::LongInt
        | Kind::Boolean => false,
    }
}

// Whether a type has negative values.
fn signed(kind: Kind) -> bool
    ensures { result ≡ has_sign kind }
{
    match kind {
        Kind::UByte | Kind::UShort | Kind::ULong | Kind::UInteger | Kind::ULongInt => false,
        Kind::Byte | Kind::Short | Kind::Long | Kind::Integer | Kind::LongInt | Kind::Boolean =>
            true,
    }
}

// The type of what arithmetic gives.
fn common(one: Kind, other: Kind) -> Kind
    ensures { result ≡ common one other }
{
    if is_wide(one) || is_wide(other) {
        Kind::UInteger
    } else {
        Kind::Integer
    }
}

// The type of an IIf.
#[tactic(auto, unfolding(crate::specs::Operators::same_kind))]
fn merged(one: Kind, other: Kind) -> Kind
    ensures { result ≡ merged one other }
{
    if one == other {
        one
    } else {
        common(one, other)
    }
}

// -1 or 0.
fn truth(holds: bool) -> u64
    ensures { result ≡ truth holds }
{
    if holds { u64::MAX } else { 0 }
}

fn quotient(unsigned: bool, a: u64, b: u64) -> Option<u64>
    ensures { result ≡ quotient unsigned a b }
{
    if b == 0 {
        None
    } else if unsigned {
        Some(div_u(a, b))
    } else {
        Some(div_s(a, b))
    }
}

fn remainder(unsigned: bool, a: u64, b: u64) -> Option<u64>
    ensures { result ≡ remainder unsigned a b }
{
    if b == 0 {
        None
    } else if unsigned {
        Some(rem_u(a, b))
    } else {
        Some(rem_s(a, b))
    }
}

fn less(unsigned: bool, a: u64, b: u64) -> bool
    ensures { result ≡ less unsigned a b }
{
    if unsigned { less_u(a, b) } else { less_s(a, b) }
}

fn shifted(has_sign: bool, a: u64, n: u64) -> u64
    ensures { result ≡ shifted has_sign a n }
{
    if has_sign { shr_s(a, n) } else { shr_u(a, n) }
}

// The word of an operator between two words, by whether arithmetic is unsigned, and whether the left operand has a sign.
fn word(op: Binary, unsigned: bool, has_sign: bool, a: u64, b: u64) -> Option<u64>
    ensures { result ≡ word_of op unsigned has_sign a b }
{
    match op {
        Binary::Multiply => Some(mul(a, b)),
        Binary::Divide => quotient(unsigned, a, b),
        Binary::Mod => remainder(unsigned, a, b),
        Binary::Shl => Some(shl(a, b)),
        Binary::Shr => Some(shifted(has_sign, a, b)),
        Binary::Add => Some(add(a, b)),
        Binary::Subtract => Some(sub(a, b)),
        Binary::Join => None,
        Binary::Equal => Some(truth(a == b)),
        Binary::NotEqual => Some(truth(!(a == b))),
        Binary::Less => Some(truth(less(unsigned, a, b))),
        Binary::LessEqual => Some(truth(!less(unsigned, b, a))),
        Binary::Greater => Some(truth(less(unsigned, b, a))),
        Binary::GreaterEqual => Some(truth(!less(unsigned, a, b))),
        Binary::And => Some(a & b),
        Binary::Or => Some(a | b),
        Binary::Xor => Some(a ^ b),
        Binary::AndAlso => Some(truth(!(a == 0) && !(b == 0))),
        Binary::OrElse => Some(truth(!(a == 0) || !(b == 0))),
    }
}

// The type of what an operator gives.
fn kind(op: Binary, one: Kind, other: Kind) -> Kind
    ensures { result ≡ kind_of op one other }
{
    match op {
        Binary::Equal
        | Binary::NotEqual
        | Binary::Less
        | Binary::LessEqual
        | Binary::Greater
        | Binary::GreaterEqual
        | Binary::AndAlso
        | Binary::OrElse => Kind::Integer,
        Binary::Multiply
        | Binary::Divide
        | Binary::Mod
        | Binary::Shl
        | Binary::Shr
        | Binary::Add
        | Binary::Subtract
        | Binary::Join
        | Binary::And
        | Binary::Or
        | Binary::Xor => common(one, other),
    }
}

// An operator between two values.
fn operated(op: Binary, a: Constant, b: Constant) -> Outcome
    ensures { result ≡ operated op a b }
{
    let unsigned = is_wide(a.kind) || is_wide(b.kind);
    match word(op, unsigned, signed(a.kind), a.word, b.word) {
        Some(word) => Outcome::Value(Constant {
            kind: kind(op, a.kind, b.kind),
            word,
        }),
        None => Outcome::NoValue,
    }
}

/// An operator between two operands.
pub fn between(op: Binary, one: Outcome, other: Outcome) -> Outcome
    ensures { result ≡ between op one other }
{
    match one {
        Outcome::Fault(_) => one,
        Outcome::NoValue => match other {
            Outcome::Fault(_) => other,
            Outcome::NoValue | Outcome::Value(_) => Outcome::NoValue,
        },
        Outcome::Value(a) => match other {
            Outcome::Fault(_) | Outcome::NoValue => other,
            Outcome::Value(b) => operated(op, a, b),
        },
    }
}

// The second or the third part of an IIf whose condition has a value.
fn chosen(c: Constant, one: Outcome, other: Outcome) -> Outcome
    ensures { result ≡ choice (Outcome.Value c) one other }
{
    match one {
        Outcome::Fault(_) => one,
        Outcome::NoValue => match other {
            Outcome::Fault(_) => other,
            Outcome::NoValue | Outcome::Value(_) => Outcome::NoValue,
        },
        Outcome::Value(a) => match other {
            Outcome::Fault(_) | Outcome::NoValue => other,
            Outcome::Value(b) => Outcome::Value(Constant {
                kind: merged(a.kind, b.kind),
                word: if c.word == 0 { b.word } else { a.word },
            }),
        },
    }
}

/// An IIf of its three parts.
pub fn choice(condition: Outcome, one: Outcome, other: Outcome) -> Outcome
    ensures { result ≡ choice condition one other }
{
    match condition {
        Outcome::Fault(_) => condition,
        Outcome::NoValue => match one {
            Outcome::Fault(_) => one,
            Outcome::NoValue | Outcome::Value(_) => match other {
                Outcome::Fault(_) => other,
                Outcome::NoValue | Outcome::Value(_) => Outcome::NoValue,
            },
        },
        Outcome::Value(c) => chosen(c, one, other),
    }
}

/// A value as another whole-number type or Boolean has it (FreeBASIC Manual, Converting Data Types).
pub fn convert(kind: Kind, c: Constant) -> Constant
    ensures { result ≡ converted_to kind c }
{
    Constant {
        kind,
        word: narrow(c.word, kind),
    }
}

/// What stands behind a part: the part's fault goes before all else.
pub fn after(part: Outcome, rest: Outcome) -> Outcome
    ensures { result ≡ after part rest }
{
    match part {
        Outcome::Fault(_) => part,
        Outcome::Value(_) | Outcome::NoValue => rest,
    }
}

/// What has no value of its own, of one part.
pub fn unvalued(part: Outcome) -> Outcome
    ensures { result ≡ after part Outcome.NoValue }
{
    after(part, Outcome::NoValue)
}

/// What a conversion of a part gives.
pub fn converted(kind: Kind, part: Outcome) -> Outcome
    ensures { result ≡ converted kind part }
{
    match part {
        Outcome::Value(c) => Outcome::Value(convert(kind, c)),
        Outcome::NoValue | Outcome::Fault(_) => part,
    }
}

/// The whole-number type, or Boolean, that is written; None where another type is.
pub fn number_type(ty: &TypeName) -> Option<Kind>
    ensures { result ≡ written_kind ty.now.base ty.now.pointers }
{
    match &ty.base {
        Base::Num(kind) => { if ty.pointers == 0 { Some(*kind) } else { None } }
        Base::Str | Base::Any | Base::Name(_) => None,
    }
}

/// What Cast gives of a part, by the whole-number type that is written.
pub fn cast(kind: Option<Kind>, part: Outcome) -> Outcome
    ensures { result ≡ cast kind part }
{
    match kind {
        Some(kind) => converted(kind, part),
        None => match part {
            Outcome::Fault(_) => part,
            Outcome::NoValue | Outcome::Value(_) => Outcome::NoValue,
        },
    }
}

/// An operator before its operand.
pub fn unary(op: Unary, part: Outcome) -> Outcome
    ensures { result ≡ unary op part }
{
    match part {
        Outcome::Fault(_) | Outcome::NoValue => part,
        Outcome::Value(a) => match op {
            Unary::Minus => Outcome::Value(Constant {
                kind: common(a.kind, a.kind),
                word: sub(0, a.word),
            }),
            Unary::Not => Outcome::Value(Constant {
                kind: common(a.kind, a.kind),
                word: u64::MAX - a.word,
            }),
            Unary::Address | Unary::Deref => Outcome::NoValue,
        },
    }
}

/// The value of a number that is written.
pub fn literal(n: u64) -> Constant
    ensures { result ≡ literal n }
{
    Constant {
        kind: if n < 0x8000_0000_0000_0000 {
            Kind::Integer
        } else {
            Kind::UInteger
        },
        word: n,
    }
}
