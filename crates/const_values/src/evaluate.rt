ghost use Rattle.std.specs.Prelude.{◌≡◌, map};
ghost use Rattle.const_values.specs.Values.{value_of, constant_of, called, without_value};

use crate::known::Known;
use crate::operate::{
    after, between, cast, choice, converted, literal, number_type, unary, unvalued,
};
use crate::outcome::{Constant, Outcome};
use fb_ast::{CallWord, Expr};
use fb_base::{Fault, FaultKind};
use word64::Kind;

/// What an expression comes to as a constant expression: of numbers, True, False, Consts, SizeOf, operators between
/// whole numbers, Cast and the words that convert, IIf and parentheses (FreeBASIC Manual, Operators, Const).
///
/// A fault is the first one of a name or a type in it, in the order of the text, wherever it stands: also in arguments,
/// in brackets, in what stands before a point or an arrow, and in the types of Cast, CPtr, New and SizeOf. Else it has no
/// value where a part has none: what calls, reads or makes something has none, a string has none, and a division by zero
/// has none.
#[cycle(values)]
pub fn value<K: Known>(known: &K, e: &Expr) -> Outcome
    ensures { result ≡ value_of (K.named known.now) (K.sized known.now) e.now }
{
    match e {
        Expr::Number(_, n) => Outcome::Value(literal(*n)),
        Expr::True(_) => Outcome::Value(Constant {
            kind: Kind::Boolean,
            word: u64::MAX,
        }),
        Expr::False(_) => Outcome::Value(Constant {
            kind: Kind::Boolean,
            word: 0,
        }),
        Expr::Str(..) | Expr::This(_) => Outcome::NoValue,
        Expr::Name(at, name) => known.named(*at, name.bytes()),
        Expr::SizeOf(_, ty) => known.sized(ty),
        Expr::Paren(_, inside) => value(known, inside.get()),
        Expr::Unary(_, op, inside) => unary(*op, value(known, inside.get())),
        Expr::Binary(_, left, op, _, right) => between(
            *op,
            value(known, left.get()),
            value(known, right.get()),
        ),
        Expr::IIf(_, c, a, b) => choice(
            value(known, c.get()),
            value(known, a.get()),
            value(known, b.get()),
        ),
        Expr::Cast(_, ty, inside) => after(
            known.sized(ty),
            cast(number_type(ty), value(known, inside.get())),
        ),
        Expr::CallWord(_, word, args) => word_value(known, *word, args.as_slice()),
        Expr::New(_, ty) => unvalued(known.sized(ty)),
        Expr::NewWith(_, ty, args) => after(known.sized(ty), fault_among(known, args.as_slice())),
        Expr::NewArray(_, ty, count) => after(known.sized(ty), unvalued(value(known, count.get()))),
        Expr::CPtr(_, ty, inside) => after(known.sized(ty), unvalued(value(known, inside.get()))),
        Expr::Call(_, callee, args) => after(
            value(known, callee.get()),
            fault_among(known, args.as_slice()),
        ),
        Expr::Index(_, pointer, index) => after(
            value(known, pointer.get()),
            unvalued(value(known, index.get())),
        ),
        Expr::Field(_, whole, _) => unvalued(value(known, whole.get())),
        Expr::Arrow(_, pointer, _) => unvalued(value(known, pointer.get())),
    }
}

// What a word that is called comes to with its arguments.
#[cycle(values)]
fn word_value<K: Known>(known: &K, word: CallWord, args: &[Expr]) -> Outcome
    ensures { result ≡ called word (map (value_of (K.named known.now) (K.sized known.now)) args.now) }
{
    match word {
        CallWord::Convert(kind) => match args {
            [one] => converted(kind, value(known, one)),
            _ => fault_among(known, args),
        },
        _ => fault_among(known, args),
    }
}

// The first fault of parts of what has no value.
#[cycle(values)]
fn fault_among<K: Known>(known: &K, parts: &[Expr]) -> Outcome
    ensures { result ≡ without_value (map (value_of (K.named known.now) (K.sized known.now)) parts.now) }
{
    for part in parts {
        match value(known, part) {
            Outcome::Fault(fault) => return Outcome::Fault(fault),
            Outcome::Value(_) | Outcome::NoValue => {},
        }
    }
    Outcome::NoValue
}

/// The value that a constant expression has. The error is its fault: the first one of a name or type in it, else
/// BadBounds at its first token, where it isn't constant or divides by zero.
pub fn constant<K: Known>(known: &K, e: &Expr) -> Result<Constant, Fault>
    ensures { result ≡ constant_of (K.named known.now) (K.sized known.now) e.now }
{
    match value(known, e) {
        Outcome::Value(c) => Ok(c),
        Outcome::NoValue => Err(Fault {
            kind: FaultKind::BadBounds,
            at: e.at(),
        }),
        Outcome::Fault(fault) => Err(fault),
    }
}
