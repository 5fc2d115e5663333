ghost use Rattle.std.specs.Prelude.{◌==◌, if◌then◌else◌, length};

use const_values::{Constant, Known, Outcome, constant};
use fb_ast::TypeName;
use fb_base::{Fault, FaultKind, Span};
use fb_lexer::lex;
use parse_expr::expr;
use std::alloc::Global;
use std::test::Fail;
use word64::Kind;

// A name of one letter is a Const of value 7, and no other name is known. A type without pointers has 8 bytes, and one
// with pointers counts as no type.
struct Letters;

impl Known for Letters {
    ghost use Rattle.word64.specs.declared.kind.Kind.TheVariants.{Integer};
    ghost use Rattle.fb_base.specs.declared.fault.FaultKind.TheVariants.{NotAType, Unknown};
    ghost use Rattle.const_values.specs.declared.outcome.Outcome.TheVariants.{Value, Fault};

    ghost named = { λ s at name. if length name == 1 then Value (record { kind = Integer; word = 7 }) else Fault (record { kind = Unknown; at = at }) };

    ghost sized = { λ s ty. if ty.pointers == 0 then Value (record { kind = Integer; word = 8 }) else Fault (record { kind = NotAType; at = ty.at }) };

    fn named(&self, at: Span, name: &[u8]) -> Outcome {
        if name.len() == 1 {
            Outcome::Value(Constant {
                kind: Kind::Integer,
                word: 7,
            })
        } else {
            Outcome::Fault(Fault {
                kind: FaultKind::Unknown,
                at,
            })
        }
    }

    fn sized(&self, ty: &TypeName) -> Outcome {
        if ty.pointers == 0 {
            Outcome::Value(Constant {
                kind: Kind::Integer,
                word: 8,
            })
        } else {
            Outcome::Fault(Fault {
                kind: FaultKind::NotAType,
                at: ty.at,
            })
        }
    }
}

// What a text comes to as a constant expression: its type and word, or its fault and column. None where it is no
// expression.
fn outcome(alloc: Global, text: &str) -> Option<Result<(Kind, u64), (FaultKind, u32)>> {
    if text.len() > 1_000 {
        return None;
    }
    let Ok(tokens) = lex(alloc, text.as_bytes()) else {
        return None;
    };
    let Ok((e, _)) = expr(alloc, &tokens, 0) else {
        return None;
    };
    match constant(&Letters, &e) {
        Ok(c) => Some(Ok((c.kind, c.word))),
        Err(fault) => Some(Err((fault.kind, fault.at.col))),
    }
}

#[test]
fn values_of_constant_expressions(rt: HostRuntime) {
    for (text, kind, word) in [
        ("a", Kind::Integer, 7),
        ("SizeOf(Byte)", Kind::Integer, 8),
        ("-7 \\ 2", Kind::Integer, 0xffff_ffff_ffff_fffd),
        ("-7 Mod 2", Kind::Integer, u64::MAX),
        (
            "18446744073709551608 \\ 2",
            Kind::UInteger,
            0x7fff_ffff_ffff_fffc,
        ),
        ("3 Shl 65", Kind::Integer, 6),
        ("-8 Shr 1", Kind::Integer, 0xffff_ffff_ffff_fffc),
        (
            "18446744073709551608 Shr 1",
            Kind::UInteger,
            0x7fff_ffff_ffff_fffc,
        ),
        ("-1 < 1", Kind::Integer, u64::MAX),
        ("-1 < 18446744073709551615", Kind::Integer, 0),
        ("True And 6", Kind::Integer, 6),
        ("2 AndAlso 4", Kind::Integer, u64::MAX),
        ("CByte(200)", Kind::Byte, 0xffff_ffff_ffff_ffc8),
        ("IIf(0, 1, True)", Kind::Integer, u64::MAX),
    ] {
        assert_eq!(rt; outcome(rt.alloc(), text), Some(Ok((kind, word))), "{text}");
    }
}

#[test]
fn faults_of_constant_expressions(rt: HostRuntime) {
    for (text, kind, col) in [
        ("1 & 2", FaultKind::BadBounds, 1),
        ("(1 Mod False)", FaultKind::BadBounds, 1),
        ("New Byte[3]", FaultKind::BadBounds, 1),
        ("a.nosuch", FaultKind::BadBounds, 1),
        ("a->nosuch", FaultKind::BadBounds, 1),
        ("This.nosuch", FaultKind::BadBounds, 1),
        ("1 \\ 0 + nosuch", FaultKind::Unknown, 9),
        ("Cast(Byte Ptr, nosuch)", FaultKind::NotAType, 6),
        ("Cast(Byte, nosuch)", FaultKind::Unknown, 12),
        ("CPtr(Byte Ptr, 1)", FaultKind::NotAType, 6),
        ("New Byte Ptr", FaultKind::NotAType, 5),
        ("New Byte(1, nosuch)", FaultKind::Unknown, 13),
        ("New Byte[nosuch]", FaultKind::Unknown, 10),
        ("Len(nosuch)", FaultKind::Unknown, 5),
        ("f(1, nosuch)", FaultKind::Unknown, 6),
        ("nosuch(1)", FaultKind::Unknown, 1),
        ("a[nosuch]", FaultKind::Unknown, 3),
        ("nosuch.b", FaultKind::Unknown, 1),
        ("@nosuch", FaultKind::Unknown, 2),
        ("IIf(1, f(nosuch), other)", FaultKind::Unknown, 10),
    ] {
        assert_eq!(rt; outcome(rt.alloc(), text), Some(Err((kind, col))), "{text}");
    }
}
