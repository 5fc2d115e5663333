ghost use Rattle.std.specs.Prelude.{◌≡◌};
ghost use Rattle.fb_ast.specs.Places.{place_of};

use crate::operator::{Binary, CallWord, Unary};
use crate::part::Name;
use crate::ty::TypeName;
use fb_base::{Span, Text};
use sqlite_items::{Boxed, Items};

/// An expression (FreeBASIC Manual, Operators, Procedures). The first part of each variant is the place of its first
/// token.
#[derive(Debug, Drop)]
pub enum Expr {
    Number(Span, u64),
    /// A string literal.
    Str(Span, Text),
    True(Span),
    False(Span),
    /// A name, in lower case.
    Name(Span, Text),
    This(Span),
    /// An expression in parentheses.
    Paren(Span, Boxed<Expr>),
    /// `New T`, without parentheses or brackets behind it.
    New(Span, TypeName),
    /// `New T(..)`
    NewWith(Span, TypeName, Items<Expr>),
    /// `New T[n]`
    NewArray(Span, TypeName, Boxed<Expr>),
    /// `Cast(T, e)`
    Cast(Span, TypeName, Boxed<Expr>),
    /// `CPtr(T, e)`
    CPtr(Span, TypeName, Boxed<Expr>),
    /// `SizeOf(T)`
    SizeOf(Span, TypeName),
    /// `IIf(c, a, b)`
    IIf(Span, Boxed<Expr>, Boxed<Expr>, Boxed<Expr>),
    /// A word that is called, as `Len(s)`.
    CallWord(Span, CallWord, Items<Expr>),
    /// What is called or indexed with parentheses, and the arguments.
    Call(Span, Boxed<Expr>, Items<Expr>),
    /// `p[i]`
    Index(Span, Boxed<Expr>, Boxed<Expr>),
    /// `a.b`
    Field(Span, Boxed<Expr>, Name),
    /// `p->b`
    Arrow(Span, Boxed<Expr>, Name),
    Unary(Span, Unary, Boxed<Expr>),
    /// The left operand, the operator and its place, and the right operand.
    Binary(Span, Boxed<Expr>, Binary, Span, Boxed<Expr>),
}

impl Expr {
    /// The place of the expression's first token.
    pub fn at(&self) -> Span
        ensures { result ≡ place_of self.now }
    {
        match self {
            Expr::Number(at, ..)
            | Expr::Str(at, ..)
            | Expr::True(at)
            | Expr::False(at)
            | Expr::Name(at, ..)
            | Expr::This(at)
            | Expr::Paren(at, ..)
            | Expr::New(at, ..)
            | Expr::NewWith(at, ..)
            | Expr::NewArray(at, ..)
            | Expr::Cast(at, ..)
            | Expr::CPtr(at, ..)
            | Expr::SizeOf(at, ..)
            | Expr::IIf(at, ..)
            | Expr::CallWord(at, ..)
            | Expr::Call(at, ..)
            | Expr::Index(at, ..)
            | Expr::Field(at, ..)
            | Expr::Arrow(at, ..)
            | Expr::Unary(at, ..)
            | Expr::Binary(at, ..) => *at,
        }
    }
}
