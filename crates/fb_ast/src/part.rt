use crate::expr::Expr;
use crate::operator::Binary;
use crate::stmt::{Block, Stmt};
use crate::ty::TypeName;
use fb_base::{Span, Text};
use sqlite_items::Items;

/// A name where it is written, in lower case.
#[derive(Debug, Drop)]
pub struct Name {
    pub at: Span,
    pub text: Text,
}

/// The bounds of an array, as `low To high` or `high` alone.
#[derive(Debug, Drop)]
pub struct Bounds {
    pub low: Option<Expr>,
    pub high: Expr,
}

/// The word before a parameter.
#[derive(Clone, Copy, Debug, PartialEq, Eq)]
pub enum Mode {
    ByVal,
    ByRef,
}

/// A parameter: `at` is the place of its first token. Only in a Declare and in a Type may the name be missing.
#[derive(Debug, Drop)]
pub struct Param {
    pub at: Span,
    pub mode: Option<Mode>,
    pub name: Option<Name>,
    pub ty: TypeName,
}

/// The head of a Sub or Function: the place of that word, the name, whether Overload stands behind it, the
/// parameters, and a Function's type.
#[derive(Debug, Drop)]
pub enum Head {
    Sub(Span, Name, bool, Items<Param>),
    Function(Span, Name, bool, Items<Param>, TypeName),
}

/// What stands in a Type (FreeBASIC Manual, Type). A Declare begins at that word.
#[derive(Debug, Drop)]
pub enum Member {
    /// A field: its name, the bounds of an array, and its type.
    Field(Name, Option<Bounds>, TypeName),
    /// `Declare Sub` or `Declare Function`
    Declare(Span, Head),
    /// `Declare Constructor`: the place of that word, and the parameters.
    Constructor(Span, Span, Items<Param>),
    /// `Declare Destructor`: the place of that word.
    Destructor(Span, Span),
    /// `Declare Operator Let`: the place of Let, and the parameter.
    Let(Span, Span, Param),
}

/// The head of a procedure that has a body. Each begins at its first word.
#[derive(Debug, Drop)]
pub enum ProcedureKind {
    /// A Sub or Function of the module.
    Module(Head),
    /// `Sub T.name`: the Type's name, the member's name, the parameters and the type if it is written.
    MemberSub(Span, Name, Name, Items<Param>, Option<TypeName>),
    /// `Function T.name`, likewise.
    MemberFunction(Span, Name, Name, Items<Param>, Option<TypeName>),
    /// `Constructor T`
    Constructor(Span, Name, Items<Param>),
    /// `Destructor T`
    Destructor(Span, Name),
    /// `Operator T.Let`: the Type's name, the place of Let, and the parameter.
    Let(Span, Name, Span, Param),
    /// A global operator: the operator and its place, both parameters, and the type.
    Operator(Span, Binary, Span, Param, Param, TypeName),
}

/// A procedure: its head, and its body with the place of its End. `tokens` counts its tokens from the head's first to
/// the last one of its End, line ends and colons aside.
#[derive(Debug, Drop)]
pub struct Procedure {
    pub kind: ProcedureKind,
    pub body: Block,
    pub tokens: usize,
}

/// What a module is made of.
#[derive(Debug, Drop)]
pub enum Item {
    /// `Declare Sub` or `Declare Function`
    Declare(Span, Head),
    /// `Declare Operator`: the operator and its place, the parameters, and the type.
    DeclareOperator(Span, Binary, Span, Items<Param>, TypeName),
    Procedure(Procedure),
    /// A Type: its name, and its members in the order of the text.
    Type(Span, Name, Items<Member>),
    Stmt(Stmt),
}
