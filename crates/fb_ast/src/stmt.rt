use crate::expr::Expr;
use crate::operator::{Assignment, CallWord, Comparison};
use crate::part::{Bounds, Name};
use crate::ty::TypeName;
use fb_base::Span;
use sqlite_items::Items;

/// Where the variables of a Dim stand.
#[derive(Clone, Copy, Debug, PartialEq, Eq)]
pub enum Storage {
    /// `Dim`
    Scope,
    /// `Dim Shared`
    Shared,
    /// `Static`
    Static,
}

/// A variable with a type of its own: its name, the bounds of an array, its type, and its initial value.
#[derive(Debug, Drop)]
pub struct Var {
    pub name: Name,
    pub bounds: Option<Bounds>,
    pub ty: TypeName,
    pub init: Option<Expr>,
}

/// A variable behind the type that it shares with those beside it.
#[derive(Debug, Drop)]
pub struct Listed {
    pub name: Name,
    pub bounds: Option<Bounds>,
    pub init: Option<Expr>,
}

/// What Print prints, or what stands between.
#[derive(Debug, Drop)]
pub enum Printed {
    Expr(Expr),
    Semicolon(Span),
    Comma(Span),
}

/// While or Until.
#[derive(Clone, Copy, Debug, PartialEq, Eq)]
pub enum Until {
    While,
    Until,
}

/// The test of a Do, at its first word.
#[derive(Debug, Drop)]
pub struct Test {
    pub at: Span,
    pub word: Until,
    pub condition: Expr,
}

/// One value or range of a Case.
#[derive(Debug, Drop)]
pub enum Case {
    Value(Expr),
    Range(Expr, Expr),
    /// `Is`, a comparison and what is compared with. It begins at Is.
    Is(Span, Comparison, Expr),
}

/// What a branch of a Select is chosen by.
#[derive(Debug, Drop)]
pub enum Cases {
    List(Items<Case>),
    Else,
}

/// What an Exit leaves, or a Continue goes on with.
#[derive(Clone, Copy, Debug, PartialEq, Eq)]
pub enum End {
    For,
    While,
    Do,
    Select,
    Sub,
    Function,
}

/// Statements, and the place of the word that ends them. A branch of a one-line If ends with its Else, or with its last
/// token.
#[cycle(tree)]
#[derive(Debug, Drop)]
pub struct Block {
    pub stmts: Items<Stmt>,
    pub end: Span,
}

/// A branch of an If, at its If or ElseIf.
#[cycle(tree)]
#[derive(Debug, Drop)]
pub struct Branch {
    pub at: Span,
    pub condition: Expr,
    pub body: Block,
}

/// A branch of a Select, at its Case.
#[cycle(tree)]
#[derive(Debug, Drop)]
pub struct CaseBranch {
    pub at: Span,
    pub cases: Cases,
    pub body: Block,
}

/// A statement (FreeBASIC Manual, Control Flow, Variable Declarations, Console). The first part of each variant is the
/// place of its first token.
#[cycle(tree)]
#[derive(Debug, Drop)]
pub enum Stmt {
    /// Dim or Static of variables with their types.
    Dim(Span, Storage, Items<Var>),
    /// Dim or Static with one type for all.
    DimAs(Span, Storage, TypeName, Items<Listed>),
    Const(Span, Name, Option<TypeName>, Expr),
    /// The place, the mark and its own place, and the value.
    Assign(Span, Expr, Assignment, Span, Expr),
    /// `Function = e`
    Result(Span, Expr),
    /// A call with parentheses, as the expression that it is.
    Call(Span, Expr),
    /// A name and its arguments without parentheses.
    CallName(Span, Name, Items<Expr>),
    /// A word that is called without parentheses, and its arguments.
    CallWord(Span, CallWord, Items<Expr>),
    Print(Span, Items<Printed>),
    LineInput(Span, Expr),
    /// An If on one line: the condition, what is done then, and the place of Else with what is done else.
    IfLine(Span, Expr, Block, Option<(Span, Block)>),
    /// The branches with a condition, the place of Else with its statements, and the place of End If.
    If(Span, Items<Branch>, Option<(Span, Block)>, Span),
    /// The counter, its type if it is written, start, end and step, the body, and the name behind Next.
    For(Span, Name, Option<TypeName>, Expr, Expr, Option<Expr>, Block, Option<Name>),
    While(Span, Expr, Block),
    /// The test behind Do, the body, and the test behind Loop.
    Do(Span, Option<Test>, Block, Option<Test>),
    /// The value, the branches, and the place of End Select.
    Select(Span, Expr, Items<CaseBranch>, Span),
    Scope(Span, Block),
    Exit(Span, End),
    Continue(Span, End),
    Return(Span, Option<Expr>),
    /// Whether brackets stand behind Delete, and the pointer.
    Delete(Span, bool, Expr),
    End(Span, Option<Expr>),
}
