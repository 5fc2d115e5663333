//! The trees of a program.
use sqlite_items::{Boxed, Items};

/// An operator between two whole numbers.
#[derive(Clone, Copy, Debug, PartialEq, Eq)]
pub enum Operator {
    /// `*`
    Times,
    /// `\`, the quotient without its fraction.
    Quotient,
    /// `Mod`, the remainder of that.
    Remainder,
    /// `+`
    Plus,
    /// `-`
    Minus,
    /// `=`
    Same,
    /// `<>`
    Other,
    /// `<`
    Less,
    /// `<=`
    AtMost,
    /// `>`
    More,
    /// `>=`
    AtLeast,
}

/// A whole-number expression.
#[derive(Debug, Drop)]
pub enum Expr {
    /// A decimal literal, below 2^63.
    Literal(u64),
    /// A variable, by the number of variables that are declared before it.
    Variable(u64),
    /// An expression in parentheses.
    Parenthesised(Boxed<Expr>),
    /// An operator between a left and a right side.
    Apply(Operator, Boxed<Expr>, Boxed<Expr>),
}

/// A statement; its last number, or that before `Wend`'s, is the line of its first token, from 1.
#[derive(Debug, Drop)]
pub enum Stmt {
    /// `Dim NAME As Integer`.
    Declare(u64, u64),
    /// `Dim NAME As Integer = expr`.
    DeclareWith(u64, Expr, u64),
    /// `NAME = expr`.
    Assign(u64, Expr, u64),
    /// `Print expr`.
    Print(Expr, u64),
    /// `If expr Then`, lines, `End If`.
    If(Expr, Items<Stmt>, u64),
    /// `While expr`, lines, `Wend`; the last number is the line of `Wend`.
    While(Expr, Items<Stmt>, u64, u64),
}

/// A whole program.
#[derive(Debug, Drop)]
pub struct Program {
    /// The statements, in the order of the text.
    pub statements: Items<Stmt>,
    /// How many variables are declared.
    pub variables: u64,
    /// The number of the text's last line: one more than it has bytes 10.
    pub last_line: u64,
}
