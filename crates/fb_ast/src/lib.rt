//! Trees of FreeBASIC text: one variant for each production of the grammar, with its parts in the order of the text.
#![tactic(auto)]

mod expr;
mod operator;
mod part;
mod stmt;
mod tree;
mod ty;

pub use expr::Expr;
pub use operator::{Assignment, Binary, CallWord, Comparison, Unary};
pub use part::{Bounds, Head, Item, Member, Mode, Name, Param, Procedure, ProcedureKind};
pub use stmt::{
    Block, Branch, Case, CaseBranch, Cases, End, Listed, Printed, Stmt, Storage, Test, Until, Var,
};
pub use tree::Tree;
pub use ty::{Base, Ty, TypeName};
