//! The small language of fbrv: lines of Print, variables, If and While over whole numbers, from the text to its trees.
#![tactic(auto)]

mod expression;
mod front;
mod line;
mod reader;
mod statements;
#[cfg(test)]
mod tests;
mod token;
mod tree;

pub use reader::{programs_are_sound, read_program};
pub use tree::{Expr, Operator, Program, Stmt};
