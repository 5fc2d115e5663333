//! The expressions of FreeBASIC text: the grammar, and the longest expression from a place on as its tree.
#![tactic(auto)]

mod cursor;
mod error;
mod grammar;
mod kinds;
mod laws;
mod lists;
mod reading;
mod types;

pub use cursor::Cursor;
pub use error::{ParseErr, ReadErr};
pub use grammar::{begins_expr, expr_in};
pub use kinds::{OperandWord, operand_word};
pub use laws::{
    faults_found, first_fault, longest_tree, no_early_fault, one_tree, trees_found, trees_read,
};
pub use lists::room_for_one;
pub use reading::{error_of, expr};
pub use types::{name, type_name};
