//! The value of constant expressions: one evaluator for the bounds of arrays, for Consts and for initial values.
#![tactic(auto)]

mod evaluate;
mod known;
pub mod laws;
mod operate;
mod outcome;

pub use evaluate::{constant, value};
pub use known::Known;
pub use operate::{cast, convert, number_type};
pub use outcome::{Constant, Outcome};
