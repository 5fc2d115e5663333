//! Names in scopes: what a name stands for in the innermost scope that has it.
#![tactic(auto)]

mod names;
mod scopes;
mod sym;

pub use scopes::Scopes;
pub use sym::{AddErr, Sym};
