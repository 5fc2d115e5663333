//! The choice among the procedures of one name: the candidate to which the arguments convert at the least cost.
#![tactic(auto)]

mod answer;
mod choosing;
mod cost;
pub mod laws;
mod sig;

pub use answer::Pick;
pub use choosing::pick;
pub use sig::{Arg, Param, Sig};
