//! The string calls of a run: what each comes to by the strings that its arguments name, and how it is carried out on
//! memory and heap.
#![tactic(auto)]

mod call;
mod carry;
pub mod laws;
mod outcome;
mod plan;
mod reading;
mod rows;

pub use call::text_call;
pub use outcome::{Outcome, TextErr};
pub use reading::text_at;
