//! The commands of fbrv: from the words of a command line to what it reports.
#![tactic(auto)]

mod compiler;
pub mod first;
#[cfg(test)]
mod tests;
mod tool;

pub use compiler::{CompileErr, compile};
pub use main_run::{Solo, solo};
pub use tool::{Report, tool_call};
