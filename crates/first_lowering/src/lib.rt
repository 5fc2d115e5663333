//! The small language from its trees to middle code, and that middle code carries out what the source means.
#![tactic(auto)]

mod emit;
mod law;
mod program;

pub use law::lowering;
pub use program::lower;
