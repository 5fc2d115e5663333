//! Middle code: the operations between the source's statements and the machine's instructions, and their meaning.
#![tactic(auto)]

mod cover;
mod op;
mod program;
mod reg;
mod search;

pub use op::{Division, LinedOp, MidOp, WordOp};
pub use program::{MidProc, MidProgram};
pub use reg::Reg;
