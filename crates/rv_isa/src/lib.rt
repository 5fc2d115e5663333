//! The instructions of RV64IM: their words, and the machine that carries them out.
#![tactic(auto)]

mod field;
mod inst;
mod law;
mod reading;
mod writing;

pub use field::{Branch, Imm, Jump, Reg, Shift, Upper, WordShift};
pub use inst::Inst;
pub use law::{inverse, progress};
pub use reading::decode;
pub use writing::encode;
