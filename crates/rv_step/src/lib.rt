//! One step of an RV64IM thread over an image: the machine of `rv_isa` carried out.
#![tactic(auto)]

mod bus;
mod cpu;
mod machine;
mod page;
mod plan;
mod program;
mod stack;
mod stop;
mod words;

pub use bus::{Bus, BusErr};
pub use cpu::Cpu;
pub use machine::step;
pub use program::Program;
pub use stop::Stop;
