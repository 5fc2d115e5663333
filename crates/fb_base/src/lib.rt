//! The types that every other crate speaks of: texts, schedules, places in a text, faults and endings.
#![tactic(auto)]

mod ending;
mod fault;
mod memory;
mod schedule;
mod sequence;
mod shape;
mod text;

pub use ending::{Ending, ImageWhy, UsageWhy, WhichSink};
pub use fault::{Fault, FaultKind, Span, TrapKind};
pub use memory::NoMemory;
pub use schedule::Schedule;
pub use sequence::Sequence;
pub use shape::{Cells, Desc, LineAt, Lines, Shape};
pub use text::Text;
