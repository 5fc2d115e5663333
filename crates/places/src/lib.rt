//! The memory that the threads of a run share: places by number, with plain bytes and string cells.
#![tactic(auto)]

mod flags;
mod kinds;
pub mod laws;
mod memory;
mod offsets;
mod place;
mod table;

use fb_base::NoMemory;
pub use kinds::{BadFree, BadPointer, Cell, Form, MakeErr};
pub use memory::Memory;
