//! The thread table of a run: threads, mutexes and conditions, first come, first served.
#![tactic(auto)]

mod kinds;
pub mod laws;
mod parts;
mod queues;
mod rows;
mod threads;

use fb_base::NoMemory;
pub use kinds::{BadHandle, Handle, State, Thread};
pub use threads::Threads;
