//! Runs the main thread of an image alone, entry by entry, until its run is over or a limit is reached.
#![tactic(auto)]

mod calls;
mod entry;
mod lone;
mod outcome;
mod run;
mod segment;

pub use outcome::Solo;
pub use run::solo;
