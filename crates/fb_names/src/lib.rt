//! One home for the names and numbers of the runtime's calls and of kinds, and for the limits.
#![tactic(auto)]

mod calls;
mod kinds;
mod limits;

pub use calls::{RuntimeCall, call_numbers};
pub use kinds::{fault_name, fault_number, image_name, trap_name, trap_number, trap_of};
pub use limits::{
    MOST_ACTIVATIONS, MOST_DEPTH, MOST_ENTRIES, MOST_FILE_BYTES, MOST_LIVE_BYTES, MOST_LOAD,
    MOST_PLACE_BYTES, MOST_STRING_BYTES, MOST_TEXT_BYTES, MOST_THREADS, MOST_TOKENS, MOST_TURNS,
    MOST_WEIGHT, MOST_WORKERS, USUAL_ENTRIES, USUAL_TURNS, USUAL_WORKERS,
};
