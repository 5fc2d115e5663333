//! Selection: from middle code to the instructions of RV64IM, and to an image of them.
#![tactic(auto)]

mod emission;
mod laws;
mod layout;
mod lined;
mod program;
mod size;
mod slots;
mod starts;

pub use laws::selection;
pub use program::select;
