//! The turn lock: one value that several workers take in turn, and what each of them knows of its history.
#![tactic(auto)]

mod laws;
mod lock;
mod rules;
mod seat;
mod turn;
mod views;

pub use laws::places_stay;
pub use lock::TurnLock;
pub use seat::{Held, Pen, Seat};
pub use views::Kept;
