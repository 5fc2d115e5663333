//! The bytes that Print writes.
#![tactic(auto)]

mod print;

pub use print::{Item, item_bytes};
