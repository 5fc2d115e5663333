//! The bytes of strings: payloads in one arena that grows, each at the first place where it fits.
#![tactic(auto)]

mod heap;
mod holes;

pub use heap::Heap;
