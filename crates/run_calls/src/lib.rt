//! The calls of the runtime, one row a call: what each makes of memory, strings, threads, output and input, and which bytes
//! it touches.
//!
//! Definitions and laws alone. The rows of strings, of what Print writes and of threads are those of the crates below.
#![tactic(auto)]

pub mod examples;
pub mod laws;
