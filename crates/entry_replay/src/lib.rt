//! The replay of several threads, entry by entry, for every kind of thread and every runtime, and its laws.
//!
//! Definitions and laws alone. The type parameters of a law range over the states of threads and over what threads
//! share; nothing is asked of them.
#![tactic(auto)]

pub mod examples;
pub mod laws;
