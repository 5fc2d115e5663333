//! Structured code: how middle code with blocks and loops stands in a procedure's flat list of operations.
#![tactic(auto)]

mod law;

pub use law::flattening;
