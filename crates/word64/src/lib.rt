//! Arithmetic on words of 64 bits, as FreeBASIC's whole numbers and RV64IM have it: every call with its exact value.
#![tactic(auto)]

mod arith;
mod kind;

pub use arith::{add, div_s, div_u, less_s, less_u, mul, rem_s, rem_u, shl, shr_s, shr_u, sub};
pub use kind::{Kind, narrow};
