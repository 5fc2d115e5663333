//! The functions on strings, over their bytes: parts, searches, numbers and letters.
#![tactic(auto)]

mod functions;

pub use functions::{
    asc, compared, find, is_below_one, is_negative, joined, left, left_trimmed, lower, mid, right,
    right_trimmed, signed_behind, signed_text, spaces, unsigned_text, upper, val,
};
