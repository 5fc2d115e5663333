//! What statements, procedures and Types are made of: words and marks, lists, variables, the statements without statements
//! inside, the heads of procedures, and Types.
#![tactic(auto)]

mod cases;
mod heads;
mod kinds;
mod members;
mod simple;
mod steps;
mod turns;
mod variables;

pub use cases::{any_test, cases_, last_test};
pub use heads::{declared, opened};
pub use kinds::{
    Closer, InLine, Lead, Level, ProcedureWord, Spot, assignment_of, comparison_of, continue_of,
    ends_with_end, exit_of, is_sep, lead_of, level_within, line_within, operator_of, until_of,
};
pub use members::type_def;
pub use simple::{
    called, continue_, delete, end_, exit, line_input, print, result_, return_, valued,
};
pub use steps::{
    EXPECTED, any_name, any_type, astray, extra, last_before, place_at, sees_sep, sees_value, sep,
    value_behind, whole, words_before,
};
pub use turns::{Turning, all_of};
pub use variables::{constant, dim, static_};
