//! The small language that fbrv runs so far: Print, variables, If and While over whole numbers.

pub use first_language::{Expr, Operator, Program, Stmt, read_program};
