//! The Types of a module: how each is laid out, and the first fault among them.
#![tactic(auto)]

mod cells;
mod cycle;
mod labels;
pub mod laws;
mod layout;
mod measure;
mod members;
mod offset;
mod plan;
mod row;
mod scope;
mod table;
mod walk;

pub use layout::{Align, Layout, Measure};
pub use row::{Field, Range, Row};
pub use table::{Table, TypeErr, of};
