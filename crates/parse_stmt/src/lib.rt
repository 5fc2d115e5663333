//! Statements with statements inside, procedures with their bodies, and whole texts: their grammar, and how they are read.
#![tactic(auto)]

mod defined;
mod ifs;
mod laws;
mod looped;
mod module;
mod nest;
mod reading;
mod series;
mod statements;

pub use laws::{faults_found, first_fault, one_text, texts_found, texts_read};
pub use reading::parse;
