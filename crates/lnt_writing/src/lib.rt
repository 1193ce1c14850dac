//! Writes the one shortest table for the spans of a source, by number and by path.
#![tactic(auto)]

mod border;
mod canonical;
pub mod laws;
mod lines;
mod path_tables;

pub use canonical::write_canonical;
pub use path_tables::{PathTable, write_by_path, write_instructions_by_path};
