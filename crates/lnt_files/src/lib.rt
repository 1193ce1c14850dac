//! The directories and files of DWARF 5 line number headers: what is wrong with them, and the paths and MD5 sums of
//! files.
#![tactic(auto)]

mod components;
mod contents;
mod ends;
mod files;
pub mod in_place;
mod paths;
mod said;
mod tables;
mod walk;

pub use ends::StringEnds;
pub use files::Files;
pub use tables::{EntryTableFault, EntryTableText};
