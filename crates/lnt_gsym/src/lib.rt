//! GSYM files: tables of the functions, files and lines of a program, which symbolizers read in place.
#![tactic(auto)]

mod address;
mod entries;
mod fault;
mod fields;
mod file;
mod function;
mod gate;
mod header;
mod info;
pub mod laws;
mod line_table;
mod made;
mod names;
mod operation;
mod part;
mod rows;
mod spans;
mod tables;

pub use fault::{GsymFault, GsymReason};
pub use file::{judge, order_of, read_gsym};
pub use names::Names;
pub use rows::judge_rows;
pub use spans::{Functions, GsymSpans};
