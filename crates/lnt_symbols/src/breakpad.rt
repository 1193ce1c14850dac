//! Breakpad's symbol files: lines of text that say functions, line records and files.

mod fields;
mod file;
mod kept;
mod line;
mod names;
mod pieces;
mod plain;
mod print;
mod range;
mod reading;
mod record;
mod source;

pub(crate) use print::{print_breakpad, print_short};
