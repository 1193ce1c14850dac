//! Symbol files, which crash reporters ship: the functions, files and lines of a program, as text (Breakpad's `.sym`) or as tables (GSYM).
//! Their answers are printed as an address table.
#![tactic(auto)]

mod breakpad;
mod fault;
mod gsym;
pub mod laws;
mod piece;
mod pieces;
mod print;
mod table;

pub use fault::{LineReason, SymbolFault};
pub use print::print_symbols;
