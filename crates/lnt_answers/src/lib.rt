//! Prints what a judged section answers as text, and the results about address tables.
//!
//! [`judge_or_refuse`] gives the index of a good section, or prints why the section isn't good. From the index
//! [`print_lookups`] and [`print_addresses`] print the answers at positions, [`print_files`] the files, [`print_sums`]
//! whether the files have their listed MD5 sums, and [`print_table`] and [`print_path_table`] the section's table.
//! [`print_stretches`] prints a line for each stretch of positions at which a table and a section answer differently. The answer of a
//! check is a line by itself.
#![tactic(auto)]

mod addresses;
mod answer_line;
mod digest;
mod display;
mod files;
mod given;
mod judge;
pub mod laws;
mod line_ends;
mod lookup;
mod printed_stretches;
mod report;
mod stretch_lines;
mod sums;
mod table;
mod wrong;

pub use addresses::print_addresses;
pub use digest::{Agreement, md5_agrees, sum_of};
pub use files::print_files;
pub use judge::judge_or_refuse;
pub use lookup::print_lookups;
pub use printed_stretches::{Stretches, print_stretches};
pub use report::{CheckLine, Report, answers_few, status_of};
pub use sums::{lists_sums, print_sums};
pub use table::{print_path_table, print_table};
