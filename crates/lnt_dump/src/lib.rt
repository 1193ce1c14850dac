//! Prints what is read of a section without judging its lines: its units as text, with their frames, headers, operations and rows; the
//! section in another format and byte order; and the section with its older units in version 5.
//!
//! [`print_units`], [`print_dump`] and [`print_converted`] read the section from a source, and [`print_upgraded`] from memory. All write
//! to a writer. Bytes that aren't a unit get a line that says so.
#![tactic(auto)]

mod convert;
mod dump;
mod faults;
mod header;
mod line;
mod operations;
mod page;
mod rows;
mod run;
mod units;
mod upgrade;

pub use convert::print_converted;
pub use dump::{DumpParts, print_dump};
pub use units::print_units;
pub use upgrade::print_upgraded;
