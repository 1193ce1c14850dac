//! The operations of a line number program, read from its bytes and written (DWARF 5, sections 6.2.5 and 7.22).
#![tactic(auto)]

mod converted;
mod extended;
mod iterator;
pub mod laws;
mod operation;
mod owned;
mod program;
mod put;
mod short;
mod unknown;

pub use converted::convert_ops;
pub use iterator::Ops;
pub use operation::read_op;
pub use program::read_ops;
pub use put::{put_ops, put_view};
