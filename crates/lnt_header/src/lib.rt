//! The headers of DWARF 5 line number units, the operations that they admit, and the parts of a unit. The crate
//! `lnt_header_bytes` reads and writes headers, and `lnt_unit` has the units.
#![tactic(auto)]

pub mod content;
mod fault;
mod header;
mod numbers;
mod op;
mod tested;
mod unit;
mod unit_parts;

pub use fault::UnitFault;
pub use header::{Entry, EntryTable, Header, HeaderParts, Pair};
pub use numbers::{HeaderNumbers, NumberParts};
pub use op::{CodedOp, LAST_KNOWN, Op, OpView, Operands, known_length};
pub use tested::is_address_size;
pub use unit::Unit;
pub use unit_parts::UnitParts;
