//! Records of comma-separated values, read one by one from bytes in memory.
//!
//! It is [`csv`] with its defaults, but no record is a header, and a record may have any number of fields.
#![tactic(auto)]

mod fields;
mod reading;

pub use fields::{field, has_fields};
pub use reading::{read_next, reader_of};
