//! How values are printed and read as text: numbers; the lines that report faults, positions, answers, quoted texts, names and words;
//! and notes that help the user.
//!
//! A decimal number has 1 to 20 decimal digits and is below 2^64. An address is `0x` with 1 to 16 hexadecimal digits of either case.
//! What is written has no leading zeros, and its letters are in lower case, so each number has one such text.
#![tactic(auto)]

mod delimited;
mod fault;
pub mod laws;
mod note;
mod position;
mod put;
mod quoted;
mod radix;
mod read;
mod shown;

pub use delimited::{address_until, decimal_until, past};
pub use fault::MalformedLine;
pub use note::{Argument, Column, Look, Note, RecordRule, StringSection};
pub use position::PositionText;
pub use put::{address_before, decimal_before, put_address, put_decimal};
pub use quoted::Quoted;
pub use read::{address, decimal, percentage};
pub use shown::Shown;
