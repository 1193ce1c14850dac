//! Notes: advice for the user beside an answer. They don't change the answer.
//!
//! A [`Watching`] keeps the first bytes of a section for them. [`note_bad`], [`note_good`], [`note_agreed`], [`note_difference`],
//! [`note_refused`], [`note_no_symbols`], [`note_base`] and [`note_table`] print the notes to an answer. Some notes need a file to be
//! read again. That is done only if the answer makes such a note likely, and only for files that can be read again.
#![tactic(auto)]

mod ends;
mod look;
mod markers;
mod note;
mod records;
mod survey;
mod texts;
mod units;
mod watched;

pub use note::{
    Given, Hints, hints_of, note_agreed, note_bad, note_base, note_difference, note_good,
    note_no_symbols, note_refused, note_table, print_line_of, print_note,
};
pub use records::Columns;
pub use watched::{Seen, Watching};
