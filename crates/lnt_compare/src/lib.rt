//! Compares address tables with the spans of a section, by number and by path.
#![tactic(auto)]

mod comparison;
mod differing;
mod gathering;
mod joined;
pub mod laws;
mod line;
mod line_telling;
mod lines;
mod outcome;
mod passing;
mod path_tables;
mod remaining;
mod stream;
mod window;

pub use comparison::compare_records;
pub use differing::{Differing, differ_lines, differ_records};
pub use joined::{Joined, Joins};
pub use outcome::{Compared, Outcome, TableRead};
pub use path_tables::{
    AnswerByPath, DifferenceByPath, DifferencesByPath, HeldSpan, HeldTable, PathMemory,
    PathTelling, compare_by_path, compare_lines_by_path, hold_table,
};
pub use remaining::Remaining;
pub use stream::compare_lines;
pub use window::{Window, pass_header};
