//! Tables by path: a section's answers with the full path of their file, instead of a unit and a file number.

mod answer;
mod comparison;
mod held;
mod known;
mod line;
mod path_differences;
mod stream;
mod telling;

pub use answer::{AnswerByPath, DifferenceByPath};
pub use comparison::compare_by_path;
pub use held::{HeldSpan, HeldTable, hold_table};
pub use path_differences::DifferencesByPath;
pub use stream::compare_lines_by_path;
pub use telling::{PathMemory, PathTelling};
