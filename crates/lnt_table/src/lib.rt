//! Checks a line number section of DWARF 5 against an address table, and writes the table of a section. A table is right if it gives
//! the section's answer at every address and operation index; otherwise the first thing that is wrong is reported. Tables of
//! versions 1 and 2 name a file by its unit and number (*by number*), those of versions 3 and 4 by its path (*by path*).
//!
//! Start with [`check`], which takes versions 1 and 2, or with [`check_any`], which takes all four; with [`check_within`] for
//! tables that answer at a part of the positions; with [`differences_any`]
//! for all positions at which the two answers differ; or with [`write_table`] and [`write_paths`] for the one shortest table
//! of a section.
//!
//! Whether a table answers as a section does, each of at most 70 bytes:
//!
//! ```
//! let mut section = Counted::new(section, 70);
//! let mut table = Counted::new(table, 70);
//! match check(alloc, &mut section, strings, &mut table, options)? {
//!     Verdict::Yes => Ok(None),
//!     Verdict::No(no) => Ok(Some(no)),
//! }
//! ```
#![tactic(auto)]

mod any_copy;
mod any_differing;
mod any_version;
mod asked;
mod checking;
mod copies;
mod difference_lines;
mod group;
mod judged;
mod kept;
mod kinds;
pub mod laws;
mod paths;
mod said;
mod verdict;
mod within;
mod write;
mod wrong;

// Checking.
pub use any_copy::check_any_copy;
pub use any_version::{Checked, check_any};
pub use checking::check;
pub use difference_lines::{DifferenceLine, OperationLine, PathDifferenceLine};
pub use kinds::OfKind;
pub use lnt_compare::{AnswerByPath, Compared, DifferenceByPath};
pub use lnt_lines::{No, Options, Stop};
pub use lnt_records::TableFault;
pub use lnt_spans::{Coverage, Scope};
pub use verdict::{TableNo, Verdict};
pub use within::{CheckedWithin, check_within};

// Every difference.
pub use any_differing::{AnyDiffering, differences, differences_any, differences_by_path};
pub use lnt_compare::{DifferencesByPath, Differing, HeldSpan, HeldTable, Remaining, TableRead};
pub use lnt_spans::{Difference, Differences, SpanList};

// Every difference from the answers of all live sequences.
pub use copies::Copies;
pub use kept::{ByNumber, ByPath, EndedDifference, KeptStretches};
pub use wrong::WrongStretches;

// Writing.
pub use lnt_records::{PathVersion, Paths, WriteStop};
pub use lnt_writing::PathTable;
pub use paths::{IndexPaths, write_paths};
pub use write::{write_index, write_table};
