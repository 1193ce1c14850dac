//! The calls of linetab for C, C++, Rust, Python and whatever else can call C, as a static library. `include/linetab.h`
//! declares them, and `docs/EMBEDDING.md` says how they are used.
//!
//! Each call takes bytes and numbers, and writes only where the caller lends it room. What it allocates is free again when
//! it returns, so there is nothing to free, and no call shares anything with another.
#![tactic(auto)]

mod bytes;
mod check_verdict;
mod checking;
mod flat;
mod indexed;
mod indexing;
mod judging;
mod looking;
mod room;
mod section;
mod unit;
mod verdict;
mod version;
mod writing;

pub use checking::{linetab_check, linetab_check_paths, linetab_check_within};
pub use flat::{FlatAnswer, FlatSpan};
pub use indexed::linetab_lookup_indexed;
pub use indexing::linetab_index;
pub use judging::linetab_verify;
pub use looking::{linetab_lookup, lookup_counted};
pub use section::FlatSection;
pub use unit::{FlatUnit, linetab_path, linetab_units};
pub use verdict::FlatVerdict;
pub use version::linetab_version;
pub use writing::linetab_table;
