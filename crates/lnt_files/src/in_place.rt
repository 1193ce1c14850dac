//! The directories and files of a header whose entries are read in place. No function allocates, except for the path that
//! it returns.

mod judged;
mod paths;
mod same;

pub use judged::tables_fault;
pub(crate) use paths::entry_at;
pub use paths::{file_count, listed, path_of};
pub use same::{same_texts, texts_number};
