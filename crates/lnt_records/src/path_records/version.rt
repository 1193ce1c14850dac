//! The versions of tables by path.

/// Which parts of an answer an address table by path contains.
#[derive(Clone, Copy, Debug, PartialEq, Eq)]
pub enum PathVersion {
    /// Version 3: path, line and column.
    Three,
    /// Version 4: path and line.
    Four,
}
