//! The content types of the components of directories and files (DWARF 5, section 7.22, table 7.27).

/// `DW_LNCT_path`: a path.
pub const PATH: u64 = 1;

/// `DW_LNCT_directory_index`: the number of a directory.
pub const DIRECTORY_INDEX: u64 = 2;

/// `DW_LNCT_timestamp`: when a file was written.
pub const TIMESTAMP: u64 = 3;

/// `DW_LNCT_size`: the number of a file's bytes.
pub const SIZE: u64 = 4;

/// `DW_LNCT_MD5`: the MD5 sum of a file's bytes.
pub const MD5: u64 = 5;
