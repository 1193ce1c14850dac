//! The numbers and operations of line tables, and the rows that these make.

/// The head of a line table.
#[derive(Clone, Copy, Debug)]
pub struct LineNumbers {
    /// The least change of the line by a special operation.
    pub least: i64,
    /// The greatest.
    pub greatest: i64,
    /// The first line.
    pub first: u64,
}

/// What an operation does.
#[derive(Clone, Copy, Debug)]
pub struct Operation {
    /// By how much it advances the address.
    pub advance: u64,
    /// What it adds to the line, modulo 2^32.
    pub change: u32,
    /// Which file it sets.
    pub file: Option<u32>,
    /// Whether it makes a row.
    pub makes_row: bool,
}

/// A row: the file and the line of the code from an address on.
#[derive(Clone, Copy, Debug)]
pub struct Row {
    /// The address, which is below 2^64 if the row may be made.
    pub address: u128,
    /// The number of the file.
    pub file: u32,
    /// The line.
    pub line: u32,
}
