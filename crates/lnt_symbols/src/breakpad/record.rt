//! What a line of a Breakpad file says.

/// The bytes from an address on.
#[derive(Clone, Copy, Debug)]
pub struct Range {
    pub address: u64,
    pub size: u64,
}

/// A line record: its range, and the line and the number of the file that it says.
#[derive(Clone, Copy, Debug)]
pub struct LineRecord {
    pub range: Range,
    pub line: u32,
    pub file: u32,
}

/// What a line says.
#[derive(Clone, Copy, Debug)]
pub enum Record<'a> {
    /// The name of a file.
    File(u32, &'a [u8]),
    /// A function.
    Function(Range),
    /// A line record of the last function.
    Line(LineRecord),
    /// No function goes on.
    Public,
    /// Nothing for a table.
    Nothing,
}
