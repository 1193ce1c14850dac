//! Rows, and the sequences that they form.
use lnt_wire::Items;

/// A row of the matrix: the registers when it was appended (DWARF 5, section 6.2.2).
///
/// Between two operations a machine has these registers too, with `end_sequence` false.
#[derive(Clone, Copy, Debug, PartialEq, Eq)]
pub struct Row {
    /// The address of an instruction, of as many bytes as the header's address size.
    pub address: u64,
    /// The index of the operation within the instruction, counted from 0. It is below the header's `max_ops`.
    pub op_index: u64,
    /// The index of the source file.
    pub file: u64,
    /// The line in the file: 1 is the first, and 0 means that there is none.
    pub line: u64,
    /// The column in the line: 1 is the first, and 0 is the line's left edge.
    pub column: u64,
    /// The instruction set.
    pub isa: u64,
    /// The discriminator, which distinguishes blocks of one source line.
    pub discriminator: u64,
    /// Whether it is a good place for a breakpoint, as the beginning of a statement.
    pub is_stmt: bool,
    /// Whether a basic block begins.
    pub basic_block: bool,
    /// Whether the address is the first one after a sequence.
    pub end_sequence: bool,
    /// Whether it is a good place to stop at on entry to a function.
    pub prologue_end: bool,
    /// Whether it is a good place to stop at on exit from a function.
    pub epilogue_begin: bool,
}

/// Rows of consecutive instructions.
#[derive(Debug, Drop, PartialEq, Eq)]
pub struct Sequence {
    /// The rows in the order in which they were appended. The last one, and no other, ends the sequence.
    pub rows: Items<Row>,
}
