//! Positions in machine code.

/// A position in machine code: an operation of the instruction at an address (DWARF 5, section 6.2.2, registers `address`
/// and `op_index`). Positions are ordered by address, then by operation index.
#[derive(Clone, Copy, Debug, PartialEq, Eq, PartialOrd, Ord)]
pub struct Position {
    /// The address of an instruction.
    pub address: u64,
    /// The index of the operation in the instruction, counted from 0.
    pub op: u64,
}
