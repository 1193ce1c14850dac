//! How the numbers of a section are encoded: the byte order, and the format of a unit.

/// The order of the bytes of a fixed-width number. All units of a section have the same one. The object file gives it, not
/// the section.
#[derive(Clone, Copy, Debug, PartialEq, Eq)]
pub enum Order {
    /// Little-endian: the lowest byte first.
    Little,
    /// Big-endian: the highest byte first.
    Big,
}

/// The format of a unit: its initial length determines it, and it determines the width of the unit's lengths and offsets
/// (DWARF 5, section 7.4).
#[derive(Clone, Copy, Debug, PartialEq, Eq)]
pub enum Format {
    /// The 32-bit format: lengths and offsets have 4 bytes, and the initial length too.
    D32,
    /// The 64-bit format: lengths and offsets have 8 bytes, and the initial length 12, of which the first 4 are 0xff.
    D64,
}
