//! Units of one kind each, with what others say of them.
use crate::samples::units::{LISTED, PLAIN, WIDE, unit};
use lnt_wire::Order;

/// A unit, and what is known of it from outside.
#[derive(Clone, Copy)]
pub(crate) struct Worked {
    /// Its bytes.
    pub(crate) bytes: &'static [u8],
    /// The order of the bytes of its numbers.
    pub(crate) order: Order,
    /// The numbers of its sequences and rows, if its program runs.
    pub(crate) rows: Option<(usize, usize)>,
    /// Whether it is a good section, with the line strings `/s`.
    pub(crate) is_good: bool,
}

/// The line strings of the one unit that has its directory there.
pub(crate) const LINE_STRINGS: [u8; 3] = [0x2f, 0x73, 0x00];

// The bytes of a unit with the tables of `PLAIN`, and with its fields of one byte but for the first two.
macro_rules! plain {
    ($length:literal $minimum:literal $max_ops:literal [$($program:literal)*]) => {
        unit!($length 0x29 [$minimum $max_ops 1 0xfb 0x0e 0x0d 0 1 1 1 1 0 0 0 1 0 0 1]
            [1 1 8 1 0x2f 0x73 0 2 1 8 2 0x0b 2 0x61 0x2e 0x63 0 0 0x61 0x2e 0x63 0 0] [$($program)*])
    };
}

const ADDRESS_WRAPS: &[u8] = &plain!(0x42 1 1
    [0 9 2 0xf0 0xff 0xff 0xff 0xff 0xff 0xff 0xff 0x14 2 0x10 0 1 1]);

const CONST_ADD_PC: &[u8] = &plain!(0x44 1 1 [0 9 2 0 0x10 0 0 0 0 0 0 0x14 8 1 2 1 0 1 1]);

const EMPTY_SEQUENCE: &[u8] = &plain!(0x51 1 1
    [0 9 2 0 0x10 0 0 0 0 0 0 0x14 0x4b 2 2 0 1 1 0 9 2 2 0x10 0 0 0 0 0 0 0 1 1]);

const FILE_ZERO: &[u8] = &unit!(0x40 0x24
    [1 1 1 0xfb 0x0e 0x0d 0 1 1 1 1 0 0 0 1 0 0 1]
    [1 1 8 1 0x2f 0x73 0 2 1 8 2 0x0b 1 0x61 0x2e 0x63 0 0]
    [0 9 2 0 0x10 0 0 0 0 0 0 4 0 0x14 0x4b 2 2 0 1 1]);

const FIXED_ADVANCE_PC: &[u8] = &plain!(0x48 4 2
    [0 9 2 0 0x10 0 0 0 0 0 0 0x14 2 1 9 5 0 1 2 2 0 1 1]);

const LINE_BELOW_ZERO: &[u8] = &plain!(0x44 1 1 [0 9 2 0 0x10 0 0 0 0 0 0 3 0x7e 1 2 2 0 1 1]);

const LINE_STRP_DIRECTORY: &[u8] = &unit!(0x44 0x2a
    [1 1 1 0xfb 0x0e 0x0d 0 1 1 1 1 0 0 0 1 0 0 1]
    [1 1 0x1f 1 0 0 0 0 2 1 8 2 0x0b 2 0x61 0x2e 0x63 0 0 0x61 0x2e 0x63 0 0]
    [0 9 2 0 0x10 0 0 0 0 0 0 0x14 0x4b 2 2 0 1 1]);

const MARKS_AND_DISCRIMINATOR: &[u8] = &plain!(0x49 1 1
    [0 9 2 0 0x10 0 0 0 0 0 0 0 2 4 7 0x0a 7 0x14 0x4b 2 2 0 1 1]);

const ONE_FILE_FROM_ZERO: &[u8] = &unit!(0x3e 0x24
    [1 1 1 0xfb 0x0e 0x0d 0 1 1 1 1 0 0 0 1 0 0 1]
    [1 1 8 1 0x2f 0x73 0 2 1 8 2 0x0b 1 0x61 0x2e 0x63 0 0]
    [0 9 2 0 0x10 0 0 0 0 0 0 0x14 0x4b 2 2 0 1 1]);

const OPCODE_BASE_10: &[u8] = &unit!(0x41 0x26
    [1 1 1 0xfb 0x0e 0x0a 0 1 1 1 1 0 0 0 1]
    [1 1 8 1 0x2f 0x73 0 2 1 8 2 0x0b 2 0x61 0x2e 0x63 0 0 0x61 0x2e 0x63 0 0]
    [0 9 2 0 0x10 0 0 0 0 0 0 3 9 0x0a 2 2 0 1 1]);

const OPCODE_BASE_15: &[u8] = &unit!(0x49 0x2b
    [1 1 1 0xfb 0x0e 0x0f 0 1 1 1 1 0 0 0 1 0 0 1 2 0]
    [1 1 8 1 0x2f 0x73 0 2 1 8 2 0x0b 2 0x61 0x2e 0x63 0 0 0x61 0x2e 0x63 0 0]
    [0 9 2 0 0x10 0 0 0 0 0 0 0x0d 0x80 1 5 0x0e 0x16 2 2 0 1 1]);

const PADDED_OPERAND: &[u8] = &plain!(0x44 1 1 [0 9 2 0 0x10 0 0 0 0 0 0 0x14 0x4b 2 0x82 0 0 1 1]);

const PARTED_SEQUENCES: &[u8] = &plain!(0x53 1 1
    [0 9 2 0 0x10 0 0 0 0 0 0 0x14 2 1 0 1 1 0 9 2 0 0x20 0 0 0 0 0 0 0x14 2 1 0 1 1]);

const THREE_OPERATIONS_PER_INSTRUCTION: &[u8] = &plain!(0x4a 0x10 3
    [0 9 2 0 0x20 0 0 0 0 0 0 0x14 2 2 1 2 2 3 1 1 2 2 0 1 1]);

const TOUCHING_SEQUENCES: &[u8] = &plain!(0x53 1 1
    [0 9 2 0 0x10 0 0 0 0 0 0 0x14 2 1 0 1 1 0 9 2 1 0x10 0 0 0 0 0 0 0x14 2 1 0 1 1]);

const TWO_ROWS_AT_ONE_ADDRESS: &[u8] = &plain!(0x45 1 1
    [0 9 2 0 0x10 0 0 0 0 0 0 0x14 3 6 1 2 4 0 1 1]);

const TWO_SEQUENCES: &[u8] = &plain!(0x54 1 1
    [0 9 2 0 0x10 0 0 0 0 0 0 6 0x14 2 1 0 1 1 0 9 2 0 0x20 0 0 0 0 0 0 0x14 2 1 0 1 1]);

const VENDOR_BLOCK1: &[u8] = &unit!(0x49 0x2f
    [1 1 1 0xfb 0x0e 0x0d 0 1 1 1 1 0 0 0 1 0 0 1]
    [2 1 8 0x81 0x40 0x0a 1 0x2f 0x73 0 2 0xaa 0xbb 2 1 8 2 0x0b 2 0x61 0x2e 0x63 0 0 0x61 0x2e 0x63 0 0]
    [0 9 2 0 0x10 0 0 0 0 0 0 0x14 0x4b 2 2 0 1 1]);

const VENDOR_BLOCK2: &[u8] = &unit!(0x4a 0x30
    [1 1 1 0xfb 0x0e 0x0d 0 1 1 1 1 0 0 0 1 0 0 1]
    [2 1 8 0x81 0x40 3 1 0x2f 0x73 0 2 0 0xaa 0xbb 2 1 8 2 0x0b 2 0x61 0x2e 0x63 0 0 0x61 0x2e 0x63 0 0]
    [0 9 2 0 0x10 0 0 0 0 0 0 0x14 0x4b 2 2 0 1 1]);

const VENDOR_BLOCK4: &[u8] = &unit!(0x4c 0x32
    [1 1 1 0xfb 0x0e 0x0d 0 1 1 1 1 0 0 0 1 0 0 1]
    [2 1 8 0x81 0x40 4 1 0x2f 0x73 0 2 0 0 0 0xaa 0xbb 2 1 8 2 0x0b 2 0x61 0x2e 0x63 0 0 0x61 0x2e 0x63 0 0]
    [0 9 2 0 0x10 0 0 0 0 0 0 0x14 0x4b 2 2 0 1 1]);

macro_rules! worked {
    ($bytes:expr, $order:ident, $rows:expr, $is_good:literal) => {
        Worked {
            bytes: $bytes,
            order: Order::$order,
            rows: $rows,
            is_good: $is_good,
        }
    };
}

/// All of them.
pub(crate) const WORKED: [Worked; 23] = [
    worked!(ADDRESS_WRAPS, Little, Some((1, 2)), false),
    worked!(&WIDE, Big, Some((1, 3)), true),
    worked!(CONST_ADD_PC, Little, Some((1, 3)), true),
    worked!(EMPTY_SEQUENCE, Little, Some((2, 4)), true),
    worked!(FILE_ZERO, Little, Some((1, 3)), true),
    worked!(FIXED_ADVANCE_PC, Little, Some((1, 3)), true),
    worked!(LINE_BELOW_ZERO, Little, None, false),
    worked!(LINE_STRP_DIRECTORY, Little, Some((1, 3)), true),
    worked!(MARKS_AND_DISCRIMINATOR, Little, Some((1, 3)), true),
    worked!(&LISTED, Little, Some((0, 0)), true),
    worked!(ONE_FILE_FROM_ZERO, Little, Some((1, 3)), false),
    worked!(OPCODE_BASE_10, Little, Some((1, 2)), true),
    worked!(OPCODE_BASE_15, Little, Some((1, 2)), true),
    worked!(PADDED_OPERAND, Little, Some((1, 3)), true),
    worked!(PARTED_SEQUENCES, Little, Some((2, 4)), true),
    worked!(&PLAIN, Little, Some((1, 3)), true),
    worked!(THREE_OPERATIONS_PER_INSTRUCTION, Little, Some((1, 4)), true),
    worked!(TOUCHING_SEQUENCES, Little, Some((2, 4)), true),
    worked!(TWO_ROWS_AT_ONE_ADDRESS, Little, Some((1, 3)), true),
    worked!(TWO_SEQUENCES, Little, Some((2, 4)), true),
    worked!(VENDOR_BLOCK1, Little, Some((1, 3)), true),
    worked!(VENDOR_BLOCK2, Little, Some((1, 3)), true),
    worked!(VENDOR_BLOCK4, Little, Some((1, 3)), true),
];
