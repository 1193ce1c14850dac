//! Why parts aren't those of a header or a unit.
ghost use Rattle.std.specs.Prelude.{Some};
ghost use Rattle.lnt_header.specs.FaultTexts.{unit_fault_text};

use crate::header::EntryTable;
use std::error::Error;
use std::fmt;

/// Why no unit has the given parts. Each reason has a number, from 16 to 19. Indices count from 0.
#[derive(Clone, Copy, Debug, PartialEq, Eq)]
pub enum UnitFault {
    /// 18: a number, the standard opcode lengths or a format that no header may have: an address size other than 2, 4 and 8;
    /// a zero in `max_ops`, `line_range` or `opcode_base`; lengths whose count isn't `opcode_base` - 1, or that aren't those
    /// of the known opcodes; more than 255 pairs; entries without a pair.
    HeaderNumber,
    /// 17: the first entry that doesn't have one value for each pair of its format, in the pair's form, or that has a block
    /// with more bytes than its length can count.
    EntryNotOfFormat(EntryTable, u64),
    /// 19: the first entry with a text that contains a zero byte.
    TextHoldsZero(EntryTable, u64),
    /// 16: the first operation that the header doesn't admit.
    OpNotOfUnit(u64),
}

impl fmt::Display for UnitFault {
    ghost output = { λ fault. Some (unit_fault_text fault) };

    fn fmt<W: fmt::Write>(&self, f: &mut fmt::Formatter<W>) -> fmt::Result {
        match *self {
            UnitFault::HeaderNumber => f.write_str("number or format that no header has"),
            UnitFault::EntryNotOfFormat(which, index) => {
                write!(f, "{which} {index} isn't of its format")
            }
            UnitFault::TextHoldsZero(which, index) => {
                write!(f, "{which} {index} has a text with a zero byte")
            }
            UnitFault::OpNotOfUnit(index) => {
                write!(f, "operation {index} isn't one that the header admits")
            }
        }
    }
}

impl Error for UnitFault {}
