//! Why bytes are rejected, and at which offset.
ghost use Rattle.std.specs.Prelude.{◌≡◌, Some};
ghost use Rattle.lnt_wire.specs.declared.fault.Reason.TheVariants.{Memory};
ghost use Rattle.lnt_wire.specs.FaultTexts.{fault_text, reason_text};

use std::alloc::{AllocError, AllocFailed};
use std::error::Error;
use std::fmt;

/// What is wrong with bytes that aren't a line number section. Each reason has a number, from 1 to 15.
#[derive(Clone, Copy, Debug, PartialEq, Eq)]
pub enum Reason {
    /// 1: the field is truncated: the section, its unit, or the part of the unit that contains it ends before the field
    /// does.
    Truncated,
    /// 2: a 32-bit initial length from 0xfffffff0 to 0xfffffffe, which are reserved (DWARF 5, section 7.4).
    ReservedLength,
    /// 3: the unit has this version instead of 5 (DWARF 5, section 6.2.4).
    VersionNotFive(u16),
    /// 4: the address size is this number of bytes, which isn't 2, 4 or 8.
    AddressSize(u8),
    /// 5: the segment selector size is this number of bytes, which isn't 0.
    SegmentSelector(u8),
    /// 6: `header_length` counts more bytes than remain in the unit.
    HeaderLength,
    /// 7: `maximum_operations_per_instruction` is 0.
    MaxOpsZero,
    /// 8: `line_range` is 0.
    LineRangeZero,
    /// 9: `opcode_base` is 0.
    OpcodeBaseZero,
    /// 10: `standard_opcode_lengths` gives this known standard opcode this number of operands, which isn't the number that
    /// the standard gives it (DWARF 5, section 6.2.5.2).
    StandardLength(u8, u8),
    /// 11: the format of a table of directories or files has this form code, which isn't one of those in `Form`.
    UnknownForm(u64),
    /// 12: a table of directories or files counts entries, and its entry format is empty.
    EmptyFormat,
    /// 13: a complete LEB128 number doesn't fit in 64 bits (DWARF 5, section 7.6).
    LebTooLarge,
    /// 14: the length of an extended operation isn't that of its opcode and its operand (DWARF 5, section 6.2.5.3).
    ExtendedLength,
    /// 15: memory ran out. The bytes may be valid.
    Memory,
}

/// Why bytes are rejected: what is wrong, and where.
#[derive(Clone, Copy, Debug, PartialEq, Eq)]
pub struct Fault {
    /// The offset in the section, in bytes, of the first byte of the field at fault. It is meaningless with `Memory`.
    pub place: u64,
    /// What is wrong there.
    pub reason: Reason,
}

impl fmt::Display for Reason {
    ghost output = { λ reason. Some (reason_text reason) };

    fn fmt<W: fmt::Write>(&self, f: &mut fmt::Formatter<W>) -> fmt::Result {
        match *self {
            Reason::Truncated => f.write_str("truncated"),
            Reason::ReservedLength => f.write_str("reserved length"),
            Reason::VersionNotFive(version) => write!(f, "version {version}"),
            Reason::AddressSize(size) => write!(f, "address size {size}"),
            Reason::SegmentSelector(size) => write!(f, "segment selector size {size}"),
            Reason::HeaderLength => f.write_str("header length"),
            Reason::MaxOpsZero => f.write_str("zero operations per instruction"),
            Reason::LineRangeZero => f.write_str("zero line range"),
            Reason::OpcodeBaseZero => f.write_str("zero opcode base"),
            Reason::StandardLength(opcode, length) => {
                write!(f, "length {length} of standard opcode {opcode}")
            }
            Reason::UnknownForm(code) => write!(f, "form 0x{code:x}"),
            Reason::EmptyFormat => f.write_str("entries without a format"),
            Reason::LebTooLarge => f.write_str("number too large"),
            Reason::ExtendedLength => f.write_str("extended length"),
            Reason::Memory => f.write_str("out of memory"),
        }
    }
}

impl fmt::Display for Fault {
    ghost output = { λ fault. Some (fault_text fault) };

    fn fmt<W: fmt::Write>(&self, f: &mut fmt::Formatter<W>) -> fmt::Result {
        let Fault { place, reason } = *self;
        write!(f, "malformed at 0x{place:x}: {reason}")
    }
}

impl Error for Fault {}

impl From<AllocError> for Fault {
    ghost from_gives = { λ _ fault. fault.reason ≡ Memory };

    fn from(_error: AllocError) -> Fault {
        Fault {
            place: 0,
            reason: Reason::Memory,
        }
    }
}

impl<T: Drop> From<AllocFailed<T>> for Fault {
    ghost from_gives = { λ _ fault. fault.reason ≡ Memory };

    fn from(_error: AllocFailed<T>) -> Fault {
        Fault {
            place: 0,
            reason: Reason::Memory,
        }
    }
}
