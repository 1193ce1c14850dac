//! Why a file isn't a GSYM file.
ghost use Rattle.std.specs.Prelude.{Some};
ghost use Rattle.lnt_gsym.specs.FaultTexts.{gsym_fault_text, gsym_reason_text};

use std::error::Error;
use std::fmt;

/// What is wrong with a field of a GSYM file.
#[derive(Clone, Copy, Debug, PartialEq, Eq)]
pub enum GsymReason {
    /// The version isn't 1.
    Version,
    /// The size of an address offset isn't 1, 2, 4 or 8 bytes.
    AddressSize,
    /// The UUID has more than 20 bytes.
    UuidSize,
    /// The field ends above the file, or above the line table that it stands in.
    Cut,
    /// The address offset is below the one before it.
    NotInOrder,
    /// The greatest change of a line is below the least.
    LineRange,
    /// A LEB128 number doesn't fit 64 bits, the number of a file is 2^32 or more, or a row's address is 2^64 or more.
    NumberTooLarge,
    /// A row names a file with this number, and there is none.
    NoFile(u32),
}

impl fmt::Display for GsymReason {
    ghost output = { λ reason. Some (gsym_reason_text reason) };

    fn fmt<W: fmt::Write>(&self, f: &mut fmt::Formatter<W>) -> fmt::Result {
        match *self {
            GsymReason::Version => f.write_str("version"),
            GsymReason::AddressSize => f.write_str("address size"),
            GsymReason::UuidSize => f.write_str("uuid size"),
            GsymReason::Cut => f.write_str("cut"),
            GsymReason::NotInOrder => f.write_str("not in order"),
            GsymReason::LineRange => f.write_str("line range"),
            GsymReason::NumberTooLarge => f.write_str("number too large"),
            GsymReason::NoFile(file) => write!(f, "no file {file}"),
        }
    }
}

/// Why a file isn't a GSYM file: its first fault, which has the number 45.
#[derive(Clone, Copy, Debug, PartialEq, Eq)]
pub struct GsymFault {
    /// The offset in the file of the field at fault.
    pub place: u64,
    /// What is wrong with it.
    pub reason: GsymReason,
}

/// The line that reports it, without its line feed.
impl fmt::Display for GsymFault {
    ghost output = { λ fault. Some (gsym_fault_text fault) };

    fn fmt<W: fmt::Write>(&self, f: &mut fmt::Formatter<W>) -> fmt::Result {
        let GsymFault { place, reason } = *self;
        write!(f, "no 45 symbols at 0x{place:x}: {reason}")
    }
}

impl Error for GsymFault {}
