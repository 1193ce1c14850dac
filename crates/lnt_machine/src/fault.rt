//! Why a program doesn't run, and why its rows end before it does.
ghost use Rattle.std.specs.Prelude.{◌≡◌, Some};
ghost use Rattle.lnt_machine.specs.FaultTexts.{row_fault_text, run_fault_text, run_text};

use lnt_wire::Fault;
use std::alloc::AllocError;
use std::error::Error;
use std::fmt;

/// Why the program of a unit doesn't run. Each reason has a number, from 22 to 24.
#[derive(Clone, Copy, Debug, PartialEq, Eq)]
pub enum RunFault {
    /// 22: the operation with this index, counted from 0, sets the line below 0, or to 2^32 or more.
    LineOutOfRange(u64),
    /// 23: rows follow the last end row, or there are rows and no end row.
    OpenSequence,
    /// 24: memory ran out. The program may run.
    Memory,
}

impl fmt::Display for RunFault {
    ghost output = { λ fault. Some (run_fault_text fault) };

    fn fmt<W: fmt::Write>(&self, f: &mut fmt::Formatter<W>) -> fmt::Result {
        match *self {
            RunFault::LineOutOfRange(index) => write!(f, "line out of range at operation {index}"),
            RunFault::OpenSequence => f.write_str("open sequence"),
            RunFault::Memory => f.write_str("out of memory"),
        }
    }
}

impl Error for RunFault {}

impl From<AllocError> for RunFault {
    ghost use Rattle.lnt_machine.specs.declared.fault.RunFault.TheVariants.{Memory};

    ghost from_gives = { λ _ fault. fault ≡ Memory };

    fn from(_error: AllocError) -> RunFault {
        RunFault::Memory
    }
}

/// The line that says why a program doesn't run (number 26), without its line feed: the offset of its unit in the section,
/// and the reason.
#[derive(Clone, Copy)]
pub struct RunLine(pub u64, pub RunFault);

impl fmt::Display for RunLine {
    ghost output = { λ line. Some (run_text line.0 line.1) };

    fn fmt<W: fmt::Write>(&self, f: &mut fmt::Formatter<W>) -> fmt::Result {
        let RunLine(offset, reason) = *self;
        write!(f, "no 26 run unit 0x{offset:x}: {reason}")
    }
}

/// Why a walk over the rows of a unit ends before its program does. It prints the text of its fault.
#[derive(Clone, Copy, Debug, PartialEq, Eq)]
pub enum RowFault {
    /// The remaining bytes of the program don't begin with an operation.
    Malformed(Fault),
    /// The program doesn't run.
    Run(RunFault),
}

impl fmt::Display for RowFault {
    ghost output = { λ fault. Some (row_fault_text fault) };

    fn fmt<W: fmt::Write>(&self, f: &mut fmt::Formatter<W>) -> fmt::Result {
        match *self {
            RowFault::Malformed(fault) => write!(f, "{fault}"),
            RowFault::Run(fault) => write!(f, "{fault}"),
        }
    }
}

impl Error for RowFault {}

impl From<Fault> for RowFault {
    ghost use Rattle.lnt_machine.specs.declared.fault.RowFault.TheVariants.{Malformed};

    ghost from_gives = { λ fault result. result ≡ Malformed fault };

    fn from(fault: Fault) -> RowFault {
        RowFault::Malformed(fault)
    }
}

impl From<RunFault> for RowFault {
    ghost use Rattle.lnt_machine.specs.declared.fault.RowFault.TheVariants.{Run};

    ghost from_gives = { λ fault result. result ≡ Run fault };

    fn from(fault: RunFault) -> RowFault {
        RowFault::Run(fault)
    }
}
