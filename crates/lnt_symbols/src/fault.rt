//! Why a file isn't a symbol file.
ghost use Rattle.std.specs.Prelude.{Some};
ghost use Rattle.lnt_symbols.specs.FaultTexts.{line_reason_text, symbol_fault_text};

use lnt_gsym::GsymFault;
use std::error::Error;
use std::fmt;

/// What is wrong with a line of a Breakpad file. Of a line with several faults it is a zero byte, or else the first field at fault.
#[derive(Clone, Copy, Debug, PartialEq, Eq)]
pub enum LineReason {
    /// The line isn't one of the records.
    NotARecord,
    /// A hexadecimal number has more than 16 digits, or a decimal one is 2^31 or more.
    NumberTooLarge,
    /// It is a line record, and no function goes on.
    NoFunction,
    /// It contains a zero byte.
    ZeroByte,
    /// It is line 1, and doesn't begin as that of a symbol file.
    NotASymbolFile,
}

impl fmt::Display for LineReason {
    ghost output = { λ reason. Some (line_reason_text reason) };

    fn fmt<W: fmt::Write>(&self, f: &mut fmt::Formatter<W>) -> fmt::Result {
        match self {
            LineReason::NotARecord => f.write_str("not a record"),
            LineReason::NumberTooLarge => f.write_str("number too large"),
            LineReason::NoFunction => f.write_str("no function"),
            LineReason::ZeroByte => f.write_str("zero byte"),
            LineReason::NotASymbolFile => f.write_str("not a symbol file"),
        }
    }
}

/// Why a file isn't a symbol file: its first fault, which has the number 45.
#[derive(Clone, Copy, Debug, PartialEq, Eq)]
pub enum SymbolFault {
    /// Of a Breakpad file: this line, counted from 1, for this reason.
    Line(u64, LineReason),
    /// Of a GSYM file: the field at this fault's place, for its reason.
    Gsym(GsymFault),
}

/// The line that reports it, without its line feed.
impl fmt::Display for SymbolFault {
    ghost output = { λ fault. Some (symbol_fault_text fault) };

    fn fmt<W: fmt::Write>(&self, f: &mut fmt::Formatter<W>) -> fmt::Result {
        match *self {
            SymbolFault::Line(number, reason) => {
                write!(f, "no 45 symbols line {number}: {reason}")
            }
            SymbolFault::Gsym(fault) => write!(f, "{fault}"),
        }
    }
}

impl Error for SymbolFault {}
