//! What is wrong with a table, and why a call stopped.
ghost use Rattle.std.specs.Prelude.{◌≡◌, Some};
ghost use Rattle.lnt_records.specs.FaultTexts.{table_fault_text, write_stop_text, io_stop_of_write};

use lnt_io::IoStop;
use std::alloc::AllocError;
use std::error::Error;
use std::fmt;

/// The first fault of a table. In one record `Fields` comes before `Number`, and `Number` before `Order`. Records and
/// columns are counted from 0.
#[derive(Clone, Copy, Debug, PartialEq, Eq)]
pub enum TableFault {
    /// Record 0 is not a header: it is missing, or names other columns.
    Header,
    /// The number of fields in this record isn't the number of columns.
    Fields(u64),
    /// In this record, this column is the first whose field isn't of its kind.
    Number(u64, u64),
    /// The span of this record is empty, or begins below the end of the span before it.
    Order(u64),
}

/// What is wrong with the table: in a line `no N ..`, the words after the number.
impl fmt::Display for TableFault {
    ghost output = { λ fault. Some (table_fault_text fault) };

    fn fmt<W: fmt::Write>(&self, f: &mut fmt::Formatter<W>) -> fmt::Result {
        match *self {
            TableFault::Header => f.write_str("table header"),
            TableFault::Fields(record) => write!(f, "table fields record {record}"),
            TableFault::Number(record, column) => {
                write!(f, "table number record {record} column {column}")
            }
            TableFault::Order(record) => write!(f, "table order record {record}"),
        }
    }
}

impl Error for TableFault {}

/// Why a table wasn't written, or not as a whole.
#[derive(Clone, Copy, Debug, PartialEq, Eq)]
pub enum WriteStop {
    /// Memory ran out.
    Memory,
    /// The writer failed.
    Write,
}

impl fmt::Display for WriteStop {
    ghost output = { λ stop. Some (write_stop_text stop) };

    fn fmt<W: fmt::Write>(&self, f: &mut fmt::Formatter<W>) -> fmt::Result {
        match self {
            WriteStop::Memory => f.write_str("out of memory"),
            WriteStop::Write => f.write_str("cannot write"),
        }
    }
}

impl Error for WriteStop {}

impl From<AllocError> for WriteStop {
    ghost use Rattle.lnt_records.specs.declared.fault.WriteStop.TheVariants.{Memory};

    ghost from_gives = { λ _ stop. stop ≡ Memory };

    fn from(_error: AllocError) -> WriteStop {
        WriteStop::Memory
    }
}

impl From<WriteStop> for IoStop {
    ghost from_gives = { λ stop io_stop. io_stop ≡ io_stop_of_write stop };

    fn from(stop: WriteStop) -> IoStop {
        match stop {
            WriteStop::Memory => IoStop::Memory,
            WriteStop::Write => IoStop::Write,
        }
    }
}
