//! The answer of a check.
ghost use Rattle.std.specs.Prelude.{◌≡◌, ◌≢◌, IfNone, IfSome, Some};
ghost use Rattle.lnt_records.specs.declared.fault.TableFault.{TableFault as TableFaultSpec};
ghost use Rattle.lnt_table.specs.FaultTexts.{table_no_text, verdict_text};
ghost use Rattle.lnt_table.specs.Verdicts.{no_of_fault};

use crate::difference_lines::DifferenceLine;
use lnt_lines::No;
use lnt_records::TableFault;
use lnt_spans::{Answer, Difference, Position};
use std::fmt;

/// Whether a table answers as a section does.
#[derive(Clone, Copy, Debug, PartialEq, Eq)]
pub enum Verdict {
    /// The section is good, and the table answers as it does at every position.
    Yes,
    /// One of these doesn't hold. This is the first reason.
    No(TableNo),
}

/// The line that reports it, without its line feed.
impl fmt::Display for Verdict {
    ghost output = { λ verdict. Some (verdict_text verdict) };

    fn fmt<W: fmt::Write>(&self, f: &mut fmt::Formatter<W>) -> fmt::Result {
        match *self {
            Verdict::Yes => f.write_str("yes"),
            Verdict::No(no) => no.fmt(f),
        }
    }
}

/// The first reason why a table doesn't answer as a section does. Each kind of reason has a number: those of [`No`] for the
/// section, and from 36 to 40 for the table.
///
/// The section is judged before the table is read, and the records of the table are judged before answers are compared.
/// Records and columns count from 0, and record 0 has the column names, so the first span is record 1.
#[derive(Clone, Copy, Debug, PartialEq, Eq)]
pub enum TableNo {
    /// The section isn't good, for this reason, whose number it has.
    Section(No),
    /// 36: the table has no record 0, or one with the column names of no version: of 1 and 2 for `check`, of 1 to 4 for
    /// `check_any`.
    TableHeader,
    /// 37: the number of fields of this record isn't the number of the table's columns.
    TableFields(u64),
    /// 38: a field of a record isn't a value of its column's kind: the record, and the column of its first such field.
    TableNumber(u64, u64),
    /// 39: the span of this record is empty, or begins below the end of the span before it.
    TableOrder(u64),
    /// 40: the answers of the table and of the section differ, in the fields of the table's version. `None` if a side has no
    /// answer.
    Differs {
        /// The least position at which they do.
        position: Position,
        /// The table's answer there.
        by_table: Option<Answer>,
        /// The section's answer there.
        by_section: Option<Answer>,
    },
}

/// The line that reports it, without its line feed.
impl fmt::Display for TableNo {
    ghost output = { λ no. Some (table_no_text no) };

    fn fmt<W: fmt::Write>(&self, f: &mut fmt::Formatter<W>) -> fmt::Result {
        match *self {
            TableNo::Section(no) => no.fmt(f),
            TableNo::TableHeader => write!(f, "no 36 {}", TableFault::Header),
            TableNo::TableFields(record) => write!(f, "no 37 {}", TableFault::Fields(record)),
            TableNo::TableNumber(record, column) => {
                write!(f, "no 38 {}", TableFault::Number(record, column))
            }
            TableNo::TableOrder(record) => write!(f, "no 39 {}", TableFault::Order(record)),
            TableNo::Differs {
                position,
                by_table,
                by_section,
            } => {
                let difference = Difference {
                    position,
                    by_table,
                    by_section,
                };
                DifferenceLine(difference, None).fmt(f)
            }
        }
    }
}

impl From<TableFault> for TableNo {
    ghost from_gives = { λ fault no. no ≡ no_of_fault fault };

    fn from(fault: TableFault) -> TableNo {
        match fault {
            TableFault::Header => TableNo::TableHeader,
            TableFault::Fields(record) => TableNo::TableFields(record),
            TableFault::Number(record, column) => TableNo::TableNumber(record, column),
            TableFault::Order(record) => TableNo::TableOrder(record),
        }
    }
}

impl TableNo {
    /// The fault in the table itself that this reason stands for. `None` for `Section` and `Differs`.
    pub fn fault(&self) -> Option<TableFault>
        ensures some { IfSome result (λ fault. self.now ≡ no_of_fault fault) }
        ensures none { IfNone result ((fault : TableFaultSpec) → self.now ≢ no_of_fault fault) }
    {
        match *self {
            TableNo::TableHeader => Some(TableFault::Header),
            TableNo::TableFields(record) => Some(TableFault::Fields(record)),
            TableNo::TableNumber(record, column) => Some(TableFault::Number(record, column)),
            TableNo::TableOrder(record) => Some(TableFault::Order(record)),
            TableNo::Section(_) | TableNo::Differs { .. } => None,
        }
    }
}
