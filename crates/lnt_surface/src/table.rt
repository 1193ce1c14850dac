//! `lnt_table`: tables, checked and written.
use lnt_lines::{Answer, Lines, No, Options, Position, Stop, Strings, Version};
use lnt_table::{Difference, TableNo, Verdict, WriteStop, check, write_table};
use lnt_wire::Counted;
use std::alloc::Global;
use std::io::Write;

/// The verdict on a table: `None` if it answers as the section does.
pub fn checked(
    alloc: Global,
    section: &[u8],
    table: &[u8],
    strings: &Strings<'_>,
    options: &Options,
) -> Result<Option<TableNo>, Stop> {
    let mut section = Counted::new(section, 70);
    let mut table = Counted::new(table, 70);
    match check(alloc, &mut section, strings, &mut table, options)? {
        Verdict::Yes => Ok(None),
        Verdict::No(no) => Ok(Some(no)),
    }
}

/// Each fault of a table, and where it is.
pub fn told_fault(no: TableNo) -> Option<(u8, u64, u64)> {
    match no {
        TableNo::TableHeader => Some((36, 0, 0)),
        TableNo::TableFields(record) => Some((37, record, 0)),
        TableNo::TableNumber(record, column) => Some((38, record, column)),
        TableNo::TableOrder(record) => Some((39, record, 0)),
        TableNo::Section(_) | TableNo::Differs { .. } => None,
    }
}

/// Why the section isn't good.
pub fn told_section(no: TableNo) -> Option<No> {
    match no {
        TableNo::Section(no) => Some(no),
        _ => None,
    }
}

/// Where the table and the section answer differently.
pub fn told_difference(no: TableNo) -> Option<(Position, Option<Answer>, Option<Answer>)> {
    match no {
        TableNo::Differs {
            position,
            by_table,
            by_section,
        } => Some((position, by_table, by_section)),
        _ => None,
    }
}

/// A difference of a list of them.
pub fn difference_position(difference: &Difference) -> Position {
    difference.position
}

/// A table, written.
pub fn written<W: Write>(
    alloc: Global,
    lines: &Lines,
    version: Version,
    out: &mut W,
) -> Result<(), WriteStop> {
    write_table(alloc, lines, version, out)
}

/// Each reason why a table isn't written.
pub fn write_stop_number(stop: WriteStop) -> u8 {
    match stop {
        WriteStop::Memory => 33,
        WriteStop::Write => 42,
    }
}

/// The law of borders.
pub fn laws() {
    lnt_table::laws::borders();
}
