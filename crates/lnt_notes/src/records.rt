//! The records of a table: the line of the text at which one begins, and the kinds of its columns.
use csv::{ByteRecord, Reader, ReaderBuilder};
use lnt_text::Column;
use std::alloc::Global;
use std::io::Read;

// The line, counted from 1, in which the text continues after so many records. `None` if it has fewer. The next record may be
// a very large one, and isn't read. An error if the text can't be read that far, or memory ran out.
pub(crate) fn line_after<R: Read + Drop>(
    alloc: Global,
    text: R,
    records: u64,
) -> Result<Option<u64>, csv::Error> {
    let mut reader = ReaderBuilder::new()
        .has_headers(false)
        .flexible(true)
        .from_reader(alloc, text);
    let mut row = ByteRecord::new(alloc);
    if !passes(&mut reader, &mut row, records)? {
        return Ok(None);
    }
    Ok(Some(reader.position().line()))
}

// Reads so many records into `row`, one over the other. False if there are fewer.
fn passes<R: Read>(
    reader: &mut Reader<R>,
    row: &mut ByteRecord,
    records: u64,
) -> Result<bool, csv::Error> {
    for _ in 0..records {
        if !reader.read_byte_record(row)? {
            return Ok(false);
        }
    }
    Ok(true)
}

/// The columns that a table has.
#[derive(Clone, Copy, Debug, PartialEq, Eq)]
pub enum Columns {
    /// Those of version 1 or 2, with units and file numbers.
    Numbered,
    /// Those of version 3 or 4, with paths.
    ByPath,
}

// The kind of the column with this index, counted from 0, in a table with these columns. `None` if it may contain any
// bytes, or the table has no such column.
pub(crate) fn column_at(columns: Columns, index: u64) -> Option<Column> {
    match (columns, index) {
        (_, 0) => Some(Column::Low),
        (Columns::Numbered, 1) => Some(Column::LowOp),
        (Columns::Numbered, 2) | (Columns::ByPath, 1) => Some(Column::High),
        (Columns::Numbered, 3) => Some(Column::HighOp),
        (Columns::Numbered, 4) => Some(Column::Unit),
        (Columns::Numbered, 5) => Some(Column::File),
        (Columns::Numbered, 6) | (Columns::ByPath, 3) => Some(Column::Line),
        (Columns::Numbered, 7) | (Columns::ByPath, 4) => Some(Column::Column),
        (Columns::Numbered, 8) => Some(Column::IsStmt),
        (Columns::Numbered, 9) => Some(Column::Isa),
        (Columns::Numbered, 10) => Some(Column::Discriminator),
        // A path may be any bytes.
        _ => None,
    }
}
