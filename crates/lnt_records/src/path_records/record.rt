//! Reads the span of a record of a table by path.
ghost use Rattle.std.specs.Prelude.{◌≡◌, length, IfOk, IfErr};
ghost use Rattle.csv.specs.Records.{fields_of};
ghost use Rattle.lnt_text.specs.Digits.{IsAddress, IsDecimal};
ghost use Rattle.lnt_records.specs.PathTables.{SaysColumn, SaysPath, path_column_count, path_kinds, record_answer};
ghost use Rattle.lnt_records.specs.Progress.{AreSoundBefore, IsColumnFault, IsRecordFault};

use crate::column::{Columns, address_at, decimal_at};
use crate::path_records::header::columns;
use crate::path_records::version::PathVersion;
use crate::record::RecordFault;
use csv::ByteRecord;
use lnt_csv::field;

/// The answer of a record; the path is borrowed.
#[derive(Clone, Copy)]
pub struct HeldPath<'r> {
    /// The full path of the file, as bytes.
    pub path: &'r [u8],
    /// The line in the file.
    pub line: u64,
    /// The column in the line; `None` if the version has no columns.
    pub column: Option<u64>,
}

/// A record of a table by path, with its path borrowed.
#[derive(Clone, Copy)]
pub struct PathRecord<'r> {
    /// The address where the span begins.
    pub low: u64,
    /// The first address after it.
    pub high: u64,
    /// What the record says of the positions between them.
    pub answer: HeldPath<'r>,
}

// The columns of a table by path.
pub(crate) enum ByPath {}

impl Columns for ByPath {
    ghost use Rattle.lnt_records.specs.PathTables.{path_kinds};

    ghost columns = { path_kinds };
}

/// The values of a record, or why it has none.
#[tactic(auto, using(crate::proofs::PathRecordLemmas::record_of_lemmas, crate::proofs::RecordLemmas::record_of_lemmas))]
pub fn record_of<'r>(
    row: &'r ByteRecord,
    version: PathVersion,
) -> Result<PathRecord<'r>, RecordFault>
    ensures ok { IfOk result (λ said. SaysPath IsAddress IsDecimal version (fields_of row.now) said.low said.high (record_answer said)) }
    ensures err { IfErr result (λ fault. IsRecordFault path_kinds (path_column_count version) (fields_of row.now) fault) }
{
    if row.len() != columns(version) {
        return Err(RecordFault::Fields);
    }
    let low = address_at::<ByPath>(row, 0)?;
    let high = address_at::<ByPath>(row, 1)?;
    let path = field(row, 2);
    let line = decimal_at::<ByPath>(row, 3)?;
    let column = column_in(row, version)?;
    let answer = HeldPath { path, line, column };
    Ok(PathRecord { low, high, answer })
}

// The column, which only version 3 has.
fn column_in(row: &ByteRecord, version: PathVersion) -> Result<Option<u64>, RecordFault>
    requires count { length (fields_of row.now) ≡ path_column_count version }
    requires before { AreSoundBefore path_kinds (fields_of row.now) 4 }
    ensures ok { IfOk result (λ column. SaysColumn IsDecimal version (fields_of row.now) column) }
    ensures err { IfErr result (λ fault. IsColumnFault path_kinds (fields_of row.now) fault) }
{
    match version {
        PathVersion::Three => {
            let column = decimal_at::<ByPath>(row, 4)?;
            Ok(Some(column))
        }
        PathVersion::Four => Ok(None),
    }
}
