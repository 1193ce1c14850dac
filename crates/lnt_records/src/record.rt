//! Reads the span of a record.
ghost use Rattle.std.specs.Prelude.{◌≡◌, ◌+◌, ◌<◌, length, IfOk, IfErr, OnOk};
ghost use Rattle.csv.specs.Records.{fields_of};
ghost use Rattle.lnt_text.specs.Digits.{IsDecimal};
ghost use Rattle.lnt_records.specs.Progress.{AreSoundBefore, IsColumnFault, IsColumnOf, IsRecordFault, SaysAnswer, SaysPosition, fault_at};
ghost use Rattle.lnt_records.specs.Table.{AreMore, IsSpanRecord, column_count, kinds};
ghost use Rattle.lnt_records.specs.Table as table;

use crate::column::{ByNumber, address_at, decimal_at, flag_at};
use crate::fault::TableFault;
use crate::header::columns;
use csv::ByteRecord;
use lnt_spans::{Answer, More, Position, Span, Version};

/// Why a record has no span.
#[derive(Clone, Copy, Debug, PartialEq, Eq)]
pub enum RecordFault {
    /// The number of its fields isn't the number of columns.
    Fields,
    /// This column is the first whose field isn't of its kind.
    Number(u64),
}

impl RecordFault {
    /// The fault of a table, if the record has this number.
    pub fn at(self, number: u64) -> TableFault
        ensures { result ≡ fault_at number self }
    {
        match self {
            RecordFault::Fields => TableFault::Fields(number),
            RecordFault::Number(column) => TableFault::Number(number, column),
        }
    }
}

/// The span of a record, or why it has none.
#[tactic(auto, using(crate::proofs::RecordLemmas::span_of_lemmas))]
pub fn span_of(row: &ByteRecord, version: Version) -> Result<Span, RecordFault>
    ensures ok { IfOk result (λ span. IsSpanRecord version (fields_of row.now) span) }
    ensures err { IfErr result (λ fault. IsRecordFault kinds (column_count version) (fields_of row.now) fault) }
{
    if row.len() != columns(version) {
        return Err(RecordFault::Fields);
    }
    let low = position_at(row, 0)?;
    let high = position_at(row, 2)?;
    let answer = answer_in(row, version)?;
    Ok(Span { low, high, answer })
}

// The position in columns `i` and `i + 1`. The caller makes sure that the fields before them are of their kinds.
fn position_at(row: &ByteRecord, i: usize) -> Result<Position, RecordFault>
    requires there { i + 1 < length (fields_of row.now) }
    requires address { IsColumnOf kinds table.address i }
    requires op { IsColumnOf kinds table.decimal (i + 1) }
    requires before { AreSoundBefore kinds (fields_of row.now) i }
    ensures ok { IfOk result (λ position. SaysPosition (fields_of row.now) i position) }
    ensures after { OnOk result (AreSoundBefore kinds (fields_of row.now) (i + 2)) }
    ensures err { IfErr result (λ fault. IsColumnFault kinds (fields_of row.now) fault) }
{
    let address = address_at::<ByNumber>(row, i)?;
    let op = decimal_at::<ByNumber>(row, i + 1)?;
    Ok(Position { address, op })
}

// The answer in the columns from 4 on. The caller makes sure that the fields before them are of their kinds.
#[tactic(auto, using(crate::proofs::RecordLemmas::common_columns))]
fn answer_in(row: &ByteRecord, version: Version) -> Result<Answer, RecordFault>
    requires count { length (fields_of row.now) ≡ column_count version }
    requires before { AreSoundBefore kinds (fields_of row.now) 4 }
    ensures ok { IfOk result (λ answer. SaysAnswer version (fields_of row.now) answer) }
    ensures err { IfErr result (λ fault. IsColumnFault kinds (fields_of row.now) fault) }
{
    let unit = decimal_at::<ByNumber>(row, 4)?;
    let file = decimal_at::<ByNumber>(row, 5)?;
    let line = decimal_at::<ByNumber>(row, 6)?;
    let column = decimal_at::<ByNumber>(row, 7)?;
    let is_stmt = flag_at::<ByNumber>(row, 8)?;
    let more = more_in(row, version)?;
    Ok(Answer {
        unit,
        file,
        line,
        column,
        is_stmt,
        more,
    })
}

// What only version 2 has: the instruction set and the discriminator.
fn more_in(row: &ByteRecord, version: Version) -> Result<Option<More>, RecordFault>
    requires count { length (fields_of row.now) ≡ column_count version }
    requires before { AreSoundBefore kinds (fields_of row.now) 9 }
    ensures ok { IfOk result (λ more. AreMore IsDecimal version (fields_of row.now) more) }
    ensures err { IfErr result (λ fault. IsColumnFault kinds (fields_of row.now) fault) }
{
    match version {
        Version::One => Ok(None),
        Version::Two => {
            let isa = decimal_at::<ByNumber>(row, 9)?;
            let discriminator = decimal_at::<ByNumber>(row, 10)?;
            Ok(Some(More { isa, discriminator }))
        }
    }
}
