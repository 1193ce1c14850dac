//! Record 0 of a table, which names its columns.
ghost use Rattle.std.specs.Prelude.{◌≡◌, ◌≤◌, ◌∷◌, [], length, IfOk, MatchOption};
ghost use Rattle.lnt_spans.specs.declared.answer.Version.{Version};
ghost use Rattle.lnt_records.specs.Table.{BeginsWith, column_count, column_names};

use crate::wide::begins_wide;
use csv::ByteRecord;
use lnt_csv::{has_fields, read_next, reader_of};
use lnt_spans::Version;
use std::alloc::{AllocError, Global};

/// A version of a table. Contracts see the columns that its header names, `names`.
pub trait TableVersion {
    ghost use Rattle.std.specs.Prelude.{◌≡◌, ◌≢◌, MatchOption};
    ghost use Rattle.csv.specs.Records.{fields_of};
    ghost use Rattle.lnt_records.specs.Table.{Fields};
    ghost use Rattle.lnt_records.specs.Written.{line_text};

    ghost names: { Self → Fields };

    /// The header as a line.
    fn header_line(&self) -> &'static [u8]
        ensures { result.now ≡ line_text (names self.now) };

    /// The version whose columns a record names, if it is a header.
    fn of_record(row: &ByteRecord) -> Option<Self>
        ensures { MatchOption result ((v : Self) → fields_of row.now ≢ names v) (λ v. fields_of row.now ≡ names v) };
}

impl TableVersion for Version {
    ghost use Rattle.lnt_records.specs.Table.{column_names};

    ghost names = { column_names };

    fn header_line(&self) -> &'static [u8] {
        match *self {
            Version::One => b"low,low_op,high,high_op,unit,file,line,column,is_stmt\n".as_slice(),
            Version::Two =>
                b"low,low_op,high,high_op,unit,file,line,column,is_stmt,isa,discriminator\n".as_slice(),
        }
    }

    #[tactic(auto, using(crate::proofs::HeaderLaws::names_none))]
    fn of_record(row: &ByteRecord) -> Option<Version> {
        let names = [
            b"low".as_slice(),
            b"low_op",
            b"high",
            b"high_op",
            b"unit",
            b"file",
            b"line",
            b"column",
            b"is_stmt",
            b"isa",
            b"discriminator",
        ];
        if has_fields(row, &names[..9]) {
            Some(Version::One)
        } else if has_fields(row, &names) {
            Some(Version::Two)
        } else {
            None
        }
    }
}

/// The version whose columns record 0 of these bytes names, if it is a header. Of a record with more fields than any table has columns
/// only the first fields are held. The caller makes sure that no header has more columns than that. Fails only if memory runs out.
///
/// Never inlined: a reader of records is large, the stack is short, and no caller should hold it beside its own values.
#[inline(never)]
pub fn header_of<V: TableVersion>(alloc: Global, table: &[u8]) -> Result<Option<V>, AllocError>
    requires { (v : V) → length (V.names v) ≤ 11 }
    ensures { IfOk result (λ found. MatchOption found ((v : V) → BeginsWith table.now (V.names v ∷ []) → ⊥)
        (λ v. BeginsWith table.now (V.names v ∷ []))) }
{
    if begins_wide(alloc, table)? {
        return Ok(None);
    }
    let mut reader = reader_of(alloc, table);
    let mut row = ByteRecord::new(alloc);
    if !read_next(&mut reader, &mut row)? {
        return Ok(None);
    }
    Ok(V::of_record(&row))
}

// The number of columns in a table of this version.
#[inline(always)]
pub(crate) fn columns(version: Version) -> usize
    ensures { result ≡ column_count version }
{
    match version {
        Version::One => 9,
        Version::Two => 11,
    }
}
