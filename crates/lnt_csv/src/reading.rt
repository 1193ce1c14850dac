//! Reads records one by one.
ghost use Rattle.std.specs.Prelude.{◌≡◌, ◌<◌, ℕ, true, List, [], ◌∷◌, ◌++◌, IfOk, MatchBool};
ghost use Rattle.csv.specs.Records.{fields_of};
ghost use Rattle.lnt_csv.specs.Reading.{HasRead, bytes_left, known_length};
ghost use Rattle.lnt_csv.specs.Records.{Fields, RecordsOf};

use csv::{ByteRecord, Reader, ReaderBuilder};
use std::alloc::{AllocError, Global};

/// A reader of the records in some bytes. It treats no record as a header, and a record may have any number of fields.
pub fn reader_of<'a>(alloc: Global, bytes: &'a [u8]) -> Reader<&'a [u8]>
    ensures { HasRead result bytes.now [] }
{
    ReaderBuilder::new()
        .has_headers(false)
        .flexible(true)
        .from_reader(alloc, bytes)
}

/// Reads the next record into `row`, and gives whether there was one. The reader must come from `reader_of`. Fails only if
/// memory runs out: of bytes in memory, in records of any number of fields, `csv` has no other.
pub fn read_next(reader: &mut Reader<&[u8]>, row: &mut ByteRecord) -> Result<bool, AllocError>
    requires { (bytes : List ℕ) × (records : List Fields) × HasRead reader.old bytes records }
    ensures read { IfOk result (λ found. (bytes : List ℕ) (records : List Fields) → HasRead reader.old bytes records
        → MatchBool found (HasRead reader.new bytes (records ++ fields_of row.new ∷ [])) (RecordsOf bytes records)) }
    ensures less { IfOk result (λ found. found ≡ true → known_length (bytes_left reader.new) < known_length (bytes_left reader.old)) }
{
    let Ok(found) = reader.read_byte_record(row) else {
        return Err(AllocError);
    };
    Ok(found)
}
