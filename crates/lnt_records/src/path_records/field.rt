//! The path of a file as a field of a record.
ghost use Rattle.std.specs.Prelude.{◌≡◌, ◌∷◌, [], IfOk, IsTrue, MatchBool, All};
ghost use Rattle.csv.specs.Writing.{default_writer, row_text};
ghost use Rattle.lnt_records.specs.PathLines.{IsPlainByte, field_with_comma};

use crate::path_records::paths::Paths;
use csv::Writer;
use std::alloc::{AllocError, Global};

// The path of a file as a field of a record, with the comma after it.
pub(crate) fn field_of<P: Paths>(
    alloc: Global,
    paths: &P,
    unit: u64,
    file: u64,
) -> Result<Vec<u8>, AllocError>
    ensures { IfOk result (λ text. text.items ≡ field_with_comma (P.bytes_of paths.now unit file)) }
{
    let mut path = paths.path_of(alloc, unit, file)?;
    if is_plain(&path) {
        path.extend_from_slice(b",")?;
        return Ok(path);
    }
    let mut text = record_of(alloc, &path)?;
    text.pop();
    Ok(text)
}

// Whether a field can stand without quotes.
fn is_plain(field: &[u8]) -> bool
    ensures { IsTrue result → All IsPlainByte field.now }
{
    for &byte in field {
        if calls_for_quotes(byte) {
            return false;
        }
    }
    true
}

// Whether a field with this byte needs quotes.
#[inline(always)]
#[tactic(auto, using(crate::proofs::PathLineLaws::plain_byte))]
pub(crate) fn calls_for_quotes(byte: u8) -> bool
    ensures { MatchBool result (Unit {0}) (IsPlainByte byte) }
{
    byte == b',' || byte == b'"' || byte == b'\r' || byte == b'\n'
}

// A record of the path and an empty field: without its line feed, that is the field with a comma.
fn record_of(alloc: Global, path: &[u8]) -> Result<Vec<u8>, AllocError>
    ensures { IfOk result (λ text. text.items ≡ row_text default_writer (path.now ∷ [] ∷ [])) }
{
    let mut record = Writer::from_writer(Vec::new(alloc));
    let fields = [path, b"".as_slice()];
    // Writing to a vector fails only if memory runs out.
    match record.write_fields(&fields) {
        Ok(()) => {}
        Err(_) => return Err(AllocError),
    }
    match record.into_inner() {
        Ok(text) => Ok(text),
        Err(_) => Err(AllocError),
    }
}
