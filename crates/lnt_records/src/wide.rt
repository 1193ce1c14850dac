//! Records with more fields than any table has columns: no such record is held whole.
ghost use Rattle.std.specs.Prelude.{◌<◌, IsTrue, IfOk, [], ◌∷◌, length};
ghost use Rattle.lnt_records.specs.Reading.{EndsWide, IsPrefixOf, IsReadFor};
ghost use Rattle.lnt_records.specs.Table.{BeginsWith, Fields};

use csv::ByteRecord;
use lnt_csv::{read_next, reader_of};
use lnt_io::BLOCK;
use std::alloc::{AllocError, Global};

// The most columns that a table of any version has.
const MOST: usize = 11;

// The byte that stands before and after a field with other bytes that mean something.
const QUOTE: u8 = b'"';

// A byte order mark, which `csv` passes.
const BOM: &[u8] = b"\xEF\xBB\xBF";

// Where the next byte stands in a field, as `csv` reads it.
#[derive(Clone, Copy)]
enum Place {
    // At its start.
    Start,
    // In a field without quotes, or after one's last quote.
    Plain,
    // Between quotes.
    Quoted,
    // After a quote that ends the field, or is the first of two that stand for one.
    QuoteSeen,
}

/// Whether record 0 of these bytes surely has more fields than any table has columns, so that it isn't a header. Only its
/// first fields are held. The one error is that memory ran out.
#[inline(never)]
pub fn begins_wide(alloc: Global, bytes: &[u8]) -> Result<bool, AllocError>
    ensures { IfOk result (λ wide. IsTrue wide → (fields : Fields) → BeginsWith bytes.now (fields ∷ []) → 11 < length fields) }
{
    let prefix = prefix_of(bytes, true);
    if prefix.len() < 3 {
        return Ok(false);
    }
    let mut reader = reader_of(alloc, prefix);
    let mut row = ByteRecord::new(alloc);
    if !read_next(&mut reader, &mut row)? {
        return Ok(false);
    }
    Ok(row.len() > MOST)
}

/// The bytes to read records from in place of these: all of them, or a prefix that ends within a record with too many fields,
/// none of which the caller needs. So that record isn't held whole. Fails only if memory runs out.
pub fn up_to_wide<'a>(alloc: Global, bytes: &'a [u8]) -> Result<&'a [u8], AllocError>
    ensures { IfOk result (λ prefix. IsReadFor prefix.now bytes.now) }
{
    if !may_be_long(bytes) {
        return Ok(bytes);
    }
    let prefix = prefix_of(bytes, false);
    if prefix.len() < 3 || !ends_wide(alloc, prefix)? {
        return Ok(bytes);
    }
    Ok(prefix)
}

// Whether a record may be long: one with quotes, or one that fills a block. Others, with too many fields or not, have less than
// twice the bytes of a block, and are held.
fn may_be_long(bytes: &[u8]) -> bool {
    if bytes.contains(&QUOTE) {
        return true;
    }
    for block in bytes.chunks(BLOCK) {
        if block.len() == BLOCK && !block.contains(&b'\n') {
            return true;
        }
    }
    false
}

// Whether the last record of these bytes has more fields than any table has columns.
#[inline(never)]
fn ends_wide(alloc: Global, bytes: &[u8]) -> Result<bool, AllocError>
    ensures { IfOk result (λ wide. IsTrue wide → EndsWide bytes.now) }
{
    let mut reader = reader_of(alloc, bytes);
    let mut row = ByteRecord::new(alloc);
    let mut fields = 0;
    while read_next(&mut reader, &mut row)? {
        fields = row.len();
    }
    Ok(fields > MOST)
}

// The bytes before the comma with which a record gets too many fields: the first such record, or record 0 alone. None if
// there is no such comma.
#[tactic(auto, using(crate::proofs::WideLemmas::prefix_taken, crate::proofs::WideLemmas::no_prefix))]
fn prefix_of(bytes: &[u8], is_first_alone: bool) -> &[u8]
    ensures { IsPrefixOf result.now bytes.entry.now }
{
    let mut commas = 0;
    let mut place = Place::Start;
    let mark = if bytes.starts_with(BOM) { BOM.len() } else { 0 };
    for (i, byte) in bytes.iter().enumerate() {
        if i < mark {
            continue;
        }
        if *byte > b',' && matches!(place, Place::Start | Place::Plain) {
            place = Place::Plain;
            continue;
        }
        if commas > 0 && ends_record(place, *byte) {
            if is_first_alone {
                return &[];
            }
            commas = 0;
        }
        if ends_field(place, *byte) {
            if commas == MOST {
                return &bytes[..i];
            }
            commas += 1;
        }
        place = after(place, *byte);
    }
    &[]
}

// Whether this byte, which stands there, ends a field with a comma.
fn ends_field(place: Place, byte: u8) -> bool {
    byte == b',' && !matches!(place, Place::Quoted)
}

// Whether this byte, which stands there, ends a record.
fn ends_record(place: Place, byte: u8) -> bool {
    matches!(byte, b'\r' | b'\n') && !matches!(place, Place::Quoted)
}

// Where the byte after this one stands.
fn after(place: Place, byte: u8) -> Place {
    match (place, byte) {
        (Place::Start | Place::QuoteSeen, QUOTE) => Place::Quoted,
        (Place::Quoted, QUOTE) => Place::QuoteSeen,
        (Place::Quoted, _) => Place::Quoted,
        (_, b',' | b'\r' | b'\n') => Place::Start,
        _ => Place::Plain,
    }
}
