//! Parses lines of a table by path that have nothing in quotes, each in one pass over its bytes.
ghost use Rattle.std.specs.Prelude.{◌≤◌, drop, length, IfSome, All};
ghost use Rattle.lnt_text.specs.Digits.{IsDecimal};
ghost use Rattle.lnt_records.specs.PathLines.{IsPathBefore, IsPathLine, IsPlace, IsPlainByte};

use crate::path_records::field::calls_for_quotes;
use crate::path_records::record::{HeldPath, PathRecord};
use crate::path_records::version::PathVersion;
use lnt_text::{address_until, decimal_until, past};

/// Parses the first line of a text; gives its record and the index of the next line. `None` leaves the line to `csv`. `last` is
/// the path of the line before; it is tried first, since most lines repeat it.
#[inline(always)]
pub fn first_record<'t>(
    text: &'t [u8],
    version: PathVersion,
    last: &[u8],
) -> Option<(PathRecord<'t>, usize)>
    requires { All IsPlainByte last.now }
    ensures line { IfSome result (λ found. IsPathLine version found.0 text.now (drop found.1 text.now)) }
    ensures plain { IfSome result (λ found. All IsPlainByte found.0.answer.path.now) }
{
    let (low, at) = address_until(text, 0, b',')?;
    let (high, at) = address_until(text, at, b',')?;
    let (path, at) = path_before(text, at, last)?;
    let ((line, column), at) = place_at(text, at, version)?;
    let answer = HeldPath { path, line, column };
    Some((PathRecord { low, high, answer }, at))
}

// Parses the path at `at`, then a comma; gives the next index.
#[inline(always)]
fn path_before<'t>(table: &'t [u8], at: usize, last: &[u8]) -> Option<(&'t [u8], usize)>
    requires { All IsPlainByte last.now }
    ensures { IfSome result (λ found. IsPathBefore found.0.now (drop at table.now) (drop found.1 table.now)) }
{
    if at > table.len() {
        return None;
    }
    let rest = &table[at..];
    if rest.starts_with(last) {
        if let Some(next) = past(table, at + last.len(), b',') {
            return Some((&rest[..last.len()], next));
        }
    }
    let (path, length) = plain_field(rest)?;
    Some((path, at + length))
}

// The first field of a text, if it needs no quotes, and its length with the comma after it.
#[inline(never)]
fn plain_field<'t>(text: &'t [u8]) -> Option<(&'t [u8], usize)>
    ensures within { IfSome result (λ found. found.1 ≤ length text.now) }
    ensures path { IfSome result (λ found. IsPathBefore found.0.now text.now (drop found.1 text.now)) }
{
    for i in 0..text.len() {
        let byte = text[i];
        if calls_for_quotes(byte) {
            if byte != b',' {
                return None;
            }
            return Some((&text[..i], i + 1));
        }
    }
    None
}

// Parses the line in the file, the column if the version has columns, and the line feed; gives the next index.
#[inline(always)]
fn place_at(table: &[u8], at: usize, version: PathVersion) -> Option<((u64, Option<u64>), usize)>
    ensures { IfSome result (λ found. IsPlace IsDecimal version found.0.0 found.0.1 (drop at table.now) (drop found.1 table.now)) }
{
    match version {
        PathVersion::Three => {
            let (line, at) = decimal_until(table, at, b',')?;
            let (column, at) = decimal_until(table, at, b'\n')?;
            Some(((line, Some(column)), at))
        }
        PathVersion::Four => {
            let (line, at) = decimal_until(table, at, b'\n')?;
            Some(((line, None), at))
        }
    }
}
