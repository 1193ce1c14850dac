//! Writes the line of a span: the addresses, the path as a field, and the line in the file with what follows it.
ghost use Rattle.std.specs.Prelude.{◌<◌, ℕ, List, [], drop, OnOk};
ghost use Rattle.lnt_text.specs.Digits.{Begins, IsPlainAddress, IsPlainDecimal};
ghost use Rattle.lnt_records.specs.Progress.{AddsLine};
ghost use Rattle.lnt_records.specs.PathSpans.{path_answer, told_column};
ghost use Rattle.lnt_records.specs.PathLines.{AreFieldsOf, IsPlace, plain_told};

use crate::path_records::fields::PathFields;
use crate::path_records::paths::Paths;
use crate::path_records::version::PathVersion;
use crate::text::{ROOM, address_field_before, number_before};
use lnt_spans::{Answer, Span};
use std::alloc::{AllocError, Global};

/// Adds the line of a span, of which parts are written into `room` first; of its positions only the addresses are written.
pub fn put_line<P: Paths>(
    alloc: Global,
    paths: &P,
    version: PathVersion,
    fields: &mut PathFields,
    room: &mut [u8; ROOM],
    span: &Span,
    line: &mut Vec<u8>,
) -> Result<(), AllocError>
    requires { AreFieldsOf (P.bytes_of paths.now) fields.old }
    ensures kept { OnOk result (AreFieldsOf (P.bytes_of paths.now) fields.new) }
    ensures added { OnOk result (AddsLine
        (plain_told (path_answer version (P.bytes_of paths.now))) version span.now line.old.items line.new.items) }
{
    let start = addresses_before(room, span);
    line.extend_from_slice(&room[start..])?;
    let field = fields.take(alloc, paths, &span.answer)?;
    line.extend_from_slice(&field.text)?;
    fields.keep(field);
    let start = place_before(room, version, &span.answer);
    line.extend_from_slice(&room[start..])
}

/// Writes the two addresses of a span, each with a comma after it, so that they end where `room` does; gives their index.
#[inline(always)]
pub fn addresses_before(room: &mut [u8; ROOM], span: &Span) -> usize
    ensures begins { result < 256 }
    ensures written { (high : List ℕ) × Begins IsPlainAddress (drop result room.new) span.now.low.address 44 high
        × Begins IsPlainAddress high span.now.high.address 44 [] }
{
    let at = address_field_before(room, ROOM, span.high.address);
    address_field_before(room, at, span.low.address)
}

/// Writes the line in the file, in version 3 a comma and the column, and a line feed, so that they end where `room` does; gives
/// their index.
#[inline(always)]
pub fn place_before(room: &mut [u8; ROOM], version: PathVersion, answer: &Answer) -> usize
    ensures begins { result < 256 }
    ensures written { IsPlace IsPlainDecimal version answer.now.line (told_column version answer.now.column) (drop result room.new) [] }
{
    match version {
        PathVersion::Three => {
            let at = number_before(room, ROOM, answer.column, b'\n');
            number_before(room, at, answer.line, b',')
        }
        PathVersion::Four => number_before(room, ROOM, answer.line, b'\n'),
    }
}
