//! Writes tables.
ghost use Rattle.std.specs.Prelude.{◌≡◌, ◌++◌, ℕ, List, [], OnErr, OnOk, All};
ghost use Rattle.std.specs.Io.KnownBytes.{Appends};
ghost use Rattle.lnt_io.specs.Prefixes.{AppendsPrefix};
ghost use Rattle.lnt_spans.specs.declared.answer.Version.{Version};
ghost use Rattle.lnt_spans.specs.Spans.{AreInOrder};
ghost use Rattle.lnt_records.specs.Written.{BeginsTable, IsOfVersion, IsWrittenTable, line_text, plain_by_number};
ghost use Rattle.lnt_records.specs.Progress.{AddsLine};

use crate::fault::WriteStop;
use crate::header::TableVersion;
use crate::text::LineRoom;
use lnt_io::{BLOCK, write_whole};
use lnt_spans::{Span, Version};
use std::alloc::{AllocError, Global};
use std::io::Write;

/// Writes the table of some spans, block by block.
///
/// On Ok, the bytes that were written are a table of exactly these spans. Each record is on a line of its own that ends in a
/// line feed, with addresses in lower case and no leading zeros.
///
/// The caller makes sure that the spans are in order, that none is empty, and that each answer has exactly the fields of the
/// version: an instruction set and a discriminator in version 2, and neither in version 1. Stops with `Memory` if memory ran
/// out, and with `Write` if the writer failed; then a prefix of the header and the lines of the first spans has been
/// written, and nothing else. No contract of a writer says when it fails, so no clause says that `Write` is returned only
/// then.
pub fn write_spans<W: Write>(
    alloc: Global,
    spans: &[Span],
    version: Version,
    out: &mut W,
) -> Result<(), WriteStop>
    requires order { AreInOrder spans.now }
    requires version { All (λ span. IsOfVersion version span.answer) spans.now }
    ensures table { OnOk result ((bytes : List ℕ) × Appends (W.contents out.old) (W.contents out.new) bytes
        × IsWrittenTable version bytes spans.now) }
    ensures begun { OnErr result (BeginsTable version spans.now (W.contents out.old) (W.contents out.new)) }
{
    let mut block = Vec::new(alloc);
    put_header(&mut block, &version)?;
    let mut room = LineRoom::new();
    for span in spans {
        put_span(&mut block, &mut room, span)?;
        send_full(&mut block, out)?;
    }
    send(&mut block, out)
}

/// Sends a block of lines to the writer if it is full.
pub fn send_full<W: Write>(block: &mut Vec<u8>, out: &mut W) -> Result<(), WriteStop>
    ensures handed { OnOk result ((sent : List ℕ) × Appends (W.contents out.old) (W.contents out.new) sent
        × (block.old.items ≡ sent ++ block.new.items)) }
    ensures prefix { OnErr result (AppendsPrefix (W.contents out.old) (W.contents out.new) block.old.items) }
{
    if block.len() < BLOCK {
        return Ok(());
    }
    send(block, out)
}

/// Sends a block of lines to the writer and empties it.
pub fn send<W: Write>(block: &mut Vec<u8>, out: &mut W) -> Result<(), WriteStop>
    ensures handed { OnOk result (Appends (W.contents out.old) (W.contents out.new) block.old.items) }
    ensures empty { OnOk result (block.new.items ≡ []) }
    ensures prefix { OnErr result (AppendsPrefix (W.contents out.old) (W.contents out.new) block.old.items) }
{
    if write_whole(out, block.as_slice()).is_err() {
        return Err(WriteStop::Write);
    }
    block.clear();
    Ok(())
}

/// Adds the header.
pub fn put_header<V: TableVersion>(block: &mut Vec<u8>, version: &V) -> Result<(), AllocError>
    ensures { OnOk result (block.new.items ≡ block.old.items ++ line_text (V.names version.now)) }
{
    block.extend_from_slice(version.header_line())
}

/// Adds the line of a span, which is written into `room` first.
#[inline(always)]
pub fn put_span(block: &mut Vec<u8>, room: &mut LineRoom, span: &Span) -> Result<(), AllocError>
    ensures { (version : Version) → IsOfVersion version span.now.answer
        → OnOk result (AddsLine plain_by_number version span.now block.old.items block.new.items) }
{
    block.extend_from_slice(room.line(span))
}
