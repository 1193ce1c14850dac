//! Writes the table by number of the canonical spans, as the spans come.
ghost use Rattle.std.specs.Prelude.{ℕ, List, OnErr, OnOk};
ghost use Rattle.std.specs.Io.KnownBytes.{Appends};
ghost use Rattle.std.specs.List.{AllByRecursion};
ghost use Rattle.lnt_spans.specs.declared.span.Span as spec;
ghost use Rattle.lnt_spans.specs.Spans.{AreInOrder};
ghost use Rattle.lnt_writing.specs.Canonical.{BeginsCanonicalTable, IsCanonicalTable, HasAllFields};

use crate::lines::{LineWriting, write_lines};
use lnt_records::{LineRoom, TableVersion, WriteStop, put_span};
use lnt_spans::{Span, SpanSource, Version};
use std::alloc::{AllocError, Global};
use std::io::Write;

/// Writes the table of the spans of a source, block by block, as they come. Adjacent spans with the same answer, narrowed
/// to what the version contains, are joined first.
///
/// On Ok, the bytes that were written are a table of exactly the canonical spans: the one shortest table with the answers
/// of the spans, narrowed to what the version contains. Each record is on a line of its own, as `write_spans` writes it.
/// Only one span is kept at a time.
///
/// The caller makes sure that the spans are in order, that none is empty, and that each answer has an instruction set and a
/// discriminator. Stops as `write_spans` does: then a prefix of the header and the lines of the first canonical spans has
/// been written.
pub fn write_canonical<S: SpanSource + Drop, W: Write>(
    alloc: Global,
    spans: S,
    version: Version,
    out: &mut W,
) -> Result<(), WriteStop>
    requires { (list : List spec.Span) × S.to_come spans list × AreInOrder list × AllByRecursion HasAllFields list }
    ensures table { OnOk result ((bytes : List ℕ) × Appends (W.contents out.old) (W.contents out.new) bytes
        × ((list : List spec.Span) → S.to_come spans list → AreInOrder list → IsCanonicalTable version list bytes)) }
    ensures begun { OnErr result ((list : List spec.Span) → S.to_come spans list → AreInOrder list
        → BeginsCanonicalTable version list (W.contents out.old) (W.contents out.new)) }
{
    write_lines(alloc, spans, &version, &mut (), out)
}

impl LineWriting for Version {
    ghost use Rattle.lnt_records.specs.Written.{IsOfVersion, plain_by_number};
    ghost use Rattle.lnt_spans.specs.Answers.{in_version};
    ghost use Rattle.lnt_spans.specs.Spans.{span_in_version};
    ghost use Rattle.lnt_spans.specs.declared.answer.Version.{Version as SpecVersion};
    ghost use Rattle.lnt_spans.specs.declared.span.Span.{Span as SpecSpan};

    ghost Version = { SpecVersion };

    ghost Spans = { SpecSpan };

    ghost version = { λ version. version };

    ghost told = { span_in_version };

    ghost plain = { plain_by_number };

    ghost has_line = { λ version span. IsOfVersion version (in_version version span.answer) };

    fn header(&self) -> &'static [u8] {
        self.header_line()
    }

    #[inline(always)]
    fn put_line(
        &self,
        _alloc: Global,
        _memory: &mut (),
        room: &mut LineRoom,
        span: &Span,
        block: &mut Vec<u8>,
    ) -> Result<(), AllocError> {
        put_span(block, room, &span.in_version(*self))
    }
}
