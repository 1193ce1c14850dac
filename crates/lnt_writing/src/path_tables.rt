//! Writes tables by path.
ghost use Rattle.std.specs.Prelude.{◌≡◌, ℕ, List, IfOk, OnErr, OnOk};
ghost use Rattle.std.specs.Io.KnownBytes.{Appends};
ghost use Rattle.std.specs.List.{AllByRecursion};
ghost use Rattle.lnt_spans.specs.declared.position.Position as position;
ghost use Rattle.lnt_spans.specs.declared.span.Span as spec;
ghost use Rattle.lnt_spans.specs.Spans.{AreInOrder, span_answer, IsOfInstructions};
ghost use Rattle.lnt_records.specs.PathSpans.{spans_by_path};
ghost use Rattle.lnt_writing.specs.Canonical.{BeginsPathTable, HasBecome, IsCanonicalPathTable};

use crate::border::first_operation;
use crate::lines::{LineWriting, write_lines};
use lnt_compare::{PathMemory, PathTelling};
use lnt_records::{LineRoom, PathVersion, Paths, TableVersion, WriteStop, put_line};
use lnt_spans::{Position, Span, SpanSource};
use std::alloc::{AllocError, Global};
use std::io::Write;
use std::marker::PhantomData;

/// The result of writing a table.
#[derive(Clone, Copy, Debug, PartialEq, Eq)]
pub enum PathTable {
    /// It was written.
    Written,
    /// 43: one of its spans begins or ends at this position, whose operation index isn't 0, and none does so at a lower
    /// position. A table by path can't express this, and nothing was written.
    OperationIndex(Position),
}

/// Writes the table by path of the spans of a source, block by block, as they come. Another source gives spans that answer the
/// same; they decide first whether there is such a table. The spans of both must be in order, and none empty. Only one span
/// of each source is kept at a time.
///
/// On `Written`, the bytes that were written are a table of exactly the canonical spans that answer as the spans do, with
/// paths: the one shortest table that does. Adjacent spans are joined if their path, line and, in version 3, column are the
/// same, even if their units differ.
///
/// It returns `OperationIndex` (43) exactly when one of these canonical spans begins or ends at an operation index other
/// than 0; then nothing was written.
///
/// Stops with `Memory` (33) if memory ran out, and with `Write` (42) if the writer failed; then a prefix of the header and the
/// lines of the first canonical spans has been written. Nothing has been written unless all of these spans begin and end at
/// operation index 0, so that there is a whole table of them. No contract of a writer says when it fails, so no clause says that
/// `Write` is returned only then.
pub fn write_by_path<S: SpanSource + Drop, P: Paths, W: Write>(
    alloc: Global,
    judged: S,
    spans: S,
    paths: &P,
    version: PathVersion,
    out: &mut W,
) -> Result<PathTable, WriteStop>
    ensures table { IfOk result (λ table. (list other : List spec.Span) → S.to_come judged other → S.to_come spans list → AreInOrder other
        → AreInOrder list
        → ((p : position.Position) → span_answer other p ≡ span_answer list p)
        → HasBecome version (spans_by_path version (P.bytes_of paths.now) list) (W.contents out.old) (W.contents out.new) table) }
    ensures begun { OnErr result ((list other : List spec.Span) → S.to_come judged other → S.to_come spans list → AreInOrder other
        → AreInOrder list
        → ((p : position.Position) → span_answer other p ≡ span_answer list p)
        → BeginsPathTable version (spans_by_path version (P.bytes_of paths.now) list) (W.contents out.old) (W.contents out.new)) }
{
    let telling = PathTelling {
        alloc,
        paths,
        version,
        held: PhantomData,
    };
    let mut memory = PathMemory::new(alloc)?;
    if let Some(position) = first_operation(&telling, &mut memory, judged)? {
        return Ok(PathTable::OperationIndex(position));
    }
    write_lines(alloc, spans, &telling, &mut memory, out)?;
    Ok(PathTable::Written)
}

/// Does the same for spans that all begin and end at operation index 0: then there always is a table, nothing is decided
/// first, and one source is enough.
///
/// The caller makes sure that they do, that they are in order and that none is empty. Stops as `write_by_path` does.
pub fn write_instructions_by_path<S: SpanSource + Drop, P: Paths, W: Write>(
    alloc: Global,
    spans: S,
    paths: &P,
    version: PathVersion,
    out: &mut W,
) -> Result<(), WriteStop>
    ensures table { OnOk result ((list : List spec.Span) → S.to_come spans list → AreInOrder list → AllByRecursion IsOfInstructions list
        → (bytes : List ℕ) × Appends (W.contents out.old) (W.contents out.new) bytes
        × IsCanonicalPathTable version (spans_by_path version (P.bytes_of paths.now) list) bytes) }
    ensures begun { OnErr result ((list : List spec.Span) → S.to_come spans list → AreInOrder list → AllByRecursion IsOfInstructions list
        → BeginsPathTable version (spans_by_path version (P.bytes_of paths.now) list) (W.contents out.old) (W.contents out.new)) }
{
    let telling = PathTelling {
        alloc,
        paths,
        version,
        held: PhantomData,
    };
    let mut memory = PathMemory::new(alloc)?;
    write_lines(alloc, spans, &telling, &mut memory, out)
}

impl<'p, 'r, P: Paths> LineWriting for PathTelling<'p, 'r, P> {
    ghost use Rattle.lnt_spans.specs.Spans.{IsOfInstructions};
    ghost use Rattle.lnt_compare.specs.Joining.{tell_span};
    ghost use Rattle.lnt_records.specs.PathSpans.{path_answer, PathSpan};
    ghost use Rattle.lnt_records.specs.PathLines.{plain_by_path};
    ghost use Rattle.lnt_records.specs.declared.path_records.version.PathVersion.{PathVersion as SpecVersion};

    ghost Version = { SpecVersion };

    ghost Spans = { PathSpan };

    ghost version = { λ s. s.version };

    ghost told = { λ s. tell_span (path_answer s.version (P.bytes_of s.paths.now)) };

    ghost plain = { plain_by_path };

    ghost has_line = { λ s. IsOfInstructions };

    fn header(&self) -> &'static [u8] {
        self.version.header_line()
    }

    fn put_line(
        &self,
        alloc: Global,
        memory: &mut PathMemory,
        room: &mut LineRoom,
        span: &Span,
        block: &mut Vec<u8>,
    ) -> Result<(), AllocError> {
        let fields = &mut memory.fields;
        put_line(
            alloc,
            self.paths,
            self.version,
            fields,
            &mut room.room,
            span,
            block,
        )
    }
}
