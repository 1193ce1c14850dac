//! The lines of spans as they are written, and those of canonical spans, as the spans come.
ghost use Rattle.std.specs.Prelude.{List, map, OnErr, OnOk};
ghost use Rattle.std.specs.List.{AllByRecursion};
ghost use Rattle.lnt_spans.specs.declared.span.Span as spec;
ghost use Rattle.lnt_spans.specs.Spans.{AreInOrder};
ghost use Rattle.lnt_records.specs.Progress.{HasBegunLines, HasWrittenLines};
ghost use Rattle.lnt_compare.specs.Joining.{LeaveOff};
ghost use Rattle.lnt_writing.specs.Joined.{Any, AreJoined};

use lnt_compare::{Joined, Joins};
use lnt_records::{LineRoom, WriteStop, send, send_full};
use lnt_spans::{Span, SpanSource};
use std::alloc::{AllocError, Global};
use std::io::Write;

/// How a table that contains this of an answer is written: a line for each joined span.
///
/// Ghost members give the meaning. `Version` and `Spans` are the types of the table's version and of what its lines say, `version` is
/// that version, and `told` what the line of a span of a section says. `plain` is the lines of such tables. `has_line` says that a line
/// can tell the span.
pub(crate) trait LineWriting: Joins {
    ghost use Rattle.std.specs.Prelude.{◌≡◌, OnOk};
    ghost use Rattle.lnt_records.specs.Progress.{AddsLine};
    ghost use Rattle.lnt_records.specs.Written.{LineFormat};
    ghost use Rattle.lnt_spans.specs.declared.span.Span.{Span as SpecSpan};

    ghost Version: { Type 0 };

    ghost Spans: { Type 0 };

    ghost version: { Self → Version };

    ghost told: { Self → SpecSpan → Spans };

    ghost plain: { LineFormat Version Spans };

    ghost has_line: { Self → SpecSpan → Type 0 };

    /// The header as a line.
    fn header(&self) -> &'static [u8]
        ensures { result.now ≡ plain.line (plain.names (version self.now)) };

    /// Adds the line of this span, of which parts are written into `room` first.
    fn put_line(
        &self,
        alloc: Global,
        memory: &mut Self::Memory,
        room: &mut LineRoom,
        span: &Span,
        block: &mut Vec<u8>,
    ) -> Result<(), AllocError>
        requires { Self.is_sound self.now memory.old }
        ensures sound { OnOk result (Self.is_sound self.now memory.new) }
        ensures added { OnOk result (has_line self.now span.now
            → AddsLine plain (version self.now) (told self.now span.now) block.old.items block.new.items) };
}

// Writes the header, and a line for each joined span. A line that can't tell its span may be written of others.
pub(crate) fn write_lines<S: SpanSource + Drop, L: LineWriting, W: Write>(
    alloc: Global,
    spans: S,
    telling: &L,
    memory: &mut L::Memory,
    out: &mut W,
) -> Result<(), WriteStop>
    requires { L.is_sound telling.now memory.old }
    ensures lines { OnOk result ((joined : List spec.Span)
        × ((list : List spec.Span) → S.to_come spans list → AreInOrder list → AreJoined (L.tell telling.now) list joined)
        × (AllByRecursion (L.has_line telling.now) joined → HasWrittenLines L.plain (L.version telling.now) (W.contents out.old)
        (W.contents out.new) (map (L.told telling.now) joined))) }
    ensures begun { OnErr result ((first : List spec.Span)
        × ((list : List spec.Span) → S.to_come spans list → AreInOrder list → LeaveOff (L.tell telling.now) Any list first)
        × (AllByRecursion (L.has_line telling.now) first → HasBegunLines L.plain (L.version telling.now) (W.contents out.old)
        (W.contents out.new) (map (L.told telling.now) first))) }
{
    let mut joined = Joined::of(spans);
    let mut room = LineRoom::new();
    let mut block = Vec::new(alloc);
    block.extend_from_slice(telling.header())?;
    while let Some(span) = joined.next_joined(telling, memory)? {
        telling.put_line(alloc, memory, &mut room, &span, &mut block)?;
        send_full(&mut block, out)?;
    }
    send(&mut block, out)
}
