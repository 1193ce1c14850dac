//! The lines of spans in tables by path.
ghost use Rattle.std.specs.Prelude.{◌≡◌, ◌++◌, ℕ, List, IfSome, MatchBool};
ghost use Rattle.lnt_spans.specs.Spans.{IsOfInstructions};
ghost use Rattle.lnt_records.specs.PathSpans.{path_answer};
ghost use Rattle.lnt_records.specs.PathLines.{IsSpanLine, path_field};

use crate::joined::Joins;
use crate::line_telling::LineTelling;
use crate::path_tables::answer::DifferenceByPath;
use crate::path_tables::telling::{PathMemory, PathTelling};
use crate::window::Window;
use lnt_io::{Source, Stop};
use lnt_records::{
    LineRoom, PathVersion, Paths, ROOM, TableVersion, addresses_before, place_before,
};
use lnt_spans::{Answer, Coverage, Merge, Scope, Span, SpanSource, Telling};
use std::alloc::{AllocError, Global};

impl<'p, 'r, P: Paths> Joins for PathTelling<'p, 'r, P> {
    #[inline(always)]
    fn joins(
        &self,
        memory: &mut PathMemory,
        one: &Answer,
        other: &Answer,
    ) -> Result<bool, AllocError> {
        self.alike(memory, one, other)
    }
}

impl<'p, 'r, P: Paths> LineTelling for PathTelling<'p, 'r, P> {
    ghost use Rattle.std.specs.Prelude.{List, Option, IfOk};
    ghost use Rattle.lnt_spans.specs.Spans.{IsOfInstructions};
    ghost use Rattle.lnt_spans.specs.Merged.{HasMerged, IsJudged, answer_told};
    ghost use Rattle.lnt_spans.specs.declared.position.Position.{Position as SpecPosition};
    ghost use Rattle.lnt_spans.specs.declared.span.Span.{Span as SpecSpan};
    ghost use Rattle.lnt_compare.specs.PathStretches.{stretch_of};
    ghost use Rattle.lnt_compare.specs.Joining.{tell_span};
    ghost use Rattle.lnt_records.specs.PathSpans.{PathAnswer, path_answer, PathSpan};
    ghost use Rattle.lnt_records.specs.PathLines.{plain_by_path};
    ghost use Rattle.lnt_records.specs.PathTables.{by_path};
    ghost use Rattle.lnt_records.specs.declared.path_records.version.PathVersion.{PathVersion as SpecVersion};

    ghost Version = { SpecVersion };

    ghost Spans = { PathSpan };

    ghost version = { λ s. s.version };

    ghost told = { λ s. tell_span (path_answer s.version (P.bytes_of s.paths.now)) };

    ghost format = { by_path };

    ghost plain = { plain_by_path };

    ghost has_line = { λ s. IsOfInstructions };

    #[inline(always)]
    fn finish<S: SpanSource + Drop>(
        &self,
        merge: Merge<S, DifferenceByPath>,
        scope: Scope,
    ) -> Result<Result<Coverage, DifferenceByPath>, AllocError>
        ensures { IfOk result (λ judged. (spans : List SpecSpan) (by_table : SpecPosition → Option PathAnswer)
            → HasMerged S.to_come (path_answer self.now.version (P.bytes_of self.now.paths.now)) stretch_of merge spans by_table
            → IsJudged scope stretch_of (answer_told (path_answer self.now.version (P.bytes_of self.now.paths.now)) spans) by_table
            judged) }
    {
        merge.finish(self, scope)
    }

    fn header(&self) -> &'static [u8] {
        self.version.header_line()
    }

    #[inline(always)]
    fn pass_line<T: Source>(
        &self,
        alloc: Global,
        memory: &mut PathMemory,
        room: &mut LineRoom,
        span: &Span,
        source: &mut T,
        window: &mut Window,
    ) -> Result<bool, Stop> {
        let field = memory.fields.take(alloc, self.paths, &span.answer)?;
        window.fill(alloc, source, field.text.len().saturating_add(ROOM))?;
        if !pass_line(window, &mut room.room, self.version, &field.text, span) {
            return Ok(false);
        }
        memory.fields.keep(field);
        Ok(true)
    }
}

// Moves past the line of this span, if it is next, and the span begins and ends at whole instructions. `field` is the path of its file
// as a field, with the comma after it.
#[inline(always)]
fn pass_line(
    window: &mut Window,
    room: &mut [u8; ROOM],
    version: PathVersion,
    field: &[u8],
    span: &Span,
) -> bool
    ensures { (path : ℕ → ℕ → List ℕ) → field.now ≡ path_field path span.now.answer.unit span.now.answer.file
        → MatchBool result (IsSpanLine (path_answer version path) version span.now window.old window.new × IsOfInstructions span.now)
        (window.new ≡ window.old) }
{
    if span.low.op != 0 || span.high.op != 0 {
        return false;
    }
    let bytes = window.bytes();
    let start = addresses_before(room, span);
    let Some(after) = rest_after(bytes, &room[start..]) else {
        return false;
    };
    let Some(after) = rest_after(after, field) else {
        return false;
    };
    let start = place_before(room, version, &span.answer);
    let Some(after) = rest_after(after, &room[start..]) else {
        return false;
    };
    let passed = bytes.len() - after.len();
    window.pass(passed);
    true
}

// The bytes after these first ones, if the text begins with them.
#[inline(always)]
fn rest_after<'t>(text: &'t [u8], first: &[u8]) -> Option<&'t [u8]>
    ensures { IfSome result (λ rest. text.now ≡ first.now ++ rest.now) }
{
    if !text.starts_with(first) {
        return None;
    }
    Some(&text[first.len()..])
}
