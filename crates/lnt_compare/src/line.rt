//! The lines of spans in tables by number.
ghost use Rattle.std.specs.Prelude.{◌≡◌, MatchBool};
ghost use Rattle.lnt_records.specs.Lines.{IsTextLine};
ghost use Rattle.lnt_records.specs.Written.{IsOfVersion};

use crate::joined::Joins;
use crate::line_telling::LineTelling;
use crate::window::Window;
use lnt_io::{Source, Stop};
use lnt_records::{LineRoom, ROOM, TableVersion};
use lnt_spans::{Answer, Coverage, Difference, Merge, Scope, Span, SpanSource, Telling, Version};
use std::alloc::{AllocError, Global};

impl Joins for Version {
    #[inline(always)]
    fn joins(&self, memory: &mut (), one: &Answer, other: &Answer) -> Result<bool, AllocError> {
        match self.alike(memory, one, other) {
            Ok(alike) => Ok(alike),
            Err(never) => match never {},
        }
    }
}

impl LineTelling for Version {
    ghost use Rattle.std.specs.Prelude.{List, Option, IfOk};
    ghost use Rattle.lnt_records.specs.Table.{by_number};
    ghost use Rattle.lnt_records.specs.Written.{IsOfVersion, plain_by_number};
    ghost use Rattle.lnt_spans.specs.Answers.{in_version};
    ghost use Rattle.lnt_spans.specs.Merged.{HasMerged, IsJudged, answer_told};
    ghost use Rattle.lnt_spans.specs.Spans.{span_in_version};
    ghost use Rattle.lnt_spans.specs.Differences.{stretch_of};
    ghost use Rattle.lnt_spans.specs.declared.answer.Answer.{Answer as SpecAnswer};
    ghost use Rattle.lnt_spans.specs.declared.position.Position.{Position as SpecPosition};
    ghost use Rattle.lnt_spans.specs.declared.answer.Version.{Version as SpecVersion};
    ghost use Rattle.lnt_spans.specs.declared.span.Span.{Span as SpecSpan};

    ghost Version = { SpecVersion };

    ghost Spans = { SpecSpan };

    ghost version = { λ version. version };

    ghost told = { span_in_version };

    ghost format = { by_number };

    ghost plain = { plain_by_number };

    ghost has_line = { λ version span. IsOfVersion version (in_version version span.answer) };

    #[inline(always)]
    fn finish<S: SpanSource + Drop>(
        &self,
        merge: Merge<S, Difference>,
        scope: Scope,
    ) -> Result<Result<Coverage, Difference>, AllocError>
        ensures { IfOk result (λ judged. (spans : List SpecSpan) (by_table : SpecPosition → Option SpecAnswer)
            → HasMerged S.to_come (in_version self.now) stretch_of merge spans by_table
            → IsJudged scope stretch_of (answer_told (in_version self.now) spans) by_table judged) }
    {
        match merge.finish(self, scope) {
            Ok(judged) => Ok(judged),
            Err(never) => match never {},
        }
    }

    fn header(&self) -> &'static [u8] {
        self.header_line()
    }

    #[inline(always)]
    fn pass_line<T: Source>(
        &self,
        alloc: Global,
        _memory: &mut (),
        room: &mut LineRoom,
        span: &Span,
        source: &mut T,
        window: &mut Window,
    ) -> Result<bool, Stop> {
        window.fill(alloc, source, ROOM)?;
        Ok(pass_line(window, room, &span.in_version(*self), *self))
    }
}

// Moves past the line of this span, if it is next.
#[inline(always)]
fn pass_line(window: &mut Window, room: &mut LineRoom, span: &Span, version: Version) -> bool
    ensures { MatchBool result (IsTextLine version span.now window.old window.new × IsOfVersion version span.now.answer)
        (window.new ≡ window.old) }
{
    if !tells(&span.answer, version) {
        return false;
    }
    window.pass_text(room.line(span))
}

// Whether an answer has exactly the fields of the version.
#[inline(always)]
fn tells(answer: &Answer, version: Version) -> bool
    ensures { MatchBool result (IsOfVersion version answer.now) (IsOfVersion version answer.now → ⊥) }
{
    match version {
        Version::One => answer.more.is_none(),
        Version::Two => answer.more.is_some(),
    }
}
