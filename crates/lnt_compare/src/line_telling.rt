//! The lines of spans in tables, by number and by path.
use crate::joined::Joins;
use crate::window::Window;
use lnt_io::{Source, Stop};
use lnt_records::LineRoom;
use lnt_spans::{Coverage, Merge, Scope, Span, SpanSource};
use std::alloc::{AllocError, Global};

/// How a table that contains this of an answer is compared as text: a line for each joined span.
///
/// Ghost members give the meaning. `Version` and `Spans` are the types of the table's version and of what its lines say, `version` is
/// that version, and `told` what the line of a span of a section says. `format` and `plain` are such tables and their lines. `has_line`
/// says that a line can tell the span.
pub(crate) trait LineTelling: Joins {
    ghost use Rattle.std.specs.Prelude.{◌≡◌, ◌-◌, ◌^◌, ◌<◌, ℕ, List, [], Option, IfOk, IsErrOf, OnOk};
    ghost use Rattle.std.specs.Bool.{MatchBool};
    ghost use Rattle.lnt_io.specs.Stopping.{CountsFailure};
    ghost use Rattle.lnt_records.specs.Table.{TableFormat};
    ghost use Rattle.lnt_records.specs.Written.{LineFormat};
    ghost use Rattle.lnt_spans.specs.Merged.{HasMerged, IsJudged, answer_told};
    ghost use Rattle.lnt_spans.specs.declared.position.Position.{Position as SpecPosition};
    ghost use Rattle.lnt_spans.specs.declared.span.Span.{Span as SpecSpan};
    ghost use Rattle.lnt_compare.specs.Passing.{IsLineIn, Passes};

    ghost Version: { Type 0 };

    ghost Spans: { Type 0 };

    ghost version: { Self → Version };

    ghost told: { Self → SpecSpan → Spans };

    ghost format: { TableFormat Version Spans };

    ghost plain: { LineFormat Version Spans };

    ghost has_line: { Self → SpecSpan → Type 0 };

    /// What a table is judged to be in this scope, as `Merge::finish` gives it. Fails only if memory runs out.
    fn finish<S: SpanSource + Drop>(
        &self,
        merge: Merge<S, Self::Difference>,
        scope: Scope,
    ) -> Result<Result<Coverage, Self::Difference>, AllocError>
        ensures { IfOk result (λ judged. (spans : List SpecSpan) (by_table : SpecPosition → Option Self.Told)
            → HasMerged S.to_come (Self.tell self.now) Self.value_of merge spans by_table
            → IsJudged scope Self.value_of (answer_told (Self.tell self.now) spans) by_table judged) };

    /// The header as a line.
    fn header(&self) -> &'static [u8]
        ensures { result.now ≡ plain.line (plain.names (version self.now)) };

    /// Moves past the line of this span, if it is next and tells the span. It is written into `room` first.
    fn pass_line<T: Source>(
        &self,
        alloc: Global,
        memory: &mut Self::Memory,
        room: &mut LineRoom,
        span: &Span,
        source: &mut T,
        window: &mut Window,
    ) -> Result<bool, Stop>
        requires failures { T.failures source.old < 2 ^ 64 - 1 }
        requires sound { Self.is_sound self.now memory.old }
        ensures sound { OnOk result (Self.is_sound self.now memory.new) }
        ensures passed { IfOk result (λ passed. (text : List ℕ)
            × Passes (T.remaining source.old) (T.remaining source.new) (T.left source.old) (T.left source.new) window.old text []
            × MatchBool passed
            (IsLineIn format plain (version self.now) (told self.now span.now) text window.new × has_line self.now span.now)
            (window.new ≡ text)) }
        ensures failures { CountsFailure ⟦<T as Source>⟧ source.old source.new result Stop.Read }
        ensures not_long { IsErrOf result Stop.TooLong → ⊥ };
}
