//! The spans that a section has left after some of them were joined.
ghost use Rattle.std.specs.Prelude.{◌≡◌, ◌+◌, List, [], length};
ghost use Rattle.std.specs.List.{cons_option};
ghost use Rattle.lnt_spans.specs.declared.span.Span.{Span};
ghost use Rattle.lnt_spans.specs.declared.span.Span as spec;
ghost use Rattle.lnt_spans.specs.Remaining.{SpansAreLeft};
ghost use Rattle.lnt_compare.specs.Passing.{AreLeft};

use lnt_spans::{Span, SpanSource};

/// Gives up to two spans held here, then those of a source, unless it is known to have none left.
#[derive(Drop)]
pub struct Remaining<S> {
    first: Option<Span>,
    second: Option<Span>,
    spans: S,
    is_ended: bool,
}

impl<S: SpanSource> Remaining<S> {
    // All spans of a source.
    pub(crate) fn all(spans: S) -> Remaining<S>
        ensures { (list : List spec.Span) → S.to_come spans list → ⟦<Remaining<S> as SpanSource>⟧.to_come result list }
    {
        Remaining {
            first: None,
            second: None,
            spans,
            is_ended: false,
        }
    }

    /// Perhaps one span, and after it those of a source of which the next one was taken, if it had one.
    pub fn after(first: Option<Span>, next: Option<Span>, spans: S) -> Remaining<S>
        ensures { (rest : List spec.Span) → SpansAreLeft S.to_come next spans rest
            → ⟦<Remaining<S> as SpanSource>⟧.to_come result (cons_option first rest) }
    {
        Remaining {
            first,
            second: next,
            spans,
            is_ended: next.is_none(),
        }
    }
}

impl<S: SpanSource> SpanSource for Remaining<S> {
    ghost to_come = { λ s list. (rest : List Span) × AreLeft s.is_ended (S.to_come s.spans) rest
        × (list ≡ cons_option s.first (cons_option s.second rest)) };

    ghost left = { λ s. S.left s.spans + length (cons_option s.first (cons_option s.second [])) };

    #[inline(always)]
    fn next_span(&mut self) -> Option<Span> {
        if let Some(span) = self.first.take() {
            return Some(span);
        }
        if let Some(span) = self.second.take() {
            return Some(span);
        }
        if self.is_ended {
            return None;
        }
        self.spans.next_span()
    }
}
