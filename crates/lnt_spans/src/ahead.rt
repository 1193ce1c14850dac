//! Looks one span ahead in a source of spans.
ghost use Rattle.std.specs.Prelude.{List, ◌∷◌, ◌<◌, IsSome};
ghost use Rattle.lnt_spans.specs.declared.span.Span as spec;
ghost use Rattle.lnt_spans.specs.Remaining.{IsAhead, count_ahead};

use crate::source::SpanSource;
use crate::span::Span;

// A source of spans, with its next span already taken out.
#[derive(Drop)]
pub(crate) struct Ahead<S> {
    pub(crate) next: Option<Span>,
    pub(crate) spans: S,
}

impl<S: SpanSource> Ahead<S> {
    // Takes the first span out of the source.
    pub(crate) fn of(mut spans: S) -> Ahead<S>
        ensures { (list : List spec.Span) → S.to_come spans list → IsAhead S.to_come result list }
    {
        let next = spans.next_span();
        Ahead { next, spans }
    }

    // Drops the current span and takes the next one.
    #[inline(always)]
    pub(crate) fn pass(&mut self)
        requires { IsSome self.old.next }
        ensures passed { (span : spec.Span) (more : List spec.Span) → IsAhead S.to_come self.old (span ∷ more)
            → IsAhead S.to_come self.new more }
        ensures fewer { count_ahead self.new.next (S.left self.new.spans) < count_ahead self.old.next (S.left self.old.spans) }
    {
        self.next = self.spans.next_span();
    }
}
