//! A source of spans over a list in memory.
ghost use Rattle.std.specs.Prelude.{◌≡◌};
ghost use Rattle.lnt_spans.specs.Remaining.{count_left, spans_left};

use crate::source::SpanSource;
use crate::span::Span;

/// A source that owns its list of spans, with the number of spans given so far.
#[derive(Drop)]
pub struct SpanList {
    spans: Vec<Span>,
    given: usize,
}

impl SpanList {
    /// A source of these spans, none of them given yet.
    pub fn of(spans: Vec<Span>) -> SpanList
        ensures { ⟦<SpanList as SpanSource>⟧.to_come result spans.items }
    {
        SpanList { spans, given: 0 }
    }
}

impl SpanSource for SpanList {
    ghost to_come = { λ s list. spans_left s ≡ list };

    ghost left = { count_left };

    fn next_span(&mut self) -> Option<Span> {
        if self.given >= self.spans.len() {
            return None;
        }
        let span = self.spans[self.given];
        self.given += 1;
        Some(span)
    }
}
