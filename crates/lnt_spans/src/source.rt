//! Sources that give spans one after another.
ghost use Rattle.std.specs.Prelude.{◌≡◌, ℕ, ◌<◌, List, length, IfOk, IfSome};
ghost use Rattle.lnt_spans.specs.declared.span.Span as spec;
ghost use Rattle.lnt_spans.specs.Remaining.{GivesFirstSpan};

use crate::span::Span;
use std::alloc::{AllocError, Global};
use std::marker::Model;

/// Gives spans one after another, from wherever they are held or made.
///
/// Two ghost members give its meaning: `to_come`, a relation that says which spans are still to come, in order (a relation,
/// since a source needn't hold them); and `left`, an upper bound on their number.
pub trait SpanSource {
    ghost to_come: { Self → List spec.Span → Type 0 };

    ghost left: { Self → ℕ };

    /// Gives the next span, or `None` if none is left.
    fn next_span(&mut self) -> Option<Span>
        ensures gives { (spans : List spec.Span) → to_come self.old spans → GivesFirstSpan (to_come self.new) spans result }
        ensures fewer { IfSome result (λ _. left self.new < left self.old) };
}

/// Collects all spans of a source. Fails only if memory runs out.
pub fn collect<S: SpanSource + Drop>(alloc: Global, mut spans: S) -> Result<Vec<Span>, AllocError>
    ensures { IfOk result (λ all. (list : List spec.Span) → S.to_come spans list → all.items ≡ list) }
{
    let mut all = Vec::new(alloc);
    while let Some(span) = spans.next_span() {
        all.push(span)?;
    }
    Ok(all)
}

/// A source of spans over a slice.
#[derive(Drop)]
pub struct SpanSlice<'a> {
    rest: &'a [Span],
}

impl<'a> Model for SpanSlice<'a> {
    ghost use Rattle.std.specs.Prelude.{List};
    ghost use Rattle.lnt_spans.specs.declared.span.Span.{Span};

    ghost Value = { List Span };

    ghost view = { λ s. s.rest.now };
}

impl<'a> SpanSlice<'a> {
    /// A source of these spans.
    pub fn of(spans: &'a [Span]) -> SpanSlice<'a>
        ensures { result ≡ spans.entry.now }
    {
        SpanSlice { rest: spans }
    }
}

impl<'a> SpanSource for SpanSlice<'a> {
    ghost to_come = { λ s spans. s ≡ spans };

    ghost left = { λ s. length s };

    #[inline(always)]
    fn next_span(&mut self) -> Option<Span> {
        let (span, rest) = self.rest.split_first()?;
        self.rest = rest;
        Some(*span)
    }
}
