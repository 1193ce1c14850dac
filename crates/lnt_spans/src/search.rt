//! Looks up the answer at a position, by bisection.
ghost use Rattle.std.specs.Prelude.{◌≡◌, ◌+◌, ◌^◌, ◌<◌, ◌≤◌, ℕ, length};
ghost use Rattle.lnt_spans.specs.Spans.{AreInOrder, span_answer};
ghost use Rattle.lnt_spans.specs.Positions.{IsSide};

use crate::answer::Answer;
use crate::position::Position;
use crate::span::Span;
use std::marker::Model;

/// Counts the comparisons of a position with spans, or with other things that hold positions. Contracts see the count.
#[derive(Debug, Drop)]
pub struct Probes {
    count: u64,
}

impl Model for Probes {
    ghost use Rattle.std.specs.Prelude.{ℕ};

    ghost Value = { ℕ };

    ghost view = { λ probes. probes.count };
}

impl Probes {
    /// A count of no comparisons.
    pub fn new() -> Probes
        ensures { result ≡ 0 }
    {
        Probes { count: 0 }
    }

    /// The number of comparisons so far.
    pub fn count(&self) -> u64
        ensures { result ≡ self.now }
    {
        self.count
    }
}

/// Where a position lies relative to a half-open range of positions.
#[derive(Clone, Copy, Debug, PartialEq, Eq)]
pub enum Side {
    /// Below the first position of the range.
    Below,
    /// In the range.
    Inside,
    /// Above all positions of the range.
    Above,
}

/// Compares a position with the half-open range from `low` up to `high`, and counts the comparison. A search compares
/// positions in no other way. The caller ensures that the count is below 2^64 - 1.
#[inline(always)]
pub fn probe(low: Position, high: Position, position: Position, probes: &mut Probes) -> Side
    requires { probes.old + 1 < 2 ^ 64 }
    ensures side { IsSide result low high position }
    ensures counted { probes.new ≡ probes.old + 1 }
{
    probes.count += 1;
    if position < low {
        Side::Below
    } else if position < high {
        Side::Inside
    } else {
        Side::Above
    }
}

/// The answer of the span that holds the position, or `None` if no span does.
///
/// The position is compared with at most as many spans as their number has binary digits, so with none if there are no
/// spans; the number of comparisons is added to `probes`. The caller makes sure that the spans are in order, that none is
/// empty, and that `probes` is at most 2^63. Allocates nothing.
pub fn lookup(spans: &[Span], position: Position, probes: &mut Probes) -> Option<Answer>
    requires order { AreInOrder spans.now }
    requires count { probes.old ≤ 2 ^ 63 }
    ensures answer { result ≡ span_answer spans.now position }

    // The count rises by at most the number of binary digits of the number of spans.
    ensures rises { probes.old ≤ probes.new }
    ensures counted { (digits : ℕ) → length spans.now < 2 ^ digits → probes.new ≤ probes.old + digits }
{
    let mut low = 0;
    let mut high = spans.len();
    while low < high {
        let middle = low + (high - low) / 2;
        let span = &spans[middle];
        match probe(span.low, span.high, position, probes) {
            Side::Below => high = middle,
            Side::Inside => return Some(span.answer),
            Side::Above => low = middle + 1,
        }
    }
    None
}
