//! A range of positions with one answer.
ghost use Rattle.std.specs.Prelude.{◌≡◌};
ghost use Rattle.lnt_spans.specs.Spans.{span_in_version};

use crate::answer::{Answer, Version};
use crate::position::Position;

/// The half-open range of positions from `low` up to `high`, with one answer. It is empty if `low` isn't below `high`.
#[derive(Clone, Copy, Debug, PartialEq, Eq)]
pub struct Span {
    /// The first position in the span.
    pub low: Position,
    /// The first position after the span.
    pub high: Position,
    /// The answer at each position in the span.
    pub answer: Answer,
}

impl Span {
    /// The span with its answer as a version of the address table contains it: version 1 has neither the instruction set
    /// nor the discriminator.
    #[inline(always)]
    pub fn in_version(self, version: Version) -> Span
        ensures { result ≡ span_in_version version self }
    {
        Span {
            low: self.low,
            high: self.high,
            answer: self.answer.in_version(version),
        }
    }
}
