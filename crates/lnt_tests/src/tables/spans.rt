//! Lists of spans, joined.
ghost use Rattle.lnt_spans.specs.Spans.{AreInOrder};

use crate::tables::worked::{narrow, span, wide};
use lnt_spans::{Answer, Span, Version, canonical};
use std::alloc::Global;

// Two spans that touch.
fn touching(first: Answer, second: Answer) -> [Span; 2]
    ensures { AreInOrder result }
{
    [span(0x1000, 0x1001, first), span(0x1001, 0x1002, second)]
}

// Whether two spans with these answers, which touch, are joined so in this version.
fn are_joined(alloc: Global, answers: [Answer; 2], version: Version, expected: &[Span]) -> bool {
    canonical(alloc, &touching(answers[0], answers[1]), version).is_ok_and(
        |joined| joined.as_slice() == expected,
    )
}

#[test]
fn canonical_spans(rt: HostRuntime) {
    let answers = [wide(3, 7), wide(3, 0)];
    let whole = span(0x1000, 0x1002, narrow(3));
    assert!(rt; are_joined(rt.alloc(), answers, Version::One, &[whole]));
    let both = touching(answers[0], answers[1]);
    assert!(rt; are_joined(rt.alloc(), answers, Version::Two, &both));
}
