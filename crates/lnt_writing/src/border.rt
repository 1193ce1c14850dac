//! Checks whether joined spans begin and end at whole instructions.
ghost use Rattle.std.specs.Prelude.{List, IfOk, MatchOption, OnOk};
ghost use Rattle.std.specs.List.{AllByRecursion};
ghost use Rattle.lnt_spans.specs.declared.span.Span as spec;
ghost use Rattle.lnt_spans.specs.Spans.{IsOfInstructions, AreInOrder};
ghost use Rattle.lnt_compare.specs.Joining.{LeaveOff};
ghost use Rattle.lnt_writing.specs.Joined.{Any, AreJoined, IsFirstOperation};

use lnt_compare::{Joined, Joins};
use lnt_spans::{Position, SpanSource};
use std::alloc::AllocError;

// The first position at which a joined span begins or ends with an operation index other than 0, if there is one.
pub(crate) fn first_operation<S: SpanSource + Drop, T: Joins>(
    telling: &T,
    memory: &mut T::Memory,
    spans: S,
) -> Result<Option<Position>, AllocError>
    requires { T.is_sound telling.now memory.old }
    ensures sound { OnOk result (T.is_sound telling.now memory.new) }
    ensures found { IfOk result (λ found. (joined : List spec.Span) × MatchOption found
        (AllByRecursion IsOfInstructions joined × ((list : List spec.Span) → S.to_come spans list → AreInOrder list
        → AreJoined (T.tell telling.now) list joined))
        (λ position. IsFirstOperation position joined × ((list : List spec.Span) → S.to_come spans list → AreInOrder list
        → LeaveOff (T.tell telling.now) Any list joined))) }
{
    let mut joined = Joined::of(spans);
    while let Some(span) = joined.next_joined(telling, memory)? {
        if span.low.op != 0 {
            return Ok(Some(span.low));
        }
        if span.high.op != 0 {
            return Ok(Some(span.high));
        }
    }
    Ok(None)
}
