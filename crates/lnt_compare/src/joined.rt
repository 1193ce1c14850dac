//! Joins spans, as they come, where they touch and a table contains the same of their answers.
ghost use Rattle.std.specs.Prelude.{◌<◌, List, IfOk, IfSome, OnOk, MatchBool};
ghost use Rattle.lnt_spans.specs.declared.span.Span as spec;
ghost use Rattle.std.specs.List.{cons_option};
ghost use Rattle.lnt_compare.specs.Joining.{AreToJoin, GivesJoined, IsExtendedBy, count_to_join};

use crate::remaining::Remaining;
use lnt_spans::{Answer, Span, SpanSource, Telling};
use std::alloc::AllocError;

/// How much of an answer a table contains, and whether it contains the same of two.
pub trait Joins: Telling {
    ghost use Rattle.std.specs.Prelude.{◌≡◌, ◌≢◌, IfOk, OnOk};
    ghost use Rattle.std.specs.Bool.{MatchBool};

    /// Whether a table contains the same of two answers, as `alike` says. Fails only if memory runs out.
    fn joins(
        &self,
        memory: &mut Self::Memory,
        one: &Answer,
        other: &Answer,
    ) -> Result<bool, AllocError>
        requires { Self.is_sound self.now memory.old }
        ensures sound { OnOk result (Self.is_sound self.now memory.new) }
        ensures alike { IfOk result (λ alike. MatchBool alike (Self.tell self.now one.now ≡ Self.tell self.now other.now)
            (Self.tell self.now one.now ≢ Self.tell self.now other.now)) };
}

/// A source of spans, with its next span already taken out. They are given joined, each with the answer of its first part.
#[derive(Drop)]
pub struct Joined<S> {
    next: Option<Span>,
    spans: S,
}

impl<S: SpanSource> Joined<S> {
    /// Takes the first span out of the source.
    #[inline(always)]
    pub fn of(mut spans: S) -> Joined<S>
        ensures { (list : List spec.Span) → S.to_come spans list → AreToJoin S.to_come result list }
    {
        let next = spans.next_span();
        Joined { next, spans }
    }

    /// Gives the next joined span: the next span with all those that extend it. Fails only if memory runs out.
    ///
    /// It is inlined, and `memory` stands apart, so that the walk over the spans keeps its state in registers.
    #[inline(always)]
    pub fn next_joined<T: Joins>(
        &mut self,
        telling: &T,
        memory: &mut T::Memory,
    ) -> Result<Option<Span>, AllocError>
        requires { T.is_sound telling.now memory.old }
        ensures sound { OnOk result (T.is_sound telling.now memory.new) }
        ensures left { IfOk result (λ given. (list : List spec.Span) → AreToJoin S.to_come self.old list
            → GivesJoined (T.tell telling.now) list (AreToJoin S.to_come self.new) given) }
        ensures fewer { IfOk result (λ given. IfSome given (λ _. count_to_join S.left self.new < count_to_join S.left self.old)) }
    {
        let Some(mut last) = self.next.take() else {
            return Ok(None);
        };
        while let Some(span) = self.spans.next_span() {
            if !goes_on(telling, memory, &last, &span)? {
                self.next = Some(span);
                return Ok(Some(last));
            }
            last.high = span.high;
        }
        Ok(Some(last))
    }

    // Perhaps one span, and after it those that are left, as the source gives them.
    pub(crate) fn remaining(self, first: Option<Span>) -> Remaining<S>
        ensures { (rest : List spec.Span) → AreToJoin S.to_come self rest
            → ⟦<Remaining<S> as SpanSource>⟧.to_come result (cons_option first rest) }
    {
        Remaining::after(first, self.next, self.spans)
    }
}

// Whether the second span begins where the first ends, and a table contains the same of both answers.
#[inline(always)]
fn goes_on<T: Joins>(
    telling: &T,
    memory: &mut T::Memory,
    last: &Span,
    span: &Span,
) -> Result<bool, AllocError>
    requires { T.is_sound telling.now memory.old }
    ensures sound { OnOk result (T.is_sound telling.now memory.new) }
    ensures goes { IfOk result (λ goes. MatchBool goes (IsExtendedBy (T.tell telling.now) last.now span.now)
        (IsExtendedBy (T.tell telling.now) last.now span.now → ⊥)) }
{
    if last.high != span.low {
        return Ok(false);
    }
    telling.joins(memory, &last.answer, &span.answer)
}
