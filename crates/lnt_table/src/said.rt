//! Asks several sequences, from a position on, for one answer.
ghost use Rattle.std.specs.Prelude.{◌≡◌, ◌⊎◌, ◌<◌, ◌≤◌, List, Option, IfOk, IfSome, IsSome};
ghost use Rattle.lnt_spans.specs.declared.answer.Answer as spec_answer;
ghost use Rattle.lnt_spans.specs.declared.position.Position as spec_position;
ghost use Rattle.lnt_spans.specs.declared.span.Span as spec_span;
ghost use Rattle.lnt_spans.specs.Positions.{IsAtMost, IsBelow};
ghost use Rattle.lnt_spans.specs.Remaining.{GivesFirstSpan};
ghost use Rattle.lnt_spans.specs.Spans.{AreInOrder, span_answer};
ghost use Rattle.lnt_table.specs.Said.{AnswersFrom, NoneSays, OneSays, Says, SaysFrom, StillSay, TurnsAt, all_left, left_of};

use lnt_spans::{Answer, Position, Span, SpanSource};
use std::alloc::AllocError;

// An answer of a table, with which answers of sequences are compared.
//
// Ghost members give the meaning. `tell` is what the table contains of an answer of a sequence, and `said` what it says.
pub(crate) trait TableAnswer {
    ghost use Rattle.std.specs.Prelude.{◌≡◌, ◌≢◌, IfOk};
    ghost use Rattle.std.specs.Bool.{MatchBool};
    ghost use Rattle.lnt_spans.specs.declared.answer.Answer.{Answer as SpecAnswer};

    ghost Told: { Type 0 };

    ghost tell: { Self → SpecAnswer → Told };

    ghost said: { Self → Told };

    // Whether an answer of a sequence is this one. Fails only if memory runs out.
    fn is_that(&self, answer: &Answer) -> Result<bool, AllocError>
        ensures { IfOk result (λ same. MatchBool same (tell self.now answer.now ≡ said self.now)
            (tell self.now answer.now ≢ said self.now)) };
}

// The spans of a sequence that are left, from a position on.
#[derive(Drop)]
pub(crate) struct SequenceSpans<S> {
    next: Option<Span>,
    spans: S,
}

impl<S: SpanSource> SequenceSpans<S> {
    // All spans of the source are left.
    pub(crate) fn of(mut spans: S) -> SequenceSpans<S>
        ensures { (list : List spec_span.Span) (at : spec_position.Position) (answers : spec_position.Position → Option spec_answer.Answer)
            → S.to_come spans list → AreInOrder list
            → ((p : spec_position.Position) → span_answer list p ≡ answers p) → AnswersFrom S.to_come result at answers }
    {
        let next = spans.next_span();
        SequenceSpans { next, spans }
    }

    // Up to which position, from `at` up to `end`, one of the spans says this: the end of the span that holds `at`, or `at` itself. The
    // spans below that position are passed.
    fn said_to<A: TableAnswer>(
        &mut self,
        answer: &A,
        at: Position,
        end: Position,
    ) -> Result<Position, AllocError>
        requires { IsAtMost at end }
        ensures past { IfOk result (λ to. IsAtMost at to) }
        ensures upto { IfOk result (λ to. IsAtMost to end) }
        ensures kept { IfOk result (λ to. (whole : spec_position.Position) (answers : spec_position.Position → Option spec_answer.Answer)
            → IsAtMost end whole → SaysFrom S.to_come (A.tell answer.now) (A.said answer.now) self.old at whole answers
            → SaysFrom S.to_come (A.tell answer.now) (A.said answer.now) self.new to whole answers) }
        ensures said { IfOk result (λ to. (whole : spec_position.Position) (answers : spec_position.Position → Option spec_answer.Answer)
            → SaysFrom S.to_come (A.tell answer.now) (A.said answer.now) self.old at whole answers → (p : spec_position.Position)
            → IsAtMost at p → IsBelow p to → Says (A.tell answer.now) (A.said answer.now) answers p) }
        ensures unsaid { IfOk result (λ to. IsAtMost to at → IsBelow at end → (whole : spec_position.Position)
            (answers : spec_position.Position → Option spec_answer.Answer)
            → SaysFrom S.to_come (A.tell answer.now) (A.said answer.now) self.old at whole answers
            → Says (A.tell answer.now) (A.said answer.now) answers at → ⊥) }
        ensures fewer { IfOk result (λ to. (left_of S.left self.new ≤ left_of S.left self.old)
            × (IsBelow at to → IsBelow to end → left_of S.left self.new < left_of S.left self.old)) }
    {
        self.pass_to(at);
        let Some(span) = self.next else {
            return Ok(at);
        };
        if at < span.low {
            return Ok(at);
        }
        if !answer.is_that(&span.answer)? {
            return Ok(at);
        }
        if end < span.high {
            return Ok(end);
        }
        self.pass();
        Ok(span.high)
    }

    // The least position from `at` up to `end` at which one of the spans says this, or `end`. The spans that end before it without saying
    // this are passed.
    fn said_from<A: TableAnswer>(
        &mut self,
        answer: &A,
        at: Position,
        end: Position,
    ) -> Result<Position, AllocError>
        requires { IsAtMost at end }
        ensures past { IfOk result (λ to. IsAtMost at to) }
        ensures upto { IfOk result (λ to. IsAtMost to end) }
        ensures kept { IfOk result (λ _. (whole : spec_position.Position) (answers : spec_position.Position → Option spec_answer.Answer)
            → IsAtMost end whole → SaysFrom S.to_come (A.tell answer.now) (A.said answer.now) self.old at whole answers
            → SaysFrom S.to_come (A.tell answer.now) (A.said answer.now) self.new at whole answers) }
        ensures unsaid { IfOk result (λ to. (whole : spec_position.Position) (answers : spec_position.Position → Option spec_answer.Answer)
            → SaysFrom S.to_come (A.tell answer.now) (A.said answer.now) self.old at whole answers → (p : spec_position.Position)
            → IsAtMost at p → IsBelow p to → Says (A.tell answer.now) (A.said answer.now) answers p → ⊥) }
        ensures said { IfOk result (λ to. IsBelow to end → (whole : spec_position.Position)
            (answers : spec_position.Position → Option spec_answer.Answer)
            → SaysFrom S.to_come (A.tell answer.now) (A.said answer.now) self.old at whole answers
            → Says (A.tell answer.now) (A.said answer.now) answers to) }
    {
        self.pass_to(at);
        while let Some(span) = self.next {
            let low = later(span.low, at);
            if low >= end {
                return Ok(end);
            }
            if answer.is_that(&span.answer)? {
                return Ok(low);
            }
            if span.high >= end {
                return Ok(end);
            }
            self.pass();
        }
        Ok(end)
    }

    // Passes the spans that end at or below a position.
    fn pass_to(&mut self, at: Position)
        ensures kept { (answers : spec_position.Position → Option spec_answer.Answer)
            → AnswersFrom S.to_come self.old at answers → AnswersFrom S.to_come self.new at answers }
        ensures ends { IfSome self.new.next (λ span. IsBelow at span.high) }
        ensures fewer { left_of S.left self.new ≤ left_of S.left self.old }
    {
        while let Some(span) = self.next {
            if at < span.high {
                return;
            }
            self.pass();
        }
    }

    // Passes the next span.
    fn pass(&mut self)
        requires { IsSome self.old.next }
        ensures gives { (list : List spec_span.Span) → S.to_come self.old.spans list
            → GivesFirstSpan (S.to_come self.new.spans) list self.new.next }
        ensures fewer { left_of S.left self.new < left_of S.left self.old }
    {
        self.next = self.spans.next_span();
    }
}

// The least position from `low` up to `high` at which one of the sequences says this, if that is looked for, and else the least at which
// none does; or `high`. No span that reaches beyond `high` is passed.
pub(crate) fn first_turn<S: SpanSource, A: TableAnswer>(
    sequences: &mut [SequenceSpans<S>],
    answer: &A,
    is_said: bool,
    low: Position,
    high: Position,
) -> Result<Position, AllocError>
    requires { IsBelow low high }
    ensures past { IfOk result (λ to. IsAtMost low to) }
    ensures upto { IfOk result (λ to. IsAtMost to high) }
    ensures kept { IfOk result (λ to. StillSay S.to_come (A.tell answer.now) (A.said answer.now) sequences.old sequences.new low to high) }
    ensures turns { IfOk result (TurnsAt is_said (OneSays S.to_come (A.tell answer.now) (A.said answer.now) sequences.old low)
        (NoneSays S.to_come (A.tell answer.now) (A.said answer.now) sequences.old low) low high) }
{
    if is_said {
        let to = first_said(sequences, answer, low, high)?;
        return Ok(to);
    }
    let to = first_unsaid(sequences, answer, low, high)?;
    Ok(to)
}

// The least position from `low` up to `high` at which none of the sequences says this, or `high`.
fn first_unsaid<S: SpanSource, A: TableAnswer>(
    sequences: &mut [SequenceSpans<S>],
    answer: &A,
    low: Position,
    high: Position,
) -> Result<Position, AllocError>
    requires { IsBelow low high }
    ensures past { IfOk result (λ to. IsAtMost low to) }
    ensures upto { IfOk result (λ to. IsAtMost to high) }
    ensures kept { IfOk result (λ to. StillSay S.to_come (A.tell answer.now) (A.said answer.now) sequences.old sequences.new low to high) }
    ensures said { IfOk result (λ to. (p : spec_position.Position) → IsAtMost low p → IsBelow p to
        → OneSays S.to_come (A.tell answer.now) (A.said answer.now) sequences.old low p) }
    ensures unsaid { IfOk result (λ to. IsBelow to high
        → NoneSays S.to_come (A.tell answer.now) (A.said answer.now) sequences.old low to) }
{
    let mut at = low;
    loop {
        let to = said_by_turns(sequences, answer, at, high)?;
        if to >= high {
            return Ok(to);
        }
        if at >= to {
            return Ok(at);
        }
        at = to;
    }
}

// Up to which position, from `at` up to `end`, the sequences say this, each asked once, in turn.
fn said_by_turns<S: SpanSource, A: TableAnswer>(
    sequences: &mut [SequenceSpans<S>],
    answer: &A,
    at: Position,
    end: Position,
) -> Result<Position, AllocError>
    requires { IsBelow at end }
    ensures past { IfOk result (λ to. IsAtMost at to) }
    ensures upto { IfOk result (λ to. IsAtMost to end) }
    ensures kept { IfOk result (λ to. StillSay S.to_come (A.tell answer.now) (A.said answer.now) sequences.old sequences.new at to end) }
    ensures said { IfOk result (λ to. (p : spec_position.Position) → IsAtMost at p → IsBelow p to
        → OneSays S.to_come (A.tell answer.now) (A.said answer.now) sequences.old at p) }
    ensures unsaid { IfOk result (λ to. IsAtMost to at
        → NoneSays S.to_come (A.tell answer.now) (A.said answer.now) sequences.old at at) }
    ensures fewer { IfOk result (λ to. IsBelow at to → IsBelow to end → all_left S.left sequences.new < all_left S.left sequences.old) }
{
    let mut to = at;
    for sequence in sequences.iter_mut() {
        to = sequence.said_to(answer, to, end)?;
    }
    Ok(to)
}

// The least position from `low` up to `high` at which one of the sequences says this, or `high`.
fn first_said<S: SpanSource, A: TableAnswer>(
    sequences: &mut [SequenceSpans<S>],
    answer: &A,
    low: Position,
    high: Position,
) -> Result<Position, AllocError>
    requires { IsAtMost low high }
    ensures past { IfOk result (λ to. IsAtMost low to) }
    ensures upto { IfOk result (λ to. IsAtMost to high) }
    ensures kept { IfOk result (λ _. StillSay S.to_come (A.tell answer.now) (A.said answer.now) sequences.old sequences.new low low high) }
    ensures unsaid { IfOk result (λ to. (p : spec_position.Position) → IsAtMost low p → IsBelow p to
        → NoneSays S.to_come (A.tell answer.now) (A.said answer.now) sequences.old low p) }
    ensures said { IfOk result (λ to. IsBelow to high
        → OneSays S.to_come (A.tell answer.now) (A.said answer.now) sequences.old low to) }
{
    let mut to = high;
    for sequence in sequences.iter_mut() {
        to = sequence.said_from(answer, low, to)?;
    }
    Ok(to)
}

// The later of two positions.
fn later(one: Position, other: Position) -> Position
    ensures past { IsAtMost one result × IsAtMost other result }
    ensures either { (result ≡ one) ⊎ (result ≡ other) }
{
    if one < other { other } else { one }
}
