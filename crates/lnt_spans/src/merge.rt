//! Judges whether a table answers as a section does, and finds where it first doesn't, in one pass over both.
ghost use Rattle.std.specs.Prelude.{◌≡◌, ◌+◌, ◌^◌, ◌≤◌, List, Option, IfOk, IfSome, MatchOption, None, OnOk, Some, option_map};
ghost use Rattle.lnt_spans.specs.declared.answer.Answer.{Answer as SpecAnswer};
ghost use Rattle.lnt_spans.specs.declared.position.Position as spec_position;
ghost use Rattle.lnt_spans.specs.declared.span.Span as spec;
ghost use Rattle.lnt_spans.specs.Remaining.{IsAhead};
ghost use Rattle.lnt_spans.specs.Merged.{AnswersNothing, AreCounted, ArePassed, HasGap, HasMerged, HasOneMore, IsJudged};
ghost use Rattle.lnt_spans.specs.Merged.{IsMistakenIn, Says, answer_told, end_of_records};
ghost use Rattle.lnt_spans.specs.declared.scope.Scope.TheVariants.{All, Answered};
ghost use Rattle.lnt_spans.specs.Positions.{IsAtMost, IsBelow};

use crate::ahead::Ahead;
use crate::counts::{add_between, count_left};
use crate::position::Position;
use crate::scope::{Coverage, Scope};
use crate::source::SpanSource;
use crate::span::Span;
use crate::telling::Telling;

/// Compares the spans of a section, which come one by one from a source, with the records of a table, which come one by one too.
///
/// Contracts see which spans and records were compared (`HasMerged`): all spans of the section, with the records pushed so far. A
/// merge keeps no record, only one span, the first gap of the table and its first mistake.
#[derive(Drop)]
pub struct Merge<S, D> {
    // the spans that still matter at `at` and above; the next one is cut to begin no lower
    spans: Ahead<S>,
    // the end of the last record
    at: Position,
    // the first difference, if the table doesn't answer there, and it lies below the first mistake
    gap: Option<D>,
    // the first position below `at` at which the table answers, and the section otherwise or not at all
    mistake: Option<D>,
    // the addresses below `at` at which the section answers and the table doesn't, if there is no mistake
    missed: u128,
    // the addresses at which the table answers
    answered: u128,
}

impl<S: SpanSource + Drop, D: Drop> Merge<S, D> {
    /// No difference was found below `at`, where the table answers at this many addresses. The source gives the spans from there on.
    pub fn past(spans: S, at: Position, answered: u128) -> Merge<S, D>
        ensures at { end_of_records result ≡ at }
        ensures gap { result.gap ≡ None }
        ensures mistake { result.mistake ≡ None }
        ensures missed { result.missed ≡ 0 }
        ensures answered { result.answered ≡ answered }
        ensures ahead { (list : List spec.Span) → S.to_come spans list → IsAhead S.to_come result.spans list }
    {
        Merge {
            spans: Ahead::of(spans),
            at,
            gap: None,
            mistake: None,
            missed: 0,
            answered,
        }
    }

    /// The end of the last record.
    #[inline(always)]
    pub fn end(&self) -> Position
        ensures { result ≡ end_of_records self.now }
    {
        self.at
    }

    /// Compares one more record. The caller makes sure that it isn't empty, and doesn't begin below the end of the one before it.
    #[inline(always)]
    pub fn push<T: Telling<Difference = D>>(
        &mut self,
        telling: &T,
        memory: &mut T::Memory,
        low: Position,
        high: Position,
        held: T::Held,
    ) -> Result<(), T::Refusal>
        requires sound { T.is_sound telling.now memory.old }
        requires past { IsAtMost (end_of_records self.old) low }
        requires holds { IsBelow low high }
        ensures at { end_of_records self.new ≡ high }
        ensures sound { OnOk result (T.is_sound telling.now memory.new) }
        ensures merged { OnOk result ((spans : List spec.Span) (by_table by_more : spec_position.Position → Option T.Told)
            → HasMerged S.to_come (T.tell telling.now) T.value_of self.old spans by_table
            → HasOneMore by_table by_more (end_of_records self.old) low high (T.said held)
            → HasMerged S.to_come (T.tell telling.now) T.value_of self.new spans by_more) }
    {
        self.at = high;
        add_between(&mut self.answered, low, high);
        if self.mistake.is_some() {
            return Ok(());
        }
        pass_gap(
            telling,
            &mut self.spans,
            &mut self.gap,
            &mut self.missed,
            low,
        )?;
        self.mistake = first_mistake(telling, memory, &mut self.spans, low, high, held)?;
        Ok(())
    }

    /// Once no record follows: how much of the section the table answers, if it is right in this scope; or `Err` with the least
    /// position of the scope at which it isn't.
    pub fn finish<T: Telling<Difference = D>>(
        self,
        telling: &T,
        scope: Scope,
    ) -> Result<Result<Coverage, D>, T::Refusal>
        ensures { IfOk result (λ judged. (spans : List spec.Span) (by_table : spec_position.Position → Option T.Told)
            → HasMerged S.to_come (T.tell telling.now) T.value_of self spans by_table
            → IsJudged scope T.value_of (answer_told (T.tell telling.now) spans) by_table judged) }
    {
        match scope {
            Scope::All => self.finish_all(telling),
            Scope::Answered => Ok(self.finish_answered::<T>()),
        }
    }

    // Does so for all positions.
    fn finish_all<T: Telling<Difference = D>>(
        self,
        telling: &T,
    ) -> Result<Result<Coverage, D>, T::Refusal>
        ensures { IfOk result (λ judged. (spans : List spec.Span) (by_table : spec_position.Position → Option T.Told)
            → HasMerged S.to_come (T.tell telling.now) T.value_of self spans by_table
            → IsJudged All T.value_of (answer_told (T.tell telling.now) spans) by_table judged) }
    {
        if let Some(first) = self.gap.or(self.mistake) {
            return Ok(Err(first));
        }
        if let Some(span) = self.spans.next {
            let first = telling.difference(span.low, None, Some(span.answer))?;
            return Ok(Err(first));
        }
        Ok(Ok(Coverage {
            answered: self.answered,
            all: self.answered,
        }))
    }

    // Does so for the positions at which the table answers. `T` says what the table contains of an answer.
    fn finish_answered<T: Telling<Difference = D>>(self) -> Result<Coverage, D>
        ensures { (tell : SpecAnswer → T.Told) (spans : List spec.Span) (by_table : spec_position.Position → Option T.Told)
            → HasMerged S.to_come tell T.value_of self spans by_table
            → IsJudged Answered T.value_of (answer_told tell spans) by_table result }
    {
        let Merge {
            spans,
            mistake,
            missed,
            answered,
            ..
        } = self;
        if let Some(mistake) = mistake {
            return Err(mistake);
        }
        let missed = count_left(spans, missed);
        Ok(Coverage {
            answered,
            all: sum(answered, missed),
        })
    }
}

// The sum of two numbers of addresses.
fn sum(one: u128, other: u128) -> u128
    ensures { one + other ≤ 2 ^ 64 → result ≡ one + other }
{
    one.saturating_add(other)
}

// Passes the spans of a section in a gap of the table, up to its end, and counts their addresses. If they are the first, `gap` is
// their first difference. `spans` is left with those that matter from that end on.
#[inline(always)]
fn pass_gap<S: SpanSource, T: Telling>(
    telling: &T,
    spans: &mut Ahead<S>,
    gap: &mut Option<T::Difference>,
    missed: &mut u128,
    end: Position,
) -> Result<(), T::Refusal>
    ensures { OnOk result ((list : List spec.Span) (by_table : spec_position.Position → Option T.Told) (at : spec_position.Position)
        → IsAtMost at end → AnswersNothing by_table at end
        → AreCounted (T.tell telling.now) list by_table at (IsAhead S.to_come spans.old) missed.old
        → HasGap (option_map T.value_of gap.old) (T.tell telling.now) list by_table at
        → AreCounted (T.tell telling.now) list by_table end (IsAhead S.to_come spans.new) missed.new
        × HasGap (option_map T.value_of gap.new) (T.tell telling.now) list by_table end) }
{
    let Some(span) = begun_below(spans.next, end) else {
        return Ok(());
    };
    if gap.is_none() {
        *gap = Some(telling.difference(span.low, None, Some(span.answer))?);
    }
    pass_below::<S, T>(spans, missed, end);
    Ok(())
}

// Passes the spans of a section below `end`, where the table doesn't answer, and counts their addresses. `T` says what the table
// contains of an answer.
fn pass_below<S: SpanSource, T: Telling>(spans: &mut Ahead<S>, missed: &mut u128, end: Position)
    ensures { (tell : SpecAnswer → T.Told) (list : List spec.Span) (by_table : spec_position.Position → Option T.Told)
        (at : spec_position.Position) → IsAtMost at end → AnswersNothing by_table at end
        → AreCounted tell list by_table at (IsAhead S.to_come spans.old) missed.old
        → AreCounted tell list by_table end (IsAhead S.to_come spans.new) missed.new }
{
    while let Some(span) = begun_below(spans.next, end) {
        if end < span.high {
            add_between(missed, span.low, end);
            spans.next = Some(Span { low: end, ..span });
            return;
        }
        add_between(missed, span.low, span.high);
        spans.pass();
    }
}

// The first mistake of a record, from its low end up to its high end, of which this is `low`. If there is none, `spans` is left with
// the spans that matter from the high end on.
#[inline(always)]
fn first_mistake<S: SpanSource, T: Telling>(
    telling: &T,
    memory: &mut T::Memory,
    spans: &mut Ahead<S>,
    low: Position,
    high: Position,
    held: T::Held,
) -> Result<Option<T::Difference>, T::Refusal>
    requires sound { T.is_sound telling.now memory.old }
    requires holds { IsBelow low high }
    ensures sound { OnOk result (T.is_sound telling.now memory.new) }
    ensures mistaken { IfOk result (λ found. (list : List spec.Span) (by_table : spec_position.Position → Option T.Told)
        → Says by_table low high (T.said held)
        → ArePassed (T.tell telling.now) list by_table low (IsAhead S.to_come spans.old)
        → MatchOption found (ArePassed (T.tell telling.now) list by_table high (IsAhead S.to_come spans.new))
        (λ mistake. IsMistakenIn (T.tell telling.now) list by_table low high (T.value_of mistake))) }
{
    let mut at = low;
    let mut recalled = telling.nothing();
    while at < high {
        let Some(span) = begun_by(spans.next, at) else {
            let mistake = telling.difference(at, Some(held), None)?;
            return Ok(Some(mistake));
        };
        if !telling.is_said(memory, &mut recalled, &span.answer, held)? {
            let mistake = telling.difference(at, Some(held), Some(span.answer))?;
            return Ok(Some(mistake));
        }
        if high < span.high {
            spans.next = Some(Span { low: high, ..span });
            return Ok(None);
        }
        spans.pass();
        at = span.high;
    }
    Ok(None)
}

// The span, if there is one and it begins below a position.
#[inline(always)]
fn begun_below(next: Option<Span>, at: Position) -> Option<Span>
    ensures { MatchOption result (IfSome next (λ span. IsAtMost at span.low)) (λ span. (next ≡ Some span) × IsBelow span.low at) }
{
    next.filter(|span| span.low < at)
}

// The span, if there is one and it begins at or below a position.
#[inline(always)]
fn begun_by(next: Option<Span>, at: Position) -> Option<Span>
    ensures { MatchOption result (IfSome next (λ span. IsBelow at span.low)) (λ span. (next ≡ Some span) × IsAtMost span.low at) }
{
    next.filter(|span| span.low <= at)
}
