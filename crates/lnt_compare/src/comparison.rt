//! Compares a table with the spans of a section, record by record.
ghost use Rattle.std.specs.Prelude.{◌≡◌, ℕ, List, [], ◌∷◌, length, IfOk, MatchBool, OnOk};
ghost use Rattle.lnt_spans.specs.declared.span.Span.{Span};
ghost use Rattle.lnt_spans.specs.Merged.{end_of_records};
ghost use Rattle.lnt_spans.specs.Spans.{AreInOrder};
ghost use Rattle.lnt_compare.specs.Outcomes.{IsOutcome};
ghost use Rattle.lnt_compare.specs.Progress.{Comes, HasCompared, HasPushed, IsPast};
ghost use Rattle.lnt_records.specs.Progress.{IsCutAfter};
ghost use Rattle.lnt_records.specs.Reading.{IsNarrow};
ghost use Rattle.lnt_records.specs.Table.{BeginsWith, Fields};

use crate::line_telling::LineTelling;
use crate::lines::TakesLines;
use crate::outcome::{Outcome, TableRead};
use csv::ByteRecord;
use lnt_records::{
    TableFault, TakeFault, TakesRecords, first_span, header_of, span_of, take_records,
};
use lnt_spans::{Difference, Merge, Position, Scope, SpanSource, Telling, Version};
use std::alloc::{AllocError, Global};

/// Compares the table in these bytes with the spans of a section, which come from a source, at the positions of this scope.
///
/// The records are read one by one, as `csv` reads them, and none is kept. `Table`: the bytes are a table, and this is what it is judged
/// to be in the fields of its version: in version 1 the spans' instruction sets and discriminators don't count. `Fault`: the bytes
/// are not a table. The first faulty record is reported, even if answers differed before it.
///
/// The caller makes sure that the spans are in order and none is empty. Fails only if memory runs out.
pub fn compare_records<S: SpanSource + Drop>(
    alloc: Global,
    table: &[u8],
    spans: S,
    scope: Scope,
) -> Result<Outcome<Difference>, AllocError>
    ensures { IfOk result (λ outcome. (list : List Span) → S.to_come spans list → AreInOrder list
        → IsOutcome scope table.now list outcome) }
{
    let Some(version) = header_of::<Version>(alloc, table)? else {
        return Ok(TableRead::Fault(TableFault::Header));
    };
    let comparison = Comparison::past((), spans, Position { address: 0, op: 0 }, 0);
    compare_after(alloc, table, &version, comparison, 1, scope)
}

// Compares the records of a text after its first one, as `csv` reads them, with the spans that a section has left. The comparison may
// have taken others before them; the first of these has this number.
pub(crate) fn compare_after<
    S: SpanSource + Drop,
    T: LineTelling + TakesRecords<Comparison<S, T::Difference, T::Memory>>,
>(
    alloc: Global,
    text: &[u8],
    telling: &T,
    mut comparison: Comparison<S, T::Difference, T::Memory>,
    number: u64,
    scope: Scope,
) -> Result<Outcome<T::Difference>, AllocError>
    requires first { (first : Fields) × IsNarrow first × BeginsWith text.now (first ∷ []) }
    requires right { T.is_right telling.now comparison }
    ensures { IfOk result (λ outcome. (first : Fields) (list : List Span) (passed : List Fields) (bytes : List ℕ) → IsNarrow first
        → BeginsWith text.now (first ∷ []) → IsCutAfter first text.now bytes passed → T.judges telling.now comparison list passed
        → number ≡ length passed
        → HasCompared scope S.to_come (T.tell telling.now) T.value_of (T.judges telling.now) (T.is_fault telling.now) list passed bytes
        outcome) }
{
    if let Some(fault) = take_records(alloc, text, telling, &mut comparison, number)? {
        return Ok(TableRead::Fault(fault));
    }
    match telling.finish(comparison.merge, scope) {
        Ok(judged) => Ok(TableRead::Table(judged)),
        Err(error) => Err(error),
    }
}

// The state of a comparison: the spans of a section, and what was found in the records of a table so far.
#[derive(Drop)]
pub(crate) struct Comparison<S, D, M> {
    pub(crate) merge: Merge<S, D>,
    // what is remembered of answers that were compared
    pub(crate) memory: M,
}

impl<S: SpanSource + Drop, D: Drop, M: Drop> Comparison<S, D, M> {
    // The state after the header and the records with which both sides begin. These end at `at`, and answer at this many addresses. The
    // source gives the section's spans after them.
    pub(crate) fn past(memory: M, spans: S, at: Position, answered: u128) -> Comparison<S, D, M>
        ensures memory { result.memory ≡ memory }
        ensures past { IsPast S.to_come spans result at answered }
    {
        Comparison {
            merge: Merge::past(spans, at, answered),
            memory,
        }
    }

    // Compares one more record, if it isn't empty, and doesn't begin below the end of the one before it.
    #[inline(always)]
    pub(crate) fn push<T: Telling<Difference = D, Memory = M>>(
        &mut self,
        telling: &T,
        low: Position,
        high: Position,
        held: T::Held,
    ) -> Result<bool, T::Refusal>
        requires sound { T.is_sound telling.now self.old.memory }
        ensures sound { OnOk result (T.is_sound telling.now self.new.memory) }
        ensures pushed { IfOk result (λ pushed. MatchBool pushed
            (HasPushed S.to_come (T.tell telling.now) T.value_of self.old self.new low high (T.said held))
            ((self.new ≡ self.old) × (Comes (end_of_records self.old.merge) low high → ⊥))) }
    {
        if !comes(self.merge.end(), low, high) {
            return Ok(false);
        }
        self.merge.push(telling, &mut self.memory, low, high, held)?;
        Ok(true)
    }
}

// Whether a record isn't empty, and doesn't begin below `at`.
#[inline(always)]
pub(crate) fn comes(at: Position, low: Position, high: Position) -> bool
    ensures { MatchBool result (Comes at low high) (Comes at low high → ⊥) }
{
    if low < at {
        return false;
    }
    low < high
}

impl<S: SpanSource + Drop> TakesRecords<Comparison<S, Difference, ()>> for Version {
    ghost use Rattle.lnt_spans.specs.Answers.{in_version};
    ghost use Rattle.lnt_records.specs.Faults.{IsFault};
    ghost use Rattle.lnt_compare.specs.Comparisons.{tables_by_number};
    ghost use Rattle.lnt_compare.specs.Progress.{Judges};

    ghost is_right = { λ version comparison. Unit {0} };

    ghost judges = { λ version comparison section records.
        Judges S.to_come tables_by_number (in_version version) version comparison section records };

    ghost is_fault = { λ version bytes fault. IsFault bytes fault };

    fn take(
        &self,
        comparison: &mut Comparison<S, Difference, ()>,
        row: &ByteRecord,
    ) -> Result<(), TakeFault> {
        let span = span_of(row, *self)?;
        match comparison.push(self, span.low, span.high, span.answer) {
            Ok(true) => Ok(()),
            Ok(false) => Err(TakeFault::Order),
            Err(never) => match never {},
        }
    }
}

impl<S: SpanSource + Drop> TakesLines<Comparison<S, Difference, ()>> for Version {
    #[inline(always)]
    fn take_line(
        &self,
        comparison: &mut Comparison<S, Difference, ()>,
        _last: &mut Vec<u8>,
        text: &[u8],
    ) -> Result<Option<usize>, AllocError> {
        let Some((span, length)) = first_span(text, *self) else {
            return Ok(None);
        };
        match comparison.push(self, span.low, span.high, span.answer) {
            Ok(true) => Ok(Some(length)),
            Ok(false) => Ok(None),
            Err(never) => match never {},
        }
    }
}
