//! The spans of a sequence, made one after another from its rows.
ghost use Rattle.std.specs.Prelude.{◌<◌, List, Some, IfSome};
ghost use Rattle.lnt_spans.specs.declared.span.Span as spec;
ghost use Rattle.lnt_sequences.specs.RowSpans.{GivesSpan, HasSpans, rows_left};

use crate::collected::{answer_of, position_of};
use lnt_machine::{Row, SequenceRows};
use lnt_spans::Span;

/// The next span of a sequence: from a row up to the next one at a higher position. `None` if the rows have ended. `unit`
/// is the offset of the sequence's unit, and `last` the last row that came, at first `None`. Allocates nothing.
#[inline(always)]
pub fn next_span(unit: u64, rows: &mut SequenceRows<'_>, last: &mut Option<Row>) -> Option<Span>
    ensures fewer { IfSome result (λ _. rows_left rows.new < rows_left rows.old) }
    ensures gives { (spans : List spec.Span) → HasSpans unit spans rows.old last.old → GivesSpan unit spans result rows.new last.new }
{
    if last.is_none() {
        *last = rows.next();
    }
    match last {
        Some(row) => span_after(unit, rows, row),
        None => None,
    }
}

// The next span from a row on. The last row that comes takes the place of `row`.
#[inline(always)]
fn span_after(unit: u64, rows: &mut SequenceRows<'_>, row: &mut Row) -> Option<Span>
    ensures fewer { IfSome result (λ _. rows_left rows.new < rows_left rows.old) }
    ensures gives { (spans : List spec.Span) → HasSpans unit spans rows.old (Some row.old)
        → GivesSpan unit spans result rows.new (Some row.new) }
{
    loop {
        let low = position_of(row);
        let answer = answer_of(unit, row);
        if !rows.next_into(row) {
            return None;
        }
        let high = position_of(row);
        if low < high {
            return Some(Span { low, high, answer });
        }
    }
}
