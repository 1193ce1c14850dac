//! Compares a table with the spans of a section at every position.
ghost use Rattle.std.specs.Prelude.{◌≡◌, ◌-◌, ◌^◌, ◌<◌, ◌++◌, ℕ, List, Option, IfOk, IfSome};
ghost use Rattle.lnt_spans.specs.declared.span.Span.{Span};
ghost use Rattle.lnt_spans.specs.declared.answer.Answer.{Answer};
ghost use Rattle.lnt_spans.specs.declared.position.Position.{Position as Place};
ghost use Rattle.lnt_spans.specs.Spans.{AreInOrder, span_answer};
ghost use Rattle.lnt_compare.specs.Differing.{IsDiffering, IsStarted};
ghost use Rattle.lnt_compare.specs.Progress.{IsContinuedBy, IsGathered};
ghost use Rattle.lnt_io.specs.Stopping.{CountsFailure, IsTooLongOn};
ghost use Rattle.lnt_records.specs.Table.{column_names};
ghost use Rattle.lnt_records.specs.Written.{line_text};

use crate::gathering::gather_after;
use crate::outcome::TableRead;
use crate::passing::pass_spans;
use crate::remaining::Remaining;
use crate::window::Window;
use lnt_io::{Source, Stop};
use lnt_records::{TableFault, TableVersion, header_of};
use lnt_spans::{Differences, Position, Span, SpanList, SpanSource, Version};
use std::alloc::{AllocError, Global};

/// What a comparison at every position comes to: this gives the stretches at which a table and the section answer differently, one
/// after another.
pub type Differing<S> = TableRead<Differences<Remaining<S>, SpanList>>;

/// Compares a table by number of this version with the spans of a section, at every position. The header, a line of its own, was passed;
/// `window` has the bytes after it that were taken from the source so far.
///
/// `Fault`: the bytes are not a table, as in `compare_lines`. `Table`: they are one, and it gives the stretches at which the
/// two answer differently, one after another, in the fields of the table's version.
///
/// As long as the table's lines are those that `write_canonical` writes for the spans, they are compared as text, neither
/// parsed nor held. The records from there on are read by `csv` from bytes that are held all at once, and their spans are held:
/// whether all records are well formed is known only at the end of the table.
///
/// The caller makes sure of what `compare_lines` asks for. Stops as it does.
pub fn differ_lines<S: SpanSource + Drop, T: Source>(
    alloc: Global,
    table: &mut T,
    mut window: Window,
    version: Version,
    spans: S,
) -> Result<Differing<S>, Stop>
    requires failures { T.failures table.old < 2 ^ 64 - 1 }
    requires spans { (list : List Span) × S.to_come spans list × AreInOrder list }
    ensures ok { IfOk result (λ differing. (list : List Span) (section : Place → Option Answer) → S.to_come spans list → AreInOrder list
        → ((p : Place) → span_answer list p ≡ section p) → IfSome (T.remaining table.old) (λ more.
        IsDiffering ⟦<Remaining<S> as SpanSource>⟧.to_come ⟦<SpanList as SpanSource>⟧.to_come
        (line_text (column_names version) ++ (window ++ more)) section differing)) }
    ensures started { IfOk result (λ differing. IsStarted ⟦<Remaining<S> as SpanSource>⟧.to_come ⟦<SpanList as SpanSource>⟧.to_come
        differing) }
    ensures failures { CountsFailure ⟦<T as Source>⟧ table.old table.new result Stop.Read }
    ensures too_long { IsTooLongOn ⟦<T as Source>⟧ table.old table.new result Stop.TooLong }
{
    let passed = pass_spans::<S, Version, T, Differing<S>>(
        alloc,
        spans,
        &version,
        &mut (),
        table,
        &mut window,
    )?;
    let text = window.rest_after(alloc, version.header_line(), table)?;
    let gathered = gather_after(alloc, &text, version, passed.end, passed.count);
    let differing = differ_after(gathered, passed.spans, version, passed.end, passed.answered)?;
    Ok(differing)
}

/// Compares the table in these bytes with the spans of a source, as `differ_lines` does. Fails only if memory runs out.
pub fn differ_records<S: SpanSource + Drop>(
    alloc: Global,
    text: &[u8],
    spans: S,
) -> Result<Differing<S>, AllocError>
    requires { (list : List Span) × S.to_come spans list × AreInOrder list }
    ensures started { IfOk result (λ differing. IsStarted ⟦<Remaining<S> as SpanSource>⟧.to_come ⟦<SpanList as SpanSource>⟧.to_come
        differing) }
    ensures differing { IfOk result (λ differing. (list : List Span) (section : Place → Option Answer) → S.to_come spans list
        → AreInOrder list → ((p : Place) → span_answer list p ≡ section p)
        → IsDiffering ⟦<Remaining<S> as SpanSource>⟧.to_come ⟦<SpanList as SpanSource>⟧.to_come text.now section differing) }
{
    let Some(version) = header_of::<Version>(alloc, text)? else {
        return Ok(TableRead::Fault(TableFault::Header));
    };
    let at = Position { address: 0, op: 0 };
    let gathered = gather_after(alloc, text, version, at, 1);
    differ_after(gathered, Remaining::all(spans), version, at, 0)
}

// Starts the comparison after the spans with which both sides begin: the spans gathered from the table's other records, with
// the section's other spans.
fn differ_after<S: SpanSource + Drop>(
    gathered: Result<TableRead<Vec<Span>>, AllocError>,
    spans: Remaining<S>,
    version: Version,
    at: Position,
    answered: u128,
) -> Result<Differing<S>, AllocError>
    ensures { IfOk result (λ differing. (bytes : List ℕ) (section : Place → Option Answer) (table rest : List Span)
        → IfOk gathered (IsGathered bytes version table) → IsContinuedBy version section table rest at answered
        → ⟦<Remaining<S> as SpanSource>⟧.to_come spans rest
        → IsDiffering ⟦<Remaining<S> as SpanSource>⟧.to_come ⟦<SpanList as SpanSource>⟧.to_come bytes section differing) }
{
    match gathered? {
        TableRead::Fault(fault) => Ok(TableRead::Fault(fault)),
        TableRead::Table(records) => {
            let records = SpanList::of(records);
            let differences = Differences::past(spans, records, version, at, answered);
            Ok(TableRead::Table(differences))
        }
    }
}
