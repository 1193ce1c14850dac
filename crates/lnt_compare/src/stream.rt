//! Compares a table with the spans of a section, both as they come.
ghost use Rattle.std.specs.Prelude.{◌-◌, ◌^◌, ◌<◌, ◌++◌, ◌∷◌, [], ℕ, List, IfOk, IfSome};
ghost use Rattle.lnt_spans.specs.declared.span.Span.{Span};
ghost use Rattle.lnt_spans.specs.Spans.{AreInOrder};
ghost use Rattle.lnt_compare.specs.Outcomes.{IsOutcome};
ghost use Rattle.lnt_compare.specs.Progress.{HasComparedLines};
ghost use Rattle.lnt_compare.specs.declared.comparison.Comparison.{Comparison};
ghost use Rattle.lnt_compare.specs.declared.remaining.Remaining.{Remaining};
ghost use Rattle.lnt_records.specs.Reading.{IsNarrow};
ghost use Rattle.lnt_records.specs.Table.{BeginsWith, Fields, column_names};
ghost use Rattle.lnt_records.specs.Written.{line_text};
ghost use Rattle.lnt_io.specs.Stopping.{CountsFailure, IsTooLongOn};

use crate::comparison::{Comparison, compare_after};
use crate::lines::{TakesLines, push_lines};
use crate::outcome::Outcome;
use crate::passing::pass_spans;
use crate::remaining::Remaining;
use crate::window::Window;
use lnt_io::{Source, Stop};
use lnt_spans::{Difference, Scope, SpanSource, Telling, Version};
use std::alloc::Global;

/// Compares a table by number of this version with the spans of a section, both as they come, at the positions of this scope. The header,
/// a line of its own, was passed; `window` has the bytes after it that were taken from the source so far.
///
/// The outcome is `Fault` if the bytes are not a table: the first faulty record is reported, even if answers differed before it.
/// `Table`: all records are well formed, and this is what the table is judged to be in the fields of its version: in version 1 the spans'
/// instruction sets and discriminators don't count.
///
/// As long as the table's lines are those that `write_canonical` writes for the spans, they are compared as text and not
/// parsed. The lines from there on are parsed one by one, as long as each is a well-formed record on a line of its own with
/// nothing in quotes; the records after these are read by `csv`, from bytes that are held all at once. So for a table on
/// such lines neither the table nor the spans are held: it takes one block of memory.
///
/// The caller makes sure that the spans are in order and none is empty, and that the number of the source's failures is below
/// `u64::MAX`. Stops with `Memory`; with `Read` only if the source failed; and with `TooLong` only if the source has more bytes than it
/// may give. The table is read to its end before a fault is reported.
pub fn compare_lines<S: SpanSource + Drop, T: Source>(
    alloc: Global,
    table: &mut T,
    window: Window,
    version: Version,
    spans: S,
    scope: Scope,
) -> Result<Outcome<Difference>, Stop>
    requires { T.failures table.old < 2 ^ 64 - 1 }
    ensures ok { IfOk result (λ outcome. (list : List Span) → S.to_come spans list → AreInOrder list
        → IfSome (T.remaining table.old) (λ more. IsOutcome scope (line_text (column_names version) ++ (window ++ more)) list
        outcome)) }
    ensures failures { CountsFailure ⟦<T as Source>⟧ table.old table.new result Stop.Read }
    ensures too_long { IsTooLongOn ⟦<T as Source>⟧ table.old table.new result Stop.TooLong }
{
    compare_coming(alloc, table, window, &version, (), spans, scope)
}

// Compares a table with the spans of a section, both as they come, by number or by path. `memory` is what is remembered of answers at
// first. The caller makes sure that it is sound, that a comparison with a sound memory is right, and that the first record of each text
// that begins with the header has no more fields than any table.
#[inline(always)]
pub(crate) fn compare_coming<
    S: SpanSource + Drop,
    L: TakesLines<Comparison<Remaining<S>, <L as Telling>::Difference, <L as Telling>::Memory>>,
    T: Source,
>(
    alloc: Global,
    table: &mut T,
    mut window: Window,
    telling: &L,
    mut memory: L::Memory,
    spans: S,
    scope: Scope,
) -> Result<Outcome<L::Difference>, Stop>
    requires failures { T.failures table.old < 2 ^ 64 - 1 }
    requires sound { L.is_sound telling.now memory }
    requires right { (state : Comparison (Remaining S) L.Difference L.Memory) → L.is_sound telling.now state.memory
        → L.is_right telling.now state }
    requires first { (rest : List ℕ) → (first : Fields) × IsNarrow first
        × BeginsWith (L.plain.line (L.plain.names (L.version telling.now)) ++ rest) (first ∷ []) }
    ensures ok { IfOk result (λ outcome. HasComparedLines scope S.to_come ⟦<Remaining<S> as SpanSource>⟧.to_come L.format L.plain
        (L.tell telling.now) (L.told telling.now) L.value_of (L.version telling.now) (L.judges telling.now) (L.is_fault telling.now)
        spans (T.remaining table.old) (T.left table.old) window outcome) }
    ensures failures { CountsFailure ⟦<T as Source>⟧ table.old table.new result Stop.Read }
    ensures too_long { IsTooLongOn ⟦<T as Source>⟧ table.old table.new result Stop.TooLong }
{
    let passed = pass_spans::<S, L, T, Outcome<L::Difference>>(
        alloc,
        spans,
        telling,
        &mut memory,
        table,
        &mut window,
    )?;
    let mut state = Comparison::past(memory, passed.spans, passed.end, passed.answered);
    let next = push_lines(alloc, telling, &mut state, passed.count, table, &mut window)?;
    let text = window.rest_after(alloc, telling.header(), table)?;
    let outcome = compare_after(alloc, &text, telling, state, next, scope)?;
    Ok(outcome)
}
