//! Compares a table with a good section at every position.
ghost use Rattle.std.specs.Prelude.{◌-◌, ◌^◌, ◌<◌, [], map, Option, IfOk, IfSome};
ghost use Rattle.lnt_io.specs.declared.stop.Stop.TheVariants.{Read, TooLong};
ghost use Rattle.lnt_spans.specs.declared.position.Position.{Position};
ghost use Rattle.lnt_compare.specs.Differing.{IsDiffering, IsStarted, HasFoundStretchesByPath};
ghost use Rattle.lnt_sequences.specs.Sequences.{line_answer};
ghost use Rattle.lnt_compare.specs.Held.{held_span};
ghost use Rattle.lnt_records.specs.PathSpans.{PathAnswer, StandInOrder, path_span_answer};
ghost use Rattle.lnt_lines.specs.Indexed.{OfUnits};
ghost use Rattle.lnt_table.specs.Headline.{indexed_path, told_path};
ghost use Rattle.lnt_table.specs.AnyDiffering.{IsAnyDiffering, IsStartedAny};
ghost use Rattle.lnt_io.specs.Stopping.{CountsFailure, IsTooLongOn};

use crate::kinds::OfKind;
use lnt_compare::{
    DifferencesByPath, Differing, HeldSpan, HeldTable, Remaining, TableRead, Window, differ_lines,
    differ_records, hold_table, pass_header,
};
use lnt_io::{Source, Stop};
use lnt_lines::{Index, Spans};
use lnt_records::{PathVersion, TableFault};
use lnt_spans::{SpanList, SpanSource, Version};
use std::alloc::{AllocError, Global};

/// Compares the address table from a source with the units that an index was made of, at every position.
///
/// If the bytes aren't a table, it returns their first fault, as `check` does. Otherwise it returns the stretches at which
/// the answers of the table and of the units' rows differ, in the fields of the table's version;
/// `Differences::next_difference` returns one after another. A stretch is a longest run of consecutive positions at which
/// the two answers differ and neither of them changes. If there is none, `check` answers Yes; otherwise the first begins
/// with the difference that `check` reports.
///
/// Stops as `check` does. The caller ensures that the number of the source's failures is below `u64::MAX`.
pub fn differences<'i, T: Source>(
    alloc: Global,
    table: &mut T,
    index: &'i Index<'_>,
) -> Result<Differing<Spans<'i>>, Stop>
    requires { T.failures table.old < 2 ^ 64 - 1 }
    ensures ok { IfOk result (λ differing. OfUnits index.entry.now (λ selection. IfSome (T.remaining table.old) (λ text.
        IsDiffering ⟦<Remaining<Spans<'i>> as SpanSource>⟧.to_come ⟦<SpanList as SpanSource>⟧.to_come text (line_answer selection)
        differing))) }
    ensures started { IfOk result (λ differing. IsStarted ⟦<Remaining<Spans<'i>> as SpanSource>⟧.to_come ⟦<SpanList as SpanSource>⟧.to_come
        differing) }
    ensures failures { CountsFailure ⟦<T as Source>⟧ table.old table.new result Stop.Read }
    ensures too_long { IsTooLongOn ⟦<T as Source>⟧ table.old table.new result Stop.TooLong }
{
    match differences_any(alloc, table, index)? {
        OfKind::Numbered(differing) => Ok(differing),
        OfKind::ByPath(_) => Ok(TableRead::Fault(TableFault::Header)),
    }
}

/// The answer of `differences_any`.
///
/// `Numbered` has the stretches, one after another, or the first fault of the table's records. `ByPath` has the spans of the table by
/// path, which `differences_by_path` compares, or its first fault: `Fault` of the header if it begins with that of neither version 3
/// nor 4.
pub type AnyDiffering<S> = OfKind<Differing<S>, HeldTable>;

/// Compares the address table of any version from a source with the units that an index was made of, at every position.
///
/// For a table with the header of version 1 or 2 it returns what `differences` returns. For any other table it reads all
/// bytes, and returns the spans of the table by path, which are in order, or its first fault.
///
/// Stops as `check` does. The caller ensures that the number of the source's failures is below `u64::MAX`.
pub fn differences_any<'i, T: Source>(
    alloc: Global,
    table: &mut T,
    index: &'i Index<'_>,
) -> Result<AnyDiffering<Spans<'i>>, Stop>
    requires { T.failures table.old < 2 ^ 64 - 1 }
    ensures ok { IfOk result (λ any. OfUnits index.entry.now (λ selection. IfSome (T.remaining table.old) (λ text.
        IsAnyDiffering ⟦<Remaining<Spans<'i>> as SpanSource>⟧.to_come ⟦<SpanList as SpanSource>⟧.to_come selection text any))) }
    ensures started { IfOk result (λ any. IsStartedAny ⟦<Remaining<Spans<'i>> as SpanSource>⟧.to_come ⟦<SpanList as SpanSource>⟧.to_come
        any) }
    ensures failures { CountsFailure ⟦<T as Source>⟧ table.old table.new result Stop.Read }
    ensures too_long { IsTooLongOn ⟦<T as Source>⟧ table.old table.new result Stop.TooLong }
{
    let mut window = Window::of(alloc, table)?;
    if let Some(version) = pass_header(&mut window, Version::One, Version::Two) {
        let differing = differ_lines(alloc, table, window, version, index.spans())?;
        return Ok(OfKind::Numbered(differing));
    }
    let text = window.rest_after(alloc, &[], table)?;
    let any = differ_text(alloc, &text, index)?;
    Ok(any)
}

// Does the same for a table whose bytes are all in memory.
fn differ_text<'i>(
    alloc: Global,
    text: &[u8],
    index: &'i Index<'_>,
) -> Result<AnyDiffering<Spans<'i>>, AllocError>
    ensures any { IfOk result (λ any. OfUnits index.entry.now (λ selection.
        IsAnyDiffering ⟦<Remaining<Spans<'i>> as SpanSource>⟧.to_come ⟦<SpanList as SpanSource>⟧.to_come selection text.now any)) }
    ensures started { IfOk result (λ any. IsStartedAny ⟦<Remaining<Spans<'i>> as SpanSource>⟧.to_come ⟦<SpanList as SpanSource>⟧.to_come
        any) }
{
    let differing = differ_records(alloc, text, index.spans())?;
    if let TableRead::Fault(TableFault::Header) = differing {
        let held = hold_table(alloc, text)?;
        return Ok(OfKind::ByPath(held));
    }
    Ok(OfKind::Numbered(differing))
}

/// The stretches at which two answers differ, with the full path of each file: those of a table by path with these spans, in
/// this version, and those of the rows of the units that an index was made of. `DifferencesByPath::next_difference` returns
/// them one after another; it takes `IndexPaths::of` the same index. The caller ensures that the spans are in order, as those
/// of a `HeldTable` are.
pub fn differences_by_path<'t, 'i>(
    index: &'i Index<'_>,
    spans: &'t [HeldSpan],
    version: PathVersion,
) -> DifferencesByPath<'t, Spans<'i>>
    ensures by_units { OfUnits index.entry.now (λ selection. StandInOrder (map held_span spans.entry.now)
        → HasFoundStretchesByPath ⟦<Spans<'i> as SpanSource>⟧.to_come (indexed_path index.entry.now) result
        (told_path version index.entry.now selection) (path_span_answer (map held_span spans.entry.now)) []) }
    ensures started { StandInOrder (map held_span spans.entry.now)
        → (by_section : Position → Option PathAnswer) × (by_table : Position → Option PathAnswer)
        × HasFoundStretchesByPath ⟦<Spans<'i> as SpanSource>⟧.to_come (indexed_path index.entry.now) result by_section by_table [] }
{
    DifferencesByPath::of(index.spans(), spans, version)
}
