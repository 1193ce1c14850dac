//! Compares a table by path with the spans of a section, both as they come.
ghost use Rattle.std.specs.Prelude.{◌-◌, ◌^◌, ◌<◌, ◌++◌, List, IfOk, IfSome};
ghost use Rattle.lnt_records.specs.Written.{line_text};
ghost use Rattle.lnt_spans.specs.declared.span.Span as spec;
ghost use Rattle.lnt_spans.specs.Spans.{AreInOrder};
ghost use Rattle.lnt_records.specs.PathSpans.{spans_by_path};
ghost use Rattle.lnt_compare.specs.Outcomes.{IsPathOutcome};
ghost use Rattle.lnt_records.specs.PathTables.{path_column_names};
ghost use Rattle.lnt_io.specs.Stopping.{CountsFailure, IsTooLongOn};

use crate::outcome::Outcome;
use crate::path_tables::answer::DifferenceByPath;
use crate::path_tables::telling::{PathMemory, PathTelling};
use crate::stream::compare_coming;
use crate::window::Window;
use lnt_io::{Source, Stop};
use lnt_records::{PathVersion, Paths};
use lnt_spans::{Scope, SpanSource};
use std::alloc::Global;
use std::marker::PhantomData;

/// Compares a table by path of this version with the spans of a section, as both come, at the positions of this scope. The header, a
/// line of its own, was passed; `window` has the bytes after it that were taken from the source so far.
///
/// The outcome is that of `compare_by_path` for all bytes of the table. As long as its lines are those that `write_by_path` writes
/// for the spans, they are compared as text and not parsed. The lines from there on are taken as `compare_lines` takes them.
///
/// The caller makes sure of what `compare_lines` asks for. Stops as it does.
pub fn compare_lines_by_path<S: SpanSource + Drop, P: Paths, T: Source>(
    alloc: Global,
    table: &mut T,
    window: Window,
    version: PathVersion,
    spans: S,
    paths: &P,
    scope: Scope,
) -> Result<Outcome<DifferenceByPath>, Stop>
    requires { T.failures table.old < 2 ^ 64 - 1 }
    ensures ok { IfOk result (λ outcome. (list : List spec.Span) → S.to_come spans list → AreInOrder list
        → IfSome (T.remaining table.old) (λ more. IsPathOutcome scope (line_text (path_column_names version) ++ (window ++ more))
        (λ version. spans_by_path version (P.bytes_of paths.now) list) outcome)) }
    ensures failures { CountsFailure ⟦<T as Source>⟧ table.old table.new result Stop.Read }
    ensures too_long { IsTooLongOn ⟦<T as Source>⟧ table.old table.new result Stop.TooLong }
{
    let telling = PathTelling {
        alloc,
        paths,
        version,
        held: PhantomData,
    };
    let memory = PathMemory::new(alloc)?;
    compare_coming(alloc, table, window, &telling, memory, spans, scope)
}
