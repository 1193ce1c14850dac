//! What a table of any version is judged to be, compared with a good section.
ghost use Rattle.std.specs.Prelude.{◌≡◌, ◌-◌, ◌^◌, ◌<◌, IfOk, IfSome};
ghost use Rattle.lnt_lines.specs.Indexed.{OfUnits};
ghost use Rattle.lnt_table.specs.Judged.{IsJudgedWith, told_in};
ghost use Rattle.lnt_io.specs.Stopping.{CountsFailure, IsTooLongOn};

use crate::kinds::OfKind;
use crate::paths::IndexPaths;
use crate::verdict::{TableNo, Verdict};
use crate::within::CheckedWithin;
use lnt_compare::{
    Compared, DifferenceByPath, Outcome, TableRead, Window, compare_by_path, compare_lines,
    compare_lines_by_path, compare_records, pass_header,
};
use lnt_io::{Source, Stop};
use lnt_lines::Index;
use lnt_records::{PathVersion, TableFault};
use lnt_spans::{Difference, Scope, Version};
use std::alloc::{AllocError, Global};

// What a table of any version is judged to be in a scope.
pub(crate) type JudgedOfKind = OfKind<Outcome<Difference>, Outcome<DifferenceByPath>>;

impl OfKind<Outcome<Difference>, Outcome<DifferenceByPath>> {
    // The answer in this scope.
    pub(crate) fn told(self, scope: Scope) -> CheckedWithin
        ensures { result ≡ told_in scope self }
    {
        match self {
            OfKind::Numbered(TableRead::Fault(fault)) => {
                let verdict = Verdict::No(TableNo::from(fault));
                CheckedWithin::Checked(OfKind::Numbered(verdict))
            }
            OfKind::Numbered(TableRead::Table(Err(difference))) => {
                let verdict = Verdict::No(TableNo::Differs {
                    position: difference.position,
                    by_table: difference.by_table,
                    by_section: difference.by_section,
                });
                CheckedWithin::Checked(OfKind::Numbered(verdict))
            }
            OfKind::Numbered(TableRead::Table(Ok(coverage))) => {
                CheckedWithin::if_right(scope, coverage, OfKind::Numbered(Verdict::Yes))
            }
            OfKind::ByPath(TableRead::Fault(fault)) => {
                CheckedWithin::Checked(OfKind::ByPath(Compared::Fault(fault)))
            }
            OfKind::ByPath(TableRead::Table(Err(difference))) => {
                CheckedWithin::Checked(OfKind::ByPath(Compared::Differs(difference)))
            }
            OfKind::ByPath(TableRead::Table(Ok(coverage))) => {
                CheckedWithin::if_right(scope, coverage, OfKind::ByPath(Compared::Same))
            }
        }
    }
}

// Compares the table with the spans of the index, by number or by path according to its header.
pub(crate) fn judge_index<T: Source>(
    alloc: Global,
    table: &mut T,
    index: &Index<'_>,
    scope: Scope,
) -> Result<JudgedOfKind, Stop>
    requires { T.failures table.old < 2 ^ 64 - 1 }
    ensures ok { IfOk result (λ judged. OfUnits index.now (λ selection. IfSome (T.remaining table.old) (λ text.
        IsJudgedWith index.now selection scope text judged))) }
    ensures failures { CountsFailure ⟦<T as Source>⟧ table.old table.new result Stop.Read }
    ensures too_long { IsTooLongOn ⟦<T as Source>⟧ table.old table.new result Stop.TooLong }
{
    let mut window = Window::of(alloc, table)?;
    if let Some(version) = pass_header(&mut window, Version::One, Version::Two) {
        let outcome = compare_lines(alloc, table, window, version, index.spans(), scope)?;
        return Ok(OfKind::Numbered(outcome));
    }
    if let Some(version) = pass_header(&mut window, PathVersion::Three, PathVersion::Four) {
        let paths = IndexPaths { index };
        let spans = index.spans();
        let outcome = compare_lines_by_path(alloc, table, window, version, spans, &paths, scope)?;
        return Ok(OfKind::ByPath(outcome));
    }
    let text = window.rest_after(alloc, &[], table)?;
    let judged = judge_text(alloc, &text, index, scope)?;
    Ok(judged)
}

// Does the same for a table whose bytes are all in memory.
fn judge_text(
    alloc: Global,
    text: &[u8],
    index: &Index<'_>,
    scope: Scope,
) -> Result<JudgedOfKind, AllocError>
    ensures { IfOk result (λ judged. OfUnits index.now (λ selection. IsJudgedWith index.now selection scope text.now judged)) }
{
    let outcome = compare_records(alloc, text, index.spans(), scope)?;
    if let TableRead::Fault(TableFault::Header) = outcome {
        let outcome = compare_by_path(alloc, text, index.spans(), &IndexPaths { index }, scope)?;
        return Ok(OfKind::ByPath(outcome));
    }
    Ok(OfKind::Numbered(outcome))
}
