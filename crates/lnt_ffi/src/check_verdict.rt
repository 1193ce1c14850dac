//! The verdict on a table of any version, as C sees it.
ghost use Rattle.std.specs.Prelude.{◌≡◌, ◌/◌, ◌%◌, ◌^◌};
ghost use Rattle.lnt_ffi.specs.CheckVerdicts.{flat_place, of_coverage, of_difference, path_in, paths_in, tells_column};
ghost use Rattle.lnt_ffi.specs.CheckVerdicts.{verdict_of_check, verdict_of_compared};

use crate::flat::{FlatAnswer, nothing};
use crate::verdict::{FlatVerdict, at, verdict_of_table, yes};
use lnt_compare::{AnswerByPath, Compared, DifferenceByPath};
use lnt_table::{CheckedWithin, Coverage, OfKind, TableNo, Verdict};

// What a check finds, but for the paths.
pub(crate) fn verdict_of_check(found: &CheckedWithin) -> FlatVerdict
    ensures { result ≡ verdict_of_check found.now }
{
    match found {
        CheckedWithin::Checked(OfKind::Numbered(verdict)) => verdict_of_table(*verdict),
        CheckedWithin::Checked(OfKind::ByPath(compared)) => of_compared(compared),
        CheckedWithin::Covered(coverage) => of_coverage(coverage),
    }
}

// The outcome of a comparison by path.
fn of_compared(compared: &Compared<DifferenceByPath>) -> FlatVerdict
    ensures { result ≡ verdict_of_compared compared.now }
{
    match compared {
        Compared::Same => yes(),
        Compared::Fault(fault) => verdict_of_table(Verdict::No(TableNo::from(*fault))),
        Compared::Differs(difference) => of_difference(difference),
    }
}

// How much a table answers that is right wherever it answers.
fn of_coverage(coverage: &Coverage) -> FlatVerdict
    ensures { result ≡ of_coverage coverage.now }
{
    let (offset, index) = halves(coverage.answered);
    let (other_offset, value) = halves(coverage.all);
    FlatVerdict {
        offset,
        index,
        value,
        other_offset,
        ..yes()
    }
}

// How often a number has 2^64, and what is left.
fn halves(n: u128) -> (u64, u64)
    ensures { result ≡ (n / 2 ^ 64, n % 2 ^ 64) }
{
    ((n / (1 << 64)) as u64, (n % (1 << 64)) as u64)
}

// Where a table by path and a section answer differently: all but the paths, with how long these are.
fn of_difference(difference: &DifferenceByPath) -> FlatVerdict
    ensures { result ≡ of_difference difference.now }
{
    let by_table = &difference.by_table;
    let by_section = &difference.by_section;
    FlatVerdict {
        index: path_in(by_table).len() as u64,
        value: path_in(by_section).len() as u64,
        table_answers: by_table.is_some(),
        section_answers: by_section.is_some(),
        path_version: if tells_column(by_table) || tells_column(by_section) {
            3
        } else {
            4
        },
        by_table: flat_place(by_table),
        by_section: flat_place(by_section),
        ..at(difference.position, 40)
    }
}

// The line of one side of a difference by path, which may answer nothing, and its column if the table's version has one.
fn flat_place(answer: &Option<AnswerByPath>) -> FlatAnswer
    ensures { result ≡ flat_place answer.now }
{
    match answer {
        Some(answer) => FlatAnswer {
            line: answer.line,
            column: answer.column.unwrap_or(0),
            ..nothing()
        },
        None => nothing(),
    }
}

// Whether one side has a column, as in version 3.
fn tells_column(answer: &Option<AnswerByPath>) -> bool
    ensures { result ≡ tells_column answer.now }
{
    matches!(
        answer,
        Some(AnswerByPath {
            column: Some(_),
            ..
        })
    )
}

// The path of one side; no bytes where it answers nothing.
fn path_in(answer: &Option<AnswerByPath>) -> &[u8]
    ensures { result.now ≡ path_in answer.now }
{
    match answer {
        Some(answer) => &answer.path,
        None => &[],
    }
}

// The paths that the table and the section answer where the two differ; no bytes where one answers none.
pub(crate) fn paths_in(found: &CheckedWithin) -> (&[u8], &[u8])
    ensures table { result.0.now ≡ (paths_in found.now).0 }
    ensures section { result.1.now ≡ (paths_in found.now).1 }
{
    match found {
        CheckedWithin::Checked(OfKind::ByPath(Compared::Differs(difference))) => {
            (
                path_in(&difference.by_table),
                path_in(&difference.by_section),
            )
        }
        _ => (&[], &[]),
    }
}
