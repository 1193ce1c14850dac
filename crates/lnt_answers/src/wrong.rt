//! The stretches of positions at which no live sequence answers as a table does, printed.
ghost use Rattle.std.specs.Prelude.{◌≡◌, ◌-◌, ◌^◌, ◌<◌, ◌⊎◌, true, [], ◌∷◌, IfErr, IfOk, OnErr};
ghost use Rattle.std.specs.Io.KnownBytes.{Keeps};
ghost use Rattle.lnt_answers.specs.PrintedStretches.{AreStretchesBegun, AreStretchesOf, AreStretchesOfIndex, BeginsStretches};
ghost use Rattle.lnt_answers.specs.PrintedStretches.{IsFaultPrinted};
ghost use Rattle.lnt_io.specs.IoStops.{IsPrinting};
ghost use Rattle.lnt_io.specs.Stopping.{CountsFailure, IsTooLongOn};
ghost use Rattle.lnt_records.specs.Faults.{IsUnnumbered};
ghost use Rattle.lnt_records.specs.Table.{BeginsWith, column_names};
ghost use Rattle.lnt_table.specs.Asked.{OfLive};

use crate::given::print_given;
use crate::printed_stretches::{Stretches, print_end};
use crate::report::Report;
use lnt_compare::{TableRead, Window, differ_records, hold_table};
use lnt_io::{IoStop, Source, print_line};
use lnt_lines::Index;
use lnt_records::header_of;
use lnt_spans::Version;
use lnt_table::{ByNumber, ByPath, Scope, TableNo, WrongStretches, differences_by_path};
use std::alloc::Global;
use std::io::Write;

// Does what `print_stretches` does, if any copy counts.
#[inline(never)]
pub(crate) fn print_wrong<T: Source, W: Write>(
    alloc: Global,
    table: &mut T,
    index: &Index<'_>,
    report: Report,
    out: &mut W,
) -> Result<Stretches, IoStop>
    requires failures { T.failures table.old < 2 ^ 64 - 1 }
    requires copies { report.any_copy ≡ true }
    ensures printed { IfOk result (AreStretchesOfIndex report index.now (T.remaining table.old) (W.contents out.old) (W.contents out.new)) }
    ensures faulty { IfOk result (λ found. IsFaultPrinted found (W.contents out.old) (W.contents out.new)) }
    ensures failures { CountsFailure ⟦<T as Source>⟧ table.old table.new result IoStop.Read }
    ensures too_long { IsTooLongOn ⟦<T as Source>⟧ table.old table.new result IoStop.TooLong }
    ensures begun { OnErr result (BeginsStretches report index.now (T.remaining table.old) (W.contents out.old) (W.contents out.new)) }
{
    let mut window = Window::of(alloc, table)?;
    let text = window.rest_after(alloc, &[], table)?;
    if let Some(version) = header_of::<Version>(alloc, &text)? {
        return print_numbers(alloc, &text, index, version, report, out);
    }
    print_paths(alloc, &text, index, report, out)
}

// The same for a table by number with the header of this version, whose bytes are all in memory.
fn print_numbers<W: Write>(
    alloc: Global,
    text: &[u8],
    index: &Index<'_>,
    version: Version,
    report: Report,
    out: &mut W,
) -> Result<Stretches, IoStop>
    requires begins { BeginsWith text.now (column_names version ∷ []) }
    requires copies { report.any_copy ≡ true }
    ensures err { IfErr result IsPrinting }
    ensures printed { IfOk result (λ found. OfLive index.now (λ selection.
        AreStretchesOf report index.now selection text.now (W.contents out.old) (W.contents out.new) found)) }
    ensures faulty { IfOk result (λ found. IsFaultPrinted found (W.contents out.old) (W.contents out.new)) }
    ensures begun { OnErr result (Keeps (W.contents out.old) (W.contents out.new) ⊎ OfLive index.now (λ selection.
        AreStretchesBegun report index.now selection text.now (W.contents out.old) (W.contents out.new))) }
{
    match differ_records(alloc, text, index.spans())? {
        TableRead::Fault(fault) => {
            print_line(alloc, &TableNo::from(fault), out)?;
            Ok(Stretches::Faulty(fault))
        }
        TableRead::Table(differences) => {
            let kept = ByNumber {
                version,
                differences,
            };
            let wrong = WrongStretches::of(alloc, kept, index, report.scope);
            let coverage = print_given(alloc, wrong, Scope::All, report.ends, out)?;
            let status = print_end(alloc, report, coverage, out)?;
            Ok(Stretches::Printed(status))
        }
    }
}

// The same for other bytes: a table by path, or its first fault.
fn print_paths<W: Write>(
    alloc: Global,
    text: &[u8],
    index: &Index<'_>,
    report: Report,
    out: &mut W,
) -> Result<Stretches, IoStop>
    requires unnumbered { IsUnnumbered text.now }
    requires copies { report.any_copy ≡ true }
    ensures err { IfErr result IsPrinting }
    ensures printed { IfOk result (λ found. OfLive index.now (λ selection.
        AreStretchesOf report index.now selection text.now (W.contents out.old) (W.contents out.new) found)) }
    ensures faulty { IfOk result (λ found. IsFaultPrinted found (W.contents out.old) (W.contents out.new)) }
    ensures begun { OnErr result (Keeps (W.contents out.old) (W.contents out.new) ⊎ OfLive index.now (λ selection.
        AreStretchesBegun report index.now selection text.now (W.contents out.old) (W.contents out.new))) }
{
    match hold_table(alloc, text)? {
        TableRead::Fault(fault) => {
            print_line(alloc, &TableNo::from(fault), out)?;
            Ok(Stretches::FaultyByPath(fault))
        }
        TableRead::Table((version, spans)) => {
            let kept = ByPath {
                index,
                version,
                differences: differences_by_path(index, &spans, version),
            };
            let wrong = WrongStretches::of(alloc, kept, index, report.scope);
            let printed = print_given(alloc, wrong, Scope::All, report.ends, out);
            drop(spans);
            let coverage = printed?;
            let status = print_end(alloc, report, coverage, out)?;
            Ok(Stretches::PrintedByPath(status))
        }
    }
}
