//! All stretches of positions in a scope at which a table and a good section answer differently.
ghost use Rattle.std.specs.Prelude.{◌≡◌, ◌-◌, ◌^◌, ◌<◌, false, IfErr, IfOk, OnErr, OnOk};
ghost use Rattle.std.specs.Io.KnownBytes.{Appends};
ghost use Rattle.lnt_answers.specs.PrintedStretches.{BeginsStretches, IsFaultPrinted, AreStretchesOfIndex};
ghost use Rattle.lnt_answers.specs.Stepping.{end_status, end_text};
ghost use Rattle.lnt_io.specs.Prefixes.{AppendsPrefix};
ghost use Rattle.lnt_io.specs.IoStops.{IsPrinting};
ghost use Rattle.lnt_io.specs.Stopping.{CountsFailure, IsTooLongOn};

use crate::given::{PathStretches, print_given};
use crate::report::{CheckLine, Report, status_of};
use crate::wrong::print_wrong;
use lnt_compare::TableRead;
use lnt_io::{IoStop, Source, Status, print_line};
use lnt_lines::Index;
use lnt_records::TableFault;
use lnt_table::{
    CheckedWithin, Coverage, IndexPaths, OfKind, TableNo, Verdict, differences_any,
    differences_by_path,
};
use std::alloc::Global;
use std::io::Write;

/// What was printed about a table that was compared with a good section at every position of a scope.
#[derive(Drop)]
pub enum Stretches {
    /// The header is that of version 1 or 2, but the bytes aren't a table: the first fault.
    Faulty(TableFault),
    /// A table of version 1 or 2: the positions at which the answers differ; `Done` if there are none.
    Printed(Status),
    /// The header is another, and the bytes aren't a table by path: the first fault.
    FaultyByPath(TableFault),
    /// A table by path: the positions at which the answers differ, with the paths of files; `Done` if there are none.
    PrintedByPath(Status),
}

/// Prints a line for each stretch of positions at which the table from a source, of any version, and a good section answer
/// differently, in ascending order, or `yes` if there is none; or the line of the table's first fault. A line has the first
/// position of its stretch, with both answers, and, if ends are told, the first position after it. In the scope `Answered` only
/// those stretches count at which the table answers, and a second line after `yes` says at how many of the section's addresses it
/// does; if these are too few, the line with number 46 says so instead of both.
///
/// If any copy counts, the stretches are the longest runs of positions at which no live sequence answers as the table does, with the
/// same two answers, that of the table and that of the kept sequence. The caller takes the index from `index_with_copies`.
///
/// The result says which of these was printed. Stops with `Read` only if the source failed, with `TooLong` only if the source
/// has more bytes than it may give, with `Write` if the writer failed, and with `Memory`. If it stops, nothing has been written,
/// or a prefix of these lines. The caller ensures that the number of the source's failures is below `u64::MAX`.
///
/// Never inlined: its frame is large, the stack is short, and the frame of its caller shouldn't contain it.
#[inline(never)]
pub fn print_stretches<T: Source, W: Write>(
    alloc: Global,
    table: &mut T,
    index: &Index<'_>,
    report: Report,
    out: &mut W,
) -> Result<Stretches, IoStop>
    requires { T.failures table.old < 2 ^ 64 - 1 }
    ensures printed { IfOk result (AreStretchesOfIndex report index.now (T.remaining table.old) (W.contents out.old) (W.contents out.new)) }
    ensures faulty { IfOk result (λ found. IsFaultPrinted found (W.contents out.old) (W.contents out.new)) }
    ensures failures { CountsFailure ⟦<T as Source>⟧ table.old table.new result IoStop.Read }
    ensures too_long { IsTooLongOn ⟦<T as Source>⟧ table.old table.new result IoStop.TooLong }
    ensures begun { OnErr result (BeginsStretches report index.now (T.remaining table.old) (W.contents out.old) (W.contents out.new)) }
{
    if report.any_copy {
        print_wrong(alloc, table, index, report, out)
    } else {
        print_differing(alloc, table, index, report, out)
    }
}

// The same, if copies don't count.
#[inline(never)]
fn print_differing<T: Source, W: Write>(
    alloc: Global,
    table: &mut T,
    index: &Index<'_>,
    report: Report,
    out: &mut W,
) -> Result<Stretches, IoStop>
    requires failures { T.failures table.old < 2 ^ 64 - 1 }
    requires kept { report.any_copy ≡ false }
    ensures printed { IfOk result (AreStretchesOfIndex report index.now (T.remaining table.old) (W.contents out.old) (W.contents out.new)) }
    ensures faulty { IfOk result (λ found. IsFaultPrinted found (W.contents out.old) (W.contents out.new)) }
    ensures failures { CountsFailure ⟦<T as Source>⟧ table.old table.new result IoStop.Read }
    ensures too_long { IsTooLongOn ⟦<T as Source>⟧ table.old table.new result IoStop.TooLong }
    ensures begun { OnErr result (BeginsStretches report index.now (T.remaining table.old) (W.contents out.old) (W.contents out.new)) }
{
    match differences_any(alloc, table, index) {
        Ok(OfKind::Numbered(TableRead::Table(differences))) => {
            let coverage = print_given(alloc, differences, report.scope, report.ends, out)?;
            let status = print_end(alloc, report, coverage, out)?;
            Ok(Stretches::Printed(status))
        }
        Ok(OfKind::Numbered(TableRead::Fault(fault))) => {
            print_line(alloc, &TableNo::from(fault), out)?;
            Ok(Stretches::Faulty(fault))
        }
        Ok(OfKind::ByPath(TableRead::Table((version, spans)))) => {
            let stretches = PathStretches {
                differences: differences_by_path(index, &spans, version),
                paths: &IndexPaths::of(index),
            };
            let printed = print_given(alloc, stretches, report.scope, report.ends, out);
            drop(spans);
            let coverage = printed?;
            let status = print_end(alloc, report, coverage, out)?;
            Ok(Stretches::PrintedByPath(status))
        }
        Ok(OfKind::ByPath(TableRead::Fault(fault))) => {
            print_line(alloc, &TableNo::from(fault), out)?;
            Ok(Stretches::FaultyByPath(fault))
        }
        Err(stop) => Err(IoStop::from(stop)),
    }
}

// Prints the answer if there is no stretch in the scope: then this is how much the table answers. It is `None` if there is one, and
// nothing is printed. If it stops, a prefix of the answer has been written.
pub(crate) fn print_end<W: Write>(
    alloc: Global,
    report: Report,
    coverage: Option<Coverage>,
    out: &mut W,
) -> Result<Status, IoStop>
    ensures err { IfErr result IsPrinting }
    ensures status { IfOk result (λ status. status ≡ end_status report coverage) }
    ensures text { OnOk result (Appends (W.contents out.old) (W.contents out.new) (end_text report coverage)) }
    ensures prefix { OnErr result (AppendsPrefix (W.contents out.old) (W.contents out.new) (end_text report coverage)) }
{
    let Some(coverage) = coverage else {
        return Ok(Status::No);
    };
    let yes = OfKind::Numbered(Verdict::Yes);
    let checked = CheckedWithin::if_right(report.scope, coverage, yes);
    print_line(alloc, &CheckLine(&checked, report.at_least), out)?;
    Ok(status_of(&checked, report.at_least))
}
