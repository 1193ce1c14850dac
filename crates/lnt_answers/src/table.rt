//! The address table of a good section.
ghost use Rattle.std.specs.Prelude.{◌≡◌, ℕ, List, IfErr, IfOk, OnErr, OnOk};
ghost use Rattle.std.specs.Io.KnownBytes.{Appends};
ghost use Rattle.lnt_io.specs.IoStops.{IsPrinting};
ghost use Rattle.lnt_io.specs.declared.status.Status.TheVariants.{Done};
ghost use Rattle.lnt_table.specs.Headline.{told_path};
ghost use Rattle.lnt_table.specs.Written.{BeginsTableOfUnits, IsTableOfUnits};
ghost use Rattle.lnt_lines.specs.Indexed.{OfUnits};
ghost use Rattle.lnt_answers.specs.PathTables.{BeginsPrintedTable, IsPrintedTable};

use lnt_io::{IoStop, Status, print_line};
use lnt_lines::Index;
use lnt_records::PathVersion;
use lnt_spans::Version;
use lnt_table::{OperationLine, write_index, write_paths};
use lnt_writing::PathTable;
use std::alloc::Global;
use std::io::Write;

/// Prints the address table of a good section, in version 1 or 2.
///
/// Returns `Done`. Stops with `Write` if the writer failed, and with `Memory`. If it stops, a prefix of the table has been
/// written, and nothing else.
pub fn print_table<W: Write>(
    alloc: Global,
    index: &Index<'_>,
    version: Version,
    out: &mut W,
) -> Result<Status, IoStop>
    ensures done { IfOk result (λ status. status ≡ Done) }
    ensures err { IfErr result IsPrinting }
    ensures table { OnOk result ((bytes : List ℕ) × Appends (W.contents out.old) (W.contents out.new) bytes
        × OfUnits index.now (λ selection. IsTableOfUnits version selection bytes)) }
    ensures begun { OnErr result (OfUnits index.now (λ selection.
        BeginsTableOfUnits version selection (W.contents out.old) (W.contents out.new))) }
{
    write_index(alloc, index, version, out)?;
    Ok(Status::Done)
}

/// Prints the address table by path of a good section, in version 3 or 4. If there can't be one, it prints the line of the
/// least position that no such table can express: a span begins or ends there with an operation index other than 0.
///
/// Returns `Done` if the table is printed, and `No` if that line is. Stops with `Write` if the writer failed, and with
/// `Memory`. If it stops, a prefix of the table or of that line has been written, and nothing else.
pub fn print_path_table<W: Write>(
    alloc: Global,
    index: &Index<'_>,
    version: PathVersion,
    out: &mut W,
) -> Result<Status, IoStop>
    ensures err { IfErr result IsPrinting }
    ensures table { IfOk result (λ status. OfUnits index.now (λ selection.
        IsPrintedTable version (told_path version index.now selection) (W.contents out.old) (W.contents out.new) status)) }
    ensures begun { OnErr result (OfUnits index.now (λ selection.
        BeginsPrintedTable version (told_path version index.now selection) (W.contents out.old) (W.contents out.new))) }
{
    match write_paths(alloc, index, version, out)? {
        PathTable::Written => Ok(Status::Done),
        PathTable::OperationIndex(position) => {
            print_line(alloc, &OperationLine(position), out)?;
            Ok(Status::No)
        }
    }
}
