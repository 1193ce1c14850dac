//! The subcommand `dump`.
ghost use Rattle.std.specs.Prelude.{◌≡◌, ◌-◌, ◌^◌, ◌<◌, ◌⊎◌, List, IfErr, IfOk, OnErr, OnOk};
ghost use Rattle.std.specs.Io.KnownBytes.{Appends, Keeps};
ghost use Rattle.lnt_io.specs.Prefixes.{AppendsPrefix};
ghost use Rattle.lnt_io.specs.IoStops.{IsPrinting};
ghost use Rattle.lnt_io.specs.Stopping.{CountsFailure, IsTooLongOn};
ghost use Rattle.lnt_unit.specs.declared.reader.Progress.TheVariants.{Reading};
ghost use Rattle.lnt_unit.specs.Readers.{loan_of, offset_of, order_of, progress_of, source_of};
ghost use Rattle.lnt_header.specs.declared.op.Op.{Op};
ghost use Rattle.lnt_unit.specs.Views.{with_ops};
ghost use Rattle.lnt_dump.specs.Dumps.{IsDumpBegun, IsDumped, unit_lines};
ghost use Rattle.lnt_dump.specs.Stepping.{IsSound, IsUnitOf, UnitBegun, IsUnitPrinted};

use crate::faults::{print_fault, print_unit_fault};
use crate::header::print_header;
use crate::operations::print_ops;
use crate::page::hand_on;
use crate::rows::print_rows;
use crate::run::judge;
use crate::units::{Next, next_of};
use lnt_io::{IoStop, Source, Status};
use lnt_unit::{SectionReader, UnitBuffer, UnitInPlace};
use lnt_wire::{Frame, Order};
use std::alloc::Global;
use std::io::Write;

/// What is printed of a unit after its header.
#[derive(Clone, Copy, Debug, PartialEq, Eq)]
pub struct DumpParts {
    /// Whether a line is printed for each operation.
    pub ops: bool,
    /// Whether after these a line is printed for each row. Then a program that doesn't run is an error, with a line that says
    /// so.
    pub rows: bool,
}

/// Prints the units from the source. For each it prints a line `unit` (offset, format, length), a line `header` (the numbers of
/// the header in their order), a line `dir` or `file` for each entry, counted from 0 (DWARF 5, section 6.2.4), and then what
/// `shown` asks for.
///
/// Returns `Done` if all of them were printed. At the first unit with a fault it prints the line of the fault, and nothing
/// else of that unit, and returns `No`. In both cases these lines have been written, and nothing else (`IsDumped`). Stops with
/// `Read` only if the source failed, with `TooLong` only if it has more bytes than it may give, with `Write` if the writer
/// failed, and with `Memory`. If it stops, a prefix of the lines of units that the section begins with, and of the line of the fault
/// after them, has been written, and nothing else (`IsDumpBegun`). The caller ensures that the number of the source's
/// failures is below `u64::MAX`.
pub fn print_dump<R: Source, W: Write>(
    alloc: Global,
    source: &mut R,
    order: Order,
    shown: DumpParts,
    out: &mut W,
) -> Result<Status, IoStop>
    requires { R.failures source.old < 2 ^ 64 - 1 }
    ensures printed { IfOk result (IsDumped order shown (R.remaining source.old) (W.contents out.old) (W.contents out.new)) }
    ensures begun { OnErr result (IsDumpBegun order shown (R.remaining source.old) (W.contents out.old) (W.contents out.new)) }
    ensures failures { CountsFailure ⟦<R as Source>⟧ source.old source.new result IoStop.Read }
    ensures too_long { IsTooLongOn ⟦<R as Source>⟧ source.old source.new result IoStop.TooLong }
{
    let mut reader = SectionReader::new(source, order);
    print_each(alloc, &mut reader, order, shown, out)
}

// Prints the units from a reader that has given none yet, up to the first with a fault.
fn print_each<R: Source, W: Write>(
    alloc: Global,
    reader: &mut SectionReader<'_, R>,
    order: Order,
    shown: DumpParts,
    out: &mut W,
) -> Result<Status, IoStop>
    requires reading { progress_of reader.old ≡ Reading }
    requires offset { offset_of reader.old ≡ 0 }
    requires order { order_of reader.old ≡ order }
    ensures printed { IfOk result (IsDumped order shown (R.remaining (source_of reader.old)) (W.contents out.old) (W.contents out.new)) }
    ensures begun { OnErr result (IsDumpBegun order shown (R.remaining (source_of reader.old))
        (W.contents out.old) (W.contents out.new)) }
    ensures failures { CountsFailure ⟦<R as Source>⟧ (source_of reader.old) (source_of reader.new) result IoStop.Read }
    ensures too_long { IsTooLongOn ⟦<R as Source>⟧ (source_of reader.old) (source_of reader.new) result IoStop.TooLong }
    ensures same_reference { loan_of reader.new ≡ loan_of reader.old }
{
    let mut room = Vec::new(alloc);
    let mut page = Vec::new(alloc);
    loop {
        let unit = match next_of(reader, room)? {
            Next::Unit(unit) => unit,
            Next::Fault(fault) => return print_fault(alloc, fault, out),
            Next::End => return Ok(Status::Done),
        };
        if print_unit(alloc, &unit, &unit.frame(), shown, &mut page, out)? == Status::No {
            return Ok(Status::No);
        }
        room = unit.into_bytes();
    }
}

// Prints a unit, whose frame this is, or the fault of it. The page is for its text.
fn print_unit<W: Write>(
    alloc: Global,
    buffer: &UnitBuffer,
    frame: &Frame<'_>,
    shown: DumpParts,
    page: &mut Vec<u8>,
    out: &mut W,
) -> Result<Status, IoStop>
    requires { frame.now.offset ≡ buffer.now.offset }
    ensures printed { IfOk result (IsUnitPrinted shown frame.now buffer.now (W.contents out.old) (W.contents out.new)) }
    ensures begun { OnErr result (Keeps (W.contents out.old) (W.contents out.new)
        ⊎ UnitBegun shown frame.now buffer.now (W.contents out.old) (W.contents out.new)) }
    ensures err { IfErr result IsPrinting }
{
    match UnitInPlace::over(alloc, buffer) {
        Ok(unit) => print_judged(alloc, &unit, frame, shown, page, out),
        Err(fault) => print_fault(alloc, fault, out),
    }
}

// Prints a unit whose header is valid, or the fault of its program.
fn print_judged<W: Write>(
    alloc: Global,
    unit: &UnitInPlace<'_>,
    frame: &Frame<'_>,
    shown: DumpParts,
    page: &mut Vec<u8>,
    out: &mut W,
) -> Result<Status, IoStop>
    requires { frame.now.offset ≡ unit.now.unit.offset }
    ensures printed { IfOk result (IsUnitPrinted shown frame.now unit.now.unit (W.contents out.old) (W.contents out.new)) }
    ensures begun { OnErr result (Keeps (W.contents out.old) (W.contents out.new)
        ⊎ UnitBegun shown frame.now unit.now.unit (W.contents out.old) (W.contents out.new)) }
    ensures err { IfErr result IsPrinting }
{
    match judge(unit, shown.rows) {
        Ok(()) => {
            print_valid(alloc, unit, frame, shown, page, out)?;
            Ok(Status::Done)
        }
        Err(fault) => print_unit_fault(alloc, frame.offset, fault, out),
    }
}

// Prints the lines of a unit that is valid and, if rows are shown, runs.
fn print_valid<W: Write>(
    alloc: Global,
    unit: &UnitInPlace<'_>,
    frame: &Frame<'_>,
    shown: DumpParts,
    page: &mut Vec<u8>,
    out: &mut W,
) -> Result<(), IoStop>
    requires { IsSound unit.now shown.rows }
    ensures whole { OnOk result ((ops : List Op) → IsUnitOf unit.now ops
        → Appends (W.contents out.old) (W.contents out.new) (unit_lines shown (frame.now, with_ops unit.now ops))) }
    ensures prefix { OnErr result ((ops : List Op) → IsUnitOf unit.now ops
        → AppendsPrefix (W.contents out.old) (W.contents out.new) (unit_lines shown (frame.now, with_ops unit.now ops))) }
    ensures err { IfErr result IsPrinting }
{
    page.clear();
    print_header(alloc, frame, &unit.header(), page, out)?;
    print_ops(alloc, unit, shown.ops, page, out)?;
    print_rows(unit, shown.rows, page, out)?;
    hand_on(page, out)
}
