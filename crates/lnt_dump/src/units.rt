//! The subcommand `units`.
ghost use Rattle.std.specs.Prelude.{◌≡◌, ◌+◌, ◌-◌, ◌^◌, ◌<◌, IfErr, IfOk, IfSome, OnErr, OnOk};
ghost use Rattle.std.specs.Io.KnownBytes.{Appends};
ghost use Rattle.lnt_io.specs.Prefixes.{AppendsPrefix, HasBegun};
ghost use Rattle.lnt_io.specs.IoStops.{IsPrinting};
ghost use Rattle.lnt_io.specs.Stopping.{CountsFailure, IsTooLongOn};
ghost use Rattle.lnt_unit.specs.declared.reader.Progress.TheVariants.{Reading};
ghost use Rattle.lnt_unit.specs.Readers.{loan_of, offset_of, order_of, progress_of, source_of};
ghost use Rattle.lnt_dump.specs.Stepping.{IsNext, GivesUnit};
ghost use Rattle.lnt_dump.specs.Units.{AreBytes, AreUnitsPrinted, unit_line, width};

use crate::faults::print_fault;
use lnt_io::{IoStop, Source, Status, print_line};
use lnt_unit::{SectionReader, SectionStop, UnitBuffer};
use lnt_wire::{Fault, Format, Frame, Order};
use std::alloc::Global;
use std::io::Write;

/// Prints a line `0xOFFSET 32|64 LENGTH` for each unit from the source: its offset in the section, the bits of an offset in
/// its format, and its `unit_length`, the bytes after that field, in decimal (DWARF 5, sections 6.2.4 and 7.4).
///
/// Returns `Done` if all of them were printed. If the remaining bytes don't begin with a unit, it prints the line of the
/// fault, and returns `No`. In both cases the lines of the section's frames (`AreFrames` of `lnt_wire`) and that of the
/// fault have been written, and nothing else. Stops with `Read` only if the source failed, with `TooLong` only if it has more
/// bytes than it may give, with `Write` if the writer failed, and with `Memory`. If it stops, a prefix of these lines, including
/// those of frames that weren't read, has been written, and nothing else. This holds for a source whose remaining list has
/// only numbers below 256, which are bytes. The caller ensures that the number of the source's failures is below
/// `u64::MAX`.
pub fn print_units<R: Source, W: Write>(
    alloc: Global,
    source: &mut R,
    order: Order,
    out: &mut W,
) -> Result<Status, IoStop>
    requires { R.failures source.old < 2 ^ 64 - 1 }
    ensures printed { IfOk result (λ status.
        AreUnitsPrinted order (R.remaining source.old) (W.contents out.old) (W.contents out.new) status) }
    ensures begun { OnErr result (IfSome (R.remaining source.old) AreBytes
        → HasBegun (AreUnitsPrinted order (R.remaining source.old) (W.contents out.old)) (W.contents out.old) (W.contents out.new)) }
    ensures failures { CountsFailure ⟦<R as Source>⟧ source.old source.new result IoStop.Read }
    ensures too_long { IsTooLongOn ⟦<R as Source>⟧ source.old source.new result IoStop.TooLong }
{
    let mut reader = SectionReader::new(source, order);
    print_lines(alloc, &mut reader, order, out)
}

// Prints the lines of the units from a reader that has given none yet, and that of the first fault.
fn print_lines<R: Source, W: Write>(
    alloc: Global,
    reader: &mut SectionReader<'_, R>,
    order: Order,
    out: &mut W,
) -> Result<Status, IoStop>
    requires reading { progress_of reader.old ≡ Reading }
    requires offset { offset_of reader.old ≡ 0 }
    requires order { order_of reader.old ≡ order }
    ensures printed { IfOk result (λ status.
        AreUnitsPrinted order (R.remaining (source_of reader.old)) (W.contents out.old) (W.contents out.new) status) }
    ensures begun { OnErr result (IfSome (R.remaining (source_of reader.old)) AreBytes
        → HasBegun (AreUnitsPrinted order (R.remaining (source_of reader.old)) (W.contents out.old))
        (W.contents out.old) (W.contents out.new)) }
    ensures failures { CountsFailure ⟦<R as Source>⟧ (source_of reader.old) (source_of reader.new) result IoStop.Read }
    ensures too_long { IsTooLongOn ⟦<R as Source>⟧ (source_of reader.old) (source_of reader.new) result IoStop.TooLong }
    ensures same_reference { loan_of reader.new ≡ loan_of reader.old }
{
    let mut room = Vec::new(alloc);
    loop {
        match next_of(reader, room)? {
            Next::Unit(unit) => {
                print_frame(alloc, &unit.frame(), out)?;
                room = unit.into_bytes();
            }
            Next::Fault(fault) => return print_fault(alloc, fault, out),
            Next::End => return Ok(Status::Done),
        }
    }
}

// What comes next in a section.
#[derive(Drop)]
pub(crate) enum Next {
    Unit(UnitBuffer),
    // No unit, for this fault.
    Fault(Fault),
    End,
}

// What comes next from a reader that hasn't stopped. A unit is read into the room.
pub(crate) fn next_of<R: Source>(
    reader: &mut SectionReader<'_, R>,
    room: Vec<u8>,
) -> Result<Next, IoStop>
    requires { progress_of reader.old ≡ Reading }
    ensures goes_on { IfOk result (λ next. GivesUnit next
        → (progress_of reader.new ≡ Reading) × (R.left (source_of reader.new) < R.left (source_of reader.old))) }
    ensures next { IfOk result (λ next. IsNext (offset_of reader.old) (offset_of reader.new) (order_of reader.old)
        (R.remaining (source_of reader.old)) (R.remaining (source_of reader.new)) next) }
    ensures order { order_of reader.new ≡ order_of reader.old }
    ensures left { IfOk result (λ next. GivesUnit next
        → R.left (source_of reader.new) + offset_of reader.new ≡ R.left (source_of reader.old) + offset_of reader.old) }
    ensures failures { CountsFailure ⟦<R as Source>⟧ (source_of reader.old) (source_of reader.new) result IoStop.Read }
    ensures too_long { IsTooLongOn ⟦<R as Source>⟧ (source_of reader.old) (source_of reader.new) result IoStop.TooLong }
    ensures same_reference { loan_of reader.new ≡ loan_of reader.old }
{
    match reader.next_unit_in(room) {
        Ok(Some(unit)) => Ok(Next::Unit(unit)),
        Ok(None) => Ok(Next::End),
        Err(SectionStop::Fault(fault)) => Ok(Next::Fault(fault)),
        Err(SectionStop::Read) => Err(IoStop::Read),
        Err(SectionStop::TooLong) => Err(IoStop::TooLong),
        Err(SectionStop::Memory) => Err(IoStop::Memory),
        Err(SectionStop::Failed) => unreachable!(),
    }
}

// Prints the line of a unit, or a prefix of it.
fn print_frame<W: Write>(alloc: Global, frame: &Frame<'_>, out: &mut W) -> Result<(), IoStop>
    ensures whole { OnOk result (Appends (W.contents out.old) (W.contents out.new) (unit_line frame.now)) }
    ensures prefix { OnErr result (AppendsPrefix (W.contents out.old) (W.contents out.new) (unit_line frame.now)) }
    ensures err { IfErr result IsPrinting }
{
    let (offset, width, length) = (frame.offset, width_of(frame.format), frame.length);
    print_line(alloc, &format_args!("0x{offset:x} {width} {length}"), out)
}

// The width that names a format.
pub(crate) fn width_of(format: Format) -> u8
    ensures { result ≡ width format }
{
    match format {
        Format::D32 => 32,
        Format::D64 => 64,
    }
}
