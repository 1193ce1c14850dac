//! The subcommand `convert`.
ghost use Rattle.std.specs.Prelude.{◌≡◌, ◌≢◌, ◌-◌, ◌^◌, ◌<◌, IfErr, IfOk, IfSome, OnErr, OnOk};
ghost use Rattle.std.specs.Io.KnownBytes.{Appends};
ghost use Rattle.lnt_io.specs.Prefixes.{AppendsPrefix};
ghost use Rattle.lnt_io.specs.IoStops.{IsPrinting};
ghost use Rattle.lnt_io.specs.declared.status.Status.TheVariants.{Done, No};
ghost use Rattle.lnt_unit.specs.Converting.{Converts, IsConverted};
ghost use Rattle.lnt_dump.specs.Printed.{IsConversionBegun, IsPrintedIn, IsRefusalPrinted, refusal_text};
ghost use Rattle.lnt_dump.specs.Stepping.{IsPrefixIn};
ghost use Rattle.lnt_io.specs.Stopping.{CountsFailure, IsTooLongOn};

use crate::faults::print_fault;
use crate::page::{hand_on, turn_full};
use lnt_io::{IoStop, Source, Status, print_line, read_all};
use lnt_unit::{ConvertFault, convert_unit, judge_conversion};
use lnt_wire::{Cursor, Format, Order};
use std::alloc::Global;
use std::io::Write;

/// Reads the section from the source, in the byte order `order`, and prints it in the format `format` and the byte order `to`;
/// or the line that says why there is no such section: `no 25 ..` or `no 20 ..`.
///
/// If it returns `Done`, the converted section has been written, and nothing else. If it returns `No`, the section is
/// malformed, or a unit of it is too large for the format, and only the line that says so has been written. Stops with
/// `Read` only if the source failed, with `TooLong` only if it has more bytes than it may give, with `Write` if the writer
/// failed, and with `Memory`. If it stops, a prefix of the converted section, or of the line that says why there is none,
/// has been written, and nothing else. It keeps the bytes of the section, which are read once, and converts them unit by
/// unit, once each unit is known to have an encoding in the format. The caller ensures that the number of the source's
/// failures is below `u64::MAX`.
#[tactic(auto, using(crate::proofs::SectionPrefixes::refusal_begun))]
pub fn print_converted<R: Source, W: Write>(
    alloc: Global,
    source: &mut R,
    order: Order,
    format: Format,
    to: Order,
    out: &mut W,
) -> Result<Status, IoStop>
    requires { R.failures source.old < 2 ^ 64 - 1 }
    ensures done { IfOk result (λ status. status ≡ Done → IfSome (R.remaining source.old) (λ bytes.
        IsPrintedIn (IsConverted order bytes format to) (W.contents out.old) (W.contents out.new))) }
    ensures no { IfOk result (λ status. status ≡ No → IfSome (R.remaining source.old) (λ bytes.
        IsRefusalPrinted order bytes format to (W.contents out.old) (W.contents out.new))) }
    ensures begun { OnErr result (IfSome (R.remaining source.old) (λ bytes.
        IsConversionBegun order bytes format to (W.contents out.old) (W.contents out.new))) }
    ensures failures { CountsFailure ⟦<R as Source>⟧ source.old source.new result IoStop.Read }
    ensures too_long { IsTooLongOn ⟦<R as Source>⟧ source.old source.new result IoStop.TooLong }
{
    let bytes = read_all(alloc, source)?;
    match judge_conversion(alloc, &bytes, order, format, to) {
        Ok(()) => {
            print_converted_units(alloc, &bytes, order, format, to, out)?;
            Ok(Status::Done)
        }
        Err(fault) => print_refusal(alloc, fault, out),
    }
}

// Prints a section that converts in the format and in the byte order `to`, unit by unit, or a prefix of it.
#[tactic(auto, using(crate::proofs::Sections::section_begun, crate::proofs::Sections::unit_long))]
fn print_converted_units<W: Write>(
    alloc: Global,
    bytes: &[u8],
    order: Order,
    format: Format,
    to: Order,
    out: &mut W,
) -> Result<(), IoStop>
    requires { Converts order bytes.now format to }
    ensures ok { OnOk result (IsPrintedIn (IsConverted order bytes.now format to) (W.contents out.old) (W.contents out.new)) }
    ensures prefix { OnErr result (IsPrefixIn (IsConverted order bytes.now format to) (W.contents out.old) (W.contents out.new)) }
    ensures err { IfErr result IsPrinting }
{
    let mut page = Vec::new(alloc);
    let mut cursor = Cursor::new(bytes, 0, order);
    while !cursor.rest().is_empty() {
        match convert_unit(alloc, &mut cursor, order, format, to, &mut page) {
            Ok(()) => {}
            Err(stop) => match stop {
                ConvertFault::Memory => return Err(IoStop::Memory),
                // Each unit of a section that converts does.
                _ => unreachable!(),
            },
        }
        turn_full(&mut page, out)?;
    }
    hand_on(&mut page, out)?;
    Ok(())
}

// Prints the line that says why a section isn't converted, or a prefix of it. Lack of memory has no line: it is a stop.
pub(crate) fn print_refusal<W: Write>(
    alloc: Global,
    fault: ConvertFault,
    out: &mut W,
) -> Result<Status, IoStop>
    ensures no { IfOk result (λ status. status ≡ No) }
    ensures not_memory { OnOk result (fault ≢ ConvertFault.Memory) }
    ensures err { IfErr result IsPrinting }
    ensures line { OnOk result (Appends (W.contents out.old) (W.contents out.new) (refusal_text fault)) }
    ensures prefix { OnErr result (AppendsPrefix (W.contents out.old) (W.contents out.new) (refusal_text fault)) }
{
    match fault {
        ConvertFault::Malformed(fault) => print_fault(alloc, fault, out),
        ConvertFault::TooLarge(_) => {
            print_line(alloc, &format_args!("no 20 {fault}"), out)?;
            Ok(Status::No)
        }
        ConvertFault::Memory => Err(IoStop::Memory),
    }
}
