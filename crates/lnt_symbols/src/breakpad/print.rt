//! Prints the table of a Breakpad file.
ghost use Rattle.std.specs.Prelude.{◌≡◌, ◌⊎◌, ◌-◌, ◌^◌, ◌<◌, ◌++◌, ℕ, IfErr, IfOk, IfSome, IsErrOf, List, OnErr};
ghost use Rattle.std.specs.Io.KnownBytes.{Keeps};
ghost use Rattle.lnt_io.specs.IoStops.{IsPrinting};
ghost use Rattle.lnt_io.specs.Stopping.{CountsFailure, IsTooLongOn};
ghost use Rattle.lnt_io.specs.declared.status.Status.TheVariants.{Done};
ghost use Rattle.lnt_records.specs.declared.path_records.version.PathVersion.TheVariants.{Four};
ghost use Rattle.lnt_writing.specs.Canonical.{BeginsPathTable};
ghost use Rattle.lnt_symbols.specs.BreakpadAnswers.{answer_at};
ghost use Rattle.lnt_symbols.specs.BreakpadLines.{RecordSaid};
ghost use Rattle.lnt_symbols.specs.Pieces.{HasTable};
ghost use Rattle.lnt_symbols.specs.Stepping.{AreTaken, HasTaken, IsStop};
ghost use Rattle.lnt_symbols.specs.declared.breakpad.file.ReadingStop.TheVariants.{Stop as ReadingStopped};
ghost use Rattle.lnt_symbols.specs.SymbolTables.{BeginsPrinted, HasPrinted, answers_in_table, breakpad_answers, loaded_at};

use crate::breakpad::file::ReadingStop;
use crate::breakpad::reading::Reading;
use crate::breakpad::source::{read_bytes, read_file};
use crate::table::write_pieces;
use lnt_compare::Window;
use lnt_io::{IoStop, Source, Status, Stop, print_line};
use std::alloc::Global;
use std::io::Write;

/// Prints the table of the file with these bytes, if its address 0 is loaded at `base`, or the line of its first fault.
pub(crate) fn print_short<W: Write>(
    alloc: Global,
    bytes: &[u8],
    base: u64,
    out: &mut W,
) -> Result<Status, IoStop>
    ensures printed { IfOk result
        (λ status. HasPrinted (breakpad_answers base bytes.now) (W.contents out.old) (W.contents out.new) status) }
    ensures begun { OnErr result (Keeps (W.contents out.old) (W.contents out.new)
        ⊎ BeginsPrinted (breakpad_answers base bytes.now) (W.contents out.old) (W.contents out.new)) }
    ensures err { IfErr result IsPrinting }
{
    print_read(alloc, read_bytes(alloc, bytes, base), base, out)
}

/// Prints the table of the file whose bytes are those in the window and all that its source has left, block by block, as
/// `print_short` does. Stops with `Read`, `TooLong` and `Memory` too.
pub(crate) fn print_breakpad<R: Source, W: Write>(
    alloc: Global,
    window: Window,
    file: &mut R,
    base: u64,
    out: &mut W,
) -> Result<Status, IoStop>
    requires { R.failures file.old < 2 ^ 64 - 1 }
    ensures printed { IfOk result (λ status. IfSome (R.remaining file.old) (λ more.
        HasPrinted (breakpad_answers base (window ++ more)) (W.contents out.old) (W.contents out.new) status)) }
    ensures begun { OnErr result (Keeps (W.contents out.old) (W.contents out.new) ⊎ IfSome (R.remaining file.old) (λ more.
        BeginsPrinted (breakpad_answers base (window ++ more)) (W.contents out.old) (W.contents out.new))) }
    ensures unread { IsErrOf result IoStop.Read ⊎ IsErrOf result IoStop.TooLong → Keeps (W.contents out.old) (W.contents out.new) }
    ensures failures { CountsFailure ⟦<R as Source>⟧ file.old file.new result IoStop.Read }
    ensures too_long { IsTooLongOn ⟦<R as Source>⟧ file.old file.new result IoStop.TooLong }
{
    print_read(alloc, read_file(alloc, window, file, base), base, out)
}

// Prints the table of a file whose address 0 is loaded at `base`, if it was read, or the line of its first fault.
fn print_read<W: Write>(
    alloc: Global,
    read: Result<Reading, ReadingStop>,
    base: u64,
    out: &mut W,
) -> Result<Status, IoStop>
    ensures printed { (bytes : List ℕ) → IfOk read (AreTaken base bytes) → IfErr read (IsStop bytes) → IfOk result
        (λ status. HasPrinted (breakpad_answers base bytes) (W.contents out.old) (W.contents out.new) status) }
    ensures begun { (bytes : List ℕ) → IfOk read (AreTaken base bytes) → IfErr read (IsStop bytes) → OnErr result (
        Keeps (W.contents out.old) (W.contents out.new)
        ⊎ BeginsPrinted (breakpad_answers base bytes) (W.contents out.old) (W.contents out.new)) }
    ensures stop { IsErrOf result IoStop.Read ⊎ IsErrOf result IoStop.TooLong → Keeps (W.contents out.old) (W.contents out.new) }
    ensures read { IsErrOf result IoStop.Read → IsErrOf read (ReadingStopped Stop.Read) }
    ensures too_long { IsErrOf result IoStop.TooLong → IsErrOf read (ReadingStopped Stop.TooLong) }
    ensures reading { IsErrOf read (ReadingStopped Stop.Read) → IsErrOf result IoStop.Read }
{
    match read {
        Ok(reading) => print_reading(alloc, reading, base, out),
        Err(ReadingStop::Fault(fault)) => {
            print_line(alloc, &fault, out)?;
            Ok(Status::No)
        }
        Err(ReadingStop::Stop(stop)) => Err(IoStop::from(stop)),
    }
}

// Prints the table of a file that was read, whose address 0 is loaded at `base`.
fn print_reading<W: Write>(
    alloc: Global,
    reading: Reading,
    base: u64,
    out: &mut W,
) -> Result<Status, IoStop>
    ensures done { IfOk result (λ status. status ≡ Done) }
    ensures table { (records : List RecordSaid) → HasTaken base records reading → IfOk result (λ _.
        HasTable (answers_in_table (loaded_at base (answer_at records))) (W.contents out.old) (W.contents out.new)) }
    ensures begun { (records : List RecordSaid) → HasTaken base records reading → OnErr result (
        Keeps (W.contents out.old) (W.contents out.new)
        ⊎ BeginsPathTable Four (answers_in_table (loaded_at base (answer_at records))) (W.contents out.old) (W.contents out.new)) }
    ensures err { IfErr result IsPrinting }
{
    let Reading { names, pieces, .. } = reading;
    write_pieces(alloc, pieces, &names, out)?;
    Ok(Status::Done)
}
