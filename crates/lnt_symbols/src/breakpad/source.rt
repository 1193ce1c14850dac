//! Reads a Breakpad file from its source, block by block.
ghost use Rattle.std.specs.Prelude.{◌-◌, ◌^◌, ◌<◌, ◌++◌, IfErr, IfOk, IfSome};
ghost use Rattle.lnt_io.specs.Stopping.{CountsFailure, IsTooLongOn};
ghost use Rattle.lnt_io.specs.declared.stop.Stop.TheVariants as stop;
ghost use Rattle.lnt_symbols.specs.Stepping.{AreTaken, IsHeldStop, IsStop};
ghost use Rattle.lnt_symbols.specs.declared.breakpad.file.ReadingStop.TheVariants.{Stop as ReadingStopped};

use crate::breakpad::file::{Reader, ReadingStop};
use crate::breakpad::reading::Reading;
use lnt_compare::Window;
use lnt_io::{BLOCK, Source};
use std::alloc::Global;

/// Reads the records of the file with these bytes, whose address 0 is loaded at `base`.
pub(crate) fn read_bytes(alloc: Global, bytes: &[u8], base: u64) -> Result<Reading, ReadingStop>
    ensures ok { IfOk result (AreTaken base bytes.now) }
    ensures err { IfErr result (IsStop bytes.now) }
    ensures held { IfErr result IsHeldStop }
{
    let mut reader = Reader::new(alloc, base);
    match reader.read(alloc, bytes, true) {
        Ok(_) => Ok(reader.reading),
        Err(stop) => Err(stop),
    }
}

/// Reads the records of the file whose bytes are those in the window and all that its source has left. It holds a block of them, or
/// twice the longest line.
pub(crate) fn read_file<R: Source>(
    alloc: Global,
    mut window: Window,
    file: &mut R,
    base: u64,
) -> Result<Reading, ReadingStop>
    requires { R.failures file.old < 2 ^ 64 - 1 }
    ensures ok { IfOk result (λ reading. IfSome (R.remaining file.old) (λ more. AreTaken base (window ++ more) reading)) }
    ensures err { IfErr result (λ stop. IfSome (R.remaining file.old) (λ more. IsStop (window ++ more) stop)) }
    ensures failures { CountsFailure ⟦<R as Source>⟧ file.old file.new result (ReadingStopped stop.Read) }
    ensures too_long { IsTooLongOn ⟦<R as Source>⟧ file.old file.new result (ReadingStopped stop.TooLong) }
{
    let mut reader = Reader::new(alloc, base);
    loop {
        let left = match reader.read(alloc, window.bytes(), false) {
            Ok(left) => left,
            Err(stop) => return Err(stop),
        };
        window.pass(window.bytes().len() - left);
        if let Err(stop) = window.fill(alloc, file, left.saturating_add(left.max(BLOCK))) {
            return Err(ReadingStop::Stop(stop));
        }
        if window.bytes().len() == left {
            break;
        }
    }
    let rest = match window.rest_after(alloc, &[], file) {
        Ok(rest) => rest,
        Err(stop) => return Err(ReadingStop::Stop(stop)),
    };
    match reader.read(alloc, &rest, true) {
        Ok(_) => Ok(reader.reading),
        Err(stop) => Err(stop),
    }
}
