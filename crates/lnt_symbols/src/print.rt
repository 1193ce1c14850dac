//! Prints the address table of a symbol file.
ghost use Rattle.std.specs.Prelude.{◌-◌, ◌^◌, ◌<◌, ◌⊎◌, IfErr, IfOk, IfSome, OnErr, IsErrOf};
ghost use Rattle.std.specs.Io.KnownBytes.{Keeps};
ghost use Rattle.lnt_io.specs.IoStops.{IsPrinting};
ghost use Rattle.lnt_io.specs.Stopping.{CountsFailure, IsTooLongOn};
ghost use Rattle.lnt_symbols.specs.SymbolTables.{BeginsPrinted, HasPrinted, symbol_answers};

use crate::breakpad::{print_breakpad, print_short};
use crate::gsym::print_gsym;
use lnt_compare::Window;
use lnt_gsym::order_of;
use lnt_io::{IoStop, Source, Status};
use std::alloc::Global;
use std::io::Write;

/// Prints the canonical address table by path, in version 4, of what a symbol file answers at each address. The address 0 of a Breakpad
/// file is loaded at `base`; a GSYM file has a base of its own. If the file isn't a symbol file, it prints the line of its first fault
/// (45), and nothing else.
///
/// Returns `Done` if the table is printed, and `No` if that line is. Stops with `Read` only if the source failed, with `TooLong` only if
/// the source has more bytes than it may give, with `Write` if the writer failed, and with `Memory`. If it stops, nothing has been
/// written, or a prefix of the table or of that line; after `Read` and `TooLong`, nothing. The caller ensures that the number of the
/// source's failures is below `u64::MAX`.
pub fn print_symbols<R: Source, W: Write>(
    alloc: Global,
    file: &mut R,
    base: u64,
    out: &mut W,
) -> Result<Status, IoStop>
    requires { R.failures file.old < 2 ^ 64 - 1 }
    ensures printed { IfOk result (λ status. IfSome (R.remaining file.old) (λ bytes.
        HasPrinted (symbol_answers base bytes) (W.contents out.old) (W.contents out.new) status)) }
    ensures begun { OnErr result (Keeps (W.contents out.old) (W.contents out.new) ⊎ IfSome (R.remaining file.old) (λ bytes.
        BeginsPrinted (symbol_answers base bytes) (W.contents out.old) (W.contents out.new))) }
    ensures unread { IsErrOf result IoStop.Read ⊎ IsErrOf result IoStop.TooLong → Keeps (W.contents out.old) (W.contents out.new) }
    ensures failures { CountsFailure ⟦<R as Source>⟧ file.old file.new result IoStop.Read }
    ensures too_long { IsTooLongOn ⟦<R as Source>⟧ file.old file.new result IoStop.TooLong }
{
    let window = Window::of(alloc, file)?;
    if window.bytes().len() >= MAGIC && order_of(window.bytes()).is_none() {
        return print_breakpad(alloc, window, file, base, out);
    }
    let bytes = window.rest_after(alloc, &[], file)?;
    print_bytes(alloc, bytes.as_slice(), base, out)
}

// How many bytes tell whether it is a GSYM file.
const MAGIC: usize = 4;

// Prints the table of the symbol file with these bytes, or the line of its first fault.
fn print_bytes<W: Write>(
    alloc: Global,
    bytes: &[u8],
    base: u64,
    out: &mut W,
) -> Result<Status, IoStop>
    ensures printed { IfOk result (λ status. HasPrinted (symbol_answers base bytes.now) (W.contents out.old) (W.contents out.new) status) }
    ensures begun { OnErr result (Keeps (W.contents out.old) (W.contents out.new)
        ⊎ BeginsPrinted (symbol_answers base bytes.now) (W.contents out.old) (W.contents out.new)) }
    ensures err { IfErr result IsPrinting }
{
    match order_of(bytes) {
        Some(order) => print_gsym(alloc, order, bytes, out),
        None => print_short(alloc, bytes, base, out),
    }
}
