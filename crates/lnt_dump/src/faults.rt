//! How faults end the printing.
ghost use Rattle.std.specs.Prelude.{◌≡◌, ◌≢◌, ◌⊎◌, ◌++◌, IfErr, IfOk, OnErr, OnOk, Some, codes};
ghost use Rattle.std.specs.Io.KnownBytes.{Appends, Keeps};
ghost use Rattle.lnt_io.specs.Prefixes.{AppendsPrefix};
ghost use Rattle.lnt_io.specs.IoStops.{IsPrinting};
ghost use Rattle.lnt_io.specs.declared.status.Status.TheVariants.{No};
ghost use Rattle.lnt_text.specs.Texts.{malformed_text};
ghost use Rattle.lnt_dump.specs.Dumps.{fault_line};

use lnt_io::{IoStop, Status, print_line};
use lnt_machine::{RowFault, RunFault, RunLine};
use lnt_text::MalformedLine;
use lnt_wire::{Fault, Reason};
use std::alloc::Global;
use std::io::Write;

// Prints the line that says which bytes are rejected, and why, or a prefix of it. Lack of memory has no line: it is a stop.
pub(crate) fn print_fault<W: Write>(
    alloc: Global,
    fault: Fault,
    out: &mut W,
) -> Result<Status, IoStop>
    ensures no { IfOk result (λ status. status ≡ No) }
    ensures err { IfErr result IsPrinting }
    ensures line { OnOk result (Appends (W.contents out.old) (W.contents out.new) (malformed_text fault ++ codes "\n")) }
    ensures prefix { OnErr result (AppendsPrefix (W.contents out.old) (W.contents out.new) (malformed_text fault ++ codes "\n")) }
    ensures not_memory { OnOk result (fault.reason ≢ Reason.Memory) }
    ensures kept { OnErr result (Keeps (W.contents out.old) (W.contents out.new) ⊎ (fault.reason ≢ Reason.Memory)) }
{
    if fault.reason == Reason::Memory {
        return Err(IoStop::Memory);
    }
    print_line(alloc, &MalformedLine(fault), out)?;
    Ok(Status::No)
}

// Prints the line of the fault of the unit at the offset, or a prefix of it.
pub(crate) fn print_unit_fault<W: Write>(
    alloc: Global,
    offset: u64,
    fault: RowFault,
    out: &mut W,
) -> Result<Status, IoStop>
    ensures no { IfOk result (λ status. status ≡ No) }
    ensures err { IfErr result IsPrinting }
    ensures line { OnOk result (Appends (W.contents out.old) (W.contents out.new) (fault_line offset (Some fault))) }
    ensures prefix { OnErr result (AppendsPrefix (W.contents out.old) (W.contents out.new) (fault_line offset (Some fault))) }
{
    match fault {
        RowFault::Malformed(fault) => print_fault(alloc, fault, out),
        RowFault::Run(RunFault::Memory) => Err(IoStop::Memory),
        RowFault::Run(fault) => {
            print_line(alloc, &RunLine(offset, fault), out)?;
            Ok(Status::No)
        }
    }
}
