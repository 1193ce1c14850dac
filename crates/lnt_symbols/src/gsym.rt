//! Prints the table of a GSYM file.
ghost use Rattle.std.specs.Prelude.{◌≡◌, ◌⊎◌, IfErr, IfOk, OnErr};
ghost use Rattle.std.specs.Io.KnownBytes.{Keeps};
ghost use Rattle.lnt_writing.specs.Canonical.{BeginsPathTable};
ghost use Rattle.lnt_gsym.specs.GsymAnswers.{gsym_answer};
ghost use Rattle.lnt_gsym.specs.GsymFiles as file;
ghost use Rattle.lnt_gsym.specs.Spanning.{HasRead};
ghost use Rattle.lnt_io.specs.IoStops.{IsPrinting};
ghost use Rattle.lnt_io.specs.declared.status.Status.TheVariants.{Done};
ghost use Rattle.lnt_records.specs.declared.path_records.version.PathVersion.TheVariants.{Four};
ghost use Rattle.lnt_symbols.specs.Pieces.{HasTable};
ghost use Rattle.lnt_symbols.specs.SymbolTables.{BeginsPrinted, HasPrinted, answers_in_table, gsym_answers};

use crate::fault::SymbolFault;
use lnt_gsym::{Functions, GsymSpans, Names, read_gsym};
use lnt_io::{IoStop, Status, print_line};
use lnt_records::PathVersion;
use lnt_wire::Order;
use lnt_writing::write_instructions_by_path;
use std::alloc::Global;
use std::io::Write;

/// Prints the table of the file with these bytes, whose numbers have this order, or the line of its first fault.
#[tactic(auto, using(crate::proofs::GsymLemmas::printed_table, crate::proofs::GsymLemmas::begun_table, crate::proofs::GsymLemmas::printed_fault, crate::proofs::GsymLemmas::begun_fault))]
pub(crate) fn print_gsym<W: Write>(
    alloc: Global,
    order: Order,
    bytes: &[u8],
    out: &mut W,
) -> Result<Status, IoStop>
    ensures printed { IfOk result (λ status. HasPrinted (gsym_answers order bytes.now) (W.contents out.old) (W.contents out.new) status) }
    ensures begun { OnErr result (Keeps (W.contents out.old) (W.contents out.new)
        ⊎ BeginsPrinted (gsym_answers order bytes.now) (W.contents out.old) (W.contents out.new)) }
    ensures err { IfErr result IsPrinting }
{
    match read_gsym(order, bytes) {
        Ok((functions, names)) => print_spans(alloc, functions, &names, out),
        Err(fault) => {
            print_line(alloc, &SymbolFault::Gsym(fault), out)?;
            Ok(Status::No)
        }
    }
}

// Prints the table of the file with these functions and names.
fn print_spans<W: Write>(
    alloc: Global,
    functions: Functions<'_>,
    names: &Names<'_>,
    out: &mut W,
) -> Result<Status, IoStop>
    ensures done { IfOk result (λ status. status ≡ Done) }
    ensures table { IfOk result (λ _. (gsym : file.Gsym) → HasRead functions.entry names.now gsym
        → HasTable (answers_in_table (gsym_answer gsym)) (W.contents out.old) (W.contents out.new)) }
    ensures begun { OnErr result ((gsym : file.Gsym) → HasRead functions.entry names.now gsym
        → Keeps (W.contents out.old) (W.contents out.new)
        ⊎ BeginsPathTable Four (answers_in_table (gsym_answer gsym)) (W.contents out.old) (W.contents out.new)) }
    ensures err { IfErr result IsPrinting }
{
    match write_instructions_by_path(
        alloc,
        GsymSpans::of(functions, names),
        names,
        PathVersion::Four,
        out,
    ) {
        Ok(()) => Ok(Status::Done),
        Err(stop) => Err(IoStop::from(stop)),
    }
}
