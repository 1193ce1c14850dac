//! Files that are read, and not judged.
ghost use Rattle.std.specs.Prelude.{◌≡◌, ◌-◌, ◌^◌, ◌<◌, ◌⊎◌, IfErr, IfOk, IsErrOf, OnErr};
ghost use Rattle.std.specs.Io.KnownBytes.{Keeps};
ghost use Rattle.lnt_io.specs.Files.{IsTooLongFile, IsUnreadFile, RefusesOnly};
ghost use Rattle.lnt_io.specs.Stopping.{CountsFailure, IsTooLongOn};
ghost use Rattle.lnt_cli.specs.Answered.{AnswersUpgrade, IsOfBytes};
ghost use Rattle.lnt_cli.specs.Printings.{AnswersPrinting, BeginsPrinting};
ghost use Rattle.lnt_cli.specs.Questions.{AnswersReading, BeginsReading};
ghost use Rattle.lnt_cli.specs.Stops.{IsFileOfUpgrade, NamesOneOf, StopsIfRefused, StopsUpgrade, TellsFile};

use crate::inputs::{of_file, read_named};
use crate::notes::Answered;
use crate::stop::FileStop;
use lnt_dump::{DumpParts, print_converted, print_dump, print_units, print_upgraded};
use lnt_io::{Files, IoStop, OpenedFile, Source, Status, bytes_of_file};
use lnt_notes::{Seen, Watching};
use lnt_symbols::print_symbols;
use lnt_wire::Order;
use lnt_words::{Reading, Upgrading};
use std::alloc::Global;
use std::cell::Cell;
use std::io::Write;

// What is printed of a file that is read, and isn't judged.
#[derive(Clone, Copy)]
pub(crate) enum Printing {
    // this reading of a section whose numbers have this byte order
    Section(Order, Reading),
    // the address table of a symbol file whose address 0 is loaded here
    Symbols(u64),
}

// Prints this of the file with this name. `seen` keeps what notes need of its bytes.
pub(crate) fn answer_printing<'t, O: Files, W: Write>(
    alloc: Global,
    file: &str,
    printing: Printing,
    opener: &mut O,
    seen: &Cell<Seen>,
    out: &mut W,
) -> Result<Answered<'t>, FileStop>
    ensures named { IfErr result (NamesOneOf (λ name. file.now ≡ name)) }
    ensures answer { IfOk result (λ answered. IsOfBytes (O.finds opener.old) file.now (λ known.
        AnswersPrinting printing known (W.contents out.old) (W.contents out.new) answered.status)) }
    ensures stopped { OnErr result (Keeps (W.contents out.old) (W.contents out.new)
        ⊎ IsOfBytes (O.finds opener.old) file.now (λ known.
        BeginsPrinting printing known (W.contents out.old) (W.contents out.new))) }
    ensures refused { StopsIfRefused result (O.refused opener.old) (O.refused opener.new) }
    ensures cause { IfErr result (TellsFile (O.finds opener.old)) }
{
    let name = String::from_str(alloc, file)?;
    let printed = print_file(alloc, file, printing, opener, seen, out);
    let status = of_file(name, printed)?;
    Ok(Answered::plain(status))
}

// Prints a section with its older units written anew. The files are read before anything is written. `seen` keeps what notes
// need of the section's bytes.
pub(crate) fn upgrade_section<'t, O: Files, W: Write>(
    alloc: Global,
    from: &Upgrading<'_>,
    opener: &mut O,
    seen: &Cell<Seen>,
    out: &mut W,
) -> Result<Answered<'t>, FileStop>
    ensures named { IfErr result (NamesOneOf (IsFileOfUpgrade from.now)) }
    ensures answer { IfOk result (λ answered.
        AnswersUpgrade (O.finds opener.old) from.now (W.contents out.old) (W.contents out.new) answered.status) }
    ensures stopped { OnErr result (Keeps (W.contents out.old) (W.contents out.new)
        ⊎ StopsUpgrade (O.finds opener.old) from.now (W.contents out.old) (W.contents out.new)) }
    ensures refused { StopsIfRefused result (O.refused opener.old) (O.refused opener.new) }
    ensures cause { IfErr result (TellsFile (O.finds opener.old)) }
{
    let name = String::from_str(alloc, from.section)?;
    let read = bytes_of_file(alloc, opener, from.section, Watching::new(seen));
    let bytes = of_file(name, read)?;
    let text = read_named(alloc, opener, from.directories)?;
    let name = String::from_str(alloc, from.section)?;
    let size = from.address_size.bytes();
    let printed = print_upgraded(alloc, &bytes, from.order, size, text.as_deref(), out);
    let status = of_file(name, printed)?;
    Ok(Answered::plain(status))
}

// The same as `answer_printing`. The name isn't told if it is stopped.
fn print_file<O: Files, W: Write>(
    alloc: Global,
    file: &str,
    printing: Printing,
    opener: &mut O,
    seen: &Cell<Seen>,
    out: &mut W,
) -> Result<Status, IoStop>
    ensures answer { IfOk result (λ status. IsOfBytes (O.finds opener.old) file.now (λ known.
        AnswersPrinting printing known (W.contents out.old) (W.contents out.new) status)) }
    ensures stopped { OnErr result (Keeps (W.contents out.old) (W.contents out.new)
        ⊎ IsOfBytes (O.finds opener.old) file.now (λ known.
        BeginsPrinting printing known (W.contents out.old) (W.contents out.new))) }
    ensures refused { RefusesOnly (λ other. IsErrOf result IoStop.Read × (file.now ≡ other))
        (O.refused opener.old) (O.refused opener.new) }
    ensures unread { IsErrOf result IoStop.Read → IsUnreadFile (O.finds opener.old file.now) }
    ensures too_long { IsErrOf result IoStop.TooLong → IsTooLongFile (O.finds opener.old file.now) }
{
    let mut source = OpenedFile::open(alloc, opener, file, Watching::new(seen))?;
    let printed = print_source(alloc, &mut source, printing, out);
    source.tell_unread(opener);
    printed
}

// Prints this of a source.
fn print_source<R: Source, W: Write>(
    alloc: Global,
    source: &mut R,
    printing: Printing,
    out: &mut W,
) -> Result<Status, IoStop>
    requires { R.failures source.old < 2 ^ 64 - 1 }
    ensures printed { IfOk result (AnswersPrinting printing (R.remaining source.old) (W.contents out.old) (W.contents out.new)) }
    ensures begun { OnErr result (Keeps (W.contents out.old) (W.contents out.new)
        ⊎ BeginsPrinting printing (R.remaining source.old) (W.contents out.old) (W.contents out.new)) }
    ensures failures { CountsFailure ⟦<R as Source>⟧ source.old source.new result IoStop.Read }
    ensures too_long { IsTooLongOn ⟦<R as Source>⟧ source.old source.new result IoStop.TooLong }
{
    match printing {
        Printing::Section(order, reading) => print_reading(alloc, source, order, reading, out),
        Printing::Symbols(base) => print_symbols(alloc, source, base, out),
    }
}

// Prints what this reading of a section asks for: its units, a dump or the converted section.
fn print_reading<R: Source, W: Write>(
    alloc: Global,
    source: &mut R,
    order: Order,
    reading: Reading,
    out: &mut W,
) -> Result<Status, IoStop>
    requires { R.failures source.old < 2 ^ 64 - 1 }
    ensures printed { IfOk result (AnswersReading order reading (R.remaining source.old) (W.contents out.old) (W.contents out.new)) }
    ensures begun { OnErr result (Keeps (W.contents out.old) (W.contents out.new)
        ⊎ BeginsReading order reading (R.remaining source.old) (W.contents out.old) (W.contents out.new)) }
    ensures failures { CountsFailure ⟦<R as Source>⟧ source.old source.new result IoStop.Read }
    ensures too_long { IsTooLongOn ⟦<R as Source>⟧ source.old source.new result IoStop.TooLong }
{
    match reading {
        Reading::Units => print_units(alloc, source, order, out),
        Reading::Dump { ops, rows } => print_dump(
            alloc,
            source,
            order,
            DumpParts { ops, rows },
            out,
        ),
        Reading::Convert { format, to } => print_converted(alloc, source, order, format, to, out),
    }
}
