//! Writes the table of a section's lines.
ghost use Rattle.std.specs.Prelude.{◌⊎◌, ℕ, List, OnErr, OnOk};
ghost use Rattle.std.specs.Io.KnownBytes.{Appends, Keeps};
ghost use Rattle.lnt_writing.specs.Canonical.{BeginsCanonicalTable};
ghost use Rattle.lnt_lines.specs.Indexed.{OfUnits};
ghost use Rattle.lnt_table.specs.Written.{BeginsTableOfUnits, IsTableOfLines, IsTableOfUnits};

use lnt_lines::{Index, Lines};
use lnt_records::{WriteStop, write_spans};
use lnt_spans::Version;
use lnt_writing::write_canonical;
use std::alloc::Global;
use std::io::Write;

/// Writes the table of these lines, in this version, block by block.
///
/// If it returns Ok, the bytes that were written are a table of exactly the canonical spans of the lines: the one shortest
/// table with the answers of the lines, in the fields of its version. Each record is on a line of its own.
///
/// Stops with `Memory` (33) if memory ran out, and with `Write` (42) if the writer failed. If it stops, nothing has been
/// written, or a prefix of the column names and the lines of the first canonical spans. No contract of a writer says when
/// it fails, so no clause says that `Write` is returned only then.
pub fn write_table<W: Write>(
    alloc: Global,
    lines: &Lines,
    version: Version,
    out: &mut W,
) -> Result<(), WriteStop>
    ensures table { OnOk result ((bytes : List ℕ) × Appends (W.contents out.old) (W.contents out.new) bytes
        × IsTableOfLines version lines.now.spans bytes) }
    ensures begun { OnErr result (Keeps (W.contents out.old) (W.contents out.new)
        ⊎ BeginsCanonicalTable version lines.now.spans (W.contents out.old) (W.contents out.new)) }
{
    let Ok(spans) = lines.canonical(alloc, version) else {
        return Err(WriteStop::Memory);
    };
    write_spans(alloc, &spans, version, out)
}

/// Writes the table of the units that an index was made of, in this version, block by block, without a list of their spans.
///
/// If it returns Ok, the bytes that were written are a table of exactly the canonical spans with the answers of the units'
/// rows, in the fields of its version: the one shortest table with these answers. These are the bytes that `write_table`
/// writes for the lines of the units. Stops as `write_table` does; then a prefix of that table has been written.
pub fn write_index<W: Write>(
    alloc: Global,
    index: &Index<'_>,
    version: Version,
    out: &mut W,
) -> Result<(), WriteStop>
    ensures table { OnOk result ((bytes : List ℕ) × Appends (W.contents out.old) (W.contents out.new) bytes
        × OfUnits index.now (λ selection. IsTableOfUnits version selection bytes)) }
    ensures begun { OnErr result (OfUnits index.now (λ selection.
        BeginsTableOfUnits version selection (W.contents out.old) (W.contents out.new))) }
{
    write_canonical(alloc, index.spans(), version, out)
}
