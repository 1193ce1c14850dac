//! Writes the table of pieces.
ghost use Rattle.std.specs.Prelude.{◌⊎◌, Option, OnErr, OnOk};
ghost use Rattle.std.specs.Io.KnownBytes.{Keeps};
ghost use Rattle.lnt_spans.specs.declared.position.Position as position;
ghost use Rattle.lnt_records.specs.PathSpans.{PathAnswer};
ghost use Rattle.lnt_records.specs.declared.path_records.version.PathVersion.TheVariants.{Four};
ghost use Rattle.lnt_writing.specs.Canonical.{BeginsPathTable};
ghost use Rattle.lnt_symbols.specs.Pieces.{AnswerSo, HasTable, all_pieces};

use crate::pieces::{PieceSpans, Pieces};
use lnt_records::{PathVersion, Paths, WriteStop};
use lnt_writing::write_instructions_by_path;
use std::alloc::{AllocError, Global};
use std::io::Write;

/// Writes the canonical table by path, in version 4, of what pieces answer, block by block. They are put in order first.
///
/// Stops with `Memory`, and with `Write` if the writer failed. If it stops, nothing or a prefix of the table has been written.
pub(crate) fn write_pieces<P: Paths, W: Write>(
    alloc: Global,
    mut pieces: Pieces,
    paths: &P,
    out: &mut W,
) -> Result<(), WriteStop>
    ensures table { OnOk result ((answers : position.Position → Option PathAnswer)
        → AnswerSo (P.bytes_of paths.now 0) (all_pieces pieces) answers
        → HasTable answers (W.contents out.old) (W.contents out.new)) }
    ensures begun { OnErr result ((answers : position.Position → Option PathAnswer)
        → AnswerSo (P.bytes_of paths.now 0) (all_pieces pieces) answers
        → Keeps (W.contents out.old) (W.contents out.new) ⊎ BeginsPathTable Four answers (W.contents out.old) (W.contents out.new)) }
{
    if let Err(AllocError) = pieces.put_in_order(alloc) {
        return Err(WriteStop::Memory);
    }
    match write_instructions_by_path(
        alloc,
        PieceSpans::of(&pieces),
        paths,
        PathVersion::Four,
        out,
    ) {
        Ok(()) => Ok(()),
        Err(stop) => Err(stop),
    }
}
