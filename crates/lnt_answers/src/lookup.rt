//! Prints the answer at a position.
ghost use Rattle.std.specs.Prelude.{◌≡◌, [], ◌++◌, IfErr, IfOk, OnErr, OnOk, flat_map};
ghost use Rattle.std.specs.Io.KnownBytes.{Appends};
ghost use Rattle.lnt_io.specs.declared.status.Status.TheVariants.{Done};
ghost use Rattle.lnt_io.specs.Prefixes.{AppendsPrefix};
ghost use Rattle.lnt_io.specs.IoStops.{IsPrinting};
ghost use Rattle.lnt_lines.specs.Indexed.{OfUnits};
ghost use Rattle.lnt_answers.specs.Lines.{lookup_line};

use crate::answer_line::{put_answer, put_none};
use crate::line_ends::LineEnds;
use lnt_io::{IoStop, Status, write_whole};
use lnt_lines::{Index, KeepsFrom, Lookups};
use lnt_spans::{Position, Probes};
use std::alloc::{AllocError, Global};
use std::io::Write;
use std::marker::Model;

// Lookups in an index, with a cache of the ends of the lines that are printed.
//
// Contracts see the index, as those of `Lookups` do, but not the cache.
#[derive(Drop)]
pub(crate) struct CachedLookups<'i, 'a> {
    lookups: Lookups<'i, 'a>,
    ends: LineEnds,
}

impl<'i, 'a> Model for CachedLookups<'i, 'a> {
    ghost use Rattle.lnt_answers.specs.AddressBlocks.{AreEndsOf};
    ghost use Rattle.lnt_lines.specs.Indexed.{Indexed};

    ghost Value = { Indexed };

    ghost view = { λ c. c.lookups };

    ghost invariant = { λ c. AreEndsOf c.lookups c.ends.slots.items };
}

impl<'i, 'a> CachedLookups<'i, 'a> {
    // Lookups in this index. Fails only if memory runs out.
    pub(crate) fn new(
        alloc: Global,
        index: &'i Index<'a>,
        keeps: KeepsFrom,
    ) -> Result<CachedLookups<'i, 'a>, AllocError>
        ensures { IfOk result (λ lookups. lookups ≡ index.entry.now) }
    {
        let lookups = Lookups::new(alloc, index, keeps)?;
        let ends = LineEnds::new(alloc)?;
        Ok(CachedLookups { lookups, ends })
    }
}

// Appends the line with the answer at the position and the path of its file, or that there is no answer.
pub(crate) fn put_lookup(
    alloc: Global,
    lookups: &mut CachedLookups<'_, '_>,
    position: Position,
    line: &mut Vec<u8>,
) -> Result<(), AllocError>
    ensures index { lookups.new ≡ lookups.old }
    ensures line { OfUnits lookups.old (λ selection.
        OnOk result (line.new.items ≡ line.old.items ++ lookup_line lookups.old selection position)) }
{
    let found = lookups.lookups.lookup(alloc, position, &mut Probes::new())?;
    let Some(answer) = found else {
        put_none(position, line)?;
        return Ok(());
    };
    put_answer(position, &answer, line)?;
    let index = lookups.lookups.index();
    lookups
        .ends
        .put_end(alloc, index, answer.unit, answer.file, line)?;
    Ok(())
}

// Writes the lines that were made, and empties their buffer.
pub(crate) fn send<W: Write>(lines: &mut Vec<u8>, out: &mut W) -> Result<(), IoStop>
    ensures whole { OnOk result (Appends (W.contents out.old) (W.contents out.new) lines.old.items) }
    ensures empty { OnOk result (lines.new.items ≡ []) }
    ensures prefix { OnErr result (AppendsPrefix (W.contents out.old) (W.contents out.new) lines.old.items) }
    ensures err { IfErr result IsPrinting }
{
    write_whole(out, lines.as_slice())?;
    lines.clear();
    Ok(())
}

/// Prints a line for each of these positions, in their order: `0xADDRESS,OP unit U file F line L column C stmt S path "PATH"`,
/// or `0xADDRESS,OP none`. The unit's offset in the section and the file's index, counted from 0, are decimal.
///
/// Returns `Done`. Stops with `Write` if the writer failed, and with `Memory`. If it stops, a prefix of these lines has
/// been written, and nothing else.
pub fn print_lookups<W: Write>(
    alloc: Global,
    index: &Index<'_>,
    positions: &[Position],
    out: &mut W,
) -> Result<Status, IoStop>
    ensures done { IfOk result (λ status. status ≡ Done) }
    ensures err { IfErr result (λ io_stop. IsPrinting io_stop) }
    ensures lines { OfUnits index.now (λ selection.
        OnOk result (Appends (W.contents out.old) (W.contents out.new) (flat_map (lookup_line index.now selection) positions.now))) }
    ensures prefix { OfUnits index.now (λ selection. OnErr result (AppendsPrefix (W.contents out.old) (W.contents out.new)
        (flat_map (lookup_line index.now selection) positions.now))) }
{
    let mut lookups = CachedLookups::new(alloc, index, KeepsFrom::Second)?;
    let mut line = Vec::new(alloc);
    for position in positions {
        put_lookup(alloc, &mut lookups, *position, &mut line)?;
        send(&mut line, out)?;
    }
    Ok(Status::Done)
}
