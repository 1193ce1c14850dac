//! One unit, judged.
ghost use Rattle.std.specs.Prelude.{◌≡◌, ◌≤◌, length, IfOk, IfErr, MatchOption, option_map};
ghost use Rattle.lnt_lines.specs.declared.no.No.TheVariants.{Falls};
ghost use Rattle.lnt_lines.specs.Judging.{IsFlawedRun, IsJudgedSound, IsSoundRun, IsUnitRefusal, kept_program_of};
ghost use Rattle.lnt_lines.specs.Running.{missing_no, table_no};

use crate::no::No;
use crate::refusal::Refusal;
use crate::run::{Findings, run_unit};
use lnt_files::in_place::tables_fault;
use lnt_files::{EntryTableFault, StringEnds};
use lnt_header_bytes::KeptHeader;
use lnt_sequences::{Collected, MissingFile};
use lnt_unit::{UnitBuffer, UnitInPlace};
use std::alloc::{AllocError, Global};

/// What is kept of a valid unit, apart from its program.
#[derive(Drop)]
pub(crate) struct SoundUnit {
    pub header: KeptHeader,
    /// The number of bytes of the unit before its program, which extends to the unit's end.
    pub start: usize,
    /// Where its sequences begin in the program.
    pub places: Vec<usize>,
}

/// Judges the unit in the buffer. For a valid unit it returns what is kept, and adds what its live sequences hold to what
/// is collected. Its header shares its numbers and formats with the other header if they are the same.
///
/// Fails with the first thing that is wrong, in the order of the numbers of `No`, or with `Memory`. After an error, what is
/// collected is unspecified.
pub(crate) fn judge_unit(
    alloc: Global,
    buffer: &UnitBuffer,
    ends: &StringEnds<'_>,
    dead: Option<u64>,
    collected: &mut Collected,
    other: Option<&KeptHeader>,
) -> Result<SoundUnit, Refusal>
    ensures sound { IfOk result (λ unit. IsJudgedSound ends.now.line ends.now.general dead buffer.now collected.old collected.new
        (kept_program_of buffer.now unit)) }
    ensures within { IfOk result (λ unit. unit.start ≤ length buffer.now.bytes) }
    ensures err { IfErr result (IsUnitRefusal ends.now.line ends.now.general dead buffer.now) }
{
    let view = UnitInPlace::over(alloc, buffer)?;
    match judge_run(alloc, &view, buffer.offset(), ends, dead, collected) {
        Ok(places) => Ok(sound_unit(alloc, view, places, other)?),
        Err(refusal) => {
            drop(view);
            Err(refusal)
        }
    }
}

// Judges the unit at an offset, whose header is valid, and adds what its live sequences hold to what is collected. For a
// valid unit it returns where its sequences begin in the program.
fn judge_run(
    alloc: Global,
    view: &UnitInPlace<'_>,
    unit: u64,
    ends: &StringEnds<'_>,
    dead: Option<u64>,
    collected: &mut Collected,
) -> Result<Vec<usize>, Refusal>
    requires { unit ≡ view.now.unit.offset }
    ensures sound { IfOk result (λ places. IsJudgedSound ends.now.line ends.now.general dead view.now.unit
        collected.old collected.new (record { header = view.now.header; program = view.now.program; places = places.items })) }
    ensures err { IfErr result (IsUnitRefusal ends.now.line ends.now.general dead view.now.unit) }
{
    let mut places = Vec::new(alloc);
    let found = run_unit(alloc, view, unit, dead, collected, &mut places)?;
    match flaw_of(view, unit, found, ends) {
        Some(no) => Err(Refusal::No(no)),
        None => Ok(places),
    }
}

// The first thing that is wrong with the unit at an offset, whose program ran to its end, and with whose rows this was found wrong.
// `None` if it is valid.
fn flaw_of(view: &UnitInPlace<'_>, unit: u64, found: Findings, ends: &StringEnds<'_>) -> Option<No>
    requires { unit ≡ view.now.unit.offset }
    ensures { MatchOption result (IsSoundRun ends.now.line ends.now.general view.now found)
        (IsFlawedRun ends.now.line ends.now.general view.now found) }
{
    let tables = tables_no(unit, tables_fault(&view.header(), ends));
    let missing = missing_no(unit, found.missing);
    let falls = falls_no(unit, found.falls);
    tables.or(missing).or(falls)
}

// What is kept of a valid unit, whose sequences begin at these places. Fails only if memory runs out.
fn sound_unit(
    alloc: Global,
    view: UnitInPlace<'_>,
    mut places: Vec<usize>,
    other: Option<&KeptHeader>,
) -> Result<SoundUnit, AllocError>
    ensures kept { IfOk result (λ unit. kept_program_of view.entry.unit unit
        ≡ record { header = view.entry.header; program = view.entry.program; places = places.items }) }
    ensures within { IfOk result (λ unit. unit.start ≤ length view.entry.unit.bytes) }
{
    let (header, start) = view.into_parts();
    let header = header.keep(alloc, other)?;
    places.shrink_to_fit();
    Ok(SoundUnit {
        header,
        start,
        places,
    })
}

// What is wrong with the tables of the unit at an offset, if anything is.
fn tables_no(unit: u64, fault: Option<EntryTableFault>) -> Option<No>
    ensures { result ≡ option_map (table_no unit) fault }
{
    Some(match fault? {
        EntryTableFault::EntryFormat(which) => No::EntryFormat(unit, which),
        EntryTableFault::StringOutside(which, entry) => No::StringOutside(unit, which, entry),
        EntryTableFault::DirectoryNumber(file) => No::DirectoryNumber(unit, file),
    })
}

// What is wrong with the unit at an offset if one of its rows names a missing file.
fn missing_no(unit: u64, missing: Option<MissingFile>) -> Option<No>
    ensures { result ≡ option_map (missing_no unit) missing }
{
    let MissingFile { row, file } = missing?;
    Some(No::FileNumber(unit, row, file))
}

// What is wrong with the unit at an offset if the position of one of its rows falls.
fn falls_no(unit: u64, row: Option<u64>) -> Option<No>
    ensures { result ≡ option_map (Falls unit) row }
{
    Some(No::Falls(unit, row?))
}
