//! A whole section, judged.
ghost use Rattle.std.specs.Prelude.{◌≡◌, ◌-◌, ◌^◌, ◌<◌, true, false, IfOk, IfErr, IfSome};
ghost use Rattle.lnt_lines.specs.Judging.{IsIndexOfSection, IsIndexWithCopies, IsJudged, IsJudgedIndex, IsJudgedWithCopies};
ghost use Rattle.lnt_lines.specs.Stepping.{IsDraftOfSection, IsRefusal};
ghost use Rattle.lnt_unit.specs.declared.reader.Progress.TheVariants.{Reading};
ghost use Rattle.lnt_unit.specs.Readers.{loan_of, offset_of, order_of, progress_of, source_of};
ghost use Rattle.lnt_io.specs.Stopping.{CountsFailure, IsTooLongOn};

use crate::draft::Draft;
use crate::index::Index;
use crate::index_lines::lines_of;
use crate::lines::Lines;
use crate::no::No;
use crate::options::Options;
use crate::refusal::Refusal;
use lnt_files::StringEnds;
use lnt_io::{Source, Stop};
use lnt_unit::SectionReader;
use lnt_wire::Strings;
use std::alloc::Global;

/// What a section was judged to be.
#[derive(Debug, Drop)]
pub enum Judged {
    /// It is good, and these are its lines.
    Good(Lines),
    /// It isn't good, and this is the first reason.
    Bad(No),
}

/// What a section was judged to be, with the index of a good one.
#[derive(Drop)]
pub enum JudgedIndex<'a> {
    /// It is good, and this is its index.
    Good(Index<'a>),
    /// It isn't good, and this is the first reason.
    Bad(No),
}

/// Judges the section from the source, a section `.debug_line` (DWARF 5, section 6.2). Its strings may be in these string
/// sections.
///
/// It is good if its bytes are consecutive units and nothing else, whose programs run and whose tables are usable, and
/// whose live sequences name existing files, never fall, and share no position, except copies if these are skipped. Its
/// lines answer at each position what the last row at or before it says, in the live sequence that holds it. Otherwise the
/// first thing that is wrong is reported (`No`). Units are read from the source one at a time, so an error in one is
/// reported before later bytes are read.
///
/// Stops with `Memory`; with `Read` only if the source failed; and with `TooLong` only if the source has more bytes than it
/// may give. A stop isn't a verdict. How far the source was read is unspecified. The caller ensures that the number of the
/// source's failures is below `u64::MAX`.
pub fn verify<R: Source>(
    alloc: Global,
    section: &mut R,
    strings: &Strings<'_>,
    options: &Options,
) -> Result<Judged, Stop>
    requires { R.failures section.old < 2 ^ 64 - 1 }
    ensures judged { IfOk result (λ judged. IfSome (R.remaining section.old) (λ bytes.
        IsJudged strings.now.line.now strings.now.general.now options.now bytes judged)) }
    ensures failures { CountsFailure ⟦<R as Source>⟧ section.old section.new result Stop.Read }
    ensures too_long { IsTooLongOn ⟦<R as Source>⟧ section.old section.new result Stop.TooLong }
    ensures whole { (lines : Lines) → result ≡ Ok (Judged.Good lines) → R.too_long section.new ≡ false }
{
    match index_section(alloc, section, strings, options)? {
        JudgedIndex::Good(index) => Ok(Judged::Good(lines_of(alloc, &index)?)),
        JudgedIndex::Bad(no) => Ok(Judged::Bad(no)),
    }
}

/// Judges the section as `verify` does, and returns the index of a good one instead of its lines: no list of rows, spans or
/// paths is made. It stops as `verify` does.
pub fn index_section<'a, R: Source>(
    alloc: Global,
    section: &mut R,
    strings: &Strings<'a>,
    options: &Options,
) -> Result<JudgedIndex<'a>, Stop>
    requires { R.failures section.old < 2 ^ 64 - 1 }
    ensures judged { IfOk result (λ judged. IfSome (R.remaining section.old) (λ bytes.
        IsJudgedIndex strings.now.line.now strings.now.general.now options.now bytes judged)) }
    ensures failures { CountsFailure ⟦<R as Source>⟧ section.old section.new result Stop.Read }
    ensures too_long { IsTooLongOn ⟦<R as Source>⟧ section.old section.new result Stop.TooLong }
    ensures whole { (index : Index) → result ≡ Ok (JudgedIndex.Good index) → R.too_long section.new ≡ false }
{
    index_as(alloc, section, strings, options, false)
}

/// Judges the section as `index_section` does, and returns the index of a good one with the extents of all live sequences that
/// hold positions, copies too (`Index::live`): 48 bytes for each. It stops as `verify` does.
pub fn index_with_copies<'a, R: Source>(
    alloc: Global,
    section: &mut R,
    strings: &Strings<'a>,
    options: &Options,
) -> Result<JudgedIndex<'a>, Stop>
    requires { R.failures section.old < 2 ^ 64 - 1 }
    ensures judged { IfOk result (λ judged. IfSome (R.remaining section.old) (λ bytes.
        IsJudgedWithCopies strings.now.line.now strings.now.general.now options.now bytes judged)) }
    ensures failures { CountsFailure ⟦<R as Source>⟧ section.old section.new result Stop.Read }
    ensures too_long { IsTooLongOn ⟦<R as Source>⟧ section.old section.new result Stop.TooLong }
    ensures whole { (index : Index) → result ≡ Ok (JudgedIndex.Good index) → R.too_long section.new ≡ false }
{
    index_as(alloc, section, strings, options, true)
}

// Judges the section, and returns the index of a good one, with the extents of all live sequences if these are asked for.
fn index_as<'a, R: Source>(
    alloc: Global,
    section: &mut R,
    strings: &Strings<'a>,
    options: &Options,
    with_copies: bool,
) -> Result<JudgedIndex<'a>, Stop>
    requires { R.failures section.old < 2 ^ 64 - 1 }
    ensures judged { IfOk result (λ judged. IfSome (R.remaining section.old) (λ bytes.
        IsJudgedIndex strings.now.line.now strings.now.general.now options.now bytes judged)) }
    ensures copies { with_copies ≡ true → IfOk result (λ judged. IfSome (R.remaining section.old) (λ bytes.
        IsJudgedWithCopies strings.now.line.now strings.now.general.now options.now bytes judged)) }
    ensures failures { CountsFailure ⟦<R as Source>⟧ section.old section.new result Stop.Read }
    ensures too_long { IsTooLongOn ⟦<R as Source>⟧ section.old section.new result Stop.TooLong }
    ensures whole { (index : Index) → result ≡ Ok (JudgedIndex.Good index) → R.too_long section.new ≡ false }
{
    match judge_section(alloc, section, strings, options, with_copies) {
        Ok(index) => Ok(JudgedIndex::Good(index)),
        Err(Refusal::No(no)) => Ok(JudgedIndex::Bad(no)),
        Err(Refusal::Stop(stop)) => Err(stop),
    }
}

// The index of the section, with the extents of all live sequences if these are asked for; or why there is none.
fn judge_section<'a, R: Source>(
    alloc: Global,
    section: &mut R,
    strings: &Strings<'a>,
    options: &Options,
    with_copies: bool,
) -> Result<Index<'a>, Refusal>
    requires { R.failures section.old < 2 ^ 64 - 1 }
    ensures good { IfOk result (λ index. IfSome (R.remaining section.old) (λ bytes.
        IsIndexOfSection strings.now.line.now strings.now.general.now options.now bytes index)) }
    ensures copies { with_copies ≡ true → IfOk result (λ index. IfSome (R.remaining section.old) (λ bytes.
        IsIndexWithCopies strings.now.line.now strings.now.general.now options.now bytes index)) }
    ensures bad { IfErr result (λ refusal. IfSome (R.remaining section.old) (λ bytes.
        IsRefusal strings.now.line.now strings.now.general.now options.now bytes refusal)) }
    ensures failures { CountsFailure ⟦<R as Source>⟧ section.old section.new result (Refusal.Stop Stop.Read) }
    ensures too_long { IsTooLongOn ⟦<R as Source>⟧ section.old section.new result (Refusal.Stop Stop.TooLong) }
    ensures whole { IfOk result (λ _. R.too_long section.new ≡ false) }
{
    let mut reader = SectionReader::new(section, options.order);
    let draft = judge_units(alloc, &mut reader, strings, options)?;
    let live = draft.live(alloc, with_copies)?;
    Ok(draft.index(strings, live, options.skip_copies)?)
}

// Judges the units from the reader, up to the end of the section or the first that isn't valid.
fn judge_units<R: Source>(
    alloc: Global,
    reader: &mut SectionReader<'_, R>,
    strings: &Strings<'_>,
    options: &Options,
) -> Result<Draft, Refusal>
    requires reading { progress_of reader.old ≡ Reading }
    requires offset { offset_of reader.old ≡ 0 }
    requires order { order_of reader.old ≡ options.now.order }
    ensures draft { IfOk result (IsDraftOfSection strings.now.line.now strings.now.general.now options.now
        (R.remaining (source_of reader.old))) }
    ensures bad { IfErr result (λ refusal. IfSome (R.remaining (source_of reader.old)) (λ bytes.
        IsRefusal strings.now.line.now strings.now.general.now options.now bytes refusal)) }
    ensures failures { CountsFailure ⟦<R as Source>⟧ (source_of reader.old) (source_of reader.new) result (Refusal.Stop Stop.Read) }
    ensures too_long { IsTooLongOn ⟦<R as Source>⟧ (source_of reader.old) (source_of reader.new) result (Refusal.Stop Stop.TooLong) }
    ensures whole { IfOk result (λ _. R.too_long (source_of reader.new) ≡ false) }
    ensures same_reference { loan_of reader.new ≡ loan_of reader.old }
{
    let mut draft = Draft::new(alloc);
    let mut room = Vec::new(alloc);
    let ends = StringEnds::of(*strings);
    loop {
        match reader.next_unit_in(room) {
            Ok(Some(buffer)) => room = draft.add_unit(alloc, buffer, &ends, options.dead)?,
            Ok(None) => return Ok(draft),
            Err(stop) => return Err(Refusal::of_stop(stop)),
        }
    }
}
