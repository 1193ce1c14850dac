//! Checks a section against an address table that may answer as any of the sequences that hold the same positions.
ghost use Rattle.std.specs.Prelude.{◌≡◌, ◌-◌, ◌^◌, ◌<◌, [], ◌∷◌, map, IfOk, IfSome};
ghost use Rattle.lnt_lines.specs.declared.no.No.{No as SectionNo};
ghost use Rattle.lnt_io.specs.declared.stop.Stop.TheVariants.{Read, TooLong};
ghost use Rattle.lnt_io.specs.Stopping.{IsEitherTooLongOn, CountsFailure, CountsFailures, IsTooLongOn};
ghost use Rattle.lnt_records.specs.Table.{BeginsWith, column_names};
ghost use Rattle.lnt_records.specs.PathSpans.{StandInOrder, path_answer, path_span_answer};
ghost use Rattle.lnt_compare.specs.Held.{held_span};
ghost use Rattle.lnt_compare.specs.PathStretches.{stretch_of as path_stretch_of};
ghost use Rattle.lnt_sequences.specs.Copies.{IsAnyAnswer};
ghost use Rattle.lnt_table.specs.AnyCopy.{IsTrueOfAny, skipping};
ghost use Rattle.lnt_table.specs.AnyVersion.{IsOfScope, IsTrueOfSectionWithin};
ghost use Rattle.lnt_table.specs.AskedTables.{IsAskedOf, IsReadByNumber, IsReadByPath};
ghost use Rattle.lnt_table.specs.Asked.{IsAsked, OfLive};
ghost use Rattle.lnt_table.specs.Headline.{indexed_path, told_path};

use crate::any_differing::differences_by_path;
use crate::asked::ask;
use crate::judged::JudgedOfKind;
use crate::kept::{ByNumber, ByPath};
use crate::kinds::OfKind;
use crate::verdict::{TableNo, Verdict};
use crate::within::CheckedWithin;
use lnt_compare::{
    DifferenceByPath, HeldSpan, Outcome, TableRead, Window, differ_records, hold_table,
};
use lnt_io::{Source, Stop};
use lnt_lines::{Index, JudgedIndex, Options, index_with_copies};
use lnt_records::{PathVersion, header_of};
use lnt_spans::{Coverage, Difference, Scope, Version};
use lnt_wire::Strings;
use std::alloc::{AllocError, Global};

/// Checks a section against an address table of any of the four versions, at the positions of this scope, as `check_within` does, but
/// copies are skipped, and the table is right at a position if its answer is that of any live sequence that holds it, copies too: that
/// of the last row at or before the position. It is right to have no answer if no live sequence holds the position. A linker that folds
/// equal functions leaves several sequences that begin and end at the same positions, and tools answer from any of them.
///
/// If it is not right everywhere in the scope, the difference is at the least position at which it isn't; the section's answer there is
/// that of the kept sequence. How much is answered counts as in `check_within`.
///
/// It holds the bytes of the table and its spans, and 48 bytes for each live sequence; and at a stretch of positions at which the kept
/// sequences answer otherwise, a cursor for each sequence that holds them. It decodes each of these once.
///
/// Stops as `check` does.
pub fn check_any_copy<R: Source, T: Source>(
    alloc: Global,
    section: &mut R,
    strings: &Strings<'_>,
    table: &mut T,
    options: &Options,
    scope: Scope,
) -> Result<CheckedWithin, Stop>
    requires section_fails { R.failures section.old < 2 ^ 64 - 1 }
    requires table_fails { T.failures table.old < 2 ^ 64 - 1 }
    ensures checked { IfOk result (λ checked. IfSome (R.remaining section.old) (λ bytes. IfSome (T.remaining table.old) (λ text.
        IsTrueOfAny scope strings.now.line.now strings.now.general.now (skipping options.now) bytes text checked))) }

    // What it says of the section is true whatever the table is, and if the section isn't good, the table isn't read.
    ensures of_section { IfOk result (λ checked. IfSome (R.remaining section.old) (λ bytes.
        IsTrueOfSectionWithin strings.now.line.now strings.now.general.now (skipping options.now) bytes checked)) }
    ensures of_scope { IfOk result (λ checked. IsOfScope checked scope) }
    ensures unread { (no : SectionNo) → result ≡ Ok (CheckedWithin.Checked (OfKind.Numbered (Verdict.No (TableNo.Section no))))
        → table.new ≡ table.old }
    ensures failures { CountsFailures ⟦<R as Source>⟧ section.old section.new ⟦<T as Source>⟧ table.old table.new result Stop.Read }
    ensures too_long { IsEitherTooLongOn ⟦<R as Source>⟧ section.old section.new ⟦<T as Source>⟧ table.old table.new result Stop.TooLong }
{
    let options = Options {
        skip_copies: true,
        ..*options
    };
    let index = match index_with_copies(alloc, section, strings, &options)? {
        JudgedIndex::Good(index) => index,
        JudgedIndex::Bad(no) => {
            let verdict = Verdict::No(TableNo::Section(no));
            return Ok(CheckedWithin::Checked(OfKind::Numbered(verdict)));
        }
    };
    let asked = ask_table(alloc, table, &index, scope)?;
    Ok(asked.told(scope))
}

// Asks the live sequences of the index for the answers of a table, by number or by path according to its header.
fn ask_table<T: Source>(
    alloc: Global,
    table: &mut T,
    index: &Index<'_>,
    scope: Scope,
) -> Result<JudgedOfKind, Stop>
    requires { T.failures table.old < 2 ^ 64 - 1 }
    ensures ok { IfOk result (λ asked. OfLive index.now (λ selection. IfSome (T.remaining table.old) (λ text.
        IsAskedOf index.now selection scope text asked))) }
    ensures failures { CountsFailure ⟦<T as Source>⟧ table.old table.new result Stop.Read }
    ensures too_long { IsTooLongOn ⟦<T as Source>⟧ table.old table.new result Stop.TooLong }
{
    let mut window = Window::of(alloc, table)?;
    let text = window.rest_after(alloc, &[], table)?;
    let asked = ask_text(alloc, &text, index, scope)?;
    Ok(asked)
}

// Does the same for a table whose bytes are all in memory.
fn ask_text(
    alloc: Global,
    text: &[u8],
    index: &Index<'_>,
    scope: Scope,
) -> Result<JudgedOfKind, AllocError>
    ensures { IfOk result (λ asked. OfLive index.now (λ selection. IsAskedOf index.now selection scope text.now asked)) }
{
    if let Some(version) = header_of::<Version>(alloc, text)? {
        let read = ask_numbers(alloc, text, index, version, scope)?;
        return Ok(OfKind::Numbered(read));
    }
    let read = ask_paths(alloc, text, index, scope)?;
    Ok(OfKind::ByPath(read))
}

// Asks them for the answers of a table by number with the header of this version.
fn ask_numbers(
    alloc: Global,
    text: &[u8],
    index: &Index<'_>,
    version: Version,
    scope: Scope,
) -> Result<Outcome<Difference>, AllocError>
    requires { BeginsWith text.now (column_names version ∷ []) }
    ensures { IfOk result (λ read. OfLive index.now (λ selection. IsReadByNumber selection scope text.now read)) }
{
    match differ_records(alloc, text, index.spans())? {
        TableRead::Fault(fault) => Ok(TableRead::Fault(fault)),
        TableRead::Table(differences) => {
            let kept = ByNumber {
                version,
                differences,
            };
            let asked = ask(alloc, kept, index, scope)?;
            Ok(TableRead::Table(asked))
        }
    }
}

// Asks them for the answers of a table by path.
fn ask_paths(
    alloc: Global,
    text: &[u8],
    index: &Index<'_>,
    scope: Scope,
) -> Result<Outcome<DifferenceByPath>, AllocError>
    ensures { IfOk result (λ read. OfLive index.now (λ selection. IsReadByPath index.now selection scope text.now read)) }
{
    match hold_table(alloc, text)? {
        TableRead::Fault(fault) => Ok(TableRead::Fault(fault)),
        TableRead::Table((version, spans)) => {
            let read = ask_held(alloc, &spans, index, version, scope);
            drop(spans);
            let asked = read?;
            Ok(TableRead::Table(asked))
        }
    }
}

// Asks them for the answers of a table by path of this version with these spans.
fn ask_held(
    alloc: Global,
    spans: &[HeldSpan],
    index: &Index<'_>,
    version: PathVersion,
    scope: Scope,
) -> Result<Result<Coverage, DifferenceByPath>, AllocError>
    requires { StandInOrder (map held_span spans.now) }
    ensures { IfOk result (λ asked. OfLive index.now (λ selection. IsAsked scope path_stretch_of
        (IsAnyAnswer (path_answer version (indexed_path index.now)) selection) (told_path version index.now selection)
        (path_span_answer (map held_span spans.now)) asked)) }
{
    let kept = ByPath {
        index,
        version,
        differences: differences_by_path(index, spans, version),
    };
    let asked = ask(alloc, kept, index, scope)?;
    Ok(asked)
}
