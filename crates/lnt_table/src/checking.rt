//! Checks a section against an address table.
ghost use Rattle.std.specs.Prelude.{◌≡◌, ◌-◌, ◌^◌, ◌<◌, IfOk, IfSome};
ghost use Rattle.lnt_lines.specs.declared.no.No.{No as SectionNo};
ghost use Rattle.lnt_io.specs.declared.stop.Stop.TheVariants.{Read, TooLong};
ghost use Rattle.lnt_table.specs.Headline.{IsTrueOfSection, IsTrueVerdict};
ghost use Rattle.lnt_io.specs.Stopping.{CountsFailures, IsEitherTooLongOn};

use crate::any_version::check_any;
use crate::kinds::OfKind;
use crate::verdict::{TableNo, Verdict};
use lnt_io::{Source, Stop};
use lnt_lines::Options;
use lnt_wire::Strings;
use std::alloc::Global;

/// Checks the section `.debug_line` (DWARF 5, section 6.2) that `section` gives against the address table that `table`
/// gives.
///
/// **Where it answers Yes, the section's bytes are exactly those of a list of well-formed units, positions never fall within a
/// live sequence, no position is held by two live sequences, every file and directory number used exists, and for every
/// address and operation index the table's answer is that of the last matrix row at or before it in the live sequence
/// holding it, or none where none does.**
///
/// Each phrase has a definition, and `IsTrueVerdict` joins them in its case `Yes`:
/// - *answers Yes*: the call returns `Ok(Verdict::Yes)`;
/// - *the section's bytes*: all that `section` still gives at entry, if its bytes are known, however the reads divide them
///   (`Source.remaining`);
/// - *are exactly those of*: `SectionBytes` of `lnt_unit`, with nothing before, between or after the units;
/// - *well-formed*: `IsWellFormed` of `lnt_lines`: the program runs, and the tables are usable;
/// - *never fall*: `AreOrdered` of `lnt_sequences`; equal positions are allowed;
/// - *live*: `live_sequences` of `lnt_sequences`: the sequence doesn't begin at the address of dead code, if the options
///   give one; if copies are skipped, they are live, but they don't count for *held by two*, and they give no answers
///   (`kept_sequences`);
/// - *held*, *held by two*: `Holds` and `AreApart` of `lnt_sequences`: from the position of a sequence's first row up to that
///   of its end row, which is not held;
/// - *file number used*: `HaveFiles` of `lnt_sequences`, for each row of a live sequence but its end row;
/// - *directory number used*: `AreUsableTables` of `lnt_files`, for each file that a unit lists;
/// - *the table's answer*: `IsTableOfIn` of `lnt_records` (by `IsTableWhere`), for all bytes of `table`, and `span_answer` of
///   `lnt_spans`, for the table's spans;
/// - *the last matrix row at or before it*: `line_answer` of `lnt_sequences`, over the rows of `lnt_machine`; under version 1
///   of the table without instruction set and discriminator.
///
/// Otherwise it returns the first thing that is wrong (`TableNo`). The section is judged first, and the table is read only
/// if the section is good. `strings` are the string sections that the section's forms refer to.
///
/// Stops with `Memory`; with `Read` only if one of the sources failed; and with `TooLong` only if one has more bytes than
/// it may give. A stop isn't a verdict. How far the sources were read is unspecified. The caller ensures that the number of
/// each source's failures is below `u64::MAX`.
pub fn check<R: Source, T: Source>(
    alloc: Global,
    section: &mut R,
    strings: &Strings<'_>,
    table: &mut T,
    options: &Options,
) -> Result<Verdict, Stop>
    requires section_fails { R.failures section.old < 2 ^ 64 - 1 }
    requires table_fails { T.failures table.old < 2 ^ 64 - 1 }
    ensures verdict { IfOk result (λ verdict. IfSome (R.remaining section.old) (λ bytes. IfSome (T.remaining table.old) (λ text.
        IsTrueVerdict strings.now.line.now strings.now.general.now options.now bytes text verdict))) }

    // What it says of the section is true whatever the table is, and if the section isn't good, the table isn't read.
    ensures of_section { IfOk result (λ verdict. IfSome (R.remaining section.old) (λ bytes.
        IsTrueOfSection strings.now.line.now strings.now.general.now options.now bytes verdict)) }
    ensures unread { (no : SectionNo) → result ≡ Ok (Verdict.No (TableNo.Section no)) → table.new ≡ table.old }
    ensures failures { CountsFailures ⟦<R as Source>⟧ section.old section.new ⟦<T as Source>⟧ table.old table.new result Stop.Read }
    ensures too_long { IsEitherTooLongOn ⟦<R as Source>⟧ section.old section.new ⟦<T as Source>⟧ table.old table.new result Stop.TooLong }
{
    match check_any(alloc, section, strings, table, options)? {
        OfKind::Numbered(verdict) => Ok(verdict),
        OfKind::ByPath(_) => Ok(Verdict::No(TableNo::TableHeader)),
    }
}
