//! Tables that are checked against sections.
ghost use Rattle.std.specs.Prelude.{◌≡◌, ◌-◌, ◌^◌, ◌<◌, ◌⊎◌, IfErr, IfOk, IfSome, IsTrue, OnErr};
ghost use Rattle.std.specs.Io.KnownBytes.{Keeps};
ghost use Rattle.lnt_io.specs.Stopping.{CountsFailures, IsEitherTooLongOn};
ghost use Rattle.lnt_cli.specs.Answered.{IsChecked, IsTrueBy, options_by, options_in};
ghost use Rattle.lnt_cli.specs.Stops.{BeginsChecked, IsCausedByEither, IsFileOfBoth, NamesOneOf};
ghost use Rattle.lnt_table.specs.AnyVersion.{IsOfScope, IsTrueOfSectionWithin};

use crate::inputs::{Opened, of_file};
use crate::notes::Answered;
use crate::question::options_of;
use crate::stop::FileStop;
use lnt_answers::CheckLine;
use lnt_io::{IoStop, Source, Stop, print_line};
use lnt_lines::Options;
use lnt_table::{CheckedWithin, Scope, check_any_copy, check_within};
use lnt_wire::Strings;
use lnt_words::Judging;
use std::alloc::Global;
use std::io::Write;

// How a table is checked.
#[derive(Clone, Copy)]
pub(crate) struct TableCheck {
    // whether the answer of any copy is right too
    pub(crate) any_copy: bool,
    // the positions at which the two are compared
    pub(crate) scope: Scope,
    // how many of a hundred addresses of the section the table has to answer
    pub(crate) at_least: u64,
}

// Answers whether the table in the file with this name answers as the section does, as far as that is asked for. The files are open.
pub(crate) fn check_table<'t, S: Source, F: Source, W: Write>(
    alloc: Global,
    from: &Judging<'_>,
    table: &'t str,
    asked: TableCheck,
    files: &mut Opened<S>,
    other: &mut F,
    out: &mut W,
) -> Result<Answered<'t>, FileStop>
    requires section { S.failures files.old.section ≡ 0 }
    requires table { F.failures other.old ≡ 0 }
    ensures named { IfErr result (NamesOneOf (IsFileOfBoth from.now table.now)) }
    ensures answer { IfOk result (λ answered. IsChecked from.now asked.any_copy asked.scope asked.at_least
        (W.contents out.old) (W.contents out.new) answered.status
        (F.remaining other.old) files.old.texts.line.items files.old.texts.general.items (S.remaining files.old.section)) }
    ensures stopped { OnErr result (Keeps (W.contents out.old) (W.contents out.new)
        ⊎ BeginsChecked from.now asked.any_copy asked.scope asked.at_least (W.contents out.old) (W.contents out.new)
        (F.remaining other.old) files.old.texts.line.items files.old.texts.general.items (S.remaining files.old.section)) }
    ensures cause { IfErr result (IsCausedByEither ⟦<S as Source>⟧ files.old.section files.new.section from.now.section.now
        ⟦<F as Source>⟧ other.old other.new table.now) }
{
    let checked = judge_table(alloc, from, table, asked, files, other)?;
    let name = String::from_str(alloc, table)?;
    let printed = print_line(alloc, &CheckLine(&checked, asked.at_least), out);
    of_file(name, printed)?;
    Ok(Answered::of_check(&checked, asked, table))
}

// Judges whether the table in the file with this name, of any version, answers as the section does.
fn judge_table<S: Source, F: Source>(
    alloc: Global,
    from: &Judging<'_>,
    table: &str,
    asked: TableCheck,
    files: &mut Opened<S>,
    other: &mut F,
) -> Result<CheckedWithin, FileStop>
    requires section { S.failures files.old.section ≡ 0 }
    requires table { F.failures other.old ≡ 0 }
    ensures named { IfErr result (NamesOneOf (IsFileOfBoth from.now table.now)) }
    ensures checked { IfOk result (λ checked. IfSome (S.remaining files.old.section) (λ bytes. IfSome (F.remaining other.old) (λ text.
        IsTrueBy asked.any_copy asked.scope files.old.texts.line.items files.old.texts.general.items
        (options_by asked.any_copy (options_in from.now)) bytes text checked))) }
    ensures of_section { IfOk result (λ checked. IfSome (S.remaining files.old.section) (λ bytes.
        IsTrueOfSectionWithin files.old.texts.line.items files.old.texts.general.items
        (options_by asked.any_copy (options_in from.now)) bytes checked)) }
    ensures of_scope { IfOk result (λ checked. IsOfScope checked asked.scope) }
    ensures cause { IfErr result (IsCausedByEither ⟦<S as Source>⟧ files.old.section files.new.section from.now.section.now
        ⟦<F as Source>⟧ other.old other.new table.now) }
{
    let strings = files.texts.strings();
    match compare(
        alloc,
        &mut files.section,
        &strings,
        other,
        &options_of(from, false),
        asked,
    ) {
        Ok(checked) => Ok(checked),
        Err(stop) => {
            let name = cause_of(&files.section, stop, from.section, table);
            let name = String::from_str(alloc, name)?;
            Err(FileStop::of_file(name, IoStop::from(stop)))
        }
    }
}

// Judges the same of a section with these strings and options. The table comes from `table`.
fn compare<S: Source, F: Source>(
    alloc: Global,
    section: &mut S,
    strings: &Strings<'_>,
    table: &mut F,
    options: &Options,
    asked: TableCheck,
) -> Result<CheckedWithin, Stop>
    requires section_fails { S.failures section.old < 2 ^ 64 - 1 }
    requires table_fails { F.failures table.old < 2 ^ 64 - 1 }
    ensures checked { IfOk result (λ checked. IfSome (S.remaining section.old) (λ bytes. IfSome (F.remaining table.old) (λ text.
        IsTrueBy asked.any_copy asked.scope strings.now.line.now strings.now.general.now (options_by asked.any_copy options.now)
        bytes text checked))) }
    ensures of_section { IfOk result (λ checked. IfSome (S.remaining section.old) (λ bytes.
        IsTrueOfSectionWithin strings.now.line.now strings.now.general.now (options_by asked.any_copy options.now) bytes checked)) }
    ensures of_scope { IfOk result (λ checked. IsOfScope checked asked.scope) }
    ensures failures { CountsFailures ⟦<S as Source>⟧ section.old section.new ⟦<F as Source>⟧ table.old table.new result Stop.Read }
    ensures too_long { IsEitherTooLongOn ⟦<S as Source>⟧ section.old section.new ⟦<F as Source>⟧ table.old table.new result Stop.TooLong }
{
    if asked.any_copy {
        check_any_copy(alloc, section, strings, table, options, asked.scope)
    } else {
        check_within(alloc, section, strings, table, options, asked.scope)
    }
}

// The name of the file that caused the stop of a check, of the section or of the table. The section is read first: if it
// caused the stop, the table wasn't read.
fn cause_of<'n, S: Source>(section: &S, stop: Stop, name: &'n str, table: &'n str) -> &'n str
    ensures named { (result.now ≡ name.now) ⊎ (result.now ≡ table.now) }
    ensures read { stop ≡ Stop.Read → ((result.now ≡ name.now) × (0 < S.failures section.now))
        ⊎ ((result.now ≡ table.now) × (S.failures section.now ≡ 0)) }
    ensures too_long { stop ≡ Stop.TooLong → ((result.now ≡ name.now) × IsTrue (S.too_long section.now))
        ⊎ ((result.now ≡ table.now) × (IsTrue (S.too_long section.now) → ⊥)) }
{
    let of_section = match stop {
        Stop::Read => section.failures() > 0,
        Stop::TooLong | Stop::Memory => section.too_long(),
    };
    if of_section { name } else { table }
}
