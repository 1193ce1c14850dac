//! Checks a section against an address table at all positions, or at those at which the table answers.
ghost use Rattle.std.specs.Prelude.{◌≡◌, ◌-◌, ◌^◌, ◌<◌, IfOk, IfSome, Some};
ghost use Rattle.lnt_lines.specs.declared.no.No.{No as SectionNo};
ghost use Rattle.lnt_io.specs.declared.stop.Stop.TheVariants.{Read, TooLong};
ghost use Rattle.lnt_table.specs.FaultTexts.{within_text};
ghost use Rattle.lnt_table.specs.Judged.{told_right};
ghost use Rattle.lnt_spans.specs.Partial.{coverage_but, scope_in};
ghost use Rattle.lnt_table.specs.AnyVersion.{IsOfScope, IsTrueOfSectionWithin, IsTrueWithin};
ghost use Rattle.lnt_io.specs.Stopping.{IsEitherTooLongOn, CountsFailures};

use crate::any_version::Checked;
use crate::judged::judge_index;
use crate::kinds::OfKind;
use crate::verdict::{TableNo, Verdict};
use lnt_io::{Source, Stop};
use lnt_lines::{JudgedIndex, Options, index_section};
use lnt_spans::{Coverage, Scope};
use lnt_wire::Strings;
use std::alloc::Global;
use std::fmt;

/// The answer of `check_within`.
#[derive(Drop)]
pub enum CheckedWithin {
    /// The comparison was one at all positions, or something is wrong. This is the answer, as `check_any` gives it; a
    /// difference is the table's first mistake if only the positions count at which it answers.
    Checked(Checked),
    /// The section is good, and the table is right wherever it answers. It answers this much of the section.
    Covered(Coverage),
}

impl CheckedWithin {
    /// The answer of a check in this scope if the table is right there, and answers this much of the section: `yes`, or how much, if not
    /// all positions count.
    pub fn if_right(scope: Scope, coverage: Coverage, yes: Checked) -> CheckedWithin
        ensures { result ≡ told_right scope coverage yes }
    {
        match scope {
            Scope::All => CheckedWithin::Checked(yes),
            Scope::Answered => CheckedWithin::Covered(coverage),
        }
    }
}

/// The lines that report it, without the last line feed.
impl fmt::Display for CheckedWithin {
    ghost output = { λ checked. Some (within_text checked) };

    fn fmt<W: fmt::Write>(&self, f: &mut fmt::Formatter<W>) -> fmt::Result {
        match self {
            CheckedWithin::Checked(checked) => checked.fmt(f),
            CheckedWithin::Covered(coverage) => write!(
                f,
                "{}\nanswers {} of {}",
                Verdict::Yes,
                coverage.answered,
                coverage.all
            ),
        }
    }
}

/// Checks a section against an address table of any of the four versions, at the positions of this scope.
///
/// In the scope `All` it answers what `check_any` answers. In the scope `Answered` the table is right if at every position at
/// which it answers, its answer is the section's, as its version tells it; then the answer says at how many addresses it
/// answers. Otherwise the answer is the first thing that is wrong, as in the scope `All`, but the least position is that of a
/// mistake: one at which the table answers, and the section otherwise or not at all.
///
/// Stops as `check_any` does.
pub fn check_within<R: Source, T: Source>(
    alloc: Global,
    section: &mut R,
    strings: &Strings<'_>,
    table: &mut T,
    options: &Options,
    scope: Scope,
) -> Result<CheckedWithin, Stop>
    requires section_fails { R.failures section.old < 2 ^ 64 - 1 }
    requires table_fails { T.failures table.old < 2 ^ 64 - 1 }
    ensures checked { IfOk result (λ checked. IfSome (R.remaining section.old) (λ bytes. IfSome (T.remaining table.old) (λ text.
        IsTrueWithin scope strings.now.line.now strings.now.general.now options.now bytes text checked))) }

    // What it says of the section is true whatever the table is, and if the section isn't good, the table isn't read.
    ensures of_section { IfOk result (λ checked. IfSome (R.remaining section.old) (λ bytes.
        IsTrueOfSectionWithin strings.now.line.now strings.now.general.now options.now bytes checked)) }
    ensures of_scope { IfOk result (λ checked. IsOfScope checked scope) }
    ensures unread { (no : SectionNo) → result ≡ Ok (CheckedWithin.Checked (OfKind.Numbered (Verdict.No (TableNo.Section no))))
        → table.new ≡ table.old }
    ensures failures { CountsFailures ⟦<R as Source>⟧ section.old section.new ⟦<T as Source>⟧ table.old table.new result Stop.Read }
    ensures too_long { IsEitherTooLongOn ⟦<R as Source>⟧ section.old section.new ⟦<T as Source>⟧ table.old table.new result Stop.TooLong }
{
    let index = match index_section(alloc, section, strings, options)? {
        JudgedIndex::Good(index) => index,
        JudgedIndex::Bad(no) => {
            let verdict = Verdict::No(TableNo::Section(no));
            return Ok(CheckedWithin::Checked(OfKind::Numbered(verdict)));
        }
    };
    let judged = judge_index(alloc, table, &index, scope)?;
    Ok(judged.told(scope))
}
