//! Checks a section against an address table of any version.
ghost use Rattle.std.specs.Prelude.{◌≡◌, ◌-◌, ◌^◌, ◌<◌, IfOk, IfSome, Some};
ghost use Rattle.lnt_lines.specs.declared.no.No.{No as SectionNo};
ghost use Rattle.lnt_io.specs.declared.stop.Stop.TheVariants.{Read, TooLong};
ghost use Rattle.lnt_table.specs.AnyVersion.{IsTrueCheck, IsTrueCheckOfSection};
ghost use Rattle.lnt_table.specs.FaultTexts.{checked_text};
ghost use Rattle.lnt_io.specs.Stopping.{IsEitherTooLongOn, CountsFailures};

use crate::difference_lines::PathDifferenceLine;
use crate::kinds::OfKind;
use crate::verdict::{TableNo, Verdict};
use crate::within::{CheckedWithin, check_within};
use lnt_compare::{Compared, DifferenceByPath};
use lnt_io::{Source, Stop};
use lnt_lines::Options;
use lnt_spans::Scope;
use lnt_wire::Strings;
use std::alloc::Global;
use std::fmt;

/// The answer of `check_any`.
///
/// `Numbered`: the section isn't good, or the table begins with the header of version 1 or 2. This is the verdict, as `check` gives
/// it. `ByPath`: the section is good, and the table begins with the header of neither version 1 nor 2. This is the outcome of its
/// comparison with the section in versions 3 and 4: `Fault` of the header if it begins with neither of theirs.
pub type Checked = OfKind<Verdict, Compared<DifferenceByPath>>;

/// The line that reports it, without its line feed.
impl fmt::Display for OfKind<Verdict, Compared<DifferenceByPath>> {
    ghost output = { λ checked. Some (checked_text checked) };

    fn fmt<W: fmt::Write>(&self, f: &mut fmt::Formatter<W>) -> fmt::Result {
        match self {
            OfKind::Numbered(verdict) => verdict.fmt(f),
            OfKind::ByPath(Compared::Same) => Verdict::Yes.fmt(f),
            OfKind::ByPath(Compared::Fault(fault)) => TableNo::from(*fault).fmt(f),
            OfKind::ByPath(Compared::Differs(difference)) => {
                PathDifferenceLine(difference, None).fmt(f)
            }
        }
    }
}

/// Checks a section as `check` does, against an address table of any of the four versions.
///
/// For a table with the header of version 1 or 2 it answers what `check` answers. For any other table it answers whether it
/// is one of version 3 or 4 that gives at every position the answer of the section's rows: each file's full path byte for
/// byte, the line and, in version 3, the column (`IsTrueCheck`). If not, it returns the first fault or the least difference.
///
/// Of a table by path it holds the bytes from the first line on that isn't written plainly, but neither its records nor the section's
/// spans. Stops as `check` does.
pub fn check_any<R: Source, T: Source>(
    alloc: Global,
    section: &mut R,
    strings: &Strings<'_>,
    table: &mut T,
    options: &Options,
) -> Result<Checked, Stop>
    requires section_fails { R.failures section.old < 2 ^ 64 - 1 }
    requires table_fails { T.failures table.old < 2 ^ 64 - 1 }
    ensures checked { IfOk result (λ checked. IfSome (R.remaining section.old) (λ bytes. IfSome (T.remaining table.old) (λ text.
        IsTrueCheck strings.now.line.now strings.now.general.now options.now bytes text checked))) }

    // What it says of the section is true whatever the table is, and if the section isn't good, the table isn't read.
    ensures of_section { IfOk result (λ checked. IfSome (R.remaining section.old) (λ bytes.
        IsTrueCheckOfSection strings.now.line.now strings.now.general.now options.now bytes checked)) }
    ensures unread { (no : SectionNo) → result ≡ Ok (OfKind.Numbered (Verdict.No (TableNo.Section no))) → table.new ≡ table.old }
    ensures failures { CountsFailures ⟦<R as Source>⟧ section.old section.new ⟦<T as Source>⟧ table.old table.new result Stop.Read }
    ensures too_long { IsEitherTooLongOn ⟦<R as Source>⟧ section.old section.new ⟦<T as Source>⟧ table.old table.new result Stop.TooLong }
{
    match check_within(alloc, section, strings, table, options, Scope::All)? {
        CheckedWithin::Checked(checked) => Ok(checked),
        CheckedWithin::Covered(_) => unreachable!(),
    }
}
