//! A caller of the libraries: whether a table may be shipped in place of a section. Its contract speaks of the definitions that
//! `lnt_lines` and `lnt_table` pass on, and of nothing below them.
#![tactic(auto)]

ghost use Rattle.std.specs.Bool.{OnTrue};
ghost use Rattle.std.specs.Prelude.{◌-◌, ◌^◌, ◌<◌, IfOk, IfSome};
ghost use Rattle.lnt_table.specs.Headline.{AnswersRight};

use lnt_lines::{Options, Source, Stop, Strings};
use lnt_table::{Verdict, check};
use std::alloc::Global;

/// Whether the table answers as the section does at every address and operation index.
///
/// Stops as `check` does. The caller ensures that the number of each source's failures is below `u64::MAX`.
pub fn may_ship<R: Source, T: Source>(
    alloc: Global,
    section: &mut R,
    strings: &Strings<'_>,
    table: &mut T,
    options: &Options,
) -> Result<bool, Stop>
    requires section_fails { R.failures section.old < 2 ^ 64 - 1 }
    requires table_fails { T.failures table.old < 2 ^ 64 - 1 }
    ensures { IfOk result (λ may_ship. OnTrue may_ship (IfSome (R.remaining section.old) (λ bytes. IfSome (T.remaining table.old) (λ text.
        AnswersRight strings.now.line.now strings.now.general.now options.now bytes text)))) }
{
    match check(alloc, section, strings, table, options)? {
        Verdict::Yes => Ok(true),
        Verdict::No(_) => Ok(false),
    }
}
