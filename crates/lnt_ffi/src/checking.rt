//! Sections checked against address tables.
ghost use Rattle.std.specs.Prelude.{◌≡◌, length};
ghost use Rattle.lnt_ffi.specs.CheckVerdicts.{paths_in, verdict_of_check};
ghost use Rattle.lnt_ffi.specs.Returns.{ReturnsVerdictByPath, ReturnsVerdict, with_prefix};
ghost use Rattle.lnt_spans.specs.Partial.{scope_in};
ghost use Rattle.lnt_spans.specs.declared.scope.Scope.TheVariants as Scope;

use crate::bytes::Bytes;
use crate::check_verdict::{paths_in, verdict_of_check};
use crate::room::put_bytes;
use crate::section::FlatSection;
use crate::verdict::{FlatVerdict, verdict_of_stop};
use lnt_table::{CheckedWithin, Scope, check_within};
use std::alloc::Global;

/// Checks a section against the bytes of an address table of any version. `verdict` becomes yes (0), the first thing against it
/// with the evidence, or 33 where memory ran out. Where the two differ (40) it has the least position at which they do, and both
/// answers there; of a table by path it has the lengths of the paths in bytes, and not the paths.
#[unsafe(no_mangle)]
pub extern "C" fn linetab_check(
    alloc: Global,
    section: &FlatSection<'_>,
    table: &[u8],
    verdict: &mut FlatVerdict,
)
    ensures { ReturnsVerdict section.now table.now verdict.new }
{
    *verdict = check_into(alloc, section, table, Scope::All, &mut [], &mut []);
}

/// Checks as `linetab_check` does, with the same verdict. Where the two differ by path (40), the path that the table answers is put
/// at the beginning of `by_table`, and that of the section at that of `by_section`, each if there is room for all of it.
///
/// `index` and `value` of the verdict say how many bytes they have. Where these are more than there is room for, nothing is put
/// there, and the caller may ask again with more room.
#[unsafe(no_mangle)]
pub extern "C" fn linetab_check_paths(
    alloc: Global,
    section: &FlatSection<'_>,
    table: &[u8],
    by_table: &mut [u8],
    by_section: &mut [u8],
    verdict: &mut FlatVerdict,
)
    ensures table_room { length by_table.new ≡ length by_table.old }
    ensures section_room { length by_section.new ≡ length by_section.old }
    ensures returned { ReturnsVerdictByPath Scope.All section.now table.now
        by_table.old by_table.new by_section.old by_section.new verdict.new }
{
    *verdict = check_into(alloc, section, table, Scope::All, by_table, by_section);
}

/// Checks as `linetab_check_paths` does, but where `is_partial` is true, only the positions count at which the table answers: a
/// difference (40) is then the least of them at which the section answers otherwise or not at all, and a yes (0) has the number of
/// addresses at which both answer, and that of those at which the section does.
#[unsafe(no_mangle)]
pub extern "C" fn linetab_check_within(
    alloc: Global,
    section: &FlatSection<'_>,
    table: &[u8],
    is_partial: bool,
    by_table: &mut [u8],
    by_section: &mut [u8],
    verdict: &mut FlatVerdict,
)
    ensures table_room { length by_table.new ≡ length by_table.old }
    ensures section_room { length by_section.new ≡ length by_section.old }
    ensures returned { ReturnsVerdictByPath (scope_in is_partial) section.now table.now
        by_table.old by_table.new by_section.old by_section.new
        verdict.new }
{
    let scope = Scope::of(is_partial);
    *verdict = check_into(alloc, section, table, scope, by_table, by_section);
}

// What is found of a section and a table in a scope, with the paths of a difference by path put into the two rooms.
fn check_into(
    alloc: Global,
    section: &FlatSection<'_>,
    table: &[u8],
    scope: Scope,
    by_table: &mut [u8],
    by_section: &mut [u8],
) -> FlatVerdict
    ensures table_room { length by_table.new ≡ length by_table.old }
    ensures section_room { length by_section.new ≡ length by_section.old }
    ensures returned { ReturnsVerdictByPath scope section.now table.now by_table.old by_table.new by_section.old by_section.new result }
{
    let mut line = Bytes::of(section.line);
    let mut text = Bytes::of(table);
    match check_within(
        alloc,
        &mut line,
        &section.strings(),
        &mut text,
        &section.options(),
        scope,
    ) {
        Ok(found) => put_found(&found, by_table, by_section),
        Err(stop) => verdict_of_stop(stop),
    }
}

// The verdict of what is found, with its paths put into the two rooms.
fn put_found(found: &CheckedWithin, by_table: &mut [u8], by_section: &mut [u8]) -> FlatVerdict
    ensures verdict { result ≡ verdict_of_check found.now }
    ensures table_room { length by_table.new ≡ length by_table.old }
    ensures section_room { length by_section.new ≡ length by_section.old }
    ensures by_table { by_table.new ≡ with_prefix (paths_in found.now).0 by_table.old }
    ensures by_section { by_section.new ≡ with_prefix (paths_in found.now).1 by_section.old }
{
    let (table, section) = paths_in(found);
    put_bytes(table, by_table);
    put_bytes(section, by_section);
    verdict_of_check(found)
}
