//! Address tables written.
ghost use Rattle.std.specs.Prelude.{◌≡◌, IfNone, IfSome, length};
ghost use Rattle.lnt_ffi.specs.Returns.{IsRefused, IsTableOfFlat, ReturnsTable, version_of};
ghost use Rattle.lnt_ffi.specs.Verdicts.{yes};

use crate::judging::index_of;
use crate::room::put_bytes;
use crate::section::FlatSection;
use crate::verdict::{FlatVerdict, verdict_of_stop};
use lnt_io::Stop;
use lnt_spans::Version;
use lnt_table::write_index;
use std::alloc::Global;

/// Writes the address table of a good section to the beginning of `room` if there is room for all of it: the one shortest
/// table that answers as the section does, in version 2 where `is_wide` is true, else in version 1.
///
/// It answers how many bytes the table has. Where they are more than there is room for, nothing is put there, and the
/// caller may ask again with more room. Where the section isn't good, or memory ran out, it answers 0, and `verdict` says
/// why; else that is yes.
#[unsafe(no_mangle)]
pub extern "C" fn linetab_table(
    alloc: Global,
    section: &FlatSection<'_>,
    is_wide: bool,
    room: &mut [u8],
    verdict: &mut FlatVerdict,
) -> usize
    ensures length { length room.new ≡ length room.old }
    ensures returned { ReturnsTable section.now is_wide result room.old room.new verdict.new }
{
    match table_of(alloc, section, is_wide, verdict) {
        Some(table) => put_bytes(&table, room),
        None => 0,
    }
}

// The table of a good section. None where it isn't good, or memory ran out. The verdict says which.
fn table_of(
    alloc: Global,
    section: &FlatSection<'_>,
    is_wide: bool,
    verdict: &mut FlatVerdict,
) -> Option<Vec<u8>>
    ensures good { IfSome result (λ table. IsTableOfFlat section.now (version_of is_wide) table.items) }
    ensures yes { IfSome result (λ _. verdict.new ≡ yes) }
    ensures refused { IfNone result (IsRefused section.now verdict.new) }
{
    let index = index_of(alloc, section, verdict)?;
    let version = if is_wide { Version::Two } else { Version::One };
    let mut table = Vec::new(alloc);
    match write_index(alloc, &index, version, &mut table) {
        Ok(()) => Some(table),
        Err(_) => {
            // The table is kept in memory, so nothing but want of memory keeps it from being written.
            *verdict = verdict_of_stop(Stop::Memory);
            None
        }
    }
}
