//! The entries of a table, written in another format and byte order from where they lie (DWARF 5, sections 6.2.4 and 7.4).
ghost use Rattle.std.specs.Prelude.{IfErr, OnOk};
ghost use Rattle.lnt_wire.specs.Bytes.{Appends};
ghost use Rattle.lnt_header_bytes.specs.HeaderPuts.{EntryParts};
ghost use Rattle.lnt_header_bytes.specs.Large.{HasLargeEntry, IfTooLarge};
ghost use Rattle.lnt_header.specs.Joins.{Each};

use crate::EntryTableView;
use crate::encode::add_values;
use crate::table::read_values;
use lnt_wire::{EncodeFault, Format, Order, Reason};
use std::alloc::Global;

/// Adds the entries of a table, each read where it lies. Each value is there, so the only reason for which one isn't read is want
/// of memory.
#[tactic(auto, using(crate::proofs::ViewPutLemmas::add_entries_view_lemmas, crate::proofs::LargeLemmas::memory_not_large))]
pub(crate) fn add_entries_view(
    alloc: Global,
    out: &mut Vec<u8>,
    table: &EntryTableView<'_>,
    format: Format,
    order: Order,
) -> Result<(), EncodeFault>
    ensures ok { OnOk result (Appends (Each (EntryParts format order)) table.now.entries out.old.items out.new.items) }
    ensures large { IfErr result (IfTooLarge (HasLargeEntry format table.now.entries)) }
{
    let (from, pairs) = (table.format(), table.pairs());
    let mut cursor = table.cursor();
    let mut values = Vec::new(alloc);
    for _ in 0..table.count() {
        match read_values(alloc, &mut cursor, from, pairs, &mut values) {
            Ok(()) => add_values(out, &values, format, order)?,
            Err(fault) => match fault.reason {
                Reason::Memory => return Err(EncodeFault::Memory),
                _ => unreachable!(),
            },
        }
    }
    Ok(())
}
