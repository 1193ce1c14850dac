//! Tables of a header, read without keeping their entries.
ghost use Rattle.std.specs.Prelude.{IfOk, IfErr};
ghost use Rattle.lnt_wire.specs.Reading.{RefusesOr};
ghost use Rattle.lnt_header_bytes.specs.Stepping.{IsEntryTableRead};
ghost use Rattle.lnt_header_bytes.specs.TableBytes.{TableOf};
ghost use Rattle.lnt_header_bytes.specs.TableFaults.{IsTableFault};

use crate::pass::pass_entries;
use crate::table::read_pairs;
use lnt_header::Pair;
use lnt_wire::{Cursor, Fault, Format, Reason};
use std::alloc::Global;

/// Consecutive entries: their number and their bytes.
#[derive(Clone, Copy, Debug)]
pub struct EntriesInPlace<'a> {
    /// The number of entries.
    pub count: u64,
    /// Their bytes, and no others.
    pub bytes: &'a [u8],
}

/// A table as it was read: its format, and the bytes of its entries.
#[derive(Drop)]
pub(crate) struct EntryTableRead<'a> {
    pub pairs: Vec<Pair>,
    pub entries: EntriesInPlace<'a>,
}

/// Reads the format of a table and the number of its entries, and moves past the entries, which are borrowed.
pub(crate) fn read_table<'a>(
    alloc: Global,
    cursor: &mut Cursor<'a>,
    format: Format,
) -> Result<EntryTableRead<'a>, Fault>
    ensures ok { IfOk result (λ table. IsEntryTableRead format table cursor.old cursor.new) }
    ensures err { IfErr result (λ fault. RefusesOr (IsTableFault format cursor.old.order) (TableOf format cursor.old.order) cursor.old
        fault) }
{
    let count = cursor.u8()?;
    let pairs = read_pairs(alloc, cursor, count)?;
    let place = cursor.place();
    let size = cursor.uleb()?;
    if count == 0 && size > 0 {
        return Err(Fault {
            place,
            reason: Reason::EmptyFormat,
        });
    }
    match pass_entries(cursor, format, &pairs, size) {
        Ok(bytes) => Ok(EntryTableRead {
            pairs,
            entries: EntriesInPlace { count: size, bytes },
        }),
        Err(fault) => {
            drop(pairs);
            Err(fault)
        }
    }
}
