//! Entries of a table that are skipped: checked in place, and not kept.
ghost use Rattle.std.specs.Prelude.{IfOk, IfErr};
ghost use Rattle.lnt_header_bytes.specs.Stepping.{PassesAll};
ghost use Rattle.lnt_header.specs.Joins.{Several};
ghost use Rattle.lnt_header_bytes.specs.TableBytes.{EntryBytes};
ghost use Rattle.lnt_header_bytes.specs.TableFaults.{IsEntriesFault};
ghost use Rattle.lnt_wire.specs.Reading.{Refuses};

use crate::values::read_entry;
use lnt_header::Pair;
use lnt_wire::{Cursor, Fault, Format};

/// Moves the cursor past `count` entries, and returns their bytes. Fails with the fault of the first invalid value.
/// Allocates nothing.
#[tactic(auto, using(crate::proofs::PassLemmas::pass_entries_lemmas))]
pub(crate) fn pass_entries<'a>(
    cursor: &mut Cursor<'a>,
    format: Format,
    pairs: &[Pair],
    count: u64,
) -> Result<&'a [u8], Fault>
    ensures ok { IfOk result (λ bytes. PassesAll count (EntryBytes format cursor.old.order pairs.now) bytes.now cursor.old cursor.new) }
    ensures err { IfErr result (λ fault. Refuses (IsEntriesFault format cursor.old.order pairs.now count)
        (Several count (EntryBytes format cursor.old.order pairs.now)) cursor.old fault) }
{
    let all = cursor.rest();
    for _ in 0..count {
        read_entry(cursor, format, pairs, &(), &mut ())?;
    }
    let (bytes, _) = all.split_at(all.len() - cursor.rest().len());
    Ok(bytes)
}
