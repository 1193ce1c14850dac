//! The pairs and the entries of a header's two tables, read from their bytes (DWARF 5, section 6.2.4.1).
ghost use Rattle.std.specs.Prelude.{IfOk, IfErr, OnOk};
ghost use Rattle.lnt_header.specs.Joins.{Several};
ghost use Rattle.lnt_wire.specs.Reading.{Reads, Refuses, RefusesOr};
ghost use Rattle.lnt_header_bytes.specs.Stepping.{ReadsNext};
ghost use Rattle.lnt_header_bytes.specs.TableBytes.{PairBytes, ValuesBytes, EntryBytes};
ghost use Rattle.lnt_header_bytes.specs.TableFaults.{IsPairFault, IsPairsFault, IsEntryFault, IsEntriesFault};

use lnt_header::{Entry, Pair};
use lnt_wire::{Cursor, Fault, Form, FormValue, Format, Items, Reason};
use std::alloc::Global;

// Reads a pair of a format: a content type and the code of a form.
#[tactic(auto, using(crate::proofs::TableReaders::read_pair_lemmas))]
fn read_pair(cursor: &mut Cursor<'_>) -> Result<Pair, Fault>
    ensures ok { IfOk result (λ pair. Reads PairBytes pair cursor.old cursor.new) }
    ensures err { IfErr result (λ fault. Refuses IsPairFault PairBytes cursor.old fault) }
{
    let content = cursor.uleb()?;
    let place = cursor.place();
    let code = cursor.uleb()?;
    match Form::of(code) {
        Some(form) => Ok(Pair { content, form }),
        None => Err(Fault {
            place,
            reason: Reason::UnknownForm(code),
        }),
    }
}

/// Reads `count` pairs of a format.
#[tactic(auto, using(lnt_header::proofs::ReaderLaws::reads_none))]
pub(crate) fn read_pairs(
    alloc: Global,
    cursor: &mut Cursor<'_>,
    count: u8,
) -> Result<Vec<Pair>, Fault>
    ensures ok { IfOk result (λ pairs. Reads (Several count PairBytes) pairs.items cursor.old cursor.new) }
    ensures err { IfErr result (λ fault. RefusesOr (IsPairsFault count) (Several count PairBytes) cursor.old fault) }
{
    let mut pairs = Vec::with_capacity(alloc, usize::from(count))?;
    for _ in 0..count {
        if let Err(fault) = add_pair(cursor, &mut pairs) {
            drop(pairs);
            return Err(fault);
        }
    }
    Ok(pairs)
}

// Reads the next pair, and appends it to `pairs`.
fn add_pair(cursor: &mut Cursor<'_>, pairs: &mut Vec<Pair>) -> Result<(), Fault>
    ensures ok { OnOk result (ReadsNext PairBytes pairs.old.items pairs.new.items cursor.old cursor.new) }
    ensures err { IfErr result (λ fault. RefusesOr IsPairFault PairBytes cursor.old fault) }
{
    Ok(pairs.push(read_pair(cursor)?)?)
}

/// Reads the values of an entry, one for each pair, in place of those that are in `values`.
#[tactic(auto, using(crate::proofs::ValueLaws::read_values_lemmas, crate::proofs::TableReaders::refuses_values_at))]
pub(crate) fn read_values(
    alloc: Global,
    cursor: &mut Cursor<'_>,
    format: Format,
    pairs: &[Pair],
    values: &mut Vec<FormValue>,
) -> Result<(), Fault>
    ensures ok { OnOk result (Reads (ValuesBytes format cursor.old.order pairs.now) values.new.items cursor.old cursor.new) }
    ensures err { IfErr result (λ fault. RefusesOr (IsEntryFault format cursor.old.order pairs.now)
        (ValuesBytes format cursor.old.order pairs.now) cursor.old fault) }
{
    values.clear();
    for pair in pairs {
        values.push(cursor.form(alloc, pair.form, format)?)?;
    }
    Ok(())
}

/// Reads `count` entries, each of which has a value for each pair.
#[tactic(auto, using(lnt_header::proofs::ReaderLaws::reads_none, crate::proofs::TableReaders::refuses_entries))]
pub(crate) fn read_entries(
    alloc: Global,
    cursor: &mut Cursor<'_>,
    format: Format,
    pairs: &[Pair],
    count: u64,
) -> Result<Vec<Entry>, Fault>
    ensures ok { IfOk result (λ entries. Reads (Several count (EntryBytes format cursor.old.order pairs.now)) entries.items cursor.old
        cursor.new) }
    ensures err { IfErr result (λ fault. RefusesOr (IsEntriesFault format cursor.old.order pairs.now count)
        (Several count (EntryBytes format cursor.old.order pairs.now)) cursor.old fault) }
{
    let mut entries = Vec::with_capacity(alloc, first_room(cursor, count))?;
    for _ in 0..count {
        read_entry(alloc, cursor, format, pairs, &mut entries)?;
    }
    Ok(entries)
}

// The number of entries, of `count`, for which room is reserved before they are read: at most 32, and at most the number of
// bytes left. So a wrong count reserves little.
fn first_room(cursor: &Cursor<'_>, count: u64) -> usize {
    cursor.rest().len().min(count.min(32) as usize)
}

// Reads the next entry, and appends it to `entries`.
fn read_entry(
    alloc: Global,
    cursor: &mut Cursor<'_>,
    format: Format,
    pairs: &[Pair],
    entries: &mut Vec<Entry>,
) -> Result<(), Fault>
    ensures ok { IfOk result (λ _. ReadsNext (EntryBytes format cursor.old.order pairs.now) entries.old.items entries.new.items cursor.old
        cursor.new) }
    ensures err { IfErr result (λ fault. RefusesOr (IsEntryFault format cursor.old.order pairs.now)
        (EntryBytes format cursor.old.order pairs.now) cursor.old fault) }
{
    let mut values = Vec::new(alloc);
    read_values(alloc, cursor, format, pairs, &mut values)?;
    Ok(entries.push(Entry {
        values: Items::new(values),
    })?)
}
