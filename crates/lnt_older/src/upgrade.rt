//! Older units, written anew in version 5 (DWARF 5, section 6.2.4).
ghost use Rattle.std.specs.Prelude.{◌≡◌, ◌+◌, ◌*◌, ◌<◌, ◌≤◌, ◌^◌, ◌∷◌, ◌++◌, [], length, true, IfErr, IfOk, OnErr, OnOk};
ghost use Rattle.lnt_wire.specs.Bytes.{Extends};
ghost use Rattle.lnt_wire.specs.FormBytes.{HasNoZero};
ghost use Rattle.lnt_header.specs.HeaderRules.{IsAddressSize};
ghost use Rattle.lnt_header_bytes.specs.HeaderFaults.{single_fields};
ghost use Rattle.lnt_older.specs.OlderUnits.{IsOlderUnit};
ghost use Rattle.lnt_older.specs.Upgraded.{directory_head, AddsFiles, AddsTable, AddsUpgraded, AreUpgradedFields, HasFiles};
ghost use Rattle.lnt_older.specs.Upgraded.{IsCountFromZero, IsFileZero, IsTooLong};

use crate::header::OlderHeader;
use crate::lists::FILE_PAIRS;
use crate::unit::OlderUnit;
use lnt_header_bytes::{EntriesInPlace, add_around, add_both, read_entry};
use lnt_wire::{Cursor, EncodeFault, Format, Order, append_uleb};
use std::alloc::{AllocError, Global};

/// Adds the unit of version 5 that says what the older unit says, in the same format and order. Its directory 0 is the one that is
/// given, and its file 0 is the first file once more, where there is one; each other directory and file has the number that it had.
/// Its address size is the one that is given. The entries, the program and `extra` are copied, and the number of entries of each table
/// is written in as few bytes as it can have.
///
/// It refuses with `TooLarge` where that unit is longer than its format can say, and else only with `Memory`. Then a part of it may
/// stand after what was there. It takes the memory of the new unit's header. The caller gives a unit as `take_any_unit` gives it.
#[tactic(auto, using(crate::proofs::UpgradeLemmas::unchanged))]
pub fn append_upgraded_unit(
    alloc: Global,
    out: &mut Vec<u8>,
    unit: &OlderUnit<'_>,
    address_size: u8,
    directory: &[u8],
) -> Result<(), EncodeFault>
    requires size { IsAddressSize address_size }
    requires directory { HasNoZero directory.now }
    requires unit { IsOlderUnit unit.now }
    ensures ok { OnOk result (AddsUpgraded unit.now address_size directory.now out.old.items out.new.items) }
    ensures err { IfErr result (λ fault. fault ≡ EncodeFault.TooLarge → IsTooLong unit.now address_size directory.now) }
    ensures extends { OnErr result (Extends out.old.items out.new.items) }
{
    let fields = upgraded_fields(alloc, unit, directory)?;
    add_around(
        out,
        &fields,
        unit.program,
        address_size,
        unit.format,
        unit.order,
    )?;
    Ok(())
}

// The fields that header_length counts.
#[tactic(auto, using(crate::proofs::UpgradeLemmas::upgraded_fields_lemmas))]
fn upgraded_fields(
    alloc: Global,
    unit: &OlderUnit<'_>,
    directory: &[u8],
) -> Result<Vec<u8>, AllocError>
    requires directory { HasNoZero directory.now }
    requires unit { IsOlderUnit unit.now }
    ensures { IfOk result (λ fields. AreUpgradedFields unit.now directory.now fields.items) }
{
    let OlderHeader {
        directories,
        files,
        extra,
        ..
    } = unit.header;
    let first = file_zero(files, unit.format, unit.order);
    let mut out = Vec::new(alloc);
    add_numbers(&mut out, &unit.header)?;
    add_directories(&mut out, directories, directory)?;
    add_files(&mut out, files, first)?;
    out.extend_from_slice(extra)?;
    Ok(out)
}

// Adds the fields of one byte.
fn add_numbers(out: &mut Vec<u8>, header: &OlderHeader<'_>) -> Result<(), AllocError>
    ensures { OnOk result (out.new.items
        ≡ (out.old.items ++ single_fields true header.now.numbers) ++ header.now.standard_lengths.now) }
{
    add_both(
        out,
        &header.numbers.single_fields(),
        header.standard_lengths,
    )
}

// Adds the table of the directories: the format `path:string`, how many there are, directory 0, and those listed.
#[tactic(auto, using(crate::proofs::UpgradeLemmas::directories_added))]
fn add_directories(
    out: &mut Vec<u8>,
    listed: EntriesInPlace<'_>,
    directory: &[u8],
) -> Result<(), AllocError>
    requires { 2 * listed.count ≤ length listed.bytes.now }
    ensures { OnOk result (AddsTable directory_head (listed.entry.count + 1) ((directory.now ++ 0 ∷ []) ++ listed.entry.bytes.now)
        out.old.items out.new.items) }
{
    let size = listed.bytes.len();
    prove!(size as u64 / 2 >= listed.count);
    out.extend_from_slice(&[1, 1, 8])?;
    append_uleb(out, listed.count + 1)?;
    out.extend_from_slice(directory)?;
    out.push(0)?;
    out.extend_from_slice(listed.bytes)
}

// Adds the table of the files: the format `path:string, directory_index:udata, timestamp:udata, size:udata`, how many there are,
// file 0, where there is one, and those listed.
#[tactic(auto, using(crate::proofs::UpgradeLemmas::files_added))]
fn add_files(
    out: &mut Vec<u8>,
    listed: EntriesInPlace<'_>,
    file_zero: &[u8],
) -> Result<(), AllocError>
    requires { 2 * listed.count ≤ length listed.bytes.now }
    ensures { OnOk result (AddsFiles listed.entry.count (file_zero.now ++ listed.entry.bytes.now) out.old.items out.new.items) }
{
    let size = listed.bytes.len();
    prove!(size as u64 / 2 >= listed.count);
    out.extend_from_slice(&[4, 1, 8, 2, 15, 3, 15, 4, 15])?;
    append_uleb(out, count_from_zero(listed.count))?;
    out.extend_from_slice(file_zero)?;
    out.extend_from_slice(listed.bytes)
}

// How many files there are with file 0, where so many are listed.
#[tactic(auto, using(crate::proofs::TableLemmas::none_from_zero, crate::proofs::TableLemmas::some_from_zero))]
fn count_from_zero(count: u64) -> u64
    requires { count + 1 < 2 ^ 64 }
    ensures { IsCountFromZero count result }
{
    if count == 0 { 0 } else { count + 1 }
}

// The bytes of the first file, as the list spells it; none where there is no file.
#[tactic(auto, using(crate::proofs::TableLemmas::no_file_zero, crate::proofs::TableLemmas::first_file_zero))]
fn file_zero<'a>(listed: EntriesInPlace<'a>, format: Format, order: Order) -> &'a [u8]
    requires { HasFiles format order listed.count listed.bytes.now }
    ensures { IsFileZero format order listed.entry.count listed.entry.bytes.now result.now }
{
    if listed.count == 0 {
        return listed.bytes;
    }
    let mut cursor = Cursor::new(listed.bytes, 0, order);
    match read_entry(&mut cursor, format, &FILE_PAIRS, &(), &mut ()) {
        Ok(()) => {
            let (first, _) = listed
                .bytes
                .split_at(listed.bytes.len() - cursor.rest().len());
            first
        }
        // The first file is there.
        Err(_) => unreachable!(),
    }
}
