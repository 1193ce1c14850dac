//! Headers, written as the bytes of their units.
ghost use Rattle.std.specs.Prelude.{◌≡◌, ◌⊎◌, ◌+◌, ◌++◌, [], length, IfOk, IfErr, OnOk, OnErr};
ghost use Rattle.std.specs.List.{AllByRecursion};
ghost use Rattle.lnt_wire.specs.Bytes.{IsShortest, Appends, Extends};
ghost use Rattle.lnt_wire.specs.FormBytes.{HasSpelling, FormBytes};
ghost use Rattle.lnt_wire.specs.FrameBytes.{initial_length, LengthFits};
ghost use Rattle.lnt_wire.specs.Numbers.{offset_size};
ghost use Rattle.lnt_header.specs.Conversion.{in_format};
ghost use Rattle.lnt_header.specs.Encoding.{RefusedPut};
ghost use Rattle.lnt_header_bytes.specs.HeaderPuts.{EntryParts, around, AddsAround, table_to_put};
ghost use Rattle.lnt_header_bytes.specs.HeaderBytes.{HeaderFieldsBytes, HeaderBytesIn};
ghost use Rattle.lnt_header.specs.HeaderRules.{IsEntryTable, six_bytes};
ghost use Rattle.lnt_header_bytes.specs.Large.{HasLargeEntry, HasLargeOffset, HasLargeValue, IfTooLarge, IsTooLong};
ghost use Rattle.lnt_header.specs.Joins.{Each};
ghost use Rattle.lnt_header_bytes.specs.TableBytes.{PairBytes, TableOf};

use crate::view_encode::add_entries_view;
use crate::{EntryTableView, HeaderView};
use lnt_header::{Entry, Header, HeaderNumbers, Pair};
use lnt_wire::{
    EncodeFault, FormValue, Format, Order, append_uleb, put_form, put_offset, put_u16, put_u32,
    put_u64,
};
use std::alloc::{AllocError, Global};
use std::marker::Model;

// A table to write: its entries are in memory, or lie where they are read.
#[derive(Drop)]
enum TableToPut<'a> {
    Held(&'a [Pair], &'a [Entry]),
    InPlace(&'a EntryTableView<'a>),
}

// A header to write in this format and order. Contracts see its parts.
#[derive(Drop)]
struct HeaderToPut<'a> {
    format: Format,
    order: Order,
    numbers: &'a HeaderNumbers,
    directories: TableToPut<'a>,
    files: TableToPut<'a>,
    extra: &'a [u8],
}

impl<'a> Model for HeaderToPut<'a> {
    ghost use Rattle.lnt_header.specs.Parts.{HeaderParts};
    ghost use Rattle.lnt_header.specs.HeaderRules.{IsHeader};
    ghost use Rattle.lnt_header_bytes.specs.HeaderPuts.{header_to_put};

    ghost Value = { HeaderParts };

    ghost view = { λ h. header_to_put h.format h.order h.numbers.now h.directories h.files h.extra.now };

    ghost invariant = { λ h. IsHeader (header_to_put h.format h.order h.numbers.now h.directories h.files h.extra.now) };
}

/// The bytes of a unit with this header and this program, each LEB128 in its shortest spelling (DWARF 5, section 6.2.4). It
/// refuses with `TooLarge` if they have no encoding in the header's format: an offset of the tables is 2^32 or more in the
/// 32-bit format, or the unit is longer than the format can say; and else only with `Memory`.
pub fn encode_header(alloc: Global, header: &Header, program: &[u8]) -> Result<Vec<u8>, EncodeFault>
    ensures ok { IfOk result (λ bytes. IsShortest (HeaderBytesIn header.now.numbers.order) (header.now, program.now) bytes.items) }
    ensures err { IfErr result (λ fault. RefusedPut (HeaderBytesIn header.now.numbers.order) (header.now, program.now) fault) }
    ensures large { IfErr result (IfTooLarge (HasLargeOffset header.now ⊎ IsTooLong header.now program.now)) }
{
    let mut out = Vec::new(alloc);
    put_header(alloc, &mut out, &held(header), program)?;
    Ok(out)
}

// The header as it is.
fn held(header: &Header) -> HeaderToPut<'_>
    ensures { result ≡ header.now }
{
    let numbers = header.numbers();
    HeaderToPut {
        format: header.format(),
        order: numbers.order(),
        numbers,
        directories: TableToPut::Held(header.directory_format(), header.directories()),
        files: TableToPut::Held(header.file_format(), header.files()),
        extra: header.extra(),
    }
}

/// Adds the bytes of a unit with this header in the format and order, and with this program, each LEB128 in its
/// shortest spelling (DWARF 5, sections 6.2.4 and 7.4). The entries are read where they lie, and kept nowhere; it takes the
/// memory of the header's bytes.
///
/// It fails with `TooLarge` if they have no encoding in the format, and else with `Memory`. Then `out` may end with a
/// part of them.
pub fn put_header_view(
    alloc: Global,
    out: &mut Vec<u8>,
    header: &HeaderView<'_>,
    program: &[u8],
    format: Format,
    order: Order,
) -> Result<(), EncodeFault>
    ensures ok { OnOk result (Appends (HeaderBytesIn order) (in_format header.now format order, program.now) out.old.items out.new.items) }
    ensures err { IfErr result (λ fault. RefusedPut (HeaderBytesIn order) (in_format header.now format order, program.now) fault) }
    ensures extends { OnErr result (Extends out.old.items out.new.items) }
{
    put_header(alloc, out, &in_place(header, format, order), program)
}

// The header in this format and order.
#[tactic(auto, using(lnt_header::proofs::ConversionLaws::header_in_format))]
fn in_place<'a>(header: &'a HeaderView<'_>, format: Format, order: Order) -> HeaderToPut<'a>
    ensures { result ≡ in_format header.now format order }
{
    HeaderToPut {
        format,
        order,
        numbers: header.numbers(),
        directories: TableToPut::InPlace(header.directories()),
        files: TableToPut::InPlace(header.files()),
        extra: header.extra(),
    }
}

// Adds the bytes of a unit with this header and this program.
fn put_header(
    alloc: Global,
    out: &mut Vec<u8>,
    header: &HeaderToPut<'_>,
    program: &[u8],
) -> Result<(), EncodeFault>
    ensures ok { OnOk result (Appends (HeaderBytesIn header.now.numbers.order) (header.now, program.now) out.old.items out.new.items) }
    ensures large { IfErr result (IfTooLarge (HasLargeOffset header.now ⊎ IsTooLong header.now program.now)) }
    ensures extends { OnErr result (Extends out.old.items out.new.items) }
{
    let mut fields = Vec::new(alloc);
    add_fields(alloc, &mut fields, header)?;
    let size = header.numbers.address_size();
    add_around(out, &fields, program, size, header.format, header.order)
}

/// Adds the bytes of a unit of version 5 with these fields, which `header_length` counts, and this program. Fails with `TooLarge`
/// if the unit is longer than the format can say, and else only with `Memory`. Then a part of the unit may be there.
#[tactic(auto, using(crate::proofs::EncodeLemmas::around_put, crate::proofs::EncodeLemmas::offset_fits))]
pub fn add_around(
    out: &mut Vec<u8>,
    fields: &[u8],
    program: &[u8],
    address_size: u8,
    format: Format,
    order: Order,
) -> Result<(), EncodeFault>
    ensures ok { OnOk result (AddsAround order format address_size fields.now program.now out.old.items out.new.items) }
    ensures err { IfErr result (λ fault. fault ≡ EncodeFault.TooLarge
        → LengthFits format (length (around order format address_size fields.now program.now)) → ⊥) }
    ensures extends { OnErr result (Extends out.old.items out.new.items) }
{
    let length = unit_length(format, fields.len(), program.len())?;
    add_initial_length(out, length, format, order)?;
    put_u16(out, 5, order)?;
    out.push(address_size)?;
    out.push(0)?;
    put_offset(out, fields.len() as u64, format, order)?;
    add_both(out, fields, program)?;
    Ok(())
}

/// Adds the first bytes, and then the second. After a refusal a part of them may be there.
pub fn add_both(out: &mut Vec<u8>, first: &[u8], second: &[u8]) -> Result<(), AllocError>
    ensures ok { OnOk result (out.new.items ≡ (out.old.items ++ first.now) ++ second.now) }
    ensures extends { OnErr result (Extends out.old.items out.new.items) }
{
    out.extend_from_slice(first)?;
    out.extend_from_slice(second)
}

// How many bytes a unit has after its initial length.
fn unit_length(format: Format, fields: usize, program: usize) -> Result<u64, EncodeFault>
    ensures ok { IfOk result (λ length. (length ≡ 4 + offset_size format + fields + program) × LengthFits format length) }
    ensures err { IfErr result (λ fault. (fault ≡ EncodeFault.TooLarge)
        × (LengthFits format (4 + offset_size format + fields + program) → ⊥)) }
{
    let (offset_size, limit) = match format {
        Format::D32 => (4, 0xffff_fff0),
        Format::D64 => (8, 1 << 64),
    };
    let length = 4 + offset_size + fields as u128 + program as u128;
    if length < limit {
        Ok(length as u64)
    } else {
        Err(EncodeFault::TooLarge)
    }
}

// Adds an initial length.
fn add_initial_length(
    out: &mut Vec<u8>,
    length: u64,
    format: Format,
    order: Order,
) -> Result<(), AllocError>
    requires { LengthFits format length }
    ensures ok { OnOk result (out.new.items ≡ out.old.items ++ initial_length format order length) }
    ensures extends { OnErr result (Extends out.old.items out.new.items) }
{
    match format {
        Format::D32 => put_u32(out, length as u32, order),
        Format::D64 => {
            put_u32(out, u32::MAX, order)?;
            put_u64(out, length, order)
        }
    }
}

// Adds the fields that header_length counts to `out`, which holds nothing yet.
fn add_fields(alloc: Global, out: &mut Vec<u8>, header: &HeaderToPut<'_>) -> Result<(), EncodeFault>
    requires { out.old.items ≡ [] }
    ensures ok { OnOk result (IsShortest HeaderFieldsBytes header.now out.new.items) }
    ensures large { IfErr result (IfTooLarge (HasLargeOffset header.now)) }
{
    add_numbers(out, header.numbers)?;
    add_table(alloc, out, &header.directories, header.format, header.order)?;
    add_table(alloc, out, &header.files, header.format, header.order)?;
    out.extend_from_slice(header.extra)?;
    Ok(())
}

// Adds the numbers of one byte, and the standard opcode lengths.
fn add_numbers(out: &mut Vec<u8>, numbers: &HeaderNumbers) -> Result<(), AllocError>
    ensures { OnOk result (out.new.items ≡ (out.old.items ++ six_bytes numbers.now) ++ numbers.now.standard_lengths) }
{
    add_both(
        out,
        &numbers.parts().single_fields(),
        numbers.standard_lengths(),
    )
}

// Adds a table: its format, the number of its entries, and these.
#[tactic(auto, using(crate::proofs::EncodeLemmas::table_put, crate::proofs::LargeLemmas::memory_not_large))]
fn add_table(
    alloc: Global,
    out: &mut Vec<u8>,
    table: &TableToPut<'_>,
    format: Format,
    order: Order,
) -> Result<(), EncodeFault>
    requires { IsEntryTable (table_to_put table.now).0 (table_to_put table.now).1 }
    ensures ok { OnOk result (Appends (TableOf format order) (table_to_put table.now) out.old.items out.new.items) }
    ensures large { IfErr result (IfTooLarge (HasLargeEntry format (table_to_put table.now).1)) }
{
    let (pairs, count) = table.layout();
    out.push(pairs.len() as u8)?;
    add_pairs(out, pairs)?;
    append_uleb(out, count)?;
    match *table {
        TableToPut::Held(_, entries) => add_entries(out, entries, format, order),
        TableToPut::InPlace(table) => add_entries_view(alloc, out, table, format, order),
    }
}

impl TableToPut<'_> {
    // What each entry consists of, and the number of entries.
    fn layout(&self) -> (&[Pair], u64)
        ensures pairs { result.0.now ≡ (table_to_put self.now).0 }
        ensures count { result.1 ≡ length (table_to_put self.now).1 }
    {
        match *self {
            TableToPut::Held(pairs, entries) => (pairs, entries.len() as u64),
            TableToPut::InPlace(table) => (table.pairs(), table.count()),
        }
    }
}

// Adds the pairs of a format.
#[tactic(auto, using(lnt_header::proofs::PutLaws::each_begun, lnt_header::proofs::PutLaws::each_done))]
fn add_pairs(out: &mut Vec<u8>, pairs: &[Pair]) -> Result<(), AllocError>
    ensures ok { OnOk result (Appends (Each PairBytes) pairs.now out.old.items out.new.items) }
{
    for pair in pairs {
        add_pair(out, pair)?;
    }
    Ok(())
}

#[tactic(auto, using(crate::proofs::EncodeLemmas::pair_put))]
fn add_pair(out: &mut Vec<u8>, pair: &Pair) -> Result<(), AllocError>
    ensures ok { OnOk result (Appends PairBytes pair.now out.old.items out.new.items) }
{
    append_uleb(out, pair.content)?;
    append_uleb(out, pair.form.code())
}

// Adds entries that are in memory.
#[tactic(auto, using(lnt_header::proofs::PutLaws::each_begun))]
fn add_entries(
    out: &mut Vec<u8>,
    entries: &[Entry],
    format: Format,
    order: Order,
) -> Result<(), EncodeFault>
    requires { AllByRecursion (λ entry. AllByRecursion HasSpelling entry.values) entries.now }
    ensures ok { OnOk result (Appends (Each (EntryParts format order)) entries.now out.old.items out.new.items) }
    ensures large { IfErr result (IfTooLarge (HasLargeEntry format entries.now)) }
{
    for entry in entries {
        add_values(out, entry.values.as_slice(), format, order)?;
    }
    Ok(())
}

/// Adds the values of an entry.
#[tactic(auto, using(lnt_header::proofs::PutLaws::each_begun))]
pub(crate) fn add_values(
    out: &mut Vec<u8>,
    values: &[FormValue],
    format: Format,
    order: Order,
) -> Result<(), EncodeFault>
    requires { AllByRecursion HasSpelling values.now }
    ensures ok { OnOk result (Appends (Each (FormBytes format order)) values.now out.old.items out.new.items) }
    ensures large { IfErr result (IfTooLarge (HasLargeValue format values.now)) }
{
    for value in values {
        put_form(out, value, format, order)?;
    }
    Ok(())
}
