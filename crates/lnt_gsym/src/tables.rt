//! Reads the tables after the header.
ghost use Rattle.std.specs.Prelude.{◌≡◌, ◌+◌, ◌*◌, ◌^◌, ◌<◌, ◌≤◌, Ok, Err, None, Some, drop, length, IfOk, MatchResult, OnOk, true};
ghost use Rattle.lnt_gsym.specs.GsymFields.{block};
ghost use Rattle.lnt_gsym.specs.GsymFiles.{aligned, at_place, first_lower, is_address_size, numbers_of, tables_of};
ghost use Rattle.lnt_gsym.specs.Reading.{header_said, tables_said};
ghost use Rattle.lnt_wire.specs.FirstValues.{first_number};

use crate::fault::{GsymFault, GsymReason};
use crate::fields::{block, byte_at, long_at, number, number_at, rest_after, short_at};
use crate::header::Header;
use lnt_wire::{Cursor, Order};

/// The tables, as their bytes.
#[derive(Clone, Copy)]
pub(crate) struct Tables<'a> {
    /// The offsets of addresses.
    pub(crate) starts: &'a [u8],
    /// The places of infos.
    pub(crate) infos: &'a [u8],
    /// The number of files.
    pub(crate) count: u32,
    /// The files.
    pub(crate) files: &'a [u8],
}

/// The tables of a file with these bytes.
#[tactic(auto, using(crate::proofs::TableLemmas::small_table, crate::proofs::TableLemmas::tables_read, crate::proofs::TableLemmas::starts_refused, crate::proofs::TableLemmas::order_refused, crate::proofs::TableLemmas::infos_refused, crate::proofs::TableLemmas::count_refused, crate::proofs::TableLemmas::files_refused))]
pub(crate) fn tables_of<'a>(
    order: Order,
    bytes: &'a [u8],
    header: Header,
) -> Result<Tables<'a>, GsymFault>
    requires size { is_address_size header.address_size ≡ true }
    requires length { 48 ≤ length bytes.now }
    ensures read { MatchResult result (λ tables. tables_of order bytes.now (header_said bytes.now header)
        ≡ Ok (tables_said order (header_said bytes.now header) tables))
        (λ fault. tables_of order bytes.now (header_said bytes.now header) ≡ Err fault) }
    ensures starts { IfOk result (λ tables. length tables.starts.now ≡ header.address_size * header.count) }
    ensures infos { IfOk result (λ tables. length tables.infos.now ≡ 4 * header.count) }
    ensures files { IfOk result (λ tables. length tables.files.now ≡ 8 * tables.count) }
    ensures rise { IfOk result
        (λ tables. first_lower header.address_size 48 (numbers_of order header.address_size header.count tables.starts.now)
        ≡ None) }
{
    let size = header.address_size as usize * header.count as usize;
    let starts = block(&mut cursor_at(order, bytes, 48), size)?;
    if let Some(place) = first_lower(order, header.address_size, header.count, starts) {
        return Err(GsymFault {
            place,
            reason: GsymReason::NotInOrder,
        });
    }
    let mut cursor = cursor_at(order, bytes, aligned(48 + size as u64));
    let infos = block(&mut cursor, 4 * header.count as usize)?;
    let files = number(&mut cursor)?;
    let bytes = block(&mut cursor, 8 * files as usize)?;
    Ok(Tables {
        starts,
        infos,
        count: files,
        files: bytes,
    })
}

// The next multiple of 4.
fn aligned(place: u64) -> u64
    requires { place < 2 ^ 63 }
    ensures { result ≡ aligned place }
{
    (place + 3) / 4 * 4
}

/// A cursor at a place of a file with these bytes.
#[tactic(auto, using(crate::proofs::FieldLemmas::same_at, crate::proofs::TableLemmas::none_there))]
pub(crate) fn cursor_at<'a>(order: Order, bytes: &'a [u8], place: u64) -> Cursor<'a>
    requires { place < 2 ^ 63 }
    ensures { result ≡ at_place order bytes.now place }
{
    let rest = if place < bytes.len() as u64 {
        &bytes[place as usize..]
    } else {
        &[]
    };
    Cursor::new(rest, place, order)
}

// Where the first offset is that is below the one before it.
#[tactic(auto, using(crate::proofs::TableLemmas::small_table, crate::proofs::TableLemmas::first_lowest, crate::proofs::TableLemmas::next_lowest, crate::proofs::TableLemmas::lower_found, crate::proofs::TableLemmas::none_lower, crate::proofs::TableLemmas::no_offset, crate::proofs::TableLemmas::one_left))]
fn first_lower(order: Order, size: u8, count: u32, bytes: &[u8]) -> Option<u64>
    requires size { is_address_size size ≡ true }
    requires length { length bytes.now ≡ size * count }
    ensures { result ≡ first_lower size 48 (numbers_of order size count bytes.now) }
{
    if count == 0 {
        return None;
    }
    let mut last = offset_of(order, size, bytes);
    let mut rest = rest_after(bytes, size as usize);
    let mut place = 48;
    let mut left = count - 1;
    while left > 0 {
        let next = offset_of(order, size, rest);
        place += u64::from(size);
        if next < last {
            return Some(place);
        }
        last = next;
        let after = rest_after(rest, size as usize);
        rest = after;
        left -= 1;
    }
    None
}

/// The offset of an address, which the first bytes encode. The caller ensures that there are as many.
#[inline(always)]
pub(crate) fn offset_of(order: Order, size: u8, bytes: &[u8]) -> u64
    requires size { is_address_size size ≡ true }
    requires length { size ≤ length bytes.now }
    ensures { result ≡ first_number order size bytes.now }
{
    match size {
        1 => u64::from(byte_at(order, bytes, 0)),
        2 => u64::from(short_at(order, bytes, 0)),
        4 => u64::from(number_at(order, bytes, 0)),
        _ => long_at(order, bytes, 0),
    }
}
