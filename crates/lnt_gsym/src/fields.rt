//! Reads the fields of a GSYM file.
ghost use Rattle.std.specs.Prelude.{◌≡◌, ◌+◌, ◌^◌, ◌≤◌, Ok, Err, drop, length, IfOk, MatchResult, OnOk};
ghost use Rattle.lnt_gsym.specs.GsymFields.{block, file_number, number, signed, unsigned};
ghost use Rattle.lnt_gsym.specs.GsymFiles.{number_at};
ghost use Rattle.lnt_gsym.specs.Reading.{named_fault};

use crate::fault::{GsymFault, GsymReason};
use byteorder::{BigEndian, ByteOrder, LittleEndian};
use lnt_wire::{Cursor, Fault, Order, Reason};

/// So many bytes.
#[inline(always)]
#[tactic(auto, using(crate::proofs::FieldLemmas::block_length, crate::proofs::FieldLemmas::block_read, crate::proofs::FieldLemmas::block_size, crate::proofs::FieldLemmas::block_cut))]
pub(crate) fn block<'a>(cursor: &mut Cursor<'a>, size: usize) -> Result<&'a [u8], GsymFault>
    ensures read { MatchResult result (λ bytes. block size cursor.old ≡ Ok (bytes.now, cursor.new))
        (λ fault. block size cursor.old ≡ Err fault) }
    ensures room { OnOk result (length cursor.new.rest + size ≡ length cursor.old.rest) }
    ensures size { IfOk result (λ bytes. length bytes.now ≡ size) }
{
    let place = cursor.place();
    match cursor.take(size) {
        Ok(bytes) => Ok(bytes),
        Err(_) => Err(GsymFault {
            place,
            reason: GsymReason::Cut,
        }),
    }
}

/// A number of one byte.
#[inline(always)]
pub(crate) fn byte(cursor: &mut Cursor<'_>) -> Result<u8, GsymFault>
    ensures read { MatchResult result (λ n. number 1 cursor.old ≡ Ok (n, cursor.new)) (λ fault. number 1 cursor.old ≡ Err fault) }
    ensures room { OnOk result (length cursor.new.rest + 1 ≡ length cursor.old.rest) }
{
    let rest = cursor.rest();
    let order = cursor.order();
    block(cursor, 1)?;
    Ok(byte_at(order, rest, 0))
}

/// A number of 4 bytes.
#[inline(always)]
pub(crate) fn number(cursor: &mut Cursor<'_>) -> Result<u32, GsymFault>
    ensures read { MatchResult result (λ n. number 4 cursor.old ≡ Ok (n, cursor.new)) (λ fault. number 4 cursor.old ≡ Err fault) }
    ensures room { OnOk result (length cursor.new.rest + 4 ≡ length cursor.old.rest) }
{
    let rest = cursor.rest();
    let order = cursor.order();
    block(cursor, 4)?;
    Ok(number_at(order, rest, 0))
}

/// An unsigned LEB128 number.
#[inline(always)]
#[tactic(auto, using(crate::proofs::FieldLemmas::no_longer, crate::proofs::FieldLemmas::unsigned_read, crate::proofs::FieldLemmas::unsigned_refused))]
pub(crate) fn unsigned(cursor: &mut Cursor<'_>) -> Result<u64, GsymFault>
    ensures read { MatchResult result (λ n. unsigned cursor.old ≡ Ok (n, cursor.new)) (λ fault. unsigned cursor.old ≡ Err fault) }
    ensures no_longer { OnOk result (length cursor.new.rest ≤ length cursor.old.rest) }
{
    match cursor.uleb() {
        Ok(n) => Ok(n),
        Err(fault) => Err(leb_fault(fault)),
    }
}

/// The number of a file, an unsigned LEB128 number below 2^32.
#[inline(always)]
pub(crate) fn file_number(cursor: &mut Cursor<'_>) -> Result<u32, GsymFault>
    ensures read { MatchResult result (λ n. file_number cursor.old ≡ Ok (n, cursor.new)) (λ fault. file_number cursor.old ≡ Err fault) }
    ensures no_longer { OnOk result (length cursor.new.rest ≤ length cursor.old.rest) }
{
    let place = cursor.place();
    let n = unsigned(cursor)?;
    if n < 1 << 32 {
        return Ok(n as u32);
    }
    Err(GsymFault {
        place,
        reason: GsymReason::NumberTooLarge,
    })
}

/// A signed LEB128 number.
#[inline(always)]
#[tactic(auto, using(crate::proofs::FieldLemmas::no_longer, crate::proofs::FieldLemmas::signed_read, crate::proofs::FieldLemmas::signed_refused))]
pub(crate) fn signed(cursor: &mut Cursor<'_>) -> Result<i64, GsymFault>
    ensures read { MatchResult result (λ z. signed cursor.old ≡ Ok (z, cursor.new)) (λ fault. signed cursor.old ≡ Err fault) }
    ensures no_longer { OnOk result (length cursor.new.rest ≤ length cursor.old.rest) }
{
    match cursor.sleb() {
        Ok(z) => Ok(z),
        Err(fault) => Err(leb_fault(fault)),
    }
}

// The fault of a LEB128 number, as these files name it.
fn leb_fault(fault: Fault) -> GsymFault
    ensures { result ≡ named_fault fault }
{
    let Fault { place, reason } = fault;
    match reason {
        Reason::LebTooLarge => GsymFault {
            place,
            reason: GsymReason::NumberTooLarge,
        },
        _ => GsymFault {
            place,
            reason: GsymReason::Cut,
        },
    }
}

/// The number of 1 byte at a place. The caller ensures that it is there.
#[inline(always)]
pub(crate) fn byte_at(order: Order, bytes: &[u8], place: usize) -> u8
    requires { place + 1 ≤ length bytes.now }
    ensures { result ≡ number_at order bytes.now place 1 }
{
    let rest = rest_after(bytes, place);
    match order {
        Order::Little => rest[0],
        Order::Big => rest[0],
    }
}

/// The number of 2 bytes at a place. The caller ensures that they are there.
#[inline(always)]
pub(crate) fn short_at(order: Order, bytes: &[u8], place: usize) -> u16
    requires { place + 2 ≤ length bytes.now }
    ensures { result ≡ number_at order bytes.now place 2 }
{
    let rest = rest_after(bytes, place);
    match order {
        Order::Little => LittleEndian::read_u16(rest),
        Order::Big => BigEndian::read_u16(rest),
    }
}

/// The number of 4 bytes at a place. The caller ensures that they are there.
#[inline(always)]
pub(crate) fn number_at(order: Order, bytes: &[u8], place: usize) -> u32
    requires { place + 4 ≤ length bytes.now }
    ensures { result ≡ number_at order bytes.now place 4 }
{
    let rest = rest_after(bytes, place);
    match order {
        Order::Little => LittleEndian::read_u32(rest),
        Order::Big => BigEndian::read_u32(rest),
    }
}

/// The number of 8 bytes at a place. The caller ensures that they are there.
#[inline(always)]
pub(crate) fn long_at(order: Order, bytes: &[u8], place: usize) -> u64
    requires { place + 8 ≤ length bytes.now }
    ensures { result ≡ number_at order bytes.now place 8 }
{
    let rest = rest_after(bytes, place);
    match order {
        Order::Little => LittleEndian::read_u64(rest),
        Order::Big => BigEndian::read_u64(rest),
    }
}

/// The bytes after the first so many.
#[inline(always)]
pub(crate) fn rest_after<'a>(bytes: &'a [u8], size: usize) -> &'a [u8]
    requires { size ≤ length bytes.now }
    ensures { result.now ≡ drop size bytes.now }
{
    &bytes[size..]
}
