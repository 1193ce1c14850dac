//! Reads the header.
ghost use Rattle.std.specs.Prelude.{◌≡◌, ◌+◌, ◌≤◌, Ok, Err, length, IfOk, MatchResult, OnOk, true};
ghost use Rattle.lnt_gsym.specs.GsymFiles.{header_of, is_address_size};
ghost use Rattle.lnt_gsym.specs.Reading.{header_said};

use crate::fault::{GsymFault, GsymReason};
use crate::fields::{byte_at, long_at, number_at, short_at};
use lnt_wire::Order;

/// What a header says.
#[derive(Clone, Copy)]
pub(crate) struct Header {
    /// The number of bytes of an address offset: 1, 2, 4 or 8.
    pub(crate) address_size: u8,
    /// The base of the address offsets.
    pub(crate) base: u64,
    /// The number of addresses.
    pub(crate) count: u32,
    /// Where the strings begin.
    pub(crate) strings_place: u32,
    /// How many bytes they have.
    pub(crate) strings_size: u32,
}

/// The header of a file with these bytes.
#[tactic(auto, using(crate::proofs::TableLemmas::header_read))]
pub(crate) fn header_of(order: Order, bytes: &[u8]) -> Result<Header, GsymFault>
    ensures read { MatchResult result (λ header. header_of order bytes.now ≡ Ok (header_said bytes.now header))
        (λ fault. header_of order bytes.now ≡ Err fault) }
    ensures size { IfOk result (λ header. is_address_size header.address_size ≡ true) }
    ensures length { OnOk result (48 ≤ length bytes.now) }
    ensures strings { IfOk result (λ header. header.strings_place + header.strings_size ≤ length bytes.now) }
{
    if bytes.len() < 48 {
        return Err(fault_at(0, GsymReason::Cut));
    }
    if short_at(order, bytes, 4) != 1 {
        return Err(fault_at(4, GsymReason::Version));
    }
    let address_size = byte_at(order, bytes, 6);
    if !is_address_size(address_size) {
        return Err(fault_at(6, GsymReason::AddressSize));
    }
    if byte_at(order, bytes, 7) > 20 {
        return Err(fault_at(7, GsymReason::UuidSize));
    }
    let strings_place = number_at(order, bytes, 20);
    let strings_size = number_at(order, bytes, 24);
    if bytes.len() < strings_place as usize + strings_size as usize {
        return Err(fault_at(20, GsymReason::Cut));
    }
    Ok(Header {
        address_size,
        base: long_at(order, bytes, 8),
        count: number_at(order, bytes, 16),
        strings_place,
        strings_size,
    })
}

// A fault of a field of the header.
fn fault_at(place: u64, reason: GsymReason) -> GsymFault
    ensures { result ≡ record { place = place; reason = reason } }
{
    GsymFault { place, reason }
}

// Whether an address offset may have so many bytes.
fn is_address_size(size: u8) -> bool
    ensures { result ≡ is_address_size size }
{
    size == 1 || size == 2 || size == 4 || size == 8
}
