//! What several tests share: the unit that begins some bytes, and bytes joined.
use lnt_unit::{Unit, decode_unit, encode_unit};
use lnt_wire::{Cursor, Order};
use std::alloc::Global;

// The unit that begins the bytes.
pub(crate) fn unit_of(alloc: Global, bytes: &[u8], order: Order) -> Option<Unit> {
    let mut cursor = Cursor::new(bytes, 0, order);
    decode_unit(alloc, &mut cursor, order).ok()
}

// Whether the unit that begins the bytes is written as these bytes.
pub(crate) fn is_written(alloc: Global, bytes: &[u8], order: Order) -> bool {
    let Some(unit) = unit_of(alloc, bytes, order) else {
        return false;
    };
    encode_unit(alloc, &unit).is_ok_and(|written| written.as_slice() == bytes)
}

// The bytes of the one, and after them those of the other, if there is enough memory.
pub(crate) fn joined(alloc: Global, prefix: &[u8], back: &[u8]) -> Option<Vec<u8>> {
    let mut bytes = Vec::from_slice(alloc, prefix).ok()?;
    bytes.extend_from_slice(back).ok()?;
    Some(bytes)
}
