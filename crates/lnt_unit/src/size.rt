//! The number of bytes of a unit that may be read, by those that came already (DWARF 5, section 7.4).
ghost use Rattle.std.specs.Prelude.{◌≡◌, ◌+◌, ◌<◌, length};
ghost use Rattle.lnt_wire.specs.FrameFaults.{IsCutFrame};
ghost use Rattle.lnt_unit.specs.Spelled.{IsLeastSize};

use lnt_wire::{Cursor, Order};

// The number of further bytes that surely belong to the frame that begins with these bytes: those up to the end of its
// initial length and, once that is complete, those up to the end of the frame. It is 0 if the frame is complete, or its
// initial length is a reserved one.
pub(crate) fn missing_size(bytes: &[u8], order: Order) -> u64
    ensures least { 0 < result → IsLeastSize order bytes.now (length bytes.now + result) }
    ensures whole { result ≡ 0 → IsCutFrame order bytes.now → ⊥ }
{
    missing_at(&mut Cursor::new(bytes, 0, order))
}

// The same for the remaining bytes of a cursor, whose place is then unspecified.
#[tactic(auto, using(crate::proofs::SizeLemmas::sizes))]
fn missing_at(cursor: &mut Cursor<'_>) -> u64
    ensures least { 0 < result → IsLeastSize cursor.old.order cursor.old.rest (length cursor.old.rest + result) }
    ensures whole { result ≡ 0 → IsCutFrame cursor.old.order cursor.old.rest → ⊥ }
{
    let count = cursor.rest().len() as u64;
    let Ok(first) = cursor.u32() else {
        return 4 - count;
    };
    if first < 0xffff_fff0 {
        return u64::from(first).saturating_sub(cursor.rest().len() as u64);
    }
    if first < 0xffff_ffff {
        return 0;
    }
    let Ok(length) = cursor.u64() else {
        return 12 - count;
    };
    length.saturating_sub(cursor.rest().len() as u64)
}
