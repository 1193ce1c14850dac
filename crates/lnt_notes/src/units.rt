//! The unit that holds a place of a section, and the operation there.
ghost use Rattle.std.specs.Prelude.{◌-◌, ◌^◌, ◌<◌};

use lnt_io::Source;
use lnt_unit::{SectionReader, UnitBuffer};
use lnt_wire::{Cursor, Order};
use std::alloc::Global;

// DW_LNE_set_address (DWARF 5, section 7.22).
const SET_ADDRESS: u8 = 2;

// The unit that holds the byte at this offset in the section. `None` if there is none, or the units up to it can't be read.
pub(crate) fn unit_at<R: Source>(
    alloc: Global,
    source: &mut R,
    order: Order,
    place: u64,
) -> Option<UnitBuffer>
    requires { R.failures source.old < 2 ^ 64 - 1 }
{
    let mut reader = SectionReader::new(source, order);
    let mut room = Vec::new(alloc);
    while let Some(buffer) = reader.next_unit_in(room).ok()? {
        if bytes_from(&buffer, place).is_some() {
            return Some(buffer);
        }
        room = buffer.into_bytes();
    }
    None
}

// The bytes of a unit from this offset in the section on. `None` if the unit doesn't hold the byte there.
fn bytes_from(buffer: &UnitBuffer, place: u64) -> Option<&[u8]> {
    let start = place.checked_sub(buffer.offset())?;
    buffer
        .bytes()
        .get(start as usize..)
        .filter(|bytes| !bytes.is_empty())
}

// How many bytes the address has that the extended operation with its length at this offset in the section sets. `None` if it
// sets none, or one of a size that no unit has (DWARF 5, section 6.2.5.3).
pub(crate) fn address_bytes<R: Source>(
    alloc: Global,
    source: &mut R,
    order: Order,
    place: u64,
) -> Option<u64>
    requires { R.failures source.old < 2 ^ 64 - 1 }
{
    let unit = unit_at(alloc, source, order, place)?;
    let mut cursor = Cursor::new(bytes_from(&unit, place)?, 0, order);
    let length = cursor.uleb().ok()?;
    match (cursor.u8().ok()?, length) {
        (SET_ADDRESS, 3 | 5 | 9) => Some(length - 1),
        _ => None,
    }
}
