use crate::samples::{ENDLESS, PLAIN, Pieces, SHORT, WIDE};
use crate::unit::worked::joined;
use lnt_io::{Counted, Source};
use lnt_unit::{SectionReader, SectionStop};
use lnt_wire::{Fault, Order, Reason, frames};
use std::alloc::{AllocError, Global};
use std::test::Fail;

const AMPLE: u64 = 1 << 30;

// Whether the section has this many frames, and then this fault.
fn has_frames(
    alloc: Global,
    bytes: &[u8],
    order: Order,
    count: usize,
    fault: Option<Fault>,
) -> bool {
    frames(alloc, bytes, order).is_ok_and(|framed| framed.frames.len() == count
        && framed.fault == fault)
}

#[test]
fn frames_up_to_a_fault(rt: HostRuntime) {
    let alloc = rt.alloc();
    let two = [
        4, 0, 0, 0, 5, 0, 8, 9, 2, 0, 0, 0, 5, 0, 0xf0, 0xff, 0xff, 0xff,
    ];
    let fault = Fault {
        place: 14,
        reason: Reason::ReservedLength,
    };
    assert!(rt; has_frames(alloc, &two, Order::Little, 2, Some(fault)));
    assert!(rt; has_frames(alloc, &WIDE, Order::Big, 1, None));
}

// A section that comes in pieces.
type Section<'s, 'b> = SectionReader<'s, Counted<Pieces<'b>>>;

// Whether the next unit of the section has these bytes, and is at the offset.
fn gives(alloc: Global, reader: &mut Section<'_, '_>, offset: u64, bytes: &[u8]) -> bool {
    match reader.next_unit(alloc) {
        Ok(Some(unit)) => unit.offset() == offset && unit.bytes() == bytes,
        _ => false,
    }
}

// Whether the section ends here.
fn ends(alloc: Global, reader: &mut Section<'_, '_>) -> bool {
    matches!(reader.next_unit(alloc), Ok(None))
}

// Whether the section is these two units, read in pieces of this size.
fn are_units(alloc: Global, first: &[u8], second: &[u8], piece: usize) -> bool {
    let Some(bytes) = joined(alloc, first, second) else {
        return false;
    };
    let mut source = Counted::new(Pieces::new(alloc, bytes.as_slice(), piece, u64::MAX), AMPLE);
    let mut reader = SectionReader::new(&mut source, Order::Little);
    gives(alloc, &mut reader, 0, first)
        && gives(alloc, &mut reader, first.len() as u64, second)
        && ends(alloc, &mut reader)
        && ends(alloc, &mut reader)
}

#[test]
fn units_in_pieces(rt: HostRuntime) {
    let alloc = rt.alloc();
    assert!(rt; are_units(alloc, &PLAIN, &SHORT, 100));
    assert!(rt; are_units(alloc, &SHORT, &PLAIN, 1));
    assert!(rt; are_units(alloc, &PLAIN, &SHORT, 5));
}

// Why no unit comes from the bytes, under this limit and from a reader that fails after `sound` reads. `None` if a later
// call doesn't fail as it should, or the source counts other failures than there were.
fn stop_of(alloc: Global, bytes: &[u8], sound: u64, limit: u64) -> Option<SectionStop> {
    let mut source = Counted::new(Pieces::new(alloc, bytes, 100, sound), limit);
    let mut reader = SectionReader::new(&mut source, Order::Little);
    let stop = reader.next_unit(alloc).err();
    let next = reader.next_unit(alloc).err();
    let last = reader.next_unit(alloc).err();
    let failed = Some(SectionStop::Failed);
    let counted = source.failures() == u64::from(stop == Some(SectionStop::Read));
    stop.filter(|_| next == failed && last == failed && counted)
}

#[test]
fn stops_of_the_first_unit(rt: HostRuntime) {
    let alloc = rt.alloc();
    let fault = SectionStop::Fault(Fault {
        place: 0,
        reason: Reason::Truncated,
    });
    assert!(rt; stop_of(alloc, &ENDLESS, 100, AMPLE) == Some(fault));
    assert!(rt; stop_of(alloc, &PLAIN, 0, 71) == Some(SectionStop::Read));
    assert!(rt; stop_of(alloc, &PLAIN, 1, 71) == Some(SectionStop::Read));
    assert!(rt; stop_of(alloc, &PLAIN, 100, 70) == Some(SectionStop::TooLong));
    assert!(rt; stop_of(alloc, &PLAIN, 100, 0) == Some(SectionStop::TooLong));
}

// Why no unit comes after `PLAIN` in a section that goes on with a reserved length.
fn stop_after(alloc: Global, sound: u64, limit: u64) -> Option<SectionStop> {
    let bytes = joined(alloc, &PLAIN, &[0xf0, 0xff, 0xff, 0xff])?;
    let mut source = Counted::new(Pieces::new(alloc, bytes.as_slice(), 100, sound), limit);
    let mut reader = SectionReader::new(&mut source, Order::Little);
    if !gives(alloc, &mut reader, 0, &PLAIN) {
        return None;
    }
    reader.next_unit(alloc).err()
}

#[test]
fn stops_after_a_unit(rt: HostRuntime) {
    let alloc = rt.alloc();
    let fault = SectionStop::Fault(Fault {
        place: 71,
        reason: Reason::ReservedLength,
    });
    assert!(rt; stop_after(alloc, 100, 75) == Some(fault));
    assert!(rt; stop_after(alloc, 2, AMPLE) == Some(SectionStop::Read));
    assert!(rt; stop_after(alloc, 100, 71) == Some(SectionStop::TooLong));
    assert!(rt; stop_after(alloc, 100, 72) == Some(SectionStop::TooLong));
}

// Whether two calls ask for these numbers of bytes, read by read.
fn are_asked(alloc: Global, bytes: &[u8], order: Order, piece: usize, want: &[usize]) -> bool {
    let mut file = Pieces::new(alloc, bytes, piece, u64::MAX);
    let mut source = Counted::new(&mut file, AMPLE);
    let mut reader = SectionReader::new(&mut source, order);
    let _first = reader.next_unit(alloc);
    let _second = reader.next_unit(alloc);
    file.asked() == want
}

#[test]
fn no_byte_is_asked_for_early(rt: HostRuntime) -> Result<(), Fail> {
    let alloc = rt.alloc();
    assert!(rt; are_asked(alloc, &PLAIN, Order::Little, 100, &[4, 67, 4]));
    assert!(rt; are_asked(alloc, &WIDE, Order::Big, 100, &[4, 8, 71, 4]));
    assert!(rt; are_asked(alloc, &SHORT, Order::Little, 3, &[4, 1, 4, 1, 4]));
    assert!(rt; are_asked(alloc, &ENDLESS, Order::Little, 100, &[4, 8, 65536]));
    assert!(rt; are_asked(alloc, &SHORT[..3], Order::Little, 2, &[4, 2, 1]));
    let long = long_unit(alloc)?;
    let blocks = [4, 65536, 65536, 18928, 4];
    assert!(rt; are_asked(alloc, &long, Order::Little, 1 << 20, &blocks));
    Ok(())
}

// A unit of 150,000 bytes after its length.
fn long_unit(alloc: Global) -> Result<Vec<u8>, AllocError> {
    let mut long = Vec::from_slice(alloc, &[0xf0, 0x49, 2, 0, 5, 0])?;
    long.resize(150_004, 7)?;
    Ok(long)
}

// Reads the next unit into this memory, and returns the memory, if the unit has the expected bytes and the memory hasn't
// grown.
fn read_into(reader: &mut Section<'_, '_>, room: Vec<u8>, want: &[u8]) -> Option<Vec<u8>> {
    let capacity = room.capacity();
    let Ok(Some(unit)) = reader.next_unit_in(room) else {
        return None;
    };
    let bytes = unit.into_bytes();
    let is_same = bytes.as_slice() == want && bytes.capacity() == capacity;
    is_same.then_some(bytes)
}

// Whether two units are read into the same memory.
fn share_room(alloc: Global, first: &[u8], second: &[u8]) -> Option<bool> {
    let bytes = joined(alloc, first, second)?;
    let mut source = Counted::new(Pieces::new(alloc, bytes.as_slice(), 100, u64::MAX), AMPLE);
    let mut reader = SectionReader::new(&mut source, Order::Little);
    let room = Vec::with_capacity(alloc, 100).ok()?;
    let room = read_into(&mut reader, room, first)?;
    Some(read_into(&mut reader, room, second).is_some())
}

#[test]
fn memory_is_used_again(rt: HostRuntime) {
    assert!(rt; share_room(rt.alloc(), &PLAIN, &SHORT) == Some(true));
}
