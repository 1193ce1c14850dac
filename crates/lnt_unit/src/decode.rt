//! Units and sections, read from their bytes (DWARF 5, section 6.2.4).
ghost use Rattle.std.specs.Prelude.{◌≡◌, ◌≢◌, ◌+◌, length, IfOk, IfErr, OnOk, OnErr};
ghost use Rattle.lnt_wire.specs.FrameBytes.{frame_bytes, IsFrame, IsPlacedFrame};
ghost use Rattle.lnt_wire.specs.Reading.{Reads};
ghost use Rattle.lnt_unit.specs.BrokenUnits.{BrokenUnit, BrokenSection};
ghost use Rattle.lnt_unit.specs.ConversionSteps.{AddsUnit};
ghost use Rattle.lnt_unit.specs.UnitBytes.{UnitBytesIn, SectionBytes};

use lnt_header::Unit;
use lnt_header_bytes::decode_header;
use lnt_ops::read_ops;
use lnt_wire::{Cursor, Fault, Frame, Order, Reason, take_frame};
use std::alloc::Global;

/// Reads the unit at the cursor, and moves past exactly the bytes that encode it. The caller ensures that `order` is the
/// cursor's.
///
/// Fails with `Memory`, and otherwise only if the remaining bytes don't begin with a unit. The fault's place is that of the
/// field at fault. It is the unit's own offset if the initial length is truncated, is reserved, or counts more bytes than
/// remain. If the header is valid, the fault is that of the program's first operation that isn't (`read_ops`). After an
/// error the cursor is unchanged.
#[tactic(auto, using(crate::proofs::ReadLaws::unit_read, crate::proofs::ReadLaws::frame_refused))]
pub fn decode_unit(alloc: Global, cursor: &mut Cursor<'_>, order: Order) -> Result<Unit, Fault>
    requires { cursor.old.order ≡ order }
    ensures ok { IfOk result (λ unit. Reads (UnitBytesIn order) unit cursor.old cursor.new) }
    ensures err { IfErr result (λ fault. fault.reason ≢ Reason.Memory → BrokenUnit order fault cursor.old.place cursor.old.rest) }
    ensures unchanged { OnErr result (cursor.new ≡ cursor.old) }
{
    let (frame, ahead) = frame_ahead(cursor, order)?;
    let unit = unit_of(alloc, &frame, ahead.place(), order)?;
    *cursor = ahead;
    Ok(unit)
}

// The frame at the cursor, whose order `order` is, and a cursor past it.
#[tactic(auto, using(crate::proofs::ReadLaws::frame_ahead_lemmas))]
pub(crate) fn frame_ahead<'a>(
    cursor: &Cursor<'a>,
    order: Order,
) -> Result<(Frame<'a>, Cursor<'a>), Fault>
    requires { cursor.now.order ≡ order }
    ensures ok { IfOk result (λ found. Reads (IsFrame order) found.0 cursor.now found.1) }
    ensures offset { IfOk result (λ found. found.0.offset ≡ cursor.now.place) }
    ensures placed { IfOk result (λ found. IsPlacedFrame order found.0) }
    ensures end { IfOk result (λ found. found.1.place ≡ found.0.offset + length (frame_bytes order found.0.format found.0.body.now)) }
    ensures err { IfErr result (λ fault. BrokenUnit order fault cursor.now.place cursor.now.rest) }
{
    let mut ahead = Cursor::new(cursor.rest(), cursor.place(), order);
    let frame = take_frame(&mut ahead)?;
    Ok((frame, ahead))
}

// The unit of a frame. It ends before the offset `end` of the section.
fn unit_of(alloc: Global, frame: &Frame<'_>, end: u64, order: Order) -> Result<Unit, Fault>
    requires frame { IsPlacedFrame order frame.now }
    requires end { end ≡ frame.now.offset + length (frame_bytes order frame.now.format frame.now.body.now) }
    ensures ok { IfOk result (λ unit. UnitBytesIn order unit (frame_bytes order frame.now.format frame.now.body.now)) }
    ensures err { IfErr result (λ fault. fault.reason ≢ Reason.Memory
        → BrokenUnit order fault frame.now.offset (frame_bytes order frame.now.format frame.now.body.now)) }
{
    let (header, program) = decode_header(alloc, frame, order)?;
    let place = end - program.len() as u64;
    match read_ops(alloc, header.numbers(), program, place) {
        Ok(ops) => Ok(Unit::of(header, ops)),
        Err(fault) => {
            drop(header);
            Err(fault)
        }
    }
}

/// The units of the section `bytes` with their offsets in it, in order. They are consecutive, and their bytes joined are
/// the section: the last one ends where the section does.
///
/// Fails with `Memory`, and otherwise only if the section isn't a list of units, with the fault that `decode_unit` gives at
/// the end of the last valid unit.
#[tactic(auto, using(crate::proofs::SectionLaws::decode_section_lemmas))]
pub fn decode_section(alloc: Global, bytes: &[u8], order: Order) -> Result<Vec<(u64, Unit)>, Fault>
    ensures ok { IfOk result (λ units. SectionBytes order units.items bytes.now) }
    ensures err { IfErr result (λ fault. fault.reason ≢ Reason.Memory → BrokenSection order fault bytes.now) }
{
    let mut units = Vec::new(alloc);
    let mut cursor = Cursor::new(bytes, 0, order);
    while !cursor.rest().is_empty() {
        if let Err(fault) = add_unit(alloc, &mut cursor, order, &mut units) {
            drop(units);
            return Err(fault);
        }
    }
    Ok(units)
}

// Reads the unit at the cursor, and appends it to `units` with its offset. The caller ensures that `order` is the cursor's.
fn add_unit(
    alloc: Global,
    cursor: &mut Cursor<'_>,
    order: Order,
    units: &mut Vec<(u64, Unit)>,
) -> Result<(), Fault>
    requires { cursor.old.order ≡ order }
    ensures ok { OnOk result (AddsUnit order units.old.items units.new.items cursor.old cursor.new) }
    ensures err { IfErr result (λ fault. fault.reason ≢ Reason.Memory → BrokenUnit order fault cursor.old.place cursor.old.rest) }
{
    let offset = cursor.place();
    let unit = decode_unit(alloc, cursor, order)?;
    Ok(units.push((offset, unit))?)
}
