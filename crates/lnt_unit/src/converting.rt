//! Units in another format and byte order, each from the bytes in which it stands (DWARF 5, sections 6.2.4 and 7.4).
ghost use Rattle.std.specs.Prelude.{◌≡◌, ◌≢◌, ◌+◌, ◌<◌, ◌^◌, length, IfErr, IfOk, OnOk, OnErr};
ghost use Rattle.lnt_wire.specs.Bytes.{Extends};
ghost use Rattle.lnt_wire.specs.FrameBytes.{frame_bytes, IsPlacedFrame};
ghost use Rattle.lnt_header_bytes.specs.HeaderBytes.{HeaderBytesIn};
ghost use Rattle.lnt_unit.specs.BrokenUnits.{BrokenUnit};
ghost use Rattle.lnt_unit.specs.Converting.{ConvertsUnit, IsNextStop};
ghost use Rattle.lnt_unit.specs.ConversionSteps.{ConvertsBytes, IsUnitStop, JudgesUnit};

use crate::convert::ConvertFault;
use crate::decode::frame_ahead;
use lnt_header_bytes::{HeaderInPlace, put_header_view, view_header};
use lnt_ops::convert_ops;
use lnt_wire::{Cursor, EncodeFault, Fault, Format, Frame, Order, Reason};
use std::alloc::{AllocError, Global};

/// Adds the bytes of the unit at the cursor in the format and in the byte order `to`, each LEB128 in its shortest
/// spelling, and moves the cursor past the unit. The caller sees to it that `order` is the cursor's. Entries and operations
/// are read where they lie, and written one by one: it takes the memory of the converted unit, and of its parts once more.
///
/// It refuses with `Malformed` where no unit begins the bytes that are left, with the fault of `decode_unit`; with
/// `TooLarge` and the unit's offset if it has no encoding in the format; and else with `Memory`. Then the cursor is as
/// it was, and `out` may end with a part of the unit.
#[tactic(auto, using(crate::proofs::ConvertedLemmas::convert_unit_lemmas))]
pub fn convert_unit(
    alloc: Global,
    cursor: &mut Cursor<'_>,
    order: Order,
    format: Format,
    to: Order,
    out: &mut Vec<u8>,
) -> Result<(), ConvertFault>
    requires { cursor.old.order ≡ order }
    ensures ok { OnOk result (ConvertsUnit order format to cursor.old cursor.new out.old.items out.new.items) }
    ensures err { IfErr result (IsNextStop order format to cursor.old) }
    ensures extends { OnErr result (Extends out.old.items out.new.items) }
    ensures unchanged { OnErr result (cursor.new ≡ cursor.old) }
{
    let (frame, ahead) = frame_ahead(cursor, order)?;
    convert_frame(alloc, &frame, ahead.place(), order, format, to, out)?;
    *cursor = ahead;
    Ok(())
}

/// Whether the unit at the cursor has a spelling in the format and in the byte order `to`. The cursor moves past the
/// unit. The caller sees to it that `order` is the cursor's.
///
/// It refuses as `decode_unit` does, and then leaves the cursor as it was.
#[tactic(auto, using(crate::proofs::ConvertedLemmas::judge_unit_lemmas))]
pub(crate) fn judge_unit(
    alloc: Global,
    cursor: &mut Cursor<'_>,
    order: Order,
    format: Format,
    to: Order,
) -> Result<bool, Fault>
    requires { cursor.old.order ≡ order }
    ensures ok { IfOk result (λ converts. JudgesUnit order format to converts cursor.old cursor.new) }
    ensures err { IfErr result (λ fault. fault.reason ≢ Reason.Memory → BrokenUnit order fault cursor.old.place cursor.old.rest) }
    ensures unchanged { OnErr result (cursor.new ≡ cursor.old) }
{
    let (frame, ahead) = frame_ahead(cursor, order)?;
    let mut bytes = Vec::new(alloc);
    match convert_frame(alloc, &frame, ahead.place(), order, format, to, &mut bytes) {
        Ok(()) => {
            *cursor = ahead;
            Ok(true)
        }
        Err(ConvertFault::TooLarge(_)) => {
            *cursor = ahead;
            Ok(false)
        }
        Err(ConvertFault::Malformed(fault)) => Err(fault),
        Err(ConvertFault::Memory) => Err(Fault::from(AllocError)),
    }
}

// Adds the bytes of the unit of a frame in the format and in the byte order `to`. It ends before the offset `end` of the
// section.
#[tactic(auto, using(crate::proofs::ReadLaws::program_within))]
fn convert_frame(
    alloc: Global,
    frame: &Frame<'_>,
    end: u64,
    order: Order,
    format: Format,
    to: Order,
    out: &mut Vec<u8>,
) -> Result<(), ConvertFault>
    requires frame { IsPlacedFrame order frame.now }
    requires end { end ≡ frame.now.offset + length (frame_bytes order frame.now.format frame.now.body.now) }
    ensures ok { OnOk result (ConvertsBytes order format to (frame_bytes order frame.now.format frame.now.body.now) out.old.items
        out.new.items) }
    ensures err { IfErr result (IsUnitStop order format to frame.now.offset (frame_bytes order frame.now.format frame.now.body.now)) }
    ensures extends { OnErr result (Extends out.old.items out.new.items) }
{
    let (header, program) = view_header(alloc, frame, order)?;
    let place = end - program.len() as u64;
    convert_parts(alloc, frame, &header, program, place, format, to, out)
}

// Adds the bytes of the unit of a frame, with this header and this program, in the format and in the byte order `to`. The
// program begins at the offset `place` of the section. It borrows the header, so that no way out of it lets one go.
fn convert_parts(
    alloc: Global,
    frame: &Frame<'_>,
    header: &HeaderInPlace<'_>,
    program: &[u8],
    place: u64,
    format: Format,
    to: Order,
    out: &mut Vec<u8>,
) -> Result<(), ConvertFault>
    requires spelled { HeaderBytesIn header.now.numbers.order (header.now, program.now)
        (frame_bytes header.now.numbers.order frame.now.format frame.now.body.now) }
    requires room { place + length program.now < 2 ^ 64 }
    requires place { place + length program.now
        ≡ frame.now.offset + length (frame_bytes header.now.numbers.order frame.now.format frame.now.body.now) }
    ensures ok { OnOk result (ConvertsBytes header.now.numbers.order format to
        (frame_bytes header.now.numbers.order frame.now.format frame.now.body.now) out.old.items out.new.items) }
    ensures err { IfErr result (IsUnitStop header.now.numbers.order format to frame.now.offset
        (frame_bytes header.now.numbers.order frame.now.format frame.now.body.now)) }
    ensures extends { OnErr result (Extends out.old.items out.new.items) }
{
    let mut converted = Vec::new(alloc);
    convert_ops(&mut converted, header.numbers(), program, place, to)?;
    match put_header_view(alloc, out, &header.view(), &converted, format, to) {
        Ok(()) => Ok(()),
        Err(EncodeFault::TooLarge) => Err(ConvertFault::TooLarge(frame.offset)),
        Err(EncodeFault::Memory) => Err(ConvertFault::Memory),
    }
}
