//! The bytes of one unit, from its initial length to its end.
ghost use Rattle.std.specs.Prelude.{◌≡◌, ◌+◌, ◌^◌, ◌<◌, length, IfOk, IfErr};
ghost use Rattle.lnt_wire.specs.FrameBytes.{FrameBytes, IsPlacedFrame, frame_bytes};
ghost use Rattle.lnt_wire.specs.FrameFaults.{IsFrameFault};
ghost use Rattle.lnt_wire.specs.Reading.{Refuses};
ghost use Rattle.lnt_unit.specs.Spelled.{IsLeastSize};
ghost use Rattle.lnt_unit.specs.Units.{IsWholeUnit};

use lnt_wire::{Cursor, Fault, Format, Frame, Order, take_frame};
use std::marker::Model;

/// The bytes of one whole unit: its initial length, and the body that it counts, which begins with version 5 (DWARF 5,
/// sections 6.2.4 and 7.4). The rest of the body isn't checked.
///
/// Only a `SectionReader` makes one. A contract sees the offset of the unit in the section, its bytes, and the byte order
/// of its numbers.
#[derive(Debug, Drop)]
pub struct UnitBuffer {
    offset: u64,
    order: Order,
    format: Format,
    bytes: Vec<u8>,
}

impl Model for UnitBuffer {
    ghost use Rattle.lnt_unit.specs.Units.{BufferedUnit, IsSpelled};

    ghost Value = { BufferedUnit };

    ghost view = { λ b. record { offset = b.offset; bytes = b.bytes.items; order = b.order } };

    ghost invariant = { λ b. IsSpelled b.offset b.order b.format b.bytes.items };
}

impl UnitBuffer {
    // The unit that these bytes are, at the offset in the section; or the fault for which they don't begin with a frame.
    // The caller ensures that no frame at the start of these bytes is shorter than they are, so that the frame is all of
    // them.
    #[tactic(auto, using(crate::proofs::BufferLemmas::spelled_whole))]
    pub(crate) fn of(bytes: Vec<u8>, offset: u64, order: Order) -> Result<UnitBuffer, Fault>
        requires room { offset + length bytes.items < 2 ^ 64 }
        requires least { IsLeastSize order bytes.items (length bytes.items) }
        ensures ok { IfOk result (λ unit. unit ≡ record { offset = offset; bytes = bytes.items; order = order }) }
        ensures whole { IfOk result (λ unit. IsWholeUnit unit) }
        ensures err { IfErr result (λ fault.
            Refuses (IsFrameFault order) (FrameBytes order) (record { place = offset; rest = bytes.items; order = order }) fault) }
    {
        let format = take_frame(&mut Cursor::new(bytes.as_slice(), offset, order))?.format;
        Ok(UnitBuffer {
            offset,
            order,
            format,
            bytes,
        })
    }

    /// The offset in the section, in bytes, of the unit's first byte.
    pub fn offset(&self) -> u64
        ensures { result ≡ self.now.offset }
    {
        self.offset
    }

    /// The bytes of the unit, from its initial length to its end. They are one whole frame, and the offset in the section
    /// of its end is below 2^64.
    pub fn bytes(&self) -> &[u8]
        ensures bytes { result.now ≡ self.now.bytes }
        ensures whole { IsWholeUnit self.now }
    {
        self.bytes.as_slice()
    }

    /// The bytes of the unit as the vector that holds them, without a copy. A caller that is done with the unit can pass it
    /// to `next_unit_in`, which reads the next unit into the same memory.
    pub fn into_bytes(self) -> Vec<u8>
        ensures { result.items ≡ self.bytes }
    {
        let UnitBuffer { bytes, .. } = self;
        bytes
    }

    /// The byte order of the unit's numbers.
    pub fn order(&self) -> Order
        ensures { result ≡ self.now.order }
    {
        self.order
    }

    /// The frame that the bytes are, at the unit's offset: its format, and its body without the initial length.
    pub fn frame(&self) -> Frame<'_>
        ensures offset { result.offset ≡ self.now.offset }
        ensures bytes { frame_bytes self.now.order result.format result.body.now ≡ self.now.bytes }
        ensures placed { IsPlacedFrame self.now.order result }
    {
        let UnitBuffer {
            offset,
            format,
            bytes,
            ..
        } = self;
        let start = match format {
            Format::D32 => 4,
            Format::D64 => 12,
        };
        let body = &bytes[start..];
        Frame {
            offset: *offset,
            format: *format,
            length: body.len() as u64,
            body,
        }
    }
}
