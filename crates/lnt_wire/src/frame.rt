//! Frames: the units of a section, delimited by their initial lengths, with their versions checked (DWARF 5, sections 6.2.4
//! and 7.4).
ghost use Rattle.std.specs.Prelude.{◌≡◌, IfOk, IfErr, OnErr};
ghost use Rattle.lnt_wire.specs.FrameBytes.{FrameBytes, IsFrame};
ghost use Rattle.lnt_wire.specs.FrameFaults.{IsFrameFault};
ghost use Rattle.lnt_wire.specs.Frames.{AreFrames};
ghost use Rattle.lnt_wire.specs.Reading.{Reads, Refuses};

use crate::cursor::Cursor;
use crate::fault::{Fault, Reason};
use crate::format::{Format, Order};
use crate::prefix::take_prefix;
use std::alloc::Global;

/// A unit whose contents aren't parsed yet: its initial length, and its body, of which only the version, 5, was checked.
#[derive(Clone, Copy, Debug)]
pub struct Frame<'a> {
    /// The offset in the section of the first byte of the initial length.
    pub offset: u64,
    /// The format of the unit, which the initial length determines.
    pub format: Format,
    /// The number of bytes of the body: the value of the initial length.
    pub length: u64,
    /// The bytes after the initial length, up to the end of the unit. The first two encode version 5.
    pub body: &'a [u8],
}

/// Reads the frame at the cursor, and moves to the first byte after the unit.
///
/// Fails only if there is no frame, and then leaves the cursor unchanged. At the place of the cursor, the reason is
/// `Truncated` if the initial length is truncated or counts more bytes than remain, or else `ReservedLength`. At the place
/// of the version, the body's first byte, it is `Truncated` if the body has fewer than 2 bytes, or else `VersionNotFive`.
#[tactic(auto, using(crate::proofs::FrameReadingLaws::frame_exits))]
pub fn take_frame<'a>(cursor: &mut Cursor<'a>) -> Result<Frame<'a>, Fault>
    ensures ok { IfOk result (λ frame. Reads (IsFrame cursor.old.order) frame cursor.old cursor.new) }
    ensures offset { IfOk result (λ frame. frame.offset ≡ cursor.old.place) }
    ensures err { IfErr result (λ fault. Refuses (IsFrameFault cursor.old.order) (FrameBytes cursor.old.order) cursor.old fault) }
    ensures unchanged { OnErr result (cursor.new ≡ cursor.old) }
{
    let offset = cursor.place();
    let mut ahead = cursor.fork();
    let prefix = take_prefix(&mut ahead)?;
    if prefix.version != 5 {
        return Err(Fault {
            place: prefix.place,
            reason: Reason::VersionNotFive(prefix.version),
        });
    }
    *cursor = ahead;
    Ok(Frame {
        offset,
        format: prefix.format,
        length: prefix.body.len() as u64,
        body: prefix.body,
    })
}

/// The frames at the start of a section, and the fault of the bytes after them if they don't reach its end.
#[derive(Debug, Drop)]
pub struct Framed<'a> {
    /// The frames in the order of their offsets. The first begins at offset 0, and each other where the one before it ends.
    pub frames: Vec<Frame<'a>>,
    /// Why no frame follows the last one. `None` if the section ends there.
    pub fault: Option<Fault>,
}

/// The frames of the section `bytes` in this byte order: all of them, or those before the first fault.
///
/// The frames are consecutive. Together they cover the section, or its part before the fault. A fault isn't an error of
/// this call: the frames before it are valid. Fails only with `Memory`.
#[tactic(auto, using(crate::proofs::FrameListLaws::frame_walk))]
pub fn frames<'a>(alloc: Global, bytes: &'a [u8], order: Order) -> Result<Framed<'a>, Fault>
    ensures ok { IfOk result (λ framed. AreFrames order bytes.entry.now framed.frames.items framed.fault) }
    ensures err { IfErr result (λ fault. fault.reason ≡ Reason.Memory) }
{
    let mut frames = Vec::new(alloc);
    let mut cursor = Cursor::new(bytes, 0, order);
    while !cursor.rest().is_empty() {
        match take_frame(&mut cursor) {
            Ok(frame) => frames.push(frame)?,
            Err(fault) => {
                return Ok(Framed {
                    frames,
                    fault: Some(fault),
                });
            }
        }
    }
    Ok(Framed {
        frames,
        fault: None,
    })
}
