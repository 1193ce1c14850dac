//! Headers, read from the bytes of their units.
ghost use Rattle.std.specs.Prelude.{◌≢◌, IfOk, IfErr};
ghost use Rattle.lnt_wire.specs.FrameBytes.{frame_bytes, IsPlacedFrame};
ghost use Rattle.lnt_header_bytes.specs.Broken.{BrokenHeader};
ghost use Rattle.lnt_header_bytes.specs.HeaderBytes.{HeaderBytesIn};
ghost use Rattle.lnt_header_bytes.specs.HeaderReading.{IsAfterVersion};

use crate::in_place::view_header;
use lnt_header::Header;
use lnt_wire::{Cursor, Fault, Format, Frame, Order, Reason};
use std::alloc::Global;

/// The header of a frame, and the bytes of its program (DWARF 5, section 6.2.4).
///
/// Fails with `Memory`, and otherwise only if the frame's bytes aren't a header with a program. The fault is that of the
/// first field that is truncated or has an invalid value, and its place is the field's first byte; if the fields of one
/// byte end too early, it is their end. The caller passes a frame from `take_frame`, and the order in which that was read.
pub fn decode_header<'a>(
    alloc: Global,
    frame: &Frame<'a>,
    order: Order,
) -> Result<(Header, &'a [u8]), Fault>
    requires { IsPlacedFrame order frame.now }
    ensures ok { IfOk result (λ found. HeaderBytesIn order (found.0, found.1.now) (frame_bytes order frame.now.format frame.now.body.now)) }
    ensures err { IfErr result (λ fault. fault.reason ≢ Reason.Memory
        → BrokenHeader order fault frame.now.offset (frame_bytes order frame.now.format frame.now.body.now)) }
{
    let (view, program) = view_header(alloc, frame, order)?;
    let header = view.view().to_header(alloc);
    drop(view);
    Ok((header?, program))
}

/// A cursor after the version of the frame, which goes to the end of its body.
pub(crate) fn after_version<'a>(frame: &Frame<'a>, order: Order) -> Cursor<'a>
    requires { IsPlacedFrame order frame.now }
    ensures { IsAfterVersion order frame.now.format frame.now.offset frame.now.body.now result }
{
    let initial_size = match frame.format {
        Format::D32 => 4,
        Format::D64 => 12,
    };
    let (_, past) = frame.body.split_at(2);
    Cursor::new(past, frame.offset + initial_size + 2, order)
}
