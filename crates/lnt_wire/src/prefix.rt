//! Prefixes: the initial length and the version of a unit, whatever its version is (DWARF 5, sections 6.2.4 and 7.4).
ghost use Rattle.std.specs.Prelude.{◌≡◌, IfOk, IfErr, OnErr};
ghost use Rattle.lnt_wire.specs.FrameBytes.{PrefixBytes, ReadsPrefix};
ghost use Rattle.lnt_wire.specs.FrameFaults.{IsPrefixFault};
ghost use Rattle.lnt_wire.specs.Reading.{Refuses};

use crate::cursor::Cursor;
use crate::fault::{Fault, Reason};
use crate::format::Format;
use crate::initial::initial_length;

/// A unit whose contents aren't parsed yet: its initial length, and its body, of which the version was read and not judged.
#[derive(Clone, Copy, Debug)]
pub struct Prefix<'a> {
    /// The format of the unit, which the initial length determines.
    pub format: Format,
    /// The version.
    pub version: u16,
    /// The offset in the section of the version, which is the first field of the body.
    pub place: u64,
    /// The bytes after the initial length, up to the end of the unit.
    pub body: &'a [u8],
    /// The bytes after the version, up to the end of the unit.
    pub past: &'a [u8],
}

/// Reads the prefix of the unit at the cursor, and moves to the first byte after the unit.
///
/// Fails only if there is no unit, of whatever version, and then leaves the cursor unchanged. At the place of the cursor, the
/// reason is `Truncated` if the initial length is truncated or counts more bytes than remain, or else `ReservedLength`. At the
/// place of the version it is `Truncated`: the body has fewer than 2 bytes.
#[tactic(auto, using(crate::proofs::FrameReadingLaws::prefix_exits))]
pub fn take_prefix<'a>(cursor: &mut Cursor<'a>) -> Result<Prefix<'a>, Fault>
    ensures ok { IfOk result (λ prefix. ReadsPrefix prefix cursor.old cursor.new) }
    ensures err { IfErr result (λ fault. Refuses (IsPrefixFault cursor.old.order) (PrefixBytes cursor.old.order) cursor.old fault) }
    ensures unchanged { OnErr result (cursor.new ≡ cursor.old) }
{
    let offset = cursor.place();
    let mut ahead = cursor.fork();
    let (format, length) = match initial_length(&mut ahead) {
        Ok(initial) => initial,
        Err(reason) => {
            return Err(Fault {
                place: offset,
                reason,
            });
        }
    };
    let place = ahead.place();
    let Ok(body) = ahead.take(length as usize) else {
        return Err(Fault {
            place: offset,
            reason: Reason::Truncated,
        });
    };
    let mut inside = Cursor::new(body, place, cursor.order());
    let version = inside.u16()?;
    *cursor = ahead;
    Ok(Prefix {
        format,
        version,
        place,
        body,
        past: inside.rest(),
    })
}
