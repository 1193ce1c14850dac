//! Reads the parts of infos.
ghost use Rattle.std.specs.Prelude.{◌≡◌, ◌+◌, ◌<◌, ◌^◌, Ok, Err, length, MatchResult, IfOk, OnOk};
ghost use Rattle.lnt_gsym.specs.GsymInfos.{part};
ghost use Rattle.lnt_gsym.specs.Reading.{bytes_said, part_said};

use crate::fault::GsymFault;
use crate::fields::{block, number};
use lnt_wire::{Cursor, Order};

/// A part of an info.
#[derive(Clone, Copy)]
pub(crate) struct InfoPart<'a> {
    /// Its type.
    pub(crate) kind: u32,
    /// Where its bytes are.
    pub(crate) place: u64,
    /// The order of numbers in them.
    pub(crate) order: Order,
    /// They.
    pub(crate) bytes: &'a [u8],
}

/// The next part.
pub(crate) fn part<'a>(cursor: &mut Cursor<'a>) -> Result<InfoPart<'a>, GsymFault>
    ensures read { MatchResult result (λ p. part cursor.old ≡ Ok (part_said p, cursor.new)) (λ fault. part cursor.old ≡ Err fault) }
    ensures room { IfOk result (λ p. p.place + length p.bytes.now < 2 ^ 64) }
    ensures smaller { OnOk result (length cursor.new.rest < length cursor.old.rest) }
{
    let kind = number(cursor)?;
    let size = number(cursor)?;
    let place = cursor.place();
    let order = cursor.order();
    let bytes = block(cursor, size as usize)?;
    Ok(InfoPart {
        kind,
        place,
        order,
        bytes,
    })
}

/// A cursor before the bytes of a part.
#[tactic(auto, using(crate::proofs::FieldLemmas::same_at))]
pub(crate) fn bytes_of<'a>(part: InfoPart<'a>) -> Cursor<'a>
    requires { part.place + length part.bytes.now < 2 ^ 64 }
    ensures { result ≡ bytes_said part.entry }
{
    Cursor::new(part.bytes, part.place, part.order)
}
