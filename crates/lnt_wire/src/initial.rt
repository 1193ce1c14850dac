//! The initial length of a unit (DWARF 5, section 7.4).
ghost use Rattle.std.specs.Prelude.{◌≡◌, IfOk, IfErr, OnErr};
ghost use Rattle.lnt_wire.specs.FrameBytes.{InitialBytes};
ghost use Rattle.lnt_wire.specs.FrameFaults.{IsInitialFault};
ghost use Rattle.lnt_wire.specs.Reading.{Reads};

use crate::cursor::Cursor;
use crate::fault::Reason;
use crate::format::Format;

/// The initial length at the cursor: the format, and the number of bytes of the unit after it (DWARF 5, section 7.4).
///
/// Moves past it. Fails with `Truncated` if its 4 bytes, or the 8 after 0xffffffff, are missing, and with `ReservedLength`, and
/// then leaves the cursor unchanged.
pub fn initial_length(cursor: &mut Cursor<'_>) -> Result<(Format, u64), Reason>
    ensures ok { IfOk result (λ initial. Reads (InitialBytes cursor.old.order) initial cursor.old cursor.new) }
    ensures err { IfErr result (λ reason. IsInitialFault cursor.old.order reason cursor.old.rest) }
    ensures unchanged { OnErr result (cursor.new ≡ cursor.old) }
{
    let mut ahead = cursor.fork();
    match read_initial(&mut ahead) {
        Ok(initial) => {
            *cursor = ahead;
            Ok(initial)
        }
        Err(reason) => Err(reason),
    }
}

// The same. After a refusal nothing is said of the cursor.
fn read_initial(cursor: &mut Cursor<'_>) -> Result<(Format, u64), Reason>
    ensures ok { IfOk result (λ initial. Reads (InitialBytes cursor.old.order) initial cursor.old cursor.new) }
    ensures err { IfErr result (λ reason. IsInitialFault cursor.old.order reason cursor.old.rest) }
{
    let Ok(first) = cursor.u32() else {
        return Err(Reason::Truncated);
    };
    if first < 0xffff_fff0 {
        return Ok((Format::D32, u64::from(first)));
    }
    if first < 0xffff_ffff {
        return Err(Reason::ReservedLength);
    }
    match cursor.u64() {
        Ok(length) => Ok((Format::D64, length)),
        Err(_) => Err(Reason::Truncated),
    }
}
