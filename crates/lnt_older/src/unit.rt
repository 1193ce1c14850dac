//! Units of versions 2 to 5, one after another.
ghost use Rattle.std.specs.Prelude.{◌≡◌, ◌+◌, ◌<◌, ◌^◌, length, IfErr, IfOk, OnErr};
ghost use Rattle.lnt_wire.specs.Reading.{Refuses};
ghost use Rattle.lnt_older.specs.OlderUnits.{AnyBytes, IsAnyFault, IsSoundUnit, ReadsAny};
ghost use Rattle.lnt_older.specs.UnitReading.{IsAnyBodyFault, IsAnyOf, IsBodyFault, IsOlderOf};

use crate::header::{OlderHeader, read_older_header};
use crate::version::OlderVersion;
use lnt_header_bytes::read_counted;
use lnt_wire::{Cursor, Fault, Format, Order, Prefix, Reason, take_prefix};

/// A unit of version 2, 3 or 4: its header, whose directories and files stay where they lie, and its program.
#[derive(Clone, Copy, Debug)]
pub struct OlderUnit<'a> {
    /// The format of the unit.
    pub format: Format,
    /// The order of the bytes of its numbers.
    pub order: Order,
    /// The header.
    pub header: OlderHeader<'a>,
    /// The bytes of the program.
    pub program: &'a [u8],
}

/// A unit of version 2 to 5.
#[derive(Clone, Copy, Debug)]
pub enum AnyUnit<'a> {
    /// The bytes of a unit of version 5. Its initial length and its version are sound, and no more of it is judged.
    Five(&'a [u8]),
    /// A unit of version 2, 3 or 4. Its header is sound, and its program isn't judged.
    Older(OlderUnit<'a>),
}

/// The unit at the cursor, which moves past it. It takes no memory.
///
/// It refuses only with a fault that is so: of the initial length; of the version, where that is none of 2 to 5; or, of an older
/// unit, of the first field of its header that isn't there whole, or has a value that none may have. Then the cursor is as it was.
#[tactic(auto, using(crate::proofs::UnitLemmas::reads_there, crate::proofs::UnitLemmas::fault_there))]
pub fn take_any_unit<'a>(cursor: &mut Cursor<'a>) -> Result<AnyUnit<'a>, Fault>
    ensures ok { IfOk result (λ unit. ReadsAny unit cursor.old cursor.new) }
    ensures sound { IfOk result IsSoundUnit }
    ensures err { IfErr result (λ fault. Refuses (IsAnyFault cursor.old.order) (AnyBytes cursor.old.order) cursor.old fault) }
    ensures unchanged { OnErr result (cursor.new ≡ cursor.old) }
{
    let mut ahead = Cursor::new(cursor.rest(), cursor.place(), cursor.order());
    let unit = read_any_unit(&mut ahead)?;
    *cursor = ahead;
    Ok(unit)
}

// The same, where nothing is said of the cursor after a refusal.
#[tactic(auto, using(crate::proofs::UnitLemmas::read_any_unit_lemmas))]
fn read_any_unit<'a>(cursor: &mut Cursor<'a>) -> Result<AnyUnit<'a>, Fault>
    ensures ok { IfOk result (λ unit. ReadsAny unit cursor.old cursor.new) }
    ensures sound { IfOk result IsSoundUnit }
    ensures err { IfErr result (λ fault. Refuses (IsAnyFault cursor.old.order) (AnyBytes cursor.old.order) cursor.old fault) }
{
    let _place = cursor.place();
    let order = cursor.order();
    let all = cursor.rest();
    let prefix = take_prefix(cursor)?;
    let (bytes, _) = all.split_at(all.len() - cursor.rest().len());
    any_unit(&prefix, bytes, order)
}

// The unit of a prefix, whose bytes these are.
fn any_unit<'a>(prefix: &Prefix<'a>, bytes: &'a [u8], order: Order) -> Result<AnyUnit<'a>, Fault>
    requires { prefix.now.place + 2 + length prefix.now.past.now < 2 ^ 64 }
    ensures ok { IfOk result (λ unit. IsAnyOf prefix.now bytes.entry.now order unit) }
    ensures err { IfErr result (λ fault. IsAnyBodyFault prefix.now order fault) }
{
    if prefix.version == 5 {
        return Ok(AnyUnit::Five(bytes));
    }
    match OlderVersion::of(prefix.version) {
        Some(version) => Ok(AnyUnit::Older(older_unit(prefix, version, order)?)),
        None => Err(Fault {
            place: prefix.place,
            reason: Reason::VersionNotFive(prefix.version),
        }),
    }
}

// The older unit of a prefix.
#[tactic(auto, using(crate::proofs::UnitLemmas::older_unit_lemmas))]
fn older_unit<'a>(
    prefix: &Prefix<'a>,
    version: OlderVersion,
    order: Order,
) -> Result<OlderUnit<'a>, Fault>
    requires { prefix.now.place + 2 + length prefix.now.past.now < 2 ^ 64 }
    ensures ok { IfOk result (λ unit. IsOlderOf prefix.now version order unit) }
    ensures err { IfErr result (λ fault. IsBodyFault prefix.now version order fault) }
{
    let mut cursor = Cursor::new(prefix.past, prefix.place + 2, order);
    let counted = read_counted(&mut cursor, prefix.format)?;
    let place = cursor.place() - counted.len() as u64;
    let header = read_older_header(counted, place, version, prefix.format, order)?;
    Ok(OlderUnit {
        format: prefix.format,
        order,
        header,
        program: cursor.rest(),
    })
}
