//! Sections in another format and byte order (DWARF 5, sections 6.2.4 and 7.4).
ghost use Rattle.std.specs.Prelude.{◌≡◌, IfOk, IfErr, OnOk, Some};
ghost use Rattle.lnt_unit.specs.Converting.{Converts, IsConverted, IsConvertFault};
ghost use Rattle.lnt_unit.specs.ConversionSteps.{IsReportedAs, first_large};
ghost use Rattle.lnt_unit.specs.FaultTexts.{convert_fault_text};

use crate::converting::{convert_unit, judge_unit};
use lnt_wire::{Cursor, Fault, Format, Order, Reason};
use std::alloc::Global;
use std::error::Error;
use std::fmt;

/// Why a section isn't converted.
#[derive(Clone, Copy, Debug, PartialEq, Eq)]
pub enum ConvertFault {
    /// No units spell the section: the fault of `decode_section`.
    Malformed(Fault),
    /// 20: the unit at this offset of the section has a length or an offset that the 32-bit format can't say.
    TooLarge(u64),
    /// 21: memory ran out. It says nothing of the section.
    Memory,
}

impl fmt::Display for ConvertFault {
    ghost output = { λ fault. Some (convert_fault_text fault) };

    fn fmt<W: fmt::Write>(&self, f: &mut fmt::Formatter<W>) -> fmt::Result {
        match *self {
            ConvertFault::Malformed(fault) => write!(f, "{fault}"),
            ConvertFault::TooLarge(offset) => write!(f, "too large unit 0x{offset:x}"),
            ConvertFault::Memory => f.write_str("out of memory"),
        }
    }
}

impl Error for ConvertFault {}

// Want of memory says nothing of the bytes.
impl From<Fault> for ConvertFault {
    ghost from_gives = { λ fault refusal. IsReportedAs fault refusal };

    fn from(fault: Fault) -> ConvertFault {
        match fault.reason {
            Reason::Memory => ConvertFault::Memory,
            _ => ConvertFault::Malformed(fault),
        }
    }
}

/// The section `bytes`, whose byte order is `order`, in the format and in the byte order `to`: the same units, one
/// after the other, with these two changed and nothing else, each LEB128 in its shortest spelling.
///
/// It refuses with `Malformed` where no units spell the section; with `TooLarge` and the offset of the first unit
/// that has no encoding in the format, which is an offset in `bytes`; and else with `Memory`.
#[tactic(auto, using(crate::proofs::ConvertedLaws::convert_section_lemmas))]
pub fn convert_section(
    alloc: Global,
    bytes: &[u8],
    order: Order,
    format: Format,
    to: Order,
) -> Result<Vec<u8>, ConvertFault>
    ensures ok { IfOk result (λ converted. IsConverted order bytes.now format to converted.items) }
    ensures err { IfErr result (IsConvertFault order bytes.now format to) }
{
    judge_conversion(alloc, bytes, order, format, to)?;
    let mut out = Vec::new(alloc);
    let mut cursor = Cursor::new(bytes, 0, order);
    while !cursor.rest().is_empty() {
        convert_unit(alloc, &mut cursor, order, format, to, &mut out)?;
    }
    Ok(out)
}

/// Tests that the section `bytes`, whose byte order is `order`, has a conversion to the format and the byte order `to`. It
/// takes the memory of one converted unit.
///
/// It refuses as `convert_section` does.
#[tactic(auto, using(crate::proofs::JudgeLemmas::judge_conversion_lemmas))]
pub fn judge_conversion(
    alloc: Global,
    bytes: &[u8],
    order: Order,
    format: Format,
    to: Order,
) -> Result<(), ConvertFault>
    ensures ok { OnOk result (Converts order bytes.now format to) }
    ensures err { IfErr result (IsConvertFault order bytes.now format to) }
{
    let mut large = None;
    let mut cursor = Cursor::new(bytes, 0, order);
    while !cursor.rest().is_empty() {
        let offset = cursor.place();
        let converts = judge_unit(alloc, &mut cursor, order, format, to)?;
        large = first_of(large, converts, offset);
    }
    match large {
        None => Ok(()),
        Some(offset) => Err(ConvertFault::TooLarge(offset)),
    }
}

// The offset of the first unit that has no encoding in the format: the one that was found before, or else that of the unit
// at `offset`, where it doesn't convert.
fn first_of(first: Option<u64>, converts: bool, offset: u64) -> Option<u64>
    ensures { result ≡ first_large first converts offset }
{
    if first.is_none() && !converts {
        Some(offset)
    } else {
        first
    }
}
