//! Units, written as their bytes (DWARF 5, section 6.2.4).
ghost use Rattle.std.specs.Prelude.{◌⊎◌, IfOk, IfErr};
ghost use Rattle.lnt_wire.specs.Bytes.{IsShortest};
ghost use Rattle.lnt_header.specs.Encoding.{RefusedPut};
ghost use Rattle.lnt_header_bytes.specs.Large.{HasLargeOffset, IfTooLarge};
ghost use Rattle.lnt_unit.specs.Spelled.{IsTooLongUnit};
ghost use Rattle.lnt_unit.specs.UnitBytes.{UnitBytesIn};

use lnt_header::Unit;
use lnt_header_bytes::encode_header;
use lnt_ops::put_ops;
use lnt_wire::EncodeFault;
use std::alloc::Global;

/// The bytes of the unit in its format and order, each LEB128 in its shortest encoding (DWARF 5, sections 6.2.4 and 6.2.5).
/// Fails with `TooLarge` if the unit has no encoding in its format: an offset in its tables is 2^32 or more in the 32-bit
/// format, or the unit is too long for the format. Otherwise fails only with `Memory`.
#[tactic(auto, using(lnt_header::proofs::PutLaws::refused_memory, lnt_header_bytes::proofs::LargeLemmas::memory_not_large))]
pub fn encode_unit(alloc: Global, unit: &Unit) -> Result<Vec<u8>, EncodeFault>
    ensures ok { IfOk result (λ bytes. IsShortest (UnitBytesIn unit.now.header.numbers.order) unit.now bytes.items) }
    ensures err { IfErr result (λ fault. RefusedPut (UnitBytesIn unit.now.header.numbers.order) unit.now fault) }
    ensures large { IfErr result (IfTooLarge (HasLargeOffset unit.now.header ⊎ IsTooLongUnit unit.now)) }
{
    let header = unit.header();
    let mut program = Vec::new(alloc);
    put_ops(&mut program, header.numbers(), unit.ops())?;
    encode_header(alloc, header, &program)
}
