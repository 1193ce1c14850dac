//! The operands of unknown standard operations, as owned values.
ghost use Rattle.std.specs.Prelude.{IfOk};
ghost use Rattle.lnt_wire.specs.Leb128.{UnsignedLeb};
ghost use Rattle.lnt_header.specs.Joins.{Each};
ghost use Rattle.lnt_header.specs.OpRules.{AreOperands};
ghost use Rattle.lnt_ops.specs.OpBytes.{IsOperands, SpellsNumbers};

use lnt_header::Operands;
use lnt_wire::{Cursor, Items, Order};
use std::alloc::{AllocError, Global};

/// The numbers of borrowed operands, as owned values. Fails only if memory runs out.
pub(crate) fn owned_operands(
    alloc: Global,
    operands: Operands<'_>,
) -> Result<Items<u64>, AllocError>
    requires { IsOperands operands }
    ensures { IfOk result (λ numbers. AreOperands operands.entry numbers) }
{
    match operands {
        Operands::Spelled(bytes) => spelled_numbers(alloc, bytes),
        Operands::Listed(numbers) => Ok(Items::new(Vec::from_slice(alloc, numbers)?)),
    }
}

// The numbers that the bytes encode, up to their end.
#[tactic(auto, using(crate::proofs::OwnedLemmas::spelled_numbers_lemmas))]
fn spelled_numbers(alloc: Global, bytes: &[u8]) -> Result<Items<u64>, AllocError>
    requires { SpellsNumbers bytes.now }
    ensures { IfOk result (λ numbers. Each UnsignedLeb numbers bytes.now) }
{
    let mut numbers = Vec::new(alloc);
    let mut cursor = Cursor::new(bytes, 0, Order::Little);
    while let Ok(number) = cursor.uleb() {
        numbers.push(number)?;
    }
    Ok(Items::new(numbers))
}
