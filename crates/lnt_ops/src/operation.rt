//! One operation: read from its first byte on, and as an owned value.
ghost use Rattle.std.specs.Prelude.{◌≡◌, ◌<◌, ◌⊎◌, IfOk, IfErr, OnErr};
ghost use Rattle.lnt_wire.specs.Reading.{Refuses};
ghost use Rattle.lnt_header.specs.OpRules.{last_known, StandsFor};
ghost use Rattle.lnt_ops.specs.OpBytes.{OpBytes};
ghost use Rattle.lnt_ops.specs.OpFaults.{IsFirstFault, IsOpFault};
ghost use Rattle.lnt_ops.specs.OpSteps.{GivesOp, GivesAfter, RefusesAfter};
ghost use Rattle.lnt_ops.specs.Stepping.{StandsForSome};

use crate::extended::read_extended;
use crate::owned::owned_operands;
use crate::unknown::read_unknown;
use lnt_header::{HeaderNumbers, Op, OpView};
use lnt_wire::{Cursor, Fault, Items};
use std::alloc::{AllocError, Global};

/// The next operation of a program in a unit with this header, whose byte order is that of the cursor (DWARF 5, section
/// 6.2.5). Allocates nothing.
///
/// Fails only if no prefix of the remaining bytes encodes an operation, and then leaves the cursor unchanged. A truncated
/// number is `Truncated`, and one out of range is `LebTooLarge`, both at its first byte. An extended operation whose length
/// isn't that of its code and operand is `ExtendedLength` at the length; if the length counts more bytes than remain, it is
/// `Truncated` at the first byte that the length counts.
#[inline(always)]
#[tactic(auto, using(crate::proofs::OpReaders::read_op_lemmas))]
pub fn read_op<'a>(cursor: &mut Cursor<'a>, numbers: &HeaderNumbers) -> Result<OpView<'a>, Fault>
    requires { cursor.old.order ≡ numbers.now.order }
    ensures ok { IfOk result (λ view. GivesOp numbers.now view cursor.old cursor.new) }
    ensures err { IfErr result (λ fault. Refuses (IsOpFault numbers.now.address_size) (OpBytes numbers.now) cursor.old fault) }
    ensures first { IfErr result (λ fault. Refuses (IsFirstFault numbers.now) (OpBytes numbers.now) cursor.old fault) }
    ensures unchanged { OnErr result (cursor.new ≡ cursor.old) }
{
    let mut ahead = Cursor::new(cursor.rest(), cursor.place(), cursor.order());
    let opcode = ahead.u8()?;
    if opcode >= numbers.opcode_base() {
        *cursor = ahead;
        return Ok(OpView::Special(opcode));
    }
    let view = read_operand(&mut ahead, numbers, opcode)?;
    *cursor = ahead;
    Ok(view)
}

// Reads what follows a standard opcode, or the 0 of an extended one. The opcode itself was already read.
#[inline(always)]
#[tactic(auto, using(crate::proofs::StandardReaders::standard_reads))]
fn read_operand<'a>(
    cursor: &mut Cursor<'a>,
    numbers: &HeaderNumbers,
    opcode: u8,
) -> Result<OpView<'a>, Fault>
    requires standard { opcode < numbers.now.opcode_base }
    requires order { cursor.old.order ≡ numbers.now.order }
    ensures ok { IfOk result (λ view. GivesAfter numbers.now opcode view cursor.old cursor.new) }
    ensures err { IfErr result (λ fault. RefusesAfter numbers.now opcode cursor.old fault) }
{
    match opcode {
        0 => read_apart(cursor, numbers, 0),
        1 => Ok(OpView::Copy),
        2 => Ok(OpView::AdvancePc(cursor.uleb()?)),
        3 => Ok(OpView::AdvanceLine(cursor.sleb()?)),
        4 => Ok(OpView::SetFile(cursor.uleb()?)),
        5 => Ok(OpView::SetColumn(cursor.uleb()?)),
        6 => Ok(OpView::NegateStmt),
        7 => Ok(OpView::SetBasicBlock),
        8 => Ok(OpView::ConstAddPc),
        9 => Ok(OpView::FixedAdvancePc(cursor.u16()?)),
        10 => Ok(OpView::SetPrologueEnd),
        11 => Ok(OpView::SetEpilogueBegin),
        12 => Ok(OpView::SetIsa(cursor.uleb()?)),
        _ => read_apart(cursor, numbers, opcode),
    }
}

// Reads what follows the 0 of an extended opcode, or a standard opcode that DWARF 5 doesn't know: the slow path for rare
// ones. They are read by a copy of the cursor, so that the cursor itself isn't lent and stays in registers.
#[inline(always)]
fn read_apart<'a>(
    cursor: &mut Cursor<'a>,
    numbers: &HeaderNumbers,
    opcode: u8,
) -> Result<OpView<'a>, Fault>
    requires standard { opcode < numbers.now.opcode_base }
    requires rare { (opcode ≡ 0) ⊎ (last_known < opcode) }
    requires order { cursor.old.order ≡ numbers.now.order }
    ensures ok { IfOk result (λ view. GivesAfter numbers.now opcode view cursor.old cursor.new) }
    ensures err { IfErr result (λ fault. RefusesAfter numbers.now opcode cursor.old fault) }
{
    let mut ahead = Cursor::new(cursor.rest(), cursor.place(), cursor.order());
    let view = if opcode == 0 {
        read_extended(&mut ahead, numbers)?
    } else {
        read_unknown(&mut ahead, numbers, opcode)?
    };
    *cursor = ahead;
    Ok(view)
}

/// The operation that the view stands for. Fails only if memory runs out.
#[tactic(auto, using(crate::proofs::OwnedLemmas::some_operands))]
pub(crate) fn owned_op(alloc: Global, view: OpView<'_>) -> Result<Op, AllocError>
    requires { StandsForSome view }
    ensures { IfOk result (λ op. StandsFor view.entry op) }
{
    match view {
        OpView::Special(opcode) => Ok(Op::Special(opcode)),
        OpView::Copy => Ok(Op::Copy),
        OpView::AdvancePc(n) => Ok(Op::AdvancePc(n)),
        OpView::AdvanceLine(z) => Ok(Op::AdvanceLine(z)),
        OpView::SetFile(n) => Ok(Op::SetFile(n)),
        OpView::SetColumn(n) => Ok(Op::SetColumn(n)),
        OpView::NegateStmt => Ok(Op::NegateStmt),
        OpView::SetBasicBlock => Ok(Op::SetBasicBlock),
        OpView::ConstAddPc => Ok(Op::ConstAddPc),
        OpView::FixedAdvancePc(n) => Ok(Op::FixedAdvancePc(n)),
        OpView::SetPrologueEnd => Ok(Op::SetPrologueEnd),
        OpView::SetEpilogueBegin => Ok(Op::SetEpilogueBegin),
        OpView::SetIsa(n) => Ok(Op::SetIsa(n)),
        OpView::UnknownStandard(opcode, operands) => {
            Ok(Op::UnknownStandard(opcode, owned_operands(alloc, operands)?))
        }
        OpView::EndSequence => Ok(Op::EndSequence),
        OpView::SetAddress(address) => Ok(Op::SetAddress(address)),
        OpView::SetDiscriminator(n) => Ok(Op::SetDiscriminator(n)),
        OpView::UnknownExtended(code, bytes) => Ok(Op::UnknownExtended(
            code,
            Items::new(Vec::from_slice(alloc, bytes)?),
        )),
    }
}
