//! Standard operations that DWARF 5 doesn't know (DWARF 5, section 6.2.5.2).
ghost use Rattle.std.specs.Prelude.{◌<◌, IfOk, IfErr, OnOk};
ghost use Rattle.lnt_header.specs.OpRules.{last_known};
ghost use Rattle.lnt_ops.specs.OpSteps.{GivesAfter, PassesOperands, RefusesAfter, RefusesOperands};

use lnt_header::{HeaderNumbers, OpView, Operands};
use lnt_wire::{Cursor, Fault};

/// Reads the operands of an unknown standard operation: as many numbers as the header lists, which are borrowed.
#[inline(never)]
#[tactic(auto, using(crate::proofs::UnknownReaders::read_unknown_lemmas))]
pub(crate) fn read_unknown<'a>(
    cursor: &mut Cursor<'a>,
    numbers: &HeaderNumbers,
    opcode: u8,
) -> Result<OpView<'a>, Fault>
    requires unknown { last_known < opcode }
    requires standard { opcode < numbers.now.opcode_base }
    ensures ok { IfOk result (λ view. GivesAfter numbers.now opcode view cursor.old cursor.new) }
    ensures err { IfErr result (λ fault. RefusesAfter numbers.now opcode cursor.old fault) }
{
    let count = numbers.standard_lengths()[usize::from(opcode) - 1];
    let bytes = cursor.rest();
    pass_operands(cursor, count)?;
    let (operands, _) = bytes.split_at(bytes.len() - cursor.rest().len());
    Ok(OpView::UnknownStandard(opcode, Operands::Spelled(operands)))
}

// Moves past `count` unsigned LEB128 numbers.
#[tactic(auto, using(crate::proofs::UnknownReaders::pass_operands_lemmas))]
fn pass_operands(cursor: &mut Cursor<'_>, count: u8) -> Result<(), Fault>
    ensures ok { OnOk result (PassesOperands count cursor.old cursor.new) }
    ensures err { IfErr result (λ fault. RefusesOperands count cursor.old fault) }
{
    for _ in 0..count {
        cursor.uleb()?;
    }
    Ok(())
}
