//! Whole programs.
ghost use Rattle.std.specs.Prelude.{◌≢◌, ◌+◌, ◌^◌, ◌<◌, length, IfOk, IfErr};
ghost use Rattle.std.specs.List.{AllByRecursion};
ghost use Rattle.lnt_header.specs.Joins.{Each};
ghost use Rattle.lnt_header.specs.OpRules.{Admits};
ghost use Rattle.lnt_ops.specs.OpBytes.{OpBytes};
ghost use Rattle.lnt_ops.specs.Programs.{BrokenProgram};

use crate::iterator::Ops;
use crate::operation::owned_op;
use lnt_header::{HeaderNumbers, Op};
use lnt_wire::{Fault, Items, Reason};
use std::alloc::Global;

/// The operations of a whole program in a unit with this header (DWARF 5, section 6.2.5). The program's first byte is at
/// the offset `place` of the section, and the offset after its last byte is below 2^64.
///
/// Fails only if the program isn't a list of operations, with the fault of the first one that isn't valid, or with
/// `Memory`.
#[tactic(auto, using(crate::proofs::ProgramLaws::read_ops_lemmas))]
pub fn read_ops(
    alloc: Global,
    numbers: &HeaderNumbers,
    program: &[u8],
    place: u64,
) -> Result<Items<Op>, Fault>
    requires { place + length program.now < 2 ^ 64 }
    ensures ok { IfOk result (λ ops. Each (OpBytes numbers.now) ops program.now) }
    ensures admitted { IfOk result (λ ops. AllByRecursion (Admits numbers.now) ops) }
    ensures err { IfErr result (λ fault. fault.reason ≢ Reason.Memory → BrokenProgram numbers.now place program.now fault) }
{
    let mut ops = Vec::new(alloc);
    for view in Ops::new(numbers, program, place) {
        let op = owned_op(alloc, view?)?;
        ops.push(op)?;
    }
    Ok(Items::new(ops))
}
