//! Programs in another byte order.
ghost use Rattle.std.specs.Prelude.{◌≢◌, ◌+◌, ◌^◌, ◌<◌, length, IfErr, OnOk, OnErr};
ghost use Rattle.lnt_wire.specs.Bytes.{Extends};
ghost use Rattle.lnt_ops.specs.OpPuts.{AddsOps};
ghost use Rattle.lnt_ops.specs.Programs.{BrokenProgram};

use crate::iterator::Ops;
use crate::put::put_view;
use lnt_header::HeaderNumbers;
use lnt_wire::{Fault, Order, Reason};

/// Adds the operations of a whole program in a unit with this header, in the byte order `to`: the same operations, each
/// LEB128 in its shortest spelling (DWARF 5, sections 6.2.5 and 7.22). The program's first byte stands at the offset
/// `place` of the section, and the offset after its last byte is below 2^64. It takes no memory but that of `out`.
///
/// It refuses only where no operations spell the program, with the fault of the first operation that isn't there, or
/// with `Memory`. Then `out` may end with the first of them, and a part of the next.
#[tactic(auto, using(crate::proofs::ConvertedLemmas::convert_ops_lemmas))]
pub fn convert_ops(
    out: &mut Vec<u8>,
    numbers: &HeaderNumbers,
    program: &[u8],
    place: u64,
    to: Order,
) -> Result<(), Fault>
    requires { place + length program.now < 2 ^ 64 }
    ensures ok { OnOk result (AddsOps numbers.now program.now to out.old.items out.new.items) }
    ensures err { IfErr result (λ fault. fault.reason ≢ Reason.Memory → BrokenProgram numbers.now place program.now fault) }
    ensures extends { OnErr result (Extends out.old.items out.new.items) }
{
    let size = numbers.address_size();
    for view in Ops::new(numbers, program, place) {
        put_view(out, view?, to, size)?;
    }
    Ok(())
}
