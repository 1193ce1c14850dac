//! Operations written at the end of a vector (DWARF 5, sections 6.2.5 and 7.22).
ghost use Rattle.std.specs.Prelude.{◌≡◌, ◌++◌, ◌^◌, ◌<◌, [], ◌∷◌, OnOk, OnErr};
ghost use Rattle.std.specs.List.{AllByRecursion};
ghost use Rattle.lnt_wire.specs.Bytes.{Appends, Exactly, Extends};
ghost use Rattle.lnt_wire.specs.Leb128.{SignedLeb, UnsignedLeb};
ghost use Rattle.lnt_wire.specs.Numbers.{NumberBytes};
ghost use Rattle.lnt_header.specs.HeaderRules.{IsAddressSize};
ghost use Rattle.lnt_header.specs.Joins.{Each};
ghost use Rattle.lnt_header.specs.OpRules.{Admits};
ghost use Rattle.lnt_ops.specs.OpBytes.{IsOperands, SpellsNumbers, OpBytes};
ghost use Rattle.lnt_ops.specs.OpPuts.{AddsView, IsOpOf, Coded, ExtendedCoded, ExtendedStart};
ghost use Rattle.lnt_ops.specs.Stepping.{AddsOperands, AddsSpelled};

use lnt_header::{CodedOp, HeaderNumbers, Op, OpView, Operands};
use lnt_wire::{Cursor, Order, append_sleb, append_uleb, put_u16, put_u32, put_u64};
use std::alloc::AllocError;

/// Appends the bytes of the operations in a unit with the header, one after the other, each LEB128 in its shortest
/// encoding. The caller ensures that the header admits each of them (`Header::admits`). Fails only if memory runs out, and
/// then leaves `out` unchanged.
#[tactic(auto, using(lnt_wire::proofs::PutLemmas::taken_back))]
pub fn put_ops(out: &mut Vec<u8>, numbers: &HeaderNumbers, ops: &[Op]) -> Result<(), AllocError>
    requires { AllByRecursion (Admits numbers.now) ops.now }
    ensures ok { OnOk result (Appends (Each (OpBytes numbers.now)) ops.now out.old.items out.new.items) }
    ensures unchanged { OnErr result (out.new.items ≡ out.old.items) }
{
    let start = out.len();
    let ended = add_ops(out, numbers, ops);
    if ended.is_err() {
        out.truncate(start);
    }
    ended
}

// Appends operations. After an error a part of them may have been added.
#[tactic(auto, using(crate::proofs::OpPutLemmas::add_ops_lemmas))]
fn add_ops(out: &mut Vec<u8>, numbers: &HeaderNumbers, ops: &[Op]) -> Result<(), AllocError>
    requires { AllByRecursion (Admits numbers.now) ops.now }
    ensures ok { OnOk result (Appends (Each (OpBytes numbers.now)) ops.now out.old.items out.new.items) }
    ensures extends { OnErr result (Extends out.old.items out.new.items) }
{
    for op in ops {
        add_op(out, numbers, op)?;
    }
    Ok(())
}

// Appends an operation. After an error a part of it may have been added.
#[tactic(auto, using(crate::proofs::OpPutLemmas::op_put))]
fn add_op(out: &mut Vec<u8>, numbers: &HeaderNumbers, op: &Op) -> Result<(), AllocError>
    requires { Admits numbers.now op.now }
    ensures ok { OnOk result (Appends (OpBytes numbers.now) op.now out.old.items out.new.items) }
    ensures extends { OnErr result (Extends out.old.items out.new.items) }
{
    put_view(out, op.view(), numbers.order(), numbers.address_size())
}

/// Appends the bytes of the operation that the view stands for, in a unit with this byte order, each LEB128 in its shortest
/// encoding. The caller ensures that a header with addresses of this size admits it. Fails only if memory runs out, and
/// then a part of the operation may have been added. Allocates memory only for `out`.
pub fn put_view(
    out: &mut Vec<u8>,
    view: OpView<'_>,
    order: Order,
    address_size: u8,
) -> Result<(), AllocError>
    requires size { IsAddressSize address_size }
    requires admitted { IsOpOf address_size view }
    ensures ok { OnOk result (AddsView order address_size view.entry out.old.items out.new.items) }
    ensures extends { OnErr result (Extends out.old.items out.new.items) }
{
    match view.coded() {
        CodedOp::Special(opcode) => add_code(out, opcode),
        CodedOp::Bare(opcode) => add_code(out, opcode),
        CodedOp::Unsigned(opcode, n) => add_unsigned(out, opcode, n),
        CodedOp::Signed(opcode, z) => add_signed(out, opcode, z),
        CodedOp::Half(opcode, n) => add_number(out, opcode, n, order),
        CodedOp::UnknownStandard(opcode, operands) => add_operands(out, opcode, operands),
        CodedOp::Extended(code) => add_extended(out, code, &[]),
        CodedOp::ExtendedNumber(code, n) => add_counted(out, code, n),
        CodedOp::ExtendedAddress(code, address) => {
            add_address(out, code, address, address_size, order)
        }
        CodedOp::UnknownExtended(code, bytes) => add_extended(out, code, bytes),
    }
}

// Appends an opcode without operands.
#[tactic(auto, using(crate::proofs::OpPutLemmas::unchanged_extends))]
fn add_code(out: &mut Vec<u8>, code: u8) -> Result<(), AllocError>
    ensures ok { OnOk result (out.new.items ≡ out.old.items ++ code ∷ []) }
    ensures extends { OnErr result (Extends out.old.items out.new.items) }
{
    Ok(out.push(code)?)
}

// Appends an opcode and an unsigned number.
fn add_unsigned(out: &mut Vec<u8>, code: u8, n: u64) -> Result<(), AllocError>
    ensures ok { OnOk result (Appends (Coded code UnsignedLeb) n out.old.items out.new.items) }
    ensures extends { OnErr result (Extends out.old.items out.new.items) }
{
    out.push(code)?;
    append_uleb(out, n)
}

// Appends an opcode and a signed number.
#[tactic(auto, using(crate::proofs::OpPutLemmas::coded_put))]
fn add_signed(out: &mut Vec<u8>, code: u8, z: i64) -> Result<(), AllocError>
    ensures ok { OnOk result (Appends (Coded code SignedLeb) z out.old.items out.new.items) }
    ensures extends { OnErr result (Extends out.old.items out.new.items) }
{
    out.push(code)?;
    append_sleb(out, z)
}

// Appends an opcode and a number of 2 bytes.
fn add_number(out: &mut Vec<u8>, code: u8, n: u16, order: Order) -> Result<(), AllocError>
    ensures ok { OnOk result (Appends (Coded code (NumberBytes order 2)) n out.old.items out.new.items) }
    ensures extends { OnErr result (Extends out.old.items out.new.items) }
{
    out.push(code)?;
    put_u16(out, n, order)
}

// Appends an opcode and unsigned numbers.
#[tactic(auto, using(crate::proofs::OpPutLemmas::spelled_put, crate::proofs::OpPutLemmas::listed_put))]
fn add_operands(out: &mut Vec<u8>, code: u8, operands: Operands<'_>) -> Result<(), AllocError>
    requires { IsOperands operands }
    ensures ok { OnOk result (AddsOperands code operands.entry out.old.items out.new.items) }
    ensures extends { OnErr result (Extends out.old.items out.new.items) }
{
    out.push(code)?;
    match operands {
        Operands::Spelled(bytes) => add_spelled(out, bytes),
        Operands::Listed(numbers) => add_numbers(out, numbers),
    }
}

// Appends the unsigned numbers that the bytes encode.
#[tactic(auto, using(crate::proofs::OpPutLemmas::add_spelled_lemmas, crate::proofs::OwnedLemmas::number_long))]
fn add_spelled(out: &mut Vec<u8>, bytes: &[u8]) -> Result<(), AllocError>
    requires { SpellsNumbers bytes.now }
    ensures ok { OnOk result (AddsSpelled bytes.now out.old.items out.new.items) }
    ensures extends { OnErr result (Extends out.old.items out.new.items) }
{
    let mut cursor = Cursor::new(bytes, 0, Order::Little);
    while let Ok(number) = cursor.uleb() {
        append_uleb(out, number)?;
    }
    Ok(())
}

// Appends unsigned numbers.
#[tactic(auto, using(lnt_header::proofs::PutLaws::puts_each))]
fn add_numbers(out: &mut Vec<u8>, numbers: &[u64]) -> Result<(), AllocError>
    ensures ok { OnOk result (Appends (Each UnsignedLeb) numbers.now out.old.items out.new.items) }
    ensures extends { OnErr result (Extends out.old.items out.new.items) }
{
    for number in numbers {
        append_uleb(out, *number)?;
    }
    Ok(())
}

// Appends an extended operation with this operand.
#[tactic(auto, using(crate::proofs::OpPutLemmas::extended_put))]
fn add_extended(out: &mut Vec<u8>, code: u8, operand: &[u8]) -> Result<(), AllocError>
    ensures ok { OnOk result (Appends (ExtendedCoded code Exactly) operand.now out.old.items out.new.items) }
    ensures extends { OnErr result (Extends out.old.items out.new.items) }
{
    start_extended(out, operand.len() as u64 + 1, code)?;
    out.extend_from_slice(operand)?;
    Ok(())
}

// Appends the part of an extended operation before its operand: a zero byte, the length `count`, which counts the code and
// the operand, and the code.
#[tactic(auto, using(crate::proofs::OpPutLemmas::start_put))]
fn start_extended(out: &mut Vec<u8>, count: u64, code: u8) -> Result<(), AllocError>
    ensures ok { OnOk result (Appends (ExtendedStart code) count out.old.items out.new.items) }
    ensures extends { OnErr result (Extends out.old.items out.new.items) }
{
    out.push(0)?;
    append_uleb(out, count)?;
    out.push(code)?;
    Ok(())
}

// Appends an extended operation with an address.
#[tactic(auto, using(crate::proofs::OpPutLemmas::address_put))]
fn add_address(
    out: &mut Vec<u8>,
    code: u8,
    address: u64,
    size: u8,
    order: Order,
) -> Result<(), AllocError>
    requires size { IsAddressSize size }
    requires fits { address < 256 ^ size }
    ensures ok { OnOk result (Appends (ExtendedCoded code (NumberBytes order size)) address out.old.items out.new.items) }
    ensures extends { OnErr result (Extends out.old.items out.new.items) }
{
    start_extended(out, u64::from(size) + 1, code)?;
    add_sized(out, address, size, order)
}

// Appends a number in `size` bytes, the size of an address: 2, 4 or 8.
fn add_sized(out: &mut Vec<u8>, n: u64, size: u8, order: Order) -> Result<(), AllocError>
    requires size { IsAddressSize size }
    requires fits { n < 256 ^ size }
    ensures ok { OnOk result (Appends (NumberBytes order size) n out.old.items out.new.items) }
    ensures unchanged { OnErr result (out.new.items ≡ out.old.items) }
{
    match size {
        2 => put_u16(out, n as u16, order),
        4 => put_u32(out, n as u32, order),
        8 => put_u64(out, n, order),
        _ => unreachable!(),
    }
}

// Appends an extended operation with an unsigned number. Its length, of one byte, is filled in once it is known.
fn add_counted(out: &mut Vec<u8>, code: u8, n: u64) -> Result<(), AllocError>
    ensures ok { OnOk result (Appends (ExtendedCoded code UnsignedLeb) n out.old.items out.new.items) }
    ensures extends { OnErr result (Extends out.old.items out.new.items) }
{
    out.extend_from_slice(&[0, 0, code])?;
    let place = out.len() - 2;
    append_uleb(out, n)?;
    out[place] = (out.len() - place - 1) as u8;
    Ok(())
}
