//! How operations are printed.
ghost use Rattle.std.specs.Prelude.{◌≡◌, ℕ, ◌++◌, List, IfErr, OnErr, OnOk, [], codes, cond, decimal, flat_map};
ghost use Rattle.std.specs.Fmt.{signed_decimal};
ghost use Rattle.lnt_io.specs.Prefixes.{AppendsPrefix};
ghost use Rattle.lnt_io.specs.IoStops.{IsPrinting};
ghost use Rattle.lnt_wire.specs.FaultTexts.{hexadecimal};
ghost use Rattle.lnt_wire.specs.Leb128.{UnsignedLeb};
ghost use Rattle.lnt_header.specs.Joins.{Each};
ghost use Rattle.lnt_header.specs.OpRules.{AreOperands, StandsFor, op_of};
ghost use Rattle.lnt_header.specs.declared.op.Op.{Op};
ghost use Rattle.lnt_dump.specs.Units.{numbered};
ghost use Rattle.lnt_dump.specs.Operations.{bytes_text, op_line, op_text, operand_text};
ghost use Rattle.lnt_dump.specs.Stepping.{HasOperands, IsPaged, IsUnitOf};

use crate::header::print_bytes;
use crate::page::turn_full;
use lnt_header::{OpView, Operands};
use lnt_io::IoStop;
use lnt_text::{put_address, put_decimal};
use lnt_unit::UnitInPlace;
use lnt_wire::{Cursor, Order};
use std::alloc::{AllocError, Global};
use std::io::Write;

// Prints a line for each operation of a unit whose operations are valid, if they are shown.
pub(crate) fn print_ops<W: Write>(
    alloc: Global,
    unit: &UnitInPlace<'_>,
    is_shown: bool,
    page: &mut Vec<u8>,
    out: &mut W,
) -> Result<(), IoStop>
    requires { (ops : List Op) × IsUnitOf unit.now ops }
    ensures ok { OnOk result ((ops : List Op) → IsUnitOf unit.now ops
        → IsPaged (page.old.items ++ cond is_shown (numbered op_line 0 ops) [])
        (W.contents out.old) (W.contents out.new) page.new.items) }
    ensures prefix { OnErr result ((ops : List Op) → IsUnitOf unit.now ops
        → AppendsPrefix (W.contents out.old) (W.contents out.new) (page.old.items ++ cond is_shown (numbered op_line 0 ops) [])) }
    ensures err { IfErr result IsPrinting }
{
    if !is_shown {
        return Ok(());
    }
    let mut index: u64 = 0;
    for op in unit.ops() {
        let Ok(op) = op else { unreachable!() };
        print_op(alloc, index, &op, page, out)?;
        index += 1;
    }
    Ok(())
}

// Prints the line of the `index`th operation.
#[inline(always)]
fn print_op<W: Write>(
    alloc: Global,
    index: u64,
    op: &OpView<'_>,
    page: &mut Vec<u8>,
    out: &mut W,
) -> Result<(), IoStop>
    requires { (done : Op) × StandsFor op.now done }
    ensures ok { OnOk result ((done : Op) → StandsFor op.now done
        → IsPaged (page.old.items ++ op_line index done) (W.contents out.old) (W.contents out.new) page.new.items) }
    ensures prefix { OnErr result ((done : Op) → StandsFor op.now done
        → AppendsPrefix (W.contents out.old) (W.contents out.new) (page.old.items ++ op_line index done)) }
    ensures err { IfErr result IsPrinting }
{
    put_op_line(alloc, page, index, op)?;
    turn_full(page, out)
}

// Adds the line of the `index`th operation.
#[tactic(auto, using(crate::proofs::Operands::has_operands))]
#[inline(always)]
fn put_op_line(
    alloc: Global,
    text: &mut Vec<u8>,
    index: u64,
    op: &OpView<'_>,
) -> Result<(), AllocError>
    requires { (done : Op) × StandsFor op.now done }
    ensures { OnOk result ((done : Op) → StandsFor op.now done → text.new.items ≡ text.old.items ++ op_line index done) }
{
    put_named(text, b"op ", index)?;
    text.push(b' ')?;
    put_op(alloc, text, op)?;
    text.push(b'\n')?;
    Ok(())
}

// Adds the name and the operands of an operation, as its line has them.
fn put_op(alloc: Global, text: &mut Vec<u8>, op: &OpView<'_>) -> Result<(), AllocError>
    requires { (numbers : List ℕ) × HasOperands op.now numbers }
    ensures { OnOk result ((numbers : List ℕ) → HasOperands op.now numbers
        → text.new.items ≡ text.old.items ++ op_text (op_of op.now numbers)) }
{
    match op {
        OpView::Special(opcode) => put_named(text, b"special ", u64::from(*opcode)),
        OpView::Copy => text.extend_from_slice(b"copy"),
        OpView::AdvancePc(n) => put_named(text, b"advance_pc ", *n),
        OpView::AdvanceLine(z) => put_line(text, *z),
        OpView::SetFile(n) => put_named(text, b"set_file ", *n),
        OpView::SetColumn(n) => put_named(text, b"set_column ", *n),
        OpView::NegateStmt => text.extend_from_slice(b"negate_stmt"),
        OpView::SetBasicBlock => text.extend_from_slice(b"set_basic_block"),
        OpView::ConstAddPc => text.extend_from_slice(b"const_add_pc"),
        OpView::FixedAdvancePc(n) => put_named(text, b"fixed_advance_pc ", u64::from(*n)),
        OpView::SetPrologueEnd => text.extend_from_slice(b"set_prologue_end"),
        OpView::SetEpilogueBegin => text.extend_from_slice(b"set_epilogue_begin"),
        OpView::SetIsa(n) => put_named(text, b"set_isa ", *n),
        OpView::UnknownStandard(opcode, operands) => put_standard(text, *opcode, operands),
        OpView::EndSequence => text.extend_from_slice(b"end_sequence"),
        OpView::SetAddress(address) => put_set_address(text, *address),
        OpView::SetDiscriminator(n) => put_named(text, b"set_discriminator ", *n),
        OpView::UnknownExtended(code, bytes) => put_extended(alloc, text, *code, bytes),
    }
}

// Adds a name and a number.
#[tactic(auto, using(crate::proofs::Digits::decimal_put))]
#[inline(always)]
fn put_named(text: &mut Vec<u8>, name: &[u8], n: u64) -> Result<(), AllocError>
    ensures { OnOk result (text.new.items ≡ text.old.items ++ (name.now ++ decimal n)) }
{
    text.extend_from_slice(name)?;
    put_decimal(text, n)
}

// Adds a change of the line, which may be negative.
fn put_line(text: &mut Vec<u8>, change: i64) -> Result<(), AllocError>
    ensures { OnOk result (text.new.items ≡ text.old.items ++ (codes "advance_line " ++ signed_decimal change)) }
{
    if change < 0 {
        return put_named(text, b"advance_line -", change.unsigned_abs());
    }
    put_named(text, b"advance_line ", change.unsigned_abs())
}

// Adds `0x` and the hexadecimal digits of an address, after the name.
fn put_set_address(text: &mut Vec<u8>, address: u64) -> Result<(), AllocError>
    ensures { OnOk result (text.new.items ≡ text.old.items ++ (codes "set_address " ++ hexadecimal address)) }
{
    text.extend_from_slice(b"set_address ")?;
    put_address(text, address)
}

// Adds the name, the opcode and the operands of an unknown standard operation.
fn put_standard(text: &mut Vec<u8>, opcode: u8, operands: &Operands<'_>) -> Result<(), AllocError>
    requires { (numbers : List ℕ) × AreOperands operands.now numbers }
    ensures { OnOk result ((numbers : List ℕ) → AreOperands operands.now numbers
        → text.new.items ≡ text.old.items ++ ((codes "unknown_standard " ++ decimal opcode) ++ flat_map operand_text numbers)) }
{
    put_named(text, b"unknown_standard ", u64::from(opcode))?;
    match operands {
        Operands::Listed(numbers) => put_listed(text, numbers),
        Operands::Spelled(bytes) => put_spelled(text, bytes),
    }
}

// Adds numbers, each after a space.
fn put_listed(text: &mut Vec<u8>, numbers: &[u64]) -> Result<(), AllocError>
    ensures { OnOk result (text.new.items ≡ text.old.items ++ flat_map operand_text numbers.now) }
{
    for number in numbers {
        put_named(text, b" ", *number)?;
    }
    Ok(())
}

// Adds the numbers that the bytes encode, one after another up to their end, each after a space.
#[tactic(auto, using(crate::proofs::Operands::put_spelled_lemmas))]
fn put_spelled(text: &mut Vec<u8>, bytes: &[u8]) -> Result<(), AllocError>
    requires { (numbers : List ℕ) × Each UnsignedLeb numbers bytes.now }
    ensures { OnOk result ((numbers : List ℕ) → Each UnsignedLeb numbers bytes.now
        → text.new.items ≡ text.old.items ++ flat_map operand_text numbers) }
{
    // The byte order doesn't matter for these numbers.
    let mut cursor = Cursor::new(bytes, 0, Order::Little);
    while !cursor.rest().is_empty() {
        let Ok(number) = cursor.uleb() else {
            unreachable!()
        };
        put_named(text, b" ", number)?;
    }
    Ok(())
}

// Adds an unknown extended operation, with its bytes by their digits, if it has any.
fn put_extended(alloc: Global, text: &mut Vec<u8>, code: u8, bytes: &[u8]) -> Result<(), AllocError>
    ensures { OnOk result (text.new.items ≡ text.old.items ++ ((codes "unknown_extended " ++ decimal code) ++ bytes_text bytes.now)) }
{
    put_named(text, b"unknown_extended ", u64::from(code))?;
    if bytes.is_empty() {
        return Ok(());
    }
    text.push(b' ')?;
    if print_bytes(alloc, bytes, text).is_err() {
        return Err(AllocError);
    }
    Ok(())
}
