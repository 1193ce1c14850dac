//! How operations change the registers (DWARF 5, section 6.2.5).
ghost use Rattle.std.specs.Prelude.{◌≡◌, ◌+◌, ◌*◌, ◌/◌, ◌%◌, ◌^◌, ◌<◌, ◌≤◌, pos, ◌+ℤ◌, unsigned_abs, IfOk, OnOk, OnErr, Some, None};
ghost use Rattle.std.specs.Prelude.{if◌then◌else◌};
ghost use Rattle.lnt_machine.specs.Changes.{advanced, Changes, initial_registers, IsAllowed, line_reached, plain};
ghost use Rattle.lnt_machine.specs.Changes.{set_by, special_row, without_flags};
ghost use Rattle.lnt_machine.specs.Registers.{IsLine};
ghost use Rattle.lnt_machine.specs.State.{IsBounded};
ghost use Rattle.lnt_header.specs.HeaderRules.{IsAddressSize};
ghost use Rattle.lnt_header.specs.declared.op.Op.{Op};

use crate::row::Row;
use lnt_header::{HeaderNumbers, OpView};

// A line below 0, or of 2^32 or more.
#[derive(Drop)]
pub(crate) struct OutOfRange;

// The registers at the start of a sequence.
#[inline(always)]
#[tactic(auto, using(crate::proofs::StepLemmas::bounded_initial))]
pub(crate) fn initial(numbers: &HeaderNumbers) -> Row
    ensures value { result ≡ initial_registers numbers.now }
    ensures bounded { IsBounded numbers.now result }
{
    Row {
        address: 0,
        op_index: 0,
        file: 1,
        line: 1,
        column: 0,
        isa: 0,
        discriminator: 0,
        is_stmt: numbers.default_is_stmt() != 0,
        basic_block: false,
        end_sequence: false,
        prologue_end: false,
        epilogue_begin: false,
    }
}

// Does an operation. True if it appends a row, which is then put into `row`; else nothing is said of `row`. If the line would
// be below 0, or 2^32 or more, it fails and leaves the registers unchanged.
#[inline(always)]
pub(crate) fn change(
    registers: &mut Row,
    numbers: &HeaderNumbers,
    reciprocal: u32,
    view: &OpView<'_>,
    row: &mut Row,
) -> Result<bool, OutOfRange>
    requires reciprocal { reciprocal ≡ 65536 / numbers.now.line_range + 1 }
    requires allowed { IsAllowed numbers.now (plain view.now) }
    requires bounded { IsBounded numbers.now registers.old }
    ensures ok { IfOk result (λ appends. Changes numbers.now (plain view.now) registers.old registers.new
        (if appends then Some row.new else None)) }
    ensures err { OnErr result (IsLine (line_reached numbers.now registers.old (plain view.now)) → ⊥) }
    ensures unchanged { OnErr result (registers.new ≡ registers.old) }
{
    match *view {
        OpView::Special(opcode) => {
            special(registers, numbers, reciprocal, opcode, row)?;
            Ok(true)
        }
        OpView::Copy => {
            append(registers, row);
            Ok(true)
        }
        OpView::EndSequence => {
            *row = Row {
                end_sequence: true,
                ..*registers
            };
            *registers = initial(numbers);
            Ok(true)
        }
        OpView::AdvanceLine(by) => {
            registers.line = moved_line(registers.line, by)?;
            Ok(false)
        }
        _ => {
            set(registers, numbers, view);
            Ok(false)
        }
    }
}

// Does an operation that appends no row and doesn't change the line. Does nothing for any other operation.
#[inline(always)]
fn set(registers: &mut Row, numbers: &HeaderNumbers, view: &OpView<'_>)
    requires bounded { IsBounded numbers.now registers.old }
    ensures { registers.new ≡ set_by numbers.now registers.old (plain view.now) }
{
    match *view {
        OpView::AdvancePc(by) => advance(registers, numbers, by),
        OpView::SetFile(file) => registers.file = file,
        OpView::SetColumn(column) => registers.column = column,
        OpView::NegateStmt => registers.is_stmt = !registers.is_stmt,
        OpView::SetBasicBlock => registers.basic_block = true,
        OpView::ConstAddPc => {
            let adjusted = 255 - numbers.opcode_base();
            advance(
                registers,
                numbers,
                u64::from(adjusted / numbers.line_range()),
            )
        }
        OpView::FixedAdvancePc(by) => {
            let address = registers.address.wrapping_add(u64::from(by));
            set_address(registers, within(numbers, address))
        }
        OpView::SetPrologueEnd => registers.prologue_end = true,
        OpView::SetEpilogueBegin => registers.epilogue_begin = true,
        OpView::SetIsa(isa) => registers.isa = isa,
        OpView::SetAddress(address) => set_address(registers, address),
        OpView::SetDiscriminator(discriminator) => registers.discriminator = discriminator,
        _ => {}
    }
}

// 2^16 divided by `line_range`, rounded down, plus 1. `divided` multiplies by it, which is faster than a division.
#[inline(always)]
pub(crate) fn reciprocal_of(numbers: &HeaderNumbers) -> u32
    ensures { result ≡ 65536 / numbers.now.line_range + 1 }
{
    65536 / u32::from(numbers.line_range()) + 1
}

// Does a special opcode: advances address and line, and puts the row that it appends into `row`.
#[inline(always)]
fn special(
    registers: &mut Row,
    numbers: &HeaderNumbers,
    reciprocal: u32,
    opcode: u8,
    row: &mut Row,
) -> Result<(), OutOfRange>
    requires reciprocal { reciprocal ≡ 65536 / numbers.now.line_range + 1 }
    requires allowed { numbers.now.opcode_base ≤ opcode }
    requires bounded { IsBounded numbers.now registers.old }
    ensures line { OnOk result (IsLine (line_reached numbers.now registers.old (Op.Special opcode))) }
    ensures row { OnOk result (row.new ≡ special_row numbers.now registers.old opcode) }
    ensures after { OnOk result (registers.new ≡ without_flags (special_row numbers.now registers.old opcode)) }
    ensures err { OnErr result (IsLine (line_reached numbers.now registers.old (Op.Special opcode)) → ⊥) }
    ensures unchanged { OnErr result (registers.new ≡ registers.old) }
{
    let adjusted = opcode - numbers.opcode_base();
    let (operations, lines) = divided(adjusted, numbers.line_range(), reciprocal);
    let by = i64::from(numbers.line_base()) + i64::from(lines);
    registers.line = moved_line(registers.line, by)?;
    advance(registers, numbers, u64::from(operations));
    append(registers, row);
    Ok(())
}

// The quotient and the remainder of two bytes, by a multiplication with `reciprocal`, which is 2^16 / `divisor` + 1. For
// bytes both are exact.
#[inline(always)]
#[tactic(auto, using(crate::proofs::DivisionLemmas::divided_lemmas))]
fn divided(dividend: u8, divisor: u8, reciprocal: u32) -> (u8, u8)
    requires some { 0 < divisor }
    requires reciprocal { reciprocal ≡ 65536 / divisor + 1 }
    ensures quotient { result.0 ≡ dividend / divisor }
    ensures rest { result.1 ≡ dividend % divisor }
{
    let quotient = (u32::from(dividend) * reciprocal / 65536) as u8;
    (quotient, dividend - quotient * divisor)
}

// Puts the registers into `row`, and resets what each row resets: the discriminator and the three flags `basic_block`,
// `prologue_end` and `epilogue_begin`.
#[inline(always)]
fn append(registers: &mut Row, row: &mut Row)
    ensures row { row.new ≡ registers.old }
    ensures reset { registers.new ≡ without_flags registers.old }
{
    *row = *registers;
    registers.discriminator = 0;
    registers.basic_block = false;
    registers.prologue_end = false;
    registers.epilogue_begin = false;
}

// Sets the address, and the operation index to 0.
#[inline(always)]
fn set_address(registers: &mut Row, address: u64)
    ensures { registers.new ≡ record registers.old { address = address; op_index = 0 } }
{
    registers.address = address;
    registers.op_index = 0;
}

// Advances address and operation index by this many operations (DWARF 5, section 6.2.5.1).
#[inline(always)]
#[tactic(auto, using(crate::proofs::AdvanceLemmas::advanced_by_parts))]
fn advance(registers: &mut Row, numbers: &HeaderNumbers, by: u64)
    requires { registers.old.op_index < numbers.now.max_ops }
    ensures { registers.new ≡ advanced numbers.now registers.old by }
{
    let max_ops = u64::from(numbers.max_ops());
    if max_ops == 1 {
        registers.address = moved(numbers, registers.address, by);
    } else {
        let rest = registers.op_index + by % max_ops;
        registers.address = moved(numbers, registers.address, by / max_ops + rest / max_ops);
        registers.op_index = rest % max_ops;
    }
}

// The address this many instructions after `from`, truncated to the address size.
#[inline(always)]
fn moved(numbers: &HeaderNumbers, from: u64, instructions: u64) -> u64
    ensures { result ≡ (from + numbers.now.minimum_instruction_length * instructions) % 2 ^ (8 * numbers.now.address_size) }
{
    let bytes = u64::from(numbers.minimum_instruction_length()).wrapping_mul(instructions);
    within(numbers, from.wrapping_add(bytes))
}

// The address modulo 2^16, 2^32 or 2^64, if the header's addresses have 2, 4 or 8 bytes.
#[inline(always)]
fn within(numbers: &HeaderNumbers, address: u64) -> u64
    ensures value { result ≡ address % 2 ^ (8 * numbers.now.address_size) }
    ensures size { IsAddressSize numbers.now.address_size }
{
    match numbers.address_size() {
        8 => address,
        4 => address % (1 << 32),
        2 => address % (1 << 16),
        _ => unreachable!(),
    }
}

// The line that is `by` lines after `from`, if it is at least 0 and below 2^32.
#[inline(always)]
fn moved_line(from: u64, by: i64) -> Result<u64, OutOfRange>
    requires { from < 2 ^ 32 }
    ensures ok { IfOk result (λ to. IsLine (pos from +ℤ by) × (to ≡ unsigned_abs (pos from +ℤ by))) }
    ensures err { OnErr result (IsLine (pos from +ℤ by) → ⊥) }
{
    // A line below 0 wraps to one far above.
    let to = from.wrapping_add_signed(by);
    if to < 1 << 32 {
        Ok(to)
    } else {
        Err(OutOfRange)
    }
}
