//! The operations of a line number program (DWARF 5, sections 6.2.5 and 7.22), with owned and with borrowed operands, and
//! which of them a header admits.
ghost use Rattle.std.specs.Prelude.{◌≡◌, ◌-◌, ◌^◌, ◌<◌, ◌≤◌, ◌↔◌, IsTrue, slice_index};
ghost use Rattle.lnt_header.specs.HeaderRules.{IsAddressSize};
ghost use Rattle.lnt_header.specs.OpRules.{Admits, IsUnknownOf, known_lengths, last_known};

use crate::header::Header;
use crate::numbers::HeaderNumbers;
use lnt_wire::Items;

/// The last standard opcode that is known: the first is 1 (DWARF 5, section 6.2.5.2).
pub const LAST_KNOWN: u8 = 12;

/// The number of operands of each known standard opcode (DWARF 5, section 6.2.5.2).
pub(crate) const KNOWN_LENGTHS: [u8; 12] = [0, 1, 1, 1, 1, 0, 0, 0, 1, 0, 0, 1];

/// The number of operands of a known standard opcode (DWARF 5, section 6.2.5.2). The caller passes one from 1 to
/// `LAST_KNOWN`.
pub fn known_length(opcode: u8) -> u8
    requires low { 1 ≤ opcode }
    requires high { opcode ≤ last_known }
    ensures { result ≡ slice_index known_lengths (opcode - 1) }
{
    KNOWN_LENGTHS[usize::from(opcode) - 1]
}

/// An operation that owns its operands (DWARF 5, section 6.2.5).
#[derive(Debug, Drop, PartialEq, Eq)]
pub enum Op {
    /// A special opcode: advances address and line, and appends a row.
    Special(u8),
    /// Opcode 1: appends a row.
    Copy,
    /// Opcode 2: advances address and operation index by this many operations.
    AdvancePc(u64),
    /// Opcode 3: adds this number to the line.
    AdvanceLine(i64),
    /// Opcode 4: sets the source file, by its index.
    SetFile(u64),
    /// Opcode 5: sets the column.
    SetColumn(u64),
    /// Opcode 6: inverts whether a row begins a statement.
    NegateStmt,
    /// Opcode 7: marks the next row as the beginning of a basic block.
    SetBasicBlock,
    /// Opcode 8: advances address and operation index as special opcode 255 does, and appends no row.
    ConstAddPc,
    /// Opcode 9: adds this number of bytes to the address, and sets the operation index to 0.
    FixedAdvancePc(u16),
    /// Opcode 10: marks the next row as the end of a function's prologue.
    SetPrologueEnd,
    /// Opcode 11: marks the next row as the beginning of a function's epilogue.
    SetEpilogueBegin,
    /// Opcode 12: sets the instruction set.
    SetIsa(u64),
    /// An unknown standard opcode, and as many operands as the header says. Changes nothing.
    UnknownStandard(u8, Items<u64>),
    /// Extended opcode 1: ends a sequence, and appends a row.
    EndSequence,
    /// Extended opcode 2: sets the address, and the operation index to 0.
    SetAddress(u64),
    /// Extended opcode 4: sets the discriminator, up to the next row.
    SetDiscriminator(u64),
    /// Any other extended opcode, and its bytes. Changes nothing.
    UnknownExtended(u8, Items<u8>),
}

/// The operands of an unknown standard operation.
#[derive(Clone, Copy, Debug)]
pub enum Operands<'a> {
    /// The bytes of consecutive unsigned LEB128 numbers.
    Spelled(&'a [u8]),
    /// The numbers.
    Listed(&'a [u64]),
}

/// An operation like `Op`, with the operands of unknown operations borrowed.
#[derive(Clone, Copy, Debug)]
pub enum OpView<'a> {
    Special(u8),
    Copy,
    AdvancePc(u64),
    AdvanceLine(i64),
    SetFile(u64),
    SetColumn(u64),
    NegateStmt,
    SetBasicBlock,
    ConstAddPc,
    FixedAdvancePc(u16),
    SetPrologueEnd,
    SetEpilogueBegin,
    SetIsa(u64),
    UnknownStandard(u8, Operands<'a>),
    EndSequence,
    SetAddress(u64),
    SetDiscriminator(u64),
    UnknownExtended(u8, &'a [u8]),
}

/// How an operation is encoded: its opcode, or the code of an extended one, and its operand (DWARF 5, section 6.2.5).
#[derive(Clone, Copy, Debug)]
pub enum CodedOp<'a> {
    /// A special opcode.
    Special(u8),
    /// A standard opcode without operands.
    Bare(u8),
    /// A standard opcode, and an unsigned LEB128 number.
    Unsigned(u8, u64),
    /// A standard opcode, and a signed LEB128 number.
    Signed(u8, i64),
    /// A standard opcode, and a number of 2 bytes.
    Half(u8, u16),
    /// An unknown standard opcode, and its numbers.
    UnknownStandard(u8, Operands<'a>),
    /// The code of an extended operation without operands.
    Extended(u8),
    /// The code of an extended operation, and an unsigned LEB128 number.
    ExtendedNumber(u8, u64),
    /// The code of an extended operation, and an address.
    ExtendedAddress(u8, u64),
    /// The unknown code of an extended operation, and its bytes.
    UnknownExtended(u8, &'a [u8]),
}

impl Op {
    ghost use Rattle.lnt_header.specs.OpRules.{StandsFor};

    /// The operation with its operands borrowed.
    pub fn view(&self) -> OpView<'_>
        ensures { StandsFor result self.now }
    {
        match self {
            Op::Special(opcode) => OpView::Special(*opcode),
            Op::Copy => OpView::Copy,
            Op::AdvancePc(n) => OpView::AdvancePc(*n),
            Op::AdvanceLine(z) => OpView::AdvanceLine(*z),
            Op::SetFile(n) => OpView::SetFile(*n),
            Op::SetColumn(n) => OpView::SetColumn(*n),
            Op::NegateStmt => OpView::NegateStmt,
            Op::SetBasicBlock => OpView::SetBasicBlock,
            Op::ConstAddPc => OpView::ConstAddPc,
            Op::FixedAdvancePc(n) => OpView::FixedAdvancePc(*n),
            Op::SetPrologueEnd => OpView::SetPrologueEnd,
            Op::SetEpilogueBegin => OpView::SetEpilogueBegin,
            Op::SetIsa(n) => OpView::SetIsa(*n),
            Op::UnknownStandard(opcode, operands) => {
                OpView::UnknownStandard(*opcode, Operands::Listed(operands.as_slice()))
            }
            Op::EndSequence => OpView::EndSequence,
            Op::SetAddress(address) => OpView::SetAddress(*address),
            Op::SetDiscriminator(n) => OpView::SetDiscriminator(*n),
            Op::UnknownExtended(code, bytes) => OpView::UnknownExtended(*code, bytes.as_slice()),
        }
    }
}

impl<'a> OpView<'a> {
    ghost use Rattle.lnt_header.specs.OpRules.{IsCodedAs};

    /// How the operation is encoded.
    pub fn coded(&self) -> CodedOp<'a>
        ensures { IsCodedAs self.now result }
    {
        match *self {
            OpView::Special(opcode) => CodedOp::Special(opcode),
            OpView::Copy => CodedOp::Bare(1),
            OpView::AdvancePc(n) => CodedOp::Unsigned(2, n),
            OpView::AdvanceLine(z) => CodedOp::Signed(3, z),
            OpView::SetFile(n) => CodedOp::Unsigned(4, n),
            OpView::SetColumn(n) => CodedOp::Unsigned(5, n),
            OpView::NegateStmt => CodedOp::Bare(6),
            OpView::SetBasicBlock => CodedOp::Bare(7),
            OpView::ConstAddPc => CodedOp::Bare(8),
            OpView::FixedAdvancePc(n) => CodedOp::Half(9, n),
            OpView::SetPrologueEnd => CodedOp::Bare(10),
            OpView::SetEpilogueBegin => CodedOp::Bare(11),
            OpView::SetIsa(n) => CodedOp::Unsigned(12, n),
            OpView::UnknownStandard(opcode, operands) => CodedOp::UnknownStandard(opcode, operands),
            OpView::EndSequence => CodedOp::Extended(1),
            OpView::SetAddress(address) => CodedOp::ExtendedAddress(2, address),
            OpView::SetDiscriminator(n) => CodedOp::ExtendedNumber(4, n),
            OpView::UnknownExtended(code, bytes) => CodedOp::UnknownExtended(code, bytes),
        }
    }
}

impl Header {
    /// Whether a unit with this header can have the operation, by its numbers: `HeaderNumbers::admits`.
    pub fn admits(&self, op: &Op) -> bool
        ensures { IsTrue result ↔ Admits self.now.numbers op.now }
    {
        self.numbers().admits(op)
    }
}

impl HeaderNumbers {
    /// Whether a unit with these numbers can have the operation (DWARF 5, section 6.2.5). A special opcode isn't below
    /// `opcode_base`, and a standard one is. An unknown standard operation has as many operands as the header lists. An
    /// address fits the address size. The code of an unknown extended operation isn't 1, 2 or 4. Allocates nothing.
    pub fn admits(&self, op: &Op) -> bool
        ensures { IsTrue result ↔ Admits self.now op.now }
    {
        if let Op::UnknownStandard(opcode, operands) = op {
            return self.admits_unknown(*opcode, operands.as_slice().len());
        }
        match op.view().coded() {
            CodedOp::Special(opcode) => opcode >= self.opcode_base(),
            CodedOp::Bare(opcode)
            | CodedOp::Unsigned(opcode, _)
            | CodedOp::Signed(opcode, _)
            | CodedOp::Half(opcode, _) => opcode < self.opcode_base(),
            CodedOp::Extended(_) | CodedOp::ExtendedNumber(..) => true,
            CodedOp::ExtendedAddress(_, address) => fits_address(address, self.address_size()),
            CodedOp::UnknownExtended(code, _) => !matches!(code, 1 | 2 | 4),
            CodedOp::UnknownStandard(..) => unreachable!(),
        }
    }

    // Whether the opcode is a standard one that DWARF 5 doesn't know, and the numbers give it `count` operands.
    fn admits_unknown(&self, opcode: u8, count: usize) -> bool
        ensures { IsTrue result ↔ IsUnknownOf self.now opcode count }
    {
        let lengths = self.standard_lengths();
        opcode > LAST_KNOWN
            && opcode < self.opcode_base()
            && usize::from(lengths[usize::from(opcode) - 1]) == count
    }
}

// Whether the address fits `size` bytes.
fn fits_address(address: u64, size: u8) -> bool
    requires { IsAddressSize size }
    ensures { IsTrue result ↔ (address < 256 ^ size) }
{
    match size {
        2 => address < 1 << 16,
        4 => address < 1 << 32,
        8 => true,
        _ => unreachable!(),
    }
}
