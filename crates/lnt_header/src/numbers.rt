//! The numbers of a header (DWARF 5, section 6.2.4).
ghost use Rattle.std.specs.Prelude.{◌≡◌, ◌<◌, IfOk};
ghost use Rattle.lnt_header.specs.HeaderRules.{AreHeaderNumbers, IsAddressSize, six_bytes};

use lnt_wire::{Items, Order, copied};
use std::alloc::{AllocError, Global};
use std::marker::Model;

/// What the numbers of a header are made of: those by which its operations are read, and those by which they change
/// registers (DWARF 5, sections 6.2.4 and 6.2.5). Its format, its directories and its files are no part of them.
#[derive(Debug, Drop, PartialEq, Eq)]
pub struct NumberParts {
    /// The order of the bytes of its numbers.
    pub order: Order,
    /// The number of bytes of an address.
    pub address_size: u8,
    /// The number of bytes of the smallest instruction.
    pub minimum_instruction_length: u8,
    /// `maximum_operations_per_instruction`: the greatest number of operations of an instruction.
    pub max_ops: u8,
    /// Whether a row begins a statement by default: it does unless this is 0.
    pub default_is_stmt: u8,
    /// The least number that a special opcode adds to the line.
    pub line_base: i8,
    /// The number of different line advances of the special opcodes, from `line_base` on.
    pub line_range: u8,
    /// The first special opcode.
    pub opcode_base: u8,
    /// `standard_opcode_lengths`: the number of operands of each opcode from 1 to `opcode_base` - 1.
    pub standard_lengths: Items<u8>,
}

impl NumberParts {
    /// The six numbers of one byte before the standard opcode lengths, in the order of a unit (DWARF 5, section 6.2.4).
    pub fn single_fields(&self) -> [u8; 6]
        ensures { result ≡ six_bytes self.now }
    {
        [
            self.minimum_instruction_length,
            self.max_ops,
            self.default_is_stmt,
            self.line_base.cast_unsigned(),
            self.line_range,
            self.opcode_base,
        ]
    }
}

/// The numbers of a header: parts that a header can have (DWARF 5, section 6.2.4). Contracts see these parts.
#[derive(Debug, Drop)]
pub struct HeaderNumbers {
    parts: NumberParts,
}

impl Model for HeaderNumbers {
    ghost use Rattle.lnt_header.specs.declared.numbers.NumberParts.{NumberParts};
    ghost use Rattle.lnt_header.specs.HeaderRules.{AreHeaderNumbers};

    ghost Value = { NumberParts };

    ghost view = { λ numbers. numbers.parts };

    ghost invariant = { λ numbers. AreHeaderNumbers numbers.parts };
}

impl HeaderNumbers {
    /// The numbers with these parts. The caller ensures that a header can have them. Allocates nothing.
    pub fn of(parts: NumberParts) -> HeaderNumbers
        requires { AreHeaderNumbers parts }
        ensures { result ≡ parts }
    {
        HeaderNumbers { parts }
    }

    /// What the numbers are made of. Allocates nothing.
    pub fn into_parts(self) -> NumberParts
        ensures value { result ≡ self }
        ensures numbers { AreHeaderNumbers result }
    {
        let HeaderNumbers { parts } = self;
        parts
    }

    /// What the numbers are made of.
    pub fn parts(&self) -> &NumberParts
        ensures value { result.now ≡ self.now }
        ensures numbers { AreHeaderNumbers self.now }
    {
        &self.parts
    }

    /// A copy of the numbers. Fails only if memory runs out.
    pub fn copied(&self, alloc: Global) -> Result<HeaderNumbers, AllocError>
        ensures { IfOk result (λ numbers. numbers ≡ self.now) }
    {
        Ok(HeaderNumbers {
            parts: NumberParts {
                standard_lengths: copied(alloc, self.standard_lengths())?,
                ..self.parts
            },
        })
    }

    /// The order of the bytes of the unit's numbers.
    #[inline(always)]
    pub fn order(&self) -> Order
        ensures value { result ≡ self.now.order }
        ensures numbers { AreHeaderNumbers self.now }
    {
        self.parts.order
    }

    /// The number of bytes of an address: 2, 4 or 8.
    #[inline(always)]
    pub fn address_size(&self) -> u8
        ensures value { result ≡ self.now.address_size }
        ensures size { IsAddressSize result }
    {
        self.parts.address_size
    }

    /// The number of bytes of the smallest instruction.
    #[inline(always)]
    pub fn minimum_instruction_length(&self) -> u8
        ensures { result ≡ self.now.minimum_instruction_length }
    {
        self.parts.minimum_instruction_length
    }

    /// The greatest number of operations of an instruction. It isn't 0.
    #[inline(always)]
    pub fn max_ops(&self) -> u8
        ensures value { result ≡ self.now.max_ops }
        ensures some { 0 < result }
    {
        self.parts.max_ops
    }

    /// Whether a row begins a statement by default, as encoded: it does unless this is 0.
    #[inline(always)]
    pub fn default_is_stmt(&self) -> u8
        ensures value { result ≡ self.now.default_is_stmt }
        ensures numbers { AreHeaderNumbers self.now }
    {
        self.parts.default_is_stmt
    }

    /// The least number that a special opcode adds to the line.
    #[inline(always)]
    pub fn line_base(&self) -> i8
        ensures { result ≡ self.now.line_base }
    {
        self.parts.line_base
    }

    /// The number of different line advances of the special opcodes, from `line_base` on. It isn't 0.
    #[inline(always)]
    pub fn line_range(&self) -> u8
        ensures value { result ≡ self.now.line_range }
        ensures some { 0 < result }
    {
        self.parts.line_range
    }

    /// The first special opcode. It isn't 0.
    #[inline(always)]
    pub fn opcode_base(&self) -> u8
        ensures value { result ≡ self.now.opcode_base }
        ensures some { 0 < result }
        ensures numbers { AreHeaderNumbers self.now }
    {
        self.parts.opcode_base
    }

    /// `standard_opcode_lengths`: the number of operands of each opcode from 1 to `opcode_base` - 1.
    #[inline(always)]
    pub fn standard_lengths(&self) -> &[u8]
        ensures value { result.now ≡ self.now.standard_lengths }
        ensures numbers { AreHeaderNumbers self.now }
    {
        self.parts.standard_lengths.as_slice()
    }
}
