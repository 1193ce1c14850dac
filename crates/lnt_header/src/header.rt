//! The header of a unit (DWARF 5, section 6.2.4).
ghost use Rattle.std.specs.Prelude.{◌≡◌, ◌<◌, IfOk, IfErr, Some};
ghost use Rattle.lnt_header.specs.FaultTexts.{entry_text};
ghost use Rattle.lnt_header.specs.Parts.{header_of};

use crate::fault::UnitFault;
use crate::numbers::{HeaderNumbers, NumberParts};
use crate::tested::parts_fault;
use lnt_wire::{Form, FormValue, Format, Items, Order};
use std::fmt;
use std::marker::Model;

/// A part of an entry's format: a content type, and the form of its values.
#[derive(Clone, Copy, Debug, PartialEq, Eq)]
pub struct Pair {
    /// The content type (DWARF 5, section 6.2.4.1): one of [`content`](crate::content), or another.
    pub content: u64,
    /// The form of the values.
    pub form: Form,
}

/// A directory or a file.
#[derive(Debug, Drop, PartialEq, Eq)]
pub struct Entry {
    /// One value for each pair of the table's format, in order.
    pub values: Items<FormValue>,
}

/// One of the two tables of a header (DWARF 5, section 6.2.4.1).
#[derive(Clone, Copy, Debug, PartialEq, Eq)]
pub enum EntryTable {
    /// The directories.
    Directories,
    /// The files.
    Files,
}

/// Prints what an entry of the table is: `directory` or `file`.
impl fmt::Display for EntryTable {
    ghost output = { λ which. Some (entry_text which) };

    fn fmt<W: fmt::Write>(&self, f: &mut fmt::Formatter<W>) -> fmt::Result {
        match self {
            EntryTable::Directories => f.write_str("directory"),
            EntryTable::Files => f.write_str("file"),
        }
    }
}

/// What a header is made of, without `unit_length` and `header_length`, which follow from it (DWARF 5, section 6.2.4).
///
/// Contracts see its numbers together, as a [`NumberParts`].
#[derive(Debug, Drop, PartialEq, Eq)]
pub struct HeaderParts {
    /// The format of the unit.
    pub format: Format,
    /// The order of the bytes of its numbers.
    pub order: Order,
    /// The number of bytes of an address.
    pub address_size: u8,
    /// The number of bytes of the smallest instruction.
    pub minimum_instruction_length: u8,
    /// `maximum_operations_per_instruction`: the greatest number of operations of an instruction.
    pub max_ops: u8,
    /// Whether a row begins a statement by default: it does unless this is 0.
    pub default_is_stmt: u8,
    /// The least number that a special opcode adds to the line.
    pub line_base: i8,
    /// The number of different line advances of the special opcodes, from `line_base` on.
    pub line_range: u8,
    /// The first special opcode.
    pub opcode_base: u8,
    /// `standard_opcode_lengths`: the number of operands of each opcode from 1 to `opcode_base` - 1.
    pub standard_lengths: Items<u8>,
    /// What each directory consists of.
    pub directory_format: Items<Pair>,
    /// The directories, the compilation directory first.
    pub directories: Items<Entry>,
    /// What each file consists of.
    pub file_format: Items<Pair>,
    /// The files, the primary source file first.
    pub files: Items<Entry>,
    /// The bytes between the file table and the program.
    pub extra: Items<u8>,
}

impl Model for HeaderParts {
    ghost use Rattle.lnt_header.specs.Parts.{HeaderParts, header_of};

    ghost Value = { HeaderParts };

    ghost view = { λ h. header_of h.format (record {
      order = h.order;
      address_size = h.address_size;
      minimum_instruction_length = h.minimum_instruction_length;
      max_ops = h.max_ops;
      default_is_stmt = h.default_is_stmt;
      line_base = h.line_base;
      line_range = h.line_range;
      opcode_base = h.opcode_base;
      standard_lengths = h.standard_lengths;
    }) h.directory_format h.directories h.file_format h.files h.extra };

    ghost inverse = { λ h. record {
      format = h.format;
      order = h.numbers.order;
      address_size = h.numbers.address_size;
      minimum_instruction_length = h.numbers.minimum_instruction_length;
      max_ops = h.numbers.max_ops;
      default_is_stmt = h.numbers.default_is_stmt;
      line_base = h.numbers.line_base;
      line_range = h.numbers.line_range;
      opcode_base = h.numbers.opcode_base;
      standard_lengths = h.numbers.standard_lengths;
      directory_format = h.directory_format;
      directories = h.directories;
      file_format = h.file_format;
      files = h.files;
      extra = h.extra;
    } };
}

impl HeaderParts {
    /// The parts with these numbers. Allocates nothing.
    pub fn of(
        format: Format,
        numbers: NumberParts,
        directory_format: Items<Pair>,
        directories: Items<Entry>,
        file_format: Items<Pair>,
        files: Items<Entry>,
        extra: Items<u8>,
    ) -> HeaderParts
        ensures { result ≡ header_of format numbers directory_format directories file_format files extra }
    {
        HeaderParts {
            format,
            order: numbers.order,
            address_size: numbers.address_size,
            minimum_instruction_length: numbers.minimum_instruction_length,
            max_ops: numbers.max_ops,
            default_is_stmt: numbers.default_is_stmt,
            line_base: numbers.line_base,
            line_range: numbers.line_range,
            opcode_base: numbers.opcode_base,
            standard_lengths: numbers.standard_lengths,
            directory_format,
            directories,
            file_format,
            files,
            extra,
        }
    }
}

/// A header: parts that have an encoding in the 64-bit format, where its lengths fit (DWARF 5, section 6.2.4). Contracts
/// see its parts.
#[derive(Debug, Drop)]
pub struct Header {
    format: Format,
    numbers: HeaderNumbers,
    directory_format: Items<Pair>,
    directories: Items<Entry>,
    file_format: Items<Pair>,
    files: Items<Entry>,
    extra: Items<u8>,
}

impl Model for Header {
    ghost use Rattle.lnt_header.specs.Parts.{HeaderParts};
    ghost use Rattle.lnt_header.specs.HeaderRules.{header_of, IsHeader};

    ghost Value = { HeaderParts };

    ghost view = { λ h. header_of h.format h.numbers h.directory_format h.directories h.file_format h.files h.extra };

    ghost invariant = { λ h. IsHeader (header_of h.format h.numbers h.directory_format h.directories h.file_format h.files h.extra) };
}

impl Header {
    ghost use Rattle.lnt_header.specs.Conversion.{in_format};
    ghost use Rattle.lnt_header.specs.HeaderRules.{IsAddressSize, IsHeader};
    ghost use Rattle.lnt_header.specs.HeaderTests.{IsPartsFault};

    /// The header with these parts, if they have an encoding in the 64-bit format, apart from lengths. Allocates nothing.
    ///
    /// Otherwise the parts are returned with the first fault: `HeaderNumber`, then `EntryNotOfFormat`, then
    /// `TextHoldsZero`, each for the directories before the files. No header has such parts.
    #[tactic(auto, using(crate::proofs::TestLemmas::no_header))]
    pub fn new(parts: HeaderParts) -> Result<Header, (UnitFault, HeaderParts)>
        ensures ok { IfOk result (λ header. header ≡ parts) }
        ensures err { IfErr result (λ refused. IsPartsFault refused.0 parts × (refused.1 ≡ parts)) }
        ensures none { IfErr result (λ _. IsHeader parts → ⊥) }
    {
        match parts_fault(&parts) {
            None => Ok(Header::of(parts)),
            Some(fault) => Err((fault, parts)),
        }
    }

    /// What the header is made of. Allocates nothing.
    pub fn into_parts(self) -> HeaderParts
        ensures value { result ≡ self }
        ensures header { IsHeader result }
    {
        let Header {
            format,
            numbers,
            directory_format,
            directories,
            file_format,
            files,
            extra,
        } = self;
        HeaderParts::of(
            format,
            numbers.into_parts(),
            directory_format,
            directories,
            file_format,
            files,
            extra,
        )
    }

    /// The header in this format and order: only these two change (DWARF 5, sections 6.2.4 and 7.4). Allocates nothing and
    /// can't fail.
    #[tactic(auto, using(crate::proofs::ConversionLaws::header_in_format))]
    pub fn with_format(self, format: Format, order: Order) -> Header
        ensures { result ≡ in_format self format order }
    {
        let mut parts = self.into_parts();
        parts.format = format;
        parts.order = order;
        Header::of(parts)
    }

    /// The header with these parts. The caller ensures that a header has them; they aren't checked again. Allocates nothing.
    pub fn of(parts: HeaderParts) -> Header
        requires { IsHeader parts }
        ensures { result ≡ parts }
    {
        Header {
            format: parts.format,
            numbers: HeaderNumbers::of(NumberParts {
                order: parts.order,
                address_size: parts.address_size,
                minimum_instruction_length: parts.minimum_instruction_length,
                max_ops: parts.max_ops,
                default_is_stmt: parts.default_is_stmt,
                line_base: parts.line_base,
                line_range: parts.line_range,
                opcode_base: parts.opcode_base,
                standard_lengths: parts.standard_lengths,
            }),
            directory_format: parts.directory_format,
            directories: parts.directories,
            file_format: parts.file_format,
            files: parts.files,
            extra: parts.extra,
        }
    }

    /// The format of the unit.
    #[inline(always)]
    pub fn format(&self) -> Format
        ensures { result ≡ self.now.format }
    {
        self.format
    }

    /// The order of the bytes of the unit's numbers.
    #[inline(always)]
    pub fn order(&self) -> Order
        ensures { result ≡ self.now.numbers.order }
    {
        self.numbers.order()
    }

    /// The number of bytes of an address: 2, 4 or 8.
    #[inline(always)]
    pub fn address_size(&self) -> u8
        ensures value { result ≡ self.now.numbers.address_size }
        ensures size { IsAddressSize result }
    {
        self.numbers.address_size()
    }

    /// The number of bytes of the smallest instruction.
    #[inline(always)]
    pub fn minimum_instruction_length(&self) -> u8
        ensures { result ≡ self.now.numbers.minimum_instruction_length }
    {
        self.numbers.minimum_instruction_length()
    }

    /// The greatest number of operations of an instruction. It isn't 0.
    #[inline(always)]
    pub fn max_ops(&self) -> u8
        ensures value { result ≡ self.now.numbers.max_ops }
        ensures some { 0 < result }
    {
        self.numbers.max_ops()
    }

    /// Whether a row begins a statement by default, as encoded: it does unless this is 0.
    #[inline(always)]
    pub fn default_is_stmt(&self) -> u8
        ensures { result ≡ self.now.numbers.default_is_stmt }
    {
        self.numbers.default_is_stmt()
    }

    /// The least number that a special opcode adds to the line.
    #[inline(always)]
    pub fn line_base(&self) -> i8
        ensures { result ≡ self.now.numbers.line_base }
    {
        self.numbers.line_base()
    }

    /// The number of different line advances of the special opcodes, from `line_base` on. It isn't 0.
    #[inline(always)]
    pub fn line_range(&self) -> u8
        ensures value { result ≡ self.now.numbers.line_range }
        ensures some { 0 < result }
    {
        self.numbers.line_range()
    }

    /// The first special opcode. It isn't 0.
    #[inline(always)]
    pub fn opcode_base(&self) -> u8
        ensures value { result ≡ self.now.numbers.opcode_base }
        ensures some { 0 < result }
    {
        self.numbers.opcode_base()
    }

    /// `standard_opcode_lengths`: the number of operands of each opcode from 1 to `opcode_base` - 1.
    pub fn standard_lengths(&self) -> &[u8]
        ensures { result.now ≡ self.now.numbers.standard_lengths }
    {
        self.numbers.standard_lengths()
    }

    /// The numbers together, by which its operations are read and done.
    #[inline(always)]
    pub fn numbers(&self) -> &HeaderNumbers
        ensures numbers { result.now ≡ self.now.numbers }
        ensures header { IsHeader self.now }
    {
        &self.numbers
    }

    /// What each directory consists of.
    pub fn directory_format(&self) -> &[Pair]
        ensures { result.now ≡ self.now.directory_format }
    {
        self.directory_format.as_slice()
    }

    /// The directories, the compilation directory first.
    pub fn directories(&self) -> &[Entry]
        ensures { result.now ≡ self.now.directories }
    {
        self.directories.as_slice()
    }

    /// What each file consists of.
    pub fn file_format(&self) -> &[Pair]
        ensures { result.now ≡ self.now.file_format }
    {
        self.file_format.as_slice()
    }

    /// The files, the primary source file first.
    pub fn files(&self) -> &[Entry]
        ensures { result.now ≡ self.now.files }
    {
        self.files.as_slice()
    }

    /// The bytes between the file table and the program.
    pub fn extra(&self) -> &[u8]
        ensures { result.now ≡ self.now.extra }
    {
        self.extra.as_slice()
    }
}
