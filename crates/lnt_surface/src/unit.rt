//! `lnt_unit`: headers, operations and units, as values, as bytes, and one after another.
ghost use Rattle.std.specs.Prelude.{◌≡◌};
ghost use Rattle.lnt_wire.specs.FrameBytes.{IsPlacedFrame};

use lnt_unit::{
    CodedOp, Entry, Header, HeaderParts, Mark, Marks, NumberParts, Op, OpView, Operands, Ops, Pair,
    Parts, SectionReader, SectionStop, Unit, UnitBuffer, UnitFault, UnitView, Which, decode_header,
    decode_section, decode_unit, encode_header, encode_unit,
};
use lnt_wire::{Counted, Cursor, EncodeFault, Fault, Form, FormValue, Format, Frame, Items, Order};
use std::alloc::Global;
use std::io::Read;

/// A pair, by its fields.
pub fn pair_again(pair: Pair) -> Pair {
    let Pair { content, form } = pair;
    let _: (u64, Form) = (content, form);
    Pair { content, form }
}

/// An entry of these values, which are taken without a copy.
pub fn entry_of(values: Vec<FormValue>) -> Entry {
    Entry {
        values: Items::new(values),
    }
}

/// The values of an entry.
pub fn values_of(entry: &Entry) -> &[FormValue] {
    entry.values.as_slice()
}

/// Each table.
pub fn table_number(which: Which) -> u8 {
    match which {
        Which::Directories => 0,
        Which::Files => 1,
    }
}

/// Each reason why no unit has some parts.
pub fn unit_fault_number(fault: UnitFault) -> (u8, Option<Which>, u64) {
    match fault {
        UnitFault::HeaderNumber => (18, None, 0),
        UnitFault::EntryNotOfFormat(which, index) => (17, Some(which), index),
        UnitFault::TextHoldsZero(which, index) => (19, Some(which), index),
        UnitFault::OpNotOfUnit(index) => (16, None, index),
    }
}

/// The parts of a header without directories and files. Its lists are made from vectors, without a copy.
pub fn bare_parts(
    format: Format,
    order: Order,
    standard_lengths: Vec<u8>,
    directory_format: Vec<Pair>,
    directories: Vec<Entry>,
    file_format: Vec<Pair>,
    files: Vec<Entry>,
    extra: Vec<u8>,
) -> HeaderParts {
    HeaderParts {
        format,
        order,
        address_size: 8,
        minimum_instruction_length: 1,
        max_ops: 1,
        default_is_stmt: 1,
        line_base: -5,
        line_range: 14,
        opcode_base: 13,
        standard_lengths: Items::new(standard_lengths),
        directory_format: Items::new(directory_format),
        directories: Items::new(directories),
        file_format: Items::new(file_format),
        files: Items::new(files),
        extra: Items::new(extra),
    }
}

/// The numbers of some parts.
pub fn numbers_of(parts: &HeaderParts) -> ([u8; 6], i8) {
    let numbers = [
        parts.address_size,
        parts.minimum_instruction_length,
        parts.max_ops,
        parts.default_is_stmt,
        parts.line_range,
        parts.opcode_base,
    ];
    (numbers, parts.line_base)
}

/// The lists of some parts.
pub fn lists_of(parts: &HeaderParts) -> [usize; 6] {
    [
        parts.standard_lengths.as_slice().len(),
        parts.directory_format.as_slice().len(),
        parts.directories.as_slice().len(),
        parts.file_format.as_slice().len(),
        parts.files.as_slice().len(),
        parts.extra.as_slice().len(),
    ]
}

/// The header with some parts, or these parts and why none has them.
pub fn header_of(parts: HeaderParts) -> Result<Header, (UnitFault, HeaderParts)> {
    Header::new(parts)
}

/// What a header tells of how its bytes are read.
pub fn told_format(header: &Header) -> (Format, Order, u8) {
    (header.format(), header.order(), header.address_size())
}

/// What a header tells of its numbers.
pub fn told_numbers(header: &Header) -> ([u8; 5], i8, &[u8]) {
    let numbers = [
        header.minimum_instruction_length(),
        header.max_ops(),
        header.default_is_stmt(),
        header.line_range(),
        header.opcode_base(),
    ];
    (numbers, header.line_base(), header.standard_lengths())
}

/// What a header tells of its tables.
pub fn told_tables(header: &Header) -> ([&[Pair]; 2], [&[Entry]; 2], &[u8]) {
    (
        [header.directory_format(), header.file_format()],
        [header.directories(), header.files()],
        header.extra(),
    )
}

/// The numbers of a header together.
pub fn told_together(header: &Header) -> &NumberParts {
    header.numbers().parts()
}

/// Whether a header admits an operation.
pub fn is_admitted(header: &Header, op: &Op) -> bool {
    header.admits(op)
}

/// Each operation. The operands of unknown ones give their vectors back.
pub fn opcode_of(op: Op) -> (u8, Option<Vec<u64>>, Option<Vec<u8>>) {
    match op {
        Op::Special(opcode) => (opcode, None, None),
        Op::Copy => (1, None, None),
        Op::AdvancePc(_) => (2, None, None),
        Op::AdvanceLine(_) => (3, None, None),
        Op::SetFile(_) => (4, None, None),
        Op::SetColumn(_) => (5, None, None),
        Op::NegateStmt => (6, None, None),
        Op::SetBasicBlock => (7, None, None),
        Op::ConstAddPc => (8, None, None),
        Op::FixedAdvancePc(_) => (9, None, None),
        Op::SetPrologueEnd => (10, None, None),
        Op::SetEpilogueBegin => (11, None, None),
        Op::SetIsa(_) => (12, None, None),
        Op::UnknownStandard(opcode, operands) => (opcode, Some(operands.into_vec()), None),
        Op::EndSequence | Op::SetAddress(_) | Op::SetDiscriminator(_) => (0, None, None),
        Op::UnknownExtended(code, bytes) => (code, None, Some(bytes.into_vec())),
    }
}

/// Operations with an operand.
pub fn ops_with(n: u64, z: i64, half: u16, opcode: u8) -> [Op; 9] {
    [
        Op::Special(opcode),
        Op::AdvancePc(n),
        Op::AdvanceLine(z),
        Op::SetFile(n),
        Op::SetColumn(n),
        Op::FixedAdvancePc(half),
        Op::SetIsa(n),
        Op::SetAddress(n),
        Op::SetDiscriminator(n),
    ]
}

/// Unknown operations, which are made from vectors without a copy.
pub fn unknown_ops(opcode: u8, operands: Vec<u64>, code: u8, bytes: Vec<u8>) -> [Op; 2] {
    [
        Op::UnknownStandard(opcode, Items::new(operands)),
        Op::UnknownExtended(code, Items::new(bytes)),
    ]
}

/// An operation with its operands borrowed.
pub fn view_of(op: &Op) -> OpView<'_> {
    op.view()
}

/// Each such operation.
pub fn view_number(view: OpView<'_>) -> u64 {
    match view {
        OpView::Special(opcode) => u64::from(opcode),
        OpView::Copy => 1,
        OpView::AdvancePc(n) => n,
        OpView::AdvanceLine(z) => z.cast_unsigned(),
        OpView::SetFile(n) => n,
        OpView::SetColumn(n) => n,
        OpView::NegateStmt => 6,
        OpView::SetBasicBlock => 7,
        OpView::ConstAddPc => 8,
        OpView::FixedAdvancePc(n) => u64::from(n),
        OpView::SetPrologueEnd => 10,
        OpView::SetEpilogueBegin => 11,
        OpView::SetIsa(n) => n,
        OpView::UnknownStandard(_, operands) => operand_count(operands),
        OpView::EndSequence => 0,
        OpView::SetAddress(address) => address,
        OpView::SetDiscriminator(n) => n,
        OpView::UnknownExtended(_, bytes) => bytes.len() as u64,
    }
}

/// Operands as they are spelled, or as numbers.
pub fn operand_count(operands: Operands<'_>) -> u64 {
    match operands {
        Operands::Spelled(bytes) => bytes.len() as u64,
        Operands::Listed(numbers) => numbers.len() as u64,
    }
}

/// How an operation is encoded.
pub fn coded<'a>(view: &OpView<'a>) -> CodedOp<'a> {
    view.coded()
}

/// The parts of a unit, whose operations are taken from a vector without a copy.
pub fn parts_of(header: HeaderParts, ops: Vec<Op>) -> Parts {
    Parts {
        header,
        ops: Items::new(ops),
    }
}

/// The unit with some parts, or these parts and why none has them.
pub fn unit_of(parts: Parts) -> Result<Unit, (UnitFault, Parts)> {
    Unit::new(parts)
}

/// A unit's header and operations.
pub fn told_unit(unit: &Unit) -> (&Header, &[Op]) {
    (unit.header(), unit.ops())
}

/// A unit in another format and order.
pub fn converted(unit: Unit, format: Format, order: Order) -> Unit {
    unit.with_format(format, order)
}

/// The unit at a cursor, which reads in this order.
pub fn decoded(alloc: Global, cursor: &mut Cursor<'_>, order: Order) -> Result<Unit, Fault>
    requires { cursor.old.order ≡ order }
{
    decode_unit(alloc, cursor, order)
}

/// The units of a section.
pub fn all_decoded(alloc: Global, bytes: &[u8], order: Order) -> Result<Vec<(u64, Unit)>, Fault> {
    decode_section(alloc, bytes, order)
}

/// The bytes of a unit.
pub fn encoded(alloc: Global, unit: &Unit) -> Result<Vec<u8>, EncodeFault> {
    encode_unit(alloc, unit)
}

/// The header of a frame, and its program.
pub fn decoded_header<'a>(
    alloc: Global,
    frame: &Frame<'a>,
    order: Order,
) -> Result<(Header, &'a [u8]), Fault>
    requires { IsPlacedFrame order frame.now }
{
    decode_header(alloc, frame, order)
}

/// The bytes of a header and its program.
pub fn encoded_header(
    alloc: Global,
    header: &Header,
    program: &[u8],
) -> Result<Vec<u8>, EncodeFault> {
    encode_header(alloc, header, program)
}

/// The first unit of a section that is read.
pub fn first_unit<R: Read + Drop>(
    alloc: Global,
    reader: R,
    order: Order,
) -> Result<Option<UnitBuffer>, SectionStop> {
    let mut source = Counted::new(reader, 70);
    let mut section = SectionReader::new(&mut source, order);
    section.next_unit(alloc)
}

/// Each reason why a section is read no further.
pub fn section_stop_number(stop: SectionStop) -> (u8, Option<Fault>) {
    match stop {
        SectionStop::Fault(fault) => (25, Some(fault)),
        SectionStop::Memory => (33, None),
        SectionStop::Read => (34, None),
        SectionStop::TooLong => (35, None),
        SectionStop::Failed => (41, None),
    }
}

/// Where a unit is, its bytes and their order.
pub fn told_buffer(buffer: &UnitBuffer) -> (u64, &[u8], Order) {
    (buffer.offset(), buffer.bytes(), buffer.order())
}

/// The unit in a buffer.
pub fn viewed<'a>(alloc: Global, buffer: &'a UnitBuffer) -> Result<UnitView<'a>, Fault> {
    UnitView::over(alloc, buffer)
}

/// The header and the operations of a unit that is viewed.
pub fn told_view<'v>(view: &'v UnitView<'_>) -> (&'v Header, Ops<'v>) {
    (view.header(), view.ops())
}

/// The next operation of a walk over them.
pub fn next_of<'v>(ops: &mut Ops<'v>) -> Option<Result<OpView<'v>, Fault>> {
    ops.next()
}

/// The marks of the directories.
pub fn marks_of<'a>(marks: &Marks<'a>) -> &'a [Mark] {
    marks.directories
}

/// The laws of spellings.
pub fn laws() {
    lnt_unit::laws::one_spelling();
    lnt_unit::laws::one_header();
}
