//! Verdicts as C sees them.
ghost use Rattle.std.specs.Prelude.{◌≡◌};
ghost use Rattle.lnt_ffi.specs.Verdicts.{numbered, of_malformed, of_run, verdict_of_no, verdict_of_stop, verdict_of_table};
ghost use Rattle.lnt_ffi.specs.Verdicts.{which_number, yes};
ghost use Rattle.lnt_lines.specs.declared.no.No.TheVariants.{Overlap};

use crate::flat::{FlatAnswer, flat_side};
use lnt_header::EntryTable;
use lnt_io::Stop;
use lnt_lines::No;
use lnt_machine::RunFault;
use lnt_sequences::SeqId;
use lnt_spans::Position;
use lnt_table::{TableNo, Verdict};
use lnt_wire::{Fault, Reason};

/// What was found: `struct linetab_verdict`. `include/linetab.h` says for each number which fields it has; the others
/// are 0.
#[repr(C)]
#[derive(Clone, Copy, Default)]
pub struct FlatVerdict {
    /// 0 for yes, else the number of the reason: of a section (`No`), 33 where memory ran out (`Stop`), 36 to 40 of a
    /// table (`TableNo`).
    pub number: u32,
    /// The number of what is wrong with the bytes (`Reason`) or with the program (`RunFault`), or 1 for the table of files and 0 for
    /// that of directories.
    pub detail: u32,
    /// The offset in the section of the unit, or of the field that is malformed.
    pub offset: u64,
    /// The index of the operation, entry, file, row, sequence or record; or the number that a malformed field has.
    pub index: u64,
    /// The file that a row names, the column of a record, or the operands that a standard opcode is said to have.
    pub value: u64,
    /// The offset of the unit of the other sequence.
    pub other_offset: u64,
    /// The index of the other sequence.
    pub other_index: u64,
    /// The address of the position.
    pub address: u64,
    /// The operation index of the position.
    pub op: u64,
    /// Whether the table answers something there.
    pub table_answers: bool,
    /// Whether the section answers something there.
    pub section_answers: bool,
    /// The version of the table, 3 or 4, where the answers are by path; else 0. The answers have then a line and, in version 3, a
    /// column, and `index` and `value` are how many bytes the table's path and the section's have.
    pub path_version: u32,
    /// What the table answers there.
    pub by_table: FlatAnswer,
    /// What the section answers there, in the fields of the table's version.
    pub by_section: FlatAnswer,
}

// Yes.
pub(crate) fn yes() -> FlatVerdict
    ensures { result ≡ yes }
{
    FlatVerdict::default()
}

// A number and a detail, with no evidence.
fn numbered(number: u32, detail: u32) -> FlatVerdict
    ensures { result ≡ numbered number detail }
{
    FlatVerdict {
        number,
        detail,
        ..yes()
    }
}

// A number and a detail, with an offset and two numbers.
fn placed(number: u32, detail: u32, offset: u64, index: u64, value: u64) -> FlatVerdict
    ensures { result ≡ record (numbered number detail) { offset = offset; index = index; value = value } }
{
    FlatVerdict {
        offset,
        index,
        value,
        ..numbered(number, detail)
    }
}

// Why nothing was judged.
pub(crate) fn verdict_of_stop(stop: Stop) -> FlatVerdict
    ensures { result ≡ verdict_of_stop stop }
{
    match stop {
        Stop::Memory => numbered(33, 0),
        Stop::Read => numbered(34, 0),
        Stop::TooLong => numbered(35, 0),
    }
}

// Bytes that are no unit.
fn of_malformed(fault: Fault) -> FlatVerdict
    ensures { result ≡ of_malformed fault }
{
    let (detail, index, value) = match fault.reason {
        Reason::Truncated => (1, 0, 0),
        Reason::ReservedLength => (2, 0, 0),
        Reason::VersionNotFive(version) => (3, version as u64, 0),
        Reason::AddressSize(size) => (4, size as u64, 0),
        Reason::SegmentSelector(size) => (5, size as u64, 0),
        Reason::HeaderLength => (6, 0, 0),
        Reason::MaxOpsZero => (7, 0, 0),
        Reason::LineRangeZero => (8, 0, 0),
        Reason::OpcodeBaseZero => (9, 0, 0),
        Reason::StandardLength(opcode, length) => (10, opcode as u64, length as u64),
        Reason::UnknownForm(code) => (11, code, 0),
        Reason::EmptyFormat => (12, 0, 0),
        Reason::LebTooLarge => (13, 0, 0),
        Reason::ExtendedLength => (14, 0, 0),
        Reason::Memory => (15, 0, 0),
    };
    placed(25, detail, fault.place, index, value)
}

// A program that doesn't run.
fn of_run(unit: u64, fault: RunFault) -> FlatVerdict
    ensures { result ≡ of_run unit fault }
{
    let (detail, index) = match fault {
        RunFault::LineOutOfRange(op) => (22, op),
        RunFault::OpenSequence => (23, 0),
        RunFault::Memory => (24, 0),
    };
    placed(26, detail, unit, index, 0)
}

fn which_number(which: EntryTable) -> u32
    ensures { result ≡ which_number which }
{
    match which {
        EntryTable::Directories => 0,
        EntryTable::Files => 1,
    }
}

// What is wrong with a section.
pub(crate) fn verdict_of_no(no: No) -> FlatVerdict
    ensures { result ≡ verdict_of_no no }
{
    match no {
        No::Malformed(fault) => of_malformed(fault),
        No::Run(unit, fault) => of_run(unit, fault),
        No::EntryFormat(unit, which) => placed(27, which_number(which), unit, 0, 0),
        No::StringOutside(unit, which, entry) => placed(28, which_number(which), unit, entry, 0),
        No::DirectoryNumber(unit, file) => placed(29, 0, unit, file, 0),
        No::FileNumber(unit, row, file) => placed(30, 0, unit, row, file),
        No::Falls(unit, row) => placed(31, 0, unit, row, 0),
        No::Overlap {
            first,
            second,
            position,
        } => of_overlap(first, second, position),
    }
}

// Two sequences that hold one position.
fn of_overlap(first: SeqId, second: SeqId, position: Position) -> FlatVerdict
    ensures { result ≡ verdict_of_no (Overlap first second position) }
{
    FlatVerdict {
        offset: first.unit,
        index: first.index,
        other_offset: second.unit,
        other_index: second.index,
        ..at(position, 32)
    }
}

// A number and a position.
pub(crate) fn at(position: Position, number: u32) -> FlatVerdict
    ensures { result ≡ record (numbered number 0) { address = position.address; op = position.op } }
{
    FlatVerdict {
        address: position.address,
        op: position.op,
        ..numbered(number, 0)
    }
}

// What a check finds.
pub(crate) fn verdict_of_table(verdict: Verdict) -> FlatVerdict
    ensures { result ≡ verdict_of_table verdict }
{
    let Verdict::No(no) = verdict else {
        return yes();
    };
    match no {
        TableNo::Section(no) => verdict_of_no(no),
        TableNo::TableHeader => numbered(36, 0),
        TableNo::TableFields(number) => placed(37, 0, 0, number, 0),
        TableNo::TableNumber(record, column) => placed(38, 0, 0, record, column),
        TableNo::TableOrder(number) => placed(39, 0, 0, number, 0),
        TableNo::Differs {
            position,
            by_table,
            by_section,
        } => FlatVerdict {
            table_answers: by_table.is_some(),
            section_answers: by_section.is_some(),
            by_table: flat_side(by_table),
            by_section: flat_side(by_section),
            ..at(position, 40)
        },
    }
}
