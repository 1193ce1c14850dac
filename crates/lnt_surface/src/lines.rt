//! `lnt_lines`: a section judged, and what a good one answers.
use lnt_lines::{
    Answer, Judged, Lines, More, No, Options, Position, Probes, SeqId, Span, Stop, Version, verify,
};
use lnt_machine::RunFault;
use lnt_unit::Which;
use lnt_wire::{Counted, Fault, Order, Strings};
use std::alloc::Global;

/// A position, by its fields.
pub fn position_again(at: Position) -> Position {
    let Position { address, op } = at;
    let _: (u64, u64) = (address, op);
    Position { address, op }
}

/// An answer, by its fields.
pub fn answer_again(answer: Answer) -> Answer {
    let Answer {
        unit,
        file,
        line,
        column,
        is_stmt,
        more,
    } = answer;
    let _: ([u64; 4], bool, Option<More>) = ([unit, file, line, column], is_stmt, more);
    Answer {
        unit,
        file,
        line,
        column,
        is_stmt,
        more,
    }
}

/// What an answer of version 2 has beside.
pub fn more_again(more: More) -> More {
    let More { isa, discriminator } = more;
    let _: (u64, u64) = (isa, discriminator);
    More { isa, discriminator }
}

/// The answer of version 1.
pub fn narrowed(answer: Answer) -> Answer {
    answer.narrow()
}

/// A span, by its fields.
pub fn span_again(span: Span) -> Span {
    let Span { low, high, answer } = span;
    let _: (Position, Position, Answer) = (low, high, answer);
    Span { low, high, answer }
}

/// The name of a sequence, by its fields.
pub fn sequence_again(sequence: SeqId) -> SeqId {
    let SeqId { unit, index } = sequence;
    let _: (u64, u64) = (unit, index);
    SeqId { unit, index }
}

/// How a section is read.
pub fn options_of(order: Order, dead: Option<u64>) -> Options {
    Options {
        order,
        dead,
        skip_copies: false,
    }
}

/// The fields of options.
pub fn told_options(options: &Options) -> (Order, Option<u64>) {
    (options.order, options.dead)
}

/// A section, judged: its lines if it is good, and otherwise why it isn't.
pub fn lines_of(
    alloc: Global,
    bytes: &[u8],
    strings: &Strings<'_>,
    options: &Options,
) -> Result<Result<Lines, No>, Stop> {
    match verify(alloc, &mut Counted::new(bytes, 70), strings, options)? {
        Judged::Good(lines) => Ok(Ok(lines)),
        Judged::Bad(no) => Ok(Err(no)),
    }
}

/// Each reason why a section isn't good, but for `Overlap`: its unit, and what it says of it.
pub fn told_no(no: No) -> Option<(u8, u64, Option<u64>)> {
    match no {
        No::Malformed(fault) => Some((25, told_place(fault), None)),
        No::Run(unit, fault) => Some((26, unit, told_operation(fault))),
        No::EntryFormat(unit, which) => Some((27, unit, Some(table_number(which)))),
        No::StringOutside(unit, which, entry) => {
            Some((28, unit, Some(entry.max(table_number(which)))))
        }
        No::DirectoryNumber(unit, file) => Some((29, unit, Some(file))),
        No::FileNumber(unit, row, file) => Some((30, unit, Some(row.max(file)))),
        No::Falls(unit, row) => Some((31, unit, Some(row))),
        No::Overlap { .. } => None,
    }
}

fn told_place(fault: Fault) -> u64 {
    fault.place
}

fn told_operation(fault: RunFault) -> Option<u64> {
    match fault {
        RunFault::LineOutOfRange(index) => Some(index),
        RunFault::OpenSequence | RunFault::Memory => None,
    }
}

fn table_number(which: Which) -> u64 {
    match which {
        Which::Directories => 0,
        Which::Files => 1,
    }
}

/// The two sequences that hold one position, and that position.
pub fn told_overlap(no: No) -> Option<(SeqId, SeqId, Position)> {
    match no {
        No::Overlap {
            first,
            second,
            position,
        } => Some((first, second, position)),
        _ => None,
    }
}

/// Each reason why nothing is judged.
pub fn stop_number(stop: Stop) -> u8 {
    match stop {
        Stop::Memory => 33,
        Stop::Read => 34,
        Stop::TooLong => 35,
    }
}

/// The answer at a position, and how many spans it was compared with.
pub fn looked_up(lines: &Lines, at: Position) -> (Option<Answer>, u64) {
    let mut probes = Probes::new();
    let answer = lines.lookup(at, &mut probes);
    (answer, probes.count())
}

/// What lines tell of their spans and units.
pub fn told_lines(lines: &Lines) -> (&[Span], &[u64]) {
    (lines.spans(), lines.units())
}

/// What lines tell of a file: how many its unit has, and its listed sum.
pub fn told_file(lines: &Lines, unit: u64, file: u64) -> (u64, Option<[u8; 16]>) {
    (lines.file_count(unit), lines.listed(unit, file))
}

/// The spans of the canonical table, of each version.
pub fn canonical_spans(lines: &Lines, alloc: Global, is_wide: bool) -> Result<Vec<Span>, Stop> {
    let version = if is_wide { Version::Two } else { Version::One };
    lines.canonical(alloc, version)
}

/// Each version.
pub fn version_number(version: Version) -> u8 {
    match version {
        Version::One => 1,
        Version::Two => 2,
    }
}

/// The path of a file.
pub fn path_in(
    lines: &Lines,
    alloc: Global,
    unit: u64,
    file: u64,
) -> Result<Option<Vec<u8>>, Stop> {
    lines.path_of(alloc, unit, file)
}

/// The law of canonical tables.
pub fn laws() {
    lnt_lines::laws::one_canonical();
}
