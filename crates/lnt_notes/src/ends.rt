//! The positions at which sequences of a section begin and end.
ghost use Rattle.std.specs.Prelude.{◌-◌, ◌^◌, ◌<◌};

use lnt_io::Source;
use lnt_machine::{Row, Rows};
use lnt_sequences::SeqId;
use lnt_spans::Position;
use lnt_unit::{SectionReader, UnitBuffer, UnitInPlace};
use lnt_wire::Order;
use std::alloc::Global;

// The positions of the first row and of the end row of a sequence.
#[derive(Clone, Copy, PartialEq, Eq)]
struct Ends {
    first: Position,
    last: Position,
}

impl Ends {
    fn hold(&self, position: Position) -> bool {
        self.first <= position && position < self.last
    }
}

// The first row of the sequence that is read, if one was.
#[derive(Clone, Copy)]
struct Current(Option<Position>);

impl Current {
    // Adds a row. It gives the ends of the sequence, if the row ends it.
    fn ended_by(&mut self, row: &Row) -> Option<Ends> {
        let last = Position {
            address: row.address,
            op: row.op_index,
        };
        let first = self.0.unwrap_or(last);
        self.0 = (!row.end_sequence).then_some(first);
        row.end_sequence.then_some(Ends { first, last })
    }
}

// Whether two sequences of the section from the source begin and end at the same positions. `None` if one of them isn't
// found, or the section can't be read that far.
pub(crate) fn end_alike<R: Source>(
    alloc: Global,
    source: &mut R,
    order: Order,
    one: SeqId,
    other: SeqId,
) -> Option<bool>
    requires { R.failures source.old < 2 ^ 64 - 1 }
{
    let mut of_one = None;
    let mut of_other = None;
    let mut reader = SectionReader::new(source, order);
    let mut room = Vec::new(alloc);
    while let Some(buffer) = reader.next_unit_in(room).ok()? {
        if buffer.offset() == one.unit {
            of_one = ends_in(alloc, &buffer, one.index);
        }
        if buffer.offset() == other.unit {
            of_other = ends_in(alloc, &buffer, other.index);
        }
        if let (Some(one), Some(other)) = (of_one, of_other) {
            return Some(one == other);
        }
        room = buffer.into_bytes();
    }
    None
}

// The ends of the sequence with this index in the unit of the buffer. `None` if the buffer has no valid unit, the unit has fewer
// sequences, or its program doesn't run that far.
fn ends_in(alloc: Global, buffer: &UnitBuffer, index: u64) -> Option<Ends> {
    let unit = UnitInPlace::over(alloc, buffer).ok()?;
    let mut ended: u64 = 0;
    let mut current = Current(None);
    for row in Rows::new(unit.numbers(), unit.ops()) {
        let Some(ends) = current.ended_by(&row.ok()?) else {
            continue;
        };
        if ended == index {
            return Some(ends);
        }
        ended = ended.saturating_add(1);
    }
    None
}

// Whether several sequences of the section from the source hold a position and don't begin at the address `dead`. `None` if fewer are
// found and the section can't be read whole, or a program doesn't run.
pub(crate) fn held_by_several<R: Source>(
    alloc: Global,
    source: &mut R,
    order: Order,
    dead: Option<u64>,
    position: Position,
) -> Option<bool>
    requires { R.failures source.old < 2 ^ 64 - 1 }
{
    let mut count: u64 = 0;
    let mut reader = SectionReader::new(source, order);
    let mut room = Vec::new(alloc);
    while let Some(buffer) = reader.next_unit_in(room).ok()? {
        count = count.saturating_add(holding(alloc, &buffer, dead, position)?);
        if count > 1 {
            return Some(true);
        }
        room = buffer.into_bytes();
    }
    Some(false)
}

// How many of them are in the unit of the buffer. `None` if the buffer has no valid unit, or its program doesn't run.
fn holding(
    alloc: Global,
    buffer: &UnitBuffer,
    dead: Option<u64>,
    position: Position,
) -> Option<u64> {
    let unit = UnitInPlace::over(alloc, buffer).ok()?;
    let mut count: u64 = 0;
    let mut current = Current(None);
    for row in Rows::new(unit.numbers(), unit.ops()) {
        let Some(ends) = current.ended_by(&row.ok()?) else {
            continue;
        };
        if dead != Some(ends.first.address) && ends.hold(position) {
            count = count.saturating_add(1);
        }
    }
    Some(count)
}
