//! Reads a table by path and holds its spans.
ghost use Rattle.std.specs.Prelude.{◌≡◌, map, IfOk};
ghost use Rattle.lnt_records.specs.PathSpans.{path_end};
ghost use Rattle.lnt_compare.specs.Held.{HoldsInOrder, IsHeld, held_span};

use crate::comparison::comes;
use crate::outcome::TableRead;
use crate::path_tables::answer::AnswerByPath;
use crate::path_tables::comparison::whole;
use crate::path_tables::telling::said_of;
use csv::ByteRecord;
use lnt_records::{
    PathVersion, TableFault, TakeFault, TakesRecords, header_of, record_of, take_records,
};
use lnt_spans::Position;
use std::alloc::{AllocError, Global};

/// A span of a table by path, held in memory with its answer.
#[derive(Drop)]
pub struct HeldSpan {
    // the address where it begins
    pub(crate) low: u64,
    // the first address after it
    pub(crate) high: u64,
    pub(crate) answer: AnswerByPath,
}

/// What the bytes of a table by path are: one of this version with these spans, in order.
pub type HeldTable = TableRead<(PathVersion, Vec<HeldSpan>)>;

/// Reads the table by path in these bytes, and holds its spans with the paths of their files.
///
/// `Table`: the bytes are a table by path of that version, and these are all of its spans. `Fault`: the bytes are not such a
/// table; the first faulty record is reported, as `compare_by_path` reports it. All records are read by `csv`. The spans
/// held are in order. Fails only if memory runs out; then nothing is held.
pub fn hold_table(alloc: Global, table: &[u8]) -> Result<HeldTable, AllocError>
    ensures held { IfOk result (λ held. IsHeld table.now held) }
    ensures in_order { IfOk result HoldsInOrder }
{
    let Some(version) = header_of::<PathVersion>(alloc, table)? else {
        return Ok(TableRead::Fault(TableFault::Header));
    };
    let mut spans = Vec::new(alloc);
    let holder = Holder { alloc, version };
    match take_records(alloc, table, &holder, &mut spans, 1)? {
        Some(fault) => Ok(TableRead::Fault(fault)),
        None => Ok(TableRead::Table((version, spans))),
    }
}

// How the records of a table by path are held: those of this version.
#[derive(Drop)]
struct Holder {
    alloc: Global,
    version: PathVersion,
}

impl TakesRecords<Vec<HeldSpan>> for Holder {
    ghost use Rattle.std.specs.Prelude.{map};
    ghost use Rattle.lnt_compare.specs.Held.{held_span};
    ghost use Rattle.lnt_records.specs.Faults.{IsPathFault};
    ghost use Rattle.lnt_records.specs.PathTables.{IsPathTable};

    ghost is_right = { λ holder spans. Unit {0} };

    ghost judges = { λ holder spans section records. IsPathTable holder.version records (map held_span spans.items) };

    ghost is_fault = { λ holder bytes fault. IsPathFault bytes fault };

    fn take(&self, spans: &mut Vec<HeldSpan>, row: &ByteRecord) -> Result<(), TakeFault> {
        let said = record_of(row, self.version)?;
        if !comes(end_of(spans), whole(said.low), whole(said.high)) {
            return Err(TakeFault::Order);
        }
        let answer = said_of(self.alloc, said.answer)?;
        spans.push(HeldSpan {
            low: said.low,
            high: said.high,
            answer,
        })?;
        Ok(())
    }
}

// Where the last span ends.
fn end_of(spans: &[HeldSpan]) -> Position
    ensures { result ≡ path_end (map held_span spans.now) }
{
    match spans.last() {
        Some(last) => whole(last.high),
        None => whole(0),
    }
}
