//! Gathers the spans of a table's records, to compare them at every position.
ghost use Rattle.std.specs.Prelude.{◌≡◌, ℕ, List, [], ◌∷◌, length, IfOk};
ghost use Rattle.lnt_spans.specs.declared.span.Span.{Span};
ghost use Rattle.lnt_spans.specs.Spans.{end_of};
ghost use Rattle.lnt_compare.specs.Progress.{IsGathered};
ghost use Rattle.lnt_records.specs.Progress.{IsCutAfter};
ghost use Rattle.lnt_records.specs.Table.{BeginsWith, Fields, IsTable, column_names};

use crate::comparison::comes;
use crate::outcome::TableRead;
use csv::ByteRecord;
use lnt_records::{TakeFault, TakesRecords, span_of, take_records};
use lnt_spans::{Position, Span, Version};
use std::alloc::{AllocError, Global};

// Gathers the spans of the rest of a table. `text` is the table's header with the records after it, without those that were passed
// before: they end at `at`, and the next one has this number.
pub(crate) fn gather_after(
    alloc: Global,
    text: &[u8],
    version: Version,
    at: Position,
    number: u64,
) -> Result<TableRead<Vec<Span>>, AllocError>
    requires { BeginsWith text.now (column_names version ∷ []) }
    ensures { IfOk result (λ gathered. (table : List Span) (passed : List Fields) (bytes : List ℕ) → IsTable version passed table
        → at ≡ end_of table → number ≡ length passed → IsCutAfter (column_names version) text.now bytes passed
        → IsGathered bytes version table gathered) }
{
    let mut gathering = Gathering {
        spans: Vec::new(alloc),
        at,
    };
    match take_records(alloc, text, &version, &mut gathering, number)? {
        Some(fault) => Ok(TableRead::Fault(fault)),
        None => Ok(TableRead::Table(gathering.spans)),
    }
}

// The spans of the records that were taken.
#[derive(Drop)]
pub(crate) struct Gathering {
    spans: Vec<Span>,
    // the end of the last record
    at: Position,
}

impl TakesRecords<Gathering> for Version {
    ghost use Rattle.lnt_records.specs.Faults.{IsFault};
    ghost use Rattle.lnt_compare.specs.Progress.{Gathers};

    ghost is_right = { λ version gathering. Unit {0} };

    ghost judges = { λ version gathering before records. Gathers version gathering before records };

    ghost is_fault = { λ version bytes fault. IsFault bytes fault };

    fn take(&self, gathering: &mut Gathering, row: &ByteRecord) -> Result<(), TakeFault> {
        let span = span_of(row, *self)?;
        if !comes(gathering.at, span.low, span.high) {
            return Err(TakeFault::Order);
        }
        gathering.spans.push(span)?;
        gathering.at = span.high;
        Ok(())
    }
}
