//! Compares a table by path with the spans of a section, record by record.
ghost use Rattle.std.specs.Prelude.{◌≡◌, List, IfOk, MatchBool, OnOk};
ghost use Rattle.lnt_spans.specs.declared.span.Span as spec;
ghost use Rattle.lnt_spans.specs.Merged.{end_of_records};
ghost use Rattle.lnt_spans.specs.Spans.{AreInOrder};
ghost use Rattle.lnt_compare.specs.Outcomes.{IsPathOutcome};
ghost use Rattle.lnt_compare.specs.Passing.{IsRemembered};
ghost use Rattle.lnt_compare.specs.PathStretches.{stretch_of};
ghost use Rattle.lnt_compare.specs.Progress.{Comes, HasPushed};
ghost use Rattle.lnt_records.specs.PathSpans.{path_answer, spans_by_path, whole};
ghost use Rattle.lnt_records.specs.PathTables.{record_answer};

use crate::comparison::{Comparison, compare_after};
use crate::lines::TakesLines;
use crate::outcome::{Outcome, TableRead};
use crate::path_tables::answer::DifferenceByPath;
use crate::path_tables::telling::{PathMemory, PathTelling};
use csv::ByteRecord;
use lnt_records::{
    PathRecord, PathVersion, Paths, TableFault, TakeFault, TakesRecords, first_record, header_of,
    record_of,
};
use lnt_spans::{Position, Scope, SpanSource};
use std::alloc::{AllocError, Global};
use std::marker::PhantomData;

/// Compares the table by path in these bytes with the spans of a section, which come from a source, at the positions of this scope.
///
/// The records are read one by one, as `csv` reads them, and none is kept. `Table`: the bytes are a table by path, and this is what
/// it is judged to be, with paths, in the fields of its version: paths are compared byte for byte. `Fault`:
/// the bytes are not such a table. The first faulty record is reported, even if answers differed before it.
///
/// No list of the spans is made, and a path is made again only after another file took its slot in a cache. The caller makes
/// sure that the spans are in order and none is empty. Fails only if memory runs out.
pub fn compare_by_path<S: SpanSource + Drop, P: Paths>(
    alloc: Global,
    table: &[u8],
    spans: S,
    paths: &P,
    scope: Scope,
) -> Result<Outcome<DifferenceByPath>, AllocError>
    ensures { IfOk result (λ outcome. (list : List spec.Span) → S.to_come spans list → AreInOrder list
        → IsPathOutcome scope table.now (λ version. spans_by_path version (P.bytes_of paths.now) list) outcome) }
{
    let Some(version) = header_of::<PathVersion>(alloc, table)? else {
        return Ok(TableRead::Fault(TableFault::Header));
    };
    let memory = PathMemory::new(alloc)?;
    let comparison = Comparison::past(memory, spans, whole(0), 0);
    let telling = PathTelling {
        alloc,
        paths,
        version,
        held: PhantomData,
    };
    compare_after(alloc, table, &telling, comparison, 1, scope)
}

// The state of a comparison with a table by path.
pub(crate) type PathComparison<S> = Comparison<S, DifferenceByPath, PathMemory>;

impl<'p, 'r, S: SpanSource + Drop, P: Paths> TakesRecords<PathComparison<S>>
    for PathTelling<'p, 'r, P> {
    ghost use Rattle.lnt_compare.specs.Outcomes.{tables_by_path};
    ghost use Rattle.lnt_compare.specs.Progress.{Judges};
    ghost use Rattle.lnt_compare.specs.Passing.{IsRemembered};
    ghost use Rattle.lnt_records.specs.PathSpans.{path_answer};
    ghost use Rattle.lnt_records.specs.Faults.{IsPathFault};

    ghost is_right = { λ s comparison. IsRemembered (P.bytes_of s.paths.now) comparison.memory };

    ghost judges = { λ s comparison section records.
        Judges S.to_come tables_by_path (path_answer s.version (P.bytes_of s.paths.now)) s.version comparison section records };

    ghost is_fault = { λ s bytes fault. IsPathFault bytes fault };

    fn take(&self, comparison: &mut PathComparison<S>, row: &ByteRecord) -> Result<(), TakeFault> {
        let said = record_of(row, self.version)?;
        if !push(self, comparison, said)? {
            return Err(TakeFault::Order);
        }
        Ok(())
    }
}

impl<'p, 'r, S: SpanSource + Drop, P: Paths> TakesLines<PathComparison<S>>
    for PathTelling<'p, 'r, P> {
    fn take_line(
        &self,
        comparison: &mut PathComparison<S>,
        last: &mut Vec<u8>,
        text: &[u8],
    ) -> Result<Option<usize>, AllocError> {
        let Some((said, length)) = first_record(text, self.version, last.as_slice()) else {
            return Ok(None);
        };
        if !push(self, comparison, said)? {
            return Ok(None);
        }
        if said.answer.path != last.as_slice() {
            last.clear();
            last.extend_from_slice(said.answer.path)?;
        }
        Ok(Some(length))
    }
}

// Compares one more record, if it isn't empty, and doesn't begin below the end of the one before it.
#[inline(always)]
fn push<S: SpanSource + Drop, P: Paths>(
    telling: &PathTelling<'_, '_, P>,
    comparison: &mut PathComparison<S>,
    said: PathRecord<'_>,
) -> Result<bool, AllocError>
    requires sound { IsRemembered (P.bytes_of telling.now.paths.now) comparison.old.memory }
    ensures sound { OnOk result (IsRemembered (P.bytes_of telling.now.paths.now) comparison.new.memory) }
    ensures pushed { IfOk result (λ pushed. MatchBool pushed
        (HasPushed S.to_come (path_answer telling.now.version (P.bytes_of telling.now.paths.now)) stretch_of comparison.old comparison.new
        (whole said.entry.low) (whole said.entry.high) (record_answer said.entry))
        ((comparison.new ≡ comparison.old)
        × (Comes (end_of_records comparison.old.merge) (whole said.entry.low) (whole said.entry.high) → ⊥))) }
{
    let telling = PathTelling {
        alloc: telling.alloc,
        paths: telling.paths,
        version: telling.version,
        held: PhantomData,
    };
    comparison.push(&telling, whole(said.low), whole(said.high), said.answer)
}

// The position of a whole instruction.
pub(crate) fn whole(address: u64) -> Position
    ensures { result ≡ whole address }
{
    Position { address, op: 0 }
}
