//! Takes the records of a table one after another, as `csv` reads them.
ghost use Rattle.std.specs.Prelude.{◌≡◌, ◌+◌, ◌^◌, ◌≤◌, ◌++◌, ◌∷◌, ℕ, List, [], Some, length, IfOk, MatchOption, OnErr};
ghost use Rattle.csv.specs.Records.{fields_of};
ghost use Rattle.lnt_spans.specs.declared.span.Span.{Span};
ghost use Rattle.lnt_records.specs.Progress.{IsCutAfter, numbered_fault};
ghost use Rattle.lnt_records.specs.Reading.{IsNarrow, IsReadAs};
ghost use Rattle.lnt_records.specs.Table.{BeginsWith, Fields, RecordsOf};

use crate::fault::TableFault;
use crate::record::RecordFault;
use crate::wide::up_to_wide;
use csv::ByteRecord;
use lnt_csv::{read_next, reader_of};
use std::alloc::{AllocError, AllocFailed, Global};

/// Why a record wasn't taken.
#[derive(Clone, Copy, Debug, PartialEq, Eq)]
pub enum TakeFault {
    /// Memory ran out.
    Memory,
    /// The record isn't one of a table.
    Record(RecordFault),
    /// Its span is empty, or begins below the end of the span before it.
    Order,
}

impl TakeFault {
    // The fault of a table, if the record has this number. Fails only if memory ran out.
    fn at(self, number: u64) -> Result<TableFault, AllocError>
        ensures fault { IfOk result (λ fault. numbered_fault number self ≡ Some fault) }
        ensures memory { OnErr result (self ≡ TakeFault.Memory) }
    {
        match self {
            TakeFault::Memory => Err(AllocError),
            TakeFault::Record(fault) => Ok(fault.at(number)),
            TakeFault::Order => Ok(TableFault::Order(number)),
        }
    }
}

impl From<RecordFault> for TakeFault {
    ghost use Rattle.lnt_records.specs.declared.taking.TakeFault.TheVariants.{Record};

    ghost from_gives = { λ fault told. told ≡ Record fault };

    fn from(fault: RecordFault) -> TakeFault {
        TakeFault::Record(fault)
    }
}

impl From<AllocError> for TakeFault {
    ghost use Rattle.lnt_records.specs.declared.taking.TakeFault.TheVariants.{Memory};

    ghost from_gives = { λ _ told. told ≡ Memory };

    fn from(_error: AllocError) -> TakeFault {
        TakeFault::Memory
    }
}

impl<T: Drop> From<AllocFailed<T>> for TakeFault {
    ghost use Rattle.lnt_records.specs.declared.taking.TakeFault.TheVariants.{Memory};

    ghost from_gives = { λ _ told. told ≡ Memory };

    fn from(_error: AllocFailed<T>) -> TakeFault {
        TakeFault::Memory
    }
}

/// Takes the records of a table one after another. `C` is the state after those that were taken so far.
///
/// Contracts see it by three ghost members: `is_right`, whether what a state remembers is right; `judges`, what is known of a state and
/// some spans after these records; and `is_fault`, whether this is the first fault of these bytes.
pub trait TakesRecords<C> {
    ghost use Rattle.std.specs.Prelude.{◌++◌, ◌∷◌, ℕ, List, [], length, IfSome, OnOk, MatchResult};
    ghost use Rattle.csv.specs.Records.{fields_of};
    ghost use Rattle.lnt_spans.specs.declared.span.Span.{Span};
    ghost use Rattle.lnt_records.specs.declared.fault.TableFault.{TableFault as SpecFault};
    ghost use Rattle.lnt_records.specs.Progress.{numbered_fault};
    ghost use Rattle.lnt_records.specs.Reading.{IsNarrow, IsReadAs};
    ghost use Rattle.lnt_records.specs.Table.{BeginsWith, Fields};

    ghost is_right: { Self → C → Type 0 };

    ghost judges: { Self → C → List Span → List Fields → Type 0 };

    ghost is_fault: { Self → List ℕ → SpecFault → Type 0 };

    /// Takes one more record. A fault other than want of memory, told with the number of the record, is the first of all bytes that
    /// begin with the records so far and this one.
    fn take(&self, state: &mut C, row: &ByteRecord) -> Result<(), TakeFault>
        requires { is_right self.now state.old }
        ensures right { OnOk result (is_right self.now state.new) }
        ensures narrow { OnOk result (IsNarrow (fields_of row.now)) }
        ensures taken { (spans : List Span) (records : List Fields) → judges self.now state.old spans records
            → MatchResult result (λ _. judges self.now state.new spans (records ++ fields_of row.now ∷ []))
            (λ fault. (whole : Fields) (bytes : List ℕ) → IsReadAs (fields_of row.now) whole → BeginsWith bytes (records ++ whole ∷ [])
            → IfSome (numbered_fault (length records) fault) (is_fault self.now bytes)) };
}

/// The number of the next record. A number of more than 64 bits counts as one for which there is no memory: no table is that long.
#[inline(always)]
pub fn next_number(number: u64) -> Result<u64, AllocError>
    ensures next { IfOk result (λ next. next ≡ number + 1) }
    ensures large { OnErr result (2 ^ 64 ≤ number + 1) }
{
    number.checked_add(1).ok_or(AllocError)
}

/// Takes the records of a text after its first one, up to the first that is faulty, whose fault it gives. The first one taken has this
/// number. No record with more fields than any table has columns is held whole.
///
/// The bytes of the table may have other records in place of the text's first one: those that were taken before. The caller makes sure
/// that the text has a first record, with no more fields than that. Fails only if memory runs out. Not inlined: a reader of records is
/// large, the stack is short, and no caller should hold it.
#[inline(never)]
pub fn take_records<C, T: TakesRecords<C>>(
    alloc: Global,
    text: &[u8],
    taker: &T,
    state: &mut C,
    mut number: u64,
) -> Result<Option<TableFault>, AllocError>
    requires first { (first : Fields) × IsNarrow first × BeginsWith text.now (first ∷ []) }
    requires right { T.is_right taker.now state.old }
    ensures { IfOk result (λ found. (first : Fields) (spans : List Span) (passed : List Fields) (bytes : List ℕ) → IsNarrow first
        → BeginsWith text.now (first ∷ []) → IsCutAfter first text.now bytes passed → T.judges taker.now state.old spans passed
        → number ≡ length passed
        → MatchOption found ((more : List Fields) × RecordsOf bytes (passed ++ more) × T.judges taker.now state.new spans (passed ++ more))
        (λ fault. T.is_fault taker.now bytes fault)) }
{
    let prefix = up_to_wide(alloc, text)?;
    let mut reader = reader_of(alloc, prefix);
    let mut row = ByteRecord::new(alloc);
    read_next(&mut reader, &mut row)?;
    while read_next(&mut reader, &mut row)? {
        if let Err(fault) = taker.take(state, &row) {
            return Ok(Some(fault.at(number)?));
        }
        number = next_number(number)?;
    }
    Ok(None)
}
