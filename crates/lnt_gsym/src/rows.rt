//! Judges the rows of line tables.
ghost use Rattle.std.specs.Prelude.{◌≡◌, ◌<◌, ◌^◌, ◌+◌, ◌≤ℤ◌, ℕ, suc, None, Some, Ok, Err, length, MatchResult, IfOk, IfErr, IfSome};
ghost use Rattle.lnt_gsym.specs.GsymInfos.{operation, row_reason, rows_of};
ghost use Rattle.lnt_gsym.specs.GsymFields.{fault_of};
ghost use Rattle.lnt_gsym.specs.Reading.{moved, running, then_running};

use crate::fault::{GsymFault, GsymReason};
use crate::line_table::{LineNumbers, Operation, Row};
use crate::operation::{line_numbers, operation};
use lnt_wire::Cursor;

/// Judges a line table, which the cursor stands before: that of a function with this start, in a file with so many files.
///
/// Fails with its first fault, field by field. The caller ensures that the start is below 2^65: it is the sum of a base and an offset.
#[tactic(auto, using(crate::proofs::RowLemmas::judged, crate::proofs::RowLemmas::head_refused))]
pub fn judge_rows(cursor: &mut Cursor<'_>, files: u32, start: u128) -> Result<(), GsymFault>
    requires { start < 2 ^ 65 }
    ensures { MatchResult result (λ _. fault_of (rows_of files start cursor.old) ≡ None)
        (λ fault. fault_of (rows_of files start cursor.old) ≡ Some fault) }
{
    let numbers = line_numbers(cursor)?;
    let row = Row {
        address: start,
        file: 1,
        line: (numbers.first % (1 << 32)) as u32,
    };
    judge_operations(cursor, files, numbers, row)
}

// The first fault of operations after those that led to a row.
#[tactic(auto, using(crate::proofs::RowLemmas::none_run, crate::proofs::RowLemmas::one_run, crate::proofs::RowLemmas::run_ends))]
fn judge_operations(
    cursor: &mut Cursor<'_>,
    files: u32,
    numbers: LineNumbers,
    first: Row,
) -> Result<(), GsymFault>
    requires range { numbers.least ≤ℤ numbers.greatest }
    requires start { first.address < 2 ^ 65 }
    ensures { MatchResult result (λ _. running (suc (length cursor.old.rest)) files numbers first cursor.old ≡ None)
        (λ fault. running (suc (length cursor.old.rest)) files numbers first cursor.old ≡ Some fault) }
{
    let mut row = first;
    loop {
        match step(cursor, files, numbers, row)? {
            Some(next) => row = next,
            None => return Ok(()),
        }
    }
}

// The row after the next operation, or `None` after the end.
#[inline(always)]
fn step(
    cursor: &mut Cursor<'_>,
    files: u32,
    numbers: LineNumbers,
    row: Row,
) -> Result<Option<Row>, GsymFault>
    requires range { numbers.least ≤ℤ numbers.greatest }
    requires start { row.address < 2 ^ 65 }
    ensures step { IfOk result (λ next. (room : ℕ)
        → running (suc room) files numbers row cursor.old ≡ then_running room files numbers next cursor.new) }
    ensures fault { IfErr result (λ fault. (room : ℕ) → running (suc room) files numbers row cursor.old ≡ Some fault) }
    ensures smaller { IfOk result (λ next. length cursor.new.rest < length cursor.old.rest) }
    ensures start { IfOk result (λ next. IfSome next (λ row. row.address < 2 ^ 65)) }
{
    let place = cursor.place();
    let Some(done) = operation(cursor, numbers)? else {
        return Ok(None);
    };
    let next = moved(row, done);
    if done.makes_row {
        if let Some(reason) = row_reason(files, next) {
            return Err(GsymFault { place, reason });
        }
    }
    Ok(Some(next))
}

/// The row after an operation.
#[inline(always)]
pub(crate) fn moved(row: Row, done: Operation) -> Row
    requires { row.address < 2 ^ 65 }
    ensures { result ≡ moved row done }
{
    Row {
        address: row.address + u128::from(done.advance),
        file: done.file.unwrap_or(row.file),
        line: row.line.wrapping_add(done.change),
    }
}

// Why a row may not be made, if there are so many files.
#[inline(always)]
fn row_reason(files: u32, row: Row) -> Option<GsymReason>
    ensures { result ≡ row_reason files row }
{
    if row.address >= 1 << 64 {
        return Some(GsymReason::NumberTooLarge);
    }
    if row.file != 0 && row.file >= files {
        return Some(GsymReason::NoFile(row.file));
    }
    None
}
