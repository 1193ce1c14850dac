//! Reads the operations of line tables.
ghost use Rattle.std.specs.Prelude.{◌≡◌, ◌≤◌, ◌<◌, ◌/◌, ◌%◌, ◌-◌, ◌+◌, ◌^◌, ◌≤ℤ◌, None};
ghost use Rattle.std.specs.Prelude.{Some, true, false, Ok, Err, length, MatchResult, OnOk, IfOk, IfSome};
ghost use Rattle.lnt_gsym.specs.GsymInfos.{added, line_numbers, operation, range_of, special};

use crate::fault::{GsymFault, GsymReason};
use crate::fields::{byte, file_number, signed, unsigned};
use crate::line_table::{LineNumbers, Operation};
use lnt_wire::Cursor;

// An operation without effect.
const NOTHING: Operation = Operation {
    advance: 0,
    change: 0,
    file: None,
    makes_row: false,
};

/// The head of a line table.
pub(crate) fn line_numbers(cursor: &mut Cursor<'_>) -> Result<LineNumbers, GsymFault>
    ensures read { MatchResult result (λ n. line_numbers cursor.old ≡ Ok (n, cursor.new)) (λ fault. line_numbers cursor.old ≡ Err fault) }
    ensures range { IfOk result (λ n. n.least ≤ℤ n.greatest) }
    ensures no_longer { OnOk result (length cursor.new.rest ≤ length cursor.old.rest) }
{
    let least = signed(cursor)?;
    let place = cursor.place();
    let greatest = signed(cursor)?;
    if greatest < least {
        return Err(GsymFault {
            place,
            reason: GsymReason::LineRange,
        });
    }
    let first = unsigned(cursor)?;
    Ok(LineNumbers {
        least,
        greatest,
        first,
    })
}

/// The next operation, or `None` if it is the end.
#[inline(always)]
pub(crate) fn operation(
    cursor: &mut Cursor<'_>,
    numbers: LineNumbers,
) -> Result<Option<Operation>, GsymFault>
    requires { numbers.least ≤ℤ numbers.greatest }
    ensures read { MatchResult result (λ done. operation numbers cursor.old ≡ Ok (done, cursor.new))
        (λ fault. operation numbers cursor.old ≡ Err fault) }
    ensures still { IfOk result (λ done. IfSome done (λ done. done.makes_row ≡ false → done.advance ≡ 0)) }
    ensures smaller { OnOk result (length cursor.new.rest < length cursor.old.rest) }
{
    let code = byte(cursor)?;
    match code {
        0 => Ok(None),
        1 => Ok(Some(Operation {
            file: Some(file_number(cursor)?),
            ..NOTHING
        })),
        2 => Ok(Some(Operation {
            advance: unsigned(cursor)?,
            makes_row: true,
            ..NOTHING
        })),
        3 => Ok(Some(Operation {
            change: added(signed(cursor)?),
            ..NOTHING
        })),
        _ => Ok(Some(special(numbers, code))),
    }
}

// What a change adds to the line, modulo 2^32.
#[inline(always)]
fn added(change: i64) -> u32
    ensures { result ≡ added change }
{
    (change.cast_unsigned() % (1 << 32)) as u32
}

// A special operation: it adds to both, and makes a row.
#[inline(always)]
fn special(numbers: LineNumbers, code: u8) -> Operation
    requires at_least { 4 ≤ code }
    requires range { numbers.least ≤ℤ numbers.greatest }
    ensures { result ≡ special numbers code }
{
    let (advance, above) = parts(numbers, code - 4);
    Operation {
        advance: u64::from(advance),
        change: added(numbers.least).wrapping_add(u32::from(above)),
        file: None,
        makes_row: true,
    }
}

// The number of a special operation, divided by the number of changes: the advance, and the change above the least.
#[inline(always)]
#[tactic(auto, using(crate::proofs::OperationLemmas::few_advance, crate::proofs::OperationLemmas::few_above))]
fn parts(numbers: LineNumbers, number: u8) -> (u8, u8)
    requires { numbers.least ≤ℤ numbers.greatest }
    ensures advance { result.0 ≡ number / range_of numbers }
    ensures above { result.1 ≡ number % range_of numbers }
{
    let last = span_of(numbers);
    if u64::from(number) <= last {
        return (0, number);
    }
    let range = last as u8 + 1;
    (number / range, number % range)
}

// The greatest change less the least.
#[inline(always)]
fn span_of(numbers: LineNumbers) -> u64
    requires { numbers.least ≤ℤ numbers.greatest }
    ensures { result + 1 ≡ range_of numbers }
{
    numbers.greatest.abs_diff(numbers.least)
}
