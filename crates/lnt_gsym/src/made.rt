//! The rows of a judged line table, one after another.
ghost use Rattle.std.specs.Prelude.{◌≡◌, ◌+◌, ◌<◌, ◌≤◌, ◌^◌, ◌≤ℤ◌, ℕ, List, Ok, length, IfSome, MatchOption};
ghost use Rattle.lnt_gsym.specs.declared.line_table.Row as spec;
ghost use Rattle.lnt_gsym.specs.GsymInfos.{rows_of};
ghost use Rattle.lnt_gsym.specs.Reading.{bytes_said};
ghost use Rattle.lnt_gsym.specs.Walking.{AreLeft, HasRows, LeftBy, TakesRow, begins_by, count_left};

use crate::line_table::{LineNumbers, Row};
use crate::operation::{line_numbers, operation};
use crate::part::{InfoPart, bytes_of};
use crate::rows::moved;
use lnt_wire::{Cursor, Order};
use std::marker::Model;

/// The rows of a line table that aren't taken yet: the next one, and the operations after it. The line table must have no fault.
#[derive(Drop)]
pub(crate) struct MadeRows<'a> {
    cursor: Cursor<'a>,
    numbers: LineNumbers,
    row: Option<Row>,
}

impl<'a> Model for MadeRows<'a> {
    ghost use Rattle.std.specs.Prelude.{◌<◌, ◌^◌, ◌≤ℤ◌, IfSome};
    ghost use Rattle.lnt_gsym.specs.Walking.{MadeSaid};

    ghost Value = { MadeSaid };

    ghost view = { λ m. record { at = m.cursor; numbers = m.numbers; row = m.row } };

    ghost invariant = { λ m. (m.numbers.least ≤ℤ m.numbers.greatest) × IfSome m.row (λ row. row.address < 2 ^ 64) };
}

impl<'a> MadeRows<'a> {
    ghost use Rattle.std.specs.Prelude.{◌≡◌, [], None, true};

    /// No rows.
    pub(crate) fn none() -> MadeRows<'a>
        ensures { result.row ≡ None }
    {
        MadeRows {
            cursor: Cursor::new(&[], 0, Order::Little),
            numbers: LineNumbers {
                least: 0,
                greatest: 0,
                first: 0,
            },
            row: None,
        }
    }

    /// The rows of the line table that a part is, of a function with this start. `None` if it has a fault that a row comes after.
    #[tactic(auto, using(crate::proofs::MadeLemmas::table_rows, crate::proofs::MadeLemmas::head_faulty, crate::proofs::MadeLemmas::few_left))]
    pub(crate) fn of(part: InfoPart<'a>, start: u128) -> Option<MadeRows<'a>>
        requires start { start < 2 ^ 65 }
        requires room { part.place + length part.bytes.now < 2 ^ 64 }
        ensures made { (files : ℕ) (rows : List spec.Row) → rows_of files start (bytes_said part.entry) ≡ Ok rows
            → MatchOption result ⊥ (λ made. AreLeft files made rows) }
        ensures bound { IfSome result (λ made. count_left made ≤ 2 ^ 64) }
    {
        let mut cursor = bytes_of(part);
        let numbers = match line_numbers(&mut cursor) {
            Ok(numbers) => numbers,
            Err(_) => return None,
        };
        let first = Row {
            address: start,
            file: 1,
            line: (numbers.first % (1 << 32)) as u32,
        };
        let row = next_made(&mut cursor, numbers, first);
        Some(MadeRows {
            cursor,
            numbers,
            row,
        })
    }

    /// Takes the next row.
    #[inline(always)]
    pub(crate) fn take(&mut self) -> Option<Row>
        ensures takes { (files : ℕ) (rows : List spec.Row) → AreLeft files self.old rows → TakesRow files self.new rows result }
        ensures fewer { IfSome result (λ _. count_left self.new < count_left self.old) }
        ensures small { IfSome result (λ row. row.address < 2 ^ 64) }
    {
        let row = self.row?;
        self.row = next_made(&mut self.cursor, self.numbers, row);
        Some(row)
    }

    /// Where the next row begins, at most at `high`.
    #[inline(always)]
    pub(crate) fn begins(&self, high: u64) -> u64
        ensures { result ≡ begins_by high self.now.row }
    {
        match self.row {
            Some(row) if row.address < u128::from(high) => row.address as u64,
            _ => high,
        }
    }
}

// The next row that is made after this one, or after the start.
#[tactic(auto, using(crate::proofs::MadeLemmas::none_passed, crate::proofs::MadeLemmas::one_passed, crate::proofs::MadeLemmas::one_made, crate::proofs::MadeLemmas::none_made))]
fn next_made(cursor: &mut Cursor<'_>, numbers: LineNumbers, last: Row) -> Option<Row>
    requires range { numbers.least ≤ℤ numbers.greatest }
    requires start { last.address < 2 ^ 65 }
    ensures gives { (files : ℕ) (rows : List spec.Row) → HasRows files numbers last cursor.old rows
        → LeftBy files numbers cursor.new result rows }
    ensures fewer { IfSome result (λ _. length cursor.new.rest < length cursor.old.rest) }
    ensures small { IfSome result (λ row. row.address < 2 ^ 64) }
{
    let mut row = last;
    loop {
        let done = match operation(cursor, numbers) {
            Ok(Some(done)) => done,
            Ok(None) => return None,
            Err(_) => return None,
        };
        row = moved(row, done);
        if done.makes_row {
            if row.address < 1 << 64 {
                return Some(row);
            }
            return None;
        }
    }
}
