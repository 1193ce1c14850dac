//! The rows of one sequence, from its first operation on.
ghost use Rattle.std.specs.Prelude.{◌≡◌, ◌<◌, ◌≤◌, List, length, reverse, false, Some, None, IfSome, IsTrue};
ghost use Rattle.std.specs.Prelude.{if◌then◌else◌};
ghost use Rattle.std.specs.Iterator.{at_most};
ghost use Rattle.lnt_header.specs.declared.numbers.NumberParts.{NumberParts};
ghost use Rattle.lnt_header.specs.declared.op.Op.{Op};
ghost use Rattle.lnt_machine.specs.Matrix.{rows_after};
ghost use Rattle.lnt_machine.specs.Running.{first_sequence};
ghost use Rattle.lnt_machine.specs.Walking.{ComesShort, GivesRow, HasRows, IsSequencePlace, WillGive};
ghost use Rattle.lnt_machine.specs.Stepping.{ComesNext, GivesNext};
ghost use Rattle.lnt_machine.specs.declared.row.Row as spec;

use crate::machine::Machine;
use crate::row::Row;
use lnt_header::HeaderNumbers;
use lnt_ops::Ops;
use std::marker::Model;

/// The rows of one sequence of a unit whose program runs, with operations read in place.
#[derive(Drop)]
pub struct SequenceRows<'a> {
    machine: Machine<'a>,
    ops: Ops<'a>,
    ended: bool,
}

impl<'a> Model for SequenceRows<'a> {
    ghost use Rattle.std.specs.Prelude.{◌≡◌};
    ghost use Rattle.lnt_machine.specs.Walking.{SequenceWalk};

    ghost Value = { SequenceWalk };

    ghost view = { λ s. record { machine = s.machine; walk = s.ops; ended = s.ended } };

    ghost invariant = { λ s. s.machine.numbers ≡ s.ops.numbers };
}

impl<'a> SequenceRows<'a> {
    /// The rows of the sequence whose first operation begins at the index `place` of the program. Allocates nothing.
    ///
    /// They are the rows of the operations from there on, up to and including the first end row. The caller ensures that
    /// `place` isn't above the program's length. If no sequence begins there, or the program doesn't run, the rows are
    /// unspecified, and an operation that fails ends them like an end row.
    pub fn at(numbers: &'a HeaderNumbers, program: &'a [u8], place: usize) -> SequenceRows<'a>
        requires within { place ≤ length program.now }
        ensures left { length result.walk.at.rest ≤ length program.entry.now }
        ensures rows { (earlier later : List Op) → IsSequencePlace numbers.entry.now program.entry.now earlier later place
            → WillGive (first_sequence (rows_after numbers.entry.now (reverse earlier) later)) result }
    {
        SequenceRows {
            machine: Machine::with_numbers(numbers),
            ops: Ops::after(numbers, program, 0, place),
            ended: false,
        }
    }

    /// A copy of these rows, at the same row. Allocates nothing.
    #[inline(always)]
    pub fn fork(&self) -> SequenceRows<'a>
        ensures { result ≡ self.now }
    {
        SequenceRows {
            machine: self.machine.fork(),
            ops: self.ops.fork(),
            ended: self.ended,
        }
    }

    /// Puts the next row, which `next` would return, into `row` and returns true. False if the rows have ended; then nothing is said of
    /// `row`, and they stay so. For loops over many rows, since each is written where it is wanted. Allocates nothing.
    #[inline(never)]
    pub fn next_into(&mut self, row: &mut Row) -> bool
        ensures gives { GivesRow self.old (if result then Some row.new else None) self.new }
        ensures fewer { IsTrue result → (if self.new.ended then 0 else length self.new.walk.at.rest)
            < (if self.old.ended then 0 else length self.old.walk.at.rest) }
    {
        if self.ended {
            return false;
        }
        let given = next_row(&mut self.machine, &mut self.ops, row);
        self.ended = !given || row.end_sequence;
        given
    }

    /// Does the next operation, if it is short, and returns the row that it appends, if any. `None` if no short operation
    /// comes next, or the rows have ended; then the same rows are still to come. For loops over many rows, since it is inlined;
    /// `next` returns what comes. Allocates nothing.
    #[tactic(auto, using(crate::proofs::RanLaws::may_step))]
    #[inline(always)]
    pub fn step_short(&mut self) -> Option<Option<Row>>
        ensures comes { ComesShort self.old result self.new }
        ensures shorter { IfSome result (λ _. length self.new.walk.at.rest < length self.old.walk.at.rest) }
    {
        if self.ended {
            return None;
        }
        let Some(op) = self.ops.next_short() else {
            return None;
        };
        let mut row = self.machine.registers();
        let Ok(appends) = self.machine.step_uncounted(&op, &mut row) else {
            return None;
        };
        if !appends {
            return Some(None);
        }
        self.ended = row.end_sequence;
        Some(Some(row))
    }
}

impl<'a> Iterator for SequenceRows<'a> {
    type Item = Row;

    ghost next_gives = { GivesRow };

    ghost remaining = { λ s. at_most (if s.ended then 0 else length s.walk.at.rest) };

    #[inline(always)]
    fn next(&mut self) -> Option<Row> {
        // Only a place for the row.
        let mut row = self.machine.registers();
        if self.next_into(&mut row) {
            Some(row)
        } else {
            None
        }
    }
}

// Puts the next row that the operations append into `row`. False if they append none; then nothing is said of `row`.
#[inline(always)]
fn next_row(machine: &mut Machine<'_>, ops: &mut Ops<'_>, row: &mut Row) -> bool
    requires { machine.old.numbers ≡ ops.old.numbers }
    ensures same { machine.new.numbers ≡ ops.new.numbers }
    ensures shorter { IsTrue result → length ops.new.at.rest < length ops.old.at.rest }
    ensures gives { (h : NumberParts) (rows : List spec.Row) → HasRows h rows machine.old ops.old
        → GivesNext h rows (if result then Some row.new else None) machine.new ops.new }
{
    if short_row(machine, ops, row) {
        return true;
    }
    any_row(machine, ops, row)
}

// The next row, for any operations: the slow path.
#[tactic(auto, using(crate::proofs::RanLaws::may_step))]
#[inline(never)]
fn any_row(machine: &mut Machine<'_>, ops: &mut Ops<'_>, row: &mut Row) -> bool
    requires { machine.old.numbers ≡ ops.old.numbers }
    ensures same { machine.new.numbers ≡ ops.new.numbers }
    ensures shorter { IsTrue result → length ops.new.at.rest < length ops.old.at.rest }
    ensures gives { (h : NumberParts) (rows : List spec.Row) → HasRows h rows machine.old ops.old
        → GivesNext h rows (if result then Some row.new else None) machine.new ops.new }
{
    while let Some(op) = ops.next() {
        let Ok(op) = op else {
            return false;
        };
        let Ok(appends) = machine.step_uncounted(&op, row) else {
            return false;
        };
        if appends {
            return true;
        }
    }
    false
}

// Puts the row that the next operations append into `row`, if all of them up to it are short. Otherwise false; operations that
// append no row may then already be done.
#[tactic(auto, using(crate::proofs::RanLaws::may_step))]
#[inline(always)]
fn short_row(machine: &mut Machine<'_>, ops: &mut Ops<'_>, row: &mut Row) -> bool
    requires { machine.old.numbers ≡ ops.old.numbers }
    ensures same { machine.new.numbers ≡ ops.new.numbers }
    ensures no_longer { length ops.new.at.rest ≤ length ops.old.at.rest }
    ensures shorter { IsTrue result → length ops.new.at.rest < length ops.old.at.rest }
    ensures gives { (h : NumberParts) (rows : List spec.Row) → HasRows h rows machine.old ops.old
        → ComesNext h rows (if result then Some row.new else None) machine.new ops.new }
{
    while let Some(op) = ops.next_short() {
        let Ok(appends) = machine.step_uncounted(&op, row) else {
            return false;
        };
        if appends {
            return true;
        }
    }
    false
}
