//! The program of a unit, run with a look at as little of its rows as shows that nothing is wrong with them.
//!
//! Most units are good, so most of what would be told of a bad one needn't be known of them: which row is at fault, and the registers
//! that no rule is about. If anything is odd, this gives up, and `run_unit` runs the program again.
ghost use Rattle.std.specs.Prelude.{◌≡◌, ◌≤◌, ℕ, false, List, [], length, Option, None, IfOk, IsTrue};
ghost use Rattle.lnt_header.specs.declared.op.Op.{Op};
ghost use Rattle.lnt_header.specs.OpRules.{Admits, StandsFor};
ghost use Rattle.lnt_lines.specs.Judging.{CollectsAlso, HasRun};
ghost use Rattle.lnt_lines.specs.Light.{AreCollectedBy, CollectsOne, PassesBy, PassesTo, Sees, passed_places};
ghost use Rattle.lnt_lines.specs.Light as spec;
ghost use Rattle.lnt_machine.specs.declared.row.Row.{Row};

use lnt_header::OpView;
use lnt_machine::{Row, Run};
use lnt_ops::Ops;
use lnt_sequences::{Collected, Watch};
use lnt_unit::UnitInPlace;
use std::alloc::AllocError;

// The number of sequences of a unit that is run so, at most.
const MOST: usize = 4096;

/// A sequence that has ended.
#[derive(Clone, Copy)]
pub(crate) struct Passed {
    // the offset in the program, in bytes, at which it begins
    place: usize,
    // the address of its first row
    low: u64,
    // that of its end row
    high: u64,
}

// The sequence that hasn't ended.
#[derive(Clone, Copy)]
struct Begun {
    has_row: bool,
    // the address of its first row
    low: u64,
    // that of its last row so far, or 0
    last: u64,
}

impl Begun {
    // No row yet.
    fn none() -> Begun
        ensures { result ≡ record { has_row = false; low = 0; last = 0 } }
    {
        Begun {
            has_row: false,
            low: 0,
            last: 0,
        }
    }
}

/// Runs the program of a unit and appends its sequences to `passed`, which is empty at first.
///
/// If it returns `true`, the program ran, and nothing is wrong with its rows. `false` says nothing, and what was passed is unspecified.
pub(crate) fn pass_program(view: &UnitInPlace<'_>, passed: &mut Vec<Passed>) -> bool
    requires { passed.old.items ≡ [] }
    ensures runs { IsTrue result → (dead : Option ℕ) → HasRun dead view.now (AreCollectedBy dead view.now.unit.offset passed.new.items)
        (passed_places passed.new.items) (record { missing = None; falls = None }) }
    ensures few { IsTrue result → length passed.new.items ≤ 4096 }
{
    let mut light = Light {
        length: view.program().len(),
        files: view.header().files().count(),
        run: Run::new(view.numbers()),
        place: 0,
        begun: Begun::none(),
    };
    let mut ops = view.ops();
    while let Some(op) = ops.next_long() {
        let Ok(op) = op else {
            return false;
        };
        if !light.step(&op, ops.left(), passed) || !light.step_short(&mut ops, passed) {
            return false;
        }
    }
    !light.run.is_open()
}

/// Adds what the live ones of the sequences of the unit at an offset hold to what is collected, and to `places`, which is empty at
/// first, where they begin in the program. Fails only if memory runs out; then both are unspecified.
pub(crate) fn collect_passed(
    unit: u64,
    dead: Option<u64>,
    passed: &[Passed],
    collected: &mut Collected,
    places: &mut Vec<usize>,
) -> Result<(), AllocError>
    requires few { length passed.now ≤ 4096 }
    requires places { places.old.items ≡ [] }
    ensures collects { IfOk result (λ _. (rows : List Row) → AreCollectedBy dead unit passed.now rows
        → CollectsAlso dead unit collected.old collected.new rows) }
    ensures places { IfOk result (λ _. places.new.items ≡ passed_places passed.now) }
{
    let mut watch = Watch::new(dead, unit, 0);
    for each in passed {
        collect_one(*each, &mut watch, collected, places)?;
    }
    Ok(())
}

// Does so for one sequence. The watch sees its first row and its end row, since what is collected depends on no other.
fn collect_one(
    one: Passed,
    watch: &mut Watch,
    collected: &mut Collected,
    places: &mut Vec<usize>,
) -> Result<(), AllocError>
    ensures { IfOk result (λ _. CollectsOne one watch.old watch.new collected.old collected.new places.old.items places.new.items) }
{
    watch.see(&row_at_address(one.low, false), collected)?;
    watch.see(&row_at_address(one.high, true), collected)?;
    places.push(one.place)?;
    Ok(())
}

// A row of which no more is known than its address, and whether it ends its sequence.
fn row_at_address(address: u64, end_sequence: bool) -> Row
    ensures { result ≡ spec.row_at_address address end_sequence }
{
    Row {
        address,
        op_index: 0,
        file: 0,
        line: 0,
        column: 0,
        isa: 0,
        discriminator: 0,
        is_stmt: false,
        basic_block: false,
        end_sequence,
        prologue_end: false,
        epilogue_begin: false,
    }
}

// A program that is run, and what is known of its rows.
#[derive(Drop)]
struct Light<'a> {
    // how many bytes the program has
    length: usize,
    // how many files the unit has
    files: u64,
    run: Run<'a>,
    // the place of the first operation of the current sequence
    place: usize,
    begun: Begun,
}

impl<'a> Light<'a> {
    // Does an operation, after which `left` bytes of the program remain.
    #[inline(always)]
    fn step(&mut self, op: &OpView<'_>, left: usize, passed: &mut Vec<Passed>) -> bool
        requires allowed { (done : Op) × StandsFor op.now done × Admits self.old.run.machine.numbers done }
        requires left { left ≤ self.old.length }
        ensures length { self.new.length ≡ self.old.length }
        ensures files { self.new.files ≡ self.old.files }
        ensures header { IsTrue result → self.new.run.machine.numbers ≡ self.old.run.machine.numbers }
        ensures passes { IsTrue result → PassesBy op.now left self.old self.new passed.old.items passed.new.items }
    {
        match self.run.step(op) {
            Err(_) => false,
            Ok(None) => true,
            Ok(Some(row)) => self.see(&row, left, passed),
        }
    }

    // Sees a row, after whose operation `left` bytes of the program remain.
    #[inline(always)]
    fn see(&mut self, row: &Row, left: usize, passed: &mut Vec<Passed>) -> bool
        requires left { left ≤ self.old.length }
        ensures length { self.new.length ≡ self.old.length }
        ensures files { self.new.files ≡ self.old.files }
        ensures run { self.new.run ≡ self.old.run }
        ensures sees { IsTrue result → Sees row.now left self.old self.new passed.old.items passed.new.items }
    {
        if row.op_index != 0 || row.address < self.begun.last {
            return false;
        }
        let low = if self.begun.has_row {
            self.begun.low
        } else {
            row.address
        };
        if !row.end_sequence {
            self.begun = Begun {
                has_row: true,
                low,
                last: row.address,
            };
            return row.file < self.files;
        }
        let ended = Passed {
            place: self.place,
            low,
            high: row.address,
        };
        self.place = self.length - left;
        self.begun = Begun::none();
        passed.len() < MOST && passed.push(ended).is_ok()
    }

    // Does the next operations while they are short.
    #[inline(always)]
    fn step_short(&mut self, ops: &mut Ops<'_>, passed: &mut Vec<Passed>) -> bool
        requires header { self.old.run.machine.numbers ≡ ops.old.numbers }
        requires left { length ops.old.at.rest ≤ self.old.length }
        ensures length { self.new.length ≡ self.old.length }
        ensures files { self.new.files ≡ self.old.files }
        ensures header { IsTrue result → self.new.run.machine.numbers ≡ ops.new.numbers }
        ensures no_longer { length ops.new.at.rest ≤ length ops.old.at.rest }
        ensures passes { IsTrue result → PassesTo ops.old ops.new self.old self.new passed.old.items passed.new.items }
    {
        while let Some(op) = ops.next_short() {
            if !self.step(&op, ops.left(), passed) {
                return false;
            }
        }
        true
    }
}
