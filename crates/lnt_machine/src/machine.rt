//! A machine that does one operation after another.
ghost use Rattle.std.specs.Prelude.{◌≡◌, List, [], ◌∷◌, IfOk, IsOk, IfErr, OnErr, Some, None, if◌then◌else◌};
ghost use Rattle.lnt_machine.specs.Registers.{IsLine, line};
ghost use Rattle.lnt_machine.specs.State.{Does, StandsAfter, LeavesRange, Steps};
ghost use Rattle.lnt_header.specs.OpRules.{StandsFor, Admits};
ghost use Rattle.lnt_header.specs.declared.op.Op.{Op};

use crate::fault::RunFault;
use crate::registers::{OutOfRange, change, initial, reciprocal_of};
use crate::row::Row;
use lnt_header::{Header, HeaderNumbers, OpView};
use std::marker::Model;

/// The registers of a line number program between two of its operations, and the number of operations done.
///
/// Contracts see the header's numbers, the registers and the count (`MachineState`). A machine stands after a list of operations
/// (`StandsAfter`) if each register has the value that DWARF 5, sections 6.2.2 and 6.2.5, gives it after that list. That is
/// a sum over the list, or the value that the last operation of a kind sets. The count stays at `u64::MAX` once it has
/// reached it.
#[derive(Drop)]
pub struct Machine<'a> {
    numbers: &'a HeaderNumbers,
    registers: Row,
    // 2^16 divided by `line_range`, rounded down, plus 1 (`reciprocal_of`)
    reciprocal: u32,
    count: u64,
}

impl<'a> Model for Machine<'a> {
    ghost use Rattle.std.specs.Prelude.{◌≡◌, ◌+◌, ◌/◌};
    ghost use Rattle.lnt_machine.specs.State.{MachineState, IsBounded};

    ghost Value = { MachineState };

    ghost view = { λ m. record { numbers = m.numbers.now; registers = m.registers; count = m.count } };

    ghost invariant = { λ m. IsBounded m.numbers.now m.registers × (m.reciprocal ≡ 65536 / m.numbers.now.line_range + 1) };
}

impl<'a> Machine<'a> {
    /// A machine before the first operation of a program with this header: it stands after the empty list. Allocates
    /// nothing.
    pub fn new(header: &'a Header) -> Machine<'a>
        ensures header { result.numbers ≡ header.entry.now.numbers }
        ensures stands { StandsAfter result [] }
        ensures count { result.count ≡ 0 }
    {
        Machine::with_numbers(header.numbers())
    }

    /// A machine before the first operation of a program whose header has these numbers, as [`Machine::new`]. Allocates
    /// nothing.
    pub fn with_numbers(numbers: &'a HeaderNumbers) -> Machine<'a>
        ensures header { result.numbers ≡ numbers.entry.now }
        ensures stands { StandsAfter result [] }
        ensures count { result.count ≡ 0 }
    {
        Machine {
            numbers,
            registers: initial(numbers),
            reciprocal: reciprocal_of(numbers),
            count: 0,
        }
    }

    // The registers.
    #[inline(always)]
    pub(crate) fn registers(&self) -> Row
        ensures { result ≡ self.now.registers }
    {
        self.registers
    }

    // A copy of this machine.
    #[inline(always)]
    pub(crate) fn fork(&self) -> Machine<'a>
        ensures { result ≡ self.now }
    {
        Machine {
            numbers: self.numbers,
            registers: self.registers,
            reciprocal: self.reciprocal,
            count: self.count,
        }
    }

    /// Does an operation that the header admits, and returns the row that it appends.
    ///
    /// If the machine stood after a list of operations, it then stands after that list with this operation appended, and
    /// the row is that of this operation after them (`Steps`; DWARF 5, section 6.2.5). Fails if and only if the line would
    /// be below 0, or 2^32 or more: with `LineOutOfRange` (22) of the count, which is the operation's index. The machine is
    /// then unchanged. Allocates nothing.
    #[inline(always)]
    pub fn step(&mut self, view: &OpView<'_>) -> Result<Option<Row>, RunFault>
        requires { (op : Op) × StandsFor view.now op × Admits self.old.numbers op }
        ensures ok { IfOk result (Steps view.now self.old self.new) }

        // Fails if and only if the line leaves its range, with the operation's index.
        ensures in_range { (back : List Op) (op : Op) → StandsAfter self.old back → StandsFor view.now op
            → IsLine (line self.old.numbers (op ∷ back)) → IsOk result }
        ensures out_of_range { OnErr result (LeavesRange view.now self.old) }
        ensures fault { IfErr result (λ fault. fault ≡ RunFault.LineOutOfRange self.old.count) }
        ensures unchanged { OnErr result (self.new ≡ self.old) }
    {
        let mut row = self.registers;
        let Ok(appends) = self.step_uncounted(view, &mut row) else {
            return Err(RunFault::LineOutOfRange(self.count));
        };
        self.count = self.count.saturating_add(1);
        Ok(appends.then_some(row))
    }

    // Does an operation as `step` does, but doesn't count it: for walks that don't tell which operation failed. True if it appends a
    // row, which is then put into `row`; else nothing is said of `row`.
    #[inline(always)]
    pub(crate) fn step_uncounted(
        &mut self,
        view: &OpView<'_>,
        row: &mut Row,
    ) -> Result<bool, OutOfRange>
        requires { (op : Op) × StandsFor view.now op × Admits self.old.numbers op }
        ensures ok { IfOk result (λ appends. Does view.now self.old self.new (if appends then Some row.new else None)) }
        ensures count { self.new.count ≡ self.old.count }
        ensures in_range { (back : List Op) (op : Op) → StandsAfter self.old back → StandsFor view.now op
            → IsLine (line self.old.numbers (op ∷ back)) → IsOk result }
        ensures out_of_range { OnErr result (LeavesRange view.now self.old) }
        ensures unchanged { OnErr result (self.new ≡ self.old) }
    {
        change(
            &mut self.registers,
            self.numbers,
            self.reciprocal,
            view,
            row,
        )
    }
}
