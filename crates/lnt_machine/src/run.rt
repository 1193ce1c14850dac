//! A program that is run from its first operation to its end.
ghost use Rattle.std.specs.Prelude.{◌≡◌, true, false, List, [], ◌∷◌, IfOk, IsOk, OnOk, IfErr, OnErr};
ghost use Rattle.lnt_machine.specs.Registers.{IsLine, line};
ghost use Rattle.lnt_machine.specs.Running.{HasDone, RunsOn};
ghost use Rattle.lnt_machine.specs.State.{StandsAfter, LeavesRange};
ghost use Rattle.lnt_header.specs.OpRules.{StandsFor, Admits};
ghost use Rattle.lnt_header.specs.declared.op.Op.{Op};

use crate::fault::RunFault;
use crate::machine::Machine;
use crate::row::Row;
use lnt_header::{HeaderNumbers, OpView};
use std::marker::Model;

/// The program of a unit while it is run: a machine, and whether rows follow the last end row.
///
/// A walk over the rows of a unit is a loop of [`Run::step`] over its operations, and [`Run::end`] after the last one. For
/// operations in a unit's bytes, [`Rows`](crate::Rows) is that loop, row by row.
#[derive(Drop)]
pub struct Run<'a> {
    machine: Machine<'a>,
    is_open: bool,
}

impl<'a> Model for Run<'a> {
    ghost use Rattle.lnt_machine.specs.Running.{RunState};

    ghost Value = { RunState };

    ghost view = { λ r. record { machine = r.machine; is_open = r.is_open } };
}

impl<'a> Run<'a> {
    /// A program with this header, before its first operation. Allocates nothing.
    pub fn new(numbers: &'a HeaderNumbers) -> Run<'a>
        ensures header { result.machine.numbers ≡ numbers.entry.now }
        ensures done { HasDone result [] }
        ensures count { result.machine.count ≡ 0 }
    {
        Run {
            machine: Machine::with_numbers(numbers),
            is_open: false,
        }
    }

    /// Runs an operation that the header admits, and returns the row that it appends.
    ///
    /// It is [`Machine::step`], with the same row and the same only error, `LineOutOfRange` (22), after which the run is
    /// unchanged. Allocates nothing.
    #[inline(always)]
    pub fn step(&mut self, view: &OpView<'_>) -> Result<Option<Row>, RunFault>
        requires { (op : Op) × StandsFor view.now op × Admits self.old.machine.numbers op }
        ensures ok { IfOk result (RunsOn view.now self.old self.new) }

        // Fails if and only if the line leaves its range, with the operation's index.
        ensures in_range { (back : List Op) (op : Op) → StandsAfter self.old.machine back → StandsFor view.now op
            → IsLine (line self.old.machine.numbers (op ∷ back)) → IsOk result }
        ensures out_of_range { OnErr result (LeavesRange view.now self.old.machine) }
        ensures fault { IfErr result (λ fault. fault ≡ RunFault.LineOutOfRange self.old.machine.count) }
        ensures unchanged { OnErr result (self.new ≡ self.old) }
    {
        let made = self.machine.step(view)?;
        if let Some(row) = &made {
            self.is_open = !row.end_sequence;
        }
        Ok(made)
    }

    /// Whether rows follow the last end row: a row was appended, and the last one isn't an end row.
    #[inline(always)]
    pub fn is_open(&self) -> bool
        ensures { result ≡ self.now.is_open }
    {
        self.is_open
    }

    /// Ends the program, after its last operation.
    ///
    /// Fails with `OpenSequence` (23) if and only if rows follow the last end row.
    pub fn end(self) -> Result<(), RunFault>
        ensures ok { OnOk result (self.entry.is_open ≡ false) }
        ensures left_open { OnErr result (self.entry.is_open ≡ true) }
        ensures fault { IfErr result (λ fault. fault ≡ RunFault.OpenSequence) }
    {
        if self.is_open {
            Err(RunFault::OpenSequence)
        } else {
            Ok(())
        }
    }
}
