//! The rows of a unit's program one by one, and the fault that ends them.
ghost use Rattle.std.specs.Prelude.{◌≡◌, ◌+◌, ◌<◌, length, IfOk, IfErr, IfSome, if◌then◌else◌};
ghost use Rattle.std.specs.Iterator.{at_most};
ghost use Rattle.lnt_machine.specs.RowWalks.{Comes, RowStep, Stops};

use crate::fault::{RowFault, RunFault};
use crate::row::Row;
use crate::run::Run;
use lnt_header::HeaderNumbers;
use lnt_ops::Ops;
use std::iter::FusedIterator;
use std::marker::Model;

/// The rows of a unit's program in order, with its operations read in place (DWARF 5, sections 6.2.2 and 6.2.5). Allocates
/// nothing.
///
/// Each item is the row of the next operation that appends one, or a fault, which is the last item:
/// - `Malformed` if the remaining bytes don't begin with an operation, with the fault of [`Ops`]. Operations are read as
///   they are run, so an earlier fault of the run is reported instead.
/// - `Run` with `LineOutOfRange` (22) if the next operation sets the line below 0, or to 2^32 or more, and with
///   `OpenSequence` (23) if the program has ended and rows follow the last end row.
///
/// Returns `None` if the program has ended and no rows are open, and in each call after that or after a fault.
#[derive(Drop)]
pub struct Rows<'a> {
    run: Run<'a>,
    ops: Ops<'a>,
    ended: bool,
}

impl<'a> Model for Rows<'a> {
    ghost use Rattle.std.specs.Prelude.{◌≡◌};
    ghost use Rattle.lnt_machine.specs.RowWalks.{RowWalk};

    ghost Value = { RowWalk };

    ghost view = { λ r. record { run = r.run; walk = r.ops; ended = r.ended } };

    ghost invariant = { λ r. r.run.machine.numbers ≡ r.ops.numbers };
}

impl<'a> Rows<'a> {
    ghost use Rattle.std.specs.Prelude.{[], false};
    ghost use Rattle.lnt_machine.specs.Running.{HasDone};

    /// The rows of these operations, which are all those of a unit with this header.
    pub fn new(numbers: &'a HeaderNumbers, ops: Ops<'a>) -> Rows<'a>
        requires { ops.numbers ≡ numbers.now }
        ensures header { result.run.machine.numbers ≡ numbers.entry.now }
        ensures done { HasDone result.run [] }
        ensures count { result.run.machine.count ≡ 0 }
        ensures walk { result.walk ≡ ops.entry }
        ensures going { result.ended ≡ false }
    {
        Rows {
            run: Run::new(numbers),
            ops,
            ended: false,
        }
    }
}

impl<'a> Iterator for Rows<'a> {
    type Item = Result<Row, RowFault>;

    ghost next_gives = { RowStep };

    ghost remaining = { λ r. at_most (if r.ended then 0 else length r.walk.at.rest + 1) };

    #[inline(always)]
    fn next(&mut self) -> Option<Result<Row, RowFault>> {
        if self.ended {
            return None;
        }
        match next_row(&mut self.run, &mut self.ops) {
            Ok(Some(row)) => Some(Ok(row)),
            Ok(None) => {
                self.ended = true;
                None
            }
            Err(fault) => {
                self.ended = true;
                Some(Err(fault))
            }
        }
    }
}

impl<'a> FusedIterator for Rows<'a> {}

// The row of the next operation that appends one. `None` if the program has ended and no rows are open.
#[inline(always)]
fn next_row(run: &mut Run<'_>, ops: &mut Ops<'_>) -> Result<Option<Row>, RowFault>
    requires { run.old.machine.numbers ≡ ops.old.numbers }
    ensures same { run.new.machine.numbers ≡ ops.new.numbers }
    ensures shorter { IfOk result (λ made. IfSome made (λ row. length ops.new.at.rest < length ops.old.at.rest)) }
    ensures ok { IfOk result (λ made. Comes made run.old ops.old run.new ops.new) }
    ensures err { IfErr result (λ fault. Stops fault run.old ops.old run.new ops.new) }
{
    while let Some(op) = ops.next() {
        if let Some(row) = run.step(&op?)? {
            return Ok(Some(row));
        }
    }
    if run.is_open() {
        return Err(RowFault::Run(RunFault::OpenSequence));
    }
    Ok(None)
}
