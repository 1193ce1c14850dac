//! `lnt_machine`: rows, the machine, and the matrix of a unit.
ghost use Rattle.lnt_machine.specs.DeclaredOp.{Op};
ghost use Rattle.lnt_machine.specs.OpRules.{Admits, StandsFor};

use lnt_machine::{HeaderNumbers, Machine, Row, RunFault, Sequence, matrix};
use lnt_unit::{Header, OpView, Unit};
use std::alloc::Global;

/// A row, by its fields.
pub fn row_again(row: Row) -> Row {
    let Row {
        address,
        op_index,
        file,
        line,
        column,
        isa,
        discriminator,
        is_stmt,
        basic_block,
        end_sequence,
        prologue_end,
        epilogue_begin,
    } = row;
    let _: [u64; 7] = [address, op_index, file, line, column, isa, discriminator];
    Row {
        address,
        op_index,
        file,
        line,
        column,
        isa,
        discriminator,
        is_stmt,
        basic_block,
        end_sequence,
        prologue_end,
        epilogue_begin,
    }
}

/// The rows of a sequence.
pub fn rows_of(sequence: &Sequence) -> &[Row] {
    sequence.rows.as_slice()
}

/// A machine before the first operation, by a header.
pub fn machine_of(header: &Header) -> Machine<'_> {
    Machine::new(header)
}

/// The same, by the header's numbers.
pub fn machine_by_numbers(numbers: &HeaderNumbers) -> Machine<'_> {
    Machine::with_numbers(numbers)
}

/// The row that an operation makes, if it makes one. The caller ensures that the machine's header admits the operation.
pub fn stepped(machine: &mut Machine<'_>, view: &OpView<'_>) -> Result<Option<Row>, RunFault>
    requires { (op : Op) × StandsFor view.now op × Admits machine.old.numbers op }
{
    machine.step(view)
}

/// The sequences of a unit.
pub fn sequences_of(alloc: Global, unit: &Unit) -> Result<Vec<Sequence>, RunFault> {
    matrix(alloc, unit)
}

/// Each fault of a run.
pub fn run_fault_number(fault: RunFault) -> (u8, u64) {
    match fault {
        RunFault::LineOutOfRange(index) => (22, index),
        RunFault::OpenSequence => (23, 0),
        RunFault::Memory => (24, 0),
    }
}
