//! All rows of a unit, in its sequences.
ghost use Rattle.std.specs.Prelude.{◌≡◌, not, List, [], ◌∷◌, ◌++◌, IfOk, OnOk, IfErr};
ghost use Rattle.lnt_machine.specs.Cuts.{IsCut, are_some};
ghost use Rattle.lnt_machine.specs.Matrix.{IsRunFault, Runs, sequences, Row};

use crate::fault::RunFault;
use crate::row::{Row, Sequence};
use crate::run::Run;
use lnt_header::Unit;
use lnt_wire::Items;
use std::alloc::{AllocError, Global};
use std::mem;

/// The rows of a unit, sequence by sequence, if its program runs (`Runs`; DWARF 5, sections 6.2.2 and 6.2.5).
///
/// Fails with `LineOutOfRange` (22) if the operation with this index is the first that sets the line below 0, or to 2^32 or
/// more. If no operation does, fails with `OpenSequence` (23) if rows follow the last end row, or there are rows and no end
/// row. Fails with `Memory` (24) if memory runs out.
pub fn matrix(alloc: Global, unit: &Unit) -> Result<Vec<Sequence>, RunFault>
    ensures runs { OnOk result (Runs unit.now) }
    ensures rows { IfOk result (λ made. made.items ≡ sequences unit.now) }
    ensures err { IfErr result (IsRunFault unit.now) }
{
    let mut run = Run::new(unit.header().numbers());
    let mut sequences = Vec::new(alloc);
    let mut rows = Vec::new(alloc);
    for op in unit.ops() {
        let Some(row) = run.step(&op.view())? else {
            continue;
        };
        add_row(alloc, row, &mut rows, &mut sequences)?;
    }
    run.end()?;
    Ok(sequences)
}

// Appends a row to those after the last end row. An end row makes them a sequence.
#[tactic(auto, using(crate::proofs::SequenceLaws::cut_more, crate::proofs::SequenceLaws::cut_end, crate::proofs::SequenceLaws::some_after))]
fn add_row(
    alloc: Global,
    row: Row,
    rows: &mut Vec<Row>,
    sequences: &mut Vec<Sequence>,
) -> Result<(), AllocError>
    ensures ok { OnOk result ((all : List Row) → IsCut all sequences.old.items rows.old.items
        → IsCut (all ++ row ∷ []) sequences.new.items rows.new.items) }
    ensures left { OnOk result (are_some rows.new.items ≡ not row.end_sequence) }
{
    rows.push(row)?;
    if row.end_sequence {
        let rows = Items::new(mem::replace(rows, Vec::new(alloc)));
        sequences.push(Sequence { rows })?;
    }
    Ok(())
}
