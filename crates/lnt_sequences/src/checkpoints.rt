//! Checkpoints in the rows of one sequence, from which lookups go on.
ghost use Rattle.std.specs.Prelude.{◌≡◌, ◌<◌, List, [], None, IfOk, false, true, MatchBool};
ghost use Rattle.lnt_machine.specs.Walking.{WillGive};
ghost use Rattle.lnt_machine.specs.declared.row.Row as spec;
ghost use Rattle.lnt_sequences.specs.Briefs.{AreCheckpointsIn, IsCheckpointIn, IsNotAbove};
ghost use Rattle.lnt_sequences.specs.Rules.{IsOrdered};
ghost use Rattle.lnt_sequences.specs.Sequences as sequence;
ghost use Rattle.lnt_sequences.specs.RowSpans.{rows_left};

use crate::collected::position_of;
use lnt_machine::{Row, SequenceRows};
use lnt_spans::Position;
use std::alloc::{AllocError, Global};

// The number of rows from one checkpoint to the next. A checkpoint takes 200 bytes, and a row of a section one at least.
pub(crate) const WIDE: usize = 128;

// A place in the rows of a sequence: the last row before it, if there is one, and the rows after it.
#[derive(Drop)]
pub(crate) struct Checkpoint<'a> {
    pub last: Option<Row>,
    after: SequenceRows<'a>,
}

impl<'a> Checkpoint<'a> {
    // The place before all of these rows.
    pub(crate) fn before(rows: SequenceRows<'a>) -> Checkpoint<'a>
        ensures last { result.last ≡ None }
        ensures after { result.after ≡ rows.entry }
    {
        Checkpoint {
            last: None,
            after: rows,
        }
    }

    // The same place once more.
    fn fork(&self) -> Checkpoint<'a>
        ensures { result ≡ self.now }
    {
        Checkpoint {
            last: self.last,
            after: self.after.fork(),
        }
    }

    // Goes on over the rows that aren't above the position, up to the next checkpoint, which is after `spacing` rows. True where it
    // stands there. Else `last` is the last row of the sequence that isn't above the position, and nothing is said of the rows
    // after it.
    pub(crate) fn go_on(&mut self, position: Position, spacing: usize) -> bool
        requires not_above { IsNotAbove self.old.last position }
        requires some { 0 < spacing }
        ensures not_above { IsNotAbove self.new.last position }
        ensures goes_on { (rows : List spec.Row) → IsCheckpointIn rows self.old → MatchBool result (IsCheckpointIn rows self.new)
            (IsOrdered rows → self.new.last ≡ sequence.row_at position rows) }
        ensures fewer { result ≡ true → rows_left self.new.after < rows_left self.old.after }
    {
        let mut after = self.after.fork();
        for _ in 0..spacing {
            let Some(row) = after.next() else {
                return false;
            };
            if position < position_of(&row) {
                return false;
            }
            self.last = Some(row);
        }
        self.after = after;
        true
    }

    // Whether the row before the place is above the position.
    fn is_above(&self, position: Position) -> bool
        ensures { result ≡ false → IsNotAbove self.now.last position }
    {
        matches!(&self.last, Some(row) if position < position_of(row))
    }
}

// Checkpoints in the rows of one sequence, as far as lookups went: one after every so many rows, and none in a shorter sequence.
#[derive(Drop)]
pub(crate) struct Checkpoints<'a> {
    checkpoints: Vec<Checkpoint<'a>>,
}

impl<'a> Checkpoints<'a> {
    // No checkpoints. It takes no memory.
    pub(crate) fn new(alloc: Global) -> Checkpoints<'a>
        ensures { (rows : List spec.Row) → AreCheckpointsIn rows result }
    {
        Checkpoints {
            checkpoints: Vec::new(alloc),
        }
    }

    // Whether there are none.
    pub(crate) fn is_empty(&self) -> bool
        ensures { MatchBool result (self.now.checkpoints.items ≡ []) (self.now.checkpoints.items ≡ [] → ⊥) }
    {
        self.checkpoints.is_empty()
    }

    // The last row of the sequence that the checkpoints are in that isn't above the position. It walks over the rows after the last
    // checkpoint that isn't above the position, and adds a checkpoint wherever it comes to a next one. The one error is that memory
    // ran out.
    // The checkpoints are in the same sequence then, too.
    pub(crate) fn row_at(
        &mut self,
        rows: SequenceRows<'a>,
        position: Position,
    ) -> Result<Option<Row>, AllocError>
        ensures checkpoints { (list : List spec.Row) → WillGive list rows.entry → AreCheckpointsIn list self.old
            → AreCheckpointsIn list self.new }
        ensures found { IfOk result (λ row. (list : List spec.Row) → WillGive list rows.entry → AreCheckpointsIn list self.old
            → IsOrdered list → row ≡ sequence.row_at position list) }
    {
        let mut checkpoint = self.nearest(rows, position);
        while checkpoint.go_on(position, WIDE) {
            self.checkpoints.push(checkpoint.fork())?;
        }
        Ok(checkpoint.last)
    }

    // The last checkpoint whose row isn't above the position; the place before all rows where there is none.
    fn nearest(&self, rows: SequenceRows<'a>, position: Position) -> Checkpoint<'a>
        ensures in_rows { (list : List spec.Row) → WillGive list rows.entry → AreCheckpointsIn list self.now → IsCheckpointIn list result }
        ensures not_above { IsNotAbove result.last position }
    {
        let low = self
            .checkpoints
            .partition_point(|checkpoint| !checkpoint.is_above(position));
        if low > 0 && !self.checkpoints[low - 1].is_above(position) {
            return self.checkpoints[low - 1].fork();
        }
        Checkpoint::before(rows)
    }
}
