//! What is kept of the rows of one sequence, for later lookups.
ghost use Rattle.std.specs.Prelude.{◌≡◌, List, IfOk, IfSome, MatchBool, option_map};
ghost use Rattle.lnt_machine.specs.Walking.{WillGive};
ghost use Rattle.lnt_machine.specs.declared.row.Row as spec;
ghost use Rattle.lnt_sequences.specs.Briefs.{IsCacheOf, KeepsNothing};
ghost use Rattle.lnt_sequences.specs.Rules.{IsOrdered};
ghost use Rattle.lnt_sequences.specs.Sequences as sequence;

use crate::brief::BriefRows;
use crate::buckets::Buckets;
use crate::checkpoints::Checkpoints;
use crate::held::said_by;
use lnt_machine::SequenceRows;
use lnt_spans::{Answer, Position};
use std::alloc::{AllocError, Global};

// What a cache takes beside its rows, in rows in brief: 160 bytes.
const OWN: usize = 10;

/// What is kept of the rows of one sequence, for later lookups: the first of them in brief, or all, and checkpoints in the others.
#[derive(Drop)]
pub struct RowCache<'a> {
    brief: BriefRows,
    buckets: Buckets,
    checkpoints: Checkpoints<'a>,
}

impl<'a> RowCache<'a> {
    /// Keeps the first rows of a sequence in brief, at most `room` of them: those before the first with a number that is too
    /// large. What is taken is subtracted from `room`. Fails only if memory runs out.
    pub fn new(
        alloc: Global,
        rows: SequenceRows<'_>,
        room: &mut usize,
    ) -> Result<RowCache<'a>, AllocError>
        ensures { IfOk result (λ cache. (list : List spec.Row) → WillGive list rows.entry → IsCacheOf list cache) }
    {
        let brief = BriefRows::of(alloc, rows, *room)?;
        *room = room.saturating_sub(brief.rows().len()).saturating_sub(OWN);
        let buckets = Buckets::of(alloc, brief.rows())?;
        Ok(RowCache {
            brief,
            buckets,
            checkpoints: Checkpoints::new(alloc),
        })
    }

    /// Whether nothing is kept.
    pub fn is_empty(&self) -> bool
        ensures { MatchBool result (KeepsNothing self.now) (KeepsNothing self.now → ⊥) }
    {
        self.brief.rows().is_empty() && self.checkpoints.is_empty()
    }

    /// What the sequence answers at a position, as [`answer_at`](crate::answer_at) of all of its rows. `None` if the rows that
    /// are kept don't say it. It decodes nothing.
    #[inline(always)]
    pub fn said_at(&self, unit: u64, position: Position) -> Option<Option<Answer>>
        ensures { IfSome result (λ answer. (list : List spec.Row) → IsCacheOf list self.now → IsOrdered list
            → answer ≡ option_map (sequence.answer_of unit) (sequence.row_at position list)) }
    {
        let count = self.brief.reached(&self.buckets, position)?;
        Some(self.brief.answer(unit, count))
    }

    /// The same of any position, of the sequence with these rows.
    ///
    /// Where the rows that are kept don't say it, it walks over the rows after the last checkpoint that isn't above the position, and
    /// adds a checkpoint wherever it comes to a next one. The one error is that memory ran out.
    pub fn answer_at(
        &mut self,
        unit: u64,
        rows: SequenceRows<'a>,
        position: Position,
    ) -> Result<Option<Answer>, AllocError>
        ensures cache { (list : List spec.Row) → WillGive list rows.entry → IsCacheOf list self.old → IsCacheOf list self.new }
        ensures answer { IfOk result (λ answer. (list : List spec.Row) → WillGive list rows.entry → IsCacheOf list self.old
            → IsOrdered list → answer ≡ option_map (sequence.answer_of unit) (sequence.row_at position list)) }
    {
        match self.said_at(unit, position) {
            Some(answer) => Ok(answer),
            None => Ok(said_by(unit, self.checkpoints.row_at(rows, position)?)),
        }
    }
}
