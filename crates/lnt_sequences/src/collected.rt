//! The positions that the live sequences of a section hold.
ghost use Rattle.std.specs.Prelude.{◌≡◌, ◌++◌, [], IfOk, OnOk, IfErr, List, IsPermutation};
ghost use Rattle.lnt_sequences.specs.Copies.{AreExtentsOf};
ghost use Rattle.lnt_sequences.specs.Extents.{AreSettled, IsFirstOverlap, extent_between, extents_of};
ghost use Rattle.lnt_sequences.specs.Rules.{AreApart, AreDistinct};
ghost use Rattle.lnt_sequences.specs.Sequences as spec;
ghost use Rattle.lnt_sequences.specs.Sequences.{Placed, kept_of};
ghost use Rattle.lnt_sequences.specs.Watching.{Collects};

use crate::extent::{Extent, Overlap, first_overlap, kept, sort};
use crate::sequence::SeqId;
use lnt_machine::Row;
use lnt_spans::{Answer, More, Position};
use std::alloc::{AllocError, Global};

/// The positions that the live sequences of a section hold, as far as a watch on each unit has seen their rows.
///
/// It keeps the first and last position of each nonempty sequence, and no row. Contracts say which sequences it is
/// collected from (`Collects`).
#[derive(Debug, Drop)]
pub struct Collected {
    extents: Vec<Extent>,
}

impl Collected {
    /// An empty collection, without sequences. Allocates nothing.
    pub fn new(alloc: Global) -> Collected
        ensures { Collects result [] }
    {
        Collected {
            extents: Vec::new(alloc),
        }
    }

    /// The extents of the collected sequences, by first position, if no position is held by two of them. If copies are
    /// skipped, a sequence that holds a position is left out if an earlier one in the section begins and ends at the same
    /// positions.
    ///
    /// Otherwise the first overlap is returned: the lowest position that two different sequences hold, and the first two
    /// that hold it, by their first positions and then by their places in the section. An empty sequence overlaps none.
    ///
    /// The caller ensures that no two sequences have the same id. Sequences that come in order take one pass. Allocates
    /// nothing.
    pub fn entries(self, skip_copies: bool) -> Result<Vec<Extent>, Overlap>
        requires { (sequences : List Placed) × Collects self sequences × AreDistinct sequences }
        ensures settled { IfOk result (λ entries. AreSettled entries.items) }
        ensures entries { IfOk result (λ entries. (sequences : List Placed) → Collects self sequences
            → IsPermutation (extents_of (kept_of skip_copies sequences)) entries.items) }
        ensures apart { OnOk result ((sequences : List Placed) → Collects self sequences → AreApart (kept_of skip_copies sequences)) }
        ensures overlap { IfErr result (λ overlap. (sequences : List Placed) → Collects self sequences
            → IsFirstOverlap (kept_of skip_copies sequences) overlap) }
    {
        let Collected { extents } = self;
        let mut extents = kept(extents, skip_copies);
        match first_overlap(&mut extents) {
            Some(overlap) => Err(overlap),
            None => Ok(extents),
        }
    }

    /// The extents of the collected sequences that hold positions, copies too, by first position and then by place in the section.
    /// Fails only if memory runs out.
    pub fn all_entries(&self, alloc: Global) -> Result<Vec<Extent>, AllocError>
        ensures { IfOk result (λ all. (sequences : List Placed) → Collects self.now sequences → AreExtentsOf sequences all.items) }
    {
        let mut all = Vec::from_slice(alloc, &self.extents)?;
        sort(&mut all);
        Ok(all)
    }

    // Appends the extent of a sequence, from `first` up to `last`, if it holds any position.
    pub(crate) fn push_extent(
        &mut self,
        id: SeqId,
        first: Position,
        last: Position,
    ) -> Result<(), AllocError>
        ensures { IfOk result (λ _. self.new.extents.items ≡ self.old.extents.items ++ extent_between id first last) }
    {
        if first < last {
            self.extents.push(Extent {
                low: first,
                high: last,
                id,
            })?;
        }
        Ok(())
    }
}

// The position of a row.
#[inline(always)]
pub(crate) fn position_of(row: &Row) -> Position
    ensures { result ≡ spec.position_of row.now }
{
    Position {
        address: row.address,
        op: row.op_index,
    }
}

// The answer that a row gives from its own position on.
#[inline(always)]
pub(crate) fn answer_of(unit: u64, row: &Row) -> Answer
    ensures { result ≡ spec.answer_of unit row.now }
{
    Answer {
        unit,
        file: row.file,
        line: row.line,
        column: row.column,
        is_stmt: row.is_stmt,
        more: Some(More {
            isa: row.isa,
            discriminator: row.discriminator,
        }),
    }
}
