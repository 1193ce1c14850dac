//! The positions that sequences hold, and the first position that two of them hold.
ghost use Rattle.std.specs.Prelude.{◌≢◌, ◌+◌, ◌-◌, ◌<◌, length, slice_index_or, IfNone, IfSome, MatchOption, Some, All, AllPairs};
ghost use Rattle.std.specs.Prelude.{IsPermutation};
ghost use Rattle.lnt_spans.specs.Positions.{IsBelow};
ghost use Rattle.lnt_sequences.specs.Overlaps.{AreGathered, kept_extents, ExtentsDisjoint, ExtentsOverlap};
ghost use Rattle.lnt_sequences.specs.Extents.{AreApartUpTo, AreSettled, AreSorted, Extent};
ghost use Rattle.lnt_sequences.specs.FaultTexts.{overlap_text};

use crate::sequence::SeqId;
use lnt_spans::Position;
use std::error::Error;
use std::fmt;

/// Two different sequences that hold the same position: the first such position, and the first two that hold it.
#[derive(Clone, Copy, Debug, PartialEq, Eq)]
pub struct Overlap {
    /// The sequence that comes first, by its first position and then by its place in the section.
    pub first: SeqId,
    /// The other one.
    pub second: SeqId,
    /// The position. The second sequence begins there.
    pub position: Position,
}

impl fmt::Display for Overlap {
    ghost output = { λ overlap. Some (overlap_text overlap) };

    fn fmt<W: fmt::Write>(&self, f: &mut fmt::Formatter<W>) -> fmt::Result {
        let Position { address, op } = self.position;
        write!(
            f,
            "overlap {} {} at 0x{address:x},{op}",
            self.first, self.second
        )
    }
}

impl Error for Overlap {}

/// The positions that a sequence holds: from `low` up to `high`, which is not among them.
#[derive(Clone, Copy, Debug, PartialEq, Eq)]
pub struct Extent {
    /// The position of its first row.
    pub low: Position,
    /// The position of its end row.
    pub high: Position,
    /// The id of the sequence.
    pub id: SeqId,
}

// The extents without the copies, if these are skipped: of those that begin and end at the same positions, the one that
// comes first in the section is kept. Allocates nothing.
pub(crate) fn kept(mut extents: Vec<Extent>, skip_copies: bool) -> Vec<Extent>
    requires { AllPairs (λ one other. one.id ≢ other.id) extents.items }
    ensures { IsPermutation (kept_extents skip_copies extents.items) result.items }
{
    if !skip_copies {
        return extents;
    }
    gather(&mut extents);
    extents.dedup_by(|next, last| {
        (next.low.address == last.low.address && next.low.op == last.low.op)
            && (next.high.address == last.high.address && next.high.op == last.high.op)
    });
    extents
}

// Sorts extents by first position, then by last position, and then by place in the section: copies are adjacent.
fn gather(extents: &mut [Extent])
    ensures permutation { IsPermutation extents.old extents.new }
    ensures gathered { AreGathered extents.new }
{
    extents.sort_unstable_by_key(|one| {
        (
            one.low.address,
            one.low.op,
            one.high.address,
            one.high.op,
            one.id.unit,
            one.id.index,
        )
    });
}

// Sorts the extents by first position, and then by place in the section, and gives the first overlap, if there is one.
pub(crate) fn first_overlap(extents: &mut [Extent]) -> Option<Overlap>
    requires some { All (λ extent. IsBelow extent.low extent.high) extents.old }
    requires ids { AllPairs (λ one other. one.id ≢ other.id) extents.old }
    ensures apart { IfNone result (AllPairs ExtentsDisjoint extents.old) }
    ensures overlap { IfSome result (ExtentsOverlap extents.old) }
    ensures permutation { IsPermutation extents.old extents.new }
    ensures settled { IfNone result (AreSettled extents.new) }
{
    sort(extents);
    let place = first_crossed(extents)?;
    let one = extents[place];
    let other = extents[place + 1];
    Some(Overlap {
        first: one.id,
        second: other.id,
        position: other.low,
    })
}

// Sorts extents by first position, and then by place in the section.
pub(crate) fn sort(extents: &mut [Extent])
    ensures permutation { IsPermutation extents.old extents.new }
    ensures sorted { AreSorted extents.new }
{
    extents.sort_unstable_by_key(|extent| {
        (
            extent.low.address,
            extent.low.op,
            extent.id.unit,
            extent.id.index,
        )
    });
}

// The index of the first extent that ends above the first position of the next one, and so overlaps it. `None` if there is none.
fn first_crossed(extents: &[Extent]) -> Option<usize>
    ensures { MatchOption result (AreApartUpTo (length extents.now - 1) extents.now)
        (λ k. (k + 1 < length extents.now) × AreApartUpTo k extents.now
        × ((d : Extent) → IsBelow (slice_index_or extents.now (k + 1) d).low (slice_index_or extents.now k d).high)) }
{
    for i in 1..extents.len() {
        if extents[i].low < extents[i - 1].high {
            return Some(i - 1);
        }
    }
    None
}
