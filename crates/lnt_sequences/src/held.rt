//! Answers at a position, by the extents of sequences and by the rows of the one that holds it.
ghost use Rattle.std.specs.Prelude.{◌≡◌, ◌+◌, ◌^◌, ◌<◌, ◌≤◌, ℕ, List, length, MatchOption, option_map};
ghost use Rattle.lnt_machine.specs.Walking.{WillGive};
ghost use Rattle.lnt_machine.specs.declared.row.Row as spec;
ghost use Rattle.lnt_sequences.specs.Extents.{AreSettled, IsHolderAt, NoneHolds};
ghost use Rattle.lnt_sequences.specs.Rules.{IsOrdered};
ghost use Rattle.lnt_sequences.specs.Sequences as sequence;

use crate::checkpoints::{Checkpoint, WIDE};
use crate::collected::answer_of;
use crate::extent::Extent;
use lnt_machine::{Row, SequenceRows};
use lnt_spans::{Answer, Position, Probes, Side, probe};

/// The index of the extent that holds the position, or `None` if none does.
///
/// The position is compared with at most as many extents as their number has binary digits, so with none if there are no
/// extents, and the number of comparisons is added to `probes`. The caller ensures that the extents are settled, as
/// `entries` returns them, and that `probes` is at most 2^63. Allocates nothing.
pub fn holder(extents: &[Extent], position: Position, probes: &mut Probes) -> Option<usize>
    requires settled { AreSettled extents.now }
    requires count { probes.old ≤ 2 ^ 63 }
    ensures found { MatchOption result (NoneHolds extents.now position) (IsHolderAt extents.now position) }

    // The count never falls, and rises by at most the number of binary digits of the number of extents.
    ensures rises { probes.old ≤ probes.new }
    ensures counted { (digits : ℕ) → length extents.now < 2 ^ digits → probes.new ≤ probes.old + digits }
{
    let mut low = 0;
    let mut high = extents.len();
    while low < high {
        let middle = low + (high - low) / 2;
        let extent = &extents[middle];
        match probe(extent.low, extent.high, position, probes) {
            Side::Below => high = middle,
            Side::Inside => return Some(middle),
            Side::Above => low = middle + 1,
        }
    }
    None
}

// The last row of a sequence that isn't above the position.
fn row_at(rows: SequenceRows<'_>, position: Position) -> Option<Row>
    ensures { (list : List spec.Row) → WillGive list rows.entry → IsOrdered list → result ≡ sequence.row_at position list }
{
    let mut checkpoint = Checkpoint::before(rows);
    while checkpoint.go_on(position, WIDE) {}
    checkpoint.last
}

/// The answer at a position of a sequence whose positions never fall: that of the last of these rows at or below it. `unit` is
/// the offset of its unit in the section. `None` if no row is at or below the position. The rows above it aren't decoded.
/// Allocates nothing.
pub fn answer_at(unit: u64, rows: SequenceRows<'_>, position: Position) -> Option<Answer>
    ensures { (list : List spec.Row) → WillGive list rows.entry → IsOrdered list
        → result ≡ option_map (sequence.answer_of unit) (sequence.row_at position list) }
{
    said_by(unit, row_at(rows, position))
}

// What a row says, if there is one.
pub(crate) fn said_by(unit: u64, row: Option<Row>) -> Option<Answer>
    ensures { result ≡ option_map (sequence.answer_of unit) row }
{
    Some(answer_of(unit, &row?))
}
