//! How many addresses answer: those of ranges of positions, added up.
ghost use Rattle.std.specs.Prelude.{◌≡◌, ℕ, ◌+◌, ◌^◌, ◌<◌, ◌≤◌, List};
ghost use Rattle.lnt_spans.specs.declared.span.Span as spec;
ghost use Rattle.lnt_spans.specs.Partial.{CountsTo, addresses_between, whole};
ghost use Rattle.lnt_spans.specs.Positions.{IsAtMost, IsBelow};
ghost use Rattle.lnt_spans.specs.Remaining.{IsAhead};

use crate::ahead::Ahead;
use crate::position::Position;
use crate::source::SpanSource;

/// Adds the addresses in the half-open range of positions from `low` up to `high` to a number of addresses: those whose position with
/// operation index 0 is in the range. The sum is right as long as it is at most 2^64, as it is if no two ranges hold the same address.
/// There are 2^64 addresses, so a `u64` doesn't hold every such number.
#[inline(always)]
pub fn add_between(count: &mut u128, low: Position, high: Position)
    ensures { count.old + addresses_between low high ≤ 2 ^ 64 → count.new ≡ count.old + addresses_between low high }
{
    *count = count.saturating_add(count_between(low, high));
}

// The number of addresses in the half-open range of positions from `low` up to `high`: of those whose position with
// operation index 0 is in the range.
#[inline(always)]
fn count_between(low: Position, high: Position) -> u128
    ensures count { result ≡ addresses_between low high }
    ensures bound { result ≤ 2 ^ 64 }
{
    first_from(high).saturating_sub(first_from(low))
}

// The least address whose position with operation index 0 is at or above a position.
#[inline(always)]
fn first_from(position: Position) -> u128
    ensures from { (a : ℕ) → result ≤ a → IsAtMost position (whole a) }
    ensures below { (a : ℕ) → a < result → IsBelow (whole a) position }
    ensures bound { result ≤ 2 ^ 64 }
{
    let address = u128::from(position.address);
    if position.op == 0 {
        address
    } else {
        address + 1
    }
}

// The number of addresses that were counted, with those of the spans that are left.
pub(crate) fn count_left<S: SpanSource + Drop>(ahead: Ahead<S>, mut count: u128) -> u128
    ensures { (total : ℕ) (list : List spec.Span) → CountsTo (IsAhead S.to_come) total ahead count list → result ≡ total }
{
    let Some(span) = ahead.next else {
        return count;
    };
    add_between(&mut count, span.low, span.high);
    count_rest(ahead.spans, count)
}

// Does the same for the spans of a source.
fn count_rest<S: SpanSource + Drop>(mut spans: S, mut count: u128) -> u128
    ensures { (total : ℕ) (list : List spec.Span) → CountsTo S.to_come total spans count list → result ≡ total }
{
    while let Some(span) = spans.next_span() {
        add_between(&mut count, span.low, span.high);
    }
    count
}
