//! Answers looked up by an index over the spans.
ghost use Rattle.std.specs.Prelude.{◌≡◌, ◌<◌, ◌≤◌, ◌^◌, ℕ, length, map, None, Some, false, true, MatchBool};
ghost use Rattle.lnt_spans.specs.Stepping.{IsBracket};
ghost use Rattle.lnt_spans.specs.Spans.{AreInOrder, span_answer};
ghost use Rattle.lnt_ffi.specs.Flat.{answer_of, span_of};
ghost use Rattle.lnt_ffi.specs.Index.{IsBucketIndex};

use crate::flat::{FlatAnswer, FlatSpan};
use crate::looking::linetab_lookup;
use lnt_spans::Position;

/// Returns the same as `linetab_lookup`, faster if `index` is what `linetab_index` made of these spans. Any other
/// index, such as that of other spans, costs time alone: no more than about twice that of `linetab_lookup`.
///
/// It takes no memory, calls nothing, and writes nothing but the answer. It always returns, whatever the spans are.
#[unsafe(no_mangle)]
pub extern "C" fn linetab_lookup_indexed(
    spans: &[FlatSpan],
    index: &[u32],
    address: u64,
    op: u64,
    answer: &mut FlatAnswer,
) -> bool
    ensures looked_up { AreInOrder (map span_of spans.now) → MatchBool result
        (span_answer (map span_of spans.now) (record { address = address; op = op }) ≡ Some (answer_of answer.new))
        (span_answer (map span_of spans.now) (record { address = address; op = op }) ≡ None) }
    ensures unchanged { result ≡ false → answer.new ≡ answer.old }
{
    let position = Position { address, op };
    let (low, high) = bracket_of(spans, index, address);
    let place = first_ending_above(spans, position, low, high);
    if place < spans.len() {
        let span = &spans[place];
        if position >= span.low_end() && position < span.high_end() {
            *answer = span.answer;
            return true;
        }
    }
    if is_between(spans, position, place) {
        return false;
    }
    // The index is that of other spans.
    linetab_lookup(spans, address, op, answer)
}

// The places between which the index puts the span that holds the address, if any does: from the first up to the second,
// which is not among them. An index that was made of these spans is right there, unless they span half of all addresses or
// more and it has at most three entries.
#[inline(always)]
fn bracket_of(spans: &[FlatSpan], index: &[u32], address: u64) -> (usize, usize)
    ensures upto { result.0 ≤ result.1 }
    ensures within { result.1 ≤ length spans.now }
    ensures index { (made : IsBucketIndex spans.now index.now) → made.shift < 63 → AreInOrder (map span_of spans.now)
        → length spans.now < 2 ^ 32 → (op : ℕ)
        → IsBracket (map span_of spans.now) (record { address = address; op = op }) result.0 result.1 }
{
    let count = spans.len();
    if count == 0 || index.len() < 3 {
        return (0, count);
    }
    let offset = address.saturating_sub(spans[0].low);
    let bucket = (offset.wrapping_shr(index[0]) as usize).min(index.len() - 3);
    let high = (index[bucket + 2] as usize).min(count);
    // The last span that begins below the bucket may reach into it.
    let low = (index[bucket + 1] as usize).saturating_sub(1).min(high);
    (low, high)
}

// The place of the first span, from `low` on and before `high`, that ends above the position; `high` where none does. Where
// the spans are out of order it is some place.
#[inline(always)]
fn first_ending_above(spans: &[FlatSpan], position: Position, low: usize, high: usize) -> usize
    requires upto { low ≤ high }
    requires within { high ≤ length spans.now }
    ensures { result ≤ length spans.now }
{
    let mut low = low;
    let mut high = high;
    while low < high {
        let middle = low + (high - low) / 2;
        if position < spans[middle].high_end() {
            high = middle;
        } else {
            low = middle + 1;
        }
    }
    low
}

// Whether the spans on both sides of a place show that none holds the position: the one before the place, if there is one,
// ends at the position or below, and the one at the place, if there is one, begins above it.
#[inline(always)]
fn is_between(spans: &[FlatSpan], position: Position, place: usize) -> bool
    requires { place ≤ length spans.now }
    ensures { result ≡ true → AreInOrder (map span_of spans.now) → IsBracket (map span_of spans.now) position place place }
{
    if ends_by(spans, position, place) {
        begins_above(spans, position, place)
    } else {
        false
    }
}

// Whether the span before the place, if there is one, ends at the position or below.
#[inline(always)]
fn ends_by(spans: &[FlatSpan], position: Position, place: usize) -> bool
    requires { place ≤ length spans.now }
    ensures { result ≡ true → AreInOrder (map span_of spans.now)
        → IsBracket (map span_of spans.now) position place (length spans.now) }
{
    if place == 0 {
        return true;
    }
    position >= spans[place - 1].high_end()
}

// Whether the span at the place, if there is one, begins above the position.
#[inline(always)]
fn begins_above(spans: &[FlatSpan], position: Position, place: usize) -> bool
    requires { place ≤ length spans.now }
    ensures { result ≡ true → AreInOrder (map span_of spans.now)
        → IsBracket (map span_of spans.now) position place (length spans.now)
        → IsBracket (map span_of spans.now) position place place }
{
    if place == spans.len() {
        return true;
    }
    position < spans[place].low_end()
}
