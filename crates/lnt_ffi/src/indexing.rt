//! An index over spans, by which `linetab_lookup_indexed` begins near the span that holds an address.
//!
//! The addresses from the first span on are cut into buckets of as many each, a power of two. The index says for each
//! bucket how many spans begin below it, so those that begin in it lie between its number and the next one's.
//!
//! The answer is that of `linetab_lookup`, which bisects all spans. Of a million spans and more a lookup takes 0.27 to 0.29 of its
//! time, of 100,000 0.58 (`bench/RESULTS.md`).
ghost use Rattle.std.specs.Prelude.{◌≡◌, ◌+◌, ◌-◌, ◌/◌, ◌^◌, ◌<◌, ◌≤◌, ℕ, length, min};
ghost use Rattle.lnt_ffi.specs.Index.{IsBucketIndex, begins_below, first_low, last_low, spans_below};

use crate::flat::FlatSpan;

/// Fills the whole of `index` with an index over the spans, for `linetab_lookup_indexed`. It may have any length: the longer it
/// is, the faster a lookup is, up to about one entry for each span. It allocates nothing and calls nothing.
#[unsafe(no_mangle)]
pub extern "C" fn linetab_index(spans: &[FlatSpan], index: &mut [u32])
    ensures length { length index.new ≡ length index.old }
    ensures index { IsBucketIndex spans.now index.new }
{
    let first = first_low(spans);
    let shift = shift_of(last_low(spans).saturating_sub(first), index.len());
    if index.is_empty() {
        return;
    }
    index[0] = shift;
    let mut place = 0;
    let mut number = 0;
    while number < index.len() - 1 {
        place = first_of_bucket(spans, first, shift, number, place);
        index[number + 1] = entry_of(place);
        number += 1;
    }
}

// The address at which the first span begins; 0 where there is none.
fn first_low(spans: &[FlatSpan]) -> u64
    ensures { result ≡ first_low spans.now }
{
    spans.first().map_or(0, |span| span.low)
}

// The address at which the last span begins; 0 where there is none.
fn last_low(spans: &[FlatSpan]) -> u64
    ensures { result ≡ last_low spans.now }
{
    spans.last().map_or(0, |span| span.low)
}

// The least shift, up to 63, by which an index of `len` entries has one for the bucket of the last address and one for the
// bucket after it. `range` is how far the last address is above the first.
fn shift_of(range: u64, len: usize) -> u32
    ensures small { result < 64 }
    ensures has_room { result < 63 → range / 2 ^ result + 2 < len }
    ensures least { (n : ℕ) → n < result → len ≤ range / 2 ^ n + 2 }
{
    let buckets = (len as u64).saturating_sub(2);
    let mut shift: u32 = 0;
    while shift < 63 && (range >> shift) >= buckets {
        shift += 1;
    }
    shift
}

// The place of the first span that doesn't begin below the bucket with this number, or the number of spans where all do.
// The caller knows that all spans before `from` begin below it.
fn first_of_bucket(spans: &[FlatSpan], first: u64, shift: u32, number: usize, from: usize) -> usize
    requires first { first ≡ first_low spans.now }
    requires shift { shift < 64 }
    requires from { from ≤ spans_below spans.now shift number }
    ensures { result ≡ spans_below spans.now shift number }
{
    let mut place = from;
    while place < spans.len() && begins_below(&spans[place], first, shift, number) {
        place += 1;
    }
    place
}

// Whether a span begins in a bucket below this one.
#[inline(always)]
fn begins_below(span: &FlatSpan, first: u64, shift: u32, number: usize) -> bool
    requires { shift < 64 }
    ensures { result ≡ begins_below first shift number span.now }
{
    (span.low.saturating_sub(first) >> shift) < number as u64
}

// The place as an entry of an index: at most 2^32 - 1, which stands for all greater ones.
fn entry_of(place: usize) -> u32
    ensures { result ≡ min place (2 ^ 32 - 1) }
{
    place.min(u32::MAX as usize) as u32
}
