//! Answers looked up.
ghost use Rattle.std.specs.Prelude.{◌≡◌, ◌+◌, ◌^◌, ◌<◌, ◌≤◌, ℕ, length, map, MatchOption, None, Some, false, MatchBool};
ghost use Rattle.lnt_spans.specs.Spans.{AreInOrder, span_answer};
ghost use Rattle.lnt_ffi.specs.Flat.{answer_of, span_of};

use crate::flat::{FlatAnswer, FlatSpan};
use lnt_spans::{Position, Probes, Side, probe};

/// Whether something is answered at a position by spans in order, as `linetab_verify` gives them, and what. Where nothing
/// is, `answer` stays as it was.
///
/// It takes no memory, calls nothing, and writes nothing but the answer, so it may run in any thread and in a signal
/// handler. It always returns, whatever the spans are; of spans out of order it says nothing. It compares the position
/// with at most as many spans as their number has binary digits, since it is one call of `lookup_counted`.
#[unsafe(no_mangle)]
pub extern "C" fn linetab_lookup(
    spans: &[FlatSpan],
    address: u64,
    op: u64,
    answer: &mut FlatAnswer,
) -> bool
    ensures looked_up { AreInOrder (map span_of spans.now) → MatchBool result
        (span_answer (map span_of spans.now) (record { address = address; op = op }) ≡ Some (answer_of answer.new))
        (span_answer (map span_of spans.now) (record { address = address; op = op }) ≡ None) }
    ensures unchanged { result ≡ false → answer.new ≡ answer.old }
{
    match lookup_counted(spans, Position { address, op }, &mut Probes::new()) {
        Some(found) => {
            *answer = *found;
            true
        }
        None => false,
    }
}

/// What spans in order, as `linetab_verify` gives them, answer at a position, or None where no span holds it. It takes no memory.
///
/// Whatever the spans are, `probes` rises by the number of those with which the position is compared. They are at most as many as
/// the number of spans has binary digits. The caller makes sure that `probes` is at most 2^63.
#[inline(always)]
pub fn lookup_counted<'a>(
    spans: &'a [FlatSpan],
    position: Position,
    probes: &mut Probes,
) -> Option<&'a FlatAnswer>
    requires { probes.old ≤ 2 ^ 63 }
    ensures answer { AreInOrder (map span_of spans.now) → MatchOption result (span_answer (map span_of spans.now) position ≡ None)
        (λ found. span_answer (map span_of spans.now) position ≡ Some (answer_of found.now)) }
    ensures rises { probes.old ≤ probes.new }
    ensures counted { (digits : ℕ) → length spans.now < 2 ^ digits → probes.new ≤ probes.old + digits }
{
    let mut low = 0;
    let mut high = spans.len();
    while low < high {
        let middle = low + (high - low) / 2;
        let span = &spans[middle];
        match probe(span.low_end(), span.high_end(), position, probes) {
            Side::Below => high = middle,
            Side::Inside => return Some(&span.answer),
            Side::Above => low = middle + 1,
        }
    }
    None
}
