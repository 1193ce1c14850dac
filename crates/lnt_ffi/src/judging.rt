//! Sections judged, and the spans of good ones.
ghost use Rattle.std.specs.Prelude.{◌≡◌, ◌+◌, ◌^◌, ◌<◌, ◌≤◌, List, [], ◌∷◌, ◌++◌, IfNone, IfSome, drop, length, map, take};
ghost use Rattle.lnt_spans.specs.declared.span.Span as spec;
ghost use Rattle.lnt_ffi.specs.Flat.{span_of};
ghost use Rattle.lnt_ffi.specs.Returns.{IsIndexOfFlat, IsRefused, ReturnsSpans};
ghost use Rattle.lnt_ffi.specs.Verdicts.{yes};

use crate::bytes::Bytes;
use crate::flat::{FlatSpan, flat_span};
use crate::section::FlatSection;
use crate::verdict::{FlatVerdict, verdict_of_no, verdict_of_stop, yes};
use lnt_lines::{Index, JudgedIndex, index_section};
use lnt_spans::{Span, SpanSource};
use std::alloc::Global;

/// Judges a section, and writes the spans of a good one to the beginning of `spans` if there is room for all of them.
///
/// It answers how many there are: one for each two rows of a kept sequence that follow one another at different
/// positions, in order, none empty. Where they are more than `spans` has room for, what that then holds isn't said, and
/// the caller may ask again with more room. Where the section isn't good, or memory ran out, it answers 0, and `verdict`
/// says why; else that is yes.
#[unsafe(no_mangle)]
pub extern "C" fn linetab_verify(
    alloc: Global,
    section: &FlatSection<'_>,
    spans: &mut [FlatSpan],
    verdict: &mut FlatVerdict,
) -> usize
    ensures length { length spans.new ≡ length spans.old }
    ensures returned { ReturnsSpans section.now result spans.old spans.new verdict.new }
{
    match index_of(alloc, section, verdict) {
        Some(index) => put_spans(index.spans(), spans),
        None => 0,
    }
}

// The index of a good section. None where it isn't good, or memory ran out. The verdict says which.
pub(crate) fn index_of<'a>(
    alloc: Global,
    section: &FlatSection<'a>,
    verdict: &mut FlatVerdict,
) -> Option<Index<'a>>
    ensures good { IfSome result (IsIndexOfFlat section.now) }
    ensures yes { IfSome result (λ _. verdict.new ≡ yes) }
    ensures refused { IfNone result (IsRefused section.now verdict.new) }
{
    let mut source = Bytes::of(section.line);
    match index_section(alloc, &mut source, &section.strings(), &section.options()) {
        Ok(JudgedIndex::Good(index)) => {
            *verdict = yes();
            Some(index)
        }
        Ok(JudgedIndex::Bad(no)) => {
            *verdict = verdict_of_no(no);
            None
        }
        Err(stop) => {
            *verdict = verdict_of_stop(stop);
            None
        }
    }
}

// Writes the spans to the beginning of the room, as far as it goes, and returns how many they are. The caller ensures that they
// are fewer than 2^64: a section has no more spans than bytes.
fn put_spans<S: SpanSource + Drop>(spans: S, room: &mut [FlatSpan]) -> usize
    requires few { (list : List spec.Span) × S.to_come spans list × (length list < 2 ^ 64) }
    ensures length { length room.new ≡ length room.old }
    ensures count { (list : List spec.Span) → S.to_come spans list → result ≡ length list }
    ensures there { (list : List spec.Span) → S.to_come spans list → result ≤ length room.old
        → map span_of (take result room.new) ≡ list }
    ensures behind { drop result room.new ≡ drop result room.old }
{
    let mut spans = spans;
    let mut count: usize = 0;
    while let Some(span) = spans.next_span() {
        put_span(&span, count, room);
        count += 1;
    }
    count
}

// Puts a span at a place of the room, if there is one.
#[tactic(auto, using(crate::proofs::PutLemmas::stored, crate::proofs::RoomLemmas::behind_set))]
fn put_span(span: &Span, place: usize, room: &mut [FlatSpan])
    ensures length { length room.new ≡ length room.old }
    ensures there { place < length room.old → map span_of (take (place + 1) room.new) ≡ map span_of (take place room.old) ++ span.now ∷ [] }
    ensures behind { drop (place + 1) room.new ≡ drop (place + 1) room.old }
{
    if place < room.len() {
        room[place] = flat_span(span);
    }
}
