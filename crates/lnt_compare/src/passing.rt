//! Moves past the lines of a table that are the lines of a section's canonical spans, without parsing them.
//!
//! Without it each line would be parsed and its span merged, as it is from the first other line on. A check of a section's own table by
//! number takes 0.63 of the instructions of that (`bench/RESULTS.md`).
ghost use Rattle.std.specs.Prelude.{◌≡◌, ◌-◌, ◌^◌, ◌<◌, ℕ, List, IfOk, IsErrOf};
ghost use Rattle.lnt_spans.specs.declared.span.Span as spec;
ghost use Rattle.lnt_spans.specs.Partial.{addresses_of};
ghost use Rattle.lnt_spans.specs.Spans.{AreInOrder};
ghost use Rattle.lnt_compare.specs.Joining.{LeaveOff};
ghost use Rattle.lnt_compare.specs.Passing.{AreLinesOf, Passes};
ghost use Rattle.lnt_io.specs.Stopping.{CountsFailure};

use crate::joined::Joined;
use crate::line_telling::LineTelling;
use crate::remaining::Remaining;
use crate::window::Window;
use lnt_io::{Source, Stop};
use lnt_records::{LineRoom, next_number};
use lnt_spans::{Position, SpanSource, add_between};
use std::alloc::Global;

// The state after these lines: the spans after those of the lines, the number of records so far, including the header, the end of the
// last record, and the number of addresses at which they answer.
#[derive(Drop)]
pub(crate) struct Passed<S> {
    pub(crate) spans: Remaining<S>,
    pub(crate) count: u64,
    pub(crate) end: Position,
    pub(crate) answered: u128,
}

// Moves past the lines of a table that are the lines of the canonical spans, as these come, up to the first line that isn't.
//
// `C` is the caller's result. It gives each caller a copy of its own, inlined, with the walk over the spans in registers:
// one copy shared by two callers takes twice the time.
pub(crate) fn pass_spans<S: SpanSource + Drop, L: LineTelling, T: Source, C>(
    alloc: Global,
    spans: S,
    telling: &L,
    memory: &mut L::Memory,
    source: &mut T,
    window: &mut Window,
) -> Result<Passed<S>, Stop>
    requires failures { T.failures source.old < 2 ^ 64 - 1 }
    requires sound { L.is_sound telling.now memory.old }
    ensures sound { IfOk result (λ passed. L.is_sound telling.now memory.new) }
    ensures ok { IfOk result (λ passed. (text : List ℕ) × (table : List spec.Span)
        × Passes (T.remaining source.old) (T.remaining source.new) (T.left source.old) (T.left source.new) window.old window.new text
        × AreLinesOf L.format L.plain (L.told telling.now) (L.version telling.now) text table passed.count passed.end
        × ((list : List spec.Span) → S.to_come spans list → AreInOrder list → LeaveOff (L.tell telling.now)
        (⟦<Remaining<S> as SpanSource>⟧.to_come passed.spans) list table × (passed.answered ≡ addresses_of table))) }
    ensures failures { CountsFailure ⟦<T as Source>⟧ source.old source.new result Stop.Read }
    ensures not_long { IsErrOf result Stop.TooLong → ⊥ }
{
    let mut joined = Joined::of(spans);
    let mut room = LineRoom::new();
    let mut count = 1;
    let mut end = Position { address: 0, op: 0 };
    let mut answered = 0;
    while let Some(span) = joined.next_joined(telling, memory)? {
        if !telling.pass_line(alloc, memory, &mut room, &span, source, window)? {
            let spans = joined.remaining(Some(span));
            return Ok(Passed {
                spans,
                count,
                end,
                answered,
            });
        }
        count = next_number(count)?;
        end = span.high;
        add_between(&mut answered, span.low, span.high);
    }
    let spans = joined.remaining(None);
    Ok(Passed {
        spans,
        count,
        end,
        answered,
    })
}
