//! Lists all stretches of positions at which a section and a table by path answer differently, one after another.
ghost use Rattle.std.specs.Prelude.{◌≡◌, ◌<◌, ℕ, List, [], ◌∷◌, ◌++◌, map, None, Option, Some, IfOk, IfSome, MatchOption, OnOk, ◌≤◌};
ghost use Rattle.lnt_spans.specs.declared.position.Position as spec_position;
ghost use Rattle.lnt_spans.specs.declared.span.Span as spec;
ghost use Rattle.lnt_spans.specs.Partial.{addresses_answered, where_missed};
ghost use Rattle.lnt_spans.specs.Spans.{AreInOrder};
ghost use Rattle.lnt_compare.specs.declared.path_tables.answer.DifferenceByPath as spec_difference;
ghost use Rattle.lnt_compare.specs.Passing.{IsRemembered};
ghost use Rattle.lnt_compare.specs.Held.{held_span};
ghost use Rattle.lnt_records.specs.PathSpans.{PathAnswer, spans_by_path, StandInOrder, path_span_answer};
ghost use Rattle.lnt_compare.specs.PathStretches.{ArePathStretches, stretch_of, stretches_of, told_path_answer};
ghost use Rattle.lnt_records.specs.PathTables.{said_answer};
ghost use Rattle.lnt_compare.specs.Differing.{HasFoundStretchesByPath, IsGoingByPath, path_all_by, path_missed_by, path_stretches_left};
ghost use Rattle.lnt_spans.specs.AnyStretches.{EndsAt, Stretch};

use crate::path_tables::answer::{AnswerByPath, DifferenceByPath};
use crate::path_tables::comparison::whole;
use crate::path_tables::held::HeldSpan;
use crate::path_tables::telling::{PathMemory, PathTelling};
use lnt_records::{HeldPath, PathVersion, Paths};
use lnt_spans::{Position, Run, Runs, SpanSource, Stretches, next_stretch, stretch_end};
use std::alloc::{AllocError, Global};
use std::marker::PhantomData;

/// Gives the stretches: the longest ranges of positions at which a section and a table by path answer differently and both
/// answers stay the same. The section's spans come from a source, and the table's are held.
///
/// Contracts see which stretches were given (`HasFoundStretchesByPath`), and an upper bound on the number left
/// (`path_stretches_left`). No list of them is held: only the next span of the section, the spans that the table has left,
/// the last two answers, and some paths.
#[derive(Drop)]
pub struct DifferencesByPath<'t, S> {
    version: PathVersion,
    stretches: Stretches<S, HeldSpans<'t>, HeldPath<'t>>,
    // `None` before the first stretch is asked for
    memory: Option<PathMemory>,
}

// The spans that a table has left.
#[derive(Drop)]
struct HeldSpans<'t> {
    spans: &'t [HeldSpan],
}

impl<'t, S: SpanSource> DifferencesByPath<'t, S> {
    /// Starts with no stretch given yet, for a section with the spans of the source and a table with these spans. In
    /// contracts the section may be any function that answers as its spans do. The caller makes sure that the spans of both
    /// are in order, and none is empty.
    pub fn of(section: S, table: &'t [HeldSpan], version: PathVersion) -> DifferencesByPath<'t, S>
        ensures { (path : ℕ → ℕ → List ℕ) (list : List spec.Span) (by_section : spec_position.Position → Option PathAnswer)
            → S.to_come section list → AreInOrder list
            → ((p : spec_position.Position) → spans_by_path version path list p ≡ by_section p)
            → StandInOrder (map held_span table.now)
            → HasFoundStretchesByPath S.to_come path result by_section (path_span_answer (map held_span table.now)) [] }
    {
        let table = HeldSpans { spans: table };
        DifferencesByPath {
            version,
            stretches: Stretches::past(section, table, whole(0), 0),
            memory: None,
        }
    }

    /// Gives the next stretch: its first position and the two answers. None once all were given; those are then exactly the
    /// stretches, in rising order, and all addresses were compared. The one error is that memory ran out: then nothing is known
    /// of the state.
    pub fn next_difference<P: Paths>(
        &mut self,
        alloc: Global,
        paths: &P,
    ) -> Result<Option<DifferenceByPath>, AllocError>
        requires { (by_section : spec_position.Position → Option PathAnswer) × (by_table : spec_position.Position → Option PathAnswer)
            × (told : List spec_difference.DifferenceByPath)
            × HasFoundStretchesByPath S.to_come (P.bytes_of paths.now) self.old by_section by_table (stretches_of told) }
        ensures given { IfOk result (λ found. (by_section by_table : spec_position.Position → Option PathAnswer)
            (told : List spec_difference.DifferenceByPath)
            → HasFoundStretchesByPath S.to_come (P.bytes_of paths.now) self.old by_section by_table (stretches_of told)
            → MatchOption found (ArePathStretches by_section by_table told)
            (λ difference. HasFoundStretchesByPath S.to_come (P.bytes_of paths.now) self.new by_section by_table
            (stretches_of (told ++ difference ∷ [])))) }
        ensures missed { IfOk result (λ found. (by_section by_table : spec_position.Position → Option PathAnswer)
            (told : List spec_difference.DifferenceByPath)
            → HasFoundStretchesByPath S.to_come (P.bytes_of paths.now) self.old by_section by_table (stretches_of told)
            → found ≡ None → (path_missed_by self.new ≡ addresses_answered (where_missed by_table by_section))
            × (path_all_by self.new ≡ addresses_answered by_section)) }
        ensures going { IfOk result (λ found. (by_section by_table : spec_position.Position → Option PathAnswer)
            (told : List spec_difference.DifferenceByPath)
            → HasFoundStretchesByPath S.to_come (P.bytes_of paths.now) self.old by_section by_table (stretches_of told)
            → IfSome found (λ difference. IsGoingByPath (P.bytes_of paths.now) self.new by_section by_table (stretch_of difference))) }
        ensures fewer { IfOk result (λ found. IfSome found (λ _.
            path_stretches_left S.left self.new < path_stretches_left S.left self.old)) }
    {
        let telling = PathTelling {
            alloc,
            paths,
            version: self.version,
            held: PhantomData,
        };
        let mut memory = memory_of(alloc, self.memory.take())?;
        let found = next_stretch(&mut self.stretches, &telling, &mut memory)?;
        keep(&mut self.memory, memory);
        Ok(found)
    }

    /// Passes the rest of the stretch that was given last, and gives its end: the first position after it. The one error is that
    /// memory ran out: then nothing is known of the state.
    pub fn stretch_end<P: Paths>(
        &mut self,
        alloc: Global,
        paths: &P,
    ) -> Result<Position, AllocError>
        requires { (by_section : spec_position.Position → Option PathAnswer) × (by_table : spec_position.Position → Option PathAnswer)
            × (told : List spec_difference.DifferenceByPath)
            × HasFoundStretchesByPath S.to_come (P.bytes_of paths.now) self.old by_section by_table (stretches_of told) }
        ensures given { OnOk result ((by_section by_table : spec_position.Position → Option PathAnswer)
            (told : List spec_difference.DifferenceByPath)
            → HasFoundStretchesByPath S.to_come (P.bytes_of paths.now) self.old by_section by_table (stretches_of told)
            → HasFoundStretchesByPath S.to_come (P.bytes_of paths.now) self.new by_section by_table (stretches_of told)) }
        ensures end { IfOk result (λ end. (by_section by_table : spec_position.Position → Option PathAnswer)
            (told : List spec_difference.DifferenceByPath) (last : Stretch PathAnswer)
            → HasFoundStretchesByPath S.to_come (P.bytes_of paths.now) self.old by_section by_table (stretches_of told)
            → IsGoingByPath (P.bytes_of paths.now) self.old by_section by_table last → EndsAt by_section by_table last end) }
        ensures fewer { OnOk result (path_stretches_left S.left self.new ≤ path_stretches_left S.left self.old) }
    {
        let telling = PathTelling {
            alloc,
            paths,
            version: self.version,
            held: PhantomData,
        };
        let mut memory = memory_of(alloc, self.memory.take())?;
        let end = stretch_end(&mut self.stretches, &telling, &mut memory)?;
        keep(&mut self.memory, memory);
        Ok(end)
    }

    /// The number of addresses, among those that were compared, at which the section answers.
    pub fn all(&self) -> u128
        ensures { result ≡ path_all_by self.now }
    {
        self.stretches.all()
    }

    /// The number of addresses, among those that were compared, at which the section answers and the table doesn't.
    pub fn missed(&self) -> u128
        ensures { result ≡ path_missed_by self.now }
    {
        self.stretches.missed()
    }
}

// What is remembered of paths: nothing at first.
fn memory_of(alloc: Global, kept: Option<PathMemory>) -> Result<PathMemory, AllocError>
    ensures { IfOk result (λ memory. (path : ℕ → ℕ → List ℕ) → IfSome kept (IsRemembered path) → IsRemembered path memory) }
{
    match kept {
        Some(memory) => Ok(memory),
        None => {
            let memory = PathMemory::new(alloc)?;
            Ok(memory)
        }
    }
}

// Keeps what is remembered of paths until the next stretch.
fn keep(kept: &mut Option<PathMemory>, memory: PathMemory)
    ensures { kept.new ≡ Some memory }
{
    *kept = Some(memory);
}

impl<'t> Runs<HeldPath<'t>> for HeldSpans<'t> {
    ghost use Rattle.lnt_records.specs.PathSpans.{PathAnswer};
    ghost use Rattle.lnt_records.specs.PathTables.{said_answer};
    ghost use Rattle.lnt_compare.specs.Held.{IsTableAt, held_end, held_runs};

    ghost Value = { PathAnswer };

    ghost value_of = { said_answer };

    ghost is_at = { λ held at answers. IsTableAt held.spans.now at answers };

    ghost end = { λ held at. held_end at held.spans.now };

    ghost runs = { λ held at. held_runs at held.spans.now };

    fn run_at(&self, at: Position) -> Run<HeldPath<'t>> {
        let Some((span, _)) = self.spans.split_first() else {
            return Run {
                answer: None,
                end: None,
            };
        };
        let low = whole(span.low);
        if at < low {
            return Run {
                answer: None,
                end: Some(low),
            };
        }
        Run {
            answer: Some(said_in(&span.answer)),
            end: Some(whole(span.high)),
        }
    }

    fn pass_to(&mut self, to: Position) {
        let Some((span, rest)) = self.spans.split_first() else {
            return;
        };
        if to >= whole(span.high) {
            self.spans = rest;
        }
    }
}

// A held answer; the path is borrowed.
fn said_in<'t>(answer: &'t AnswerByPath) -> HeldPath<'t>
    ensures { said_answer result ≡ told_path_answer answer.now }
{
    HeldPath {
        path: answer.path.as_slice(),
        line: answer.line,
        column: answer.column,
    }
}
