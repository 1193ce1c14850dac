//! Lists all stretches at which a section and a table by number answer differently.
ghost use Rattle.std.specs.Prelude.{◌≡◌, ◌<◌, ◌≤◌, List, [], ◌∷◌, ◌++◌, None, Option, MatchOption, IfSome};
ghost use Rattle.std.specs.List.{AllByRecursion};
ghost use Rattle.lnt_spans.specs.declared.answer.Answer as spec_answer;
ghost use Rattle.lnt_spans.specs.declared.difference.Difference as spec_difference;
ghost use Rattle.lnt_spans.specs.declared.position.Position as spec_position;
ghost use Rattle.lnt_spans.specs.declared.span.Span as spec;
ghost use Rattle.lnt_spans.specs.Spans.{IsTold, end_of, AreInOrder, span_answer, version_answer};
ghost use Rattle.lnt_spans.specs.Stretching.{HasFoundStretches, IsGoingByNumber, all_by, missed_by, stretches_left};
ghost use Rattle.lnt_spans.specs.Partial.{addresses_answered, addresses_of, where_missed};
ghost use Rattle.lnt_spans.specs.AnyStretches.{EndsAt};
ghost use Rattle.lnt_spans.specs.Differences.{AreStretches, stretch_of};

use crate::ahead::Ahead;
use crate::answer::{Answer, Version};
use crate::any_stretches::{Stretches, next_stretch, stretch_end};
use crate::difference::Difference;
use crate::position::Position;
use crate::source::SpanSource;

/// Gives the stretches: the longest ranges of positions at which a section and a table answer differently and both answers
/// stay the same. The spans of both sides come as they are needed, each from a source of its own.
///
/// Contracts see which stretches were given (`HasFoundStretches`), and an upper bound on the number left (`stretches_left`). No list
/// of them is held: only the next span of each side, and the last two answers. Allocates nothing.
#[derive(Drop)]
pub struct Differences<S, T> {
    version: Version,
    stretches: Stretches<S, Ahead<T>, Answer>,
}

impl<S: SpanSource, T: SpanSource> Differences<S, T> {
    /// Starts at `at`, with no stretch given yet, for a section and a table that begin with the same spans up to there; the
    /// sources give the spans after these. The caller makes sure that the spans of both are in order, that none is empty,
    /// and that the answers of the table's spans are narrowed to what the version contains. Without any spans in common,
    /// `at` is the origin. The common spans answer at this many addresses.
    pub fn past(
        section: S,
        table: T,
        version: Version,
        at: Position,
        answered: u128,
    ) -> Differences<S, T>
        ensures { (by_section : spec_position.Position → Option spec_answer.Answer) (passed spans records : List spec.Span)
            → S.to_come section spans → T.to_come table records
            → AreInOrder (passed ++ spans) → AreInOrder (passed ++ records) → AllByRecursion (IsTold version) (passed ++ records)
            → at ≡ end_of passed → answered ≡ addresses_of passed
            → ((p : spec_position.Position) → version_answer version (passed ++ spans) p ≡ by_section p)
            → HasFoundStretches S.to_come T.to_come result by_section (span_answer (passed ++ records)) [] }
    {
        Differences {
            version,
            stretches: Stretches::past(section, Ahead::of(table), at, answered),
        }
    }

    /// Gives the next stretch: its first position and the two answers. `None` once all were given; those are then exactly
    /// the stretches, in ascending order, and all addresses were compared.
    pub fn next_difference(&mut self) -> Option<Difference>
        requires { (by_section : spec_position.Position → Option spec_answer.Answer)
            × (by_table : spec_position.Position → Option spec_answer.Answer) × (given : List spec_difference.Difference)
            × HasFoundStretches S.to_come T.to_come self.old by_section by_table given }
        ensures given { (by_section by_table : spec_position.Position → Option spec_answer.Answer) (given : List spec_difference.Difference)
            → HasFoundStretches S.to_come T.to_come self.old by_section by_table given
            → MatchOption result (AreStretches by_section by_table given)
            (λ difference. HasFoundStretches S.to_come T.to_come self.new by_section by_table (given ++ difference ∷ [])) }
        ensures missed { (by_section by_table : spec_position.Position → Option spec_answer.Answer)
            (given : List spec_difference.Difference) → HasFoundStretches S.to_come T.to_come self.old by_section by_table given
            → result ≡ None → (missed_by self.new ≡ addresses_answered (where_missed by_table by_section))
            × (all_by self.new ≡ addresses_answered by_section) }
        ensures going { (by_section by_table : spec_position.Position → Option spec_answer.Answer)
            (given : List spec_difference.Difference) → HasFoundStretches S.to_come T.to_come self.old by_section by_table given
            → IfSome result (IsGoingByNumber self.new by_section by_table) }
        ensures fewer { IfSome result (λ _. stretches_left S.left T.left self.new < stretches_left S.left T.left self.old) }
    {
        let version = self.version;
        match next_stretch(&mut self.stretches, &version, &mut ()) {
            Ok(found) => found,
            Err(never) => match never {},
        }
    }

    /// Passes the rest of the stretch that was given last, and gives its end: the first position after it.
    pub fn stretch_end(&mut self) -> Position
        requires { (by_section : spec_position.Position → Option spec_answer.Answer)
            × (by_table : spec_position.Position → Option spec_answer.Answer) × (given : List spec_difference.Difference)
            × HasFoundStretches S.to_come T.to_come self.old by_section by_table given }
        ensures given { (by_section by_table : spec_position.Position → Option spec_answer.Answer)
            (given : List spec_difference.Difference) → HasFoundStretches S.to_come T.to_come self.old by_section by_table given
            → HasFoundStretches S.to_come T.to_come self.new by_section by_table given }
        ensures end { (by_section by_table : spec_position.Position → Option spec_answer.Answer)
            (given : List spec_difference.Difference) (last : spec_difference.Difference)
            → HasFoundStretches S.to_come T.to_come self.old by_section by_table given → IsGoingByNumber self.old by_section by_table last
            → EndsAt by_section by_table (stretch_of last) result }
        ensures fewer { stretches_left S.left T.left self.new ≤ stretches_left S.left T.left self.old }
    {
        let version = self.version;
        match stretch_end(&mut self.stretches, &version, &mut ()) {
            Ok(end) => end,
            Err(never) => match never {},
        }
    }

    /// The number of addresses, among those that were compared, at which the section answers.
    pub fn all(&self) -> u128
        ensures { result ≡ all_by self.now }
    {
        self.stretches.all()
    }

    /// The number of addresses, among those that were compared, at which the section answers and the table doesn't.
    pub fn missed(&self) -> u128
        ensures { result ≡ missed_by self.now }
    {
        self.stretches.missed()
    }
}
