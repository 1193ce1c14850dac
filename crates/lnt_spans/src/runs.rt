//! Follows the answers of a section or a table, one after another.
ghost use Rattle.std.specs.Prelude.{◌≡◌, None, option_map};

use crate::ahead::Ahead;
use crate::answer::Answer;
use crate::position::Position;
use crate::source::SpanSource;

/// The answer at a position, and where it may end.
#[derive(Clone, Copy)]
pub struct Run<A> {
    /// The answer.
    pub answer: Option<A>,
    /// The first position at which it may be another one; `None` if it never is.
    pub end: Option<Position>,
}

/// The spans that are still to come of a section or of a table, each with an answer of type `A`.
///
/// Ghost members give the meaning. `Value` is what an answer says, without regard to where it is held, and `value_of` gives it.
/// `is_at` says that from a position on the spans answer as a function does. `end` is where the answer at a position may end, and
/// `runs` an upper bound on the number of runs of one answer from there on.
pub trait Runs<A> {
    ghost use Rattle.std.specs.Prelude.{◌≡◌, ◌<◌, ◌≤◌, ℕ, None, Option, Some};
    ghost use Rattle.std.specs.Option.{option_map};
    ghost use Rattle.lnt_spans.specs.declared.position.Position.{Position as SpecPosition};
    ghost use Rattle.lnt_spans.specs.Positions.{IsAtMost};
    ghost use Rattle.lnt_spans.specs.Runs.{IsRun, IsUpTo};

    ghost Value: { Type 0 };

    ghost value_of: { A → Value };

    ghost is_at: { Self → SpecPosition → (SpecPosition → Option Value) → Type 0 };

    ghost end: { Self → SpecPosition → Option SpecPosition };

    ghost runs: { Self → SpecPosition → ℕ };

    /// The answer at a position, and where it may end.
    fn run_at(&self, at: Position) -> Run<A>
        ensures end { result.end ≡ end self.now at }
        ensures ended { result.end ≡ None → result.answer ≡ None }
        ensures run { (answers : SpecPosition → Option Value) → is_at self.now at answers
            → IsRun answers at (option_map value_of result.answer) result.end };

    /// Drops the next span if it ends at or below a position.
    fn pass_to(&mut self, to: Position)
        ensures at { (at : SpecPosition) (answers : SpecPosition → Option Value) → is_at self.old at answers → IsAtMost at to
            → IsUpTo to (end self.old at) → is_at self.new to answers }
        ensures fewer { (at : SpecPosition) → IsAtMost at to → IsUpTo to (end self.old at)
            → (runs self.new to ≤ runs self.old at) × (end self.old at ≡ Some to → runs self.new to < runs self.old at) };
}

impl<S: SpanSource> Runs<Answer> for Ahead<S> {
    ghost use Rattle.lnt_spans.specs.declared.answer.Answer.{Answer as SpecAnswer};
    ghost use Rattle.lnt_spans.specs.Runs.{IsAheadAt, run_end, runs_left};

    ghost Value = { SpecAnswer };

    ghost value_of = { λ answer. answer };

    ghost is_at = { IsAheadAt S.to_come };

    ghost end = { λ ahead at. run_end at ahead.next };

    ghost runs = { λ ahead at. runs_left at ahead.next (S.left ahead.spans) };

    #[inline(always)]
    fn run_at(&self, at: Position) -> Run<Answer> {
        let Some(span) = self.next else {
            return Run {
                answer: None,
                end: None,
            };
        };
        if at < span.low {
            return Run {
                answer: None,
                end: Some(span.low),
            };
        }
        Run {
            answer: Some(span.answer),
            end: Some(span.high),
        }
    }

    #[inline(always)]
    fn pass_to(&mut self, to: Position) {
        let Some(span) = self.next else {
            return;
        };
        if to >= span.high {
            self.pass();
        }
    }
}
