//! Prints where the answers of a table and of a section differ, stretch by stretch, whatever gives the stretches.
ghost use Rattle.std.specs.Prelude.{◌≡◌, [], cond, None, Some, IfErr, IfOk, OnErr};
ghost use Rattle.lnt_answers.specs.Stepping.{AreBegun, ArePrinted};
ghost use Rattle.lnt_io.specs.IoStops.{IsPrinting};

use crate::stretch_lines::{ShownStretch, StretchLines};
use lnt_compare::DifferencesByPath;
use lnt_io::IoStop;
use lnt_records::Paths;
use lnt_spans::{Difference, Differences, Position, SpanSource};
use lnt_table::{
    Coverage, DifferenceByPath, EndedDifference, KeptStretches, Scope, WrongStretches,
};
use std::alloc::{AllocError, Global};
use std::io::Write;

// What gives stretches, each with its end.
//
// Ghost members give the meaning. `Case` is what the section and the table answer, and whatever else a stretch depends on. In a case
// `has_given` says which stretches were given, `ends_at` which position ends a stretch, and `are_all` which stretches are all, and how
// much of the section the table then answers. `can_go_on` is what a next one needs, `covers` the coverage, and `left` an upper bound on
// the stretches that are left.
pub(crate) trait StretchSource<D> {
    ghost use Rattle.std.specs.Prelude.{◌≡◌, ◌<◌, ℕ, List, [], ◌∷◌, ◌++◌, IfOk, IfSome, MatchOption};
    ghost use Rattle.lnt_spans.specs.declared.position.Position.{Position as SpecPosition};
    ghost use Rattle.lnt_spans.specs.declared.scope.Coverage.{Coverage as SpecCoverage};

    ghost Case: { Type 0 };

    ghost can_go_on: { Self → Type 0 };

    ghost has_given: { Self → Case → List D → Type 0 };

    ghost ends_at: { Case → D → SpecPosition → Type 0 };

    ghost are_all: { Case → List D → SpecCoverage → Type 0 };

    ghost covers: { Self → SpecCoverage };

    ghost left: { Self → ℕ };

    // Gives the next stretch; `None` once all were given. After an error nothing is known of the state.
    fn next_ended(&mut self, alloc: Global) -> Result<Option<EndedDifference<D>>, AllocError>
        requires { can_go_on self.old }
        ensures going { IfOk result (λ found. IfSome found (λ _. can_go_on self.new)) }
        ensures given { IfOk result (λ found. (case : Case) (given : List D) → has_given self.old case given
            → MatchOption found (are_all case given (covers self.new))
            (λ ended. has_given self.new case (given ++ ended.difference ∷ []) × ends_at case ended.difference ended.end)) }
        ensures fewer { IfOk result (λ found. IfSome found (λ _. left self.new < left self.old)) };

    // How much of the section the table answers, once all stretches were given.
    fn covered(&self) -> Coverage
        ensures { result ≡ covers self.now };
}

impl<S: SpanSource, T: SpanSource> StretchSource<Difference> for Differences<S, T> {
    ghost use Rattle.std.specs.Prelude.{List, Option, map};
    ghost use Rattle.lnt_spans.specs.declared.answer.Answer.{Answer};
    ghost use Rattle.lnt_spans.specs.declared.difference.Difference.{Difference as SpecDifference};
    ghost use Rattle.lnt_spans.specs.declared.position.Position.{Position as SpecPosition};
    ghost use Rattle.lnt_spans.specs.AnyStretches.{AreAllStretches, EndsAt};
    ghost use Rattle.lnt_spans.specs.Differences.{stretch_of};
    ghost use Rattle.lnt_spans.specs.Partial.{AreCounts};
    ghost use Rattle.lnt_spans.specs.Stretching.{HasFoundStretches, all_by, missed_by, stretches_left};
    ghost use Rattle.lnt_spans.specs.Partial.{coverage_but};
    ghost use Rattle.lnt_answers.specs.Stepping.{TwoAnswers};

    ghost Case = { TwoAnswers Answer };

    ghost can_go_on = { λ differences. (case : TwoAnswers Answer) × (given : List SpecDifference)
        × HasFoundStretches S.to_come T.to_come differences case.by_section case.by_table given };

    ghost has_given = { λ differences case. HasFoundStretches S.to_come T.to_come differences case.by_section case.by_table };

    ghost ends_at = { λ case difference. EndsAt case.by_section case.by_table (stretch_of difference) };

    ghost are_all = { λ case given coverage. AreAllStretches case.by_section case.by_table (map stretch_of given)
        × AreCounts case.by_table case.by_section coverage.answered coverage.all };

    ghost covers = { λ differences. coverage_but (missed_by differences) (all_by differences) };

    ghost left = { stretches_left S.left T.left };

    fn next_ended(
        &mut self,
        alloc: Global,
    ) -> Result<Option<EndedDifference<Difference>>, AllocError> {
        let _ = alloc;
        let Some(difference) = self.next_difference() else {
            return Ok(None);
        };
        let end = self.stretch_end();
        Ok(Some(EndedDifference {
            difference,
            low: difference.position,
            end,
        }))
    }

    fn covered(&self) -> Coverage {
        Coverage::but(self.missed(), self.all())
    }
}

// The stretches of a table by path, with what tells the paths of files.
#[derive(Drop)]
pub(crate) struct PathStretches<'t, 'p, S, P> {
    pub(crate) differences: DifferencesByPath<'t, S>,
    pub(crate) paths: &'p P,
}

impl<'t, 'p, S: SpanSource, P: Paths> StretchSource<DifferenceByPath>
    for PathStretches<'t, 'p, S, P> {
    ghost use Rattle.std.specs.Prelude.{Option, List, map};
    ghost use Rattle.lnt_spans.specs.AnyStretches.{AreAllStretches, EndsAt};
    ghost use Rattle.lnt_spans.specs.Partial.{AreCounts};
    ghost use Rattle.lnt_records.specs.PathSpans.{PathAnswer};
    ghost use Rattle.lnt_compare.specs.declared.path_tables.answer.DifferenceByPath.{DifferenceByPath as SpecDifference};
    ghost use Rattle.lnt_compare.specs.Differing.{HasFoundStretchesByPath, path_all_by, path_missed_by, path_stretches_left};
    ghost use Rattle.lnt_compare.specs.PathStretches.{stretch_of, stretches_of};
    ghost use Rattle.lnt_spans.specs.Partial.{coverage_but};
    ghost use Rattle.lnt_answers.specs.Stepping.{TwoAnswers};

    ghost Case = { TwoAnswers PathAnswer };

    ghost can_go_on = { λ stretches. (case : TwoAnswers PathAnswer) × (given : List SpecDifference)
        × HasFoundStretchesByPath S.to_come (P.bytes_of stretches.paths.now) stretches.differences case.by_section case.by_table
        (stretches_of given) };

    ghost has_given = { λ stretches case given. HasFoundStretchesByPath S.to_come (P.bytes_of stretches.paths.now) stretches.differences
        case.by_section case.by_table (stretches_of given) };

    ghost ends_at = { λ case difference. EndsAt case.by_section case.by_table (stretch_of difference) };

    ghost are_all = { λ case given coverage. AreAllStretches case.by_section case.by_table (map stretch_of given)
        × AreCounts case.by_table case.by_section coverage.answered coverage.all };

    ghost covers = { λ stretches. coverage_but (path_missed_by stretches.differences) (path_all_by stretches.differences) };

    ghost left = { λ stretches. path_stretches_left S.left stretches.differences };

    fn next_ended(
        &mut self,
        alloc: Global,
    ) -> Result<Option<EndedDifference<DifferenceByPath>>, AllocError> {
        let Some(difference) = self.differences.next_difference(alloc, self.paths)? else {
            return Ok(None);
        };
        let end = self.differences.stretch_end(alloc, self.paths)?;
        Ok(Some(EndedDifference {
            low: difference.position,
            end,
            difference,
        }))
    }

    fn covered(&self) -> Coverage {
        Coverage::but(self.differences.missed(), self.differences.all())
    }
}

impl<'i, 'a, D: Drop, K: KeptStretches<D>> StretchSource<D> for WrongStretches<'i, 'a, K, D> {
    ghost use Rattle.lnt_spans.specs.Partial.{AreCounts};
    ghost use Rattle.lnt_table.specs.AnyCopy.{AreAllWrong, EndsWrong};
    ghost use Rattle.lnt_table.specs.WrongStretches.{CanGoOn, wrong_left};
    ghost use Rattle.lnt_answers.specs.Stepping.{CopyCase, HasGivenWrong, said_by};
    ghost use Rattle.std.specs.Prelude.{map};

    ghost Case = { CopyCase K.Told };

    ghost can_go_on = { CanGoOn K.has_given };

    ghost has_given = { HasGivenWrong K.tell K.value_of K.has_given };

    ghost ends_at = { λ case difference.
        EndsWrong case.scope (said_by case) case.by_section case.by_table (K.value_of difference) };

    ghost are_all = { λ case given coverage.
        AreAllWrong case.scope (said_by case) case.by_section case.by_table (map K.value_of given)
        × AreCounts case.by_table case.by_section coverage.answered coverage.all };

    ghost covers = { λ wrong. K.covers wrong.kept };

    ghost left = { wrong_left K.left };

    fn next_ended(&mut self, alloc: Global) -> Result<Option<EndedDifference<D>>, AllocError> {
        self.next_wrong(alloc)
    }

    fn covered(&self) -> Coverage {
        self.coverage()
    }
}

// Prints a line for each stretch in the scope, in ascending order, with its end if ends are told.
//
// If there is none, it returns how much of the section the table answers. Stops with `Write` if the writer failed, and with
// `Memory`. If it stops, a prefix of these lines has been written, and nothing else.
pub(crate) fn print_given<D: ShownStretch + Drop, G: StretchSource<D> + Drop, W: Write>(
    alloc: Global,
    given: G,
    scope: Scope,
    ends: bool,
    out: &mut W,
) -> Result<Option<Coverage>, IoStop>
    requires { G.can_go_on given }
    ensures err { IfErr result IsPrinting }
    ensures lines { IfOk result (λ found. (case : G.Case) → G.has_given given case []
        → ArePrinted D.shown D.answered (G.are_all case) (G.ends_at case) ends scope (W.contents out.old) (W.contents out.new) found) }
    ensures begun { OnErr result ((case : G.Case) → G.has_given given case []
        → AreBegun D.shown D.answered (λ now. G.has_given now case) (G.ends_at case) ends scope (W.contents out.old) (W.contents out.new)) }
{
    let mut given = given;
    let mut lines = StretchLines::new(alloc, scope);
    while let Some(ended) = given.next_ended(alloc)? {
        let end = told_end(ended.end, ends);
        let printed = lines.print(&ended.difference, end, out);
        drop(ended);
        printed?;
    }
    Ok(lines.if_right(given.covered()))
}

// The end of a stretch, if ends are told.
fn told_end(end: Position, ends: bool) -> Option<Position>
    ensures { result ≡ cond ends (Some end) None }
{
    if ends { Some(end) } else { None }
}
