//! Gives the stretches at which a table and the kept sequences answer differently, and asks copies about them.
ghost use Rattle.std.specs.Prelude.{◌≡◌, IfOk, option_map};
ghost use Rattle.lnt_records.specs.PathSpans.{told_column};
ghost use Rattle.lnt_compare.specs.PathStretches.{told_path_answer};

use crate::copies::Copies;
use crate::paths::IndexPaths;
use crate::said::TableAnswer;
use lnt_compare::{AnswerByPath, DifferenceByPath, DifferencesByPath};
use lnt_lines::Index;
use lnt_records::{PathVersion, Paths};
use lnt_spans::{Answer, Coverage, Difference, Differences, Position, SpanSource, Version};
use std::alloc::{AllocError, Global};

/// A stretch of positions at which the answers of a table and of a section differ.
#[derive(Drop)]
pub struct EndedDifference<D> {
    /// Its first position, and both answers.
    pub difference: D,
    /// Its first position once more.
    pub low: Position,
    /// The first position after it.
    pub end: Position,
}

/// The stretches at which a table and the sequences that are kept answer differently, one after another, and whether copies answer there
/// as the table does.
///
/// Ghost members give the meaning. `Told` is what a table contains of an answer, `tell` gives it for that of a sequence, and `value_of` is
/// a difference without regard to where its answers are held. `has_given` says which stretches were given, if the section and the table
/// answer so, `covers` how much of the section the table answers, and `left` is an upper bound on the stretches that are left.
pub trait KeptStretches<D> {
    ghost use Rattle.std.specs.Prelude.{◌≡◌, ◌<◌, ℕ, List, [], ◌∷◌, ◌++◌, map, is_some, Option, Some, IfOk, IfSome, MatchOption};
    ghost use Rattle.lnt_spans.specs.declared.answer.Answer.{Answer as SpecAnswer};
    ghost use Rattle.lnt_spans.specs.declared.position.Position.{Position as SpecPosition};
    ghost use Rattle.lnt_spans.specs.AnyStretches.{AreAllStretches, AreFirstStretches, EndsAt, Stretch, stretch_at};
    ghost use Rattle.lnt_spans.specs.Partial.{AreCounts};
    ghost use Rattle.lnt_spans.specs.Positions.{IsAtMost, IsBelow};
    ghost use Rattle.lnt_sequences.specs.Copies.{IsAnyAnswer};
    ghost use Rattle.lnt_spans.specs.declared.scope.Coverage.{Coverage as SpecCoverage};
    ghost use Rattle.lnt_table.specs.Asked.{AreCopies, AreReady, FindsTurn, OfLive};

    ghost Told: { Type 0 };

    ghost tell: { Self → SpecAnswer → Told };

    ghost value_of: { D → Stretch Told };

    ghost has_given: { Self → (SpecPosition → Option Told) → (SpecPosition → Option Told) → List D → Type 0 };

    ghost covers: { Self → SpecCoverage };

    ghost left: { Self → ℕ };

    /// Gives the next stretch; `None` once all were given. After an error nothing is known of the state.
    fn next_kept(&mut self, alloc: Global) -> Result<Option<EndedDifference<D>>, AllocError>
        requires { (by_section : SpecPosition → Option Told) × (by_table : SpecPosition → Option Told) × (given : List D)
            × has_given self.old by_section by_table given }
        ensures tell { tell self.new ≡ tell self.old }
        ensures given { IfOk result (λ found. (by_section by_table : SpecPosition → Option Told) (given : List D)
            → has_given self.old by_section by_table given → MatchOption found (AreAllStretches by_section by_table (map value_of given)
            × AreCounts by_table by_section (covers self.new).answered (covers self.new).all)
            (λ ended. has_given self.new by_section by_table (given ++ ended.difference ∷ [])
            × AreFirstStretches by_section by_table (map value_of (given ++ ended.difference ∷ []))
            × EndsAt by_section by_table (value_of ended.difference) ended.end)) }
        ensures low { IfOk result (λ found. IfSome found (λ ended. ended.low ≡ (value_of ended.difference).position)) }
        ensures fewer { IfOk result (λ found. IfSome found (λ _. left self.new < left self.old)) };

    /// How much of the section the table answers, once all stretches were given.
    fn coverage(&self) -> Coverage
        ensures { result ≡ covers self.now };

    /// Whether the table answers in the stretch.
    fn is_answered(&self, difference: &D) -> bool
        ensures { result ≡ is_some (value_of difference.now).by_table };

    /// The least position from `low` up to `high` at which one of the live sequences says what the table does in this stretch, if that is
    /// looked for; and else the least at which none of them does. For the same stretch the copies may then be asked from there on.
    fn first_turn(
        &self,
        alloc: Global,
        copies: &mut Copies<'_, '_>,
        difference: &D,
        is_said: bool,
        low: Position,
        high: Position,
    ) -> Result<Option<Position>, AllocError>
        requires copies { AreCopies copies.old }
        requires some { IsBelow low high }
        ensures copies { AreCopies copies.new }
        ensures index { copies.new.index ≡ copies.old.index }
        ensures range { IfOk result (λ found. IfSome found (λ at. IsAtMost low at × IsBelow at high)) }
        ensures found { IfOk result (λ found. OfLive copies.old.index.now (λ selection. IfSome (value_of difference.now).by_table (λ told.
            FindsTurn is_said (IsAnyAnswer (tell self.now) selection) (AreReady (tell self.now) selection copies.old)
            (AreReady (tell self.now) selection copies.new) (Some told) low high found))) };

    /// The same answers at another position.
    fn moved(&self, alloc: Global, difference: &D, position: Position) -> Result<D, AllocError>
        ensures { IfOk result (λ moved.
            value_of moved ≡ stretch_at position (value_of difference.now).by_section (value_of difference.now).by_table) };
}

// The answer of a record by number, in the fields of the table's version.
#[derive(Clone, Copy)]
struct NumberAnswer {
    version: Version,
    answer: Answer,
}

impl TableAnswer for NumberAnswer {
    ghost use Rattle.lnt_spans.specs.declared.answer.Answer.{Answer as SpecAnswer};
    ghost use Rattle.lnt_spans.specs.Answers.{in_version};

    ghost Told = { SpecAnswer };

    ghost tell = { λ number. in_version number.version };

    ghost said = { λ number. number.answer };

    fn is_that(&self, answer: &Answer) -> Result<bool, AllocError> {
        Ok(answer.in_version(self.version) == self.answer)
    }
}

/// The stretches of a table by number.
#[derive(Drop)]
pub struct ByNumber<S, T> {
    /// The table's version.
    pub version: Version,
    /// What gives them.
    pub differences: Differences<S, T>,
}

impl<S: SpanSource, T: SpanSource> KeptStretches<Difference> for ByNumber<S, T> {
    ghost use Rattle.lnt_spans.specs.declared.answer.Answer.{Answer as SpecAnswer};
    ghost use Rattle.lnt_spans.specs.Answers.{in_version};
    ghost use Rattle.lnt_spans.specs.Differences.{stretch_of};
    ghost use Rattle.lnt_spans.specs.Stretching.{HasFoundStretches, all_by, missed_by, stretches_left};
    ghost use Rattle.lnt_spans.specs.Partial.{coverage_but};

    ghost Told = { SpecAnswer };

    ghost tell = { λ kept. in_version kept.version };

    ghost value_of = { stretch_of };

    ghost has_given = { λ kept. HasFoundStretches S.to_come T.to_come kept.differences };

    ghost covers = { λ kept. coverage_but (missed_by kept.differences) (all_by kept.differences) };

    ghost left = { λ kept. stretches_left S.left T.left kept.differences };

    fn next_kept(
        &mut self,
        alloc: Global,
    ) -> Result<Option<EndedDifference<Difference>>, AllocError> {
        let _ = alloc;
        let Some(difference) = self.differences.next_difference() else {
            return Ok(None);
        };
        let end = self.differences.stretch_end();
        Ok(Some(EndedDifference {
            difference,
            low: difference.position,
            end,
        }))
    }

    fn coverage(&self) -> Coverage {
        Coverage::but(self.differences.missed(), self.differences.all())
    }

    fn is_answered(&self, difference: &Difference) -> bool {
        difference.by_table.is_some()
    }

    fn first_turn(
        &self,
        alloc: Global,
        copies: &mut Copies<'_, '_>,
        difference: &Difference,
        is_said: bool,
        low: Position,
        high: Position,
    ) -> Result<Option<Position>, AllocError> {
        let Some(answer) = difference.by_table else {
            return Ok(None);
        };
        let version = self.version;
        let number = NumberAnswer { version, answer };
        let found = copies.first_turn(alloc, &number, is_said, low, high)?;
        Ok(found)
    }

    fn moved(
        &self,
        alloc: Global,
        difference: &Difference,
        position: Position,
    ) -> Result<Difference, AllocError> {
        let _ = alloc;
        Ok(Difference {
            position,
            ..*difference
        })
    }
}

// The answer of a record by path, if these are the units of the index.
#[derive(Drop)]
struct AnswerOfPath<'p, 'a> {
    alloc: Global,
    index: &'p Index<'a>,
    version: PathVersion,
    answer: &'p AnswerByPath,
}

impl<'p, 'a> TableAnswer for AnswerOfPath<'p, 'a> {
    ghost use Rattle.lnt_records.specs.PathSpans.{PathAnswer, path_answer};
    ghost use Rattle.lnt_compare.specs.PathStretches.{told_path_answer};
    ghost use Rattle.lnt_table.specs.Headline.{indexed_path};

    ghost Told = { PathAnswer };

    ghost tell = { λ held. path_answer held.version (indexed_path held.index.now) };

    ghost said = { λ held. told_path_answer held.answer.now };

    fn is_that(&self, answer: &Answer) -> Result<bool, AllocError> {
        if answer.line != self.answer.line
            || column_in(self.version, answer.column) != self.answer.column
        {
            return Ok(false);
        }
        let paths = IndexPaths { index: self.index };
        let path = paths.path_of(self.alloc, answer.unit, answer.file)?;
        Ok(path.as_slice() == self.answer.path.as_slice())
    }
}

// The column, if the version has columns.
fn column_in(version: PathVersion, column: u64) -> Option<u64>
    ensures { result ≡ told_column version column }
{
    match version {
        PathVersion::Three => Some(column),
        PathVersion::Four => None,
    }
}

/// The stretches of a table by path.
#[derive(Drop)]
pub struct ByPath<'t, 'i, 'a, S> {
    /// The index of the section.
    pub index: &'i Index<'a>,
    /// The table's version.
    pub version: PathVersion,
    /// What gives them.
    pub differences: DifferencesByPath<'t, S>,
}

impl<'t, 'i, 'a, S: SpanSource> KeptStretches<DifferenceByPath> for ByPath<'t, 'i, 'a, S> {
    ghost use Rattle.lnt_records.specs.PathSpans.{PathAnswer, path_answer};
    ghost use Rattle.lnt_compare.specs.Differing.{HasFoundStretchesByPath, path_all_by, path_missed_by, path_stretches_left};
    ghost use Rattle.lnt_compare.specs.PathStretches.{stretch_of, stretches_of};
    ghost use Rattle.lnt_spans.specs.Partial.{coverage_but};
    ghost use Rattle.lnt_table.specs.Headline.{indexed_path};

    ghost Told = { PathAnswer };

    ghost tell = { λ kept. path_answer kept.version (indexed_path kept.index.now) };

    ghost value_of = { stretch_of };

    ghost has_given = { λ kept by_section by_table given. HasFoundStretchesByPath S.to_come (indexed_path kept.index.now) kept.differences
        by_section by_table (stretches_of given) };

    ghost covers = { λ kept. coverage_but (path_missed_by kept.differences) (path_all_by kept.differences) };

    ghost left = { λ kept. path_stretches_left S.left kept.differences };

    fn next_kept(
        &mut self,
        alloc: Global,
    ) -> Result<Option<EndedDifference<DifferenceByPath>>, AllocError> {
        let paths = IndexPaths { index: self.index };
        let Some(difference) = self.differences.next_difference(alloc, &paths)? else {
            return Ok(None);
        };
        let end = self.differences.stretch_end(alloc, &paths)?;
        Ok(Some(EndedDifference {
            low: difference.position,
            end,
            difference,
        }))
    }

    fn coverage(&self) -> Coverage {
        Coverage::but(self.differences.missed(), self.differences.all())
    }

    fn is_answered(&self, difference: &DifferenceByPath) -> bool {
        difference.by_table.is_some()
    }

    fn first_turn(
        &self,
        alloc: Global,
        copies: &mut Copies<'_, '_>,
        difference: &DifferenceByPath,
        is_said: bool,
        low: Position,
        high: Position,
    ) -> Result<Option<Position>, AllocError> {
        let Some(answer) = &difference.by_table else {
            return Ok(None);
        };
        let held = AnswerOfPath {
            alloc,
            index: self.index,
            version: self.version,
            answer,
        };
        let found = copies.first_turn(alloc, &held, is_said, low, high)?;
        Ok(found)
    }

    fn moved(
        &self,
        alloc: Global,
        difference: &DifferenceByPath,
        position: Position,
    ) -> Result<DifferenceByPath, AllocError> {
        let by_table = copied(alloc, &difference.by_table)?;
        let by_section = copied(alloc, &difference.by_section)?;
        Ok(DifferenceByPath {
            position,
            by_table,
            by_section,
        })
    }
}

// The same answer, with a path of its own.
fn copied(alloc: Global, answer: &Option<AnswerByPath>) -> Result<Option<AnswerByPath>, AllocError>
    ensures { IfOk result (λ copied. option_map told_path_answer copied ≡ option_map told_path_answer answer.now) }
{
    let Some(answer) = answer else {
        return Ok(None);
    };
    let path = Vec::from_slice(alloc, answer.path.as_slice())?;
    Ok(Some(AnswerByPath {
        path,
        line: answer.line,
        column: answer.column,
    }))
}
