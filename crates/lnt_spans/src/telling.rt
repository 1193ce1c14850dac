//! How much of an answer a table contains.
ghost use Rattle.std.specs.Prelude.{◌≡◌, ◌≢◌, IfOk, OnOk, MatchBool};

use crate::answer::Answer;
use crate::position::Position;

/// How much of an answer a table contains, and how answers are compared as far as it contains them: a table by number contains
/// the numbers of a unit and a file, a table by path the path of the file, which takes memory.
///
/// Each side of a comparison has its word: a section's answer is *told*, as far as a table contains it; a record's is *said*; and the
/// latter, as it lies in memory, is *held*. Ghost members give the meaning. `Told` is what a table contains of an answer, `tell` gives
/// it for the answer of a section, and `said` for the held answer of a record. `is_sound` says that what is remembered of other
/// comparisons is right, and `recalls` that what is remembered of one record is. `value_of` is a difference without regard to where
/// its answers are held.
pub trait Telling {
    ghost use Rattle.std.specs.Prelude.{◌≡◌, ◌≢◌, IfOk, OnOk, Option};
    ghost use Rattle.std.specs.Bool.{MatchBool};
    ghost use Rattle.std.specs.Option.{option_map};
    ghost use Rattle.lnt_spans.specs.declared.answer.Answer.{Answer as SpecAnswer};
    ghost use Rattle.lnt_spans.specs.AnyStretches.{Stretch, stretch_at};

    /// The answer of a record, as it lies in memory.
    type Held: Copy;

    /// What is remembered of comparisons.
    type Memory: Drop;

    /// What is remembered of comparisons with one record.
    type Recalled: Copy;

    /// A position at which a section and a table answer differently, with both answers.
    type Difference: Drop;

    /// Why answers can't be compared.
    type Refusal: Drop;

    ghost Told: { Type 0 };

    ghost tell: { Self → SpecAnswer → Told };

    ghost said: { Self.Held → Told };

    ghost is_sound: { Self → Self.Memory → Type 0 };

    ghost recalls: { Self → Self.Recalled → Self.Held → Type 0 };

    ghost value_of: { Self.Difference → Stretch Told };

    /// Whether a table contains the same of two answers.
    fn alike(
        &self,
        memory: &mut Self::Memory,
        one: &Answer,
        other: &Answer,
    ) -> Result<bool, Self::Refusal>
        requires { is_sound self.now memory.old }
        ensures sound { OnOk result (is_sound self.now memory.new) }
        ensures alike { IfOk result (λ alike. MatchBool alike (tell self.now one.now ≡ tell self.now other.now)
            (tell self.now one.now ≢ tell self.now other.now)) };

    /// Nothing is remembered of any record.
    fn nothing(&self) -> Self::Recalled
        ensures { (answer : Self.Held) → recalls self.now result answer };

    /// Whether an answer of a section is that of a record.
    fn is_said(
        &self,
        memory: &mut Self::Memory,
        recalled: &mut Self::Recalled,
        answer: &Answer,
        held: Self::Held,
    ) -> Result<bool, Self::Refusal>
        requires sound { is_sound self.now memory.old }
        requires recalled { recalls self.now recalled.old held }
        ensures sound { OnOk result (is_sound self.now memory.new) }
        ensures recalled { OnOk result (recalls self.now recalled.new held) }
        ensures same { IfOk result (λ same. MatchBool same (tell self.now answer.now ≡ said held)
            (tell self.now answer.now ≢ said held)) };

    /// Whether two answers of records are the same.
    fn same_said(&self, one: Self::Held, other: Self::Held) -> bool
        ensures { MatchBool result (said one ≡ said other) (said one ≢ said other) };

    /// The difference at this position, with the answers of both sides there.
    fn difference(
        &self,
        position: Position,
        by_table: Option<Self::Held>,
        by_section: Option<Answer>,
    ) -> Result<Self::Difference, Self::Refusal>
        ensures { IfOk result (λ difference. value_of difference
            ≡ stretch_at position (option_map (tell self.now) by_section) (option_map said by_table)) };
}

/// An error that never comes.
#[derive(Clone, Copy)]
pub enum Never {}
