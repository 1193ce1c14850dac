//! What tables by number contain of an answer.
ghost use Rattle.std.specs.Prelude.{◌≡◌, IfOk, option_map};
ghost use Rattle.lnt_spans.specs.AnyStretches.{stretch_at};
ghost use Rattle.lnt_spans.specs.Answers.{in_version};
ghost use Rattle.lnt_spans.specs.Differences.{stretch_of};

use crate::answer::{Answer, Version};
use crate::difference::Difference;
use crate::position::Position;
use crate::telling::{Never, Telling};

impl Telling for Version {
    ghost use Rattle.std.specs.Prelude.{◌≡◌};
    ghost use Rattle.lnt_spans.specs.declared.answer.Answer.{Answer as SpecAnswer};
    ghost use Rattle.lnt_spans.specs.Answers.{in_version};
    ghost use Rattle.lnt_spans.specs.Differences.{stretch_of};

    type Held = Answer;

    type Memory = ();

    type Recalled = ();

    type Difference = Difference;

    type Refusal = Never;

    ghost Told = { SpecAnswer };

    ghost tell = { in_version };

    ghost said = { λ answer. answer };

    ghost is_sound = { λ _ _. Unit {0} };

    ghost recalls = { λ _ _ _. Unit {0} };

    ghost value_of = { stretch_of };

    #[inline(always)]
    fn alike(&self, _memory: &mut (), one: &Answer, other: &Answer) -> Result<bool, Never> {
        Ok(match self {
            Version::One => one.narrow() == other.narrow(),
            Version::Two => one == other,
        })
    }

    #[inline(always)]
    fn nothing(&self) -> () {}

    #[inline(always)]
    fn is_said(
        &self,
        _memory: &mut (),
        _recalled: &mut (),
        answer: &Answer,
        held: Answer,
    ) -> Result<bool, Never> {
        Ok(answer.in_version(*self) == held)
    }

    #[inline(always)]
    fn same_said(&self, one: Answer, other: Answer) -> bool {
        one == other
    }

    #[inline(always)]
    fn difference(
        &self,
        position: Position,
        by_table: Option<Answer>,
        by_section: Option<Answer>,
    ) -> Result<Difference, Never>
        ensures { IfOk result (λ difference. stretch_of difference
            ≡ stretch_at position (option_map (in_version self.now) by_section) (option_map (λ answer. answer) by_table)) }
    {
        let by_section = match by_section {
            Some(answer) => Some(answer.in_version(*self)),
            None => None,
        };
        Ok(Difference {
            position,
            by_table,
            by_section,
        })
    }
}
