//! How the comparison of a table with a section is told.
ghost use Rattle.std.specs.Prelude.{◌≡◌, ◌+◌, ◌^◌, ◌<◌, ◌≤◌, ◌*◌, MatchBool, MatchOption, Some};
ghost use Rattle.lnt_answers.specs.Verdicts.{check_text, checked_status, is_few};

use lnt_compare::Compared;
use lnt_io::Status;
use lnt_table::{CheckedWithin, Coverage, OfKind, Scope, Verdict};
use std::fmt;

/// How the comparison of a table with a section is told.
#[derive(Clone, Copy)]
pub struct Report {
    /// The positions at which the two are compared.
    pub scope: Scope,
    /// Whether the line of a stretch tells its end too.
    pub ends: bool,
    /// Whether the answer of any live sequence that holds a position is right there.
    pub any_copy: bool,
    /// How many of a hundred addresses of the section a table has to answer that is right wherever it answers.
    pub at_least: u64,
}

/// The answer of a check, without the last line feed, if a table that is right wherever it answers has to answer so many of a hundred
/// addresses of the section. If it answers fewer, this is told (number 46), and how many.
#[derive(Clone, Copy)]
pub struct CheckLine<'c>(pub &'c CheckedWithin, pub u64);

impl fmt::Display for CheckLine<'_> {
    ghost output = { λ line. Some (check_text line.1 line.0.now) };

    fn fmt<W: fmt::Write>(&self, f: &mut fmt::Formatter<W>) -> fmt::Result {
        match self.0 {
            CheckedWithin::Covered(coverage) if answers_few(*coverage, self.1) => write!(
                f,
                "no 46 answers {} of {}",
                coverage.answered, coverage.all
            ),
            checked => checked.fmt(f),
        }
    }
}

/// The status with which a run ends after it: `Done` if its first line is `yes`.
pub fn status_of(checked: &CheckedWithin, at_least: u64) -> Status
    ensures { result ≡ checked_status at_least checked.now }
{
    match checked {
        CheckedWithin::Covered(coverage) if answers_few(*coverage, at_least) => Status::No,
        CheckedWithin::Covered(_)
        | CheckedWithin::Checked(OfKind::Numbered(Verdict::Yes) | OfKind::ByPath(Compared::Same)) =>
            Status::Done,
        CheckedWithin::Checked(
            OfKind::Numbered(Verdict::No(_))
            | OfKind::ByPath(Compared::Fault(_) | Compared::Differs(_)),
        ) => Status::No,
    }
}

/// Whether a table answers at fewer than so many of a hundred addresses of the section.
#[tactic(auto, using(crate::proofs::ShareLemmas::few_is))]
pub fn answers_few(coverage: Coverage, at_least: u64) -> bool
    ensures { result ≡ is_few at_least coverage }
{
    is_less(coverage.answered, coverage.all, at_least)
}

// Whether a part is less than so many hundredths of the whole. A product of two of these may have more than 128 bits.
#[tactic(auto, using(crate::proofs::ShareLemmas::less_than, crate::proofs::ShareLemmas::not_less))]
fn is_less(part: u128, whole: u128, hundredths: u64) -> bool
    ensures { MatchBool result (part * 100 < hundredths * whole) (hundredths * whole ≤ part * 100) }
{
    if hundredths == 0 {
        return false;
    }
    let hundredths = u128::from(hundredths);
    let rest = part % hundredths * 100 / hundredths;
    match hundred_times(part / hundredths, rest) {
        Some(least) => least < whole,
        None => false,
    }
}

// A hundred times a number, and another one. `None` if that has more than 128 bits.
fn hundred_times(number: u128, more: u128) -> Option<u128>
    ensures { MatchOption result (2 ^ 128 ≤ number * 100 + more) (λ sum. sum ≡ number * 100 + more) }
{
    number.checked_mul(100)?.checked_add(more)
}
