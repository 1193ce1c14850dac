//! Laws of comparisons. Each is the contract of a function that takes nothing and does nothing.
ghost use Rattle.lnt_compare.specs.Comparisons.{tables_by_number};
ghost use Rattle.lnt_compare.specs.Laws.{FirstStretchesBegin, OneComparison, OneLeastPathDifference};
ghost use Rattle.lnt_compare.specs.Outcomes.{tables_by_path};

/// For given bytes, and what a section answers, a comparison at all positions has only one possible result: that both answer the
/// same, in the fields of the table's version, one fault, or one position with two answers.
/// Paths count by their bytes, not by where they are held.
pub fn one_comparison()
    ensures by_number { OneComparison tables_by_number }
    ensures by_path { OneComparison tables_by_path }
{}

/// Two ways to answer have at most one first difference: one position, with one answer of each.
pub fn one_difference()
    ensures { OneLeastPathDifference }
{}

/// The first stretches at which a section and a table by path answer differently (`AreFirstStretches`) begin every list of all of
/// them.
#[tactic(auto, using(crate::proofs::StretchLaws::first_begin_all))]
pub fn first_stretches()
    ensures { FirstStretchesBegin }
{}
