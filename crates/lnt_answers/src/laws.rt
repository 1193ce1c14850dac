//! Laws of texts of positions and of shares, each the contract of a function without parameters that does nothing.
ghost use Rattle.lnt_answers.specs.Laws.{NothingIsEnough, OneNamedPositions, SomeNamedPositions, WholeIsEnough};

/// Each line of a text contains one position, or none, as a function of the line. So a text of positions has one whole
/// answer, and if `print_addresses` stops, a prefix of it has been written.
pub fn one_answer()
    ensures some { SomeNamedPositions }
    ensures one { OneNamedPositions }
{}

/// A table that answers all addresses of a section answers at each percentage of them. So one that gets `yes` from a check gets it from
/// a check of a part too, whatever percentage is asked for.
#[tactic(auto, using(crate::proofs::ShareLemmas::whole_is_enough))]
pub fn whole_is_enough()
    ensures { WholeIsEnough }
{}

/// If no percentage is asked for, no table answers too few addresses.
#[tactic(auto, using(crate::proofs::ShareLemmas::nothing_is_enough))]
pub fn nothing_is_enough()
    ensures { NothingIsEnough }
{}
