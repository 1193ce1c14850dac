//! Laws of lists of spans. Each is the contract of a function that takes nothing and does nothing.
ghost use Rattle.lnt_spans.specs.Laws.{Borders, FirstStretch, OneCanonical};

/// Two lists of spans that are in order, none empty, answer alike at every position if they answer alike wherever a span of
/// either begins or ends. So two lists can be compared at their borders alone.
#[tactic(auto, using(crate::proofs::BorderLemmas::agree_by_borders))]
pub fn borders()
    ensures { Borders }
{}

/// Two canonical lists of spans that answer alike at every position are the same list.
#[tactic(auto, using(crate::proofs::CanonicalLaws::one_number_list))]
pub fn one_canonical()
    ensures { OneCanonical }
{}

/// In the exact list of stretches at which two sides answer differently, the first stretch begins at the least difference.
/// If the list is empty, the two sides answer alike at every position.
#[tactic(auto, using(crate::proofs::StretchLemmas::first_stretch))]
pub fn first_stretch()
    ensures { FirstStretch }
{}
