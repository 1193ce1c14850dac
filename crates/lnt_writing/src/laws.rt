//! The law of spans by path. It is the contract of a function that takes nothing and does nothing.
ghost use Rattle.lnt_writing.specs.Laws.{OneCanonicalOfPaths};

/// Two canonical lists of spans by path that answer alike at every position are the same list. So there is one shortest
/// table for each way to answer.
#[tactic(auto, using(crate::proofs::UniqueLemmas::one_path_list))]
pub fn one_canonical()
    ensures { OneCanonicalOfPaths }
{}
