//! Tests of the crates below `linetab`, in a crate of their own, since a crate with tests is proved twice.
//!
//! They show what no contract says and no run of the program shows: that each call that allocates succeeds if there is
//! enough memory, how a call ends over a reader or a writer that fails, and each generic at a concrete type. What the
//! program answers is shown by the scripts of `tests/`.
#![tactic(auto)]

#[cfg(test)]
mod cli;
#[cfg(test)]
mod each;
#[cfg(test)]
mod older;
#[cfg(test)]
mod samples;
#[cfg(test)]
mod tables;
#[cfg(test)]
mod unit;
