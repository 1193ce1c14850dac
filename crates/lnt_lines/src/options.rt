//! How a section is read.
use lnt_wire::Order;

/// How a section is read.
#[derive(Clone, Copy, Debug, PartialEq, Eq)]
pub struct Options {
    /// The byte order of its numbers.
    pub order: Order,
    /// The address at which sequences of dead code begin, if the caller knows one. A sequence whose first row has it is
    /// dead: it gives no answers, and its files, falls and overlaps aren't judged. Its rows are run like those of any other
    /// sequence.
    pub dead: Option<u64>,
    /// Whether copies are skipped. A live sequence that holds a position is a copy if an earlier one, by units and then by
    /// sequences, begins and ends at the same positions. Linkers that keep one of several equal functions leave such
    /// copies. A copy is judged like any other sequence, but it overlaps none and gives no answers.
    pub skip_copies: bool,
}
