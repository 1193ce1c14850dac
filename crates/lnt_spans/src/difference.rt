//! Where two lists of spans answer differently.
use crate::answer::Answer;
use crate::position::Position;

/// A position at which a table and a section answer differently, with both answers. An answer is `None` if no span holds
/// the position.
#[derive(Clone, Copy, Debug, PartialEq, Eq)]
pub struct Difference {
    /// The position.
    pub position: Position,
    /// What the table answers there.
    pub by_table: Option<Answer>,
    /// What the section answers there, as a table of the version that was compared contains it.
    pub by_section: Option<Answer>,
}
