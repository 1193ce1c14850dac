//! Answers by path.
use lnt_spans::Position;

/// The answer at a position, as a table by path contains it.
#[derive(Drop)]
pub struct AnswerByPath {
    /// The full path of the file, as bytes.
    pub path: Vec<u8>,
    /// The line in the file.
    pub line: u64,
    /// The column in the line; `None` if the version has no columns.
    pub column: Option<u64>,
}

/// A position at which a table by path and a section answer differently, with both answers in the fields of the table's
/// version. An answer is `None` if no span holds the position.
#[derive(Drop)]
pub struct DifferenceByPath {
    /// The position.
    pub position: Position,
    /// What the table answers there.
    pub by_table: Option<AnswerByPath>,
    /// What the section answers there.
    pub by_section: Option<AnswerByPath>,
}
