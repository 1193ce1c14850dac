//! The two kinds of tables.

/// What is said of a table by number, or of one by path.
#[derive(Drop)]
pub enum OfKind<N, P> {
    /// The table begins with the header of version 1 or 2.
    Numbered(N),
    /// It begins with the header of neither.
    ByPath(P),
}
