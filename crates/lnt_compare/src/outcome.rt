//! What the comparison of a table with a section comes to.
use lnt_records::TableFault;
use lnt_spans::Coverage;

/// What reading a table comes to.
#[derive(Drop)]
pub enum TableRead<T> {
    /// The bytes are not a table: this is the first fault.
    Fault(TableFault),
    /// The bytes are a table, and this is what it was read for.
    Table(T),
}

/// What a table is judged to be in a scope: not a table; or `Ok` with how much of the section it answers, if it is right in the scope; or
/// `Err` with the least position of the scope at which it isn't.
pub type Outcome<D> = TableRead<Result<Coverage, D>>;

/// What is told of a comparison at all positions, or at those at which the table answers.
#[derive(Debug, Drop, PartialEq, Eq)]
pub enum Compared<D> {
    /// The table answers as the section does at every position; or wherever it answers.
    Same,
    /// The bytes are not a table: this is the first fault.
    Fault(TableFault),
    /// The bytes are a table, and this is the least position at which it and the section answer differently; or the least at
    /// which it answers, and the section otherwise or not at all.
    Differs(D),
}
