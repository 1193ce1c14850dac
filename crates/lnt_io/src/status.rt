//! How a run ends if nothing stops it.

/// How a run ended, if nothing stopped it.
#[derive(Clone, Copy, Debug, PartialEq, Eq)]
pub enum Status {
    /// All was done, or the answer is yes. The program's exit status is 0.
    Done,
    /// The answer is no: a line that begins with `no` or `bad` was written, or a file is unreadable or doesn't have its
    /// listed sum. The program's exit status is 1.
    No,
}
