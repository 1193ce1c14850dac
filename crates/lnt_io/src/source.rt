//! Sources of the bytes of a file, which come piece by piece, up to a limit.
ghost use Rattle.std.specs.Prelude.{◌≡◌, ℕ, ◌+◌, ◌-◌, ◌^◌, ◌<◌, ◌≤◌, length, take};
ghost use Rattle.std.specs.Prelude.{IfOk, Bool, true, Option, List, [], MatchResult, Some, codes};
ghost use Rattle.lnt_io.specs.Pulling.{Pulls, IsAtEnd, HasMoreThan};

use std::error::Error;
use std::fmt;

/// A source failed to give its next bytes (stop 34): what it reads from, such as a file, returned an error.
#[derive(Clone, Copy, Debug, PartialEq, Eq)]
pub struct ReadFault;

impl fmt::Display for ReadFault {
    ghost output = { λ _. Some (codes "cannot read") };

    fn fmt<W: fmt::Write>(&self, f: &mut fmt::Formatter<W>) -> fmt::Result {
        f.write_str("cannot read")
    }
}

impl Error for ReadFault {}

/// Gives bytes in order, piece by piece, up to a limit, and may fail.
///
/// Contracts see it by five ghost members: `remaining`, the bytes that it gives from here on, if they are known;
/// `failures`, the number of pulls that failed; `too_long`, whether it was found to have more bytes than it may give;
/// `left`, the number of bytes that it may still give; and `name`, that of the file that it reads, which stays the same and
/// is empty where none is known.
pub trait Source {
    ghost remaining: { Self → Option (List ℕ) };

    ghost failures: { Self → ℕ };

    ghost too_long: { Self → Bool };

    ghost left: { Self → ℕ };

    ghost name: { Self → List ℕ } = { λ _. [] };

    /// Writes the next bytes to the start of `buf`, and returns how many, at most the length of `buf`.
    ///
    /// A result of 0 for a nonempty buffer means that the source is at its end, or too long. An error, and nothing else,
    /// adds one to the number of failures; then the contents of `buf` and the remaining bytes are unspecified. The caller
    /// ensures that the source has failed fewer than `u64::MAX` times.
    fn pull(&mut self, buf: &mut [u8]) -> Result<usize, ReadFault>
        requires { failures self.old < 2 ^ 64 - 1 }
        ensures bound { IfOk result (λ k. k ≤ length buf.new) }
        ensures bytes { IfOk result (λ k. Pulls (remaining self.old) (remaining self.new) (take k buf.new)) }
        ensures end { IfOk result (λ k. k ≡ 0 → 0 < length buf.new → IsAtEnd (remaining self.new) (too_long self.new)) }
        ensures left { IfOk result (λ k. left self.new + k ≡ left self.old) }
        ensures name { name self.new ≡ name self.old }
        ensures failures { MatchResult result
            (λ _. failures self.new ≡ failures self.old) (λ _. failures self.new ≡ failures self.old + 1) };

    /// The number of pulls that failed.
    fn failures(&self) -> u64
        ensures { result ≡ failures self.now };

    /// Whether the source was found to have more bytes than it may give.
    fn too_long(&self) -> bool
        ensures { result ≡ too_long self.now };

    /// The greatest number of bytes that the source may still give.
    fn left(&self) -> u64
        ensures { result ≡ left self.now };

    // Each source proves that if it is too long, more bytes remain than it may still give.
    ghost more: { (s : Self) → too_long s ≡ true → HasMoreThan (remaining s) (left s) };
}
