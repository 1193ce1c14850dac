//! Pieces: ranges of addresses of a loaded program, each with its line in a file. They are what a symbol file's table is made of.
ghost use Rattle.std.specs.Prelude.{◌≡◌, IsPermutation};
ghost use Rattle.lnt_records.specs.PathSpans.{whole};
ghost use Rattle.lnt_symbols.specs.Pieces.{AreRising, piece_span};

use lnt_spans::{Answer, Position, Span};

/// The addresses from `low` up to `high`, with one line in a file.
#[derive(Clone, Copy)]
pub(crate) struct Piece {
    /// The first address.
    pub(crate) low: u64,
    /// The first address after it.
    pub(crate) high: u64,
    /// The line in the file.
    pub(crate) line: u32,
    /// The number of the file.
    pub(crate) file: u32,
}

/// Sorts pieces by their first addresses.
pub(crate) fn sort(pieces: &mut [Piece])
    ensures permutation { IsPermutation pieces.old pieces.new }
    ensures rising { AreRising pieces.new }
{
    pieces.sort_unstable_by_key(|piece| piece.low);
}

/// The span of a piece.
#[inline(always)]
pub(crate) fn span_of(piece: Piece) -> Span
    ensures { result ≡ piece_span piece }
{
    Span {
        low: whole(piece.low),
        high: whole(piece.high),
        answer: Answer {
            unit: 0,
            file: piece.file as u64,
            line: piece.line as u64,
            column: 0,
            is_stmt: false,
            more: None,
        },
    }
}

// The position of a whole instruction.
#[inline(always)]
fn whole(address: u64) -> Position
    ensures { result ≡ whole address }
{
    Position { address, op: 0 }
}
