//! The piece of a line record: what of it lies in its function.
ghost use Rattle.std.specs.Prelude.{◌≡◌, ◌++◌, ◌≤◌, ◌-◌, ◌^◌, OnOk};
ghost use Rattle.lnt_symbols.specs.BreakpadAnswers.{end_of};
ghost use Rattle.lnt_symbols.specs.Pieces.{all_pieces, cut_high, cut_line, cut_low, less};

use crate::breakpad::record::{LineRecord, Range};
use crate::piece::Piece;
use crate::pieces::Pieces;
use std::alloc::{AllocError, Global};

/// Adds the piece of a line record in its function, if it has one and the file's address 0 is loaded at `base`.
#[inline(always)]
pub(crate) fn add_line(
    alloc: Global,
    pieces: &mut Pieces,
    function: Range,
    line: LineRecord,
    base: u64,
) -> Result<(), AllocError>
    ensures { OnOk result (all_pieces pieces.new ≡ all_pieces pieces.old ++ cut_line base function line) }
{
    let low = cut_low(function, line.range);
    let high = cut_high(function, line.range, base);
    if low < high {
        let piece = Piece {
            low: low + base,
            high: high + base,
            line: line.line,
            file: line.file,
        };
        pieces.push(alloc, piece)?;
    }
    Ok(())
}

// Where the part of a line record begins that lies in its function.
#[inline(always)]
fn cut_low(function: Range, line: Range) -> u64
    ensures { result ≡ cut_low function line }
{
    if function.address < line.address {
        line.address
    } else {
        function.address
    }
}

// Where it ends, at an address that a table can have.
#[inline(always)]
fn cut_high(function: Range, line: Range, base: u64) -> u64
    ensures value { result ≡ cut_high base function line }
    ensures bound { result ≤ 2 ^ 64 - 1 - base }
{
    end_up_to(line, end_up_to(function, u64::MAX - base))
}

// The end of a range, or an address below it.
#[inline(always)]
fn end_up_to(range: Range, limit: u64) -> u64
    ensures value { result ≡ less (end_of range) limit }
    ensures bound { result ≤ limit }
{
    if range.address < limit && range.size < limit - range.address {
        return range.address + range.size;
    }
    limit
}
