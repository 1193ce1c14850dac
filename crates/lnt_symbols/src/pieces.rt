//! Pieces in blocks, so that no block is copied as they become more.
ghost use Rattle.std.specs.Prelude.{◌≡◌, ◌+◌, ◌<◌, ◌++◌, ◌∷◌, [], length, List, IfOk, IsPermutation, MatchBool, MatchOption, OnOk, map};
ghost use Rattle.lnt_symbols.specs.declared.piece.Piece as spec_piece;
ghost use Rattle.lnt_symbols.specs.Pieces.{AreRising, RisesFrom, all_pieces, piece_span, still_left};

use crate::piece::{Piece, sort, span_of};
use lnt_spans::{Span, SpanSource};
use std::alloc::{AllocError, Global};
use std::mem;

// How many pieces a block has.
const BLOCK: usize = 4096;

/// Pieces in the order in which they were added.
#[derive(Drop)]
pub(crate) struct Pieces {
    // those of whole blocks
    full: Vec<Vec<Piece>>,
    // those after them
    last: Vec<Piece>,
}

impl Pieces {
    /// No piece yet. It takes no memory.
    pub(crate) fn new(alloc: Global) -> Pieces
        ensures { all_pieces result ≡ [] }
    {
        Pieces {
            full: Vec::new(alloc),
            last: Vec::new(alloc),
        }
    }

    /// Adds a piece.
    #[inline(always)]
    pub(crate) fn push(&mut self, alloc: Global, piece: Piece) -> Result<(), AllocError>
        ensures { OnOk result (all_pieces self.new ≡ all_pieces self.old ++ piece ∷ []) }
    {
        if self.last.len() == BLOCK {
            self.begin_block(alloc)?;
        }
        self.last.push(piece)?;
        Ok(())
    }

    // Begins another block.
    #[inline(never)]
    fn begin_block(&mut self, alloc: Global) -> Result<(), AllocError>
        ensures { OnOk result (all_pieces self.new ≡ all_pieces self.old) }
    {
        let block = Vec::with_capacity(alloc, BLOCK)?;
        let last = mem::replace(&mut self.last, block);
        self.full.push(last)?;
        Ok(())
    }

    /// Puts them into the order of their addresses, unless they are: then they are one block.
    pub(crate) fn put_in_order(&mut self, alloc: Global) -> Result<(), AllocError>
        ensures permutation { OnOk result (IsPermutation (all_pieces self.old) (all_pieces self.new)) }
        ensures rising { OnOk result (AreRising (all_pieces self.new)) }
    {
        if self.greatest().is_some() {
            return Ok(());
        }
        let mut all = self.joined(alloc)?;
        sort(&mut all);
        self.full = Vec::new(alloc);
        self.last = all;
        Ok(())
    }

    // The first address of the last piece, or 0, if none begins below the one before it.
    fn greatest(&self) -> Option<u64>
        ensures { MatchOption result (Unit {0}) (λ _. AreRising (all_pieces self.now)) }
    {
        let mut low = 0;
        for block in &self.full {
            low = rises_to(low, block)?;
        }
        rises_to(low, &self.last)
    }

    // All of them, in one block.
    fn joined(&self, alloc: Global) -> Result<Vec<Piece>, AllocError>
        ensures { IfOk result (λ all. all.items ≡ all_pieces self.now) }
    {
        let mut all = Vec::new(alloc);
        for block in &self.full {
            all.extend_from_slice(block)?;
        }
        all.extend_from_slice(&self.last)?;
        Ok(all)
    }
}

// The first address of the last of the pieces, or `low`, if none begins below the one before it, and the first not below `low`.
fn rises_to(low: u64, pieces: &[Piece]) -> Option<u64>
    ensures { MatchOption result (Unit {0}) (λ last. (more : List spec_piece.Piece) → RisesFrom last more
        → RisesFrom low (pieces.now ++ more)) }
{
    let mut last = low;
    for piece in pieces {
        if piece.low < last {
            return None;
        }
        last = piece.low;
    }
    Some(last)
}

/// A source of the spans of pieces, in their order.
#[derive(Drop)]
pub(crate) struct PieceSpans<'p> {
    rest: &'p [Piece],
    full: &'p [Vec<Piece>],
    last: &'p [Piece],
}

impl<'p> PieceSpans<'p> {
    /// The spans of these pieces.
    pub(crate) fn of(pieces: &'p Pieces) -> PieceSpans<'p>
        ensures { ⟦<PieceSpans<'p> as SpanSource>⟧.to_come result (map piece_span (all_pieces pieces.entry.now)) }
    {
        PieceSpans {
            rest: &[],
            full: &pieces.full,
            last: &pieces.last,
        }
    }

    // Goes on to the next block, once all of one were given. Gives whether there is one.
    #[inline(never)]
    fn go_on(&mut self) -> bool
        requires { self.old.rest.now ≡ [] }
        ensures left { still_left self.new ≡ still_left self.old }
        ensures more { MatchBool result
            (length self.new.full.now + length self.new.last.now < length self.old.full.now + length self.old.last.now)
            (still_left self.old ≡ []) }
    {
        if let Some((block, full)) = self.full.split_first() {
            self.rest = block;
            self.full = full;
            return true;
        }
        if self.last.is_empty() {
            return false;
        }
        self.rest = self.last;
        self.last = &[];
        true
    }
}

impl<'p> SpanSource for PieceSpans<'p> {
    ghost to_come = { λ s spans. map piece_span (still_left s) ≡ spans };

    ghost left = { λ s. length (still_left s) };

    #[inline(always)]
    fn next_span(&mut self) -> Option<Span> {
        while self.rest.is_empty() {
            if !self.go_on() {
                return None;
            }
        }
        let (piece, rest) = self.rest.split_first()?;
        self.rest = rest;
        Some(span_of(*piece))
    }
}
