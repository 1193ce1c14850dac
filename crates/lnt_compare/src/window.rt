//! The bytes of a table that were taken from its source but not parsed yet.
ghost use Rattle.std.specs.Prelude.{◌≡◌, ◌+◌, ◌-◌, ◌^◌, ◌<◌, ◌≤◌, ◌++◌, [], drop, length, IfOk, IsErrOf, IsTrue};
ghost use Rattle.std.specs.Prelude.{MatchOption, OnOk, MatchBool};
ghost use Rattle.lnt_compare.specs.Passing.{Ends, Passes};
ghost use Rattle.lnt_records.specs.Written.{line_text};
ghost use Rattle.lnt_io.specs.Stopping.{CountsFailure, IsTooLongOn};

use lnt_io::{BLOCK, Source, Stop, take_block};
use lnt_records::{ROOM, TableVersion};
use std::alloc::{AllocError, Global};
use std::marker::Model;

/// The bytes of a table that were taken from its source, but not passed yet. Contracts see them as a list.
#[derive(Drop)]
pub struct Window {
    // these bytes are those from index `at` on
    block: Vec<u8>,
    at: usize,
}

impl Model for Window {
    ghost use Rattle.std.specs.Prelude.{ℕ, ◌≤◌, List, drop, length};

    ghost Value = { List ℕ };

    ghost view = { λ w. drop w.at w.block.items };

    ghost invariant = { λ w. w.at ≤ length w.block.items };
}

impl Window {
    /// The first bytes of a source, as many as there are in any line by number, or all if there are fewer. Stops as `fill` does.
    pub fn of<T: Source>(alloc: Global, source: &mut T) -> Result<Window, Stop>
        requires { T.failures source.old < 2 ^ 64 - 1 }
        ensures taken { IfOk result (λ window. Passes (T.remaining source.old) (T.remaining source.new) (T.left source.old)
            (T.left source.new) [] window []) }
        ensures failures { CountsFailure ⟦<T as Source>⟧ source.old source.new result Stop.Read }
        ensures not_long { IsErrOf result Stop.TooLong → ⊥ }
    {
        let block = Vec::new(alloc);
        let mut window = Window { block, at: 0 };
        window.fill(alloc, source, ROOM)?;
        Ok(window)
    }

    /// The current bytes.
    #[inline(always)]
    pub fn bytes(&self) -> &[u8]
        ensures { result.now ≡ self.now }
    {
        &self.block[self.at..]
    }

    /// Moves past `count` bytes, or to the end if there are fewer.
    #[inline(always)]
    pub fn pass(&mut self, count: usize)
        ensures { self.new ≡ drop count self.old }
    {
        self.at += count.min(self.block.len() - self.at);
    }

    /// Moves past this text, if it is next; gives whether it was.
    #[inline(always)]
    pub fn pass_text(&mut self, text: &[u8]) -> bool
        ensures { MatchBool result (self.old ≡ text.now ++ self.new) (self.new ≡ self.old) }
    {
        let is_next = self.bytes().starts_with(text);
        if is_next {
            self.at += text.len();
        }
        is_next
    }

    /// Takes more bytes, block by block, until there are `count`, or the source has none left. Stops with `Memory`, and with
    /// `Read` only if the source failed.
    #[inline(always)]
    pub fn fill<T: Source>(
        &mut self,
        alloc: Global,
        source: &mut T,
        count: usize,
    ) -> Result<(), Stop>
        requires { T.failures source.old < 2 ^ 64 - 1 }
        ensures taken { OnOk result (Passes (T.remaining source.old) (T.remaining source.new) (T.left source.old) (T.left source.new)
            self.old self.new []) }
        ensures failures { CountsFailure ⟦<T as Source>⟧ source.old source.new result Stop.Read }
        ensures not_long { IsErrOf result Stop.TooLong → ⊥ }
    {
        if self.block.len() - self.at >= count {
            return Ok(());
        }
        self.refill(alloc, source, count)
    }

    /// Takes more bytes as `fill` does, and gives whether any came.
    #[inline(never)]
    pub(crate) fn grow<T: Source>(
        &mut self,
        alloc: Global,
        source: &mut T,
        count: usize,
    ) -> Result<bool, Stop>
        requires { T.failures source.old < 2 ^ 64 - 1 }
        ensures taken { OnOk result (Passes (T.remaining source.old) (T.remaining source.new) (T.left source.old) (T.left source.new)
            self.old self.new []) }
        ensures more { IfOk result (λ more. IsTrue more → length self.old < length self.new) }
        ensures failures { CountsFailure ⟦<T as Source>⟧ source.old source.new result Stop.Read }
        ensures not_long { IsErrOf result Stop.TooLong → ⊥ }
    {
        let held = self.bytes().len();
        self.fill(alloc, source, count)?;
        Ok(held < self.bytes().len())
    }

    // The slow path of `fill`, not inlined: a new block begins with the current bytes.
    #[inline(never)]
    fn refill<T: Source>(&mut self, alloc: Global, source: &mut T, count: usize) -> Result<(), Stop>
        requires { T.failures source.old < 2 ^ 64 - 1 }
        ensures taken { OnOk result (Passes (T.remaining source.old) (T.remaining source.new) (T.left source.old) (T.left source.new)
            self.old self.new []) }
        ensures failures { CountsFailure ⟦<T as Source>⟧ source.old source.new result Stop.Read }
        ensures not_long { IsErrOf result Stop.TooLong → ⊥ }
    {
        let mut block = Vec::from_slice(alloc, self.bytes())?;
        fill_block(source, &mut block, count)?;
        *self = Window { block, at: 0 };
        Ok(())
    }

    /// The text, these bytes, and all that the source has left, as one. Stops with `Memory`; with `Read` only if the source failed;
    /// and with `TooLong` only if it has more bytes than it may give.
    pub fn rest_after<T: Source>(
        self,
        alloc: Global,
        text: &[u8],
        source: &mut T,
    ) -> Result<Vec<u8>, Stop>
        requires { T.failures source.old < 2 ^ 64 - 1 }
        ensures ok { IfOk result (λ all. Ends (T.remaining source.old) (T.left source.old) (text.now ++ self) all.items) }
        ensures failures { CountsFailure ⟦<T as Source>⟧ source.old source.new result Stop.Read }
        ensures too_long { IsTooLongOn ⟦<T as Source>⟧ source.old source.new result Stop.TooLong }
    {
        let mut all = joined(alloc, text, self.bytes())?;
        read_rest(source, &mut all)?;
        Ok(all)
    }
}

// Two texts, one after the other.
fn joined(alloc: Global, first: &[u8], second: &[u8]) -> Result<Vec<u8>, AllocError>
    ensures { IfOk result (λ all. all.items ≡ first.now ++ second.now) }
{
    let mut all = Vec::from_slice(alloc, first)?;
    all.extend_from_slice(second)?;
    Ok(all)
}

// Appends bytes of a source to a block until it has `count`, or no more come.
#[tactic(auto, using(crate::proofs::WindowLaws::passes_none, crate::proofs::WindowLaws::passes_block))]
fn fill_block<T: Source>(source: &mut T, block: &mut Vec<u8>, count: usize) -> Result<(), Stop>
    requires { T.failures source.old < 2 ^ 64 - 1 }
    ensures taken { OnOk result (Passes (T.remaining source.old) (T.remaining source.new) (T.left source.old) (T.left source.new)
        block.old.items block.new.items []) }
    ensures failures { CountsFailure ⟦<T as Source>⟧ source.old source.new result Stop.Read }
    ensures not_long { IsErrOf result Stop.TooLong → ⊥ }
{
    while block.len() < count {
        if take_block(source, block, BLOCK)? == 0 {
            return Ok(());
        }
    }
    Ok(())
}

// Appends all bytes that a source has left.
#[tactic(auto, using(crate::proofs::WindowLaws::read_rest_lemmas))]
fn read_rest<T: Source>(source: &mut T, all: &mut Vec<u8>) -> Result<(), Stop>
    requires { T.failures source.old < 2 ^ 64 - 1 }
    ensures ok { OnOk result (Ends (T.remaining source.old) (T.left source.old) all.old.items all.new.items) }
    ensures failures { CountsFailure ⟦<T as Source>⟧ source.old source.new result Stop.Read }
    ensures too_long { IsTooLongOn ⟦<T as Source>⟧ source.old source.new result Stop.TooLong }
{
    while take_block(source, all, BLOCK)? > 0 {}
    if source.too_long() {
        return Err(Stop::TooLong);
    }
    Ok(())
}

/// Moves past the header of one of two versions, if it is next as a line, and gives that version.
pub fn pass_header<V: TableVersion + Copy>(window: &mut Window, one: V, other: V) -> Option<V>
    ensures { MatchOption result (window.new ≡ window.old) (λ version. window.old ≡ line_text (V.names version) ++ window.new) }
{
    if window.pass_text(one.header_line()) {
        return Some(one);
    }
    if window.pass_text(other.header_line()) {
        return Some(other);
    }
    None
}
