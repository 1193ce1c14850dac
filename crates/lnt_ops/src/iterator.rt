//! The operations of a program one by one.
ghost use Rattle.std.specs.Prelude.{◌≡◌, ◌+◌, ◌^◌, ◌<◌, ◌≤◌, drop, length, false, if◌then◌else◌};
ghost use Rattle.std.specs.Iterator.{at_most};
ghost use Rattle.lnt_ops.specs.Walks.{WalkStep};

use crate::operation::read_op;
use crate::short::short_op;
use lnt_header::{HeaderNumbers, OpView};
use lnt_wire::{Cursor, Fault};
use std::marker::Model;

/// The operations of a program in order, each from its own bytes (DWARF 5, section 6.2.5). Allocates nothing.
///
/// It ends after the last operation, or after its first fault, which is that of [`read_op`]. So it gives at most as
/// many items as the program has bytes.
#[derive(Drop)]
pub struct Ops<'a> {
    numbers: &'a HeaderNumbers,
    rest: &'a [u8],
    // the offset after the last byte
    end: u64,
    failed: bool,
}

impl<'a> Model for Ops<'a> {
    ghost use Rattle.std.specs.Prelude.{◌-◌, ◌^◌, ◌<◌, ◌≤◌, length};
    ghost use Rattle.lnt_ops.specs.Walks.{Walk};

    ghost Value = { Walk };

    ghost view = { λ ops. record {
      numbers = ops.numbers.now;
      at = record { place = ops.end - length ops.rest.now; rest = ops.rest.now; order = ops.numbers.now.order };
      failed = ops.failed;
    } };

    ghost invariant = { λ ops. (length ops.rest.now ≤ ops.end) × (ops.end < 2 ^ 64) };
}

impl<'a> Ops<'a> {
    ghost use Rattle.std.specs.Prelude.{◌≡◌, IfNone, IfSome};
    ghost use Rattle.lnt_header.specs.HeaderRules.{AreHeaderNumbers};
    ghost use Rattle.lnt_ops.specs.Walks.{GivesOperation};
    ghost use Rattle.lnt_ops.specs.Short.{NoneShort};

    /// The operations of a program in a unit with this header. The program's first byte is at the offset `place` of the
    /// section, and the offset after its last byte is below 2^64.
    pub fn new(numbers: &'a HeaderNumbers, program: &'a [u8], place: u64) -> Ops<'a>
        requires { place + length program.now < 2 ^ 64 }
        ensures header { result.numbers ≡ numbers.entry.now }
        ensures place { result.at.place ≡ place }
        ensures rest { result.at.rest ≡ program.entry.now }
        ensures order { result.at.order ≡ numbers.entry.now.order }
        ensures going { result.failed ≡ false }
        ensures numbers { AreHeaderNumbers numbers.entry.now }
    {
        // The unit's order is that of the numbers.
        let _order = numbers.order();
        Ops {
            numbers,
            rest: program,
            end: place + program.len() as u64,
            failed: false,
        }
    }

    /// The operations of a program without its first `skipped` bytes; the caller ensures that it has at least as many. The
    /// program's first byte is at the offset `place` of the section, and the offset after its last byte is below 2^64.
    pub fn after(
        numbers: &'a HeaderNumbers,
        program: &'a [u8],
        place: u64,
        skipped: usize,
    ) -> Ops<'a>
        requires room { place + length program.now < 2 ^ 64 }
        requires within { skipped ≤ length program.now }
        ensures header { result.numbers ≡ numbers.entry.now }
        ensures place { result.at.place ≡ place + skipped }
        ensures rest { result.at.rest ≡ drop skipped program.entry.now }
        ensures order { result.at.order ≡ numbers.entry.now.order }
        ensures going { result.failed ≡ false }
        ensures numbers { AreHeaderNumbers numbers.entry.now }
    {
        let (_, rest) = program.split_at(skipped);
        Ops::new(numbers, rest, place + skipped as u64)
    }

    /// A copy of this walk.
    #[inline(always)]
    pub fn fork(&self) -> Ops<'a>
        ensures { result ≡ self.now }
    {
        Ops {
            numbers: self.numbers,
            rest: self.rest,
            end: self.end,
            failed: self.failed,
        }
    }

    /// The number of remaining bytes.
    #[inline(always)]
    pub fn left(&self) -> usize
        ensures { result ≡ length self.now.at.rest }
    {
        self.rest.len()
    }

    /// The next operation, if it is frequent and short: a special opcode, `Copy`, `NegateStmt` or `ConstAddPc`; an
    /// `AdvancePc`, `SetFile`, `SetColumn` or `SetDiscriminator` whose number has one byte; or an `AdvanceLine` whose number
    /// has one or two. It is the one that `next` would return, inlined for loops over many operations. `None` if no such
    /// operation comes next, or one has failed; then the walk is unchanged, and `next` returns what comes.
    #[inline(always)]
    #[tactic(auto, using(crate::proofs::ShortLemmas::steps_short))]
    pub fn next_short(&mut self) -> Option<OpView<'a>>
        ensures steps { IfSome result (λ view. GivesOperation view self.old self.new) }
        ensures unchanged { IfNone result (self.new ≡ self.old) }
        ensures none { IfNone result (self.old.failed ≡ false → NoneShort self.old.numbers self.old.at.rest) }
    {
        if self.failed {
            return None;
        }
        let rest = self.rest;
        let (view, size) = short_op(rest, self.numbers)?;
        let (_, past) = rest.split_at(size);
        self.rest = past;
        Some(view)
    }

    /// The operation that `next` gives, if `next_short` has given none, or `None` at the end: so it isn't looked for again. Gives short
    /// operations too.
    #[inline(always)]
    #[tactic(auto, using(crate::proofs::WalkLemmas::walk_lemmas))]
    pub fn next_long(&mut self) -> Option<Result<OpView<'a>, Fault>>
        ensures steps { WalkStep self.old result self.new }
    {
        if self.failed || self.rest.is_empty() {
            return None;
        }
        let place = self.end - self.rest.len() as u64;
        let mut cursor = Cursor::new(self.rest, place, self.numbers.order());
        match read_op(&mut cursor, self.numbers) {
            Ok(view) => {
                self.rest = cursor.rest();
                Some(Ok(view))
            }
            Err(fault) => {
                self.failed = true;
                Some(Err(fault))
            }
        }
    }
}

impl<'a> Iterator for Ops<'a> {
    type Item = Result<OpView<'a>, Fault>;

    ghost next_gives = { WalkStep };

    ghost remaining = { λ walk. at_most (if walk.failed then 0 else length walk.at.rest) };

    #[inline(always)]
    fn next(&mut self) -> Option<Result<OpView<'a>, Fault>> {
        match self.next_short() {
            Some(view) => Some(Ok(view)),
            None => self.next_long(),
        }
    }
}
