//! A cursor over the bytes of a section, from which fields are read one after another.
ghost use Rattle.std.specs.Prelude.{◌≡◌, ◌+◌, ◌^◌, ◌<◌, ◌≤◌, length, IfOk, OnErr, IfErr};
ghost use Rattle.lnt_wire.specs.Bytes.{TakenBytes};
ghost use Rattle.lnt_wire.specs.Reading.{Reads, RefusesField, IsCutShort, Skips};

use crate::fault::{Fault, Reason};
use crate::format::Order;
use std::marker::Model;

/// Reads fields one after another from a slice of a section. No read goes past the end of the slice.
///
/// A read returns a value and moves past exactly the bytes that encode it. It fails only if the remaining bytes don't begin
/// with the encoding of a value, and then leaves the cursor unchanged. The place of the fault is the offset in the section
/// of the field's first byte.
#[derive(Drop)]
pub struct Cursor<'a> {
    rest: &'a [u8],
    place: u64,
    order: Order,
}

impl<'a> Model for Cursor<'a> {
    ghost use Rattle.std.specs.Prelude.{◌+◌, ◌<◌, ◌^◌, length};
    ghost use Rattle.lnt_wire.specs.Reading.{At};

    ghost Value = { At };

    ghost view = { λ c. record { place = c.place; rest = c.rest.now; order = c.order } };

    ghost invariant = { λ c. c.place + length c.rest.now < 2 ^ 64 };
}

impl<'a> Cursor<'a> {
    /// A cursor before the first of these bytes, which is at the offset `base` in the section. The caller ensures that the
    /// offset after the last byte is below 2^64.
    pub fn new(bytes: &'a [u8], base: u64, order: Order) -> Cursor<'a>
        requires { base + length bytes.now < 2 ^ 64 }
        ensures place { result.place ≡ base }
        ensures rest { result.rest ≡ bytes.entry.now }
        ensures order { result.order ≡ order }
    {
        Cursor {
            rest: bytes,
            place: base,
            order,
        }
    }

    /// The offset in the section of the next byte, or of the end of the bytes if none is left.
    pub fn place(&self) -> u64
        ensures value { result ≡ self.now.place }
        ensures room { self.now.place + length self.now.rest < 2 ^ 64 }
    {
        self.place
    }

    /// The remaining bytes, from the next one to the end. The cursor doesn't move.
    pub fn rest(&self) -> &'a [u8]
        ensures { result.now ≡ self.now.rest }
    {
        self.rest
    }

    /// The byte order in which numbers are read.
    pub fn order(&self) -> Order
        ensures { result ≡ self.now.order }
    {
        self.order
    }

    // Another cursor at the same place over the same bytes, so that a field can be read ahead and then dropped.
    pub(crate) fn fork(&self) -> Cursor<'a>
        ensures { result ≡ self.now }
    {
        let Cursor { rest, place, order } = *self;
        Cursor { rest, place, order }
    }

    // Moves past the next `n` bytes. The caller ensures that at least `n` are left.
    #[inline(always)]
    pub(crate) fn skip(&mut self, n: usize)
        requires { n ≤ length self.old.rest }
        ensures { Skips n self.old self.new }
    {
        let Cursor { rest, place, .. } = self;
        let (_, after) = rest.split_at(n);
        *rest = after;
        *place += n as u64;
    }

    /// The next `n` bytes, unchanged. Fails with `Truncated` if fewer are left.
    #[inline(always)]
    #[tactic(auto, using(crate::proofs::ReadLemmas::refuses_short, crate::proofs::ReadLemmas::reads_taken))]
    pub fn take(&mut self, n: usize) -> Result<&'a [u8], Fault>
        ensures ok { IfOk result (λ taken. Reads (TakenBytes n) taken.now self.old self.new) }
        ensures err { IfErr result (λ fault. RefusesField (IsCutShort n) (TakenBytes n) self.old fault) }
        ensures unchanged { OnErr result (self.new ≡ self.old) }
    {
        let Cursor { rest, place, .. } = self;
        if n > rest.len() {
            return Err(Fault {
                place: *place,
                reason: Reason::Truncated,
            });
        }
        let (prefix, _) = rest.split_at(n);
        self.skip(n);
        Ok(prefix)
    }
}
