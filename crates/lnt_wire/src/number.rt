//! Reads fixed-width numbers in either byte order, and of offsets in either format (DWARF 5, sections 7.4 and 7.5.5).
ghost use Rattle.std.specs.Prelude.{◌≡◌, length, IfOk, OnErr, IfErr};
ghost use Rattle.lnt_wire.specs.Numbers.{NumberBytes, OffsetBytes, offset_size};
ghost use Rattle.lnt_wire.specs.Reading.{Reads, RefusesField, IsCutShort};

use crate::cursor::Cursor;
use crate::fault::Fault;
use crate::format::{Format, Order};
use byteorder::{BigEndian, ByteOrder, LittleEndian};

impl<'a> Cursor<'a> {
    /// The next byte as an unsigned number. Fails with `Truncated` if none is left.
    #[inline(always)]
    #[tactic(auto, using(crate::proofs::NumberLaws::one_byte, crate::proofs::ReadLemmas::number_exits))]
    pub fn u8(&mut self) -> Result<u8, Fault>
        ensures ok { IfOk result (λ v. Reads (NumberBytes self.old.order 1) v self.old self.new) }
        ensures err { IfErr result (λ fault. RefusesField (IsCutShort 1) (NumberBytes self.old.order 1) self.old fault) }
        ensures unchanged { OnErr result (self.new ≡ self.old) }
    {
        let bytes = self.take(1)?;
        Ok(bytes[0])
    }

    /// The unsigned number of the next 2 bytes, in the cursor's order. Fails with `Truncated` if fewer are left.
    #[inline(always)]
    #[tactic(auto, using(crate::proofs::ReadLemmas::number_exits))]
    pub fn u16(&mut self) -> Result<u16, Fault>
        ensures ok { IfOk result (λ v. Reads (NumberBytes self.old.order 2) v self.old self.new) }
        ensures err { IfErr result (λ fault. RefusesField (IsCutShort 2) (NumberBytes self.old.order 2) self.old fault) }
        ensures unchanged { OnErr result (self.new ≡ self.old) }
    {
        let order = self.order();
        let bytes = self.take(2)?;
        Ok(u16_of(order, bytes))
    }

    /// The unsigned number of the next 4 bytes, in the cursor's order. Fails with `Truncated` if fewer are left.
    #[inline(always)]
    #[tactic(auto, using(crate::proofs::ReadLemmas::number_exits))]
    pub fn u32(&mut self) -> Result<u32, Fault>
        ensures ok { IfOk result (λ v. Reads (NumberBytes self.old.order 4) v self.old self.new) }
        ensures err { IfErr result (λ fault. RefusesField (IsCutShort 4) (NumberBytes self.old.order 4) self.old fault) }
        ensures unchanged { OnErr result (self.new ≡ self.old) }
    {
        let order = self.order();
        let bytes = self.take(4)?;
        Ok(u32_of(order, bytes))
    }

    /// The unsigned number of the next 8 bytes, in the cursor's order. Fails with `Truncated` if fewer are left.
    #[inline(always)]
    #[tactic(auto, using(crate::proofs::ReadLemmas::number_exits))]
    pub fn u64(&mut self) -> Result<u64, Fault>
        ensures ok { IfOk result (λ v. Reads (NumberBytes self.old.order 8) v self.old self.new) }
        ensures err { IfErr result (λ fault. RefusesField (IsCutShort 8) (NumberBytes self.old.order 8) self.old fault) }
        ensures unchanged { OnErr result (self.new ≡ self.old) }
    {
        let order = self.order();
        let bytes = self.take(8)?;
        Ok(u64_of(order, bytes))
    }

    /// The next offset or length, which has 4 bytes in the 32-bit format and 8 in the 64-bit one (DWARF 5, section 7.4).
    /// Fails with `Truncated` if fewer are left.
    #[inline(always)]
    pub fn offset(&mut self, format: Format) -> Result<u64, Fault>
        ensures ok { IfOk result (λ v. Reads (OffsetBytes format self.old.order) v self.old self.new) }
        ensures err { IfErr result (λ fault.
            RefusesField (IsCutShort (offset_size format)) (OffsetBytes format self.old.order) self.old fault) }
        ensures unchanged { OnErr result (self.new ≡ self.old) }
    {
        match format {
            Format::D32 => Ok(u64::from(self.u32()?)),
            Format::D64 => self.u64(),
        }
    }
}

// The number that these 2 bytes encode in the order.
#[tactic(auto, using(crate::proofs::NumberLaws::number_read_2))]
fn u16_of(order: Order, bytes: &[u8]) -> u16
    requires { length bytes.now ≡ 2 }
    ensures { NumberBytes order 2 result bytes.now }
{
    match order {
        Order::Little => LittleEndian::read_u16(bytes),
        Order::Big => BigEndian::read_u16(bytes),
    }
}

// The number that these 4 bytes encode in the order.
#[tactic(auto, using(crate::proofs::NumberLaws::number_read_4))]
fn u32_of(order: Order, bytes: &[u8]) -> u32
    requires { length bytes.now ≡ 4 }
    ensures { NumberBytes order 4 result bytes.now }
{
    match order {
        Order::Little => LittleEndian::read_u32(bytes),
        Order::Big => BigEndian::read_u32(bytes),
    }
}

// The number that these 8 bytes encode in the order.
#[tactic(auto, using(crate::proofs::NumberLaws::number_read_8))]
fn u64_of(order: Order, bytes: &[u8]) -> u64
    requires { length bytes.now ≡ 8 }
    ensures { NumberBytes order 8 result bytes.now }
{
    match order {
        Order::Little => LittleEndian::read_u64(bytes),
        Order::Big => BigEndian::read_u64(bytes),
    }
}
