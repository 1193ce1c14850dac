//! Numbers and values, written at the end of a vector (DWARF 5, sections 7.4, 7.5.6 and 7.6). A failed call leaves the vector
//! unchanged.
ghost use Rattle.std.specs.Prelude.{◌≡◌, ◌<◌, ◌↔◌, Some, pos, length, take, IsErrOf, IfErr, OnOk, OnErr};
ghost use Rattle.std.specs.Int.{int_rem_euclid};
ghost use Rattle.lnt_wire.specs.Bytes.{Appends, Extends};
ghost use Rattle.lnt_wire.specs.FaultTexts.{encode_fault_text};
ghost use Rattle.lnt_wire.specs.FormBytes.{BlockBytes, FormBytes, HasNoZero, HasSpelling, IsTooLarge, TextBytes};
ghost use Rattle.lnt_wire.specs.Leb128.{UnsignedLeb, SignedLeb};
ghost use Rattle.lnt_wire.specs.BlockLengths.{BlockLengthFits, LengthBytes};
ghost use Rattle.lnt_wire.specs.Numbers.{NumberBytes, OffsetBytes, IsLargeOffset};

use crate::form::{BlockLength, FormValue};
use crate::format::{Format, Order};
use byteorder::{BigEndian, ByteOrder, LittleEndian};
use std::alloc::{AllocError, AllocFailed};
use std::error::Error;
use std::fmt;

/// Why a value, a header or a unit wasn't written. Each function says what the output then contains.
#[derive(Clone, Copy, Debug, PartialEq, Eq)]
pub enum EncodeFault {
    /// 20: a length or an offset is too large for the 32-bit format.
    TooLarge,
    /// 21: memory ran out.
    Memory,
}

impl fmt::Display for EncodeFault {
    ghost output = { λ fault. Some (encode_fault_text fault) };

    fn fmt<W: fmt::Write>(&self, f: &mut fmt::Formatter<W>) -> fmt::Result {
        match self {
            EncodeFault::TooLarge => f.write_str("too large for the 32-bit format"),
            EncodeFault::Memory => f.write_str("out of memory"),
        }
    }
}

impl Error for EncodeFault {}

impl From<AllocError> for EncodeFault {
    ghost use Rattle.lnt_wire.specs.declared.put.EncodeFault.TheVariants.{Memory};

    ghost from_gives = { λ _ fault. fault ≡ Memory };

    fn from(_error: AllocError) -> EncodeFault {
        EncodeFault::Memory
    }
}

impl<T: Drop> From<AllocFailed<T>> for EncodeFault {
    ghost use Rattle.lnt_wire.specs.declared.put.EncodeFault.TheVariants.{Memory};

    ghost from_gives = { λ _ fault. fault ≡ Memory };

    fn from(_error: AllocFailed<T>) -> EncodeFault {
        EncodeFault::Memory
    }
}

/// Adds the number as an unsigned LEB128 number, in as few bytes as possible. Fails only if memory runs out, and then leaves
/// `out` unchanged.
#[tactic(auto, using(crate::proofs::PutLemmas::taken_back))]
pub fn append_uleb(out: &mut Vec<u8>, n: u64) -> Result<(), AllocError>
    ensures ok { OnOk result (Appends UnsignedLeb n out.old.items out.new.items) }
    ensures unchanged { OnErr result (out.new.items ≡ out.old.items) }
{
    let start = out.len();
    let ended = add_uleb(out, n);
    cut_back(out, start, ended)
}

/// Adds the number as a signed LEB128 number, in as few bytes as possible. Fails only if memory runs out, and then leaves `out`
/// unchanged.
#[tactic(auto, using(crate::proofs::PutLemmas::taken_back))]
pub fn append_sleb(out: &mut Vec<u8>, z: i64) -> Result<(), AllocError>
    ensures ok { OnOk result (Appends SignedLeb z out.old.items out.new.items) }
    ensures unchanged { OnErr result (out.new.items ≡ out.old.items) }
{
    let start = out.len();
    let ended = add_sleb(out, z);
    cut_back(out, start, ended)
}

/// Adds the number as `append_uleb` does. Fails only with `Memory`.
pub fn put_uleb(out: &mut Vec<u8>, n: u64) -> Result<(), EncodeFault>
    ensures ok { OnOk result (Appends UnsignedLeb n out.old.items out.new.items) }
    ensures err { IfErr result (λ fault. fault ≡ EncodeFault.Memory) }
    ensures unchanged { OnErr result (out.new.items ≡ out.old.items) }
{
    Ok(append_uleb(out, n)?)
}

/// Adds the number as `append_sleb` does. Fails only with `Memory`.
pub fn put_sleb(out: &mut Vec<u8>, z: i64) -> Result<(), EncodeFault>
    ensures ok { OnOk result (Appends SignedLeb z out.old.items out.new.items) }
    ensures err { IfErr result (λ fault. fault ≡ EncodeFault.Memory) }
    ensures unchanged { OnErr result (out.new.items ≡ out.old.items) }
{
    Ok(append_sleb(out, z)?)
}

/// Adds the value in its form, in the format and the order of its unit, each LEB128 number in as few bytes as possible. The
/// caller ensures that a `Text` contains no zero byte, and that the length of a `Block1`, `Block2` or `Block4` fits in 1, 2
/// or 4 bytes (`FormValue::has_spelling`).
///
/// Fails with `TooLarge` if and only if the value is an offset of 2^32 or more in the 32-bit format, and otherwise only
/// with `Memory`. Then `out` is unchanged.
#[tactic(auto, using(crate::proofs::PutLemmas::taken_back))]
pub fn put_form(
    out: &mut Vec<u8>,
    value: &FormValue,
    format: Format,
    order: Order,
) -> Result<(), EncodeFault>
    requires { HasSpelling value.now }
    ensures ok { OnOk result (Appends (FormBytes format order) value.now out.old.items out.new.items) }
    ensures too_large { IsErrOf result EncodeFault.TooLarge ↔ IsTooLarge format value.now }
    ensures unchanged { OnErr result (out.new.items ≡ out.old.items) }
{
    let start = out.len();
    let ended = add_form(out, value, format, order);
    cut_back(out, start, ended)
}

/// Adds the number in 2 bytes, in this order. Fails only if memory runs out, and then leaves `out` unchanged.
pub fn put_u16(out: &mut Vec<u8>, n: u16, order: Order) -> Result<(), AllocError>
    ensures ok { OnOk result (Appends (NumberBytes order 2) n out.old.items out.new.items) }
    ensures unchanged { OnErr result (out.new.items ≡ out.old.items) }
{
    let mut bytes = [0; 2];
    match order {
        Order::Little => LittleEndian::write_u16(&mut bytes, n),
        Order::Big => BigEndian::write_u16(&mut bytes, n),
    }
    out.extend_from_slice(&bytes)
}

/// Adds the number in 4 bytes, in this order. Fails only if memory runs out, and then leaves `out` unchanged.
pub fn put_u32(out: &mut Vec<u8>, n: u32, order: Order) -> Result<(), AllocError>
    ensures ok { OnOk result (Appends (NumberBytes order 4) n out.old.items out.new.items) }
    ensures unchanged { OnErr result (out.new.items ≡ out.old.items) }
{
    let mut bytes = [0; 4];
    match order {
        Order::Little => LittleEndian::write_u32(&mut bytes, n),
        Order::Big => BigEndian::write_u32(&mut bytes, n),
    }
    out.extend_from_slice(&bytes)
}

/// Adds the number in 8 bytes, in this order. Fails only if memory runs out, and then leaves `out` unchanged.
pub fn put_u64(out: &mut Vec<u8>, n: u64, order: Order) -> Result<(), AllocError>
    ensures ok { OnOk result (Appends (NumberBytes order 8) n out.old.items out.new.items) }
    ensures unchanged { OnErr result (out.new.items ≡ out.old.items) }
{
    let mut bytes = [0; 8];
    match order {
        Order::Little => LittleEndian::write_u64(&mut bytes, n),
        Order::Big => BigEndian::write_u64(&mut bytes, n),
    }
    out.extend_from_slice(&bytes)
}

/// Adds the offset or length, in the 4 bytes of the 32-bit format or the 8 of the 64-bit one (DWARF 5, section 7.4).
///
/// Fails with `TooLarge` if and only if `n` is 2^32 or more in the 32-bit format, and otherwise only with `Memory`. Then
/// `out` is unchanged.
pub fn put_offset(
    out: &mut Vec<u8>,
    n: u64,
    format: Format,
    order: Order,
) -> Result<(), EncodeFault>
    ensures ok { OnOk result (Appends (OffsetBytes format order) n out.old.items out.new.items) }
    ensures too_large { IsErrOf result EncodeFault.TooLarge ↔ IsLargeOffset format n }
    ensures unchanged { OnErr result (out.new.items ≡ out.old.items) }
{
    match format {
        Format::D32 => match u32::try_from(n) {
            Ok(n) => Ok(put_u32(out, n, order)?),
            Err(_) => Err(EncodeFault::TooLarge),
        },
        Format::D64 => Ok(put_u64(out, n, order)?),
    }
}

// Returns the result of a call that appended bytes to `out` from index `start` on. If it failed, these bytes are removed first.
fn cut_back<E>(out: &mut Vec<u8>, start: usize, ended: Result<(), E>) -> Result<(), E>
    ensures same { result ≡ ended }
    ensures ok { OnOk ended (out.new.items ≡ out.old.items) }
    ensures err { OnErr ended (out.new.items ≡ take start out.old.items) }
{
    if ended.is_err() {
        out.truncate(start);
    }
    ended
}

// Adds the shortest unsigned LEB128 number. After an error a part of it may have been added.
#[tactic(auto, using(crate::proofs::PutLemmas::unsigned_groups))]
fn add_uleb(out: &mut Vec<u8>, n: u64) -> Result<(), AllocError>
    ensures ok { OnOk result (Appends UnsignedLeb n out.old.items out.new.items) }
    ensures extends { OnErr result (Extends out.old.items out.new.items) }
{
    let mut rest = n;
    while rest >= 128 {
        out.push((rest % 128) as u8 + 128)?;
        rest /= 128;
    }
    out.push(rest as u8)?;
    Ok(())
}

// Adds the shortest signed LEB128 number. After an error a part of it may have been added.
#[tactic(auto, using(crate::proofs::PutLemmas::begun_signed, crate::proofs::PutLemmas::begun_extends))]
fn add_sleb(out: &mut Vec<u8>, z: i64) -> Result<(), AllocError>
    ensures ok { OnOk result (Appends SignedLeb z out.old.items out.new.items) }
    ensures extends { OnErr result (Extends out.old.items out.new.items) }
{
    let mut rest = z;
    while rest < -64 || rest >= 64 {
        out.push(low_group(rest) + 128)?;
        rest = rest.div_euclid(128);
    }
    out.push(low_group(rest))?;
    Ok(())
}

// The low seven bits of the number in two's complement, from 0 to 127.
fn low_group(z: i64) -> u8
    ensures value { int_rem_euclid z (pos 128) ≡ pos result }
    ensures low { result < 128 }
{
    z.rem_euclid(128) as u8
}

// Adds the value in its form. After an error a part of it may have been added.
fn add_form(
    out: &mut Vec<u8>,
    value: &FormValue,
    format: Format,
    order: Order,
) -> Result<(), EncodeFault>
    requires { HasSpelling value.now }
    ensures ok { OnOk result (Appends (FormBytes format order) value.now out.old.items out.new.items) }
    ensures too_large { IsErrOf result EncodeFault.TooLarge ↔ IsTooLarge format value.now }
    ensures extends { OnErr result (Extends out.old.items out.new.items) }
{
    match value {
        FormValue::LineStrp(offset) => put_offset(out, *offset, format, order),
        FormValue::Strp(offset) => put_offset(out, *offset, format, order),
        _ => Ok(add_wide(out, value, order)?),
    }
}

// Adds the value in its form, an offset as in the 64-bit format. After an error a part of it may have been added.
fn add_wide(out: &mut Vec<u8>, value: &FormValue, order: Order) -> Result<(), AllocError>
    requires { HasSpelling value.now }
    ensures ok { OnOk result (Appends (FormBytes Format.D64 order) value.now out.old.items out.new.items) }
    ensures extends { OnErr result (Extends out.old.items out.new.items) }
{
    match value {
        FormValue::Text(text) => add_text(out, text.as_slice()),
        FormValue::LineStrp(offset) => put_u64(out, *offset, order),
        FormValue::Strp(offset) => put_u64(out, *offset, order),
        FormValue::Udata(n) => append_uleb(out, *n),
        FormValue::Data1(n) => out.extend_from_slice(&[*n]),
        FormValue::Data2(n) => put_u16(out, *n, order),
        FormValue::Data4(n) => put_u32(out, *n, order),
        FormValue::Data8(n) => put_u64(out, *n, order),
        FormValue::Data16(bytes) => out.extend_from_slice(bytes),
        FormValue::Block(block) => add_block(out, block.as_slice(), BlockLength::Leb, order),
        FormValue::Block1(block) => add_block(out, block.as_slice(), BlockLength::One, order),
        FormValue::Block2(block) => add_block(out, block.as_slice(), BlockLength::Two, order),
        FormValue::Block4(block) => add_block(out, block.as_slice(), BlockLength::Four, order),
    }
}

// Adds the text and a zero byte. After an error a part of it may have been added.
fn add_text(out: &mut Vec<u8>, text: &[u8]) -> Result<(), AllocError>
    requires { HasNoZero text.now }
    ensures ok { OnOk result (Appends TextBytes text.now out.old.items out.new.items) }
    ensures extends { OnErr result (Extends out.old.items out.new.items) }
{
    out.extend_from_slice(text)?;
    out.extend_from_slice(&[0])
}

// Adds the length of a block, encoded as `encoding` says, and its bytes. After an error a part of it may have been added.
fn add_block(
    out: &mut Vec<u8>,
    block: &[u8],
    encoding: BlockLength,
    order: Order,
) -> Result<(), AllocError>
    requires { BlockLengthFits encoding (length block.now) }
    ensures ok { OnOk result
        (Appends (BlockBytes (LengthBytes order encoding)) block.now out.old.items out.new.items) }
    ensures extends { OnErr result (Extends out.old.items out.new.items) }
{
    add_length(out, block.len(), encoding, order)?;
    out.extend_from_slice(block)
}

// Adds the length of a block, encoded as `encoding` says. A failed call leaves `out` unchanged.
fn add_length(
    out: &mut Vec<u8>,
    length: usize,
    encoding: BlockLength,
    order: Order,
) -> Result<(), AllocError>
    requires { BlockLengthFits encoding length }
    ensures ok { OnOk result (Appends (LengthBytes order encoding) length out.old.items out.new.items) }
    ensures unchanged { OnErr result (out.new.items ≡ out.old.items) }
{
    match encoding {
        BlockLength::Leb => append_uleb(out, length as u64),
        BlockLength::One => Ok(out.push(length as u8)?),
        BlockLength::Two => put_u16(out, length as u16, order),
        BlockLength::Four => put_u32(out, length as u32, order),
    }
}
