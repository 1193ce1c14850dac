//! Frequent operations with short operands, read by inlined code (DWARF 5, section 6.2.5).
//!
//! What it gives, `read_op` reads too; where it gives nothing, that one reads the operation. With a loop over such operations, in place
//! of one over all, a `lookup` takes 0.57 and 0.80 of the instructions (`bench/RESULTS.md`).
ghost use Rattle.std.specs.Prelude.{◌≡◌, ◌<◌, ◌≤◌, length, take, [], ◌∷◌, IfNone, IfSome};
ghost use Rattle.lnt_wire.specs.Leb128.{SignedLeb, UnsignedLeb};
ghost use Rattle.lnt_ops.specs.Short.{IsOperationPrefix, NoneShort};
ghost use Rattle.lnt_ops.specs.Stepping.{IsGroup, NoByte, NoDiscriminator, NoTwoBytes};

use lnt_header::{HeaderNumbers, OpView};

/// The operation that the bytes begin with, and the number of its bytes, if it is of a frequent kind and its operand is
/// short. `None` if the bytes don't begin with such an operation.
#[inline(always)]
#[tactic(auto, using(crate::proofs::ShortLemmas::short_prefixes))]
pub(crate) fn short_op<'a>(bytes: &'a [u8], numbers: &HeaderNumbers) -> Option<(OpView<'a>, usize)>
    ensures some { IfSome result (λ found. IsOperationPrefix numbers.now found.0 found.1 bytes.now) }
    ensures none { IfNone result (NoneShort numbers.now bytes.now) }
{
    if bytes.is_empty() {
        return None;
    }
    let opcode = bytes[0];
    if opcode >= numbers.opcode_base() {
        return Some((OpView::Special(opcode), 1));
    }
    let (_, operand) = bytes.split_at(1);
    match opcode {
        0 => Some((OpView::SetDiscriminator(short_discriminator(operand)?), 4)),
        1 => Some((OpView::Copy, 1)),
        2 => Some((OpView::AdvancePc(short_number(operand)?), 2)),
        3 => {
            let (by, size) = short_signed(operand)?;
            Some((OpView::AdvanceLine(by), size + 1))
        }
        4 => Some((OpView::SetFile(short_number(operand)?), 2)),
        5 => Some((OpView::SetColumn(short_number(operand)?), 2)),
        6 => Some((OpView::NegateStmt, 1)),
        8 => Some((OpView::ConstAddPc, 1)),
        _ => None,
    }
}

// The unsigned number that the first byte encodes. `None` if there is no byte, or the number has more than one.
#[inline(always)]
#[tactic(auto, using(crate::proofs::ShortLemmas::one_unsigned))]
fn short_number(bytes: &[u8]) -> Option<u64>
    ensures some { IfSome result (λ n. (1 ≤ length bytes.now) × UnsignedLeb n (take 1 bytes.now)) }
    ensures none { IfNone result (NoByte bytes.now) }
{
    if !bytes.is_empty() && bytes[0] < 128 {
        return Some(u64::from(bytes[0]));
    }
    None
}

// The discriminator that one byte encodes, after the length 2 and the code 4.
#[inline(always)]
#[tactic(auto, using(crate::proofs::ShortLemmas::discriminator_taken, crate::proofs::ShortLemmas::no_discriminator_here))]
fn short_discriminator(bytes: &[u8]) -> Option<u64>
    ensures some { IfSome result (λ n. (3 ≤ length bytes.now) × (n < 128) × (take 3 bytes.now ≡ 2 ∷ 4 ∷ n ∷ [])) }
    ensures none { IfNone result (NoDiscriminator bytes.now) }
{
    if bytes.len() >= 3 && bytes[0] == 2 && bytes[1] == 4 && bytes[2] < 128 {
        return Some(u64::from(bytes[2]));
    }
    None
}

// The signed number that one or two bytes encode, and how many they are.
#[inline(always)]
#[tactic(auto, using(crate::proofs::ShortLemmas::one_signed, crate::proofs::ShortLemmas::two_signed))]
fn short_signed(bytes: &[u8]) -> Option<(i64, usize)>
    ensures some { IfSome result (λ found. (found.1 ≤ length bytes.now) × SignedLeb found.0 (take found.1 bytes.now)) }
    ensures none { IfNone result (NoTwoBytes bytes.now) }
{
    if bytes.is_empty() {
        return None;
    }
    let first = bytes[0];
    if first < 128 {
        return Some((last_group(first), 1));
    }
    if bytes.len() < 2 || bytes[1] >= 128 {
        return None;
    }
    let second = last_group(bytes[1]);
    Some((second * 128 + i64::from(first % 128), 2))
}

// The value of a last byte, which is below 128, in two's complement of seven bits.
#[inline(always)]
#[tactic(auto, using(crate::proofs::ShortLemmas::group_low, crate::proofs::ShortLemmas::group_high))]
fn last_group(byte: u8) -> i64
    requires { byte < 128 }
    ensures { IsGroup byte result }
{
    if byte < 64 {
        i64::from(byte)
    } else {
        i64::from(byte) - 128
    }
}
