//! Numbers written as text.
//!
//! The digits are those that `Display` writes. They are written from the last one on, into the text that they belong to, so that none is
//! counted before, or moved or copied after.
ghost use Rattle.std.specs.Prelude.{◌≡◌, ℕ, ◌+◌, ◌<◌, ◌≤◌, drop, length, take, OnOk, OnErr};
ghost use Rattle.lnt_text.specs.Digits.{IsPlain, IsPlainAddress, IsPlainDecimal, Puts, most_digits};

use crate::radix::Radix;
use std::alloc::AllocError;

// The most decimal digits that a number below 2^64 has.
const MOST_DIGITS: usize = 20;

/// Appends the decimal digits of a number, with no leading zeros. They are read back as that number.
///
/// Fails only if memory runs out, and then leaves `out` unchanged.
#[tactic(auto, using(crate::proofs::PutLemmas::whole_decimal))]
pub fn put_decimal(out: &mut Vec<u8>, n: u64) -> Result<(), AllocError>
    ensures ok { OnOk result (Puts IsPlainDecimal n out.old.items out.new.items) }
    ensures err { OnErr result (out.new.items ≡ out.old.items) }
{
    let mut digits = [0; MOST_DIGITS];
    let start = decimal_before(&mut digits, MOST_DIGITS, n);
    out.extend_from_slice(&digits[start..])?;
    Ok(())
}

/// Appends `0x` and the hexadecimal digits of a number, in lower case and with no leading zeros. They are read back as that
/// number.
///
/// Fails only if memory runs out, and then leaves `out` unchanged.
pub fn put_address(out: &mut Vec<u8>, n: u64) -> Result<(), AllocError>
    ensures ok { OnOk result (Puts IsPlainAddress n out.old.items out.new.items) }
    ensures err { OnErr result (out.new.items ≡ out.old.items) }
{
    let mut digits = [0; MOST_DIGITS];
    let start = address_before(&mut digits, MOST_DIGITS, n);
    out.extend_from_slice(&digits[start..])
}

/// Writes the decimal digits of a number, with no leading zeros, into a text, so that they end before index `end`, and
/// returns the index of the first. The text before and after them is unchanged. The caller ensures that `end` is at least
/// 20 and not past the text's end.
#[inline(always)]
pub fn decimal_before(text: &mut [u8], end: usize, n: u64) -> usize
    requires { (20 ≤ end) × (end ≤ length text.old) }
    ensures begins { (result < end) × (end ≤ result + 20) }
    ensures written { IsPlainDecimal (drop result (take end text.new)) n }
    ensures before { take result text.new ≡ take result text.old }
    ensures after { drop end text.new ≡ drop end text.old }
{
    digits_before(text, end, n, Radix::Ten)
}

/// Writes `0x` and the hexadecimal digits of a number, in lower case and with no leading zeros, into a text, so that they
/// end before index `end`, and returns the index of the first character. The text before and after them is unchanged. The
/// caller ensures that `end` is at least 18 and not past the text's end.
#[inline(always)]
pub fn address_before(text: &mut [u8], end: usize, n: u64) -> usize
    requires { (18 ≤ end) × (end ≤ length text.old) }
    ensures begins { (result < end) × (end ≤ result + 18) }
    ensures written { IsPlainAddress (drop result (take end text.new)) n }
    ensures before { take result text.new ≡ take result text.old }
    ensures after { drop end text.new ≡ drop end text.old }
{
    let start = digits_before(text, end, n, Radix::Sixteen);
    text[start - 1] = b'x';
    text[start - 2] = b'0';
    start - 2
}

// Writes the digits of a number in this base, with no leading zeros, into a text, so that they end before index `end`, and returns the
// index of the first.
#[inline(always)]
fn digits_before(text: &mut [u8], end: usize, n: u64, radix: Radix) -> usize
    requires { (most_digits radix ≤ end) × (end ≤ length text.old) }
    ensures begins { (result < end) × (end ≤ result + most_digits radix) }
    ensures written { IsPlain radix (drop result (take end text.new)) n }
    ensures long { end ≤ length text.new }
    ensures before { (place : ℕ) → place ≤ result → take place text.new ≡ take place text.old }
    ensures after { drop end text.new ≡ drop end text.old }
{
    let base = radix.base();
    let mut start = end - 1;
    text[start] = radix.digit(n % base);
    let mut left = n / base;
    // Each division after the first gives two digits, since it has to wait for the one before it.
    while left >= base {
        let (first, second) = radix.pair(left % (base * base));
        text[start - 1] = second;
        text[start - 2] = first;
        start -= 2;
        left /= base * base;
    }
    if left == 0 {
        return start;
    }
    text[start - 1] = radix.digit(left);
    start - 1
}
