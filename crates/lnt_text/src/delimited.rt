//! Parses numbers at an index of a text, up to a byte that ends them.
ghost use Rattle.std.specs.Prelude.{◌≡◌, ◌∷◌, drop, IfSome};
ghost use Rattle.lnt_text.specs.Digits.{IsAddress, IsDecimal, IsNumber, Begins};
ghost use Rattle.lnt_text.specs.declared.radix.Radix.TheVariants.{Sixteen};

use crate::radix::{decimal_value, is_hexadecimal, letter_or_digit_value};

// Numbers of up to 18 decimal digits are always below 2^64.
const DECIMAL_DIGITS: usize = 18;

const HEXADECIMAL_DIGITS: usize = 16;

/// Parses 1 to 18 decimal digits at `at`, then `end`; gives the value and the index after `end`. With `None`, a longer number
/// may be there, which is left to `decimal`.
#[inline(always)]
pub fn decimal_until(text: &[u8], at: usize, end: u8) -> Option<(u64, usize)>
    ensures { IfSome result (λ found. Begins IsDecimal (drop at text.now) found.0 end (drop found.1 text.now)) }
{
    if let Some(found) = digit_until(text, at, end) {
        return Some(found);
    }
    digits_until(text, at, end)
}

// Parses one digit, then `end`. It is tried first, since most numbers of a table are that short.
#[inline(always)]
fn digit_until(text: &[u8], at: usize, end: u8) -> Option<(u64, usize)>
    ensures { IfSome result (λ found. Begins IsDecimal (drop at text.now) found.0 end (drop found.1 text.now)) }
{
    let digit = decimal_value(*text.get(at)?)?;
    let next = past(text, at + 1, end)?;
    Some((digit, next))
}

// Parses 1 to 18 digits, then `end`. Not inlined: a line would hold many copies of this loop.
#[inline(never)]
fn digits_until(text: &[u8], at: usize, end: u8) -> Option<(u64, usize)>
    ensures { IfSome result (λ found. Begins IsDecimal (drop at text.now) found.0 end (drop found.1 text.now)) }
{
    let mut value = 0;
    for i in at..text.len().min(at.saturating_add(DECIMAL_DIGITS + 1)) {
        let byte = text[i];
        let Some(digit) = decimal_value(byte) else {
            if byte != end || i == at {
                return None;
            }
            return Some((value, i + 1));
        };
        value = value * 10 + digit;
    }
    None
}

/// Parses `0x`, 1 to 16 hexadecimal digits of either case, then `end`, as `decimal_until` does.
#[inline(always)]
pub fn address_until(text: &[u8], at: usize, end: u8) -> Option<(u64, usize)>
    ensures { IfSome result (λ found. Begins IsAddress (drop at text.now) found.0 end (drop found.1 text.now)) }
{
    let at = past(text, at, b'0')?;
    let at = past(text, at, b'x')?;
    let (number, next) = hexadecimal_until(text, at, end)?;
    Some((number, next))
}

/// The index after `at`, if this byte is at `at`. `None` if another byte is there, or the text ends before.
#[inline(always)]
pub fn past(text: &[u8], at: usize, byte: u8) -> Option<usize>
    ensures { IfSome result (λ next. drop at text.now ≡ byte ∷ drop next text.now) }
{
    if at < text.len() && text[at] == byte {
        Some(at + 1)
    } else {
        None
    }
}

// Parses 1 to 16 hexadecimal digits of either case at `at`, then `end`, as `decimal_until` does. Whether all of them are
// digits is checked once, at the end, so that the loop has no branch on their values.
#[inline(never)]
fn hexadecimal_until(text: &[u8], at: usize, end: u8) -> Option<(u64, usize)>
    ensures { IfSome result (λ found. Begins (IsNumber Sixteen) (drop at text.now) found.0 end (drop found.1 text.now)) }
{
    let mut value = 0u64;
    let mut is_number = true;
    for i in at..text.len().min(at.saturating_add(HEXADECIMAL_DIGITS + 1)) {
        let byte = text[i];
        if byte == end {
            if !is_number || i == at {
                return None;
            }
            return Some((value, i + 1));
        }
        is_number &= is_hexadecimal(byte);
        value = value
            .wrapping_mul(16)
            .wrapping_add(letter_or_digit_value(byte));
    }
    None
}
