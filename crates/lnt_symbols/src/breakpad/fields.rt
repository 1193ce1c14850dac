//! The fields of a line: numbers, and what stands between blanks.
ghost use Rattle.std.specs.Prelude.{◌≡◌, ◌<◌, ◌≤◌, length, true, Some, None, Ok, Err, MatchOption, MatchResult, IsTrue};
ghost use Rattle.lnt_text.specs.Digits.{digit_value, digits_value};
ghost use Rattle.lnt_symbols.specs.BreakpadLines.{are_digits, cut, decimal, field, hexadecimal, is_decimal_digit, is_hexadecimal_digit};

use crate::fault::LineReason;

// Decimal numbers are below this.
const DECIMAL_LIMIT: u64 = 1 << 31;

// The bytes up to the first blank, and those after it. `None` without a blank.
pub(crate) fn cut<'a>(text: &'a [u8]) -> Option<(&'a [u8], &'a [u8])>
    ensures { MatchOption result (cut text.now ≡ None) (λ f. cut text.now ≡ Some (f.0.now, f.1.now)) }
{
    for i in 0..text.len() {
        if text[i] == b' ' {
            return Some((&text[..i], &text[i + 1..]));
        }
    }
    None
}

// The value of a digit of either kind.
#[inline(always)]
pub(crate) fn value_of(byte: u8) -> u64
    ensures value { result ≡ digit_value byte }
    ensures decimal { IsTrue (is_decimal_digit byte) → result < 10 }
    ensures hexadecimal { IsTrue (is_hexadecimal_digit byte) → result < 16 }
{
    if byte < 58 {
        return byte.saturating_sub(48) as u64;
    }
    if byte < 71 {
        return byte.saturating_sub(55) as u64;
    }
    byte.saturating_sub(87) as u64
}

// Whether a byte is a decimal digit.
#[inline(always)]
pub(crate) fn is_decimal_digit(byte: u8) -> bool
    ensures { result ≡ is_decimal_digit byte }
{
    47 < byte && byte < 58
}

// Whether a byte is a hexadecimal digit of either case.
#[inline(always)]
pub(crate) fn is_hexadecimal_digit(byte: u8) -> bool
    ensures { result ≡ is_hexadecimal_digit byte }
{
    is_decimal_digit(byte) | (64 < byte && byte < 71) | (96 < byte && byte < 103)
}

// Whether all bytes are decimal digits, and there is one.
fn are_decimal(text: &[u8]) -> bool
    ensures { result ≡ are_digits is_decimal_digit text.now }
{
    for byte in text {
        if !is_decimal_digit(*byte) {
            return false;
        }
    }
    !text.is_empty()
}

// The same of hexadecimal digits.
fn are_hexadecimal(text: &[u8]) -> bool
    ensures { result ≡ are_digits is_hexadecimal_digit text.now }
{
    for byte in text {
        if !is_hexadecimal_digit(*byte) {
            return false;
        }
    }
    !text.is_empty()
}

/// Parses 1 to 16 hexadecimal digits of either case.
pub(crate) fn hexadecimal(text: &[u8]) -> Result<u64, LineReason>
    ensures { MatchResult result (λ n. hexadecimal text.now ≡ Ok n) (λ reason. hexadecimal text.now ≡ Err reason) }
{
    if !are_hexadecimal(text) {
        return Err(LineReason::NotARecord);
    }
    if text.len() > 16 {
        return Err(LineReason::NumberTooLarge);
    }
    Ok(hexadecimal_value(text))
}

// The number of up to 16 hexadecimal digits.
#[tactic(auto, using(crate::proofs::FieldLemmas::room_for_digit, crate::proofs::FieldLemmas::bound_more))]
fn hexadecimal_value(text: &[u8]) -> u64
    requires digits { are_digits is_hexadecimal_digit text.now ≡ true }
    requires few { length text.now ≤ 16 }
    ensures { result ≡ digits_value 16 0 text.now }
{
    let mut value = 0;
    for byte in text {
        value = value * 16 + value_of(*byte);
    }
    value
}

/// Parses decimal digits of a number below 2^31.
#[tactic(auto, using(crate::proofs::FieldLemmas::too_large))]
pub(crate) fn decimal(text: &[u8]) -> Result<u32, LineReason>
    ensures { MatchResult result (λ n. decimal text.now ≡ Ok n) (λ reason. decimal text.now ≡ Err reason) }
{
    if !are_decimal(text) {
        return Err(LineReason::NotARecord);
    }
    let mut value = 0;
    for byte in text {
        value = value * 10 + value_of(*byte);
        if value >= DECIMAL_LIMIT {
            return Err(LineReason::NumberTooLarge);
        }
    }
    Ok(value as u32)
}

/// Parses a hexadecimal number and a blank; gives what is left too.
pub(crate) fn hexadecimal_field<'a>(text: &'a [u8]) -> Result<(u64, &'a [u8]), LineReason>
    ensures { MatchResult result (λ f. field hexadecimal text.now ≡ Ok (f.0, f.1.now)) (λ reason. field hexadecimal text.now ≡ Err reason) }
{
    let Some((digits, rest)) = cut(text) else {
        return Err(LineReason::NotARecord);
    };
    let n = hexadecimal(digits)?;
    Ok((n, rest))
}

/// Parses a decimal number and a blank; gives what is left too.
pub(crate) fn decimal_field<'a>(text: &'a [u8]) -> Result<(u32, &'a [u8]), LineReason>
    ensures { MatchResult result (λ f. field decimal text.now ≡ Ok (f.0, f.1.now)) (λ reason. field decimal text.now ≡ Err reason) }
{
    let Some((digits, rest)) = cut(text) else {
        return Err(LineReason::NotARecord);
    };
    let n = decimal(digits)?;
    Ok((n, rest))
}
