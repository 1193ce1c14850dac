//! Line records as they mostly are, each byte of which is looked at once: numbers of few digits, and a line feed at the end.
ghost use Rattle.std.specs.Prelude.{◌≡◌, ◌<◌, ◌^◌, true, Some, IfSome};
ghost use Rattle.lnt_text.specs.Digits.{digit_value};
ghost use Rattle.lnt_symbols.specs.BreakpadLines.{decimal, hexadecimal, is_decimal_digit, is_hexadecimal_digit};
ghost use Rattle.lnt_symbols.specs.Stepping.{HasNumber, IsFirstLine, number_up_to};

use crate::breakpad::fields::{is_decimal_digit, is_hexadecimal_digit, value_of};
use crate::breakpad::record::{LineRecord, Range};

// More digits than these are left to the reading of any line.
const HEXADECIMAL_DIGITS: usize = 16;

const DECIMAL_DIGITS: usize = 9;

/// The first line, if it is a line record, and what stands after its end. `None` of another line, and also of a line record with a
/// decimal number of more digits or another end.
#[inline(always)]
pub(crate) fn plain_line<'a>(bytes: &'a [u8]) -> Option<(LineRecord, &'a [u8])>
    ensures { IfSome result (λ f. IsFirstLine bytes.now f.0 f.1.now) }
{
    let (address, rest) = plain_hexadecimal(bytes)?;
    let (size, rest) = plain_hexadecimal(rest)?;
    let (line, rest) = plain_decimal(rest, b' ')?;
    let (file, rest) = plain_decimal(rest, b'\n')?;
    let range = Range { address, size };
    Some((LineRecord { range, line, file }, rest))
}

// A hexadecimal number that the text begins with, and what stands after it and a blank.
#[inline(always)]
#[tactic(auto, using(crate::proofs::PlainLemmas::hexadecimal_taken))]
fn plain_hexadecimal<'a>(text: &'a [u8]) -> Option<(u64, &'a [u8])>
    ensures { IfSome result (λ f. HasNumber hexadecimal 32 text.now f.0 f.1.now) }
{
    let (first, rest) = text.split_first()?;
    if !is_hexadecimal_digit(*first) {
        return None;
    }
    more_hexadecimal(hexadecimal_value_of(*first), rest)
}

// The number with the digits that the text begins with after those of `value`, and what stands after it and a blank.
#[inline(always)]
#[tactic(auto, using(crate::proofs::FieldLemmas::room_for_digit, crate::proofs::FieldLemmas::bound_more))]
fn more_hexadecimal<'a>(first: u64, text: &'a [u8]) -> Option<(u64, &'a [u8])>
    requires { first < 16 }
    ensures { IfSome result (λ f. number_up_to 16 is_hexadecimal_digit 32 15 first text.now ≡ Some (f.0, f.1.now)) }
{
    let mut value = first;
    for i in 0..text.len() {
        let byte = text[i];
        if !is_hexadecimal_digit(byte) {
            if byte != b' ' {
                return None;
            }
            return Some((value, &text[i + 1..]));
        }
        if i + 1 >= HEXADECIMAL_DIGITS {
            return None;
        }
        value = value * 16 + hexadecimal_value_of(byte);
    }
    None
}

// The value of a hexadecimal digit. The last four bits of a letter's byte are one for A, and its byte is 64 or more.
#[inline(always)]
#[tactic(auto, using(crate::proofs::PlainLemmas::value_by_bits))]
fn hexadecimal_value_of(byte: u8) -> u64
    requires { is_hexadecimal_digit byte ≡ true }
    ensures value { result ≡ digit_value byte }
    ensures few { result < 16 }
{
    (byte % 16 + byte / 64 * 9) as u64
}

// A decimal number that the text begins with, and what stands after it and this byte.
#[inline(always)]
#[tactic(auto, using(crate::proofs::PlainLemmas::decimal_taken))]
fn plain_decimal<'a>(text: &'a [u8], stop: u8) -> Option<(u32, &'a [u8])>
    ensures { IfSome result (λ f. HasNumber decimal stop text.now f.0 f.1.now) }
{
    let (first, rest) = text.split_first()?;
    if !is_decimal_digit(*first) {
        return None;
    }
    more_decimal(value_of(*first) as u32, rest, stop)
}

// The number with the digits that the text begins with after those of `value`, and what stands after it and this byte.
#[inline(always)]
fn more_decimal<'a>(first: u32, text: &'a [u8], stop: u8) -> Option<(u32, &'a [u8])>
    requires { first < 10 }
    ensures number { IfSome result (λ f. number_up_to 10 is_decimal_digit stop 8 first text.now ≡ Some (f.0, f.1.now)) }
    ensures few { IfSome result (λ f. f.0 < 10 ^ 9) }
{
    let mut value = first;
    for i in 0..text.len() {
        let byte = text[i];
        if !is_decimal_digit(byte) {
            if byte != stop {
                return None;
            }
            return Some((value, &text[i + 1..]));
        }
        if i + 1 >= DECIMAL_DIGITS {
            return None;
        }
        value = value * 10 + value_of(byte) as u32;
    }
    None
}
