//! Numbers read from text.
ghost use Rattle.std.specs.Prelude.{ℕ, MatchOption};
ghost use Rattle.lnt_text.specs.Digits.{IsAddress, IsDecimal, IsNumber, IsPercentage};

use crate::radix::Radix;

/// Parses a text of 1 to 20 decimal digits and nothing else. `None` for any other text, and if the number is 2^64 or more.
pub fn decimal(text: &[u8]) -> Option<u64>
    ensures { MatchOption result ((n : ℕ) → IsDecimal text.now n → ⊥) (λ n. IsDecimal text.now n) }
{
    number(text, Radix::Ten)
}

/// Parses a text of 1 to 3 decimal digits and nothing else, of a number up to 100. `None` for any other text.
#[tactic(auto, using(crate::proofs::ReadLemmas::no_percentage_of_many, crate::proofs::ReadLemmas::no_percentage_above))]
pub fn percentage(text: &[u8]) -> Option<u64>
    ensures { MatchOption result ((n : ℕ) → IsPercentage text.now n → ⊥) (λ n. IsPercentage text.now n) }
{
    if text.len() > 3 {
        return None;
    }
    let number = decimal(text)?;
    if number > 100 {
        return None;
    }
    Some(number)
}

/// Parses a text of `0x` and 1 to 16 hexadecimal digits of either case, and nothing else. `None` for any other text.
pub fn address(text: &[u8]) -> Option<u64>
    ensures { MatchOption result ((n : ℕ) → IsAddress text.now n → ⊥) (λ n. IsAddress text.now n) }
{
    let digits = text.strip_prefix(b"0x")?;
    number(digits, Radix::Sixteen)
}

// Parses digits of this base. `None` if there are none or too many, if a byte isn't such a digit, and if the number is 2^64
// or more.
#[inline(always)]
#[tactic(auto, using(crate::proofs::ReadLemmas::no_number_of_none, crate::proofs::ReadLemmas::no_number_of_many))]
fn number(digits: &[u8], radix: Radix) -> Option<u64>
    ensures { MatchOption result ((n : ℕ) → IsNumber radix digits.now n → ⊥) (λ n. IsNumber radix digits.now n) }
{
    if digits.is_empty() || digits.len() > radix.most_digits() {
        return None;
    }
    let mut value: u64 = 0;
    for byte in digits {
        let digit = radix.value_of(*byte)?;
        value = value.checked_mul(radix.base())?.checked_add(digit)?;
    }
    Some(value)
}
