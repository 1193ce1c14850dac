//! Digits and their values.
ghost use Rattle.std.specs.Prelude.{◌≡◌, ◌+◌, ◌*◌, ◌/◌, ◌%◌, ◌<◌, ◌≤◌, MatchOption, MatchBool};
ghost use Rattle.lnt_text.specs.Digits.{IsDecimalDigit, IsDigit, IsHexadecimalDigit, radix_base, digit_code, digit_value, most_digits};

// The base in which a number is written.
#[derive(Clone, Copy)]
pub(crate) enum Radix {
    // Base 10, for decimal numbers.
    Ten,
    // Base 16, for hexadecimal numbers.
    Sixteen,
}

impl Radix {
    // The base: 10 or 16.
    #[inline(always)]
    pub(crate) fn base(self) -> u64
        ensures value { result ≡ radix_base self }
        ensures range { (10 ≤ result) × (result ≤ 16) }
    {
        match self {
            Radix::Ten => 10,
            Radix::Sixteen => 16,
        }
    }

    // The most digits that a number may have.
    #[inline(always)]
    pub(crate) fn most_digits(self) -> usize
        ensures { result ≡ most_digits self }
    {
        match self {
            Radix::Ten => 20,
            Radix::Sixteen => 16,
        }
    }

    // The digit of this value, a letter in lower case.
    #[inline(always)]
    pub(crate) fn digit(self, value: u64) -> u8
        requires { value < radix_base self }
        ensures { result ≡ digit_code value }
    {
        match self {
            Radix::Ten => b'0' + value as u8,
            Radix::Sixteen => b"0123456789abcdef"[value as usize],
        }
    }

    // The two digits of this value, letters in lower case.
    #[inline(always)]
    pub(crate) fn pair(self, value: u64) -> (u8, u8)
        requires { value < radix_base self * radix_base self }
        ensures first { result.0 ≡ digit_code (value / radix_base self) }
        ensures second { result.1 ≡ digit_code (value % radix_base self) }
    {
        match self {
            Radix::Ten => decimal_pair(value),
            Radix::Sixteen => hexadecimal_pair(value),
        }
    }

    // The value of a digit of this base. `None` if the byte isn't such a digit.
    #[inline(always)]
    pub(crate) fn value_of(self, byte: u8) -> Option<u64>
        ensures { MatchOption result (IsDigit self byte → ⊥) (λ d. IsDigit self byte × (d ≡ digit_value byte) × (d < radix_base self)) }
    {
        match self {
            Radix::Ten => decimal_value(byte),
            Radix::Sixteen => hexadecimal_value(byte),
        }
    }
}

// The value of a decimal digit. `None` if the byte isn't such a digit.
#[inline(always)]
pub(crate) fn decimal_value(byte: u8) -> Option<u64>
    ensures { MatchOption result (IsDecimalDigit byte → ⊥) (λ d. IsDecimalDigit byte × (d ≡ digit_value byte) × (d < 10)) }
{
    match byte {
        b'0'..=b'9' => Some((byte - b'0') as u64),
        _ => None,
    }
}

// The value of a hexadecimal digit of either case. `None` if the byte isn't such a digit.
#[inline(always)]
fn hexadecimal_value(byte: u8) -> Option<u64>
    ensures { MatchOption result (IsHexadecimalDigit byte → ⊥) (λ d. IsHexadecimalDigit byte × (d ≡ digit_value byte) × (d < 16)) }
{
    is_hexadecimal(byte).then_some(letter_or_digit_value(byte))
}

// Whether a byte is a hexadecimal digit of either case.
#[inline(always)]
pub(crate) fn is_hexadecimal(byte: u8) -> bool
    ensures { MatchBool result (IsHexadecimalDigit byte) (IsHexadecimalDigit byte → ⊥) }
{
    is_between(byte, b'0', b'9') | is_between(byte, b'A', b'F') | is_between(byte, b'a', b'f')
}

// The value of a hexadecimal digit of either case: its low half, plus 9 for a letter. It doesn't branch on that, since a
// processor can't predict which of the two comes. For any other byte it returns some number below 64.
#[inline(always)]
pub(crate) fn letter_or_digit_value(byte: u8) -> u64
    ensures value { IsHexadecimalDigit byte → (result ≡ digit_value byte) × (result < 16) }
    ensures range { result < 64 }
{
    (byte % 16 + byte / 64 * 9) as u64
}

// Whether a byte is one of those from `first` to `last`.
#[inline(always)]
fn is_between(byte: u8, first: u8, last: u8) -> bool
    ensures { MatchBool result ((first ≤ byte) × (byte < last + 1)) ((first ≤ byte) × (byte < last + 1) → ⊥) }
{
    (first <= byte) & (byte <= last)
}

// The two decimal digits of a value.
#[inline(always)]
fn decimal_pair(value: u64) -> (u8, u8)
    requires { value < 100 }
    ensures first { result.0 ≡ digit_code (value / 10) }
    ensures second { result.1 ≡ digit_code (value % 10) }
{
    let pairs =
        b"00010203040506070809101112131415161718192021222324252627282930313233343536373839404142434445464748495051525354555657585960616263646566676869707172737475767778798081828384858687888990919293949596979899";
    let place = 2 * value as usize;
    (pairs[place], pairs[place + 1])
}

// The two hexadecimal digits of a value, with letters in lower case.
#[inline(always)]
fn hexadecimal_pair(value: u64) -> (u8, u8)
    requires { value < 256 }
    ensures first { result.0 ≡ digit_code (value / 16) }
    ensures second { result.1 ≡ digit_code (value % 16) }
{
    let pairs =
        b"000102030405060708090a0b0c0d0e0f101112131415161718191a1b1c1d1e1f202122232425262728292a2b2c2d2e2f303132333435363738393a3b3c3d3e3f404142434445464748494a4b4c4d4e4f505152535455565758595a5b5c5d5e5f606162636465666768696a6b6c6d6e6f707172737475767778797a7b7c7d7e7f808182838485868788898a8b8c8d8e8f909192939495969798999a9b9c9d9e9fa0a1a2a3a4a5a6a7a8a9aaabacadaeafb0b1b2b3b4b5b6b7b8b9babbbcbdbebfc0c1c2c3c4c5c6c7c8c9cacbcccdcecfd0d1d2d3d4d5d6d7d8d9dadbdcdddedfe0e1e2e3e4e5e6e7e8e9eaebecedeeeff0f1f2f3f4f5f6f7f8f9fafbfcfdfeff";
    let place = 2 * value as usize;
    (pairs[place], pairs[place + 1])
}
