//! Ranges of addresses.
ghost use Rattle.std.specs.Prelude.{◌≡◌, ◌+◌, nat_lt, true};
ghost use Rattle.lnt_symbols.specs.BreakpadAnswers.{end_of, is_sound};

use crate::breakpad::record::Range;

/// Whether a range isn't empty, and its last address isn't above 2^64 - 1.
#[inline(always)]
pub(crate) fn is_sound(range: Range) -> bool
    ensures { result ≡ is_sound range }
{
    range.size > 0 && range.size - 1 <= u64::MAX - range.address
}

/// The last address of a range.
#[inline(always)]
pub(crate) fn last_of(range: Range) -> u64
    requires { is_sound range ≡ true }
    ensures { result + 1 ≡ end_of range }
{
    range.address + (range.size - 1)
}
