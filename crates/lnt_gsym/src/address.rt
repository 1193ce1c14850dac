//! The less and the greater of addresses.
ghost use Rattle.std.specs.Prelude.{◌≡◌, ◌-◌, ◌^◌};
ghost use Rattle.lnt_gsym.specs.GsymSpans.{less, more};

/// The greater of two addresses.
#[inline(always)]
pub(crate) fn later(a: u64, b: u64) -> u64
    ensures { result ≡ more a b }
{
    if a < b { b } else { a }
}

/// The less of two addresses.
#[inline(always)]
pub(crate) fn earlier(a: u64, b: u64) -> u64
    ensures { result ≡ less a b }
{
    if a < b { a } else { b }
}

/// The address, at most the end of a table.
#[inline(always)]
pub(crate) fn in_table(address: u128) -> u64
    ensures { result ≡ less address (2 ^ 64 - 1) }
{
    if address < u128::from(u64::MAX) {
        address as u64
    } else {
        u64::MAX
    }
}
