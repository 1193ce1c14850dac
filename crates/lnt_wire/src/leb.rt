//! Reads LEB128 numbers, which are encoded in groups of seven bits (DWARF 5, section 7.6).
ghost use Rattle.std.specs.Prelude.{◌≡◌, ◌+◌, ◌<◌, ◌≤◌, [], ◌∷◌, length, take, MatchOption, IfOk, IfErr, IfSome, OnErr};
ghost use Rattle.lnt_wire.specs.Bytes.{NoneSpelled};
ghost use Rattle.lnt_wire.specs.Leb128.{IsLeb, AreHigh, groups, signed_groups, UnsignedLeb, SignedLeb, IsLargeUnsigned, IsLargeSigned};
ghost use Rattle.lnt_wire.specs.Leb128.{IsLebFault, IsShortLeb};
ghost use Rattle.lnt_wire.specs.Reading.{Reads, RefusesField};

use crate::cursor::Cursor;
use crate::fault::{Fault, Reason};

impl<'a> Cursor<'a> {
    /// The next unsigned LEB128 number, with or without groups of zeros at its end. Fails with `Truncated` if its last byte
    /// is missing, and with `LebTooLarge` if the number is 2^64 or more.
    #[inline(always)]
    pub fn uleb(&mut self) -> Result<u64, Fault>
        ensures ok { IfOk result (λ v. Reads UnsignedLeb v self.old self.new) }
        ensures err { IfErr result (λ fault. RefusesField (IsLebFault IsLargeUnsigned) UnsignedLeb self.old fault) }
        ensures unchanged { OnErr result (self.new ≡ self.old) }
    {
        let bytes = self.rest();
        if !bytes.is_empty() && bytes[0] < 128 {
            self.skip(1);
            return Ok(u64::from(bytes[0]));
        }
        match long_uleb(bytes) {
            Ok((number, size)) => {
                self.skip(size);
                Ok(number)
            }
            Err(reason) => Err(Fault {
                place: self.place(),
                reason,
            }),
        }
    }

    /// The next signed LEB128 number, with or without groups at its end that repeat the sign. Fails with `Truncated` if its
    /// last byte is missing, and with `LebTooLarge` if the number is below -2^63, or 2^63 or more.
    #[inline(always)]
    #[tactic(auto, using(crate::proofs::ReadLemmas::reads_skipped))]
    pub fn sleb(&mut self) -> Result<i64, Fault>
        ensures ok { IfOk result (λ v. Reads SignedLeb v self.old self.new) }
        ensures err { IfErr result (λ fault. RefusesField (IsLebFault IsLargeSigned) SignedLeb self.old fault) }
        ensures unchanged { OnErr result (self.new ≡ self.old) }
    {
        let bytes = self.rest();
        if !bytes.is_empty() && bytes[0] < 128 {
            self.skip(1);
            return Ok(last_group(bytes[0]));
        }
        match long_sleb(bytes) {
            Ok((number, size)) => {
                self.skip(size);
                Ok(number)
            }
            Err(reason) => Err(Fault {
                place: self.place(),
                reason,
            }),
        }
    }
}

// An encoding of a number in at most 9 bytes. Its groups have at most 63 bits, so no sum of them overflows.
#[derive(Clone, Copy)]
struct ShortLeb {
    // The number of bytes.
    size: usize,
    // The unsigned value of the groups.
    sum: u64,
    // 128 to the power of `size`: one more than the greatest number that `size` groups can encode.
    scale: u64,
}

// The unsigned number that the bytes begin with, and how many bytes encode it. Not inlined: it handles numbers of more than
// one byte, which are rare, and keeps its caller small.
#[inline(never)]
#[tactic(auto, using(crate::proofs::LebLemmas::short_unsigned, crate::proofs::LebLemmas::none_cut))]
fn long_uleb(bytes: &[u8]) -> Result<(u64, usize), Reason>
    ensures ok { IfOk result (λ found. (found.1 ≤ length bytes.now) × UnsignedLeb found.0 (take found.1 bytes.now)) }
    ensures err { IfErr result (λ reason. NoneSpelled UnsignedLeb bytes.now × IsLebFault IsLargeUnsigned reason bytes.now) }
{
    if let Some(short) = short_leb(bytes) {
        return Ok((short.sum, short.size));
    }
    let Some(size) = leb_size(bytes) else {
        return Err(Reason::Truncated);
    };
    let (spelling, _) = bytes.split_at(size);
    match group_sum(spelling) {
        Some(sum) => Ok((sum, size)),
        None => Err(Reason::LebTooLarge),
    }
}

// The signed number that the bytes begin with, and how many bytes encode it. Not inlined, for the same reason as
// `long_uleb`.
#[inline(never)]
#[tactic(auto, using(crate::proofs::LebLemmas::none_cut_signed))]
fn long_sleb(bytes: &[u8]) -> Result<(i64, usize), Reason>
    ensures ok { IfOk result (λ found. (found.1 ≤ length bytes.now) × SignedLeb found.0 (take found.1 bytes.now)) }
    ensures err { IfErr result (λ reason. NoneSpelled SignedLeb bytes.now × IsLebFault IsLargeSigned reason bytes.now) }
{
    if let Some(short) = short_leb(bytes) {
        return Ok((short_sum(short, bytes), short.size));
    }
    let Some(size) = leb_size(bytes) else {
        return Err(Reason::Truncated);
    };
    let (spelling, _) = bytes.split_at(size);
    match signed_sum(spelling) {
        Some(sum) => Ok((sum, size)),
        None => Err(Reason::LebTooLarge),
    }
}

// The encoding that the bytes begin with, if it has at most 9 bytes. With `None` it may be longer or truncated.
#[tactic(auto, using(crate::proofs::LebLemmas::few_groups))]
fn short_leb(bytes: &[u8]) -> Option<ShortLeb>
    ensures { IfSome result (λ found. IsShortLeb found.size found.sum found.scale bytes.now) }
{
    let mut sum = 0;
    let mut scale = 1;
    for (i, byte) in bytes.iter().enumerate() {
        if i == 9 {
            return None;
        }
        sum += u64::from(*byte % 128) * scale;
        scale *= 128;
        if *byte < 128 {
            return Some(ShortLeb {
                size: i + 1,
                sum,
                scale,
            });
        }
    }
    None
}

// The signed number that this encoding at the start of the bytes stands for: bit 6 of its last byte is the sign.
fn short_sum(short: ShortLeb, bytes: &[u8]) -> i64
    requires { IsShortLeb short.size short.sum short.scale bytes.now }
    ensures { SignedLeb result (take short.size bytes.now) }
{
    if bytes[short.size - 1] < 64 {
        short.sum as i64
    } else {
        (i128::from(short.sum) - i128::from(short.scale)) as i64
    }
}

// The value of the last byte of a signed number: its seven bits in two's complement, from -64 to 63.
#[tactic(auto, using(crate::proofs::LebLemmas::one_low, crate::proofs::LebLemmas::one_high))]
fn last_group(byte: u8) -> i64
    requires { byte < 128 }
    ensures { result ≡ signed_groups (byte ∷ []) }
{
    if byte < 64 {
        i64::from(byte)
    } else {
        i64::from(byte) - 128
    }
}

// How many bytes encode the number that the bytes begin with: up to the first below 128. `None` if there is no such byte.
fn leb_size(bytes: &[u8]) -> Option<usize>
    ensures { MatchOption result (AreHigh bytes.now)
        (λ size. (size ≤ length bytes.now) × IsLeb (take size bytes.now)) }
{
    for (i, byte) in bytes.iter().enumerate() {
        if *byte < 128 {
            return Some(i + 1);
        }
    }
    None
}

// The unsigned number that the whole slice encodes, summed from its last byte to its first. `None` if it is 2^64 or more.
fn group_sum(spelling: &[u8]) -> Option<u64>
    ensures { MatchOption result (IsLargeUnsigned spelling.now) (λ sum. sum ≡ groups spelling.now) }
{
    let mut sum: u64 = 0;
    let mut i = spelling.len();
    while i > 0 {
        i -= 1;
        if sum >= 1 << 57 {
            return None;
        }
        sum = sum * 128 + u64::from(spelling[i] % 128);
    }
    Some(sum)
}

// The signed number that the whole slice encodes, summed from its last byte to its first. `None` if it is below -2^63, or
// 2^63 or more.
fn signed_sum(spelling: &[u8]) -> Option<i64>
    requires { IsLeb spelling.now }
    ensures { MatchOption result (IsLargeSigned spelling.now) (λ sum. sum ≡ signed_groups spelling.now) }
{
    let mut i = spelling.len() - 1;
    let mut sum = last_group(spelling[i]);
    while i > 0 {
        i -= 1;
        if sum >= 1 << 56 || sum < -(1 << 56) {
            return None;
        }
        sum = sum * 128 + i64::from(spelling[i] % 128);
    }
    Some(sum)
}
