//! Reads the bytes of a source: all that remain, or a block of them.
ghost use Rattle.std.specs.Prelude.{◌≡◌, ◌+◌, ◌-◌, ◌^◌, ◌<◌, ◌≤◌, length, take, IfOk, IsErrOf, IfSome, MatchResult};
ghost use Rattle.lnt_io.specs.Pulling.{Pulls, GivesMore, IsAtEnd};
ghost use Rattle.lnt_io.specs.Stopping.{CountsFailure, IsTooLongOn};

use crate::source::{ReadFault, Source};
use crate::stop::Stop;
use std::alloc::Global;

/// The number of bytes in a block, 64 KiB: the most that are pulled from a source at once and reserved ahead of them, the size of a
/// file's buffer, and how many of a text are collected before they are written.
pub const BLOCK: usize = 1 << 16;

// Writes the next bytes of the source to the start of the room, until it is full or no more come. It returns how many came:
// fewer than the length of the room only at the end, or if the source is too long.
#[tactic(auto, using(crate::proofs::PullLaws::pulls_none))]
fn fill<R: Source>(source: &mut R, room: &mut [u8]) -> Result<usize, ReadFault>
    requires { R.failures source.old < 2 ^ 64 - 1 }
    ensures bound { IfOk result (λ k. k ≤ length room.new) }
    ensures bytes { IfOk result (λ k. Pulls (R.remaining source.old) (R.remaining source.new) (take k room.new)) }
    ensures end { IfOk result (λ k. k < length room.new → IsAtEnd (R.remaining source.new) (R.too_long source.new)) }
    ensures left { IfOk result (λ k. R.left source.new + k ≡ R.left source.old) }
    ensures failures { MatchResult result
        (λ _. R.failures source.new ≡ R.failures source.old) (λ _. R.failures source.new ≡ R.failures source.old + 1) }
    ensures name { R.name source.new ≡ R.name source.old }
{
    let mut filled = 0;
    while filled < room.len() {
        let count = source.pull(&mut room[filled..])?;
        if count == 0 {
            return Ok(filled);
        }
        filled += count;
    }
    Ok(filled)
}

/// Appends the next `size` bytes of the source, or those up to its end, to `all`, without another copy. It returns how many
/// came: fewer than `size` only at the end, or if the source is too long.
///
/// Stops with `Memory`, and with `Read` only if the source failed. After a stop `all` is unspecified. The caller ensures
/// that the number of failures is below `u64::MAX`, and asks for no more than [`BLOCK`] bytes.
pub fn take_block<R: Source>(source: &mut R, all: &mut Vec<u8>, size: usize) -> Result<usize, Stop>
    requires failures { R.failures source.old < 2 ^ 64 - 1 }
    requires size { size ≤ 2 ^ 16 }
    ensures bound { IfOk result (λ k. k ≤ size) }
    ensures bytes { IfOk result (λ k.
        GivesMore (R.remaining source.old) (R.remaining source.new) all.old.items all.new.items k) }
    ensures end { IfOk result (λ k. k < size → IsAtEnd (R.remaining source.new) (R.too_long source.new)) }
    ensures left { IfOk result (λ k. R.left source.new + k ≡ R.left source.old) }
    ensures failures { CountsFailure ⟦<R as Source>⟧ source.old source.new result Stop.Read }
    ensures not_long { IsErrOf result Stop.TooLong → ⊥ }
{
    let start = all.len();
    if all.resize(start + size, 0).is_err() {
        return Err(Stop::Memory);
    }
    let Ok(count) = fill(source, &mut all[start..]) else {
        return Err(Stop::Read);
    };
    all.truncate(start + count);
    Ok(count)
}

/// All remaining bytes of the source, up to its end.
///
/// Stops with `Memory`; with `Read` only if the source failed, once, which isn't retried; and with `TooLong` only if the
/// source was found to have more bytes than it may give. Memory is reserved for at most [`BLOCK`] bytes ahead of those that
/// came. The caller ensures that the source has failed fewer than `u64::MAX` times.
#[tactic(auto, using(crate::proofs::PullLaws::pulling))]
pub fn read_all<R: Source>(alloc: Global, source: &mut R) -> Result<Vec<u8>, Stop>
    requires { R.failures source.old < 2 ^ 64 - 1 }
    ensures ok { IfOk result (λ all. IfSome (R.remaining source.old) (λ bytes. all.items ≡ bytes)) }
    ensures failures { CountsFailure ⟦<R as Source>⟧ source.old source.new result Stop.Read }
    ensures too_long { IsTooLongOn ⟦<R as Source>⟧ source.old source.new result Stop.TooLong }
{
    let mut all = Vec::new(alloc);
    while take_block(source, &mut all, BLOCK)? == BLOCK {}
    if source.too_long() {
        return Err(Stop::TooLong);
    }
    Ok(all)
}
