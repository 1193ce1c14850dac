//! Where a search among rows in brief begins.
ghost use Rattle.std.specs.Prelude.{◌-◌, ◌<◌, ◌≤◌, get_or, length};
ghost use Rattle.lnt_spans.specs.Positions.{IsAtMost, IsBelow};
ghost use Rattle.lnt_sequences.specs.Briefs.{IsBetween, place_of};
ghost use Rattle.lnt_sequences.specs.declared.brief.BriefRow as brief;

use crate::brief::BriefRow;
use lnt_spans::Position;
use std::alloc::{AllocError, Global};

// For each range of 2^shift addresses, the number of rows before its first. Only the time of a search depends on it: what it
// gives is judged before it is taken.
#[derive(Drop)]
pub(crate) struct Buckets {
    shift: u32,
    firsts: Vec<u32>,
}

impl Buckets {
    // Those of these rows: at most one for each four of them, and one more.
    pub(crate) fn of(alloc: Global, rows: &[BriefRow]) -> Result<Buckets, AllocError> {
        let mut buckets = Buckets {
            shift: shift_for(rows),
            firsts: Vec::new(alloc),
        };
        for place in 0..rows.len() {
            let bucket = bucket_of(u64::from(rows[place].address), buckets.shift);
            buckets.begin(bucket, place)?;
        }
        Ok(buckets)
    }

    // Lets all ranges up to this one begin at a row, but for those that begin before.
    fn begin(&mut self, bucket: usize, place: usize) -> Result<(), AllocError> {
        for _ in self.firsts.len()..bucket.saturating_add(1) {
            self.firsts.push(u32::try_from(place).unwrap_or(0))?;
        }
        Ok(())
    }

    // Two numbers of rows, between which is the number of those that are at or below a place.
    #[inline(always)]
    pub(crate) fn around(&self, rows: &[BriefRow], at: Position) -> (usize, usize)
        ensures { IsBetween rows.now at result }
    {
        let bucket = bucket_of(at.address, self.shift);
        let low = low_from(rows, at, self.first(bucket));
        let high = high_from(rows, at, self.first(bucket.saturating_add(1)));
        if low <= high {
            (low, high)
        } else {
            (0, rows.len())
        }
    }

    // The number of rows before a range. 0 if it isn't known.
    #[inline(always)]
    fn first(&self, bucket: usize) -> usize {
        self.firsts.get(bucket).map_or(0, |first| *first as usize)
    }
}

// The range of an address.
#[inline(always)]
fn bucket_of(address: u64, shift: u32) -> usize {
    address.checked_shr(shift).unwrap_or(0) as usize
}

// The least shift by which there is at most one range for each four of these rows.
fn shift_for(rows: &[BriefRow]) -> u32 {
    let Some(last) = rows.last() else {
        return 0;
    };
    for shift in 0..32 {
        if bucket_of(u64::from(last.address), shift) <= rows.len() / 4 {
            return shift;
        }
    }
    32
}

// A number of rows that are at or below a place: this one, if it is one, else 0.
#[inline(always)]
fn low_from(rows: &[BriefRow], at: Position, count: usize) -> usize
    ensures last { (d : brief.BriefRow) → 0 < result → IsAtMost (place_of (get_or rows.now (result - 1) d)) at }
{
    if count == 0 || count > rows.len() || at < rows[count - 1].place() {
        0
    } else {
        count
    }
}

// A number of rows after which the next is above a place: this one, if it is one, else that of all rows.
#[inline(always)]
fn high_from(rows: &[BriefRow], at: Position, count: usize) -> usize
    ensures within { result ≤ length rows.now }
    ensures next { (d : brief.BriefRow) → result < length rows.now → IsBelow at (place_of (get_or rows.now result d)) }
{
    if count < rows.len() && at < rows[count].place() {
        count
    } else {
        rows.len()
    }
}
