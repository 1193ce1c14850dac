//! A source over any reader, such as a file, with a limit.
ghost use Rattle.std.specs.Prelude.{◌≡◌, ◌+◌, ◌-◌, ◌^◌, ◌<◌, min, false, is_some, true};

use crate::source::{ReadFault, Source};
use std::io::Read;

/// The greatest number of bytes that are read from a file, 2^40 (1 TiB).
pub const LIMIT: u64 = 1 << 40;

/// Gives the bytes of a reader, up to a limit.
///
/// Every error of the reader is a failure and isn't retried, even if a call was interrupted. Once the limit is reached, the
/// next pull reads one more byte. If there is one, the source is too long and gives nothing from then on; the byte counts
/// as one that remains.
#[derive(Drop)]
pub struct Counted<R> {
    reader: R,
    // The number of bytes that it may still give.
    left: u64,
    // The number of pulls that failed.
    failures: u64,
    // The byte after the limit, if there is one.
    beyond: Option<u8>,
    ghost full: { is_some beyond ≡ true → left ≡ 0 },
}

impl<R: Read> Counted<R> {
    /// A source of at most `limit` bytes of the reader; a limit above 2^40 counts as 2^40. It doesn't read yet.
    pub fn new(reader: R, limit: u64) -> Counted<R>
        ensures remaining { ⟦<Counted<R> as Source>⟧.remaining result ≡ R.remaining reader }
        ensures failures { ⟦<Counted<R> as Source>⟧.failures result ≡ 0 }
        ensures too_long { ⟦<Counted<R> as Source>⟧.too_long result ≡ false }
        ensures left { ⟦<Counted<R> as Source>⟧.left result ≡ min limit (2 ^ 40) }
    {
        Counted {
            reader,
            left: limit.min(LIMIT),
            failures: 0,
            beyond: None,
        }
    }
}

impl<R: Read> Source for Counted<R> {
    ghost use Rattle.lnt_io.specs.CountedSources.{counted_failures, counted_left, counted_more, counted_remaining, counted_too_long};

    ghost remaining = { counted_remaining R.remaining };

    ghost failures = { counted_failures };

    ghost too_long = { counted_too_long };

    ghost left = { counted_left };

    ghost more = { counted_more R.remaining };

    fn pull(&mut self, buf: &mut [u8]) -> Result<usize, ReadFault> {
        if buf.is_empty() || self.too_long() {
            return Ok(0);
        }
        let Counted {
            reader,
            left,
            failures,
            beyond,
        } = self;
        let mut one = [0];
        let full = *left == 0;
        let read = if full {
            reader.read(&mut one)
        } else {
            let room = (buf.len() as u64).min(*left) as usize;
            reader.read(&mut buf[..room])
        };
        let Ok(count) = read else {
            *failures += 1;
            return Err(ReadFault);
        };
        if full {
            *beyond = one[..count].first().copied();
            return Ok(0);
        }
        *left -= count as u64;
        Ok(count)
    }

    fn failures(&self) -> u64 {
        self.failures
    }

    fn too_long(&self) -> bool {
        self.beyond.is_some()
    }

    fn left(&self) -> u64 {
        self.left
    }
}
