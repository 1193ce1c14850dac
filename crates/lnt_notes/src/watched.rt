//! The first bytes that are read of a file, and how many are read.
ghost use Rattle.std.specs.Prelude.{◌≡◌};

use lnt_io::Watcher;
use std::cell::Cell;

// The number of first bytes that are kept.
const HEAD: usize = 64;

/// The first 64 bytes that were read of a file, and the number of all bytes that were read.
#[derive(Clone, Copy)]
pub struct Seen {
    head: [u8; HEAD],
    count: u64,
}

impl Seen {
    /// No byte was read yet.
    pub fn nothing() -> Seen
        ensures { result.count ≡ 0 }
    {
        Seen {
            head: [0; HEAD],
            count: 0,
        }
    }

    // The first bytes, at most 64.
    pub(crate) fn head(&self) -> &[u8] {
        &self.head[..self.count.min(HEAD as u64) as usize]
    }

    // The number of bytes that were read; at most `u64::MAX` is counted.
    pub(crate) fn count(&self) -> u64 {
        self.count
    }

    fn see(&mut self, bytes: &[u8]) {
        if self.count < HEAD as u64 {
            let start = self.count as usize;
            let more = bytes.len().min(HEAD - start);
            self.head[start..start + more].copy_from_slice(&bytes[..more]);
        }
        self.count = self.count.saturating_add(bytes.len() as u64);
    }
}

/// Notes in a cell which bytes are read of a file.
#[derive(Drop)]
pub struct Watching<'a> {
    seen: &'a Cell<Seen>,
}

impl<'a> Watching<'a> {
    /// The cell gets what is noted of the bytes that are read, at each read.
    pub fn new(seen: &'a Cell<Seen>) -> Watching<'a> {
        Watching { seen }
    }
}

impl Watcher for Watching<'_> {
    fn see(&mut self, bytes: &[u8]) {
        let mut seen = self.seen.get();
        seen.see(bytes);
        self.seen.set(seen);
    }
}
