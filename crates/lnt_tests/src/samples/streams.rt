//! Readers and writers that give and take little at a time, and fail.
use std::alloc::Global;
use std::io::{self, Read, Write};

/// Gives bytes one at a time. It fails after them, or it ends.
#[derive(Clone, Copy)]
pub(crate) struct Reader<'a> {
    bytes: &'a [u8],
    fails: bool,
}

impl Read for Reader<'_> {
    fn read(&mut self, buf: &mut [u8]) -> io::Result<usize> {
        if self.bytes.is_empty() && self.fails {
            return Err(io::Error::from(io::ErrorKind::Interrupted));
        }
        let (Some((first, rest)), Some(place)) = (self.bytes.split_first(), buf.first_mut()) else {
            return Ok(0);
        };
        *place = *first;
        self.bytes = rest;
        Ok(1)
    }
}

/// A reader of these bytes, which then ends.
pub(crate) fn whole(bytes: &[u8]) -> Reader<'_> {
    Reader {
        bytes,
        fails: false,
    }
}

/// A reader of these bytes, which fails after them.
pub(crate) fn failing(bytes: &[u8]) -> Reader<'_> {
    Reader { bytes, fails: true }
}

/// Gives bytes in pieces, fails after some reads, and keeps what was asked of it.
#[derive(Drop)]
pub(crate) struct Pieces<'a> {
    bytes: &'a [u8],
    piece: usize,
    sound: u64,
    asked: Vec<usize>,
}

impl<'a> Pieces<'a> {
    /// Gives at most `piece` bytes at a time. The first `sound` reads succeed, and each one after them is interrupted.
    pub(crate) fn new(alloc: Global, bytes: &'a [u8], piece: usize, sound: u64) -> Pieces<'a> {
        Pieces {
            bytes,
            piece,
            sound,
            asked: Vec::new(alloc),
        }
    }

    /// How many bytes were asked for, read by read.
    pub(crate) fn asked(&self) -> &[usize] {
        self.asked.as_slice()
    }
}

impl Read for Pieces<'_> {
    fn read(&mut self, buf: &mut [u8]) -> io::Result<usize> {
        self.asked.push(buf.len())?;
        if self.sound == 0 {
            return Err(io::Error::from(io::ErrorKind::Interrupted));
        }
        self.sound -= 1;
        let count = self.piece.min(buf.len()).min(self.bytes.len());
        let (prefix, rest) = self.bytes.split_at(count);
        buf[..count].copy_from_slice(prefix);
        self.bytes = rest;
        Ok(count)
    }
}

/// Gives bytes in pieces, fails once, and counts how often it was read.
#[derive(Clone, Copy)]
pub(crate) struct FailsOnce<'a> {
    bytes: &'a [u8],
    piece: usize,
    fails_at: u64,
    reads: u64,
}

impl<'a> FailsOnce<'a> {
    /// Gives at most `piece` bytes at a time. The read after the first `sound` ones is interrupted, and no other.
    pub(crate) fn new(bytes: &'a [u8], piece: usize, sound: u64) -> FailsOnce<'a> {
        FailsOnce {
            bytes,
            piece,
            fails_at: sound,
            reads: 0,
        }
    }

    /// How often it was read.
    pub(crate) fn reads(&self) -> u64 {
        self.reads
    }
}

impl Read for FailsOnce<'_> {
    fn read(&mut self, buf: &mut [u8]) -> io::Result<usize> {
        let fails = self.reads == self.fails_at;
        self.reads = self.reads.saturating_add(1);
        if fails {
            return Err(io::Error::from(io::ErrorKind::Interrupted));
        }
        let count = self.piece.min(buf.len()).min(self.bytes.len());
        let (prefix, rest) = self.bytes.split_at(count);
        buf[..count].copy_from_slice(prefix);
        self.bytes = rest;
        Ok(count)
    }
}

/// Takes a piece at a time. After some writes it fails each further one.
#[derive(Drop)]
pub(crate) struct Narrow {
    taken: Vec<u8>,
    piece: usize,
    sound: usize,
}

impl Narrow {
    /// Takes at most `piece` bytes at a time. The first `sound` writes succeed, and each one after them fails.
    pub(crate) fn new(alloc: Global, piece: usize, sound: usize) -> Narrow {
        Narrow {
            taken: Vec::new(alloc),
            piece,
            sound,
        }
    }

    /// The bytes that it took.
    pub(crate) fn into_taken(self) -> Vec<u8> {
        self.taken
    }
}

impl Write for Narrow {
    fn write(&mut self, buf: &[u8]) -> io::Result<usize> {
        if self.sound == 0 {
            return Err(io::Error::from(io::ErrorKind::BrokenPipe));
        }
        self.sound -= 1;
        let count = self.piece.min(buf.len());
        self.taken.extend_from_slice(&buf[..count])?;
        Ok(count)
    }

    fn flush(&mut self) -> io::Result<()> {
        Ok(())
    }
}
