//! The standard output of the process.
use std::cell::Cell;
use std::io::{self, ErrorKind, Write};

/// A writer that records whether it is a pipe that nobody reads any more.
#[derive(Drop)]
pub struct Output<'a, W> {
    /// The underlying writer.
    pub writer: W,
    /// Set if a write fails because nobody reads the pipe any more, and otherwise unchanged.
    pub is_unread: &'a Cell<bool>,
}

impl<W: Write> Write for Output<'_, W> {
    fn write(&mut self, buf: &[u8]) -> io::Result<usize> {
        let written = self.writer.write(buf);
        if matches!(&written, Err(error) if error.kind() == ErrorKind::BrokenPipe) {
            self.is_unread.set(true);
        }
        written
    }

    fn flush(&mut self) -> io::Result<()> {
        self.writer.flush()
    }
}
