//! Who is shown what is read of a file.
ghost use Rattle.std.specs.Prelude.{◌≡◌};

use std::io::{self, Read};

/// Is shown the bytes of a file as they are read, a block at a time. `()` looks at none.
pub trait Watcher {
    /// These bytes were read, after those that were shown before.
    fn see(&mut self, bytes: &[u8]);
}

impl Watcher for () {
    fn see(&mut self, _bytes: &[u8]) {}
}

// A reader that shows what it reads. It fails exactly if the reader that it has does.
#[derive(Drop)]
pub(crate) struct WatchedReader<R, V> {
    reader: R,
    watcher: V,
}

impl<R: Read, V: Watcher> WatchedReader<R, V> {
    pub(crate) fn new(reader: R, watcher: V) -> WatchedReader<R, V>
        ensures { ⟦<WatchedReader<R, V> as Read>⟧.remaining result ≡ R.remaining reader }
    {
        WatchedReader { reader, watcher }
    }
}

impl<R: Read, V: Watcher> Read for WatchedReader<R, V> {
    ghost remaining = { λ watched. R.remaining watched.reader };

    fn read(&mut self, buf: &mut [u8]) -> io::Result<usize> {
        let count = self.reader.read(buf)?;
        self.watcher.see(&buf[..count]);
        Ok(count)
    }
}
