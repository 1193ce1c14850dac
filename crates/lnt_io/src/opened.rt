//! A file that is read, and its name.
ghost use Rattle.std.specs.Prelude.{◌≡◌, ◌^◌, ◌<◌, IfErr, IfOk, IsErrOf, IsTrue, false};
ghost use Rattle.lnt_io.specs.Files.{FindsNoMore, OpensOnly, OpensOnce, Overlong, Readable, RefusesOnly, Unread, Unreadable};
ghost use Rattle.lnt_io.specs.IoStops.{IsOpening};

use crate::source::{ReadFault, Source};
use crate::watcher::{WatchedReader, Watcher};
use crate::{Counted, Files, IoStop, source_of};
use std::alloc::Global;
use std::io::{BufReader, Read};

/// The bytes of a file, up to 2^40 of them, and the name that it was opened by, which stays the same. It is read block by block,
/// as its bytes are needed, and each block is shown to a watcher. If this source fails, or is found too long, the file with this
/// name can't be read whole.
#[derive(Drop)]
pub struct OpenedFile<'n, R, V> {
    name: &'n str,
    source: Counted<BufReader<WatchedReader<R, V>>>,
}

impl<'n, R: Read + Drop, V: Watcher + Drop> OpenedFile<'n, R, V> {
    /// Opens the file with this name, once. It doesn't read yet.
    ///
    /// The source hasn't failed, wasn't found too long, and may give 2^40 bytes. It gives what the opener says of the file. Fails
    /// with `Read` if the opener gives no reader, and otherwise only with `Memory`.
    pub fn open<O: Files<Reader = R>>(
        alloc: Global,
        opener: &mut O,
        name: &'n str,
        watcher: V,
    ) -> Result<OpenedFile<'n, R, V>, IoStop>
        ensures name { IfOk result (λ file. ⟦<OpenedFile<'n, R, V> as Source>⟧.name file ≡ name.now) }
        ensures failures { IfOk result (λ file. ⟦<OpenedFile<'n, R, V> as Source>⟧.failures file ≡ 0) }
        ensures too_long { IfOk result (λ file. ⟦<OpenedFile<'n, R, V> as Source>⟧.too_long file ≡ false) }
        ensures left { IfOk result (λ file. ⟦<OpenedFile<'n, R, V> as Source>⟧.left file ≡ 2 ^ 40) }
        ensures found { IfOk result (λ file. O.finds opener.old name.now (Readable (⟦<OpenedFile<'n, R, V> as Source>⟧.remaining file))) }
        ensures none { IsErrOf result IoStop.Read → O.finds opener.old name.now Unreadable }
        ensures later { FindsNoMore (O.finds opener.old) (O.finds opener.new) }
        ensures refused { RefusesOnly (λ other. IsErrOf result IoStop.Read × (name.now ≡ other))
            (O.refused opener.old) (O.refused opener.new) }
        ensures opened { OpensOnce name.now (O.opens opener.old) (O.opens opener.new) }
        ensures err { IfErr result IsOpening }
    {
        let Some(reader) = opener.reader_of(name) else {
            return Err(IoStop::Read);
        };
        let source = source_of(alloc, WatchedReader::new(reader, watcher))?;
        Ok(OpenedFile { name, source })
    }

    /// Has the opener take note if the file couldn't be read whole: if this source failed, and if it was found too long.
    pub fn tell_unread<O: Files<Reader = R>>(&self, opener: &mut O)
        ensures unread { 0 < ⟦<OpenedFile<'n, R, V> as Source>⟧.failures self.now
            → O.finds opener.old (⟦<OpenedFile<'n, R, V> as Source>⟧.name self.now) Unread }
        ensures too_long { IsTrue (⟦<OpenedFile<'n, R, V> as Source>⟧.too_long self.now)
            → O.finds opener.old (⟦<OpenedFile<'n, R, V> as Source>⟧.name self.now) Overlong }
        ensures later { FindsNoMore (O.finds opener.old) (O.finds opener.new) }
        ensures refused { RefusesOnly (λ _. ⊥) (O.refused opener.old) (O.refused opener.new) }
        ensures opened { OpensOnly (λ _. ⊥) (O.opens opener.old) (O.opens opener.new) }
    {
        if self.failures() > 0 || self.too_long() {
            opener.could_not_read(self);
        }
    }
}

impl<'n, R: Read, V: Watcher> Source for OpenedFile<'n, R, V> {
    ghost use Rattle.lnt_io.specs.CountedSources.{counted_failures, counted_left, counted_more, counted_remaining, counted_too_long};

    ghost remaining = { λ file. counted_remaining ⟦<BufReader<WatchedReader<R, V>> as Read>⟧.remaining file.source };

    ghost failures = { λ file. counted_failures file.source };

    ghost too_long = { λ file. counted_too_long file.source };

    ghost left = { λ file. counted_left file.source };

    ghost name = { λ file. file.name.now };

    ghost more = { λ file. counted_more ⟦<BufReader<WatchedReader<R, V>> as Read>⟧.remaining file.source };

    fn pull(&mut self, buf: &mut [u8]) -> Result<usize, ReadFault> {
        self.source.pull(buf)
    }

    fn failures(&self) -> u64 {
        self.source.failures()
    }

    fn too_long(&self) -> bool {
        self.source.too_long()
    }

    fn left(&self) -> u64 {
        self.source.left()
    }
}
