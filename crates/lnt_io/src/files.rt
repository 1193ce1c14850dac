//! Files by their names, as the command reads them.
ghost use Rattle.std.specs.Prelude.{◌≡◌, ◌≢◌, ◌^◌, ◌<◌, ℕ, List, IfOk, IfErr, IfSome, IsErrOf, IsNone, IsTrue, ⊤, false};
ghost use Rattle.lnt_io.specs.Files.{AreBytesOf, FileState, Overlong, Readable, RefusesOnly, FindsNoMore, Unread, Unreadable};
ghost use Rattle.lnt_io.specs.Files.{IsTooLongFile, IsUnreadFile, OpensOnce, OpensOnly, OrUnread};
ghost use Rattle.lnt_io.specs.Stopping.{IsCutShort};
ghost use Rattle.lnt_io.specs.declared.io_stop.IoStop.TheVariants.{Write};

use crate::io_stop::IoStop;
use crate::opener::Opener;
use crate::watcher::Watcher;
use crate::{BLOCK, Counted, LIMIT, OpenedFile, Source, read_all};
use std::alloc::{AllocError, Global};
use std::io::{BufReader, Read};

/// Gives readers of files by their names, and may take note of files that couldn't be read. Each [`Opener`] is one that takes no
/// note.
///
/// Contracts see it by the three ghost members of an `Opener`. A type that says which files may fail to be read whole implements
/// this trait itself.
pub trait Files {
    /// Reads a file from its first byte on.
    type Reader: Read + Drop;

    ghost finds: { Self → List ℕ → FileState → Type 0 } = { λ _ _ _. ⊤ };

    ghost refused: { Self → List ℕ → Type 0 } = { λ _ _. ⊤ };

    ghost opens: { Self → List ℕ → ℕ } = { λ _ _. 0 };

    /// A reader of the file with this name, or `None` if it can't be opened.
    fn reader_of(&mut self, name: &str) -> Option<Self::Reader>
        ensures found { IfSome result (λ reader. finds self.old name.now (Readable (Self.Reader.remaining reader))) }
        ensures none { IsNone result → finds self.old name.now Unreadable }
        ensures later { FindsNoMore (finds self.old) (finds self.new) }
        ensures refused { RefusesOnly (λ other. IsNone result × (name.now ≡ other)) (refused self.old) (refused self.new) }
        ensures opened { OpensOnce name.now (opens self.old) (opens self.new) };

    /// Takes note that a file couldn't be read whole, and why: its source failed, or was found too long, or both.
    fn could_not_read<'n, V: Watcher>(&mut self, file: &OpenedFile<'n, Self::Reader, V>)
        requires { IsCutShort ⟦<OpenedFile<'n, Self::Reader, V> as Source>⟧ file.now }
        ensures unread { 0 < ⟦<OpenedFile<'n, Self::Reader, V> as Source>⟧.failures file.now
            → finds self.old (⟦<OpenedFile<'n, Self::Reader, V> as Source>⟧.name file.now) Unread }
        ensures too_long { IsTrue (⟦<OpenedFile<'n, Self::Reader, V> as Source>⟧.too_long file.now)
            → finds self.old (⟦<OpenedFile<'n, Self::Reader, V> as Source>⟧.name file.now) Overlong }
        ensures later { FindsNoMore (finds self.old) (finds self.new) }
        ensures refused { RefusesOnly (λ _. ⊥) (refused self.old) (refused self.new) }
        ensures opened { OpensOnly (λ _. ⊥) (opens self.old) (opens self.new) };

    /// Another reader of a file that was read before, as [`Opener::reader_again`].
    fn reader_again(&self, name: &str) -> Option<Self::Reader>;

    /// Whether the name is that of a regular file, as [`Opener::is_regular`].
    fn is_regular(&self, name: &str) -> bool
        ensures { result ≡ false → finds self.now name.now Unreadable };

    /// Why the last file that failed couldn't be opened or read, as [`Opener::reason`].
    fn reason(&self, alloc: Global) -> Option<String>;
}

impl<O: Opener> Files for O {
    type Reader = O::Reader;

    ghost finds = { λ opener name state. OrUnread (O.finds opener name) state };

    ghost refused = { O.refused };

    ghost opens = { O.opens };

    fn reader_of(&mut self, name: &str) -> Option<O::Reader> {
        Opener::reader_of(self, name)
    }

    fn could_not_read<'n, V: Watcher>(&mut self, _file: &OpenedFile<'n, O::Reader, V>) {}

    fn reader_again(&self, name: &str) -> Option<O::Reader> {
        Opener::reader_again(self, name)
    }

    fn is_regular(&self, name: &str) -> bool {
        Opener::is_regular(self, name)
    }

    fn reason(&self, alloc: Global) -> Option<String> {
        Opener::reason(self, alloc)
    }
}

/// A reader's bytes as a source, read block by block, as they are needed.
///
/// The source hasn't failed, wasn't found too long, and may give 2^40 bytes: those of the reader. Fails only if memory runs
/// out.
pub fn source_of<R: Read + Drop>(
    alloc: Global,
    reader: R,
) -> Result<Counted<BufReader<R>>, AllocError>
    ensures failures { IfOk result (λ source. ⟦<Counted<BufReader<R>> as Source>⟧.failures source ≡ 0) }
    ensures too_long { IfOk result (λ source. ⟦<Counted<BufReader<R>> as Source>⟧.too_long source ≡ false) }
    ensures left { IfOk result (λ source. ⟦<Counted<BufReader<R>> as Source>⟧.left source ≡ 2 ^ 40) }
    ensures remaining { IfOk result (λ source. ⟦<Counted<BufReader<R>> as Source>⟧.remaining source ≡ R.remaining reader) }
{
    match BufReader::with_capacity(alloc, BLOCK, reader) {
        Ok(reader) => Ok(Counted::new(reader, LIMIT)),
        Err(_) => Err(AllocError),
    }
}

/// All bytes of the file with this name, as the opener says them. It is opened once, and its bytes are shown to the watcher.
///
/// Fails with `Read` only if the file can't be opened or read, of which the opener takes note; with `TooLong` only if it has more
/// bytes than the limit, of which the opener takes note too; and with `Memory`; never with `Write`.
pub fn bytes_of_file<O: Files, V: Watcher + Drop>(
    alloc: Global,
    opener: &mut O,
    name: &str,
    watcher: V,
) -> Result<Vec<u8>, IoStop>
    ensures bytes { IfOk result (λ bytes. AreBytesOf (O.finds opener.old name.now) bytes.items) }
    ensures later { FindsNoMore (O.finds opener.old) (O.finds opener.new) }
    ensures refused { RefusesOnly (λ other. IsErrOf result IoStop.Read × (name.now ≡ other)) (O.refused opener.old) (O.refused opener.new) }
    ensures opened { OpensOnce name.now (O.opens opener.old) (O.opens opener.new) }
    ensures unread { IsErrOf result IoStop.Read → IsUnreadFile (O.finds opener.old name.now) }
    ensures too_long { IsErrOf result IoStop.TooLong → IsTooLongFile (O.finds opener.old name.now) }
    ensures err { IfErr result (λ io_stop. io_stop ≢ Write) }
{
    let mut file = OpenedFile::open(alloc, opener, name, watcher)?;
    let read = read_all(alloc, &mut file);
    file.tell_unread(opener);
    Ok(read?)
}
