//! An opener of files.
ghost use Rattle.std.specs.Prelude.{◌≡◌, ℕ, List, IfSome, IsNone, ⊤, false};
ghost use Rattle.lnt_io.specs.Files.{FileState, Readable, RefusesOnly, FindsNoMore, OpensOnce, Unreadable};

use std::alloc::Global;
use std::io::Read;

/// Gives readers of files by their names.
///
/// Contracts see it by three ghost members. `finds` is what may be known of the file with a name. That is that it can't be
/// opened, or all its bytes; or `None` in their place, if its reader doesn't say them. `refused` is whether a call of `reader_of` may
/// have given no reader for the file with a name so far, and `opens` how often it was called with a name, at most. By default
/// anything may be known of each file, each may have been refused, and no call is counted, so nothing is said of any.
pub trait Opener {
    /// Reads a file from its first byte on.
    type Reader: Read + Drop;

    ghost finds: { Self → List ℕ → FileState → Type 0 } = { λ _ _ _. ⊤ };

    ghost refused: { Self → List ℕ → Type 0 } = { λ _ _. ⊤ };

    ghost opens: { Self → List ℕ → ℕ } = { λ _ _. 0 };

    /// A reader of the file with this name, or `None` if it can't be opened.
    fn reader_of(&mut self, name: &str) -> Option<Self::Reader>
        ensures found { IfSome result (λ reader. finds self.old name.now (Readable (Self.Reader.remaining reader))) }
        ensures none { IsNone result → finds self.old name.now Unreadable }
        ensures later { FindsNoMore (finds self.old) (finds self.new) }
        ensures refused { RefusesOnly (λ other. IsNone result × (name.now ≡ other)) (refused self.old) (refused self.new) }
        ensures opened { OpensOnce name.now (opens self.old) (opens self.new) };

    /// Another reader of a file that was read before. `None` if its bytes can't be read a second time, like those of
    /// standard input or of a pipe.
    fn reader_again(&self, _name: &str) -> Option<Self::Reader> {
        None
    }

    /// Whether the name is that of a regular file, which has an end, and whose reader doesn't wait. By default each is one.
    fn is_regular(&self, name: &str) -> bool
        ensures { result ≡ false → finds self.now name.now Unreadable }
    {
        let _ = name;
        true
    }

    /// Why the last file that failed couldn't be opened or read, as the system reports it. `None` if it reports nothing, or
    /// if memory ran out.
    fn reason(&self, _alloc: Global) -> Option<String> {
        None
    }
}
