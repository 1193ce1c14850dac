//! The paths of files.
ghost use Rattle.std.specs.Prelude.{◌≡◌, ℕ, List, IfOk, IsTrue};

use std::alloc::{AllocError, Global};

/// Gives the full paths of files, from wherever they are held or made.
///
/// A ghost member gives its meaning: the bytes of the path of each file of each unit.
pub trait Paths {
    ghost bytes_of: { Self → ℕ → ℕ → List ℕ };

    /// The path of a file of the unit at this offset. Fails only if memory runs out.
    fn path_of(&self, alloc: Global, unit: u64, file: u64) -> Result<Vec<u8>, AllocError>
        ensures path { IfOk result (λ path. path.items ≡ bytes_of self.now unit file) };

    /// Whether two files are known to have the same path without a look at all bytes of it. `false`: they may have the same one.
    fn same_texts(&self, unit: u64, file: u64, other_unit: u64, other_file: u64) -> bool
        ensures { IsTrue result → bytes_of self.now unit file ≡ bytes_of self.now other_unit other_file };

    /// A number that is the same for most files of which `same_texts` is true, and differs for most others.
    fn texts_number(&self, unit: u64, file: u64) -> u64;
}
