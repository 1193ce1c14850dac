//! Remembers the sums of long fields, and which of these fields are the same, so that each is compared with one other.
ghost use Rattle.std.specs.Prelude.{◌≡◌, ◌≢◌, ℕ, List, IfSome, MatchBool, OnOk};
ghost use Rattle.lnt_records.specs.KeptPaths.{AreSummed, IsSummed, text_sum};

use crate::path_records::alike::NamedFile;
use std::alloc::{AllocError, Global};
use std::collections::BTreeMap;

// The number of bytes of the longest field without a sum.
pub(crate) const SHORT: usize = 256;

// The number of entries at most, so that all of them together take some 2 MB. A file takes two, if no other has the same field.
const MOST: usize = 16_384;

/// The sum of the field of a file, and a file with the same field: the same one for all files with it, if no others have its sum.
#[derive(Clone, Copy)]
pub(crate) struct SummedFile {
    pub file: NamedFile,
    pub sum: u64,
    pub first: NamedFile,
}

impl SummedFile {
    /// Whether two files have the same field, if that can be told without a look at its bytes.
    pub(crate) fn is_same(self, other: SummedFile) -> Option<bool>
        ensures { IfSome result (λ same. (text_of : ℕ → ℕ → List ℕ) → IsSummed text_of self → IsSummed text_of other
            → MatchBool same (text_of self.file.unit self.file.file ≡ text_of other.file.unit other.file.file)
            (text_of self.file.unit self.file.file ≢ text_of other.file.unit other.file.file)) }
    {
        if self.first.is(other.first) {
            return Some(true);
        }
        if self.sum != other.sum {
            return Some(false);
        }
        None
    }
}

/// What is known of some files with long fields: of each by its number, and of one by their sum. Two numbers may be the same.
#[derive(Drop)]
pub(crate) struct SummedFiles {
    tree: BTreeMap<u64, SummedFile>,
}

impl SummedFiles {
    /// No file is known.
    pub(crate) fn empty(alloc: Global) -> SummedFiles
        ensures { (text_of : ℕ → ℕ → List ℕ) → AreSummed text_of result.tree }
    {
        SummedFiles {
            tree: BTreeMap::new(alloc),
        }
    }

    /// What is known of a file.
    pub(crate) fn of_file(&self, file: NamedFile) -> Option<SummedFile>
        ensures { IfSome result (λ summed. (summed.file.unit ≡ file.unit) × (summed.file.file ≡ file.file)
            × ((text_of : ℕ → ℕ → List ℕ) → AreSummed text_of self.now.tree → IsSummed text_of summed)) }
    {
        let summed = *self.tree.get(&number_of(file))?;
        if !summed.file.is(file) {
            return None;
        }
        Some(summed)
    }

    /// Whether two files have the same field, if that is known.
    pub(crate) fn same(&self, one: NamedFile, other: NamedFile) -> Option<bool>
        ensures { IfSome result (λ same. (text_of : ℕ → ℕ → List ℕ) → AreSummed text_of self.now.tree
            → MatchBool same (text_of one.unit one.file ≡ text_of other.unit other.file)
            (text_of one.unit one.file ≢ text_of other.unit other.file)) }
    {
        let first = self.of_file(one)?;
        let second = self.of_file(other)?;
        first.is_same(second)
    }

    /// The first file whose long field has this sum, if it is known. Another may have been kept in its place.
    pub(crate) fn with_sum(&self, sum: u64) -> Option<NamedFile> {
        if sum == 0 {
            return None;
        }
        Some(self.tree.get(&sum)?.first)
    }

    /// Keeps what is known of a file, if there is room.
    pub(crate) fn keep(&mut self, summed: SummedFile) -> Result<(), AllocError>
        ensures { (text_of : ℕ → ℕ → List ℕ) → AreSummed text_of self.old.tree → IsSummed text_of summed
            → OnOk result (AreSummed text_of self.new.tree) }
    {
        if self.tree.len() >= MOST {
            return Ok(());
        }
        put(&mut self.tree, number_of(summed.file), summed)?;
        put(&mut self.tree, summed.sum, summed)
    }
}

// Puts in what is known of a file.
fn put(
    tree: &mut BTreeMap<u64, SummedFile>,
    number: u64,
    summed: SummedFile,
) -> Result<(), AllocError>
    ensures { (text_of : ℕ → ℕ → List ℕ) → AreSummed text_of tree.old → IsSummed text_of summed → OnOk result (AreSummed text_of tree.new) }
{
    match tree.insert(number, summed) {
        Ok(_) => Ok(()),
        Err(_) => Err(AllocError),
    }
}

// The number that selects a file.
fn number_of(file: NamedFile) -> u64 {
    file.unit.rotate_left(32).wrapping_add(file.file)
}

/// The sum of a field: 0 if it is short.
pub(crate) fn sum_of(field: &[u8]) -> u64
    ensures { result ≡ text_sum field.now }
{
    if field.len() <= SHORT {
        return 0;
    }
    let mut sum = 0u64;
    for &byte in field {
        sum = sum
            .wrapping_mul(0x100_0000_01b3)
            .wrapping_add(u64::from(byte));
    }
    sum
}
