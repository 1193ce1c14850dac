//! Remembers which files have the same path.
ghost use Rattle.std.specs.Prelude.{◌≡◌, ◌≢◌, ℕ, List, IfOk, IfSome, MatchBool, OnOk};
ghost use Rattle.lnt_records.specs.KeptPaths.{ArePairsOf};

use crate::path_records::paths::Paths;
use lnt_spans::Answer;
use std::alloc::{AllocError, Global};

// The number of slots for pairs, and for files: 2 to the power of so many bits.
const BITS: u32 = 12;

/// A file of the unit at this offset.
#[derive(Clone, Copy)]
pub(crate) struct NamedFile {
    pub unit: u64,
    pub file: u64,
}

impl NamedFile {
    /// The file that an answer names.
    pub(crate) fn of(answer: &Answer) -> NamedFile
        ensures unit { result.unit ≡ answer.now.unit }
        ensures file { result.file ≡ answer.now.file }
    {
        NamedFile {
            unit: answer.unit,
            file: answer.file,
        }
    }

    /// Whether it is this one.
    pub(crate) fn is(self, other: NamedFile) -> bool
        ensures { MatchBool result ((self.unit ≡ other.unit) × (self.file ≡ other.file)) (Unit {0}) }
    {
        self.unit == other.unit && self.file == other.file
    }
}

// Whether two files have the same path.
#[derive(Clone, Copy)]
pub(crate) struct ComparedFiles {
    one: NamedFile,
    other: NamedFile,
    same: bool,
}

/// Whether two files have the same path, for some pairs of files, one in each slot; and some files, one in each slot, that stand for all
/// whose paths are made of the same texts. The numbers of the files select the slot of a pair, and the texts that of a file.
#[derive(Drop)]
pub(crate) struct AlikeFiles {
    pairs: Vec<Option<ComparedFiles>>,
    firsts: Vec<Option<NamedFile>>,
}

impl AlikeFiles {
    /// Nothing is remembered, and there are no slots yet.
    pub(crate) fn empty(alloc: Global) -> AlikeFiles
        ensures { (path : ℕ → ℕ → List ℕ) → ArePairsOf path result.pairs.items }
    {
        AlikeFiles {
            pairs: Vec::new(alloc),
            firsts: Vec::new(alloc),
        }
    }

    /// Makes the slots, if there are none yet.
    pub(crate) fn make_slots(&mut self, alloc: Global) -> Result<(), AllocError>
        ensures { OnOk result ((path : ℕ → ℕ → List ℕ) → ArePairsOf path self.old.pairs.items → ArePairsOf path self.new.pairs.items) }
    {
        if !self.firsts.is_empty() {
            return Ok(());
        }
        self.pairs = no_pairs(alloc)?;
        self.firsts = vec![in alloc; None; 1 << BITS]?;
        Ok(())
    }

    /// A file with the same path: the first one of those whose paths are made of the same texts, if it is still known.
    pub(crate) fn first_of<P: Paths>(&mut self, paths: &P, file: NamedFile) -> NamedFile
        ensures pairs { self.new.pairs ≡ self.old.pairs }
        ensures same { P.bytes_of paths.now result.unit result.file ≡ P.bytes_of paths.now file.unit file.file }
    {
        let place = slot_of(paths.texts_number(file.unit, file.file));
        let Some(slot) = self.firsts.get_mut(place) else {
            return file;
        };
        if let Some(first) = *slot {
            if paths.same_texts(first.unit, first.file, file.unit, file.file) {
                return first;
            }
        }
        *slot = Some(file);
        file
    }

    /// Whether two files have the same path, if that is remembered.
    pub(crate) fn recall(&self, one: NamedFile, other: NamedFile) -> Option<bool>
        ensures { IfSome result (λ same. (path : ℕ → ℕ → List ℕ) → ArePairsOf path self.now.pairs.items
            → MatchBool same (path one.unit one.file ≡ path other.unit other.file)
            (path one.unit one.file ≢ path other.unit other.file)) }
    {
        let kept = (*self.pairs.get(slot_of_pair(one, other))?)?;
        if kept.one.is(one) && kept.other.is(other) {
            return Some(kept.same);
        }
        None
    }

    /// Remembers whether two files have the same path.
    pub(crate) fn remember(&mut self, one: NamedFile, other: NamedFile, same: bool)
        ensures { (path : ℕ → ℕ → List ℕ) → ArePairsOf path self.old.pairs.items
            → MatchBool same (path one.unit one.file ≡ path other.unit other.file)
            (path one.unit one.file ≢ path other.unit other.file) → ArePairsOf path self.new.pairs.items }
    {
        if let Some(slot) = self.pairs.get_mut(slot_of_pair(one, other)) {
            *slot = Some(ComparedFiles { one, other, same });
        }
    }
}

// Slots without a pair.
fn no_pairs(alloc: Global) -> Result<Vec<Option<ComparedFiles>>, AllocError>
    ensures { IfOk result (λ pairs. (path : ℕ → ℕ → List ℕ) → ArePairsOf path pairs.items) }
{
    let mut pairs = Vec::with_capacity(alloc, 1 << BITS)?;
    for _ in 0..1 << BITS {
        pairs.push(None)?;
    }
    Ok(pairs)
}

// The slot that a number selects.
fn slot_of(number: u64) -> usize {
    (number.wrapping_mul(0x9e37_79b9_7f4a_7c15) >> (64 - BITS)) as usize
}

// The slot that two files select.
fn slot_of_pair(one: NamedFile, other: NamedFile) -> usize {
    let first = one.unit.wrapping_mul(3).wrapping_add(one.file);
    let second = other.unit.wrapping_mul(3).wrapping_add(other.file);
    slot_of(
        first
            .wrapping_mul(0xd6e8_feb8_6659_fd93)
            .wrapping_add(second),
    )
}
