//! Keeps what was made for files, so that it isn't made again for code that alternates between files.
ghost use Rattle.std.specs.Prelude.{◌≡◌, ◌≢◌, ℕ, List, IfOk, IfSome, IsTrue, MatchBool};
ghost use Rattle.lnt_records.specs.KeptPaths.{AreTextsOf, IsTextOf};

use std::alloc::{AllocError, Global};

/// What was made for a file: its path, or the field of a record with its path.
#[derive(Drop)]
pub struct FileText {
    pub unit: u64,
    pub file: u64,
    pub text: Vec<u8>,
}

impl FileText {
    // Whether it was made for this file.
    #[inline(always)]
    pub(crate) fn is_of(&self, unit: u64, file: u64) -> bool
        ensures { IsTrue result → (self.now.unit ≡ unit) × (self.now.file ≡ file) }
    {
        self.unit == unit && self.file == file
    }

    /// Whether it is this text.
    pub fn is_text(&self, text: &[u8]) -> bool
        ensures { MatchBool result (self.now.text.items ≡ text.now) (self.now.text.items ≢ text.now) }
    {
        self.text.as_slice() == text
    }
}

/// The texts of files, one in each slot, which the sum of the unit and the file number selects. Of those that are longer than others
/// may be, one is kept.
#[derive(Drop)]
pub struct FileTexts {
    slots: Vec<Option<FileText>>,
    long: Option<FileText>,
    longest: usize,
}

impl FileTexts {
    /// Nothing is kept. The number of slots is a power of two; a text in a slot has at most `longest` bytes.
    pub fn new(alloc: Global, count: u64, longest: usize) -> Result<FileTexts, AllocError>
        ensures { IfOk result (λ texts. (text_of : ℕ → ℕ → List ℕ) → AreTextsOf text_of texts) }
    {
        let mut slots = Vec::new(alloc);
        for _ in 0..count {
            slots.push(None)?;
        }
        Ok(FileTexts {
            slots,
            long: None,
            longest,
        })
    }

    /// Takes out the text of a file, if it is kept.
    #[inline(always)]
    pub fn take(&mut self, unit: u64, file: u64) -> Option<FileText>
        ensures kept { (text_of : ℕ → ℕ → List ℕ) → AreTextsOf text_of self.old → AreTextsOf text_of self.new }
        ensures found { IfSome result (λ kept. (kept.unit ≡ unit) × (kept.file ≡ file)
            × ((text_of : ℕ → ℕ → List ℕ) → AreTextsOf text_of self.old → IsTextOf text_of kept)) }
    {
        let place = self.place_of(unit, file);
        if let Some(kept) = self.slots.get_mut(place)?.take() {
            if kept.is_of(unit, file) {
                return Some(kept);
            }
        }
        let long = self.long.take()?;
        if !long.is_of(unit, file) {
            return None;
        }
        Some(long)
    }

    /// Keeps the text of a file, in place of another.
    #[inline(always)]
    pub fn keep(&mut self, kept: FileText)
        ensures { (text_of : ℕ → ℕ → List ℕ) → AreTextsOf text_of self.old → IsTextOf text_of kept → AreTextsOf text_of self.new }
    {
        if kept.text.len() > self.longest {
            self.long = Some(kept);
            return;
        }
        let place = self.place_of(kept.unit, kept.file);
        if let Some(slot) = self.slots.get_mut(place) {
            *slot = Some(kept);
        }
    }

    // The slot for a file.
    #[inline(always)]
    fn place_of(&self, unit: u64, file: u64) -> usize {
        unit.wrapping_add(file) as usize & self.slots.len().wrapping_sub(1)
    }
}
